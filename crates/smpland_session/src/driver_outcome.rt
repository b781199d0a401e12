//! The outcomes of commands on an open journal: what their replies tell.
ghost use Rattle.std.specs.Prelude.{◌≡◌, ◌++◌, IfSome, OnOk, string_bytes};
ghost use Rattle.smpland_state.specs.Given.{given_at};
ghost use Rattle.smpland_state.specs.Permits.{given_member};
ghost use Rattle.smpland_session.specs.Outcomes.{KnowsServers, TellsOutcome, has_changed};

use crate::decline::Decline;
use sm_reservation::StreamId;
use sm_server::{ServerId, ShardId};
use smpland_lines::{Writer, write_text};
use smpland_state::{BegunPlan, GivenAt, JournalState};
use std::alloc::{AllocError, Global};

/// The outcome of a command on an open journal.
#[derive(Drop)]
pub enum DriverOutcome {
    /// A plan has begun.
    Begun(BegunPlan),
    /// A plan had begun under this name before. Unless a reopening is under way, it goes on.
    BegunBefore {
        plan: BegunPlan,
        goes_on: bool,
    },
    /// A stream has made its step, and these streams of its plan have come to where they stand since.
    Moved {
        stream: StreamId,
        gone_on: Vec<StreamId>,
    },
    /// The restart of a server is approved.
    Approved {
        server: ServerId,
        permit: u64,
    },
    /// It was approved under this name before.
    ApprovedBefore(GivenAt),
    /// The restart of a server has ended.
    Up(ServerId),
    /// A server that has lost all it had is told its cells.
    Restored {
        server: ServerId,
        nonce: u64,
    },
    /// It was told this before.
    RestoredBefore {
        server: ServerId,
        nonce: u64,
    },
    /// The next epoch has opened.
    NextEpoch,
    /// The copies of a shard are noted.
    Copied(ShardId),
    /// Nothing has come of the command.
    Declined(Decline),
}

/// Writes what came of a permit that was given before, if it has not been forgotten.
fn write_approved_before(
    opened: &JournalState,
    writer: &mut Writer,
    at: GivenAt,
) -> Result<(), AllocError>
    ensures { OnOk result (IfSome (given_at opened.now.permits at) (λ given. writer.new.tokens
        ≡ writer.old.tokens ++ given_member opened.now.driver (string_bytes given.server) given.permit)) }
{
    match opened.permits.get(at) {
        Some(given) => opened.write_given(writer, given.server.as_str(), given.permit),
        None => Ok(()),
    }
}

impl DriverOutcome {
    /// Whether something has changed.
    pub fn has_changed(&self) -> bool
        ensures { result ≡ has_changed self.now }
    {
        match self {
            DriverOutcome::Begun(_)
            | DriverOutcome::Moved { .. }
            | DriverOutcome::Approved { .. }
            | DriverOutcome::Up(_)
            | DriverOutcome::Restored { .. }
            | DriverOutcome::NextEpoch
            | DriverOutcome::Copied(_) => true,
            DriverOutcome::BegunBefore { .. }
            | DriverOutcome::ApprovedBefore(_)
            | DriverOutcome::RestoredBefore { .. }
            | DriverOutcome::Declined(_) => false,
        }
    }

    /// Writes the reply, after the change.
    pub fn write(
        &self,
        opened: &JournalState,
        alloc: Global,
        writer: &mut Writer,
    ) -> Result<(), AllocError>
        requires { KnowsServers opened.now.driver self.now }
        ensures { OnOk result (TellsOutcome opened.now self.now writer.old.tokens writer.new.tokens) }
    {
        match self {
            DriverOutcome::Begun(plan) => opened.write_begun(alloc, writer, *plan),
            DriverOutcome::BegunBefore { plan, goes_on } => {
                opened.write_begun_again(alloc, writer, *plan, *goes_on)
            }
            DriverOutcome::Moved { stream, gone_on } => {
                opened.write_taken(alloc, writer, *stream, gone_on.as_slice())
            }
            DriverOutcome::Approved { server, permit } => {
                opened.write_approved(writer, *server, *permit)
            }
            DriverOutcome::ApprovedBefore(at) => write_approved_before(opened, writer, *at),
            DriverOutcome::Up(server) => write_text(writer, "up", opened.name_of(*server)),
            DriverOutcome::Restored { server, nonce } => {
                opened.write_told(alloc, writer, *server, *nonce)
            }
            DriverOutcome::RestoredBefore { server, nonce } => {
                opened.write_told(alloc, writer, *server, *nonce)
            }
            DriverOutcome::NextEpoch => opened.write_opened(alloc, writer),
            DriverOutcome::Copied(shard) => opened.write_copied(writer, *shard),
            DriverOutcome::Declined(why) => why.write(opened, alloc, writer),
        }
    }
}
