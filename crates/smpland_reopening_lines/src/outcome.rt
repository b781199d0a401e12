//! The outcomes of lines on a reopening: what their replies tell.
ghost use Rattle.std.specs.Prelude.{◌≡◌, ◌++◌, OnOk};
ghost use Rattle.sm_reopening.specs.Ongoing.{net_reopening};
ghost use Rattle.smpland_reopening.specs.Waiting.{unsettled_parties};
ghost use Rattle.smpland_reopening_lines.specs.Outcomes.{TellsTaken, has_counted};
ghost use Rattle.smpland_reopening_lines.specs.Parties.{waiting_member};
ghost use Rattle.smpland_reopening_lines.specs.Proposals.{TellsAwaited};

use crate::proposed::{write_proposal, write_waiting};
use crate::refused::refuse_confirm;
use crate::settles::write_settles;
use smpland_lines::{BadLine, Writer, write_bad, write_text};
use smpland_reopening::{ConfirmRefusal, DocumentReopening};
use std::alloc::{AllocError, Global};

/// The outcome of a line on a reopening that is under way.
#[derive(Clone, Copy, Debug, PartialEq, Eq)]
pub enum ReopeningOutcome<'a> {
    /// A party has answered the fence.
    Fenced,
    /// A settlement is confirmed.
    Confirmed,
    /// A party has taken its settle, and others have not taken theirs.
    Settled,
    /// The last party has taken its settle.
    Complete,
    /// The line tells nothing new.
    Old,
    /// The line is malformed.
    Bad(BadLine<'a>),
    /// Nothing is confirmed.
    Refused(ConfirmRefusal),
}

/// Writes the parties whose answers have to come, or otherwise what may be confirmed.
fn write_next(
    alloc: Global,
    writer: &mut Writer,
    reopening: &DocumentReopening,
) -> Result<(), AllocError>
    ensures { OnOk result (TellsAwaited reopening.now writer.old.tokens writer.new.tokens) }
{
    let parties = reopening.waits_for(alloc)?;
    if parties.is_empty() {
        write_proposal(writer, alloc, reopening)
    } else {
        write_waiting(writer, reopening, &parties)
    }
}

/// Writes the parties that have not taken their settles.
fn write_unsettled(
    alloc: Global,
    writer: &mut Writer,
    reopening: &DocumentReopening,
) -> Result<(), AllocError>
    ensures { OnOk result (writer.new.tokens ≡ writer.old.tokens
        ++ waiting_member reopening.now.numbering (unsettled_parties (net_reopening reopening.now.ongoing))) }
{
    let parties = reopening.unsettled(alloc)?;
    write_waiting(writer, reopening, &parties)
}

impl ReopeningOutcome<'_> {
    /// Whether the line has told or confirmed something.
    pub fn has_counted(&self) -> bool
        ensures { result ≡ has_counted self.now }
    {
        match self {
            ReopeningOutcome::Fenced
            | ReopeningOutcome::Confirmed
            | ReopeningOutcome::Settled
            | ReopeningOutcome::Complete => true,
            ReopeningOutcome::Old | ReopeningOutcome::Bad(_) | ReopeningOutcome::Refused(_) => {
                false
            }
        }
    }

    /// Writes the reply, after the change, of a reopening of this journal. Nothing is written of the last settle: the
    /// next epoch is open, and that is told.
    pub fn write(
        &self,
        reopening: &DocumentReopening,
        journal: &str,
        alloc: Global,
        writer: &mut Writer,
    ) -> Result<(), AllocError>
        ensures { OnOk result (TellsTaken journal.now reopening.now self.now writer.old.tokens writer.new.tokens) }
    {
        match self {
            ReopeningOutcome::Fenced => write_next(alloc, writer, reopening),
            ReopeningOutcome::Confirmed => write_settles(writer, alloc, reopening, journal),
            ReopeningOutcome::Settled => write_unsettled(alloc, writer, reopening),
            ReopeningOutcome::Complete => Ok(()),
            ReopeningOutcome::Old => write_text(writer, "ignored", "old"),
            ReopeningOutcome::Bad(bad) => write_bad(writer, alloc, *bad),
            ReopeningOutcome::Refused(refusal) => {
                refuse_confirm(writer, alloc, reopening, *refusal)
            }
        }
    }
}
