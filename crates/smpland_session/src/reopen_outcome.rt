//! The outcomes of lines that ask for a reopening: what their replies tell.
ghost use Rattle.std.specs.Prelude.{◌≡◌, ◌++◌, OnOk};
ghost use Rattle.smpland_lines.specs.Refusals.{refused_member};
ghost use Rattle.smpland_session.specs.Lost.{unknown_server};
ghost use Rattle.smpland_session.specs.Reopenings.{TellsNotBegun, TellsReopen, has_begun};

use crate::under_way::UnderWay;
use sm_plan_text::{Document, TextFault};
use smpland_lines::{BadLine, CommandMember, Field, Writer, refuse, write_bad};
use smpland_reopening::ReopenFault;
use smpland_reopening_lines::refuse_reopen;
use std::alloc::{AllocError, Global};

/// The reason why no reopening has begun.
#[derive(Drop)]
pub enum NotBegun {
    NoMemory,
    /// Nothing is recorded, and the line does not name a journal and its epoch.
    NotOpened,
    /// What is recorded is of another journal.
    OtherJournal,
    /// No epoch follows the last one.
    LastEpoch,
    /// The document is malformed.
    Malformed(TextFault),
    /// A server of this name is said to be lost, and nobody knows it.
    UnknownLost(String),
    /// None may begin under the document.
    Refused(Document, ReopenFault),
}

/// The outcome of a line that asks for a reopening.
#[derive(Drop)]
pub enum ReopenOutcome {
    Begun,
    NotBegun(NotBegun),
}

impl From<AllocError> for NotBegun {
    ghost use Rattle.smpland_session.specs.declared.reopen_outcome.NotBegun.TheVariants.{NoMemory};

    ghost from_gives = { λ _ why. why ≡ NoMemory };

    fn from(_error: AllocError) -> Self
        ensures { result ≡ NotBegun.NoMemory }
    {
        NotBegun::NoMemory
    }
}

/// Writes that nobody knows a server.
fn refuse_unknown(writer: &mut Writer, alloc: Global, name: &str) -> Result<(), AllocError>
    ensures { OnOk result (writer.new.tokens ≡ writer.old.tokens ++ refused_member (unknown_server name.now)) }
{
    refuse(writer, alloc, "UnknownName", &[Field::Name("server", name)])
}

impl NotBegun {
    /// Writes the reply.
    fn write(&self, alloc: Global, writer: &mut Writer) -> Result<(), AllocError>
        ensures { OnOk result (TellsNotBegun self.now writer.old.tokens writer.new.tokens) }
    {
        match self {
            NotBegun::NoMemory => Err(AllocError),
            NotBegun::NotOpened => refuse(writer, alloc, "NotOpened", &[]),
            NotBegun::OtherJournal => refuse(writer, alloc, "OtherJournal", &[]),
            NotBegun::LastEpoch => refuse(writer, alloc, "LastEpoch", &[]),
            NotBegun::Malformed(fault) => write_bad(
                writer,
                alloc,
                BadLine::Within(CommandMember::Document, *fault),
            ),
            NotBegun::UnknownLost(name) => refuse_unknown(writer, alloc, name.as_str()),
            NotBegun::Refused(document, fault) => {
                refuse_reopen(writer, alloc, &document.config, *fault)
            }
        }
    }
}

impl ReopenOutcome {
    /// Whether a reopening has begun.
    pub fn has_begun(&self) -> bool
        ensures { result ≡ has_begun self.now }
    {
        match self {
            ReopenOutcome::Begun => true,
            ReopenOutcome::NotBegun(_) => false,
        }
    }

    /// Writes the reply, after the change.
    pub fn write(
        &self,
        under_way: &Option<UnderWay>,
        alloc: Global,
        writer: &mut Writer,
    ) -> Result<(), AllocError>
        ensures { OnOk result (TellsReopen under_way.now self.now writer.old.tokens writer.new.tokens) }
    {
        match self {
            ReopenOutcome::Begun => match under_way {
                Some(begun) => begun.write_fences(alloc, writer),
                None => Ok(()),
            },
            ReopenOutcome::NotBegun(why) => why.write(alloc, writer),
        }
    }
}
