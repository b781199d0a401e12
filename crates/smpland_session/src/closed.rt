//! Commands on a journal, as long as none is open.
ghost use Rattle.std.specs.Prelude.{◌≡◌, OnOk};
ghost use Rattle.smpland_session.specs.Exchanges.{TellsClosed, why_closed};

use crate::answering::write_ignored;
use smpland_lines::{DriverCommand, Writer, refuse};
use std::alloc::{AllocError, Global};

/// The reason why nothing comes of a command on a journal, as long as none is open.
#[derive(Clone, Copy, Debug, PartialEq, Eq)]
pub enum Closed {
    /// No journal was opened.
    NotOpened,
    /// The journal opens with the reopening that is under way.
    Reopening,
    /// What the command tells is of no epoch that goes on.
    Old,
}

impl Closed {
    /// The reason of this command.
    pub fn of(command: DriverCommand<'_, '_>, is_reopening: bool) -> Closed
        ensures { result ≡ why_closed command.entry is_reopening }
    {
        match command {
            DriverCommand::Restarted { .. }
            | DriverCommand::Answered { .. }
            | DriverCommand::Copied { .. }
                if is_reopening => { Closed::Old }
            DriverCommand::Begin { .. }
            | DriverCommand::Answered { .. }
            | DriverCommand::Approve { .. }
            | DriverCommand::Restarted { .. }
            | DriverCommand::Restore { .. }
            | DriverCommand::NewEpoch
            | DriverCommand::Copied { .. } => {
                if is_reopening {
                    Closed::Reopening
                } else {
                    Closed::NotOpened
                }
            }
        }
    }

    /// Writes the reply.
    pub fn write(self, alloc: Global, writer: &mut Writer) -> Result<(), AllocError>
        ensures { OnOk result (TellsClosed self writer.old.tokens writer.new.tokens) }
    {
        match self {
            Closed::NotOpened => refuse(writer, alloc, "NotOpened", &[]),
            Closed::Reopening => refuse(writer, alloc, "Reopening", &[]),
            Closed::Old => write_ignored(writer, "old"),
        }
    }
}
