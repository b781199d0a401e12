//! A reopening that is under way, and the replies to lines on it.
ghost use Rattle.std.specs.Prelude.{◌≡◌, ◌++◌, IfOk, OnOk, string_bytes};
ghost use Rattle.smpland_state.specs.Bits.{hexadecimal};
ghost use Rattle.smpland_reopening_lines.specs.Outcomes.{TellsTaken};
ghost use Rattle.smpland_reopening_lines.specs.Parties.{fences_member};
ghost use Rattle.smpland_reopening_lines.specs.Progress.{progress_member};
ghost use Rattle.smpland_reopening_lines.specs.Settles.{settles_member};
ghost use Rattle.smpland_session.specs.Questions.{fences_left, orders_during};
ghost use Rattle.smpland_session.specs.Reopenings.{TellsNotUnderWay, TellsUnderWay};

use crate::answering::write_ignored;
use smpland_lines::{Writer, refuse};
use smpland_reopening::DocumentReopening;
use smpland_reopening_lines::{ReopeningOutcome, write_fences, write_progress, write_settles};
use smpland_state::{JournalState, hexadecimal, write_no_list};
use std::alloc::{AllocError, Global};

/// A reopening that is under way.
#[derive(Drop)]
pub(crate) struct UnderWay {
    pub reopening: DocumentReopening,
}

impl UnderWay {
    /// The journal in hexadecimal digits.
    fn journal(&self, alloc: Global) -> Result<String, AllocError>
        ensures { IfOk result (λ text. string_bytes text ≡ hexadecimal self.now.reopening.journal) }
    {
        hexadecimal(alloc, self.reopening.journal())
    }

    /// Writes, as a member, the fences to the parties that have not answered.
    pub fn write_fences(&self, alloc: Global, writer: &mut Writer) -> Result<(), AllocError>
        ensures { OnOk result (writer.new.tokens
            ≡ writer.old.tokens ++ fences_member (hexadecimal self.now.reopening.journal) self.now.reopening) }
    {
        let journal = self.journal(alloc)?;
        write_fences(writer, alloc, &self.reopening, journal.as_str())
    }

    /// Writes the reply to a line on the reopening, after the change.
    fn write_outcome(
        &self,
        came: &ReopeningOutcome<'_>,
        alloc: Global,
        writer: &mut Writer,
    ) -> Result<(), AllocError>
        ensures { OnOk result (TellsTaken (hexadecimal self.now.reopening.journal) self.now.reopening came.now
            writer.old.tokens writer.new.tokens) }
    {
        let journal = self.journal(alloc)?;
        came.write(&self.reopening, journal.as_str(), alloc, writer)
    }

    /// Writes, as a member, the fences that are not answered: none once something is confirmed.
    fn write_fences_left(&self, alloc: Global, writer: &mut Writer) -> Result<(), AllocError>
        ensures { OnOk result (writer.new.tokens ≡ writer.old.tokens ++ fences_left self.now.reopening) }
    {
        if self.reopening.is_confirmed() {
            write_no_list(writer, "fence")
        } else {
            self.write_fences(alloc, writer)
        }
    }

    /// Writes, as a member, the settles that are not answered.
    fn write_settles(&self, alloc: Global, writer: &mut Writer) -> Result<(), AllocError>
        ensures { OnOk result (writer.new.tokens
            ≡ writer.old.tokens ++ settles_member (hexadecimal self.now.reopening.journal) self.now.reopening) }
    {
        let journal = self.journal(alloc)?;
        write_settles(writer, alloc, &self.reopening, journal.as_str())
    }

    /// Writes, as members, the fences and the settles that are not answered: there are no orders and no notices.
    pub fn write_orders(&self, alloc: Global, writer: &mut Writer) -> Result<(), AllocError>
        ensures { OnOk result (writer.new.tokens ≡ writer.old.tokens ++ orders_during self.now.reopening) }
    {
        write_no_list(writer, "orders")?;
        self.write_fences_left(alloc, writer)?;
        self.write_settles(alloc, writer)?;
        write_no_list(writer, "notice")?;
        Ok(())
    }

    /// Writes, as a member, how far the reopening is.
    pub fn write_progress(&self, alloc: Global, writer: &mut Writer) -> Result<(), AllocError>
        ensures { OnOk result (writer.new.tokens ≡ writer.old.tokens ++ progress_member self.now.reopening) }
    {
        write_progress(writer, alloc, &self.reopening)
    }
}

/// Writes the reply to a line on a reopening, as long as none is under way.
fn write_not_under_way(
    opened: &Option<JournalState>,
    alloc: Global,
    writer: &mut Writer,
) -> Result<(), AllocError>
    ensures { OnOk result (TellsNotUnderWay opened.now writer.old.tokens writer.new.tokens) }
{
    match opened {
        Some(_) => write_ignored(writer, "old"),
        None => refuse(writer, alloc, "NotOpened", &[]),
    }
}

/// Writes the reply to a line on the reopening under way, after the change.
pub(crate) fn write_outcome(
    came: &ReopeningOutcome<'_>,
    opened: &Option<JournalState>,
    under_way: &Option<UnderWay>,
    alloc: Global,
    writer: &mut Writer,
) -> Result<(), AllocError>
    ensures { OnOk result (TellsUnderWay opened.now under_way.now came.now writer.old.tokens writer.new.tokens) }
{
    match came {
        ReopeningOutcome::Complete => match opened {
            Some(opened) => opened.write_opened(alloc, writer),
            None => Ok(()),
        },
        ReopeningOutcome::Fenced
        | ReopeningOutcome::Confirmed
        | ReopeningOutcome::Settled
        | ReopeningOutcome::Old
        | ReopeningOutcome::Bad(_)
        | ReopeningOutcome::Refused(_) => match under_way {
            Some(current) => current.write_outcome(came, alloc, writer),
            None => write_not_under_way(opened, alloc, writer),
        },
    }
}
