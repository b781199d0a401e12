//! What is recorded: all of it, or of one shard or plan.
ghost use Rattle.std.specs.Prelude.{◌≡◌, ◌++◌, OnOk, codes, is_some};
ghost use Rattle.smpland_lines.specs.Members.{object_member};
ghost use Rattle.smpland_state.specs.State.{TellsPlanState, shard_state_reply};
ghost use Rattle.smpland_session.specs.Questions.{TellsOf, TellsState, condition_word, fence_now, recorded_of};
ghost use Rattle.smpland_session.specs.Questions.{reopening_progress, state_head, state_members};

use crate::session::Session;
use crate::under_way::UnderWay;
use smpland_lines::{StateOf, Writer, write_number, write_text};
use smpland_state::{JournalState, write_plan_of, write_recorded, write_shard_of};
use std::alloc::{AllocError, Global};

impl Session {
    /// The fence of the journal that is open, 0 without one.
    fn fence(&self) -> u64
        ensures { result ≡ fence_now self.now.opened }
    {
        match &self.opened {
            Some(opened) => opened.driver.fence(),
            None => 0,
        }
    }

    /// The word for what there is: a journal or none, or a reopening.
    fn condition(&self) -> &'static str
        ensures { result.now ≡ condition_word self.now.opened self.now.under_way }
    {
        match (&self.under_way, &self.opened) {
            (Some(_), _) => "reopening",
            (None, Some(_)) => "open",
            (None, None) => "new",
        }
    }

    /// Writes, as members, where the journal stands, and whether anything may begin.
    fn write_state_head(&self, alloc: Global, writer: &mut Writer) -> Result<(), AllocError>
        ensures { OnOk result (writer.new.tokens ≡ writer.old.tokens ++ state_head self.now) }
    {
        self.write_place(alloc, writer)?;
        write_number(writer, "fence", self.fence())?;
        write_text(writer, "is", self.condition())?;
        Ok(())
    }

    /// Writes the members of the state.
    fn write_state_members(&self, alloc: Global, writer: &mut Writer) -> Result<(), AllocError>
        ensures { OnOk result (writer.new.tokens ≡ writer.old.tokens ++ state_members self.now) }
    {
        self.write_state_head(alloc, writer)?;
        write_recorded_of(&self.opened, self.under_way.is_some(), writer)?;
        write_progress_of(&self.under_way, alloc, writer)?;
        Ok(())
    }

    /// Writes all that is recorded, and how far a reopening is.
    fn write_state(&self, alloc: Global, writer: &mut Writer) -> Result<(), AllocError>
        ensures { OnOk result (writer.new.tokens
            ≡ writer.old.tokens ++ object_member (codes "state") (state_members self.now)) }
    {
        writer.key("state")?;
        writer.begin_object()?;
        self.write_state_members(alloc, writer)?;
        writer.end_object()?;
        Ok(())
    }

    /// Writes what is recorded of the shard with a name.
    fn tell_shard(&self, alloc: Global, name: &str, writer: &mut Writer) -> Result<(), AllocError>
        ensures { OnOk result (TellsOf self.now.opened
            (λ o before after. after ≡ before ++ shard_state_reply o.driver name.now)
            writer.old.tokens writer.new.tokens) }
    {
        match &self.opened {
            Some(opened) => write_shard_of(opened, alloc, writer, name),
            None => self.refuse_closed(alloc, writer),
        }
    }

    /// Writes how far the plan with a number is.
    fn tell_plan(&self, alloc: Global, number: u32, writer: &mut Writer) -> Result<(), AllocError>
        ensures { OnOk result (TellsOf self.now.opened
            (λ o. TellsPlanState o (is_some self.now.under_way) number) writer.old.tokens writer.new.tokens) }
    {
        let is_reopening = self.under_way.is_some();
        match &self.opened {
            Some(opened) => write_plan_of(opened, is_reopening, alloc, writer, number),
            None => self.refuse_closed(alloc, writer),
        }
    }

    /// Writes what is recorded of a part of the state.
    pub(super) fn tell_state(
        &self,
        alloc: Global,
        of: StateOf<'_>,
        writer: &mut Writer,
    ) -> Result<(), AllocError>
        ensures { OnOk result (TellsState of.entry self.now writer.old.tokens writer.new.tokens) }
    {
        match of {
            StateOf::Whole => self.write_state(alloc, writer),
            StateOf::Shard(name) => self.tell_shard(alloc, name, writer),
            StateOf::Plan(number) => self.tell_plan(alloc, number, writer),
        }
    }
}

/// Writes, as members, all that is recorded in the journal, if there is one.
fn write_recorded_of(
    opened: &Option<JournalState>,
    is_reopening: bool,
    writer: &mut Writer,
) -> Result<(), AllocError>
    ensures { OnOk result (writer.new.tokens ≡ writer.old.tokens ++ recorded_of opened.now is_reopening) }
{
    match opened {
        Some(opened) => write_recorded(opened, is_reopening, writer),
        None => Ok(()),
    }
}

/// Writes, as a member, how far a reopening is, if one is under way.
fn write_progress_of(
    under_way: &Option<UnderWay>,
    alloc: Global,
    writer: &mut Writer,
) -> Result<(), AllocError>
    ensures { OnOk result (writer.new.tokens ≡ writer.old.tokens ++ reopening_progress under_way.now) }
{
    match under_way {
        Some(current) => current.write_progress(alloc, writer),
        None => Ok(()),
    }
}
