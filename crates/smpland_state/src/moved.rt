//! The effects of an answer.
ghost use Rattle.std.specs.Prelude.{◌≡◌, ◌++◌, OnOk};
ghost use Rattle.sm_driver.specs.Driver.{record_of};
ghost use Rattle.smpland_state.specs.Replies.{moved_member, moved_members, position_of, step_members};

use crate::messages::Messages;
use sm_reservation::StreamId;
use smpland_lines::{Writer, write_number};
use std::alloc::AllocError;

impl Messages<'_> {
    /// The number of instructions that a stream has made: 0 if it has not begun.
    fn position(&self, id: StreamId) -> u64
        ensures { result ≡ position_of (record_of self.now.driver.now) id }
    {
        let machine = self.driver.machine();
        if machine.is_begun(id) {
            machine.position(id) as u64
        } else {
            0
        }
    }

    /// Writes which stream has made its step, and where it stands.
    fn write_step(&self, writer: &mut Writer, id: StreamId) -> Result<(), AllocError>
        ensures { OnOk result (writer.new.tokens ≡ writer.old.tokens
            ++ step_members (record_of self.now.driver.now) id) }
    {
        let at = self.position(id);
        write_number(writer, "plan", u64::from(id.plan))?;
        write_number(writer, "stream", u64::from(id.stream))?;
        write_number(writer, "at", at)?;
        Ok(())
    }

    /// Writes the same, as a member.
    fn write_moved(&self, writer: &mut Writer, id: StreamId) -> Result<(), AllocError>
        ensures { OnOk result (writer.new.tokens ≡ writer.old.tokens
            ++ moved_member (record_of self.now.driver.now) id) }
    {
        writer.key("moved")?;
        writer.begin_object()?;
        self.write_step(writer, id)?;
        writer.end_object()?;
        Ok(())
    }

    /// Writes that a stream has made its step, the messages of these streams of its plan, and whether the plan has
    /// ended.
    pub fn write_taken(
        &self,
        writer: &mut Writer,
        id: StreamId,
        gone_on: &[StreamId],
    ) -> Result<(), AllocError>
        ensures { OnOk result (writer.new.tokens ≡ writer.old.tokens
            ++ moved_members self.now.driver.now id gone_on.now) }
    {
        self.write_moved(writer, id)?;
        self.write_plan(writer, id.plan, gone_on)?;
        Ok(())
    }
}
