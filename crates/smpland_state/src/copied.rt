//! The reply that tells how many replicas of a shard surely have each acknowledged write.
ghost use Rattle.std.specs.Prelude.{◌≡◌, ◌<◌, ◌++◌, OnOk};
ghost use Rattle.sm_driver.specs.Driver.{record_of};
ghost use Rattle.smpland_state.specs.Copied.{copied_member, copied_members};

use crate::journal_state::JournalState;
use sm_server::ShardId;
use smpland_lines::{Writer, shard_name, write_number, write_text};
use std::alloc::AllocError;

impl JournalState {
    /// Writes the members of the reply.
    fn write_copied_members(&self, writer: &mut Writer, shard: ShardId) -> Result<(), AllocError>
        requires { shard < (record_of self.now.driver).sizes.shards }
        ensures { OnOk result (writer.new.tokens ≡ writer.old.tokens ++ copied_members self.now.driver shard) }
    {
        let config = self.driver.machine().config();
        write_text(writer, "shard", shard_name(config, shard))?;
        write_number(writer, "copies", u64::from(self.driver.copies(shard)))?;
        Ok(())
    }

    /// Writes, as a member of a reply, how many replicas of a shard surely have each acknowledged write.
    pub fn write_copied(&self, writer: &mut Writer, shard: ShardId) -> Result<(), AllocError>
        requires { shard < (record_of self.now.driver).sizes.shards }
        ensures { OnOk result (writer.new.tokens ≡ writer.old.tokens ++ copied_member self.now.driver shard) }
    {
        writer.key("copied")?;
        writer.begin_object()?;
        self.write_copied_members(writer, shard)?;
        writer.end_object()?;
        Ok(())
    }
}
