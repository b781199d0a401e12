//! A server's slots against what is recorded.
ghost use Rattle.std.specs.Prelude.{◌≡◌, ◌<◌, ◌∷◌, ◌++◌, [], IfOk, OnOk, codes, if◌then◌else◌, length, option_map};
ghost use Rattle.std.specs.List.{flat_map, list_any, range_with_len};
ghost use Rattle.sm_driver.specs.Driver.{record_of};
ghost use Rattle.sm_driver.specs.Orders.{net_order};
ghost use Rattle.smpland_state.specs.Audit.{agrees, audit_found, audit_reply, compared_member, differences_member};
ghost use Rattle.smpland_state.specs.Audit.{differing, differs, differs_member, has_ahead, is_shard_ahead};
ghost use Rattle.smpland_state.specs.Audit.{order_at_shard, shard_difference, slot_at_shard, unknown_shard_difference};
ghost use Rattle.smpland_state.specs.Audit.{word_members};
ghost use Rattle.smpland_state.specs.Audits.{HasSides, IsAuditOf};

mod comparing;
mod reading;
mod telling;

use crate::journal_state::JournalState;
use comparing::{
    cell_after, is_slot_ahead, recorded_cell, some_ahead, some_tell, tells_cell, tells_if_some,
    tells_something,
};
use reading::{slots_by_shard, streams_by_shard, unknown_shards_among};
use sm_driver::StreamOrder;
use sm_reservation::StreamId;
use sm_server::{Cell, ServerId, ShardId};
use smpland_lines::{BadLine, CommandMember, LinePart, SlotText, Writer, shard_name, write_bad};
use std::alloc::{AllocError, Global};
pub use telling::write_audited;
use telling::{write_difference, write_word};

/// The slots that a server has told, which were read at a place.
#[derive(Clone, Copy)]
pub struct ReadSlots<'r, 's> {
    pub server: &'r str,
    pub place: u64,
    pub slots: &'r [SlotText<'s>],
}

/// A server, the place at which its slots were read, and the two sides of each shard: the slot that is told, and the
/// stream that has a present order to the server.
#[derive(Drop)]
struct Audit<'o, 's> {
    opened: &'o JournalState,
    server: ServerId,
    place: u64,
    /// By the shards' numbers.
    told: Vec<Option<SlotText<'s>>>,
    /// By the shards' numbers.
    streams: Vec<Option<StreamId>>,
    /// The slots whose shards are not recorded.
    unknown_shards: Vec<SlotText<'s>>,
}

impl<'o, 's> Audit<'o, 's> {
    /// The slots of a server, with what they are compared with.
    fn new(
        alloc: Global,
        opened: &'o JournalState,
        server: ServerId,
        place: u64,
        slots: &[SlotText<'s>],
    ) -> Result<Audit<'o, 's>, AllocError>
        ensures of { IfOk result (λ audit. IsAuditOf opened.now server place audit) }
        ensures sides { IfOk result (HasSides opened.now server slots.now) }
    {
        let driver = &opened.driver;
        let config = driver.machine().config();
        let told = slots_by_shard(alloc, config, slots)?;
        let streams = streams_by_shard(alloc, driver, server)?;
        let unknown_shards = unknown_shards_among(alloc, config, slots)?;
        Ok(Audit {
            opened,
            server,
            place,
            told,
            streams,
            unknown_shards,
        })
    }

    /// The slot that is told of a shard, if one is.
    fn slot(&self, shard: ShardId) -> Option<SlotText<'s>>
        ensures { result ≡ slot_at_shard self.now.told.items shard }
    {
        self.told.get(shard.number() as usize).copied().flatten()
    }

    /// The present order for a shard, if there is one.
    fn order(&self, shard: ShardId) -> Option<StreamOrder>
        ensures { option_map net_order result
            ≡ order_at_shard self.now.opened.now.driver self.now.streams.items shard }
    {
        let id = self
            .streams
            .get(shard.number() as usize)
            .copied()
            .flatten()?;
        self.opened.driver.order(id)
    }

    /// Whether the last order of a shard's slot is none that this journal has sent.
    fn is_ahead(&self, shard: ShardId) -> bool
        ensures { result ≡ is_shard_ahead self.now.opened.now.driver self.now.told.items self.now.streams.items shard }
    {
        match self.slot(shard) {
            Some(slot) => is_slot_ahead(&self.opened.driver, self.order(shard), slot),
            None => false,
        }
    }

    /// Whether this is so of some shard.
    #[tactic(auto, using(crate::proofs::Audited::any_number))]
    fn some_shard_ahead(&self) -> bool
        ensures { result
            ≡ list_any (is_shard_ahead self.now.opened.now.driver self.now.told.items self.now.streams.items)
            (range_with_len 0 (length self.now.opened.now.driver.machine.placement.setup.shards)) }
    {
        let mut found = false;
        for number in 0..self.opened.driver.machine().config().shard_count() {
            found = found || self.is_ahead(ShardId::new(number));
        }
        found
    }

    /// Whether the last order of some slot is none that this journal has sent.
    fn has_ahead(&self) -> bool
        ensures { result ≡ has_ahead self.now.opened.now.driver self.now.told.items self.now.streams.items
            self.now.unknown_shards.items }
    {
        self.some_shard_ahead() || some_ahead(&self.opened.driver, self.unknown_shards.as_slice())
    }

    /// Whether a shard was recorded last at or before the place, and the server tells neither that nor what its present
    /// order makes of it.
    fn differs(&self, shard: ShardId) -> bool
        requires { self.now.server < (record_of self.now.opened.now.driver).sizes.servers }
        ensures { result ≡ differs self.now.opened.now self.now.server self.now.place self.now.told.items
            self.now.streams.items shard }
    {
        if self.opened.history.recorded(shard, self.server) > self.place {
            return false;
        }
        let driver = &self.opened.driver;
        let config = driver.machine().config();
        let recorded = recorded_cell(driver, shard, self.server);
        let next = cell_after(self.order(shard), &recorded);
        let slot = self.slot(shard);
        !tells_cell(config, &slot, &recorded) && !tells_if_some(config, &slot, &next)
    }

    /// Adds a shard to a list, if the server differs in it.
    fn push_if_differs(&self, shards: &mut Vec<ShardId>, shard: ShardId) -> Result<(), AllocError>
        requires { self.now.server < (record_of self.now.opened.now.driver).sizes.servers }
        ensures { OnOk result (shards.new.items ≡ shards.old.items
            ++ (if differs self.now.opened.now self.now.server self.now.place self.now.told.items
            self.now.streams.items shard then shard ∷ [] else [])) }
    {
        if self.differs(shard) {
            shards.push(shard)?;
        }
        Ok(())
    }

    /// The shards in which the server differs.
    #[tactic(auto, using(crate::proofs::Audited::filter_number))]
    fn differing(&self, alloc: Global) -> Result<Vec<ShardId>, AllocError>
        requires { self.now.server < (record_of self.now.opened.now.driver).sizes.servers }
        ensures { IfOk result (λ shards. shards.items ≡ differing self.now.opened.now self.now.server self.now.place
            self.now.told.items self.now.streams.items) }
    {
        let mut shards = Vec::new(alloc);
        for number in 0..self.opened.driver.machine().config().shard_count() {
            self.push_if_differs(&mut shards, ShardId::new(number))?;
        }
        Ok(shards)
    }

    /// Writes how a shard differs.
    fn write_shard(&self, writer: &mut Writer, shard: ShardId) -> Result<(), AllocError>
        requires { self.now.server < (record_of self.now.opened.now.driver).sizes.servers }
        ensures { OnOk result (writer.new.tokens ≡ writer.old.tokens
            ++ shard_difference self.now.opened.now.driver self.now.server self.now.told.items shard) }
    {
        let driver = &self.opened.driver;
        let config = driver.machine().config();
        let recorded = recorded_cell(driver, shard, self.server);
        write_difference(
            writer,
            config,
            shard_name(config, shard),
            recorded,
            self.slot(shard),
        )
    }

    /// Writes how these shards differ.
    fn write_shards(&self, writer: &mut Writer, shards: &[ShardId]) -> Result<(), AllocError>
        requires { self.now.server < (record_of self.now.opened.now.driver).sizes.servers }
        ensures { OnOk result (writer.new.tokens ≡ writer.old.tokens
            ++ flat_map (shard_difference self.now.opened.now.driver self.now.server self.now.told.items) shards.now) }
    {
        for shard in shards {
            self.write_shard(writer, *shard)?;
        }
        Ok(())
    }

    /// Writes the difference of a shard that is not recorded, if the server has something of it.
    fn write_unknown_shard(&self, writer: &mut Writer, slot: SlotText<'_>) -> Result<(), AllocError>
        ensures { OnOk result (writer.new.tokens ≡ writer.old.tokens
            ++ unknown_shard_difference self.now.opened.now.driver.machine.placement.setup slot.entry) }
    {
        if tells_something(slot) {
            let config = self.opened.driver.machine().config();
            write_difference(writer, config, slot.shard, Cell::Absent, Some(slot))?;
        }
        Ok(())
    }

    /// Writes the differences of the shards that are not recorded.
    fn write_unknown_shards(&self, writer: &mut Writer) -> Result<(), AllocError>
        ensures { OnOk result (writer.new.tokens ≡ writer.old.tokens
            ++ flat_map (unknown_shard_difference self.now.opened.now.driver.machine.placement.setup)
            self.now.unknown_shards.items) }
    {
        for slot in self.unknown_shards.as_slice() {
            self.write_unknown_shard(writer, *slot)?;
        }
        Ok(())
    }

    /// Writes both.
    fn write_each_difference(
        &self,
        writer: &mut Writer,
        shards: &[ShardId],
    ) -> Result<(), AllocError>
        requires { self.now.server < (record_of self.now.opened.now.driver).sizes.servers }
        ensures { OnOk result (writer.new.tokens ≡ writer.old.tokens
            ++ (flat_map (shard_difference self.now.opened.now.driver self.now.server self.now.told.items) shards.now
            ++ flat_map (unknown_shard_difference self.now.opened.now.driver.machine.placement.setup)
            self.now.unknown_shards.items)) }
    {
        self.write_shards(writer, shards)?;
        self.write_unknown_shards(writer)?;
        Ok(())
    }

    /// Writes them, as a member.
    fn write_differences(&self, writer: &mut Writer, shards: &[ShardId]) -> Result<(), AllocError>
        requires { self.now.server < (record_of self.now.opened.now.driver).sizes.servers }
        ensures { OnOk result (writer.new.tokens ≡ writer.old.tokens
            ++ differences_member self.now.opened.now.driver self.now.server self.now.told.items shards.now
            self.now.unknown_shards.items) }
    {
        writer.key("slots")?;
        writer.begin_array()?;
        self.write_each_difference(writer, shards)?;
        writer.end_array()?;
        Ok(())
    }

    /// Writes the members of a server that differs.
    fn write_differs_members(
        &self,
        writer: &mut Writer,
        name: &str,
        shards: &[ShardId],
    ) -> Result<(), AllocError>
        requires { self.now.server < (record_of self.now.opened.now.driver).sizes.servers }
        ensures { OnOk result (writer.new.tokens ≡ writer.old.tokens ++ (word_members name.now (codes "differs")
            ++ differences_member self.now.opened.now.driver self.now.server self.now.told.items shards.now
            self.now.unknown_shards.items)) }
    {
        write_word(writer, name, "differs")?;
        self.write_differences(writer, shards)?;
        Ok(())
    }

    /// Writes, as a member of a reply, in which shards a server differs, and what else it has.
    fn write_differs(
        &self,
        writer: &mut Writer,
        name: &str,
        shards: &[ShardId],
    ) -> Result<(), AllocError>
        requires { self.now.server < (record_of self.now.opened.now.driver).sizes.servers }
        ensures { OnOk result (writer.new.tokens ≡ writer.old.tokens
            ++ differs_member self.now.opened.now.driver name.now self.now.server self.now.told.items shards.now
            self.now.unknown_shards.items) }
    {
        writer.key("audit")?;
        writer.begin_object()?;
        self.write_differs_members(writer, name, shards)?;
        writer.end_object()?;
        Ok(())
    }

    /// Whether the server differs in no shard and has nothing else.
    fn agrees(&self, shards: &[ShardId]) -> bool
        ensures { result ≡ agrees shards.now self.now.unknown_shards.items }
    {
        shards.is_empty() && !some_tell(self.unknown_shards.as_slice())
    }

    /// Writes the same, or that it agrees.
    fn write_compared(
        &self,
        writer: &mut Writer,
        name: &str,
        shards: &[ShardId],
    ) -> Result<(), AllocError>
        requires { self.now.server < (record_of self.now.opened.now.driver).sizes.servers }
        ensures { OnOk result (writer.new.tokens ≡ writer.old.tokens
            ++ compared_member self.now.opened.now.driver name.now self.now.server self.now.told.items shards.now
            self.now.unknown_shards.items) }
    {
        if self.agrees(shards) {
            write_audited(writer, name, "agrees")
        } else {
            self.write_differs(writer, name, shards)
        }
    }

    /// Writes, as a member of a reply, what is found of the server.
    fn write_found(&self, alloc: Global, writer: &mut Writer, name: &str) -> Result<(), AllocError>
        requires { self.now.server < (record_of self.now.opened.now.driver).sizes.servers }
        ensures { OnOk result (writer.new.tokens ≡ writer.old.tokens
            ++ audit_found self.now.opened.now name.now self.now.server self.now.place self.now.told.items
            self.now.streams.items self.now.unknown_shards.items) }
    {
        if self.has_ahead() {
            return write_audited(writer, name, "ahead");
        }
        let shards = self.differing(alloc)?;
        self.write_compared(writer, name, shards.as_slice())
    }
}

/// Writes, as a member of a reply, whether a server's slots are as recorded.
pub fn write_audit(
    opened: &JournalState,
    alloc: Global,
    writer: &mut Writer,
    read: ReadSlots<'_, '_>,
) -> Result<(), AllocError>
    ensures { OnOk result (writer.new.tokens ≡ writer.old.tokens
        ++ audit_reply opened.now read.entry.server.now read.entry.place read.entry.slots.now) }
{
    match opened.driver.machine().config().server_named(read.server) {
        Some(server) => {
            let audit = Audit::new(alloc, opened, server, read.place, read.slots)?;
            audit.write_found(alloc, writer, read.server)
        }
        None => write_bad(
            writer,
            alloc,
            BadLine::UnknownName(LinePart::Line, CommandMember::Server),
        ),
    }
}
