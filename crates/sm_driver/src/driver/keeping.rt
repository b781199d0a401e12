//! Copies that a driver records, and those that a reopening keeps of them.
ghost use Rattle.std.specs.Prelude.{◌≡◌, ◌<◌, ◌⊎◌, ◌||◌, ℕ, IfOk, length, map, option_map, slice_index_or, false};
ghost use Rattle.std.specs.Prelude.{if◌then◌else◌};
ghost use Rattle.std.specs.List.{range_with_len};
ghost use Rattle.sm_placement.specs.Opening.{is_handing};
ghost use Rattle.sm_driver.specs.Copies.{HasNotedCopies, copies_effect, copies_of, is_handed_over, is_moving};
ghost use Rattle.sm_driver.specs.Copies.{is_order_for, is_ordered, is_told_now, kept_copies, shard_want};
ghost use Rattle.sm_driver.specs.Driver.{record_of};
ghost use Rattle.sm_driver.specs.Orders.{net_order};
ghost use Rattle.sm_driver.specs.declared.copies.CopiesEffect.TheVariants.{Noted};

use super::Driver;
use crate::copies::{CopiesEffect, ToldCopies};
use crate::order::StreamOrder;
use sm_server::{Cell, ServerId, ShardId};
use std::alloc::{AllocError, Global};

/// Marks the shard that an order is for.
fn mark(marks: &mut Vec<bool>, order: Option<StreamOrder>)
    ensures count { length marks.new.items ≡ length marks.old.items }
    ensures marked { (s : ℕ) → s < length marks.old.items → slice_index_or marks.new.items s false
        ≡ (slice_index_or marks.old.items s false || is_order_for s (option_map net_order order)) }
{
    if let Some(order) = order {
        let place = order.call.shard.number() as usize;
        if place < marks.len() {
            marks[place] = true;
        }
    }
}

impl Driver {
    /// The number of replicas of a shard that surely have each acknowledged write, as far as it was told.
    pub fn copies(&self, shard: ShardId) -> u32
        requires { shard < (record_of self.now).sizes.shards }
        ensures { result ≡ copies_of self.now shard }
    {
        self.copies.get(shard)
    }

    /// The number of replicas that a shard wants.
    fn want(&self, shard: ShardId) -> u32
        requires { shard < (record_of self.now).sizes.shards }
        ensures { result ≡ shard_want self.now.machine.placement.setup shard }
    {
        self.machine().config().shard(shard).want
    }

    /// Whether copies were told to the driver's journal, behind its last reopening.
    fn is_told_now(&self, told: ToldCopies) -> bool
        ensures { result ≡ is_told_now self.now told }
    {
        told.journal == self.journal && told.fence == self.fence
    }

    /// The effect that copies of a shard would have now.
    fn copies_effect(&self, shard: ShardId, told: ToldCopies) -> CopiesEffect
        requires { shard < (record_of self.now).sizes.shards }
        ensures { result ≡ copies_effect self.now shard told }
    {
        if !self.is_told_now(told) || told.copies <= self.copies(shard) {
            CopiesEffect::Old
        } else if told.copies > self.want(shard) {
            CopiesEffect::AboveWant
        } else {
            CopiesEffect::Noted
        }
    }

    /// Takes the copies that are told of a shard: notes them if they were told to this journal, behind its last
    /// reopening, are more than the recorded ones, and no more than the shard wants. Otherwise nothing changes.
    pub fn copied(&mut self, shard: ShardId, told: ToldCopies) -> CopiesEffect
        requires { shard < (record_of self.old).sizes.shards }
        ensures effect { result ≡ copies_effect self.old shard told }
        ensures noted { result ≡ Noted → HasNotedCopies shard told.copies self.old self.new }
        ensures unchanged { (result ≡ Noted) ⊎ (self.new ≡ self.old) }
    {
        match self.copies_effect(shard, told) {
            CopiesEffect::Noted => {
                self.copies.set(shard, told.copies);
                CopiesEffect::Noted
            }
            CopiesEffect::Old => CopiesEffect::Old,
            CopiesEffect::AboveWant => CopiesEffect::AboveWant,
        }
    }

    /// Whether a server's cell of a shard has a part in a handover.
    fn is_handing(&self, shard: ShardId, server: ServerId) -> bool
        requires shard { shard < (record_of self.now).sizes.shards }
        requires server { server < (record_of self.now).sizes.servers }
        ensures { result ≡ is_handing ((record_of self.now).place.cells shard server) }
    {
        let cell = self.machine().placement().cell(shard, server);
        matches!(cell, Cell::Prepared { .. } | Cell::Forwarding { .. })
    }

    /// Whether a handover of a shard is recorded.
    fn is_handed_over(&self, shard: ShardId) -> bool
        requires { shard < (record_of self.now).sizes.shards }
        ensures { result ≡ is_handed_over self.now shard }
    {
        for number in 0..self.machine().config().server_count() {
            if self.is_handing(shard, ServerId::new(number)) {
                return true;
            }
        }
        false
    }

    /// Whether a stream stands before an order for a shard, by the shards' numbers.
    fn ordered(&self, alloc: Global) -> Result<Vec<bool>, AllocError>
        ensures { IfOk result (λ marks. marks.items
            ≡ map (is_ordered self.now) (range_with_len 0 (record_of self.now).sizes.shards)) }
    {
        let mut ids = Vec::new(alloc);
        self.awaiting(&mut ids)?;
        let mut marks = vec![in alloc; false; self.machine().config().shard_count() as usize]?;
        for id in ids.as_slice() {
            mark(&mut marks, self.order(*id));
        }
        Ok(marks)
    }

    /// What a reopening keeps of a shard's copies, by whether a stream stands before an order for the shard.
    fn kept_of(&self, shard: ShardId, ordered: bool) -> u32
        requires shard { shard < (record_of self.now).sizes.shards }
        requires ordered { ordered ≡ is_ordered self.now shard }
        ensures { result ≡ (if is_moving self.now shard then 1 else copies_of self.now shard) }
    {
        if ordered || self.is_handed_over(shard) {
            1
        } else {
            self.copies(shard)
        }
    }

    /// What a reopening keeps of the copies, by the shards' numbers: 1 of those that have a present order or a recorded
    /// handover.
    pub fn kept_copies(&self, alloc: Global) -> Result<Vec<u32>, AllocError>
        ensures { IfOk result (λ kept. kept.items ≡ kept_copies self.now) }
    {
        let ordered = self.ordered(alloc)?;
        let mut kept = Vec::new(alloc);
        for number in 0..self.machine().config().shard_count() {
            let shard = ShardId::new(number);
            kept.push(self.kept_of(shard, ordered[number as usize]))?;
        }
        Ok(kept)
    }
}
