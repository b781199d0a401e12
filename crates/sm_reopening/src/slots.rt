//! A server's account of its slots.
ghost use Rattle.std.specs.Prelude.{◌≤◌, ℕ, length, slice_index_or};

use crate::party::FoundSlot;
use sm_server::ShardId;
use std::alloc::{AllocError, Global};

/// A server's account of each shard: what it has told of some. Of the others it has nothing.
#[derive(Debug, Drop)]
pub struct FoundSlots {
    /// By shard, the place of what was told of it, counted from 1; 0 for none.
    places: Vec<usize>,
    told: Vec<FoundSlot>,
    ghost near: { (s : ℕ) → slice_index_or places.items s 0 ≤ length told.items },
}

impl FoundSlots {
    ghost use Rattle.std.specs.Prelude.{◌≡◌, ◌==◌, ◌<◌, ℕ, IfOk, OnOk, if◌then◌else◌};
    ghost use Rattle.sm_reopening.specs.States.{no_slot, shards_in, slot_of};

    /// The account of a server that has told nothing of so many shards.
    pub fn nothing(alloc: Global, shards: u32) -> Result<FoundSlots, AllocError>
        ensures shards { IfOk result (λ slots. shards_in slots ≡ shards) }
        ensures nothing { IfOk result (λ slots. (s : ℕ) → slot_of slots s ≡ no_slot) }
    {
        let places = vec![in alloc; 0; shards as usize]?;
        let told = Vec::new(alloc);
        Ok(FoundSlots { places, told })
    }

    /// What was told of a shard.
    pub fn get(&self, shard: ShardId) -> FoundSlot
        ensures { result ≡ slot_of self.now shard }
    {
        let place = match self.places.get(shard.number() as usize) {
            Some(place) => *place,
            None => 0,
        };
        if place == 0 {
            return FoundSlot::absent();
        }
        match self.told.get(place - 1) {
            Some(slot) => *slot,
            None => FoundSlot::absent(),
        }
    }

    /// Takes what is told of a shard, in place of what was told before.
    pub fn put(&mut self, shard: ShardId, slot: FoundSlot) -> Result<(), AllocError>
        ensures shards { shards_in self.new ≡ shards_in self.old }
        ensures slots { OnOk result (shard < shards_in self.old → (s : ℕ) →
            slot_of self.new s ≡ (if shard == s then slot else slot_of self.old s)) }
    {
        let number = shard.number() as usize;
        if number < self.places.len() {
            self.told.extend_from_slice(&[slot])?;
            self.places[number] = self.told.len();
        }
        Ok(())
    }
}
