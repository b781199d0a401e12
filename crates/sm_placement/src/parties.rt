//! The other party of a handover, for each slot of a list: in blocks, each written when a slot of it first has a party.
ghost use Rattle.std.specs.Prelude.{◌≡◌, ◌<◌, ◌≤◌, ◌*◌, ◌^◌, length, vec_capacity, IfOk, Some, None};
ghost use Rattle.sm_placement.specs.declared.parties.TheConstants.{BLOCK};
ghost use Rattle.sm_placement.specs.Sums.{put};
ghost use Rattle.sm_placement.specs.Layout.{entries_of};

use sm_server::ServerId;
use std::alloc::{AllocError, Global};
use std::marker::Model;

/// The number of slots that share a block. A block of parties is one page of memory.
pub const BLOCK: usize = 256;

/// The other server of a handover, and the handover's number.
#[derive(Clone, Copy)]
pub struct Party {
    pub server: ServerId,
    pub number: u64,
}

/// A party for each slot. There is room for all of them from the beginning, and none is written before it is needed:
/// a block that has had no party has no start.
pub struct Parties {
    starts: Vec<Option<usize>>,
    parties: Vec<Party>,
}

/// Drops everything in one call, instead of one call for each list.
impl Drop for Parties {
    fn drop(self) {
        let Parties { starts, parties } = self;
        drop(starts);
        drop(parties);
    }
}

impl Model for Parties {
    ghost use Rattle.std.specs.Prelude.{◌≤◌, ◌*◌, length, vec_capacity};
    ghost use Rattle.sm_placement.specs.declared.parties.TheConstants.{BLOCK};
    ghost use Rattle.sm_placement.specs.Parties.{PartiesModel, IsBlocks};

    ghost Value = { PartiesModel };

    ghost view = { λ p. record { starts = p.starts.items; parties = p.parties.items } };

    ghost invariant = { λ p. record { blocks : IsBlocks p.starts.items p.parties.items; room : length p.starts.items * BLOCK ≤ vec_capacity p.parties } };
}

/// Returns the party that stands where none was set.
pub fn no_party() -> Party
    ensures { result ≡ record { server = 0; number = 0 } }
{
    Party {
        server: ServerId::new(0),
        number: 0,
    }
}

impl Parties {
    ghost use Rattle.sm_placement.specs.Parties.{party_at};

    /// Makes room for the parties of this many slots.
    pub fn new(alloc: Global, count: usize) -> Result<Parties, AllocError>
        requires { count < 2 ^ 32 }
        ensures room { IfOk result (λ p. count ≤ length p.starts * BLOCK) }
    {
        let blocks = count / BLOCK + 1;
        Ok(Parties {
            starts: vec![in alloc; None; blocks]?,
            parties: Vec::with_capacity(alloc, blocks * BLOCK)?,
        })
    }

    /// Copies the parties.
    pub fn copy(&self, alloc: Global) -> Result<Parties, AllocError>
        ensures { IfOk result (λ p. p ≡ self.now) }
    {
        let mut parties = Vec::with_capacity(alloc, self.starts.len() * BLOCK)?;
        parties.extend_from_slice(&self.parties)?;
        Ok(Parties {
            starts: Vec::from_slice(alloc, &self.starts)?,
            parties,
        })
    }

    /// Returns the party of a slot.
    #[inline(never)]
    pub fn get(&self, slot: usize) -> Party
        requires { slot < length self.now.starts * BLOCK }
        ensures { result ≡ party_at self.now.starts self.now.parties slot }
    {
        match self.starts[slot / BLOCK] {
            Some(start) => self.parties[start + slot % BLOCK],
            None => no_party(),
        }
    }

    /// Writes a block, and says where it starts. Takes no memory.
    fn write_block(&mut self, block: usize) -> usize
        requires block { block < length self.old.starts }
        requires unwritten { entries_of None self.old.starts block ≡ None }
        ensures start { entries_of None self.new.starts block ≡ Some result }
        ensures parties { party_at self.new.starts self.new.parties ≡ party_at self.old.starts self.old.parties }
        ensures blocks { length self.new.starts ≡ length self.old.starts }
    {
        let start = self.parties.len();
        match self.parties.resize(start + BLOCK, no_party()) {
            Ok(()) => {}
            Err(_) => unreachable!(),
        }
        self.starts[block] = Some(start);
        start
    }

    /// Returns where a block starts, which is written if it was not yet. Takes no memory.
    fn start_of(&mut self, block: usize) -> usize
        requires { block < length self.old.starts }
        ensures start { entries_of None self.new.starts block ≡ Some result }
        ensures parties { party_at self.new.starts self.new.parties ≡ party_at self.old.starts self.old.parties }
        ensures blocks { length self.new.starts ≡ length self.old.starts }
    {
        match self.starts[block] {
            Some(start) => start,
            None => self.write_block(block),
        }
    }

    /// Sets the party of a slot. Takes no memory.
    pub fn set(&mut self, slot: usize, party: Party)
        requires { slot < length self.old.starts * BLOCK }
        ensures parties { party_at self.new.starts self.new.parties
            ≡ put (party_at self.old.starts self.old.parties) slot party }
        ensures blocks { length self.new.starts ≡ length self.old.starts }
    {
        let start = self.start_of(slot / BLOCK);
        self.parties[start + slot % BLOCK] = party;
    }
}
