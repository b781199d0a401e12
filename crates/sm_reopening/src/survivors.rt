//! Survivors: who inherits a shard.
ghost use Rattle.std.specs.Prelude.{◌≡◌, ◌<◌, ◌^◌, ◌↔◌, IfSome};
ghost use Rattle.laws_network.specs.ReopeningLaws.{claim};
ghost use Rattle.sm_reopening.specs.Ongoing.{told_copies, recorded_place, told_slot};
ghost use Rattle.sm_reopening.specs.Survivors.{HasNoSurvivor, IsSuccessorOf, exceeds, has_more_in_view, rank_of};
ghost use Rattle.sm_reopening.specs.Survivors.{slot_claim, standing_of, stands_above};

use crate::ongoing::OngoingReopening;
use crate::party::{FoundSlot, Inventory, NO_COPY};
use sm_copies::ToldCopy;
use sm_server::{Cell, ServerId, ShardId};

/// The claim of a server to inherit a shard.
#[derive(Clone, Copy, Debug, PartialEq, Eq)]
pub struct Standing {
    /// Its claim by its role, 0 for none.
    pub claim: u8,
    /// Its copy of the shard, which decides unless it is the primary.
    pub copy: ToldCopy,
}

/// Whether the first number is greater, or it is the same and this decides.
fn exceeds(one: u64, other: u64, deeper: bool) -> bool
    ensures { result ≡ exceeds one other deeper }
{
    one > other || (one == other && deeper)
}

/// The rank of a claim, which counts before copies do.
fn rank_of(claim: u8) -> u64
    ensures { result ≡ rank_of claim }
{
    if claim > 3 {
        2
    } else if claim > 0 {
        1
    } else {
        0
    }
}

impl Standing {
    /// Whether this one has the longer copy of the view that both have, or as long a one and the better claim. Where no
    /// view is told (0), the claim comes first.
    fn has_more_in_view(&self, other: &Standing) -> bool
        ensures { result ≡ has_more_in_view self.now other.now }
    {
        let is_longer = self.copy.position > other.copy.position;
        let has_claim = self.claim > other.claim;
        if self.copy.view == 0 {
            return exceeds(self.claim as u64, other.claim as u64, is_longer);
        }
        exceeds(self.copy.position, other.copy.position, has_claim)
    }

    /// Whether this one stands above another one: a primary above all others, then the later view, and then whoever has
    /// more; who has nothing stands below.
    pub(crate) fn is_above(&self, other: &Standing) -> bool
        ensures { result ≡ stands_above self.now other.now }
    {
        let more = self.has_more_in_view(other);
        let later = exceeds(self.copy.view, other.copy.view, more);
        exceeds(rank_of(self.claim), rank_of(other.claim), later)
    }
}

/// Returns how good a claim to a shard a cell gives.
fn claim(cell: &Cell, reached: bool) -> u8
    ensures { result ≡ claim cell.now reached }
{
    match cell {
        Cell::Absent => 0,
        Cell::Prepared { .. } => if reached { 3 } else { 1 },
        Cell::Secondary => 2,
        Cell::Forwarding { .. } => 3,
        Cell::Primary => 4,
    }
}

impl OngoingReopening {
    /// Returns what a server has told of a shard; None if it has not answered, or is Unknown.
    pub fn slot(&self, shard: ShardId, server: ServerId) -> Option<FoundSlot>
        ensures { result ≡ told_slot self.now shard server }
    {
        let state = self.servers.get(server.number() as usize)?;
        match &state.told {
            Some(Inventory::Slots(slots)) => Some(slots.get(shard)),
            _ => None,
        }
    }

    /// Returns what is recorded of a server and a shard.
    pub fn recorded_cell(&self, shard: ShardId, server: ServerId) -> Cell
        ensures { result ≡ (recorded_place self.now).cells shard server }
    {
        let config = self.past.config();
        if shard.number() >= config.shard_count() || server.number() >= config.server_count() {
            return Cell::Absent;
        }
        self.past.cell(shard, server)
    }

    /// The claim that what a server has told gives, with the copy that it has told.
    fn told_standing(&self, shard: ShardId, server: ServerId) -> Standing
        ensures claim { result.claim ≡ slot_claim (told_slot self.now shard server) }
        ensures copy { result.copy ≡ told_copies self.now shard server }
    {
        match self.slot(shard, server) {
            Some(slot) => Standing {
                claim: claim(&slot.cell, slot.reached),
                copy: slot.copy,
            },
            None => Standing {
                claim: 0,
                copy: NO_COPY,
            },
        }
    }

    /// How well a server may inherit a shard.
    pub fn standing(&self, shard: ShardId, server: ServerId) -> Standing
        ensures standing { result ≡ standing_of self.now shard server }
        ensures view { result.copy.view < 2 ^ 64 }
        ensures position { result.copy.position < 2 ^ 64 }
    {
        let told = self.told_standing(shard, server);
        let claim = if self.is_carried(server) {
            claim(&self.recorded_cell(shard, server), false)
        } else {
            told.claim
        };
        Standing {
            claim,
            copy: told.copy,
        }
    }

    /// Returns who inherits a shard, if there is a survivor.
    pub fn successor(&self, shard: ShardId) -> Option<ServerId>
        ensures successor { IfSome result (IsSuccessorOf self.now shard) }
        ensures none { (result ≡ None) ↔ HasNoSurvivor self.now shard }
    {
        let mut successor = None;
        let mut best = Standing {
            claim: 0,
            copy: ToldCopy {
                view: u64::MAX,
                position: u64::MAX,
            },
        };
        for number in 0..self.server_count() {
            let server = ServerId::new(number);
            let standing = self.standing(shard, server);
            if standing.is_above(&best) {
                successor = Some(server);
                best = standing;
            }
        }
        successor
    }
}
