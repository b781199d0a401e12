//! Answers to fences and settles.
ghost use Rattle.std.specs.Prelude.{◌≡◌, ◌↔◌, ◌⊎◌, IfOk, OnOk, Some, false, true, is_some, option_map};
ghost use Rattle.laws_network.specs.Reopening.{Entries, MapOwner, Server, Told, Took, entered, is_first};
ghost use Rattle.laws_network.specs.ReopeningLaws.{AllTook};
ghost use Rattle.sm_reopening.specs.States.{fits_told, net_inventory};
ghost use Rattle.sm_reopening.specs.Ongoing.{net_reopening, copies_after, shards_of, told_copies};
ghost use Rattle.sm_reopening.specs.Settles.{is_due_settle, net_party, settle_messages, settle_sent, settled_of};
ghost use Rattle.sm_reopening.specs.Settles.{what_settles};
ghost use Rattle.smpland_reopening.specs.Reopening.{IsUnder};
ghost use Rattle.smpland_reopening.specs.Told.{has_told_of};
ghost use Rattle.smpland_reopening.specs.Unknown.{IsFirstUnknown};

use crate::reopening::DocumentReopening;
use crate::unknown_shard::UnknownShard;
use sm_placement::Placement;
use sm_reopening::{FencedEffect, Inventory, Party, Settle, SettledEffect};
use sm_server::{ServerId, ShardId};
use std::alloc::AllocError;

/// Notes the names of shards that a server has and nobody knows.
fn note(
    unknown_shards: &mut Vec<UnknownShard>,
    server: ServerId,
    names: Vec<String>,
) -> Result<(), AllocError> {
    for shard in names {
        unknown_shards.push(UnknownShard { server, shard })?;
    }
    Ok(())
}

/// The first shard that a server has and nobody knows, of the lowest server that has one.
fn first_of_lowest(unknown_shards: &[UnknownShard]) -> Option<&UnknownShard>
    ensures { IsFirstUnknown unknown_shards.now (option_map (λ first. first.now) result) }
{
    let mut first: Option<&UnknownShard> = None;
    for unknown_shard in unknown_shards {
        match first {
            Some(lowest) if lowest.server.number() <= unknown_shard.server.number() => {}
            _ => first = Some(unknown_shard),
        }
    }
    first
}

impl DocumentReopening {
    /// Returns whether an answer of a party would be its first one to this fence.
    pub fn is_first(&self, party: &Party, base: u64) -> bool
        ensures { result ≡ is_first (net_reopening self.now.ongoing) (net_party party.now) base }
    {
        base == self.base() && !self.is_confirmed() && self.is_unanswered(party)
    }

    /// Notes the names of shards that a server has and nobody knows.
    fn note_unknown_shards(
        &mut self,
        server: ServerId,
        unknown_shards: Vec<String>,
    ) -> Result<(), AllocError>
        ensures ongoing { OnOk result (self.new.ongoing ≡ self.old.ongoing) }
        ensures under { OnOk result (IsUnder self.old self.new) }
        ensures next { OnOk result (self.new.next ≡ self.old.next) }
    {
        note(&mut self.unknown_shards, server, unknown_shards)
    }

    /// Takes what a server tells that stands at a fence, and the names of the shards that it has and nobody knows.
    /// Only its first answer to this fence counts.
    pub fn fenced(
        &mut self,
        server: ServerId,
        base: u64,
        inventory: Inventory,
        unknown_shards: Vec<String>,
    ) -> Result<FencedEffect, AllocError>
        requires { fits_told (shards_of self.old.ongoing) (Some inventory) ≡ true }
        ensures old { IfOk result (λ effect. (effect ≡ FencedEffect.Old) ↔
            (is_first (net_reopening self.old.ongoing) (Server server) base ≡ false)) }
        ensures unchanged { IfOk result (λ effect. effect ≡ FencedEffect.Old → self.new ≡ self.old) }
        ensures reopening { OnOk result (net_reopening self.new.ongoing
            ≡ entered (Told (Server server) base (net_inventory inventory)) (net_reopening self.old.ongoing)) }
        ensures copies { OnOk result (told_copies self.new.ongoing
            ≡ copies_after self.old.ongoing server base inventory) }
        ensures under { OnOk result (IsUnder self.old self.new) }
        ensures next { OnOk result (self.new.next ≡ self.old.next) }
    {
        if !self.is_first(&Party::Server(server), base) {
            return Ok(FencedEffect::Old);
        }
        self.note_unknown_shards(server, unknown_shards)?;
        Ok(self.tell(server, base, inventory))
    }

    /// Takes what a server tells that stands at a fence.
    fn tell(&mut self, server: ServerId, base: u64, inventory: Inventory) -> FencedEffect
        requires { fits_told (shards_of self.old.ongoing) (Some inventory) ≡ true }
        ensures old { (result ≡ FencedEffect.Old) ↔
            (is_first (net_reopening self.old.ongoing) (Server server) base ≡ false) }
        ensures reopening { net_reopening self.new.ongoing
            ≡ entered (Told (Server server) base (net_inventory inventory)) (net_reopening self.old.ongoing) }
        ensures copies { told_copies self.new.ongoing ≡ copies_after self.old.ongoing server base inventory }
        ensures under { IsUnder self.old self.new }
        ensures next { self.new.next ≡ self.old.next }
    {
        self.ongoing.fenced(server, base, inventory)
    }

    /// Takes the answer of the map's owner to a fence. Only its first answer to this fence counts.
    pub fn map_fenced(&mut self, base: u64) -> FencedEffect
        ensures old { (result ≡ FencedEffect.Old) ↔ (is_first (net_reopening self.old.ongoing) MapOwner base ≡ false) }
        ensures unchanged { result ≡ FencedEffect.Old → self.new ≡ self.old }
        ensures reopening { net_reopening self.new.ongoing
            ≡ entered (Told MapOwner base Entries) (net_reopening self.old.ongoing) }
        ensures copies { told_copies self.new.ongoing ≡ told_copies self.old.ongoing }
        ensures under { IsUnder self.old self.new }
        ensures next { self.new.next ≡ self.old.next }
    {
        if !self.is_first(&Party::MapOwner, base) {
            return FencedEffect::Old;
        }
        self.ongoing.map_fenced(base)
    }

    /// Whether a server has told that it has something of a shard.
    pub fn has_told_of(&self, server: ServerId, shard: ShardId) -> bool
        ensures { result ≡ has_told_of self.now server shard }
    {
        match self.ongoing.slot(shard, server) {
            Some(slot) => !slot.cell.is_absent(),
            None => false,
        }
    }

    /// Returns the settle of a party, once a settlement is confirmed. It may be sent again at any time.
    pub fn settle(&self, party: Party) -> Option<Settle>
        ensures { settle_messages (net_reopening self.now.ongoing).settlement result
            ≡ settle_sent (net_reopening self.now.ongoing) (net_party party) }
    {
        self.ongoing.settle(party)
    }

    /// Returns what was confirmed, under the numbers of the reopening.
    pub fn settlement(&self) -> Option<&Placement>
        ensures { option_map (λ p. settled_of p.now) result
            ≡ option_map what_settles (net_reopening self.now.ongoing).settlement }
    {
        self.ongoing.settlement()
    }

    /// Takes the answer of a party to its settle.
    pub fn settled(&mut self, party: Party, base: u64) -> SettledEffect
        ensures old { (result ≡ SettledEffect.Old) ↔
            (is_due_settle (net_reopening self.old.ongoing) (net_party party) base ≡ false) }
        ensures complete { result ≡ SettledEffect.Complete → AllTook (net_reopening self.new.ongoing) }
        ensures confirmed { result ≡ SettledEffect.Complete
            → is_some (net_reopening self.new.ongoing).settlement ≡ true }
        ensures waiting { result ≡ SettledEffect.Waiting → AllTook (net_reopening self.new.ongoing) → ⊥ }
        ensures unchanged { result ≡ SettledEffect.Old → self.new ≡ self.old }
        ensures reopening { (result ≡ SettledEffect.Old)
            ⊎ (net_reopening self.new.ongoing ≡ entered (Took (net_party party) base)
            (net_reopening self.old.ongoing)) }
        ensures copies { told_copies self.new.ongoing ≡ told_copies self.old.ongoing }
        ensures under { IsUnder self.old self.new }
        ensures next { self.new.next ≡ self.old.next }
    {
        self.ongoing.settled(party, base)
    }

    /// The first shard that a server has and nobody knows, of the lowest server that has one.
    pub fn first_unknown_shard(&self) -> Option<&UnknownShard>
        ensures { IsFirstUnknown self.now.unknown_shards (option_map (λ first. first.now) result) }
    {
        first_of_lowest(&self.unknown_shards)
    }
}
