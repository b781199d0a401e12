//! Fences, and the first answers to them.
ghost use Rattle.std.specs.Prelude.{◌≡◌, ◌<◌, ◌≤◌, ◌↔◌, true, false, if◌then◌else◌, is_none, is_some, Some, None};
ghost use Rattle.std.specs.Prelude.{length};
ghost use Rattle.sm_placement.specs.Opening.{first_below};
ghost use Rattle.laws_network.specs.Reopening.{Entries, MapOwner, Server, Told, entered, is_asked, is_first, put_party};
ghost use Rattle.laws_network.specs.ReopeningLaws.{is_carried};
ghost use Rattle.sm_reopening.specs.States.{fits_told, net_inventory};
ghost use Rattle.sm_reopening.specs.Ongoing.{IsSameButTold, first_awaited, is_waited_for, is_complete, left_out_of};
ghost use Rattle.sm_reopening.specs.Ongoing.{may_carry, copies_after, told_copies, put_copy, past_state};
ghost use Rattle.sm_reopening.specs.Ongoing.{recorded_place, net_reopening, shards_of};

use crate::ongoing::OngoingReopening;
use crate::party::{Inventory, Membership};
use sm_server::ServerId;

/// The effect of an answer to a fence.
#[derive(Clone, Copy, Debug, PartialEq, Eq)]
pub enum FencedEffect {
    /// It is not the first answer of its party to this fence.
    Old,
    /// Others have to answer before anything can be confirmed.
    Waiting,
    /// All have answered that have to.
    Complete,
}

impl OngoingReopening {
    /// Returns whether a server is to be fenced.
    pub fn is_asked(&self, server: ServerId) -> bool
        ensures { result ≡ is_asked (net_reopening self.now) (Server server) }
    {
        match self.servers.get(server.number() as usize) {
            Some(state) => state.membership != Membership::Lost,
            None => false,
        }
    }

    /// Returns whether a server has told what it has.
    pub fn has_told(&self, server: ServerId) -> bool
        ensures { result ≡ is_some ((net_reopening self.now).told (Server server)) }
    {
        match self.servers.get(server.number() as usize) {
            Some(state) => state.told.is_some(),
            None => false,
        }
    }

    /// Returns whether a server that has told nothing was sent a settle by a reopening that was replaced.
    fn is_promised(&self, server: ServerId) -> bool
        ensures { is_some ((net_reopening self.now).told (Server server)) ≡ false
            → result ≡ (net_reopening self.now).promised server }
    {
        match self.servers.get(server.number() as usize) {
            Some(state) => state.promised,
            None => false,
        }
    }

    /// Returns whether a server is recorded as down.
    pub fn is_recorded_down(&self, server: ServerId) -> bool
        ensures { result ≡ (recorded_place self.now).down server }
    {
        server.number() < self.past.config().server_count() && self.past.is_down(server)
    }

    /// Returns whether a server is left out of the document.
    pub fn is_left_out(&self, server: ServerId) -> bool
        ensures { result ≡ left_out_of self.now server }
    {
        match self.servers.get(server.number() as usize) {
            Some(state) => state.membership == Membership::LeftOut,
            None => false,
        }
    }

    /// Returns whether the network's laws let a server be carried over as it is recorded: it has told nothing, is
    /// recorded as down, and was sent no settle since.
    pub(crate) fn is_carried(&self, server: ServerId) -> bool
        ensures { result ≡ is_carried (net_reopening self.now) (past_state self.now) server }
    {
        self.is_asked(server)
            && !self.has_told(server)
            && self.is_recorded_down(server)
            && !self.is_promised(server)
    }

    /// Returns whether a server that has not answered may be carried over as it is recorded.
    pub fn may_carry(&self, server: ServerId) -> bool
        ensures { result ≡ may_carry self.now server }
    {
        self.is_carried(server) && !self.is_left_out(server)
    }

    /// Returns whether a server has to answer the fence before anything can be confirmed.
    pub fn is_awaited(&self, server: ServerId) -> bool
        ensures { result ≡ is_waited_for self.now server }
    {
        self.is_asked(server) && !self.has_told(server) && !self.may_carry(server)
    }

    /// Returns the lowest server that has to answer.
    #[tactic(auto, using(sm_placement::proofs::Searches::find_range_more))]
    pub fn first_awaited(&self) -> Option<ServerId>
        ensures { result ≡ first_awaited self.now }
    {
        for number in 0..self.server_count() {
            if self.is_awaited(ServerId::new(number)) {
                return Some(ServerId::new(number));
            }
        }
        None
    }

    /// Returns whether all have answered that have to.
    pub fn is_complete(&self) -> bool
        ensures { result ≡ is_complete self.now }
    {
        self.map_told && self.first_awaited().is_none()
    }

    /// Returns what an answer comes to that was taken.
    fn effect(&self) -> FencedEffect
        ensures { result ≡ (if is_complete self.now then FencedEffect.Complete else FencedEffect.Waiting) }
    {
        if self.is_complete() {
            FencedEffect::Complete
        } else {
            FencedEffect::Waiting
        }
    }

    /// Returns whether an answer is the first one of a server to this fence.
    fn is_first(&self, server: ServerId, base: u64) -> bool
        ensures { result ≡ is_first (net_reopening self.now) (Server server) base }
    {
        base == self.base
            && self.confirmed.is_none()
            && self.is_asked(server)
            && !self.has_told(server)
    }

    /// Records what a server has told.
    fn tell(&mut self, server: ServerId, inventory: Inventory)
        requires known { server < (net_reopening self.old).servers }
        requires open { is_some (net_reopening self.old).settlement ≡ false }
        requires fits { fits_told (shards_of self.old) (Some inventory) ≡ true }
        ensures reopening { net_reopening self.new
            ≡ record (net_reopening self.old) {
              told = put_party (net_reopening self.old).told (Server server)
                  (Some (net_inventory inventory));
            } }
        ensures copies { told_copies self.new ≡ put_copy (told_copies self.old) server inventory }
        ensures same { IsSameButTold self.old self.new }
    {
        self.servers[server.number() as usize].told = Some(inventory);
    }

    /// Takes what a server tells that stands at a fence. Only its first answer to this fence counts.
    pub fn fenced(&mut self, server: ServerId, base: u64, inventory: Inventory) -> FencedEffect
        requires { fits_told (shards_of self.old) (Some inventory) ≡ true }
        ensures old { (result ≡ FencedEffect.Old) ↔ (is_first (net_reopening self.old) (Server server) base ≡ false) }
        ensures complete { (result ≡ FencedEffect.Complete) → (is_complete self.new ≡ true) }
        ensures waiting { (result ≡ FencedEffect.Waiting) → (is_complete self.new ≡ false) }
        ensures reopening { (net_reopening self.new)
            ≡ entered (Told (Server server) base (net_inventory inventory)) (net_reopening self.old) }
        ensures copies { told_copies self.new ≡ copies_after self.old server base inventory }
        ensures same { IsSameButTold self.old self.new }
    {
        if !self.is_first(server, base) {
            return FencedEffect::Old;
        }
        self.tell(server, inventory);
        self.effect()
    }

    /// Takes the answer of the map's owner to a fence. Only its first answer to this fence counts.
    pub fn map_fenced(&mut self, base: u64) -> FencedEffect
        ensures old { (result ≡ FencedEffect.Old) ↔ (is_first (net_reopening self.old) MapOwner base ≡ false) }
        ensures complete { (result ≡ FencedEffect.Complete) → (is_complete self.new ≡ true) }
        ensures waiting { (result ≡ FencedEffect.Waiting) → (is_complete self.new ≡ false) }
        ensures reopening { (net_reopening self.new) ≡ entered (Told MapOwner base Entries) (net_reopening self.old) }
        ensures copies { told_copies self.new ≡ told_copies self.old }
        ensures same { IsSameButTold self.old self.new }
    {
        if base != self.base || self.confirmed.is_some() || self.map_told {
            return FencedEffect::Old;
        }
        self.map_told = true;
        self.effect()
    }
}
