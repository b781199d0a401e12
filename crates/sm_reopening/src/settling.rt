//! Settles, and the answers to them.
ghost use Rattle.std.specs.Prelude.{◌≡◌, ◌↔◌, ◌⊎◌, ◌&&◌, true, false, is_some, option_map};
ghost use Rattle.laws_network.specs.Reopening.{Server, Took, entered, put_party};
ghost use Rattle.laws_network.specs.ReopeningLaws.{AllTook};
ghost use Rattle.sm_reopening.specs.Ongoing.{IsSameButTold, told_copies, net_reopening};
ghost use Rattle.sm_reopening.specs.Settles.{first_unsettled, is_due_settle, is_unsettled, net_party, nonce_of};
ghost use Rattle.sm_reopening.specs.Settles.{settle_messages, settle_sent, settled_of, what_settles};

use crate::ongoing::OngoingReopening;
use crate::party::{Inventory, Party};
use sm_placement::Placement;
use sm_server::ServerId;

/// A message to a party once a settlement is confirmed, beside its part of the settlement.
#[derive(Clone, Copy, Debug, PartialEq, Eq)]
pub struct Settle {
    pub party: Party,
    /// The base of the reopening, at which the party is fenced.
    pub base: u64,
    /// The nonce that its answer to the fence had; none if the answer had slots.
    pub nonce: Option<u64>,
}

/// The effect of an answer to a settle.
#[derive(Clone, Copy, Debug, PartialEq, Eq)]
pub enum SettledEffect {
    /// It is not the first answer of its party to a settle of this reopening.
    Old,
    /// Others have to answer before the settlement is in force.
    Waiting,
    /// All have answered: the settlement is in force.
    Complete,
}

impl OngoingReopening {
    /// Returns whether a party has answered the fence.
    pub fn has_answered(&self, party: &Party) -> bool
        ensures { result ≡ is_some ((net_reopening self.now).told (net_party party.now)) }
    {
        match party {
            Party::Server(server) => self.has_told(*server),
            Party::MapOwner => self.map_told,
        }
    }

    /// Returns whether a party has taken its settle.
    pub fn has_settled(&self, party: &Party) -> bool
        ensures { result ≡ (net_reopening self.now).settled (net_party party.now) }
    {
        match party {
            Party::Server(server) => match self.servers.get(server.number() as usize) {
                Some(state) => state.settled,
                None => false,
            },
            Party::MapOwner => self.map_settled,
        }
    }

    /// Returns what was confirmed.
    pub fn settlement(&self) -> Option<&Placement>
        ensures { option_map (λ p. settled_of p.now) result
            ≡ option_map what_settles (net_reopening self.now).settlement }
    {
        match &self.confirmed {
            Some(confirmed) => Some(&confirmed.placement),
            None => None,
        }
    }

    /// Ends the reopening, and returns what was confirmed. It is in force once all have taken it.
    pub fn give_up(self) -> Option<Placement>
        ensures { option_map settled_of result ≡ option_map what_settles (net_reopening self).settlement }
    {
        let confirmed = self.confirmed;
        drop(self.past);
        drop(self.servers);
        match confirmed {
            Some(confirmed) => Some(confirmed.placement),
            None => None,
        }
    }

    /// Returns the nonce under which a server has told that it is Unknown.
    pub(crate) fn nonce(&self, server: ServerId) -> Option<u64>
        ensures { result ≡ nonce_of ((net_reopening self.now).told (Server server)) }
    {
        match self.servers.get(server.number() as usize) {
            Some(state) => match &state.told {
                Some(Inventory::Unknown { nonce }) => Some(*nonce),
                _ => None,
            },
            None => None,
        }
    }

    /// Returns the nonce that the answer of a party had.
    fn nonce_told(&self, party: &Party) -> Option<u64>
        ensures { result ≡ nonce_of ((net_reopening self.now).told (net_party party.now)) }
    {
        match party {
            Party::Server(server) => self.nonce(*server),
            Party::MapOwner => None,
        }
    }

    /// Returns the settle of a party, once a settlement is confirmed. It may be sent again at any time.
    pub fn settle(&self, party: Party) -> Option<Settle>
        ensures given { is_some result ≡ (is_some (net_reopening self.now).settlement && is_some
            ((net_reopening self.now).told (net_party party))) }
        ensures message { settle_messages (net_reopening self.now).settlement result
            ≡ settle_sent (net_reopening self.now) (net_party party) }
    {
        if self.confirmed.is_none() || !self.has_answered(&party) {
            return None;
        }
        let nonce = self.nonce_told(&party);
        Some(Settle {
            party,
            base: self.base,
            nonce,
        })
    }

    /// Returns whether a party was sent a settle, and has not answered it.
    pub fn is_unsettled(&self, party: &Party) -> bool
        ensures { result ≡ is_unsettled (net_reopening self.now) (net_party party.now) }
    {
        self.has_answered(party) && !self.has_settled(party)
    }

    /// Returns the lowest server that has not answered its settle.
    #[tactic(auto, using(sm_placement::proofs::Searches::find_range_more))]
    pub fn first_unsettled(&self) -> Option<ServerId>
        ensures { result ≡ first_unsettled (net_reopening self.now) }
    {
        for number in 0..self.server_count() {
            if self.is_unsettled(&Party::Server(ServerId::new(number))) {
                return Some(ServerId::new(number));
            }
        }
        None
    }

    /// Returns whether all have taken their settles, so that the settlement is in force.
    pub fn is_settled(&self) -> bool
        ensures { (result ≡ true) ↔ ((is_some (net_reopening self.now).settlement ≡ true)
            × AllTook (net_reopening self.now)) }
    {
        if self.confirmed.is_none() {
            return false;
        }
        if self.is_unsettled(&Party::MapOwner) {
            return false;
        }
        self.first_unsettled().is_none()
    }

    /// Marks a party that has taken its settle.
    fn mark(&mut self, party: &Party)
        requires known { is_some ((net_reopening self.old).told (net_party party.now)) ≡ true }
        ensures reopening { (net_reopening self.new)
            ≡ record (net_reopening self.old) {
              settled = put_party (net_reopening self.old).settled
                  (net_party party.now) true;
            } }
        ensures copies { told_copies self.new ≡ told_copies self.old }
        ensures same { IsSameButTold self.old self.new }
    {
        match party {
            Party::Server(server) => self.servers[server.number() as usize].settled = true,
            Party::MapOwner => self.map_settled = true,
        }
    }

    /// Returns whether an answer is the first one of a party to a settle of this reopening.
    fn is_due(&self, party: &Party, base: u64) -> bool
        ensures { result ≡ is_due_settle (net_reopening self.now) (net_party party.now) base }
    {
        base == self.base && self.confirmed.is_some() && self.is_unsettled(party)
    }

    /// Returns what an answer comes to that was taken.
    fn settled_effect(&self) -> SettledEffect
        requires { is_some (net_reopening self.now).settlement ≡ true }
        ensures taken { result ≡ SettledEffect.Old → ⊥ }
        ensures complete { result ≡ SettledEffect.Complete → AllTook (net_reopening self.now) }
        ensures waiting { result ≡ SettledEffect.Waiting → AllTook (net_reopening self.now) → ⊥ }
    {
        if self.is_settled() {
            SettledEffect::Complete
        } else {
            SettledEffect::Waiting
        }
    }

    /// Takes the answer of a party to its settle.
    pub fn settled(&mut self, party: Party, base: u64) -> SettledEffect
        ensures old { (result ≡ SettledEffect.Old) ↔
            (is_due_settle (net_reopening self.old) (net_party party) base ≡ false) }
        ensures complete { result ≡ SettledEffect.Complete → AllTook (net_reopening self.new) }
        ensures waiting { result ≡ SettledEffect.Waiting → AllTook (net_reopening self.new) → ⊥ }
        ensures unchanged { result ≡ SettledEffect.Old → self.new ≡ self.old }
        ensures reopening { (result ≡ SettledEffect.Old)
            ⊎ ((net_reopening self.new) ≡ entered (Took (net_party party) base) (net_reopening self.old)) }
        ensures copies { told_copies self.new ≡ told_copies self.old }
        ensures same { IsSameButTold self.old self.new }
    {
        if !self.is_due(&party, base) {
            return SettledEffect::Old;
        }
        self.mark(&party);
        self.settled_effect()
    }
}
