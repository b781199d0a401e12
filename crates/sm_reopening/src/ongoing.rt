//! Reopenings under way.
ghost use Rattle.std.specs.Prelude.{◌≤◌, length};
ghost use Rattle.sm_reopening.specs.States.{FitsShards};

use crate::party::Membership;
use crate::state::{Confirmed, ServerState};
use crate::states::fresh_states;
use sm_placement::Placement;
use sm_server::ServerId;
use std::alloc::{AllocError, Global};

/// A reopening under way, from its fences to the last answer to a settle.
#[derive(Drop)]
pub struct OngoingReopening {
    pub(crate) base: u64,
    pub(crate) shards: u32,
    /// The record of the epoch before, with the servers that are down.
    pub(crate) past: Placement,
    pub(crate) servers: Vec<ServerState>,
    pub(crate) map_told: bool,
    pub(crate) map_settled: bool,
    pub(crate) confirmed: Option<Confirmed>,
    ghost known_servers: { length past.setup.servers ≤ length servers.items },
    ghost known_shards: { length past.setup.shards ≤ shards },
    ghost few: { length servers.items ≤ 65536 },
    ghost fits: { FitsShards shards servers.items },
}

impl OngoingReopening {
    ghost use Rattle.std.specs.Prelude.{◌≡◌, ◌≤◌, IfOk, length};
    ghost use Rattle.sm_placement.specs.Layout.{place_of};
    ghost use Rattle.laws_network.specs.Reopening.{Reopen, entered};
    ghost use Rattle.laws_network.specs.ReopeningLaws.{no_reopening};
    ghost use Rattle.sm_reopening.specs.States.{AreNextStates, is_left_out, says_lost, no_copies};
    ghost use Rattle.sm_reopening.specs.Ongoing.{left_out_of, told_copies, recorded_place, recorded_setup};
    ghost use Rattle.sm_reopening.specs.Ongoing.{net_reopening, shards_of};

    /// Begins a reopening over what is recorded: a placement, with the servers that are down. Its fences are to be
    /// sent.
    pub fn begin(
        alloc: Global,
        base: u64,
        placement: &Placement,
        members: &[Membership],
        shards: u32,
    ) -> Result<OngoingReopening, AllocError>
        requires servers { length placement.now.setup.servers ≤ length members.now }
        requires few { length members.now ≤ 65536 }
        requires shards { length placement.now.setup.shards ≤ shards }
        ensures reopening { IfOk result (λ o. net_reopening o
            ≡ entered (Reopen base (length members.now) (says_lost members.now))
            (no_reopening (length placement.now.setup.servers))) }
        ensures copies { IfOk result (λ o. told_copies o ≡ no_copies) }
        ensures left_out { IfOk result (λ o. left_out_of o ≡ is_left_out members.now) }
        ensures setup { IfOk result (λ o. recorded_setup o ≡ placement.now.setup) }
        ensures place { IfOk result (λ o. recorded_place o ≡ place_of placement.now) }
        ensures shards { IfOk result (λ o. shards_of o ≡ shards) }
    {
        let past = placement.copy(alloc)?;
        let servers = fresh_states(alloc, members)?;
        Ok(OngoingReopening {
            base,
            shards,
            past,
            servers,
            map_told: false,
            map_settled: false,
            confirmed: None,
        })
    }

    /// Returns the number of the reopening, which becomes the base of all parties.
    pub const fn base(&self) -> u64
        ensures { result ≡ (net_reopening self.now).base }
    {
        self.base
    }

    /// Returns how many numbers of servers there are.
    pub fn server_count(&self) -> u32
        ensures { result ≡ (net_reopening self.now).servers }
    {
        self.servers.len() as u32
    }

    /// Returns how many numbers of shards there are.
    pub const fn shard_count(&self) -> u32
        ensures { result ≡ shards_of self.now }
    {
        self.shards
    }

    /// Returns whether a settle was sent to a server, by this reopening or by one that it replaced.
    pub(crate) fn was_sent(&self, server: ServerId) -> bool
        ensures { result ≡ (net_reopening self.now).promised server }
    {
        match self.servers.get(server.number() as usize) {
            Some(state) => state.promised || (self.confirmed.is_some() && state.told.is_some()),
            None => false,
        }
    }

    /// Returns the servers of the reopening that replaces this one.
    fn next_states(
        &self,
        alloc: Global,
        members: &[Membership],
    ) -> Result<Vec<ServerState>, AllocError>
        requires servers { (net_reopening self.now).servers ≤ length members.now }
        ensures { IfOk result (λ states. AreNextStates members.now (net_reopening self.now).promised states.items) }
    {
        let mut states = fresh_states(alloc, members)?;
        for number in 0..self.server_count() {
            let sent = self.was_sent(ServerId::new(number));
            states[number as usize].promised = sent;
        }
        Ok(states)
    }

    /// Begins the reopening that replaces this one, over what is recorded here. Its fences are to be sent.
    pub fn replace(
        &self,
        alloc: Global,
        base: u64,
        members: &[Membership],
        shards: u32,
    ) -> Result<OngoingReopening, AllocError>
        requires servers { (net_reopening self.now).servers ≤ length members.now }
        requires few { length members.now ≤ 65536 }
        requires shards { length (recorded_setup self.now).shards ≤ shards }
        ensures reopening { IfOk result (λ o. net_reopening o
            ≡ entered (Reopen base (length members.now) (says_lost members.now)) (net_reopening self.now)) }
        ensures copies { IfOk result (λ o. told_copies o ≡ no_copies) }
        ensures left_out { IfOk result (λ o. left_out_of o ≡ is_left_out members.now) }
        ensures setup { IfOk result (λ o. recorded_setup o ≡ recorded_setup self.now) }
        ensures place { IfOk result (λ o. recorded_place o ≡ recorded_place self.now) }
        ensures shards { IfOk result (λ o. shards_of o ≡ shards) }
    {
        let past = self.past.copy(alloc)?;
        let servers = self.next_states(alloc, members)?;
        Ok(OngoingReopening {
            base,
            shards,
            past,
            servers,
            map_told: false,
            map_settled: false,
            confirmed: None,
        })
    }
}
