//! Permits of restarts.
ghost use Rattle.std.specs.Prelude.{◌≡◌, ◌≤◌, ◌<◌, ◌↔◌, ℕ, Some, IfOk, IsTrue, length, slice_set};
ghost use Rattle.sm_placement.specs.Layout.{place_of};
ghost use Rattle.laws_network.specs.Controller.{is_permitted};
ghost use Rattle.sm_driver.specs.Orders.{bases_end};
ghost use Rattle.sm_driver.specs.Permits.{AreEarlierPermits, opening_permit, opening_permits, permit_of};
ghost use Rattle.sm_driver.specs.Permits.{server_permitted};

use sm_placement::Placement;
use sm_plan_code::MOST_PLACES;
use sm_server::ServerId;
use std::alloc::{AllocError, Global};
use std::marker::Model;

/// The permits of the servers that are down, by the servers' numbers.
#[derive(Drop)]
pub(crate) struct Permits {
    given: Vec<Option<u64>>,
}

impl Model for Permits {
    ghost use Rattle.std.specs.Prelude.{ℕ, List, Option};

    ghost Value = { List (Option ℕ) };

    ghost view = { λ p. p.given.items };
}

/// The permit of a server, of these by the servers' numbers.
fn permit_of(permits: &[Option<u64>], server: u32) -> Option<u64>
    ensures { result ≡ permit_of permits.now server }
{
    permits.get(server as usize).copied().flatten()
}

/// The permit that a server has at an opening over a placement, if it is down: the one that it had before, or
/// otherwise a new one.
fn opening_permit(
    placement: &Placement,
    base: u64,
    before: &[Option<u64>],
    server: u32,
) -> Option<u64>
    requires base { base < bases_end }
    requires server { server < length placement.now.setup.servers }
    ensures { result ≡ opening_permit base before.now (place_of placement.now).down server }
{
    if !placement.is_down(ServerId::new(server)) {
        return None;
    }
    let new_permit = base + MOST_PLACES as u64 + 1 + server as u64;
    permit_of(before, server).or(Some(new_permit))
}

/// Whether one of a number of first servers has this permit.
fn is_given(permits: &[Option<u64>], servers: usize, permit: u64) -> bool
    requires { servers ≤ length permits.now }
    ensures { IsTrue result ↔ ((v : ℕ) × (v < servers) × (permit_of permits.now v ≡ Some permit)) }
{
    for server in 0..servers {
        if permits[server] == Some(permit) {
            return true;
        }
    }
    false
}

/// Whether permits were all given under lower bases than this one, no two alike.
pub fn are_earlier_permits(permits: &[Option<u64>], base: u64) -> bool
    ensures { IsTrue result ↔ AreEarlierPermits base permits.now }
{
    for server in 0..permits.len() {
        if let Some(permit) = permits[server] {
            if permit > base || is_given(permits, server, permit) {
                return false;
            }
        }
    }
    true
}

impl Permits {
    /// The permits at an opening over a placement, by those that servers had before.
    #[tactic(auto, using(crate::proofs::Lists::mapped_more))]
    pub fn at_opening(
        alloc: Global,
        placement: &Placement,
        base: u64,
        before: &[Option<u64>],
    ) -> Result<Permits, AllocError>
        requires { base < bases_end }
        ensures { IfOk result (λ permits. permits
            ≡ opening_permits base before.now (length placement.now.setup.servers) (place_of placement.now).down) }
    {
        let mut given = Vec::new(alloc);
        for number in 0..placement.config().server_count() {
            given.push(opening_permit(placement, base, before, number))?;
        }
        Ok(Permits { given })
    }

    /// All permits, by the servers' numbers.
    pub fn as_slice(&self) -> &[Option<u64>]
        ensures { result.now ≡ self.now }
    {
        self.given.as_slice()
    }

    /// Whether a server's permit is this one.
    fn is_permitted(&self, server: u32, permit: u64) -> bool
        requires { server < length self.now }
        ensures { result ≡ is_permitted (permit_of self.now server) permit }
    {
        match self.given[server as usize] {
            None => false,
            Some(given) => given == permit,
        }
    }

    /// The server, of this number of servers, whose restart has this permit.
    pub fn server(&self, servers: u32, permit: u64) -> Option<ServerId>
        requires { length self.now ≡ servers }
        ensures { result ≡ server_permitted self.now permit }
    {
        for number in 0..servers {
            if self.is_permitted(number, permit) {
                return Some(ServerId::new(number));
            }
        }
        None
    }

    /// Gives a server a permit, or takes it away.
    pub fn set(&mut self, server: ServerId, permit: Option<u64>)
        requires { server < length self.old }
        ensures { self.new ≡ slice_set self.old server permit }
    {
        self.given[server.number() as usize] = permit;
    }
}
