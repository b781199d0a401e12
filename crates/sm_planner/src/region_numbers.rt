//! The regions of servers by numbers, and in which of them replicas lie.
ghost use Rattle.std.specs.Prelude.{◌≡◌, ◌<◌, ◌≤◌, ◌+◌, ◌^◌, ◌&&◌, ◌||◌, ◌==◌, ℕ, not, false, IfOk, length};
ghost use Rattle.std.specs.Prelude.{slice_index, slice_index_or};
ghost use Rattle.sm_placement.specs.Sums.{bit};
ghost use Rattle.sm_planner.specs.Spread.{same_region};
ghost use Rattle.sm_planner.specs.Regions.{IsRegionOf, AreRegions, IsOccupied};

use crate::marks::{is_marked, mark};
use sm_placement::Config;
use sm_server::ServerId;
use std::alloc::{AllocError, Global};

/// Tells whether two servers are in one region.
fn same_region(config: &Config, one: ServerId, other: ServerId) -> bool
    requires one { one < length config.now.servers }
    requires other { other < length config.now.servers }
    ensures { result ≡ same_region config.now one other }
{
    config.server(one).region == config.server(other).region
}

/// Returns the number of a server's region: the lowest of the servers in it.
fn region_of(config: &Config, server: ServerId) -> u32
    requires { server < length config.now.servers }
    ensures { IsRegionOf config.now server result }
{
    for number in 0..server.number() {
        if same_region(config, ServerId::new(number), server) {
            return number;
        }
    }
    server.number()
}

/// Returns the number of each server's region.
pub(crate) fn regions_of(alloc: Global, config: &Config) -> Result<Vec<u32>, AllocError>
    ensures { IfOk result (λ regions. AreRegions config.now regions.items) }
{
    let mut regions = Vec::with_capacity(alloc, config.server_count() as usize)?;
    for number in 0..config.server_count() {
        regions.push(region_of(config, ServerId::new(number)))?;
    }
    Ok(regions)
}

/// The regions in which some servers lie.
#[derive(Drop)]
pub(crate) struct Occupied {
    /// For each region, by its number, whether it is one of them.
    pub(crate) marks: Vec<bool>,
    /// The number of them.
    pub(crate) count: u32,
}

impl Occupied {
    /// Enters the region of a server, if it is one of them.
    #[tactic(auto, using(crate::proofs::Numbering::mark_entered, crate::proofs::Numbering::mark_stands))]
    fn enter(&mut self, region: usize, is_there: bool)
        requires known { region < length self.old.marks.items }
        requires few { self.old.count + 1 < 2 ^ 32 }
        ensures wide { length self.new.marks.items ≡ length self.old.marks.items }
        ensures marks { (r : ℕ) → slice_index_or self.new.marks.items r false
            ≡ ((is_there && (region == r)) || slice_index_or self.old.marks.items r false) }
        ensures count { self.new.count ≡ self.old.count + bit
            (is_there && not (slice_index_or self.old.marks.items region false)) }
    {
        if is_there && !is_marked(&self.marks, region) {
            mark(&mut self.marks, region, true);
            self.count += 1;
        }
    }

    /// Returns the number of regions with one more server, whose region this is.
    pub(crate) fn count_with(&self, region: usize) -> u32
        requires { self.now.count + 1 < 2 ^ 32 }
        ensures { result ≡ self.now.count + bit (not (slice_index_or self.now.marks.items region false)) }
    {
        if is_marked(&self.marks, region) {
            self.count
        } else {
            self.count + 1
        }
    }
}

/// Returns the regions in which the servers lie that are marked.
pub(crate) fn occupied_by(
    alloc: Global,
    config: &Config,
    regions: &[u32],
    has: &[bool],
) -> Result<Occupied, AllocError>
    requires { AreRegions config.now regions.now }
    ensures { IfOk result (λ occupied. IsOccupied config.now regions.now
        (λ v. slice_index_or has.now v false) occupied.marks.items occupied.count) }
{
    let marks = vec![in alloc; false; config.server_count() as usize]?;
    let mut occupied = Occupied { marks, count: 0 };
    for number in 0..config.server_count() {
        let server = number as usize;
        occupied.enter(regions[server] as usize, is_marked(has, server));
    }
    Ok(occupied)
}
