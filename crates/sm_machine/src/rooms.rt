//! The memory that a machine takes when it is opened.
ghost use Rattle.std.specs.Prelude.{◌≡◌, ◌≤◌, [], IfOk, length, replicate, vec_capacity};
ghost use Rattle.sm_placement.specs.Setup.{sizes_of};
ghost use Rattle.sm_placement.specs.Place.{forget_numbers};
ghost use Rattle.sm_placement.specs.Layout.{place_of};
ghost use Rattle.sm_placement.specs.Lead.{IsSettled};
ghost use Rattle.sm_reservation.specs.Pool.{pool_hold, true_rights};
ghost use Rattle.sm_plan_code.specs.declared.limits.TheConstants.{MOST_PLANS};
ghost use Rattle.sm_machine.specs.Opening.{place_of_rows};

use crate::journal::Journal;
use crate::opening::Opening;
use sm_placement::{Entry, Placement};
use sm_plan_code::MOST_PLANS;
use sm_reservation::Pool;
use sm_server::ShardId;
use std::alloc::{AllocError, Global};

/// The parts for which a machine needs memory at its opening.
#[derive(Drop)]
pub(crate) struct Rooms {
    /// The placement as it is then.
    pub opening: Opening,
    /// All rights that are true of it.
    pub pool: Pool,
    /// Places for the entries that publications add.
    pub entries: Vec<(ShardId, Entry)>,
    /// Each shard's highest handover number, which is 0.
    pub numbers: Vec<u64>,
    /// The log's places.
    pub journal: Journal,
    /// Places for the numbers of unfinished plans.
    pub unfinished: Vec<u32>,
}

impl Rooms {
    /// Makes room for a machine over the placement, with a log of `room` places.
    pub fn of(alloc: Global, placement: &Placement, room: u32) -> Result<Rooms, AllocError>
        requires { IsSettled (sizes_of placement.now.setup) (place_of placement.now) }
        ensures opening { IfOk result (λ rooms. place_of_rows rooms.opening ≡ forget_numbers (place_of placement.now)) }
        ensures pool { IfOk result (λ rooms. pool_hold rooms.pool
            ≡ true_rights (sizes_of placement.now.setup) (place_of placement.now)) }
        ensures shards { IfOk result (λ rooms. rooms.pool.shards ≡ length placement.now.setup.shards) }
        ensures servers { IfOk result (λ rooms. rooms.pool.servers ≡ length placement.now.setup.servers) }
        ensures entries { IfOk result (λ rooms. rooms.entries.items ≡ []) }
        ensures capacity { IfOk result (λ rooms. room ≤ vec_capacity rooms.entries) }
        ensures numbers { IfOk result (λ rooms. rooms.numbers.items ≡ replicate (length placement.now.setup.shards) 0) }
        ensures journal { IfOk result (λ rooms. rooms.journal ≡ record { log = []; room = room }) }
        ensures unfinished { IfOk result (λ rooms. rooms.unfinished.items ≡ []) }
        ensures plans { IfOk result (λ rooms. MOST_PLANS ≤ vec_capacity rooms.unfinished) }
    {
        let shards = placement.config().shard_count();
        Ok(Rooms {
            opening: Opening::of(alloc, placement)?,
            pool: Pool::open(alloc, placement)?,
            entries: Vec::with_capacity(alloc, room as usize)?,
            numbers: vec![in alloc; 0; shards as usize]?,
            journal: Journal::open(alloc, room)?,
            unfinished: Vec::with_capacity(alloc, MOST_PLANS)?,
        })
    }
}
