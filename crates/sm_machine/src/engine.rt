#![tactic(auto, unfolding(crate::specs::State::whole_of))]
//! The fields of a machine, read and written one at a time.
ghost use Rattle.std.specs.Prelude.{◌≡◌, ◌<◌, ◌≤◌, ◌-◌, ◌∷◌, suc, not, Some, None, Ok, IsOk, [], replicate, reverse};
ghost use Rattle.std.specs.Prelude.{vec_capacity, true, false, length, slice_index_or};
ghost use Rattle.std.specs.Option.{ForSome};
ghost use Rattle.sm_placement.specs.Sums.{put};
ghost use Rattle.sm_placement.specs.Rows.{IsKnownCall};
ghost use Rattle.sm_placement.specs.Place.{called_numbered, publish, forget_numbers};
ghost use Rattle.sm_plan_code.specs.declared.limits.TheConstants.{MOST_NUMBER, MOST_PLANS};
ghost use Rattle.sm_protocol.specs.State.{is_begun, recorded};
ghost use Rattle.sm_reservation.specs.Pool.{pool_hold, HasSize, true_rights};
ghost use Rattle.sm_placement.specs.Setup.{sizes_of};
ghost use Rattle.sm_placement.specs.Layout.{place_of};
ghost use Rattle.sm_machine.specs.Opening.{place_of_rows};
ghost use Rattle.sm_machine.specs.State.{whole_of, state_of, with_state, opened_whole};
ghost use Rattle.sm_reservation.specs.declared.right.Key.{Key};
ghost use Rattle.sm_verifier.specs.Admission.{IsIn};
ghost use Rattle.sm_verifier.specs.FirstHolding.{first_holding};
ghost use Rattle.sm_machine.specs.Starts.{CanFillAll, IsBegunIn, begun_of};
ghost use Rattle.sm_protocol.specs.declared.event.Event.TheVariants as event;
ghost use Rattle.sm_protocol.specs.Happens.{reply_of};
ghost use Rattle.sm_protocol.specs.Log.{is_step_of};
ghost use Rattle.sm_reservation.specs.declared.stream_id.StreamId.{StreamId};
ghost use Rattle.sm_protocol.specs.Ticket.{passes, is_open_ticket};
ghost use Rattle.sm_machine.specs.Unfinished.{unfinished_below};
ghost use Rattle.sm_machine.specs.Working.{IsWorking};
ghost use Rattle.sm_placement.specs.declared.limits.TheConstants.{VERSIONS_END};

mod restart_fields;
mod streams;

use crate::begun::Begun;
use crate::journal::{Journal, TicketParts};
use crate::lists::add_number;
use crate::opening::Opening;
use crate::plans::Plans;
use crate::ready_plan::ReadyPlan;
use crate::requests::reply;
use crate::rooms::Rooms;
use crate::token::StreamToken;
use sm_placement::{Entry, Placement};
use sm_plan_code::ServerCall;
use sm_protocol::{Event, Logged, Played};
use sm_reservation::{Pool, StreamId};
use sm_server::{ServerId, ShardId};
use sm_verifier::{Checked, Holding, admit_from_true_pool};
use std::alloc::Global;
use std::marker::Model;

/// All that a machine has.
pub(crate) struct Engine {
    /// The placement with which the log begins.
    opening: Opening,
    /// The placement as it stands.
    placement: Placement,
    /// The rights that nobody has.
    pool: Pool,
    /// The entries that publications have added, with their shards, the oldest first.
    entries: Vec<(ShardId, Entry)>,
    /// Each shard's highest handover number.
    numbers: Vec<u64>,
    /// The number of the next call.
    next_number: u64,
    /// The plans that were begun.
    plans: Plans,
    /// A plan lies here while its streams and signals are changed, and at all other times a plan of nothing.
    desk: Begun,
    /// The recorded events.
    journal: Journal,
    /// The number of log places that are neither used nor set aside.
    free: u64,
    /// The unfinished plans, by their numbers, so that they are found among all plans that were begun.
    unfinished: Vec<u32>,
    /// The number of unfinished plans.
    running: u32,
    /// True if steps are answered with Halted.
    halted: bool,
}

impl Model for Engine {
    ghost use Rattle.std.specs.Prelude.{◌≡◌, ◌≤◌, length, vec_capacity};
    ghost use Rattle.sm_machine.specs.Machine.{MachineModel};
    ghost use Rattle.sm_plan_code.specs.declared.limits.TheConstants.{MOST_PLANS};
    ghost use Rattle.sm_machine.specs.Begun.{no_begun};
    ghost use Rattle.sm_machine.specs.Since.{KeepsSince};
    ghost use Rattle.sm_machine.specs.Unfinished.{AreUnfinished};

    ghost Value = { MachineModel };

    ghost view = { λ m. record { opening = m.opening; placement = m.placement; pool = m.pool; entries = m.entries.items; numbers = m.numbers.items; next_number = m.next_number; plans = m.plans; journal = m.journal; free = m.free; running = m.running; halted = m.halted } };

    ghost invariant = { λ m. (length m.entries.items ≤ length m.journal.log) × (length m.journal.log ≤ m.journal.room) × (m.journal.room ≤ vec_capacity m.entries) × (length m.numbers.items ≡ length m.placement.setup.shards) × (m.pool.shards ≡ length m.placement.setup.shards) × (m.pool.servers ≡ length m.placement.setup.servers) × AreUnfinished m.plans m.unfinished.items × (MOST_PLANS ≤ vec_capacity m.unfinished) × KeepsSince m.plans m.journal.log × (m.desk ≡ no_begun) };
}

impl Engine {
    /// Makes a machine with no plan over a placement, with the memory that was taken for it. Takes no memory.
    pub fn of(alloc: Global, placement: Placement, rooms: Rooms, room: u32) -> Engine
        requires opening { place_of_rows rooms.opening ≡ forget_numbers (place_of placement) }
        requires pool { pool_hold rooms.pool ≡ true_rights (sizes_of placement.setup) (place_of placement) }
        requires shards { rooms.pool.shards ≡ length placement.setup.shards }
        requires servers { rooms.pool.servers ≡ length placement.setup.servers }
        requires entries { rooms.entries.items ≡ [] }
        requires capacity { room ≤ vec_capacity rooms.entries }
        requires numbers { rooms.numbers.items ≡ replicate (length placement.setup.shards) 0 }
        requires journal { rooms.journal ≡ record { log = []; room = room } }
        requires unfinished { rooms.unfinished.items ≡ [] }
        requires plans { MOST_PLANS ≤ vec_capacity rooms.unfinished }
        ensures { whole_of result ≡ opened_whole placement.setup (place_of placement) room }
    {
        let mut placement = placement;
        let down = u64::from(placement.down_count());
        placement.forget_numbers();
        let Rooms {
            opening,
            pool,
            entries,
            numbers,
            journal,
            unfinished,
        } = rooms;
        Engine {
            opening,
            placement,
            pool,
            entries,
            numbers,
            next_number: 1,
            plans: Plans::new(),
            desk: Begun::blank(alloc),
            journal,
            free: u64::from(room).saturating_sub(down),
            unfinished,
            running: 0,
            halted: false,
        }
    }

    /// Tells whether the machine is halted.
    pub fn is_halted(&self) -> bool
        ensures { result ≡ (state_of self.now).halted }
    {
        self.halted
    }

    /// Sets whether the machine is halted.
    pub fn set_halted(&mut self, halted: bool)
        ensures { whole_of self.new ≡ with_state (whole_of self.old) (record (state_of self.old) { halted = halted }) }
    {
        self.halted = halted;
    }

    /// Returns the placement as it stands.
    pub fn placement(&self) -> &Placement
        ensures place { place_of result.now ≡ (state_of self.now).place }
        ensures sizes { sizes_of result.now.setup ≡ (state_of self.now).sizes }
        ensures setup { result.now.setup ≡ self.now.placement.setup }
    {
        &self.placement
    }

    /// Returns the rights that nobody has.
    pub fn pool(&self) -> &Pool
        ensures hold { pool_hold result.now ≡ (whole_of self.now).pool }
        ensures size { HasSize (state_of self.now).sizes result.now }
    {
        &self.pool
    }

    /// Returns the recorded events, the oldest first.
    pub fn log(&self) -> &[Logged]
        ensures { result.now ≡ (state_of self.now).log }
    {
        self.journal.log()
    }

    /// Returns the entries that publications have added, with their shards, the oldest first.
    pub fn entries(&self) -> &[(ShardId, Entry)]
        ensures { reverse result.now ≡ (state_of self.now).entries }
    {
        self.entries.as_slice()
    }

    /// States that no more entries were added than events are recorded.
    pub fn entries_fit(&self)
        ensures { length (state_of self.now).entries ≤ length (state_of self.now).log }
    {
        let _entries = self.entries.len();
    }

    /// Returns the number of log places that are neither used nor set aside.
    pub fn free(&self) -> u64
        ensures { result ≡ (whole_of self.now).free }
    {
        self.free
    }

    /// Records a stream's step, with its answer.
    pub fn record_step(&mut self, id: StreamId, answer: Played)
        requires known { is_begun (state_of self.old) id ≡ true }
        requires room { length (state_of self.old).log < (state_of self.old).room }
        ensures { whole_of self.new ≡ with_state (whole_of self.old)
            (recorded (state_of self.old) (event.Step id) answer) }
    {
        let _room = self.journal.room();
        let plan = id.plan as usize;
        let since = self.journal.next_place() + 1;
        self.plans.swap(plan, &mut self.desk);
        self.desk.set_since(id.stream as usize, since);
        self.plans.swap(plan, &mut self.desk);
        self.journal.record(Event::Step { stream: id }, answer);
    }

    /// Records an event that is no step, with its answer.
    pub fn record(&mut self, event: Event, answer: Played)
        requires other { (id : StreamId) → is_step_of id event ≡ false }
        requires room { length (state_of self.old).log < (state_of self.old).room }
        ensures { whole_of self.new ≡ with_state (whole_of self.old) (recorded (state_of self.old) event answer) }
    {
        self.journal.record(event, answer);
    }

    /// Returns a shard's highest handover number.
    pub fn number(&self, shard: ShardId) -> u64
        requires { shard < (state_of self.now).sizes.shards }
        ensures { result ≡ (state_of self.now).numbers shard }
    {
        self.numbers[shard.number() as usize]
    }

    /// Sets a shard's highest handover number.
    pub fn set_number(&mut self, shard: ShardId, number: u64)
        requires { shard < (state_of self.old).sizes.shards }
        ensures { whole_of self.new ≡ with_state (whole_of self.old)
            (record (state_of self.old) { numbers = put (state_of self.old).numbers shard number }) }
    {
        self.numbers[shard.number() as usize] = number;
    }

    /// Returns the number of the next call.
    pub fn next_number(&self) -> u64
        ensures { result ≡ (state_of self.now).next_number }
    {
        self.next_number
    }

    /// Sets the number of the next call.
    pub fn set_next_number(&mut self, number: u64)
        ensures { whole_of self.new ≡ with_state (whole_of self.old)
            (record (state_of self.old) { next_number = number }) }
    {
        self.next_number = number;
    }

    /// Serves a call at its server. Returns whether it has its effect now.
    pub fn serve(&mut self, call: &ServerCall, number: u64) -> bool
        requires shard { call.now.shard < (state_of self.old).sizes.shards }
        requires server { call.now.server < (state_of self.old).sizes.servers }
        requires party { IsKnownCall (state_of self.old).sizes.servers call.now.call }
        requires number { 1 ≤ number }
        requires served { IsOk (called_numbered (state_of self.old).sizes
            (state_of self.old).place call.now.shard call.now.server call.now.call number) }
        ensures effect { called_numbered (state_of self.old).sizes
            (state_of self.old).place call.now.shard call.now.server call.now.call number
            ≡ Ok (record { place = (state_of self.new).place; fresh = result }) }
        ensures whole { whole_of self.new ≡ with_state (whole_of self.old)
            (record (state_of self.old) { place = (state_of self.new).place }) }
    {
        match self
            .placement
            .call_numbered(call.server, call.shard, call.call, number)
        {
            Ok(fresh) => fresh,
            Err(_) => unreachable!(),
        }
    }

    /// Publishes another entry of a shard in the map.
    pub fn publish(&mut self, shard: ShardId, listed: Option<ServerId>)
        requires shard { shard < (state_of self.old).sizes.shards }
        requires listed { ForSome listed (λ server. server < (state_of self.old).sizes.servers) }
        requires version { (state_of self.old).place.version shard < VERSIONS_END }
        requires room { length (state_of self.old).entries < length (state_of self.old).log }
        requires within { length (state_of self.old).log ≤ (state_of self.old).room }
        ensures { whole_of self.new ≡ with_state (whole_of self.old)
            (record (state_of self.old) {
              place = publish (state_of self.old).place shard listed;
              entries =
                  (shard, record { server = listed; version = suc ((state_of self.old).place.version shard) })
                  ∷ (state_of self.old).entries;
            }) }
    {
        self.placement.publish(shard, listed);
        let entry = self.placement.entry(shard);
        match self.entries.push((shard, entry)) {
            Ok(()) => {}
            Err(_) => unreachable!(),
        }
    }

    /// Sets the number of free places of the log.
    pub fn set_free(&mut self, free: u64)
        ensures { whole_of self.new ≡ record (whole_of self.old) { free = free } }
    {
        self.free = free;
    }

    /// Returns the number of unfinished plans.
    pub fn running(&self) -> u32
        ensures { result ≡ (whole_of self.now).running }
    {
        self.running
    }

    /// Sets the number of unfinished plans.
    pub fn set_running(&mut self, running: u32)
        ensures { whole_of self.new ≡ record (whole_of self.old) { running = running } }
    {
        self.running = running;
    }

    /// Returns what holds up a plan that was checked for the machine's configuration.
    pub fn holding(&self, checked: &Checked) -> Option<Holding>
        requires setup { checked.now.setup ≡ self.now.placement.setup }
        requires true_pool { (key : Key) → IsIn (whole_of self.now).pool
            (true_rights (state_of self.now).sizes (state_of self.now).place) key }
        ensures { result ≡ first_holding (state_of self.now).sizes (state_of self.now).place
            (whole_of self.now).pool checked.now.plan }
    {
        let _plan = checked.plan().streams();
        match admit_from_true_pool(checked, &self.pool, &self.placement) {
            Ok(()) => None,
            Err(why) => Some(why),
        }
    }

    /// Adds a plan that begins, whose streams take what they declare. Takes no memory.
    pub fn add_plan(&mut self, ready: ReadyPlan) -> Vec<StreamToken>
        requires fill { CanFillAll (begun_of ready 0) (whole_of self.old).pool }
        requires few { length (state_of self.old).plans ≤ MOST_NUMBER }
        requires place { length (unfinished_below (whole_of self.old).unfinished (length (state_of self.old).plans))
            < MOST_PLANS }
        ensures begun { IsBegunIn (whole_of self.old) ready (whole_of self.new) }
        ensures none { result.items ≡ [] }
        ensures room { length ready.plan.streams ≤ vec_capacity result }
    {
        let _room = self.journal.room();
        let since = self.journal.len() as u32;
        let number = self.plans.len() as u32;
        let streams = ready.checked().plan().streams().len();
        let (mut begun, room, tokens) = ready.into_begun(since);
        begun.fill(&mut self.pool);
        self.plans.push(begun, room);
        add_number(&mut self.unfinished, number, streams > 0);
        tokens
    }

    /// Returns what a server answers to a request, which came directly or with the ticket of its pass.
    pub fn reply(&self, shard: ShardId, server: ServerId, sent: Option<TicketParts>) -> Played
        requires shard { shard < (state_of self.now).sizes.shards }
        requires server { server < (state_of self.now).sizes.servers }
        ensures { result ≡ reply_of (state_of self.now) shard server sent }
    {
        let place = self.journal.next_place();
        reply(&self.placement, shard, server, sent, place)
    }

    /// Tells whether the log has just this pass, and its request was not passed on yet.
    pub fn is_open(&self, ticket: &TicketParts) -> bool
        ensures { result ≡ is_open_ticket (state_of self.now).log ticket.now }
    {
        self.journal.is_open(ticket)
    }

    /// Returns the pass that is recorded at a place of the log.
    pub fn pass_at(&self, place: u32) -> Option<TicketParts>
        ensures { result ≡ slice_index_or (passes (state_of self.now).log) place None }
    {
        self.journal.pass_at(place)
    }

    /// Ends the machine, and returns the placement as it stands. All that streams hold and signals carry goes back to
    /// the pool, which ends with all rights. Takes no memory.
    pub fn into_placement(self) -> Placement
        requires { IsWorking (whole_of self) }
        ensures place { place_of result ≡ (state_of self).place }
        ensures sizes { sizes_of result.setup ≡ (state_of self).sizes }
        ensures setup { result.setup ≡ self.placement.setup }
    {
        let Engine {
            opening: _,
            placement,
            pool,
            entries: _,
            numbers: _,
            next_number: _,
            plans,
            desk,
            journal: _,
            free: _,
            unfinished: _,
            running: _,
            halted: _,
        } = self;
        let mut pool = pool;
        plans.close(&mut pool);
        desk.close(&mut pool);
        placement
    }
}
