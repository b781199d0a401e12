//! A plan that was begun.
ghost use Rattle.std.specs.Prelude.{◌≡◌, ◌<◌, ◌≤◌, ◌^◌, ◌+◌, ◌-◌, ◌==◌, count_by, not, is_some, IfSome, Some, None};
ghost use Rattle.std.specs.Prelude.{true, false, length, slice_get, slice_index_or, sum_by};
ghost use Rattle.sm_reservation.specs.Hold.{minus, plus};
ghost use Rattle.sm_reservation.specs.HoldOf.{hold_of};
ghost use Rattle.sm_reservation.specs.CanJoin.{CanJoin};
ghost use Rattle.sm_reservation.specs.Short.{first_short};
ghost use Rattle.sm_verifier.specs.Stream.{no_stream};
ghost use Rattle.sm_verifier.specs.Step.{parcels_of};
ghost use Rattle.sm_placement.specs.Setup.{sizes_of};
ghost use Rattle.sm_plan_code.specs.Instr.{shard_of, IsOwn};
ghost use Rattle.sm_plan_code.specs.Table.{exchange_of};
ghost use Rattle.std.specs.List.{list_any};
ghost use Rattle.sm_protocol.specs.State.{is_no_call};
ghost use Rattle.sm_protocol.specs.Happens.{is_mentioned};
ghost use Rattle.sm_machine.specs.Servers.{AreMentionedBy};
ghost use Rattle.sm_machine.specs.Trade.{CanTrade, IsTradedBy};
ghost use Rattle.sm_reservation.specs.Pool.{pool_hold, SameSize};
ghost use Rattle.sm_machine.specs.Tied.{pool_left};
ghost use Rattle.sm_machine.specs.Starts.{CanFillAll, AreFilled};
ghost use Rattle.sm_machine.specs.Course.{hold_in, rights_in, capacity_in, HasCapacityIn, IsCourse, IsGrantInOrder};
ghost use Rattle.sm_machine.specs.Since.{since_by};
ghost use Rattle.sm_machine.specs.Begun.{course_at, carried_at, no_begun, with_course, with_carried, IsBegunParts};
ghost use Rattle.sm_machine.specs.Returns.{held_in_course, held_in_signal, held_in_plan, CanTakeBack, HasTakenBack};

use crate::carried::Carried;
use crate::places::count_no_calls;
use crate::progress::Progress;
use crate::servers::MentionedServers;
use crate::stream::Course;
use sm_placement::Config;
use sm_plan_code::{Instr, Parts, Plan};
use sm_reservation::{Change, Grant, Pool};
use sm_server::ServerId;
use std::alloc::Global;
use std::marker::Model;

/// Ends streams: what they hold goes back to the pool. Takes no memory.
fn close_courses(courses: Vec<Course>, pool: &mut Pool)
    requires { CanTakeBack pool.old (λ r. sum_by (held_in_course r) courses.items) }
    ensures { HasTakenBack pool.old pool.new (λ r. sum_by (held_in_course r) courses.items) }
{
    let mut courses = courses;
    for _ in 0..courses.len() {
        match courses.pop() {
            Some(course) => course.close(pool),
            None => {}
        }
    }
    courses.destroy_empty();
}

/// Ends signals: what they carry goes back to the pool. Takes no memory.
fn close_signals(signals: Vec<Carried>, pool: &mut Pool)
    requires { CanTakeBack pool.old (λ r. sum_by (held_in_signal r) signals.items) }
    ensures { HasTakenBack pool.old pool.new (λ r. sum_by (held_in_signal r) signals.items) }
{
    let mut signals = signals;
    for _ in 0..signals.len() {
        match signals.pop() {
            Some(signal) => signal.close(pool),
            None => {}
        }
    }
    signals.destroy_empty();
}

/// A plan that was begun, as it stands.
pub(crate) struct Begun {
    plan: Plan,
    /// The log's length at its start.
    since: u32,
    /// Its streams, in their order.
    courses: Vec<Course>,
    signals: Vec<Carried>,
    /// The servers that the code of each stream mentions.
    mentioned: Vec<MentionedServers>,
    /// The number of streams that have not finished.
    unfinished: u32,
}

impl Model for Begun {
    ghost use Rattle.sm_machine.specs.Begun.{BegunModel, IsBegunParts};
    ghost use Rattle.sm_machine.specs.Servers.{AreMentionedBy};

    ghost Value = { BegunModel };

    ghost view = { λ b. record { plan = b.plan; since = b.since; courses = b.courses.items; signals = b.signals.items; unfinished = b.unfinished } };

    ghost invariant = { λ b. IsBegunParts (record { plan = b.plan; since = b.since; courses = b.courses.items; signals = b.signals.items; unfinished = b.unfinished }) × AreMentionedBy b.plan.streams b.mentioned.items };
}

impl Begun {
    /// Makes a plan of nothing. Takes no memory.
    pub fn blank(alloc: Global) -> Begun
        ensures { result ≡ no_begun }
    {
        let parts = Parts {
            budget: 0,
            streams: Vec::new(alloc),
            signals: Vec::new(alloc),
        };
        match Plan::new(parts) {
            Ok(plan) => Begun {
                plan,
                since: 0,
                courses: Vec::new(alloc),
                signals: Vec::new(alloc),
                mentioned: Vec::new(alloc),
                unfinished: 0,
            },
            Err(_) => unreachable!(),
        }
    }

    /// Makes a plan that is begun now, with its streams, its signals, and the servers that each stream mentions.
    pub fn new(
        plan: Plan,
        since: u32,
        courses: Vec<Course>,
        signals: Vec<Carried>,
        mentioned: Vec<MentionedServers>,
    ) -> Begun
        requires courses { length courses.items ≡ length plan.streams }
        requires signals { length signals.items ≡ length plan.signals }
        requires mentioned { AreMentionedBy plan.streams mentioned.items }
        ensures { result ≡ record {
          plan = plan;
          since = since;
          courses = courses.items;
          signals = signals.items;
          unfinished = length plan.streams;
        } }
    {
        let unfinished = plan.streams().len() as u32;
        Begun {
            plan,
            since,
            courses,
            signals,
            mentioned,
            unfinished,
        }
    }

    /// Returns the plan.
    pub fn plan(&self) -> &Plan
        ensures value { result.now ≡ self.now.plan }
        ensures parts { IsBegunParts self.now }
    {
        &self.plan
    }

    /// Returns the number of streams of the plan.
    pub fn stream_count(&self) -> usize
        ensures value { result ≡ length self.now.plan.streams }
        ensures parts { IsBegunParts self.now }
    {
        self.courses.len()
    }

    /// Returns how far a stream has come.
    pub fn progress(&self, stream: usize) -> Progress
        requires { stream < length self.now.plan.streams }
        ensures { result ≡ (course_at self.now stream).progress }
    {
        self.courses[stream].progress()
    }

    /// Returns the instruction that a stream makes next.
    pub fn next_instruction(&self, stream: usize) -> Option<Instr>
        requires { stream < length self.now.plan.streams }
        ensures { result ≡ slice_get (slice_index_or self.now.plan.streams stream no_stream).code
            (course_at self.now stream).progress.at }
    {
        let at = self.progress(stream).at;
        let parts = &self.plan.streams()[stream];
        parts.code.get(at).copied()
    }

    /// Tells whether the code of a stream mentions the server. It looks once, however long the code is.
    pub fn mentions(&self, stream: usize, server: ServerId) -> bool
        requires { stream < length self.now.plan.streams }
        ensures { result ≡ list_any (is_mentioned server) (slice_index_or self.now.plan.streams stream no_stream).code }
    {
        self.mentioned[stream].has(server)
    }

    /// Returns the number of tries of calls that a stream may make.
    pub fn allowance(&self, stream: usize) -> u64
        requires { stream < length self.now.plan.streams }
        ensures value { result ≡ (slice_index_or self.now.plan.streams stream no_stream).budget +
            (slice_index_or self.now.plan.streams stream no_stream).retries +
            (course_at self.now stream).progress.refills }
        ensures within { result < 2 ^ 34 }
    {
        let refills = self.progress(stream).refills;
        let parts = &self.plan.streams()[stream];
        u64::from(parts.budget) + u64::from(parts.retries) + u64::from(refills)
    }

    /// Returns the number of recorded steps that a stream makes on its way, with the tries that it has made.
    pub fn steps_made(&self, stream: usize) -> u64
        requires known { stream < length self.now.plan.streams }
        requires tries { (course_at self.now stream).progress.tries ≤
            (slice_index_or self.now.plan.streams stream no_stream).budget +
            (slice_index_or self.now.plan.streams stream no_stream).retries +
            (course_at self.now stream).progress.refills }
        ensures { result ≡ (course_at self.now stream).progress.tries + count_by is_no_call
            (slice_index_or self.now.plan.streams stream no_stream).code + 1 }
    {
        let _most = self.allowance(stream);
        let tries = self.progress(stream).tries;
        let parts = &self.plan.streams()[stream];
        tries + count_no_calls(&parts.code) as u64 + 1
    }

    /// Sets a stream's progress.
    pub fn set_progress(&mut self, stream: usize, progress: Progress)
        requires known { stream < length self.old.plan.streams }
        requires done { progress.done ≡ (course_at self.old stream).progress.done }
        ensures value { self.new ≡ with_course self.old stream
            (record (course_at self.old stream) { progress = progress }) }
        ensures parts { IsBegunParts self.old }
    {
        self.courses[stream].set_progress(progress);
    }

    /// Returns the log's length when a stream came to its position: behind its last step, or at the start.
    pub fn since(&self, stream: usize) -> u32
        requires { stream < length self.now.plan.streams }
        ensures { result ≡ since_by self.now.since (course_at self.now stream).since }
    {
        match self.courses[stream].since() {
            Some(since) => since,
            None => self.since,
        }
    }

    /// Sets the log's length behind the last step of a stream.
    pub fn set_since(&mut self, stream: usize, since: u32)
        requires { stream < length self.old.plan.streams }
        ensures value { self.new ≡ with_course self.old stream
            (record (course_at self.old stream) { since = Some since }) }
        ensures parts { IsBegunParts self.old }
    {
        self.courses[stream].set_since(since);
    }

    /// Gives up what an instruction needs of a stream's rights, for what it gives.
    pub fn trade(&mut self, stream: usize, config: &Config, instr: &Instr) -> Change
        requires stream { stream < length self.old.plan.streams }
        requires running { (course_at self.old stream).progress.done ≡ false }
        requires known { IfSome (shard_of instr.now) (λ s. s < length config.now.shards) }
        requires own { IsOwn instr.now }
        requires can { CanTrade (sizes_of config.now) instr.now (course_at self.old stream).grant }
        ensures others { self.new ≡ with_course self.old stream
            (record (course_at self.old stream) { grant = (course_at self.new stream).grant }) }
        ensures traded { IsTradedBy (sizes_of config.now) instr.now (course_at self.old stream).grant
            (course_at self.new stream).grant }
        ensures change { result ≡ exchange_of (sizes_of config.now) instr.now
            (hold_in (course_at self.old stream).grant) }
        ensures parts { IsBegunParts self.old }
    {
        self.courses[stream].trade(config, instr)
    }

    /// Counts one more stream as finished. Returns whether it was the last.
    pub fn finish_one(&mut self) -> bool
        ensures left { self.new ≡ record self.old { unfinished = self.old.unfinished - 1 } }
        ensures last { result ≡ (self.old.unfinished == 1) }
        ensures parts { IsBegunParts self.old }
    {
        let last = self.unfinished == 1;
        self.unfinished = self.unfinished.saturating_sub(1);
        last
    }

    /// States that what a stream holds is in order.
    pub fn held_in_order(&self, stream: usize)
        requires { stream < length self.now.plan.streams }
        ensures order { IsGrantInOrder (course_at self.now stream).grant }
        ensures there { IsCourse (course_at self.now stream) }
    {
        self.courses[stream].in_order();
    }

    /// States that what a signal carries is in order.
    pub fn carried_in_order(&self, signal: usize)
        requires { signal < length self.now.plan.signals }
        ensures order { IsGrantInOrder (carried_at self.now signal).grant }
        ensures there { is_some (carried_at self.now signal).grant ≡ not (carried_at self.now signal).mark.awaited }
    {
        self.signals[signal].in_order();
    }

    /// Tells whether a signal was posted.
    pub fn is_posted(&self, signal: usize) -> bool
        requires { signal < length self.now.plan.signals }
        ensures { result ≡ (carried_at self.now signal).mark.posted }
    {
        self.signals[signal].is_posted()
    }

    /// Posts a signal: a stream gives its parcel up.
    pub fn post(&mut self, stream: usize, signal: usize)
        requires known { stream < length self.old.plan.streams }
        requires signal { signal < length self.old.plan.signals }
        requires running { (course_at self.old stream).progress.done ≡ false }
        requires there { (carried_at self.old signal).mark.awaited ≡ false }
        requires held { first_short (hold_in (course_at self.old stream).grant)
            (parcels_of self.old.plan.signals signal) ≡ None }
        requires fits { CanJoin (hold_in (carried_at self.old signal).grant)
            (hold_of (parcels_of self.old.plan.signals signal)) }
        requires capacity { HasCapacityIn (carried_at self.old signal).grant (parcels_of self.old.plan.signals signal) }
        ensures others { self.new ≡ with_carried (with_course self.old stream
            (record (course_at self.old stream) { grant = (course_at self.new stream).grant })) signal
            (record {
              mark = record (carried_at self.old signal).mark { posted = true };
              grant =
                  (carried_at self.new signal).grant;
            }) }
        ensures hold { hold_in (carried_at self.new signal).grant
            ≡ plus (hold_in (carried_at self.old signal).grant) (parcels_of self.old.plan.signals signal) }
        ensures left { hold_in (course_at self.new stream).grant
            ≡ minus (hold_in (course_at self.old stream).grant) (parcels_of self.old.plan.signals signal) }
        ensures capacity { capacity_in (course_at self.new stream).grant
            ≡ capacity_in (course_at self.old stream).grant }
        ensures parts { IsBegunParts self.old }
    {
        let parcel = &self.plan.signals()[signal];
        let course = &mut self.courses[stream];
        self.signals[signal].post(course, parcel);
    }

    /// Gives a stream the parcel of a signal that was posted.
    pub fn wait(&mut self, stream: usize, signal: usize)
        requires known { stream < length self.old.plan.streams }
        requires signal { signal < length self.old.plan.signals }
        requires running { (course_at self.old stream).progress.done ≡ false }
        requires there { (carried_at self.old signal).mark.awaited ≡ false }
        requires fits { CanJoin (hold_in (course_at self.old stream).grant)
            (hold_in (carried_at self.old signal).grant) }
        requires capacity { HasCapacityIn (course_at self.old stream).grant
            (rights_in (carried_at self.old signal).grant) }
        ensures others { self.new ≡ with_carried (with_course self.old stream
            (record (course_at self.old stream) { grant = (course_at self.new stream).grant })) signal
            (record { mark = record (carried_at self.old signal).mark { awaited = true }; grant = None }) }
        ensures hold { hold_in (course_at self.new stream).grant
            ≡ plus (hold_in (course_at self.old stream).grant) (rights_in (carried_at self.old signal).grant) }
        ensures capacity { capacity_in (course_at self.new stream).grant
            ≡ capacity_in (course_at self.old stream).grant }
        ensures parts { IsBegunParts self.old }
    {
        let course = &mut self.courses[stream];
        self.signals[signal].wait(course);
    }

    /// Ends a stream, and returns what it held.
    pub fn end(&mut self, stream: usize) -> Grant
        requires known { stream < length self.old.plan.streams }
        requires running { (course_at self.old stream).progress.done ≡ false }
        ensures grant { (course_at self.old stream).grant ≡ Some result }
        ensures after { self.new ≡ with_course self.old stream
            (record (course_at self.old stream) {
              progress = record
                  (course_at self.old stream).progress { done = true };
              grant = None;
            }) }
        ensures parts { IsBegunParts self.old }
    {
        self.courses[stream].end()
    }

    /// Fills each stream with what it declares, out of a pool. Takes no memory.
    pub fn fill(&mut self, pool: &mut Pool)
        requires { CanFillAll self.old (pool_hold pool.old) }
        ensures others { self.new ≡ record self.old { courses = self.new.courses } }
        ensures filled { AreFilled self.old.plan.streams
            (length self.old.plan.streams) self.old.courses self.new.courses }
        ensures taken { pool_hold pool.new ≡ pool_left (pool_hold pool.old) self.old.plan.streams
            (length self.old.plan.streams) }
        ensures size { SameSize pool.old pool.new }
    {
        let streams = self.plan.streams();
        let courses = &mut self.courses;
        for stream in 0..streams.len() {
            let parts = &streams[stream];
            courses[stream].fill(pool, &parts.holds);
        }
    }

    /// Ends the plan: what its streams hold and its signals carry goes back to the pool. Takes no memory.
    pub fn close(self, pool: &mut Pool)
        requires { CanTakeBack pool.old (λ r. held_in_plan r self) }
        ensures { HasTakenBack pool.old pool.new (λ r. held_in_plan r self) }
    {
        let Begun {
            plan: _,
            since: _,
            courses,
            signals,
            mentioned: _,
            unfinished: _,
        } = self;
        close_courses(courses, pool);
        close_signals(signals, pool);
    }
}
