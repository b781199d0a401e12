//! Events by their names alone, for those who have all rights that a machine gives away.
ghost use Rattle.std.specs.Prelude.{◌≡◌, ◌≤◌, ◌<◌, None, option_map, slice_index_or};
ghost use Rattle.sm_plan_code.specs.declared.limits.TheConstants.{MOST_CALLS};
ghost use Rattle.sm_protocol.specs.Happens as happening;
ghost use Rattle.sm_protocol.specs.Happens.{happens};
ghost use Rattle.sm_protocol.specs.Log.{named};
ghost use Rattle.sm_protocol.specs.Steps.{Answered, step};
ghost use Rattle.sm_protocol.specs.Ticket.{passes};
ghost use Rattle.sm_machine.specs.Losses.{refill_answer};
ghost use Rattle.sm_machine.specs.Played.{played_of};
ghost use Rattle.sm_machine.specs.Requested.{IsReply, IsTicketReply};
ghost use Rattle.sm_machine.specs.State.{state_of};
ghost use Rattle.sm_machine.specs.Director.{CanDirect, HasHappenedAs, HasHappenedIf};

use crate::journal::TicketParts;
use crate::machine::Machine;
use crate::permit::Permit;
use crate::step::Step;
use sm_protocol::{Event, Passage, Played, RefillFault};
use sm_reservation::StreamId;
use sm_server::{ServerId, ShardId};

impl Machine {
    /// Makes a stream's next step. If that tries a call, `passage` says whether the try gets through.
    fn step_by(&mut self, id: StreamId, passage: Passage) -> Step
        ensures answer { (step (state_of self.old) id passage).0 ≡ Answered (played_of result) }
        ensures state { state_of self.new ≡ (step (state_of self.old) id passage).1 }
        ensures setup { self.new.placement.setup ≡ self.old.placement.setup }
    {
        self.engine.step_by(id, passage)
    }

    /// Makes a stream's next step, and loses its call if it tries one: before its effect, or its answer after it.
    fn lose_by(&mut self, id: StreamId, after: bool) -> Step
        ensures answer { (happens (state_of self.old) (happening.Lose id after)).0 ≡ Answered (played_of result) }
        ensures state { state_of self.new ≡ (happens (state_of self.old) (happening.Lose id after)).1 }
        ensures setup { self.new.placement.setup ≡ self.old.placement.setup }
    {
        if after {
            self.step_by(id, Passage::LostAfter)
        } else {
            self.step_by(id, Passage::LostBefore)
        }
    }

    /// Raises a stream's allowance.
    fn refill_by(&mut self, id: StreamId, more: u32) -> Result<(), RefillFault>
        requires { more ≤ MOST_CALLS }
        ensures answer { (happens (state_of self.old) (happening.Refill id more)).0 ≡ Answered (refill_answer result) }
        ensures state { state_of self.new ≡ (happens (state_of self.old) (happening.Refill id more)).1 }
        ensures setup { self.new.placement.setup ≡ self.old.placement.setup }
    {
        self.engine.refill(id, more)
    }

    /// Raises a stream's allowance of tries, by 262,144 at most at once.
    fn refill_named(&mut self, stream: StreamId, more: u32) -> Played
        requires { more ≤ MOST_CALLS }
        ensures { HasHappenedAs self.old (happening.Refill stream more) result self.new }
    {
        match self.refill_by(stream, more) {
            Ok(()) => Played::Refilled,
            Err(why) => Played::RefillRefused(why),
        }
    }

    /// Answers a request for a shard that comes to a server.
    pub(super) fn arrive_named(&mut self, shard: ShardId, server: ServerId) -> Played
        requires shard { shard < (state_of self.old).sizes.shards }
        requires server { server < (state_of self.old).sizes.servers }
        ensures answer { (happens (state_of self.old) (happening.Arrive shard server)).0 ≡ Answered result }
        ensures state { state_of self.new ≡ (happens (state_of self.old) (happening.Arrive shard server)).1 }
        ensures reply { IsReply result }
        ensures setup { self.new.placement.setup ≡ self.old.placement.setup }
    {
        let event = Event::Arrive { shard, server };
        self.engine.ask(shard, server, None, event)
    }

    /// Answers a request that was passed on. It is Unknown unless the log has just this pass, and its request was not
    /// passed on yet.
    pub(super) fn pass_on_named(&mut self, pass: TicketParts) -> Played
        ensures answer { (happens (state_of self.old) (happening.PassOn pass)).0 ≡ Answered result }
        ensures state { state_of self.new ≡ (happens (state_of self.old) (happening.PassOn pass)).1 }
        ensures reply { IsTicketReply result }
        ensures setup { self.new.placement.setup ≡ self.old.placement.setup }
    {
        if !self.engine.is_open(&pass) {
            return Played::Unknown;
        }
        let event = Event::PassOn { place: pass.place };
        self.engine.ask(pass.shard, pass.target, Some(pass), event)
    }

    /// Answers the request whose pass is recorded at a place of the log.
    fn pass_on_at(&mut self, place: u32) -> Played
        ensures { HasHappenedIf self.old (option_map happening.PassOn
            (slice_index_or (passes (state_of self.old).log) place None)) result self.new }
    {
        match self.engine.pass_at(place) {
            Some(pass) => self.pass_on_named(pass),
            None => Played::Unknown,
        }
    }

    /// Answers whether a server may be restarted.
    fn approve_named(&mut self, server: ServerId) -> Played
        requires { server < (state_of self.old).sizes.servers }
        ensures { HasHappenedAs self.old (happening.Approve server) result self.new }
    {
        match self.approve(server) {
            Ok(permit) => {
                let _ = permit.into_server();
                Played::Approved
            }
            Err(why) => Played::Denied(why),
        }
    }

    /// Ends the restart of a server.
    fn done_named(&mut self, server: ServerId) -> Played
        ensures { HasHappenedAs self.old (happening.Done server) result self.new }
    {
        match self.done(Permit::new(server)) {
            Ok(()) => Played::Up,
            Err(permit) => {
                let _ = permit.into_server();
                Played::Unknown
            }
        }
    }

    /// Plays an event, for which all rights are there. An event that names nothing is Unknown, and so is a start, which
    /// does not tell the plan that is to start.
    pub(crate) fn play_named(&mut self, event: &Event) -> Played
        requires { CanDirect (state_of self.old).sizes event.now }
        ensures { HasHappenedIf self.old (named (state_of self.old) event.now) result self.new }
    {
        match *event {
            Event::Step { stream } => Played::from(self.step_by(stream, Passage::Through)),
            Event::Lose { stream, after } => Played::from(self.lose_by(stream, after)),
            Event::Refill { stream, more } => self.refill_named(stream, more),
            Event::Arrive { shard, server } => self.arrive_named(shard, server),
            Event::PassOn { place } => self.pass_on_at(place),
            Event::Approve { server } => self.approve_named(server),
            Event::Done { server } => self.done_named(server),
            Event::Begin { .. } => Played::Unknown,
        }
    }
}
