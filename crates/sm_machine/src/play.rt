//! Lists of events, played with a hand.
ghost use Rattle.std.specs.Prelude.{◌≡◌, ◌≤◌, ◌<◌, ◌↔◌, ℕ, IsTrue, IfOk, OnOk, OnErr, [], length, map, take};
ghost use Rattle.std.specs.List.{AllByRecursion};
ghost use Rattle.sm_protocol.specs.declared.event.Event.TheVariants as event;
ghost use Rattle.sm_protocol.specs.Hand.{play, plays};
ghost use Rattle.sm_protocol.specs.Laws.{NamesKnown, IsPlayed};
ghost use Rattle.sm_protocol.specs.Steps.{Answered};
ghost use Rattle.sm_machine.specs.State.{state_of};
ghost use Rattle.sm_machine.specs.Hand.{AreFor, AreLeft, HasHandRoom, StartsNoPlan, TellsRight, IsSameHand, IsTurn};
ghost use Rattle.sm_machine.specs.Hand.{game_of};
ghost use Rattle.sm_plan_code.specs.declared.limits.TheConstants.{MOST_CALLS};

use crate::answers::Answers;
use crate::hand::{Hand, token_room};
use crate::lists::{add_tokens, put_plan};
use crate::machine::Machine;
use crate::searches::{first_permit, first_ticket, has_token};
use sm_plan_code::MOST_CALLS;
use sm_protocol::{Event, Played};
use std::alloc::{AllocError, Global};

impl Machine {
    /// Tells whether a hand has the right that an event names. Without it the event is Unknown.
    fn has_right(&self, hand: &Hand, event: &Event) -> bool
        requires { StartsNoPlan event.now }
        ensures { TellsRight result self.now hand.now event.now }
    {
        match *event {
            Event::Step { stream } | Event::Lose { stream, .. } | Event::Refill { stream, .. } => {
                has_token(hand.tokens.as_slice(), stream)
            }
            Event::PassOn { place } => match first_ticket(hand.tickets.as_slice(), place) {
                Some(at) => self.is_open(&hand.tickets[at]),
                None => false,
            },
            Event::Done { server } => first_permit(hand.permits.as_slice(), server).is_some(),
            Event::Arrive { .. } | Event::Approve { .. } => true,
            Event::Begin { .. } => false,
        }
    }

    /// Starts the plan at a place of the hand, if there is one. The tokens of its streams go into the hand.
    fn play_begin(&mut self, hand: &mut Hand, place: u32) -> Played
        requires plans { AreFor self.old.placement.setup hand.old.plans.items }
        requires room { HasHandRoom hand.old 1 }
        ensures { IsTurn self.old hand.old (event.Begin place) result self.new hand.new }
    {
        let at = place as usize;
        if at >= hand.plans.len() {
            return Played::Unknown;
        }
        let Some(ready) = hand.plans[at].take() else {
            return Played::Unknown;
        };
        let number = self.plan_count();
        match self.start(ready) {
            Ok(tokens) => {
                add_tokens(&mut hand.tokens, tokens);
                Played::Begun {
                    number: number as u32,
                }
            }
            Err((ready, why)) => {
                put_plan(&mut hand.plans, at, ready);
                Played::NotBegun(why)
            }
        }
    }

    /// Plays an event.
    fn play_one(&mut self, hand: &mut Hand, event: Event) -> Played
        requires names { NamesKnown (state_of self.old).sizes event }
        requires plans { AreFor self.old.placement.setup hand.old.plans.items }
        requires room { HasHandRoom hand.old 1 }
        ensures { IsTurn self.old hand.old event result self.new hand.new }
    {
        if let Event::Begin { plan } = event {
            return self.play_begin(hand, plan);
        }
        if !self.has_right(hand, &event) {
            return Played::Unknown;
        }
        let answer = self.play_named(&event);
        let told = answer;
        hand.settle(&event, told);
        answer
    }

    /// Plays the events, for whose answers there is room.
    fn play_each(&mut self, hand: &mut Hand, events: &[Event], answers: &mut Answers)
        requires names { AllByRecursion (NamesKnown (state_of self.old).sizes) events.now }
        requires plans { AreFor self.old.placement.setup hand.old.plans.items }
        requires none { answers.old.told ≡ [] }
        requires places { length events.now ≤ answers.old.room }
        requires room { HasHandRoom hand.old (length events.now) }
        ensures answers { map Answered answers.new.told ≡ plays events.now (game_of self.old hand.old) }
        ensures game { game_of self.new hand.new ≡ play events.now (game_of self.old hand.old) }
        ensures setup { self.new.placement.setup ≡ self.old.placement.setup }
        ensures left { AreLeft hand.old.plans.items hand.new.plans.items }
    {
        for event in events {
            let answer = self.play_one(hand, *event);
            answers.add(answer);
        }
    }

    /// Takes all room, and then plays the events.
    fn play_all(
        &mut self,
        alloc: Global,
        hand: &mut Hand,
        events: &[Event],
    ) -> Result<Vec<Played>, AllocError>
        requires names { AllByRecursion (NamesKnown (state_of self.old).sizes) events.now }
        requires plans { AreFor self.old.placement.setup hand.old.plans.items }
        ensures answers { IfOk result (λ answers. map Answered answers.items
            ≡ plays events.now (game_of self.old hand.old)) }
        ensures game { OnOk result (game_of self.new hand.new ≡ play events.now (game_of self.old hand.old)) }
        ensures setup { self.new.placement.setup ≡ self.old.placement.setup }
        ensures left { AreLeft hand.old.plans.items hand.new.plans.items }
        ensures machine { OnErr result (self.new ≡ self.old) }
        ensures hand { OnErr result (IsSameHand hand.old hand.new) }
    {
        let tokens = token_room(hand.plans.as_slice());
        hand.reserve(tokens, events.len())?;
        let mut answers = Answers::with_room(alloc, events.len())?;
        self.play_each(hand, events, &mut answers);
        Ok(answers.into_list())
    }

    /// States the protocol's headline, and its laws on lost calls, on their numbers and on tickets, of each front of a
    /// list of events that is played with a hand: so they hold of the game after each event.
    fn plays_safely(&self, hand: &Hand, events: &[Event])
        requires names { AllByRecursion (NamesKnown (state_of self.now).sizes) events.now }
        requires plans { AreFor self.now.placement.setup hand.now.plans.items }
        ensures { (n : ℕ) → IsPlayed self.now.placement.setup (take n events.now) (game_of self.now hand.now) }
    {
        let _tokens = token_room(hand.plans.as_slice());
        let _count = events.len();
        self.is_reached();
    }

    /// Tells whether `play` takes an event. If a caller's events come from elsewhere, it has to test each.
    pub fn is_known(&self, event: &Event) -> bool
        ensures { IsTrue result ↔ NamesKnown (state_of self.now).sizes event.now }
    {
        let config = self.config();
        match *event {
            Event::Arrive { shard, server } => {
                shard.number() < config.shard_count() && server.number() < config.server_count()
            }
            Event::Approve { server } | Event::Done { server } => {
                server.number() < config.server_count()
            }
            Event::Refill { more, .. } => more <= MOST_CALLS,
            _ => true,
        }
    }

    /// Plays a list of events with a hand: each is answered as the protocol says. The things that an event needs are
    /// taken out of the hand, and those that it gives go into it. If memory is short, nothing has happened: all room is
    /// taken before the first event.
    ///
    /// The events name known shards and servers, and each plan of the hand was checked for the machine's configuration.
    /// So the following holds after each event, which is the end of a front of the list (`IsPlayed`). No call was
    /// refused. No number of a call had its effect twice, nor has it along a later list. The tickets of one place of
    /// the log were spent once at most. The state is safe. Some stream of each plan that isn't done can step, or one
    /// that hasn't finished has spent its allowance. If no lost call was asked for, and no unfinished stream had one in
    /// the log, some stream can step.
    pub fn play(
        &mut self,
        alloc: Global,
        hand: &mut Hand,
        events: &[Event],
    ) -> Result<Vec<Played>, AllocError>
        requires names { AllByRecursion (NamesKnown (state_of self.old).sizes) events.now }
        requires plans { AreFor self.old.placement.setup hand.old.plans.items }
        ensures answers { IfOk result (λ answers. map Answered answers.items
            ≡ plays events.now (game_of self.old hand.old)) }
        ensures game { OnOk result (game_of self.new hand.new ≡ play events.now (game_of self.old hand.old)) }
        ensures setup { self.new.placement.setup ≡ self.old.placement.setup }
        ensures left { AreLeft hand.old.plans.items hand.new.plans.items }
        ensures machine { OnErr result (self.new ≡ self.old) }
        ensures hand { OnErr result (IsSameHand hand.old hand.new) }
        ensures played { (n : ℕ) → IsPlayed self.old.placement.setup (take n events.now) (game_of self.old hand.old) }
    {
        self.plays_safely(hand, events);
        self.play_all(alloc, hand, events)
    }
}
