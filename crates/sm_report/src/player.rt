//! The player of events on a machine.
ghost use Rattle.std.specs.Prelude.{◌≡◌, ◌≤◌, ◌<◌, ◌^◌, [], IfOk, length, map, slice_set, Some};
ghost use Rattle.sm_placement.specs.Setup.{sizes_of};
ghost use Rattle.sm_placement.specs.Place.{down_count};
ghost use Rattle.sm_placement.specs.Layout.{place_of};
ghost use Rattle.sm_placement.specs.Lead.{IsSettled};
ghost use Rattle.sm_protocol.specs.declared.event.Event.TheVariants.{Begin};
ghost use Rattle.sm_protocol.specs.State.{opened};
ghost use Rattle.sm_protocol.specs.Laws.{NamesKnown};
ghost use Rattle.sm_machine.specs.Hand.{AreFor, hand_plan};
ghost use Rattle.sm_machine.specs.State.{state_of};
ghost use Rattle.sm_report.specs.Playing.{event_named, start_number, named_stream};
ghost use Rattle.sm_report.specs.Player.{scene_of, IsSetUp, IsEventPlayed, IsNoBegin};
ghost use Rattle.sm_plan_code.specs.declared.limits.TheConstants.{MOST_PLACES};

use crate::stages::director;
use sm_machine::{Director, Machine, make_ready};
use sm_placement::Placement;
use sm_protocol::{Event, Played};
use sm_reservation::StreamId;
use sm_verifier::Checked;
use std::alloc::{AllocError, Global};

/// The player of a document's events: a machine with all its rights, and the document's plans.
pub struct Player {
    director: Director,
    /// The plans by their places in the document, none once they have begun.
    waiting: Vec<Option<Checked>>,
    /// The places of the plans that have begun, by their numbers.
    places: Vec<u32>,
}

/// Returns the number of the plan at this place of the document, once it has begun.
fn start_number(places: &[u32], place: usize) -> Option<u32>
    requires { length places.now ≤ 2 ^ 32 }
    ensures { result ≡ start_number places.now place }
{
    for (number, begun) in places.iter().enumerate() {
        if *begun as usize == place {
            return Some(number as u32);
        }
    }
    None
}

/// Puts a plan back into its place, which is empty.
fn put_back(waiting: &mut Vec<Option<Checked>>, at: usize, checked: Checked)
    requires { at < length waiting.old.items }
    ensures { waiting.new.items ≡ slice_set waiting.old.items at (Some checked) }
{
    waiting[at] = Some(checked);
}

impl Player {
    /// Opens a machine over a settled placement, whose log has room for the restarts under way, for the plans of a
    /// document.
    pub fn open(
        alloc: Global,
        placement: Placement,
        log: u32,
        waiting: Vec<Option<Checked>>,
    ) -> Result<Player, AllocError>
        requires settled { IsSettled (sizes_of placement.setup) (place_of placement) }
        requires room { down_count (sizes_of placement.setup) (place_of placement) ≤ log }
        requires most { log ≤ MOST_PLACES }
        requires checked { AreFor placement.setup waiting.items }
        ensures state { IfOk result (λ p. (scene_of p).state
            ≡ opened (sizes_of placement.setup) (place_of placement) log) }
        ensures waiting { IfOk result (λ p. (scene_of p).waiting ≡ map hand_plan waiting.items) }
        ensures places { IfOk result (λ p. (scene_of p).places ≡ []) }
        ensures setup { IfOk result (λ p. p.director.placement.setup ≡ placement.setup) }
        ensures ready { IfOk result IsSetUp }
    {
        let director = director(alloc, placement, log)?;
        Ok(Player {
            director,
            waiting,
            places: Vec::new(alloc),
        })
    }

    /// Returns the machine.
    pub fn machine(&self) -> &Machine
        ensures { result.now ≡ self.now.director }
    {
        self.director.machine()
    }

    /// Returns the number of plans of the document.
    pub fn plan_count(&self) -> usize
        ensures { result ≡ length self.now.waiting.items }
    {
        self.waiting.len()
    }

    /// Returns the places of the plans that have begun, by their numbers.
    pub fn places(&self) -> &[u32]
        ensures { result.now ≡ self.now.places.items }
    {
        self.places.as_slice()
    }

    /// Returns the number of the plan at a place of the document, once it has begun.
    pub fn number_of(&self, place: usize) -> Option<u32>
        requires { IsSetUp self.now }
        ensures { result ≡ start_number self.now.places.items place }
    {
        start_number(self.places.as_slice(), place)
    }

    /// Returns a stream of the document by its plan's number in place of the plan's place there, if it has begun.
    fn named_stream(&self, stream: StreamId) -> Option<StreamId>
        requires { IsSetUp self.now }
        ensures { result ≡ named_stream (scene_of self.now) stream }
    {
        let plan = self.number_of(stream.plan as usize)?;
        let id = StreamId { plan, ..stream };
        if self.machine().is_begun(id) {
            Some(id)
        } else {
            None
        }
    }

    /// Returns an event of the document with its stream as it has begun. None if that has not begun, and for a start.
    fn event_named(&self, event: Event) -> Option<Event>
        requires { IsSetUp self.now }
        ensures { result ≡ event_named (scene_of self.now) event }
    {
        match event {
            Event::Step { stream } => {
                let stream = self.named_stream(stream)?;
                Some(Event::Step { stream })
            }
            Event::Lose { stream, after } => {
                let stream = self.named_stream(stream)?;
                Some(Event::Lose { stream, after })
            }
            Event::Refill { stream, more } => {
                let stream = self.named_stream(stream)?;
                Some(Event::Refill { stream, more })
            }
            Event::Begin { .. } => None,
            _ => Some(event),
        }
    }

    /// Plays an event that is no start.
    fn play_named(&mut self, event: Event) -> Played
        requires ready { IsSetUp self.old }
        requires known { NamesKnown (state_of self.old.director).sizes event }
        requires other { IsNoBegin event }
        ensures { IsEventPlayed self.old event result self.new }
    {
        match self.event_named(event) {
            Some(event) => self.director.play(event),
            None => Played::Unknown,
        }
    }

    fn begin(&mut self, alloc: Global, place: u32) -> Result<Played, AllocError>
        requires { IsSetUp self.old }
        ensures { IfOk result (λ answer. IsEventPlayed self.old (Begin place) answer self.new) }
    {
        let at = place as usize;
        if at >= self.waiting.len() {
            return Ok(Played::Unknown);
        }
        self.places.reserve(1)?;
        let Some(checked) = self.waiting[at].take() else {
            return Ok(Played::Unknown);
        };
        let ready = match make_ready(alloc, checked) {
            Ok(ready) => ready,
            Err(_) => return Err(AllocError),
        };
        match self.director.start(ready) {
            Ok(number) => {
                self.places.push_reserved(place);
                Ok(Played::Begun { number })
            }
            Err((ready, why)) => {
                put_back(&mut self.waiting, at, ready.back());
                Ok(Played::NotBegun(why))
            }
        }
    }

    /// Plays an event.
    pub fn play(&mut self, alloc: Global, event: Event) -> Result<Played, AllocError>
        requires ready { IsSetUp self.old }
        requires known { NamesKnown (state_of self.old.director).sizes event }
        ensures { IfOk result (λ answer. IsEventPlayed self.old event answer self.new) }
    {
        match event {
            Event::Begin { plan } => self.begin(alloc, plan),
            _ => Ok(self.play_named(event)),
        }
    }

    /// Ends the machine with all rights, and answers its placement as it stands.
    pub fn close(self) -> Placement
        ensures place { place_of result ≡ (scene_of self).state.place }
        ensures setup { result.setup ≡ self.director.placement.setup }
    {
        let Player {
            director,
            waiting: _,
            places: _,
        } = self;
        director.give_up()
    }
}
