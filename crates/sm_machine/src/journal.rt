//! The log of a machine, with what lets a ticket be judged in a time that does not grow with the log.
ghost use Rattle.std.specs.Prelude.{◌≡◌, ◌<◌, ◌++◌, ◌∷◌, [], None, IfOk, length, slice_index_or};
ghost use Rattle.sm_protocol.specs.Ticket.{passes, pass_of, pass_of_event, same_ticket, is_open_ticket};
ghost use Rattle.sm_machine.specs.Journal.{AreRaised};

use sm_protocol::{Event, Logged, Played};
use sm_server::{ServerId, ShardId};
use std::alloc::{AllocError, Global};
use std::marker::Model;

/// A request that a server passed on, as the log records it.
#[derive(Clone, Copy)]
pub(crate) struct TicketParts {
    /// The log's place of the pass.
    pub place: u32,
    pub shard: ShardId,
    /// The server that passed the request on.
    pub sender: ServerId,
    /// The server that it was passed to.
    pub target: ServerId,
    /// The number of their handover.
    pub number: u64,
}

impl Model for TicketParts {
    ghost use Rattle.sm_protocol.specs.Ticket.{Ticket};

    ghost Value = { Ticket };

    ghost view = { λ t. record { place = t.place; shard = t.shard; sender = t.sender; target = t.target; number = t.number } };

    ghost inverse = { λ t. record { place = t.place; shard = t.shard; sender = t.sender; target = t.target; number = t.number } };
}

impl TicketParts {
    /// Tells whether two tickets agree in all parts.
    fn is_same(&self, other: &TicketParts) -> bool
        ensures { result ≡ same_ticket self.now other.now }
    {
        self.place == other.place
            && (self.shard == other.shard
                && (self.sender == other.sender
                    && (self.target == other.target && self.number == other.number)))
    }

    /// Returns the request, passed on once more by the server that it was passed to.
    fn passed_on(&self, to: ServerId, number: u64, place: u32) -> TicketParts
        ensures { result ≡ record {
          place = place;
          shard = self.now.shard;
          sender = self.now.target;
          target = to;
          number = number;
        } }
    {
        TicketParts {
            place,
            shard: self.shard,
            sender: self.target,
            target: to,
            number,
        }
    }
}

/// Returns the pass of an event that was answered so, if the passes before it are these.
fn pass_by(
    earlier: &[Option<TicketParts>],
    event: &Event,
    to: ServerId,
    number: u64,
    place: u32,
) -> Option<TicketParts>
    ensures { result ≡ pass_of_event earlier.now to number place event.now }
{
    match event {
        Event::Arrive { shard, server } => Some(TicketParts {
            place,
            shard: *shard,
            sender: *server,
            target: to,
            number,
        }),
        Event::PassOn { place: sent } => match earlier.get(*sent as usize) {
            Some(Some(pass)) => Some(pass.passed_on(to, number, place)),
            _ => None,
        },
        _ => None,
    }
}

/// Returns the pass that an event makes by its answer.
fn pass_of(earlier: &[Option<TicketParts>], answer: &Played, event: &Event) -> Option<TicketParts>
    ensures { result ≡ pass_of earlier.now answer.now event.now }
{
    match answer {
        Played::Passed { to, number, place } => pass_by(earlier, event, *to, *number, *place),
        _ => None,
    }
}

/// Notes where an event passes on a request of an earlier place.
fn note_pass_on(passed_on: &mut [bool], event: &Event)
    ensures { AreRaised event.now passed_on.old passed_on.new }
{
    if let Event::PassOn { place } = event
        && (*place as usize) < passed_on.len()
    {
        passed_on[*place as usize] = true;
    }
}

/// The recorded events, with room for all that can be recorded.
pub(crate) struct Journal {
    log: Vec<Logged>,
    /// For each recorded event the pass that it made, if it made one.
    passes: Vec<Option<TicketParts>>,
    /// For each place of the log whether the request of its pass was passed on.
    passed_on: Vec<bool>,
    /// The number of places.
    room: u32,
}

impl Drop for Journal {
    fn drop(self) {
        let Journal {
            log,
            passes,
            passed_on,
            room: _,
        } = self;
        drop(log);
        drop(passes);
        drop(passed_on);
    }
}

impl Model for Journal {
    ghost use Rattle.std.specs.Prelude.{◌≤◌, vec_capacity};
    ghost use Rattle.sm_machine.specs.Journal.{JournalModel, IsIndexed};

    ghost Value = { JournalModel };

    ghost view = { λ j. record { log = j.log.items; room = j.room } };

    ghost invariant = { λ j. record { indexed : IsIndexed j.log.items j.room j.passes.items j.passed_on.items; log_room : j.room ≤ vec_capacity j.log; pass_room : j.room ≤ vec_capacity j.passes } };
}

impl Journal {
    ghost use Rattle.std.specs.Prelude.{◌≤◌, IsTrue};

    /// Opens an empty log with this many places.
    pub fn open(alloc: Global, room: u32) -> Result<Journal, AllocError>
        ensures { IfOk result (λ journal. journal ≡ record { log = []; room = room }) }
    {
        Ok(Journal {
            log: Vec::with_capacity(alloc, room as usize)?,
            passes: Vec::with_capacity(alloc, room as usize)?,
            passed_on: vec![in alloc; false; room as usize]?,
            room,
        })
    }

    /// Returns the number of recorded events, which is no greater than that of the places.
    pub fn len(&self) -> usize
        ensures count { result ≡ length self.now.log }
        ensures within { length self.now.log ≤ self.now.room }
    {
        self.log.len()
    }

    /// Returns the place of the next event.
    pub fn next_place(&self) -> u32
        ensures { result ≡ length self.now.log }
    {
        let _room = self.room();
        self.len() as u32
    }

    /// Returns the number of places.
    pub fn room(&self) -> u32
        ensures { result ≡ self.now.room }
    {
        self.room
    }

    /// Returns the recorded events, the oldest first.
    pub fn log(&self) -> &[Logged]
        ensures { result.now ≡ self.now.log }
    {
        self.log.as_slice()
    }

    /// Returns the pass that is recorded at a place of the log.
    pub fn pass_at(&self, place: u32) -> Option<TicketParts>
        ensures { result ≡ slice_index_or (passes self.now.log) place None }
    {
        self.passes.get(place as usize).copied().flatten()
    }

    /// Tells whether the log has just this pass, and its request was not passed on yet.
    pub fn is_open(&self, ticket: &TicketParts) -> bool
        ensures open { result ≡ is_open_ticket self.now.log ticket.now }
        ensures earlier { IsTrue result → ticket.now.place < length self.now.log }
    {
        match self.pass_at(ticket.place) {
            Some(pass) => pass.is_same(ticket) && !self.passed_on[ticket.place as usize],
            None => false,
        }
    }

    /// Records an event with its answer. Takes no memory.
    pub fn record(&mut self, event: Event, answer: Played)
        requires { length self.old.log < self.old.room }
        ensures { self.new ≡ record self.old { log = self.old.log ++ record { event = event; answer = answer } ∷ [] } }
    {
        let pass = pass_of(&self.passes, &answer, &event);
        let flags = self.passed_on.as_mut_slice();
        note_pass_on(flags, &event);
        self.passes.push_reserved(pass);
        self.log.push_reserved(Logged { event, answer });
    }
}
