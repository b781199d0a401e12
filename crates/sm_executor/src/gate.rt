//! The course of one thread of a run.
use crate::board::Board;
use crate::names::Naming;
use crate::runner::Runner;
use crate::sure::Sure;
use sm_machine::{Link, Step};
use sm_reservation::StreamId;
use std::sync::ledger::Ledger;
use std::sync::{Condvar, Mutex, Wait};

/// Calls that a run makes round the steps of its threads, outside the board's lock, with the stream and the number of
/// instructions that it had made before the step.
///
/// `before` and `after` come once for each recorded step, and once for a last step that is Halted or Spent. A step that
/// waits for a signal waits between the two. A gate may call the board. It must not keep a guard while it calls what
/// takes the lock, nor wait for a stream that waits for its own.
pub trait Gate {
    /// Comes before a step of the stream.
    fn before<R: Wait>(&self, rt: &R, stream: StreamId, at: usize);

    /// Comes after that step.
    fn after<R: Wait>(&self, rt: &R, stream: StreamId, at: usize);
}

/// A gate that does nothing.
#[derive(Clone, Copy, Debug)]
pub struct Open;

impl Gate for Open {
    fn before<R: Wait>(&self, _rt: &R, _stream: StreamId, _at: usize) {}

    fn after<R: Wait>(&self, _rt: &R, _stream: StreamId, _at: usize) {}
}

/// The word that the threads of a run wait for before their first steps.
#[derive(Clone, Copy, PartialEq, Eq)]
enum Start {
    /// Not all threads have started yet.
    Waits,
    /// All have.
    Goes,
    /// One of them cannot be.
    Stays,
}

/// The place where the threads of a run wait until all have started, with whether one has met a stream that has spent
/// its allowance.
#[derive(Drop)]
pub(crate) struct Starter {
    start: Mutex<Start>,
    changed: Condvar,
    spent: Mutex<bool>,
}

impl Starter {
    /// Makes a starter that has told no thread anything yet, with no stream that has spent its allowance.
    pub fn new() -> Starter {
        Starter {
            start: Mutex::new(Start::Waits),
            changed: Condvar::new(),
            spent: Mutex::new(false),
        }
    }

    /// Tells the threads whether all have started, or one cannot be.
    pub fn tell<R: Wait>(&self, rt: &R, all: bool) {
        *self.start.lock(rt) = if all { Start::Goes } else { Start::Stays };
        self.changed.notify_all();
    }

    /// Waits until all threads have started, or one cannot be. Returns whether all have.
    fn goes<R: Wait>(&self, rt: &R) -> bool {
        let start = self
            .changed
            .wait_while(rt, self.start.lock(rt), |s| { *s == Start::Waits });
        *start == Start::Goes
    }

    /// Notes that a stream has spent its allowance.
    fn note_spent<R: Wait>(&self, rt: &R) {
        *self.spent.lock(rt) = true;
    }

    /// Returns whether a stream had spent its allowance.
    pub fn has_spent(self) -> bool {
        let Starter {
            start: _,
            changed: _,
            spent,
        } = self;
        spent.into_inner()
    }
}

/// Makes a stream's steps, from this position on, until one is neither Moved nor Lost.
fn step_on<A: Ledger, B: Ledger, C: Ledger, N: Naming, L: Link, R: Wait, G: Gate>(
    rt: &R,
    board: &Board<A, B, C, N>,
    gate: &G,
    runner: &mut Runner<A>,
    link: &mut L,
    from: usize,
) -> Step {
    let stream = runner.id();
    let mut at = from;
    for _ in rt.forever() {
        gate.before(rt, stream, at);
        let step = board.step_or_wait(rt, runner, link);
        gate.after(rt, stream, at);
        match step {
            Step::Moved => at = at.wrapping_add(1),
            Step::Lost => {}
            last => return last,
        }
    }
    unreachable!()
}

/// Does the work of a thread of a run: the steps of one stream, once all threads have started. If its last step is
/// Unknown or Spent, it halts the board.
pub(crate) fn drive<A: Ledger, B: Ledger, C: Ledger, N: Naming, L: Link, R: Wait, G: Gate>(
    rt: &R,
    board: &Board<A, B, C, N>,
    starter: &Starter,
    gate: &G,
    runner: &mut Runner<A>,
    link: &mut L,
) {
    if !starter.goes(rt) {
        return;
    }
    let last = match board.position(rt, runner) {
        Some(from) => step_on(rt, board, gate, runner, link, from),
        None => board.step_or_wait(rt, runner, link),
    };
    match last {
        Step::Spent => {
            starter.note_spent(rt);
            board.halt(rt);
        }
        Step::Unknown => board.halt(rt),
        _ => {}
    }
}

/// Does what `drive` does, over the stream's own link, which the thread keeps until its last step. If there is none,
/// nothing is lost.
pub(crate) fn drive_own<A: Ledger, B: Ledger, C: Ledger, N: Naming, L: Link, R: Wait, G: Gate>(
    rt: &R,
    board: &Board<A, B, C, N>,
    starter: &Starter,
    gate: &G,
    runner: &mut Runner<A>,
    link: Option<&Mutex<L>>,
) {
    match link {
        Some(link) => drive(rt, board, starter, gate, runner, &mut *link.lock(rt)),
        None => drive(rt, board, starter, gate, runner, &mut Sure),
    }
}
