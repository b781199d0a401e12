//! The end of a board.
ghost use Rattle.std.specs.Prelude.{◌≡◌, ◌≤◌, ◌↔◌, IfOk, IfErr, IfSome, IfNone, IsTrue, OnOk, length, vec_capacity};
ghost use Rattle.sm_protocol.specs.Laws.{AreDone};
ghost use Rattle.sm_machine.specs.State.{state_of};
ghost use Rattle.sm_executor.specs.Closed.{room_kept, AreAllBack, HasGiven, IsAccount, IsClosed, IsBoardState};
ghost use Rattle.sm_executor.specs.Closed.{IsNotClosed, StaysOpenFor};
ghost use Rattle.sm_executor.specs.Views.{state_in};
ghost use Rattle.sm_executor.specs.declared.limits.TheConstants.{MOST_UNFINISHED};

use crate::board::Board;
use crate::caller::Caller;
use crate::held::Held;
use crate::names::Naming;
use crate::runner::Ended;
use crate::shares::{both_merged, merged, spend_callers, spend_ended};
use crate::unfinished::list_unfinished;
use sm_machine::Machine;
use sm_map::Words;
use sm_placement::Config;
use sm_protocol::ends_are_reached;
use sm_reservation::StreamId;
use std::marker::Model;
use std::sync::ledger::Ledger;
use thiserror::Error;

/// Why a board is not closed.
#[derive(Debug, Drop, PartialEq, Eq, Error)]
pub enum CloseFault {
    /// A stream has not finished.
    #[error("a stream has not made its end")]
    NotDone {
        /// The streams that have not finished, each with the number of instructions that it has made.
        positions: Vec<(StreamId, u32)>,
    },
    /// The ends or the callers that are handed in are not as many as the runners or callers that the board has given
    /// out.
    #[error("the board has given out more or fewer runners or callers than have come back")]
    BookDiffers,
}

/// A board that is not closed, with the ends and the callers that were handed in, and why. Takes no memory: the list of
/// the fault, if it has one, is in the room that the board has for it.
pub struct NotClosed<A: Ledger, B: Ledger, C: Ledger, N: Naming> {
    back: Back<A, B, C, N>,
    words: Words,
    config: Config,
}

impl<A: Ledger, B: Ledger, C: Ledger, N: Naming> Model for NotClosed<A, B, C, N> {
    ghost use Rattle.std.specs.Prelude.{◌≡◌, ◌≤◌};
    ghost use Rattle.sm_executor.specs.Closed.{NotClosedModel, room_kept};
    ghost use Rattle.sm_executor.specs.Tied.{IsMapOf};
    ghost use Rattle.sm_executor.specs.declared.limits.TheConstants.{MOST_UNFINISHED};

    ghost Value = { NotClosedModel };

    ghost view = { λ n. record { fault = n.back.fault; ended = n.back.ended.items; callers = n.back.callers.items } };

    ghost invariant = { λ n.
        (n.words ≡ N.words) × (n.config ≡ N.setup) × IsMapOf N.words N.opened
        × (MOST_UNFINISHED ≤ room_kept n.back.fault n.back.room) };
}

impl<A: Ledger, B: Ledger, C: Ledger, N: Naming> NotClosed<A, B, C, N> {
    /// Returns why it is not closed.
    pub fn fault(&self) -> &CloseFault
        ensures { result.now ≡ self.now.fault }
    {
        &self.back.fault
    }

    /// Returns the board with the ends and the callers.
    pub fn back(self) -> (Board<A, B, C, N>, Vec<Ended<A>>, Vec<Caller<B, C, N>>)
        ensures ended { result.1.items ≡ self.ended }
        ensures callers { result.2.items ≡ self.callers }
    {
        let NotClosed {
            back,
            words,
            config,
        } = self;
        let Back {
            held,
            ended,
            callers,
            fault,
            room,
        } = back;
        let positions = list_of(fault, room);
        (Board::of(held, words, config, positions), ended, callers)
    }
}

/// What lies behind the lock of a board that is not closed, with all that was handed in, and why it is not.
pub(crate) struct Back<A: Ledger, B: Ledger, C: Ledger, N: Naming> {
    held: Held<A, B, C, N>,
    ended: Vec<Ended<A>>,
    callers: Vec<Caller<B, C, N>>,
    fault: CloseFault,
    /// The board's list of streams that have not finished, unless the fault has it.
    room: Option<Vec<(StreamId, u32)>>,
}

/// Returns the board's list of streams that have not finished, which the fault has, or which is left over.
fn list_of(fault: CloseFault, room: Option<Vec<(StreamId, u32)>>) -> Vec<(StreamId, u32)>
    requires { MOST_UNFINISHED ≤ room_kept fault room }
    ensures { MOST_UNFINISHED ≤ vec_capacity result }
{
    match fault {
        CloseFault::NotDone { positions } => positions,
        CloseFault::BookDiffers => match room {
            Some(positions) => positions,
            None => unreachable!(),
        },
    }
}

impl<A: Ledger, B: Ledger, C: Ledger, N: Naming> Held<A, B, C, N> {
    /// Tells whether these numbers of ends and callers are those of the runners and callers that were given out.
    fn are_all_back(&self, ended: usize, callers: usize) -> bool
        ensures { IsTrue result ↔ AreAllBack self.now ended callers }
    {
        ended as u64 == self.runners && callers as u64 == self.callers
    }

    /// Returns why it is not closed with these numbers of ends and callers, if it isn't, and the list of streams that
    /// have not finished, unless the fault has it. The list must have room for all.
    fn close_fault(
        &self,
        ended: usize,
        callers: usize,
        mut positions: Vec<(StreamId, u32)>,
    ) -> Option<(CloseFault, Option<Vec<(StreamId, u32)>>)>
        requires { MOST_UNFINISHED ≤ vec_capacity positions }
        ensures some { IfSome result (λ why. StaysOpenFor self.now ended callers why.0) }
        ensures room { IfSome result (λ why. MOST_UNFINISHED ≤ room_kept why.0 why.1) }
        ensures none { IfNone result (AreDone (state_in self.now) × AreAllBack self.now ended callers) }
    {
        list_unfinished(&self.machine, &mut positions);
        if !positions.is_empty() {
            Some((CloseFault::NotDone { positions }, None))
        } else if self.are_all_back(ended, callers) {
            None
        } else {
            Some((CloseFault::BookDiffers, Some(positions)))
        }
    }

    /// Returns the machine. The books are the sums of what all ends and callers have counted.
    fn settle(self, ended: Vec<Ended<A>>, callers: Vec<Caller<B, C, N>>) -> Machine
        requires { AreAllBack self (length ended.items) (length callers.items) }
        ensures machine { result ≡ self.machine }
        ensures account { IsAccount N.opened (state_in self) ended.items callers.items }
    {
        let Held {
            machine,
            publisher: _,
            mut steps,
            mut executed,
            mut refused,
            free_steps,
            free_executed,
            free_refused,
            runners: _,
            callers: _,
            of: _,
        } = self;
        let mut all_steps = merged(free_steps, ended);
        let (mut all_executed, mut all_refused) = both_merged(free_executed, free_refused, callers);
        steps.audit(&mut all_steps);
        executed.audit(&mut all_executed);
        refused.audit(&mut all_refused);
        machine
    }

    /// Returns the machine, if all streams have finished, and the numbers of ends and callers that are handed in are
    /// those of the runners and callers. Otherwise all come back: NotDone if a stream has not finished, and otherwise
    /// BookDiffers. The list for the streams that have not finished must have room for all.
    pub fn close(
        self,
        ended: Vec<Ended<A>>,
        callers: Vec<Caller<B, C, N>>,
        positions: Vec<(StreamId, u32)>,
    ) -> Result<Machine, Back<A, B, C, N>>
        requires { MOST_UNFINISHED ≤ vec_capacity positions }
        ensures machine { IfOk result (λ machine. machine ≡ self.machine) }
        ensures done { OnOk result (AreDone (state_in self)) }
        ensures counts { OnOk result (AreAllBack self (length ended.items) (length callers.items)) }
        ensures account { OnOk result (IsAccount N.opened (state_in self) ended.items callers.items) }
        ensures why { IfErr result (λ back. StaysOpenFor self (length ended.items) (length callers.items) back.fault) }
        ensures room { IfErr result (λ back. MOST_UNFINISHED ≤ room_kept back.fault back.room) }
        ensures back { IfErr result (λ back. (back.held ≡ self) × (back.ended ≡ ended) × (back.callers ≡ callers)) }
        ensures given { HasGiven self }
    {
        if let Some((fault, room)) = self.close_fault(ended.len(), callers.len(), positions) {
            return Err(Back {
                held: self,
                ended,
                callers,
                fault,
                room,
            });
        }
        Ok(self.settle(ended, callers))
    }
}

impl<A: Ledger, B: Ledger, C: Ledger, N: Naming> Board<A, B, C, N> {
    /// Returns the machine, if all streams have finished, and the numbers of ends and callers that are handed in are
    /// those of the runners and callers that the board has given out. Otherwise the board comes back with all that was
    /// handed in: NotDone if a stream has not finished, and otherwise BookDiffers.
    ///
    /// Takes no memory.
    pub fn close(
        self,
        ended: Vec<Ended<A>>,
        callers: Vec<Caller<B, C, N>>,
    ) -> Result<Machine, NotClosed<A, B, C, N>>
        ensures closed { IfOk result (λ machine. IsClosed N.setup N.opened
            (state_of machine) ended.items callers.items) }
        ensures setup { IfOk result (λ machine. machine.placement.setup ≡ N.setup) }
        ensures back { IfErr result (λ e. (e.ended ≡ ended.items) × (e.callers ≡ callers.items)) }
        ensures why { IfErr result (λ e. IsNotClosed N.setup N.opened (length ended.items)
            (length callers.items) e.fault) }
    {
        let Board {
            held,
            moved: _,
            words,
            config,
            positions,
        } = self;
        let held = held.into_inner();
        held.is_of_board();
        ends_are_reached();
        match held.close(ended, callers, positions) {
            Ok(machine) => Ok(machine),
            Err(back) => Err(NotClosed {
                back,
                words,
                config,
            }),
        }
    }

    /// Returns the machine as it stands, which is at a state of the board, and says nothing of what was counted.
    pub fn give_up(self, ended: Vec<Ended<A>>, callers: Vec<Caller<B, C, N>>) -> Machine
        ensures state { IsBoardState N.setup N.opened (state_of result) }
        ensures setup { result.placement.setup ≡ N.setup }
    {
        spend_ended(ended);
        spend_callers(callers);
        let Board {
            held,
            moved: _,
            words: _,
            config: _,
            positions: _,
        } = self;
        let held = held.into_inner();
        held.is_of_board();
        held.give_up()
    }
}
