//! The shares of what ends with a board, put together.
ghost use Rattle.std.specs.Prelude.{◌≡◌, ◌≤◌, ◌<◌, ◌+◌, length, map, sum, vec_len, vec_capacity, []};
ghost use Rattle.sm_executor.specs.Views.{running};

use crate::caller::Caller;
use crate::names::Naming;
use crate::runner::{Ended, Runner};
use sm_machine::StreamToken;
use std::sync::ledger::{Ledger, Share};

/// Puts runners for tokens, each with a part of what is left, into a list with room for them. Takes no memory.
pub(crate) fn fill_runners<A: Ledger>(
    runners: &mut Vec<Runner<A>>,
    mut tokens: Vec<StreamToken>,
    free: &mut Share<A>,
)
    requires none { runners.old.items ≡ [] }
    requires room { vec_len tokens ≤ vec_capacity runners.old }
    requires parts { length tokens.items ≤ free.old.parts }
    requires amount { free.old.amount ≡ 0 }
    ensures runners { runners.new.items ≡ map (λ token. running token 0) tokens.items }
    ensures parts { free.new.parts + length tokens.items ≡ free.old.parts }
    ensures amount { free.new.amount ≡ 0 }
{
    tokens.reverse();
    while let Some(token) = tokens.pop() {
        let share = free.split_off(1, 0);
        runners.push_reserved(Runner { token, share });
    }
    tokens.destroy_empty();
}

/// Returns the share with those of all ends.
pub(crate) fn merged<A: Ledger>(mut share: Share<A>, mut ended: Vec<Ended<A>>) -> Share<A>
    ensures parts { result.parts ≡ share.parts + length ended.items }
    ensures amount { result.amount ≡ share.amount + sum (map (λ e. e.counted) ended.items) }
{
    while let Some(end) = ended.pop() {
        let Ended {
            stream: _,
            steps: _,
            calls: _,
            budget: _,
            share: part,
        } = end;
        share.merge(part);
    }
    ended.destroy_empty();
    share
}

/// Returns the shares with those of all callers.
pub(crate) fn both_merged<B: Ledger, C: Ledger, N: Naming>(
    mut executed: Share<B>,
    mut refused: Share<C>,
    mut callers: Vec<Caller<B, C, N>>,
) -> (Share<B>, Share<C>)
    ensures executed { (result.0.parts ≡ executed.parts + length callers.items)
        × (result.0.amount ≡ executed.amount + sum (map (λ c. c.executed) callers.items)) }
    ensures refused { (result.1.parts ≡ refused.parts + length callers.items)
        × (result.1.amount ≡ refused.amount + sum (map (λ c. c.refused) callers.items)) }
{
    while let Some(caller) = callers.pop() {
        let Caller {
            pass: _,
            executed: part,
            refused: other,
            of: _,
        } = caller;
        executed.merge(part);
        refused.merge(other);
    }
    callers.destroy_empty();
    (executed, refused)
}

/// Ends are given up.
pub(crate) fn spend_ended<A: Ledger>(mut ended: Vec<Ended<A>>) {
    while let Some(end) = ended.pop() {
        end.spend();
    }
    ended.destroy_empty();
}

/// Gives callers up.
pub(crate) fn spend_callers<B: Ledger, C: Ledger, N: Naming>(mut callers: Vec<Caller<B, C, N>>) {
    while let Some(caller) = callers.pop() {
        caller.spend();
    }
    callers.destroy_empty();
}
