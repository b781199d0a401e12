//! Callers, who ask at a board.
ghost use Rattle.std.specs.Prelude.{◌≡◌, ◌<◌, ◌∷◌, length};
ghost use Rattle.sm_map.specs.Entry.{IsInRange};
ghost use Rattle.sm_map.specs.History.{AllSameOrOlder};
ghost use Rattle.sm_executor.specs.Looking.{KnowsSameOrOlder};
ghost use Rattle.sm_executor.specs.Views.{calling};

use crate::names::Naming;
use sm_map::{Entry, Pass, Words};
use sm_server::ShardId;
use std::marker::{Model, PhantomData};
use std::sync::ledger::{Ledger, Share};
use thiserror::Error;

/// A board has given out 4,096 callers, and gives out no more.
#[derive(Clone, Copy, Debug, PartialEq, Eq, Error)]
#[error("a board gives out 4096 callers at most")]
pub struct TooManyCallers;

/// A pass of the map, and shares of the requests that were executed and of those that were refused. It can be neither
/// copied nor dropped.
///
/// A contract sees which entry of each shard it knows, what it has seen of the map, the last first, and both counts. It
/// knows the entries that the map had when it was given out, or when it last looked behind the lock.
pub struct Caller<B: Ledger, C: Ledger, N: Naming> {
    pub(crate) pass: Pass,
    pub(crate) executed: Share<B>,
    pub(crate) refused: Share<C>,
    pub(crate) of: PhantomData<N>,
}

impl<B: Ledger, C: Ledger, N: Naming> Model for Caller<B, C, N> {
    ghost use Rattle.std.specs.Prelude.{◌≡◌};
    ghost use Rattle.sm_executor.specs.Looking.{known_of};
    ghost use Rattle.sm_executor.specs.Views.{CallerModel, calling};

    ghost Value = { CallerModel };

    ghost view = { λ c. calling (known_of c.pass.words.opening c.pass.since) c.pass.seen c.executed.amount c.refused.amount };

    ghost invariant = { λ c. (c.pass.words ≡ N.words) × (c.executed.parts ≡ 1) × (c.refused.parts ≡ 1) };
}

impl<B: Ledger, C: Ledger, N: Naming> Caller<B, C, N> {
    /// Returns the map's entry of a shard, by one load of its word.
    pub(crate) fn look(&mut self, words: &Words, shard: ShardId) -> Entry
        requires words { words.now ≡ N.words }
        requires shard { shard < length N.words.opening }
        ensures seen { self.new ≡ calling self.old.known
            ((shard, result) ∷ self.old.seen) self.old.executed self.old.refused }
        ensures not_older { AllSameOrOlder self.old.seen shard result }
        ensures not_before { KnowsSameOrOlder self.old shard result }
        ensures in_range { IsInRange N.words.servers result }
    {
        words.look(&mut self.pass, shard)
    }

    /// Gives its shares up.
    pub(crate) fn spend(self) {
        let Caller {
            pass: _,
            executed: _,
            refused: _,
            of: _,
        } = self;
    }
}
