//! The right to make the steps of a stream on a board, and what is left of it when the stream has finished.
ghost use Rattle.std.specs.Prelude.{◌≡◌, ◌≤◌, ◌+◌, ◌++◌, vec_len, vec_capacity};
ghost use Rattle.sm_executor.specs.Views.{streams_run};

use sm_machine::StreamToken;
use sm_reservation::StreamId;
use std::marker::Model;
use std::sync::ledger::{Ledger, Share};

/// A stream's token, and its share of the steps. It can be neither copied nor dropped.
///
/// A contract sees which stream it is, and how many of its steps were recorded.
pub struct Runner<A: Ledger> {
    pub(crate) token: StreamToken,
    pub(crate) share: Share<A>,
}

impl<A: Ledger> Model for Runner<A> {
    ghost use Rattle.std.specs.Prelude.{◌≡◌};
    ghost use Rattle.sm_executor.specs.Views.{RunnerModel, running};

    ghost Value = { RunnerModel };

    ghost view = { λ r. running r.token r.share.amount };

    ghost invariant = { λ r. r.share.parts ≡ 1 };
}

impl<A: Ledger> Runner<A> {
    /// Returns the stream that it is for.
    pub fn id(&self) -> StreamId
        ensures { result ≡ self.now.stream }
    {
        self.token.id()
    }

    /// Gives the share up for good: the board can then be given up, and not closed.
    pub fn into_token(self) -> StreamToken
        ensures { result ≡ self.stream }
    {
        let Runner { token, share: _ } = self;
        token
    }
}

/// Puts the tokens of runners, in their order, behind those of a list with room for all. The shares are given up for
/// good. Takes no memory.
pub fn take_tokens<A: Ledger>(mut runners: Vec<Runner<A>>, tokens: &mut Vec<StreamToken>)
    requires { vec_len tokens.old + vec_len runners ≤ vec_capacity tokens.old }
    ensures items { tokens.new.items ≡ tokens.old.items ++ streams_run runners.items }
    ensures capacity { vec_capacity tokens.new ≡ vec_capacity tokens.old }
{
    runners.reverse();
    while let Some(runner) = runners.pop() {
        tokens.push_reserved(runner.into_token());
    }
    runners.destroy_empty();
}

/// A stream that has finished, with its runner's share of the steps. It can be neither copied nor dropped.
pub struct Ended<A: Ledger> {
    pub(crate) stream: StreamId,
    pub(crate) steps: u64,
    pub(crate) calls: u64,
    pub(crate) budget: u64,
    pub(crate) share: Share<A>,
}

impl<A: Ledger> Model for Ended<A> {
    ghost use Rattle.std.specs.Prelude.{◌≡◌};
    ghost use Rattle.sm_executor.specs.Views.{EndedModel, finished};

    ghost Value = { EndedModel };

    ghost view = { λ e. finished e.stream e.steps e.calls e.budget e.share.amount };

    ghost invariant = { λ e. e.share.parts ≡ 1 };
}

impl<A: Ledger> Ended<A> {
    /// Returns the stream that it was for.
    pub fn stream(&self) -> StreamId
        ensures { result ≡ self.now.stream }
    {
        self.stream
    }

    /// Returns the number of its steps that were recorded: the tries of its calls, its other instructions, and its end.
    pub fn steps(&self) -> u64
        ensures { result ≡ self.now.steps }
    {
        self.steps
    }

    /// Returns the number of tries of calls that it made.
    pub fn calls(&self) -> u64
        ensures { result ≡ self.now.calls }
    {
        self.calls
    }

    /// Returns the number of tries that it was allowed: its budget, its retries and its refills.
    pub fn budget(&self) -> u64
        ensures { result ≡ self.now.budget }
    {
        self.budget
    }

    /// Gives its share up.
    pub(crate) fn spend(self) {
        let Ended {
            stream: _,
            steps: _,
            calls: _,
            budget: _,
            share: _,
        } = self;
    }
}
