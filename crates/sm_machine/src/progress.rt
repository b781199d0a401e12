//! The progress of a stream.
ghost use Rattle.std.specs.Prelude.{◌≡◌, ◌<◌, ◌^◌, ◌+◌, ◌-◌, true, false};
ghost use Rattle.sm_protocol.specs.State.{fresh};
ghost use Rattle.sm_protocol.specs.Steps.{tried_more, behind_call};

use std::marker::Model;

/// The progress of a stream.
#[derive(Clone, Copy)]
pub(crate) struct Progress {
    /// The number of instructions that it has made.
    pub at: usize,
    /// The call at this position has had its effect, and was not answered.
    pub ahead: bool,
    /// The number of the call under way, and 0 for none.
    pub pending: u64,
    /// The number of tries of calls that it has made.
    pub tries: u64,
    /// The number of its calls that have had their effect.
    pub effects: u64,
    /// The number of tries that were allowed beside those of its plan.
    pub refills: u32,
    /// It has finished.
    pub done: bool,
}

impl Model for Progress {
    ghost use Rattle.sm_protocol.specs.State.{Progress};

    ghost Value = { Progress };

    ghost view = { λ p. record { at = p.at; ahead = p.ahead; pending = p.pending; tries = p.tries; effects = p.effects; refills = p.refills; done = p.done } };

    ghost inverse = { λ p. record { at = p.at; ahead = p.ahead; pending = p.pending; tries = p.tries; effects = p.effects; refills = p.refills; done = p.done } };
}

impl Progress {
    /// Makes the progress of a stream that has made nothing.
    pub const fn fresh() -> Progress
        ensures { result ≡ fresh }
    {
        Progress {
            at: 0,
            ahead: false,
            pending: 0,
            tries: 0,
            effects: 0,
            refills: 0,
            done: false,
        }
    }

    /// Returns the progress behind an instruction that is no call.
    pub const fn behind(self) -> Progress
        requires { self.at < 2 ^ 64 - 1 }
        ensures { result ≡ record self { at = self.at + 1 } }
    {
        Progress {
            at: self.at + 1,
            ..self
        }
    }

    /// Returns the progress with one more try, whose call has its effect now, or had it before.
    pub const fn tried(self, fresh: bool) -> Progress
        requires tries { self.tries < 2 ^ 64 - 1 }
        requires effects { self.effects < 2 ^ 64 - 1 }
        ensures { result ≡ tried_more self fresh }
    {
        let effects = if fresh {
            self.effects + 1
        } else {
            self.effects
        };
        Progress {
            tries: self.tries + 1,
            effects,
            ..self
        }
    }

    /// Returns the progress behind a call that was answered.
    pub const fn behind_call(self, fresh: bool) -> Progress
        requires at { self.at < 2 ^ 64 - 1 }
        requires tries { self.tries < 2 ^ 64 - 1 }
        requires effects { self.effects < 2 ^ 64 - 1 }
        ensures { result ≡ behind_call self fresh }
    {
        let tried = self.tried(fresh);
        Progress {
            at: tried.at + 1,
            ahead: false,
            pending: 0,
            ..tried
        }
    }

    /// Returns the progress before a call under this number that has had its effect, and was not answered.
    pub const fn ahead_of_call(self, number: u64, fresh: bool) -> Progress
        requires tries { self.tries < 2 ^ 64 - 1 }
        requires effects { self.effects < 2 ^ 64 - 1 }
        ensures { result ≡ record (tried_more self fresh) { ahead = true; pending = number } }
    {
        Progress {
            ahead: true,
            pending: number,
            ..self.tried(fresh)
        }
    }

    /// Returns the progress before a call under this number that was lost on its way to its server.
    pub const fn call_lost(self, number: u64) -> Progress
        requires tries { self.tries < 2 ^ 64 - 1 }
        requires effects { self.effects < 2 ^ 64 - 1 }
        ensures { result ≡ record (tried_more self false) { pending = number } }
    {
        Progress {
            pending: number,
            ..self.tried(false)
        }
    }

    /// Returns the progress at the end.
    pub const fn ended(self) -> Progress
        ensures { result ≡ record self { done = true } }
    {
        Progress { done: true, ..self }
    }

    /// Returns the progress with `more` more tries allowed.
    pub const fn refilled(self, more: u32) -> Progress
        requires { self.refills + more < 2 ^ 32 }
        ensures { result ≡ record self { refills = self.refills + more } }
    {
        Progress {
            refills: self.refills + more,
            ..self
        }
    }
}
