//! The answers of events, as they come.
ghost use Rattle.std.specs.Prelude.{◌≡◌, ◌≤◌, ◌<◌, ◌++◌, ◌∷◌, [], IfOk, length};

use crate::lists::add_left;
use sm_protocol::Played;
use std::alloc::{AllocError, Global};
use std::marker::Model;

/// The answers so far, with room for those to come.
pub(crate) struct Answers {
    list: Vec<Played>,
}

impl Model for Answers {
    ghost use Rattle.std.specs.Prelude.{vec_capacity};
    ghost use Rattle.sm_machine.specs.Hand.{AnswersModel};

    ghost Value = { AnswersModel };

    ghost view = { λ a. record { told = a.list.items; room = vec_capacity a.list } };
}

impl Answers {
    /// Makes a list of no answers, with room for this many.
    pub fn with_room(alloc: Global, count: usize) -> Result<Answers, AllocError>
        ensures none { IfOk result (λ a. a.told ≡ []) }
        ensures room { IfOk result (λ a. count ≤ a.room) }
    {
        let list = Vec::with_capacity(alloc, count)?;
        Ok(Answers { list })
    }

    /// Adds an answer.
    pub fn add(&mut self, answer: Played)
        requires { length self.old.told < self.old.room }
        ensures told { self.new.told ≡ self.old.told ++ answer ∷ [] }
        ensures room { self.new.room ≡ self.old.room }
    {
        add_left(&mut self.list, Some(answer));
    }

    /// Returns all answers.
    pub fn into_list(self) -> Vec<Played>
        ensures { result.items ≡ self.told }
    {
        let Answers { list } = self;
        list
    }
}
