//! The trait of what applies the lines of a session.
ghost use Rattle.std.specs.Prelude.{◌≡◌, ℕ, List, ◌++◌, IfOk};
ghost use Rattle.journal_lines.specs.Objects.{IsObject};
ghost use Rattle.journal_serve.specs.declared.applies.Applied.TheVariants.{Changed};
ghost use Rattle.journal_serve.specs.Trace.{Exchange, exchange};

use std::alloc::{AllocError, Global};

/// Tells whether a line changed something.
#[derive(Clone, Copy, Debug, Drop, PartialEq, Eq)]
pub enum Applied {
    Changed,
    Unchanged,
}

/// A state that lines are applied to.
pub trait Applies {
    /// A line with this effect and this reply may lead from one state to another.
    ghost takes: { Self → Exchange → Self → Type 0 };

    /// Applies a line, and writes the reply to it behind what is there.
    fn apply(
        &mut self,
        alloc: Global,
        line: &[u8],
        reply: &mut Vec<u8>,
    ) -> Result<Applied, AllocError>
        ensures takes { IfOk result (λ applied. (text : List ℕ) × (reply.new.items ≡ reply.old.items ++ text)
            × takes self.old (exchange line.now applied text) self.new) }
        // A line that changed something is one object: a journal can take it as an entry.
        ensures object { IfOk result (λ applied. applied ≡ Changed → IsObject line.now) };

    /// Applies an entry of a journal again: it does what `apply` does, and writes no reply.
    fn replay(&mut self, alloc: Global, entry: &[u8]) -> Result<Applied, AllocError>
        requires { IsObject entry.now }
        ensures { IfOk result (λ applied. (reply : List ℕ)
            × takes self.old (exchange entry.now applied reply) self.new) }
    {
        let mut reply = Vec::new(alloc);
        self.apply(alloc, entry, &mut reply)
    }
}
