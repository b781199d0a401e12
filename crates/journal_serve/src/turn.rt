//! Turns: the lines that one read brought, applied.
ghost use Rattle.std.specs.Prelude.{◌≡◌, ℕ, List, [], ◌∷◌, ◌++◌, OnOk};
ghost use Rattle.journal_serve.specs.Pieces.{IsOneLine};
ghost use Rattle.journal_serve.specs.Trace.{Exchange, lines_in, LeadsThrough};
ghost use Rattle.journal_serve.specs.Turn.{bare, bare_line, kept_line, lines_taken, Took, TookText};

use crate::applies::{Applied, Applies};
use crate::pending::Pending;
use std::alloc::{AllocError, Global};

/// The most bytes that are kept of a line: 64 MiB, and one more that shows that a line is longer.
pub const LONGEST: usize = 67_108_865;

/// A text without the blanks around it.
fn bare(text: &[u8]) -> &[u8]
    ensures { result.now ≡ bare text.now }
{
    text.trim_ascii()
}

/// A line without the blanks around it. One that is too long stays so.
fn bare_line(line: &[u8]) -> &[u8]
    ensures { result.now ≡ bare_line line.now }
{
    if line.len() < LONGEST {
        bare(line)
    } else {
        line
    }
}

/// The commands of one read that changed something, each behind a comma, and the replies to all of its lines.
#[derive(Drop)]
pub struct Turn {
    pub changed: Vec<u8>,
    pub replies: Vec<u8>,
}

impl Turn {
    /// Begins a turn.
    pub fn new(alloc: Global) -> Turn
        ensures changed { result.changed.items ≡ [] }
        ensures replies { result.replies.items ≡ [] }
    {
        Turn {
            changed: Vec::new(alloc),
            replies: Vec::new(alloc),
        }
    }

    /// Begins the next turn.
    pub fn clear(&mut self)
        ensures changed { self.new.changed.items ≡ [] }
        ensures replies { self.new.replies.items ≡ [] }
    {
        self.changed.clear();
        self.replies.clear();
    }

    /// Applies a line, without the blanks around it.
    fn take_line<A: Applies>(
        &mut self,
        alloc: Global,
        state: &mut A,
        line: &[u8],
    ) -> Result<(), AllocError>
        ensures { OnOk result ((one : Exchange) × (one.line ≡ bare_line line.now) × A.takes state.old one state.new
            × Took (one ∷ []) self.old self.new) }
    {
        let line = bare_line(line);
        let applied = state.apply(alloc, line, &mut self.replies)?;
        self.replies.push(b'\n')?;
        match applied {
            Applied::Unchanged => Ok(()),
            Applied::Changed => {
                self.changed.push(b',')?;
                self.changed.extend_from_slice(line)?;
                Ok(())
            }
        }
    }

    /// Applies each line that ends in a piece.
    pub fn take_piece<A: Applies>(
        &mut self,
        alloc: Global,
        state: &mut A,
        pending: &mut Pending,
        piece: &[u8],
    ) -> Result<(), AllocError>
        ensures { (raw : List ℕ) → IsOneLine raw → pending.old.text.items ≡ kept_line raw
            → OnOk result ((lines : List (List ℕ)) × (open_line : List ℕ) × (trace : List Exchange)
            × TookText A.takes (raw ++ piece.now) lines open_line trace pending.new state.old state.new
            self.old self.new) }
    {
        let mut rest = piece;
        while let Some(used) = pending.take(rest, LONGEST)? {
            self.take_line(alloc, state, &pending.text)?;
            pending.clear();
            rest = &rest[used..];
        }
        Ok(())
    }

    /// Applies the last line, if no line feed ends it.
    pub fn take_last<A: Applies>(
        &mut self,
        alloc: Global,
        state: &mut A,
        pending: &Pending,
    ) -> Result<(), AllocError>
        ensures { (raw : List ℕ) → IsOneLine raw → pending.now.text.items ≡ kept_line raw
            → OnOk result ((trace : List Exchange) × (lines_in trace ≡ lines_taken raw)
            × LeadsThrough A.takes state.old trace state.new
            × Took trace self.old self.new) }
    {
        let text = pending.text.as_slice();
        if text.is_empty() {
            return Ok(());
        }
        self.take_line(alloc, state, text)?;
        Ok(())
    }
}
