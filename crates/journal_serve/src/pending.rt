//! A line that comes in pieces.
ghost use Rattle.std.specs.Prelude.{◌≡◌, ◌≤◌, ◌+◌, ℕ, List, [], ◌++◌, length, take, IfOk, IfSome, IfNone, OnOk};
ghost use Rattle.journal_serve.specs.Pieces.{IsOneLine, EndsLine};

use memchr::memchr;
use std::alloc::{AllocError, Global};

/// The beginning of a line, as far as it has come.
#[derive(Drop)]
pub struct Pending {
    pub text: Vec<u8>,
    ghost one_line: { IsOneLine text.items },
}

impl Pending {
    /// Begins a line.
    pub fn new(alloc: Global) -> Pending
        ensures { result.text.items ≡ [] }
    {
        Pending {
            text: Vec::new(alloc),
        }
    }

    /// Begins the next line.
    pub fn clear(&mut self)
        ensures { self.new.text.items ≡ [] }
    {
        self.text.clear();
    }

    /// Takes more of the line, up to `most` bytes of it.
    fn extend(&mut self, part: &[u8], most: usize) -> Result<(), AllocError>
        requires { IsOneLine part.now }
        ensures taken { (raw : List ℕ) → self.old.text.items ≡ take most raw
            → OnOk result (self.new.text.items ≡ take most (raw ++ part.now)) }
        ensures size { OnOk result (length self.new.text.items ≤ length self.old.text.items + length part.now) }
    {
        let room = most.saturating_sub(self.text.len()).min(part.len());
        self.text.extend_from_slice(&part[..room])?;
        Ok(())
    }

    /// Takes what a piece has of the line, and keeps at most `most` bytes of the line. Returns the number of bytes of
    /// the piece that were used, with the line feed, or `None` if the line goes on behind the piece.
    pub fn take(&mut self, piece: &[u8], most: usize) -> Result<Option<usize>, AllocError>
        ensures ended { IfOk result (λ found. IfSome found (λ used. (part : List ℕ) × EndsLine piece.now part used
            × ((raw : List ℕ) → self.old.text.items ≡ take most raw → self.new.text.items ≡ take most (raw ++ part))
            × (length self.new.text.items + 1 ≤ length self.old.text.items + used))) }
        ensures unended { IfOk result (λ found. IfNone found (IsOneLine piece.now
            × ((raw : List ℕ) → self.old.text.items ≡ take most raw
            → self.new.text.items ≡ take most (raw ++ piece.now))
            × (length self.new.text.items ≤ length self.old.text.items + length piece.now))) }
    {
        match memchr(b'\n', piece) {
            Some(end) => {
                self.extend(&piece[..end], most)?;
                Ok(Some(end + 1))
            }
            None => {
                self.extend(piece, most)?;
                Ok(None)
            }
        }
    }
}
