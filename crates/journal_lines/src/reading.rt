//! A journal, read line by line.
ghost use Rattle.std.specs.Prelude.{◌≡◌, ◌≤◌, ◌<◌, ◌^◌, ◌+◌, ℕ, List, [], ◌∷◌, ◌++◌, length, false, All, Err, IfOk};
ghost use Rattle.std.specs.Prelude.{IfSome, IfNone};
ghost use Rattle.journal_lines.specs.Lines.{no_sum};

use crate::fault::JournalFault;
use crate::lines::{Sum, is_right, read_line};
use std::alloc::Global;

/// The progress of reading a journal.
#[derive(Clone, Copy, Debug)]
pub struct Reading {
    /// The sum of the last line that goes on.
    pub sum: Sum,
    /// The number of bytes of the lines of entries that go on.
    pub end: u64,
    pub batches: u64,
    /// A line was found that does not go on.
    pub torn: bool,
    ghost few: { batches ≤ end },
}

impl Reading {
    ghost use Rattle.journal_lines.specs.Objects.{IsBatch, listed};
    ghost use Rattle.journal_lines.specs.Lines.{head};
    ghost use Rattle.journal_lines.specs.Journal.{IsDamaged};
    ghost use Rattle.journal_lines.specs.Reading.{Reads};

    /// Begins behind the head.
    pub fn begin() -> Reading
        ensures { Reads result [] [] }
    {
        Reading {
            sum: Sum::none(),
            end: 0,
            batches: 0,
            torn: false,
        }
    }

    /// Reads the next line, without its line feed, and returns its entries if it goes on from the lines before it.
    pub fn take<'a>(
        &mut self,
        alloc: Global,
        line: &'a [u8],
    ) -> Result<Option<&'a [u8]>, JournalFault>
        requires one_line { All (λ b. b ≡ 10 → ⊥) line.now }
        requires room { self.old.end + length line.now < 2 ^ 63 }

        ensures batch { IfOk result (λ found. IfSome found (λ body. (commands : List (List ℕ))
            × IsBatch commands × (body.now ≡ listed commands)
            × ((text : List ℕ) (batches : List (List (List ℕ))) → Reads self.old text batches
            → Reads self.new (text ++ line.now ++ 10 ∷ []) (batches ++ commands ∷ [])))) }
        ensures none { IfOk result (λ found. IfNone found ((text : List ℕ) (batches : List (List (List ℕ)))
            → Reads self.old text batches → Reads self.new (text ++ line.now ++ 10 ∷ []) batches)) }
        ensures damaged { (number : ℕ) → result ≡ Err (JournalFault.Damaged number)
            → (text more : List ℕ) (batches : List (List (List ℕ))) → Reads self.old text batches
            → IsDamaged (head ++ (text ++ line.now ++ 10 ∷ more)) number }
        ensures within { IfOk result (λ found. self.new.end ≤ self.old.end + length line.now + 1) }
    {
        if !self.torn {
            if let Some(entries) = read_line(alloc, &self.sum, line)? {
                self.sum = entries.sum;
                self.end += line.len() as u64 + 1;
                self.batches += 1;
                return Ok(Some(entries.body));
            }
        }
        if is_right(alloc, line)? {
            return Err(JournalFault::Damaged(self.batches + 2));
        }
        self.torn = true;
        Ok(None)
    }
}
