//! A command's change is on the disk before its reply is written.
ghost use Rattle.std.specs.Prelude.{◌≡◌, List, ℕ, [], ◌∷◌, ◌++◌, OnOk, All};

use journal_lines::{Sum, write_line};
use journal_store::{Store, StoreFault};
use std::alloc::Global;

/// A journal in its store.
#[derive(Drop)]
pub struct Journal<S: Store> {
    pub store: S,
    /// The sum of the last line.
    pub sum: Sum,
}

impl<S: Store> Journal<S> {
    ghost use Rattle.journal_lines.specs.Objects.{IsBatch, IsObject, behind_commas, listed};
    ghost use Rattle.journal_lines.specs.Journal.{journal_of};
    ghost use Rattle.journal_store.specs.Store.{Passes};
    ghost use Rattle.journal_serve.specs.Moments.{EachLeft, RecoversToOneOf, RecoversToGrown, grown};
    ghost use Rattle.journal_serve.specs.Journal.{IsOnDisk};

    /// Takes a store in which a journal may stand. It has to be recovered before anything is appended.
    pub fn new(store: S) -> Journal<S>
        ensures { result.store ≡ store }
    {
        Journal {
            store,
            sum: Sum::none(),
        }
    }

    /// Appends the commands of one batch, and returns once they are on the disk. After an error nothing more is to be
    /// asked of it.
    pub fn append(&mut self, alloc: Global, body: &[u8]) -> Result<(), StoreFault>
        ensures appended { S.keeps_word self.old.store → (batches : List (List (List ℕ))) (commands : List (List ℕ))
            → IsOnDisk S.moment S.written_at S.left_at self.old batches → IsBatch commands → body.now ≡ listed commands
            → OnOk result (IsOnDisk S.moment S.written_at S.left_at self.new (batches ++ commands ∷ [])) }
        ensures word { S.keeps_word self.old.store → OnOk result (S.keeps_word self.new.store) }
        // A crash at any moment of the call leaves the batches before it, with the new one or without.
        ensures any_moment { S.keeps_word self.old.store → (batches : List (List (List ℕ))) (commands : List (List ℕ))
            → IsOnDisk S.moment S.written_at S.left_at self.old batches → IsBatch commands → body.now ≡ listed commands
            → EachLeft S.moment S.left_at self.old.store self.new.store (RecoversToOneOf batches commands) }
        // The old content stays as it was.
        ensures time { S.keeps_word self.old.store → (batches : List (List (List ℕ))) (commands : List (List ℕ))
            → IsOnDisk S.moment S.written_at S.left_at self.old batches → IsBatch commands → body.now ≡ listed commands
            → Passes S.moment S.written_at S.left_at self.old.store self.new.store
            (journal_of (batches ++ commands ∷ [])) (RecoversToOneOf batches commands) }
    {
        let line = write_line(alloc, &self.sum, body)?;
        let mut text = line.text;
        text.push(b'\n')?;
        self.store.append(text.as_slice())?;
        self.store.sync()?;
        self.sum = line.sum;
        Ok(())
    }

    /// Appends the commands of one turn if there are any. Each has a comma before it.
    pub fn keep(&mut self, alloc: Global, commands: &[u8]) -> Result<(), StoreFault>
        ensures kept { S.keeps_word self.old.store → (batches : List (List (List ℕ))) (changed : List (List ℕ))
            → IsOnDisk S.moment S.written_at S.left_at self.old batches → All IsObject changed
            → commands.now ≡ behind_commas changed
            → OnOk result (IsOnDisk S.moment S.written_at S.left_at self.new (grown batches changed)) }
        ensures word { S.keeps_word self.old.store → OnOk result (S.keeps_word self.new.store) }
        ensures any_moment { S.keeps_word self.old.store → (batches : List (List (List ℕ))) (changed : List (List ℕ))
            → IsOnDisk S.moment S.written_at S.left_at self.old batches → All IsObject changed
            → commands.now ≡ behind_commas changed
            → EachLeft S.moment S.left_at self.old.store self.new.store (RecoversToGrown batches changed) }
        ensures time { S.keeps_word self.old.store → (batches : List (List (List ℕ))) (changed : List (List ℕ))
            → IsOnDisk S.moment S.written_at S.left_at self.old batches → All IsObject changed
            → commands.now ≡ behind_commas changed
            → Passes S.moment S.written_at S.left_at self.old.store self.new.store
            (journal_of (grown batches changed)) (RecoversToGrown batches changed) }
    {
        if commands.is_empty() {
            return Ok(());
        }
        self.append(alloc, &commands[1..])
    }
}
