//! The commands of a journal, applied again.
ghost use Rattle.std.specs.Prelude.{◌≡◌, ◌≤◌, ◌<◌, ◌+◌, ◌^◌, ℕ, List, [], ◌∷◌, ◌++◌, length, All, OnOk, Err};
ghost use Rattle.journal_lines.specs.Objects.{IsBatch, listed};
ghost use Rattle.journal_lines.specs.Lines.{head};
ghost use Rattle.journal_lines.specs.Journal.{IsDamaged};
ghost use Rattle.journal_lines.specs.Reading.{Reads};
ghost use Rattle.journal_serve.specs.Trace.{ReplaysCommands};
ghost use Rattle.journal_serve.specs.Session.{commands_of};
ghost use Rattle.journal_serve.specs.Recovery.{HasUnchanged, IsUnfit};

use crate::applies::{Applied, Applies};
use crate::fault::RecoverFault;
use crate::pending::Pending;
use journal_lines::{JournalFault, Reading, object_length};
use std::alloc::Global;

/// Applies the commands of one batch, which stands on the line of this number.
fn apply_batch<A: Applies>(
    alloc: Global,
    state: &mut A,
    body: &[u8],
    number: u64,
) -> Result<(), RecoverFault>
    ensures applied { OnOk result ((commands : List (List ℕ)) × ReplaysCommands A.takes commands state.old state.new
        × ((those : List (List ℕ)) → IsBatch those → body.now ≡ listed those → commands ≡ those)) }
    ensures undamaged { (other : ℕ) → result ≡ Err (RecoverFault.Damaged other) → ⊥ }
    ensures unfit { (commands : List (List ℕ)) → IsBatch commands → body.now ≡ listed commands
        → (other : ℕ) → result ≡ Err (RecoverFault.Unfit other)
        → (other ≡ number) × HasUnchanged A.takes state.old [] commands }
    ensures no_other { result ≡ Err RecoverFault.Foreign → ⊥ }
{
    let mut rest = body;
    while let Some(length) = object_length(rest) {
        match state.replay(alloc, &rest[..length])? {
            Applied::Changed => {}
            Applied::Unchanged => return Err(RecoverFault::Unfit(number)),
        }
        if length == rest.len() {
            return Ok(());
        }
        rest = &rest[length + 1..];
    }
    Err(RecoverFault::Unfit(number))
}

/// Takes the next line of a journal, and applies its commands.
fn replay_line<A: Applies>(
    alloc: Global,
    reading: &mut Reading,
    state: &mut A,
    line: &[u8],
) -> Result<(), RecoverFault>
    requires one_line { All (λ b. b ≡ 10 → ⊥) line.now }
    requires room { reading.old.end + length line.now < 2 ^ 63 }
    ensures within { OnOk result (reading.new.end ≤ reading.old.end + length line.now + 1) }
    ensures reads { OnOk result ((commands : List (List ℕ)) × ReplaysCommands A.takes commands state.old state.new
        × ((text : List ℕ) (batches : List (List (List ℕ))) → Reads reading.old text batches
        → (next : List (List (List ℕ))) × Reads reading.new (text ++ line.now ++ 10 ∷ []) next
        × (commands_of next ≡ commands_of batches ++ commands))) }
    ensures damaged { (number : ℕ) → result ≡ Err (RecoverFault.Damaged number)
        → (text more : List ℕ) (batches : List (List (List ℕ)))
        → Reads reading.old text batches → IsDamaged (head ++ (text ++ line.now ++ 10 ∷ more)) number }
    ensures unfit { (number : ℕ) → result ≡ Err (RecoverFault.Unfit number)
        → (text more : List ℕ) (batches : List (List (List ℕ)))
        → Reads reading.old text batches → (first : A) → ReplaysCommands A.takes (commands_of batches) first state.old
        → IsUnfit A.takes first (head ++ (text ++ line.now ++ 10 ∷ more)) number }
    ensures no_other { result ≡ Err RecoverFault.Foreign → ⊥ }
{
    match reading.take(alloc, line) {
        Ok(Some(body)) => {
            apply_batch(alloc, state, body, reading.batches + 1)?;
            Ok(())
        }
        Ok(None) => Ok(()),
        Err(JournalFault::NoMemory) => Err(RecoverFault::NoMemory),
        Err(JournalFault::Damaged(number)) => Err(RecoverFault::Damaged(number)),
    }
}

/// Takes each line of a journal that ends in a piece of it.
pub fn replay_piece<A: Applies>(
    alloc: Global,
    reading: &mut Reading,
    state: &mut A,
    pending: &mut Pending,
    piece: &[u8],
) -> Result<(), RecoverFault>
    requires { reading.old.end + length pending.old.text.items + length piece.now < 2 ^ 63 }
    ensures within { OnOk result (reading.new.end + length pending.new.text.items
        ≤ reading.old.end + length pending.old.text.items + length piece.now) }
    ensures reads { OnOk result ((commands : List (List ℕ)) × ReplaysCommands A.takes commands state.old state.new
        × ((text : List ℕ) (batches : List (List (List ℕ))) → Reads reading.old text batches
        → (read : List ℕ) × (next : List (List (List ℕ)))
        × (text ++ (pending.old.text.items ++ piece.now) ≡ read ++ pending.new.text.items)
        × Reads reading.new read next × (commands_of next ≡ commands_of batches ++ commands))) }
    ensures damaged { (number : ℕ) → result ≡ Err (RecoverFault.Damaged number)
        → (text more : List ℕ) (batches : List (List (List ℕ)))
        → Reads reading.old text batches
        → IsDamaged (head ++ (text ++ (pending.old.text.items ++ piece.now ++ more))) number }
    ensures unfit { (number : ℕ) → result ≡ Err (RecoverFault.Unfit number)
        → (text more : List ℕ) (batches : List (List (List ℕ)))
        → Reads reading.old text batches → (first : A) → ReplaysCommands A.takes (commands_of batches) first state.old
        → IsUnfit A.takes first (head ++ (text ++ (pending.old.text.items ++ piece.now ++ more))) number }
    ensures no_other { result ≡ Err RecoverFault.Foreign → ⊥ }
{
    let mut rest = piece;
    while let Some(used) = pending.take(rest, usize::MAX)? {
        replay_line(alloc, reading, state, &pending.text)?;
        pending.clear();
        rest = &rest[used..];
    }
    Ok(())
}
