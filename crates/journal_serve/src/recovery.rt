//! A journal that a crash may have left, made ready.
ghost use Rattle.std.specs.Prelude.{◌≡◌, ◌≤◌, ◌<◌, ◌^◌, ℕ, List, [], length, take, Err, IfOk, OnOk};
ghost use Rattle.journal_lines.specs.Lines.{head};
ghost use Rattle.journal_lines.specs.Journal.{journal_of, HasBatches, RecoversTo, IsForeign, IsDamaged};
ghost use Rattle.journal_lines.specs.Reading.{Reads};
ghost use Rattle.journal_store.specs.Store.{written_now, IsSynced};
ghost use Rattle.journal_serve.specs.Journal.{IsOnDisk};
ghost use Rattle.journal_serve.specs.Faults.{IsTooLong};
ghost use Rattle.journal_serve.specs.Pieces.{IsOneLine};
ghost use Rattle.journal_serve.specs.Trace.{ReplaysCommands};
ghost use Rattle.journal_serve.specs.Session.{commands_of};
ghost use Rattle.journal_serve.specs.Recovery.{KeepsJournal, IsUnfit, StartsAs, ComesNext, IsFront, WasRead};
ghost use Rattle.journal_serve.specs.Recovery.{HasReplayed};

use crate::applies::Applies;
use crate::fault::RecoverFault;
use crate::journal::Journal;
use crate::pending::Pending;
use crate::replay::replay_piece;
use journal_lines::{Reading, Sum, journal_head};
use journal_store::{Store, StoreFailure, StoreFault};
use std::alloc::Global;
use std::io::{self, ErrorKind};

/// The number of bytes that one read asks for.
const PIECE: usize = 1 << 16;

/// The most bytes of a journal that is read.
const LONGEST_JOURNAL: u64 = 1 << 62;

/// The beginning of a store.
#[derive(Clone, Copy, Debug, PartialEq, Eq)]
enum Beginning {
    Head,
    Other,
    /// No more than a crash may have left of a head.
    NotBegun,
}

/// The failure of a journal that is too long to be read.
fn too_long() -> StoreFailure
    ensures { IsTooLong result }
{
    StoreFailure::Read {
        cause: io::Error::from(ErrorKind::FileTooLarge),
    }
}

/// Reads from a place on. It finds nothing only at the end or behind it.
fn read_at<S: Store>(alloc: Global, store: &mut S, at: u64) -> Result<Vec<u8>, StoreFault>
    ensures next { S.keeps_word store.old → IfOk result
        (λ bytes. ComesNext (written_now S.moment S.written_at store.old) at bytes.items) }
    ensures short { IfOk result (λ bytes. length bytes.items ≤ 65536) }
    ensures read { S.keeps_word store.old → WasRead S.moment S.written_at S.left_at store.old store.new }
    ensures word { S.keeps_word store.old → OnOk result (S.keeps_word store.new) }
{
    let mut piece = vec![in alloc; 0u8; PIECE]?;
    let count = store.read(at, &mut piece)?;
    piece.truncate(count);
    Ok(piece)
}

/// Reads the front of a store: all of it, or more than `most` bytes.
fn read_front<S: Store>(alloc: Global, store: &mut S, most: usize) -> Result<Vec<u8>, StoreFault>
    ensures front { S.keeps_word store.old → IfOk result
        (λ text. IsFront (written_now S.moment S.written_at store.old) most text.items) }
    ensures read { S.keeps_word store.old → WasRead S.moment S.written_at S.left_at store.old store.new }
    ensures word { S.keeps_word store.old → OnOk result (S.keeps_word store.new) }
{
    let mut text = Vec::new(alloc);
    for _ in 0..u64::MAX {
        let piece = read_at(alloc, store, text.len() as u64)?;
        let bytes = piece.as_slice();
        if bytes.is_empty() {
            return Ok(text);
        }
        text.extend_from_slice(bytes)?;
        if text.len() > most {
            return Ok(text);
        }
    }
    Err(StoreFault::Failed(too_long()))
}

/// Reads the beginning of a store.
fn read_head<S: Store>(alloc: Global, store: &mut S) -> Result<Beginning, StoreFault>
    ensures begins { S.keeps_word store.old → IfOk result (StartsAs (written_now S.moment S.written_at store.old)) }
    ensures read { S.keeps_word store.old → WasRead S.moment S.written_at S.left_at store.old store.new }
    ensures word { S.keeps_word store.old → OnOk result (S.keeps_word store.new) }
{
    let head = journal_head();
    let front = read_front(alloc, store, head.len())?;
    let text = front.as_slice();
    if text.starts_with(head) {
        return Ok(Beginning::Head);
    }
    if text.len() > head.len() {
        return Ok(Beginning::Other);
    }
    Ok(Beginning::NotBegun)
}

/// Begins a journal in a store that has no more than what a crash left of a head.
fn begin<S: Store>(store: &mut S) -> Result<(), StoreFault>
    ensures keeps { S.keeps_word store.old → IsSynced S.moment S.written_at S.left_at store.old
        → length (written_now S.moment S.written_at store.old) ≤ length head
        → KeepsJournal S.moment S.written_at S.left_at store.old store.new }
    ensures begun { S.keeps_word store.old → OnOk result
        ((written_now S.moment S.written_at store.new ≡ head)
        × IsSynced S.moment S.written_at S.left_at store.new) }
    ensures word { S.keeps_word store.old → OnOk result (S.keeps_word store.new) }
{
    store.cut(0)?;
    store.sync()?;
    store.append(journal_head())?;
    store.sync()
}

/// Cuts what stands behind the lines of a journal.
fn cut_end<S: Store>(store: &mut S, whole: u64) -> Result<(), StoreFault>
    ensures keeps { S.keeps_word store.old → IsSynced S.moment S.written_at S.left_at store.old
        → (batches : List (List (List ℕ))) → HasBatches (written_now S.moment S.written_at store.old) batches
        → whole ≡ length (journal_of batches)
        → KeepsJournal S.moment S.written_at S.left_at store.old store.new }
    ensures cut { S.keeps_word store.old → OnOk result
        ((written_now S.moment S.written_at store.new ≡ take whole (written_now S.moment S.written_at store.old))
        × IsSynced S.moment S.written_at S.left_at store.new) }
    ensures word { S.keeps_word store.old → OnOk result (S.keeps_word store.new) }
{
    store.cut(whole)?;
    store.sync()
}

/// Reads the lines of a store behind the head, applies their commands, and returns how many bytes the store has.
fn replay<S: Store, A: Applies>(
    alloc: Global,
    store: &mut S,
    reading: &mut Reading,
    state: &mut A,
) -> Result<u64, RecoverFault>
    requires { reading.old.end ≡ 0 }
    ensures within { IfOk result (λ end. (reading.new.end ≤ end) × (end < 2 ^ 62)) }
    ensures read { S.keeps_word store.old → WasRead S.moment S.written_at S.left_at store.old store.new }
    ensures word { S.keeps_word store.old → OnOk result (S.keeps_word store.new) }
    ensures replayed { IfOk result (λ end. (commands : List (List ℕ))
        × ReplaysCommands A.takes commands state.old state.new
        × (S.keeps_word store.old → take (length head) (written_now S.moment S.written_at store.old) ≡ head
        → Reads reading.old [] []
        → (end ≡ length (written_now S.moment S.written_at store.old))
        × (batches : List (List (List ℕ))) × (open_line : List ℕ) × IsOneLine open_line
        × HasReplayed (written_now S.moment S.written_at store.old) end reading.new batches open_line
        × (commands_of batches ≡ commands))) }
    ensures damaged { S.keeps_word store.old
        → take (length head) (written_now S.moment S.written_at store.old) ≡ head → Reads reading.old [] []
        → (number : ℕ) → result ≡ Err (RecoverFault.Damaged number)
        → IsDamaged (written_now S.moment S.written_at store.old) number }
    ensures unfit { S.keeps_word store.old
        → take (length head) (written_now S.moment S.written_at store.old) ≡ head → Reads reading.old [] []
        → (number : ℕ) → result ≡ Err (RecoverFault.Unfit number)
        → IsUnfit A.takes state.old (written_now S.moment S.written_at store.old) number }
    ensures no_other { result ≡ Err RecoverFault.Foreign → ⊥ }
{
    let mut pending = Pending::new(alloc);
    let mut at = journal_head().len() as u64;
    for _ in 0..u64::MAX {
        if at >= LONGEST_JOURNAL {
            return Err(RecoverFault::Failed(too_long()));
        }
        let piece = read_at(alloc, store, at)?;
        let bytes = piece.as_slice();
        if bytes.is_empty() {
            return Ok(at);
        }
        replay_piece(alloc, reading, state, &mut pending, bytes)?;
        at += bytes.len() as u64;
    }
    Err(RecoverFault::Failed(too_long()))
}

#[tactic(auto, unfolding(journal_lines::specs::Lines::head))]
/// Applies the commands of a journal, all of it on the disk, and cuts a torn end.
fn recover_lines<S: Store, A: Applies>(
    alloc: Global,
    journal: &mut Journal<S>,
    state: &mut A,
) -> Result<(), RecoverFault>
    ensures recovered { OnOk result ((commands : List (List ℕ)) × ReplaysCommands A.takes commands state.old state.new
        × (S.keeps_word journal.old.store → IsSynced S.moment S.written_at S.left_at journal.old.store
        → take (length head) (written_now S.moment S.written_at journal.old.store) ≡ head
        → (batches : List (List (List ℕ))) × HasBatches (written_now S.moment S.written_at journal.old.store) batches
        × IsOnDisk S.moment S.written_at S.left_at journal.new batches × (commands_of batches ≡ commands))) }
    ensures keeps { S.keeps_word journal.old.store → IsSynced S.moment S.written_at S.left_at journal.old.store
        → take (length head) (written_now S.moment S.written_at journal.old.store) ≡ head
        → KeepsJournal S.moment S.written_at S.left_at journal.old.store journal.new.store }
    ensures word { S.keeps_word journal.old.store → OnOk result (S.keeps_word journal.new.store) }
    ensures damaged { S.keeps_word journal.old.store
        → take (length head) (written_now S.moment S.written_at journal.old.store) ≡ head
        → (number : ℕ) → result ≡ Err (RecoverFault.Damaged number)
        → IsDamaged (written_now S.moment S.written_at journal.old.store) number }
    ensures unfit { S.keeps_word journal.old.store
        → take (length head) (written_now S.moment S.written_at journal.old.store) ≡ head
        → (number : ℕ) → result ≡ Err (RecoverFault.Unfit number)
        → IsUnfit A.takes state.old (written_now S.moment S.written_at journal.old.store) number }
    ensures no_other { result ≡ Err RecoverFault.Foreign → ⊥ }
{
    let mut reading = Reading::begin();
    let end = replay(alloc, &mut journal.store, &mut reading, state)?;
    journal.sum = reading.sum;
    let whole = journal_head().len() as u64 + reading.end;
    if end <= whole {
        return Ok(());
    }
    cut_end(&mut journal.store, whole)?;
    Ok(())
}

/// Reads a journal, applies its commands, and cuts a torn end. All of it is on the disk before this returns.
pub fn recover<S: Store, A: Applies>(
    alloc: Global,
    journal: &mut Journal<S>,
    state: &mut A,
) -> Result<(), RecoverFault>
    // Whatever the store gives, commands were applied that changed something. If it keeps its word, they are those that
    // it has, and the journal of just these is on the disk.
    ensures recovered { OnOk result ((commands : List (List ℕ)) × ReplaysCommands A.takes commands state.old state.new
        × (S.keeps_word journal.old.store → RecoversTo (written_now S.moment S.written_at journal.old.store) commands
        × (batches : List (List (List ℕ))) × IsOnDisk S.moment S.written_at S.left_at journal.new batches
        × (commands_of batches ≡ commands))) }
    // A crash at any moment of the call leaves what it might have left before, or the same journal: the next recovery
    // finds the same. Damage stays as it is.
    ensures keeps { S.keeps_word journal.old.store
        → KeepsJournal S.moment S.written_at S.left_at journal.old.store journal.new.store }
    ensures word { S.keeps_word journal.old.store → OnOk result (S.keeps_word journal.new.store) }
    ensures damaged { S.keeps_word journal.old.store → (number : ℕ) → result ≡ Err (RecoverFault.Damaged number)
        → IsDamaged (written_now S.moment S.written_at journal.old.store) number }
    ensures unfit { S.keeps_word journal.old.store → (number : ℕ) → result ≡ Err (RecoverFault.Unfit number)
        → IsUnfit A.takes state.old (written_now S.moment S.written_at journal.old.store) number }
    ensures foreign { S.keeps_word journal.old.store → result ≡ Err RecoverFault.Foreign
        → IsForeign (written_now S.moment S.written_at journal.old.store) }
{
    // The bytes that are read may be nowhere but in memory.
    journal.store.sync()?;
    match read_head(alloc, &mut journal.store)? {
        Beginning::Head => recover_lines(alloc, journal, state),
        Beginning::Other => Err(RecoverFault::Foreign),
        Beginning::NotBegun => {
            begin(&mut journal.store)?;
            journal.sum = Sum::none();
            Ok(())
        }
    }
}
