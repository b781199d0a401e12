//! The loop over what comes.
ghost use Rattle.std.specs.Prelude.{◌≡◌, ◌⊎◌, ◌≤◌, ◌<◌, ℕ, List, [], length, take, Err, All, IfOk, IfSome, IfNone};
ghost use Rattle.std.specs.Prelude.{OnOk};
ghost use Rattle.std.specs.Io.KnownBytes.{Appends, Keeps, Consumes, IsAtEnd};
ghost use Rattle.journal_lines.specs.Objects.{IsObject, behind_commas};
ghost use Rattle.journal_lines.specs.Journal.{journal_of};
ghost use Rattle.journal_store.specs.Store.{Passes};
ghost use Rattle.journal_serve.specs.Moments.{RecoversToGrown, grown};
ghost use Rattle.journal_serve.specs.Journal.{IsOnDisk};
ghost use Rattle.journal_serve.specs.Trace.{Exchange};
ghost use Rattle.journal_serve.specs.Session.{commands_of, GrowsWithin, HasServed, IsServed, AreSafe};

use crate::applies::Applies;
use crate::fault::ServeFault;
use crate::journal::Journal;
use crate::pending::Pending;
use crate::turn::Turn;
use crate::writing::write_out;
use journal_store::Store;
use std::alloc::Global;
use std::io::{self, ErrorKind, Read, Write};

/// The number of bytes that one read asks for.
const PIECE: usize = 1 << 16;

/// Clears a piece, and reads into it. Returns the number of bytes, or `None` if the call was interrupted.
fn read_piece<R: Read>(reader: &mut R, piece: &mut Vec<u8>) -> Result<Option<usize>, ServeFault>
    ensures count { IfOk result (λ found. IfSome found (λ count. length piece.new.items ≡ count)) }
    ensures read { IfOk result (λ found. IfSome found
        (λ count. Consumes (R.remaining reader.old) (R.remaining reader.new) piece.new.items)) }
    ensures end { IfOk result (λ found. IfSome found (λ count. count ≡ 0 → IsAtEnd (R.remaining reader.new))) }
    ensures interrupted { IfOk result (λ found. IfNone found
        (Keeps (R.remaining reader.old) (R.remaining reader.new))) }
{
    piece.clear();
    piece.resize(PIECE, 0)?;
    match reader.read(piece) {
        Ok(count) => {
            piece.truncate(count);
            Ok(Some(count))
        }
        Err(cause) => {
            if cause.kind() == ErrorKind::Interrupted {
                Ok(None)
            } else {
                Err(ServeFault::ReadFailed { cause })
            }
        }
    }
}

/// Brings what changed something to the disk, and then writes the replies.
fn end_turn<S: Store, W: Write>(
    alloc: Global,
    journal: &mut Journal<S>,
    turn: &mut Turn,
    writer: &mut W,
) -> Result<(), ServeFault>
    ensures part { GrowsWithin (W.contents writer.old) (W.contents writer.new) turn.old.replies.items }
    ensures whole { OnOk result (Appends (W.contents writer.old) (W.contents writer.new) turn.old.replies.items) }
    ensures changed { OnOk result (turn.new.changed.items ≡ []) }
    ensures replies { OnOk result (turn.new.replies.items ≡ []) }
    ensures time { S.keeps_word journal.old.store → (batches : List (List (List ℕ))) (changed : List (List ℕ))
        → IsOnDisk S.moment S.written_at S.left_at journal.old batches → All IsObject changed
        → turn.old.changed.items ≡ behind_commas changed
        → Passes S.moment S.written_at S.left_at journal.old.store journal.new.store
        (journal_of (grown batches changed)) (RecoversToGrown batches changed) }
    ensures kept { S.keeps_word journal.old.store → (batches : List (List (List ℕ))) (changed : List (List ℕ))
        → IsOnDisk S.moment S.written_at S.left_at journal.old batches → All IsObject changed
        → turn.old.changed.items ≡ behind_commas changed
        → OnOk result (S.keeps_word journal.new.store
        × IsOnDisk S.moment S.written_at S.left_at journal.new (grown batches changed)) }
    // No reply is written before what its line changed is on the disk.
    ensures told { S.keeps_word journal.old.store → (batches : List (List (List ℕ))) (changed : List (List ℕ))
        → IsOnDisk S.moment S.written_at S.left_at journal.old batches → All IsObject changed
        → turn.old.changed.items ≡ behind_commas changed
        → Keeps (W.contents writer.old) (W.contents writer.new)
        ⊎ IsOnDisk S.moment S.written_at S.left_at journal.new (grown batches changed) }
{
    let changed = turn.changed.as_slice();
    let replies = turn.replies.as_slice();
    journal.keep(alloc, changed)?;
    write_out(writer, replies)?;
    turn.clear();
    Ok(())
}

/// Serves each line of the input, to its end. Changes are on the disk before their replies are written.
pub fn serve<S: Store, A: Applies, R: Read, W: Write>(
    alloc: Global,
    journal: &mut Journal<S>,
    state: &mut A,
    reader: &mut R,
    writer: &mut W,
) -> Result<(), ServeFault>
    // It writes the reply to each line in turn. However the call ends, a crash leaves what a line changed if any of its
    // reply was written.
    ensures { (input : List ℕ) × IfSome (R.remaining reader.old) (λ bytes. input ≡ bytes) × (trace : List Exchange)
        × (end : A)
        × HasServed A.takes input (W.contents writer.old) (W.contents writer.new) state.old end trace
        × OnOk result (IsServed input (W.contents writer.old) (W.contents writer.new) trace)
        × ((result ≡ Err ServeFault.NoMemory → ⊥) → state.new ≡ end)
        × ((batches : List (List (List ℕ))) → S.keeps_word journal.old.store
        → IsOnDisk S.moment S.written_at S.left_at journal.old batches
        → (count : ℕ) × AreSafe S.moment S.written_at S.left_at (commands_of batches) trace
        (W.contents writer.old) (W.contents writer.new) journal.old.store journal.new.store count) }
{
    let mut piece = Vec::new(alloc);
    let mut pending = Pending::new(alloc);
    let mut turn = Turn::new(alloc);
    for _ in 0..u64::MAX {
        let Some(count) = read_piece(reader, &mut piece)? else {
            continue;
        };
        if count == 0 {
            turn.take_last(alloc, state, &pending)?;
            return end_turn(alloc, journal, &mut turn, writer);
        }
        let bytes = piece.as_slice();
        turn.take_piece(alloc, state, &mut pending, bytes)?;
        end_turn(alloc, journal, &mut turn, writer)?;
    }
    Err(ServeFault::ReadFailed {
        cause: io::Error::from(ErrorKind::FileTooLarge),
    })
}

/// Serves each line of the input, to its end. The input itself is the journal.
pub fn serve_unkept<A: Applies, R: Read, W: Write>(
    alloc: Global,
    state: &mut A,
    reader: &mut R,
    writer: &mut W,
) -> Result<(), ServeFault>
    ensures { (input : List ℕ) × IfSome (R.remaining reader.old) (λ bytes. input ≡ bytes) × (trace : List Exchange)
        × (end : A)
        × HasServed A.takes input (W.contents writer.old) (W.contents writer.new) state.old end trace
        × OnOk result (IsServed input (W.contents writer.old) (W.contents writer.new) trace)
        × ((result ≡ Err ServeFault.NoMemory → ⊥) → state.new ≡ end) }
{
    let mut piece = Vec::new(alloc);
    let mut pending = Pending::new(alloc);
    let mut turn = Turn::new(alloc);
    for _ in 0..u64::MAX {
        let Some(count) = read_piece(reader, &mut piece)? else {
            continue;
        };
        if count == 0 {
            turn.take_last(alloc, state, &pending)?;
            let told = turn.replies.as_slice();
            return write_out(writer, told);
        }
        let bytes = piece.as_slice();
        turn.take_piece(alloc, state, &mut pending, bytes)?;
        let told = turn.replies.as_slice();
        write_out(writer, told)?;
        turn.clear();
    }
    Err(ServeFault::ReadFailed {
        cause: io::Error::from(ErrorKind::FileTooLarge),
    })
}
