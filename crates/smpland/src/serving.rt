//! Lines that a session serves, whatever reads, writes and keeps them.
ghost use Rattle.std.specs.Prelude.{◌≡◌, ◌⊎◌, ◌≤◌, ℕ, List, [], IfSome, Err, OnOk};
ghost use Rattle.std.specs.Io.KnownBytes.{Keeps};
ghost use Rattle.journal_lines.specs.Journal.{RecoversTo, HasNoForged, IsDamaged};
ghost use Rattle.journal_store.specs.Store.{written_now, MayLeave};
ghost use Rattle.journal_serve.specs.Trace.{Exchange};
ghost use Rattle.journal_serve.specs.Session.{IsServed};
ghost use Rattle.journal_serve.specs.Resume.{HasAtLeast, HasResumed};
ghost use Rattle.smpland.specs.Serving.{ServesAfter};

use crate::keeper::Keeper;
use journal_serve::{Journal, RecoverFault, ResumeFault, ServeFault, resume, serve_unkept};
use journal_store::Store;
use std::alloc::Global;
use std::io::{Read, Write};

/// Serves each line of the input by a new session, to the input's end. The input itself is the journal.
pub fn serve_given<R: Read, W: Write>(
    alloc: Global,
    reader: &mut R,
    writer: &mut W,
) -> Result<(), ServeFault>
    ensures { (input : List ℕ) × IfSome (R.remaining reader.old) (λ bytes. input ≡ bytes) × (trace : List Exchange)
        × ServesAfter [] input (W.contents writer.old) (W.contents writer.new) trace
        × OnOk result (IsServed input (W.contents writer.old) (W.contents writer.new) trace) }
{
    let mut keeper = Keeper::new();
    let served = serve_unkept(alloc, &mut keeper, reader, writer);
    let Keeper { session } = keeper;
    session.close();
    served
}

/// Recovers what a journal leads to by a new session, and serves each line of the input, to its end.
pub fn serve_kept<S: Store, R: Read, W: Write>(
    alloc: Global,
    journal: &mut Journal<S>,
    reader: &mut R,
    writer: &mut W,
) -> Result<(), ResumeFault>
    // Nothing is written before the journal's commands are replayed, nor of a reply before what its line changed is on
    // the disk: if a crash comes then or later, the next process finds it.
    ensures served { (input : List ℕ) × IfSome (R.remaining reader.old) (λ bytes. input ≡ bytes)
        × (trace : List Exchange)
        × (((fault : RecoverFault) × (result ≡ Err (ResumeFault.Unrecovered fault)) × (trace ≡ [])
        × Keeps (W.contents writer.old) (W.contents writer.new))
        ⊎ ((commands : List (List ℕ))
        × (S.keeps_word journal.old.store
        → RecoversTo (written_now S.moment S.written_at journal.old.store) commands)
        × ServesAfter commands input (W.contents writer.old) (W.contents writer.new) trace
        × OnOk result (IsServed input (W.contents writer.old) (W.contents writer.new) trace)))
        × (S.keeps_word journal.old.store → (found : List (List ℕ))
        → RecoversTo (written_now S.moment S.written_at journal.old.store) found
        → (safe : ℕ) × HasResumed S.moment S.written_at S.left_at found trace
        (W.contents writer.old) (W.contents writer.new) journal.old.store journal.new.store safe) }
    // What earlier processes have told is never lost.
    ensures never_lost { S.keeps_word journal.old.store → (told : List (List ℕ))
        → HasAtLeast told (written_now S.moment S.written_at journal.old.store)
        → ((content : List ℕ) → MayLeave S.moment S.left_at journal.old.store content → HasAtLeast told content)
        → (n : ℕ) (content : List ℕ) → S.moment journal.old.store ≤ n → n ≤ S.moment journal.new.store
        → S.left_at journal.new.store n content
        → HasNoForged (S.written_at journal.new.store n) content → HasAtLeast told content }
    // No reply is written if a line of the journal is damaged.
    ensures damaged { S.keeps_word journal.old.store → (number : ℕ)
        → IsDamaged (written_now S.moment S.written_at journal.old.store) number
        → Keeps (W.contents writer.old) (W.contents writer.new) }
{
    let mut keeper = Keeper::new();
    let resumed = resume(alloc, journal, &mut keeper, reader, writer);
    let Keeper { session } = keeper;
    session.close();
    resumed
}
