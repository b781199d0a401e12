//! A journal that is recovered and then served.
ghost use Rattle.std.specs.Prelude.{◌≡◌, ◌⊎◌, ◌≤◌, ℕ, List, [], ◌++◌, take, IfSome, Err, OnOk};
ghost use Rattle.std.specs.Io.KnownBytes.{Keeps};
ghost use Rattle.journal_lines.specs.Journal.{RecoversTo, HasNoForged, IsDamaged};
ghost use Rattle.journal_store.specs.Store.{written_now, MayLeave};
ghost use Rattle.journal_serve.specs.declared.resuming.ResumeFault.TheVariants.{Unrecovered, Unserved};
ghost use Rattle.journal_serve.specs.Trace.{Exchange, changes_in, ReplaysCommands};
ghost use Rattle.journal_serve.specs.Session.{HasServed, IsServed, RecoversBeyond};
ghost use Rattle.journal_serve.specs.Resume.{HasAtLeast, HasResumed};

use crate::applies::Applies;
use crate::fault::{RecoverFault, ServeFault};
use crate::journal::Journal;
use crate::recovery::recover;
use crate::session::serve;
use journal_store::Store;
use std::alloc::Global;
use std::io::{Read, Write};
use thiserror::Error;

/// The reasons why not all lines of an input were served.
#[derive(Clone, Copy, Debug, Drop, Error)]
pub enum ResumeFault {
    #[error("{0}")]
    Unrecovered(RecoverFault),
    #[error("{0}")]
    Unserved(ServeFault),
}

impl From<RecoverFault> for ResumeFault {
    ghost from_gives = { λ fault why. why ≡ Unrecovered fault };

    fn from(fault: RecoverFault) -> ResumeFault
        ensures { result ≡ Unrecovered fault }
    {
        ResumeFault::Unrecovered(fault)
    }
}

impl From<ServeFault> for ResumeFault {
    ghost from_gives = { λ fault why. why ≡ Unserved fault };

    fn from(fault: ServeFault) -> ResumeFault
        ensures { result ≡ Unserved fault }
    {
        ResumeFault::Unserved(fault)
    }
}

/// States that no change of the first `safe` exchanges is ever lost, even if more of them are safe.
pub fn safe_lines_stay()
    ensures { (found : List (List ℕ)) (trace : List Exchange) (safe : ℕ) (content : List ℕ)
        → RecoversBeyond found trace safe content → HasAtLeast (found ++ changes_in (take safe trace)) content }
{}

/// Recovers a journal, and serves each line of the input to its end.
pub fn resume<S: Store, A: Applies, R: Read, W: Write>(
    alloc: Global,
    journal: &mut Journal<S>,
    state: &mut A,
    reader: &mut R,
    writer: &mut W,
) -> Result<(), ResumeFault>
    // Whatever the store gives, commands that changed something are replayed before anything is written; if the store
    // keeps its word, they are those that it has. Then the reply to each line is written in turn. However the call
    // ends, a crash leaves what was found, and what a line changed if any of its reply was written.
    ensures resumed { (input : List ℕ) × IfSome (R.remaining reader.old) (λ bytes. input ≡ bytes)
        × (trace : List Exchange)
        × (((fault : RecoverFault) × (result ≡ Err (Unrecovered fault)) × (trace ≡ [])
        × Keeps (W.contents writer.old) (W.contents writer.new))
        ⊎ ((commands : List (List ℕ)) × (reached : A) × (end : A) × ReplaysCommands A.takes commands state.old reached
        × (S.keeps_word journal.old.store → RecoversTo (written_now S.moment S.written_at journal.old.store) commands)
        × HasServed A.takes input (W.contents writer.old) (W.contents writer.new) reached end trace
        × OnOk result (IsServed input (W.contents writer.old) (W.contents writer.new) trace)
        × ((result ≡ Err (Unserved ServeFault.NoMemory) → ⊥) → state.new ≡ end)))
        × (S.keeps_word journal.old.store → (found : List (List ℕ))
        → RecoversTo (written_now S.moment S.written_at journal.old.store) found
        → (count : ℕ) × HasResumed S.moment S.written_at S.left_at found trace
        (W.contents writer.old) (W.contents writer.new) journal.old.store journal.new.store count) }
    // Nothing that earlier runs have told is ever lost: if the bytes that are read have it, and each content that a
    // crash may leave before the call has it, then each content that a crash may leave during the call has it too.
    ensures never_lost { S.keeps_word journal.old.store → (told : List (List ℕ))
        → HasAtLeast told (written_now S.moment S.written_at journal.old.store)
        → ((content : List ℕ) → MayLeave S.moment S.left_at journal.old.store content → HasAtLeast told content)
        → (n : ℕ) (content : List ℕ) → S.moment journal.old.store ≤ n → n ≤ S.moment journal.new.store
        → S.left_at journal.new.store n content
        → HasNoForged (S.written_at journal.new.store n) content → HasAtLeast told content }
    // No reply is written if a line is damaged.
    ensures damaged { S.keeps_word journal.old.store → (number : ℕ)
        → IsDamaged (written_now S.moment S.written_at journal.old.store) number
        → Keeps (W.contents writer.old) (W.contents writer.new) }
{
    recover(alloc, journal, state)?;
    serve(alloc, journal, state, reader, writer)?;
    Ok(())
}
