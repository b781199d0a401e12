//! The calls of a store, and what it promises.
ghost use Rattle.std.specs.Prelude.{◌≡◌, ◌≤◌, ◌⊎◌, ℕ, List, ◌++◌, length, take, IfOk, OnOk};
ghost use Rattle.journal_store.specs.declared.store.StoreFault.TheVariants.{NoMemory, Failed};
ghost use Rattle.journal_store.specs.Store.{written_now, MayLeave, IsSynced, Passes, IsTorn, IsCut, StepsTo, IsPiece};

use std::alloc::{AllocError, AllocFailed};
use std::io;
use thiserror::Error;

/// The step that a store did not take, with its cause.
#[derive(Clone, Copy, Debug, Drop, Error)]
pub enum StoreFailure {
    #[error("the journal was not read: {cause}")]
    Read { cause: io::Error },
    #[error("the journal was not written: {cause}")]
    Append { cause: io::Error },
    #[error("the journal was not cut: {cause}")]
    Cut { cause: io::Error },
    #[error("the journal was not synced: {cause}")]
    Sync { cause: io::Error },
}

/// Why a call of a store failed.
#[derive(Clone, Copy, Debug, Drop, Error)]
pub enum StoreFault {
    #[error("out of memory")]
    NoMemory,
    #[error("{0}")]
    Failed(StoreFailure),
}

impl From<StoreFailure> for StoreFault {
    ghost from_gives = { λ failure why. why ≡ Failed failure };

    fn from(failure: StoreFailure) -> StoreFault {
        StoreFault::Failed(failure)
    }
}

impl From<AllocError> for StoreFault {
    ghost from_gives = { λ _ why. why ≡ NoMemory };

    fn from(_refused: AllocError) -> StoreFault {
        StoreFault::NoMemory
    }
}

impl<T: Drop> From<AllocFailed<T>> for StoreFault {
    ghost from_gives = { λ _ why. why ≡ NoMemory };

    fn from(_refused: AllocFailed<T>) -> StoreFault {
        StoreFault::NoMemory
    }
}

/// The place in which a journal is kept.
///
/// After a call that failed nothing more is promised of what is read or written, but what a crash may leave.
pub trait Store {
    /// Holds of a store as long as it does what is said of bytes below.
    ghost keeps_word: { Self → Type 0 };

    /// The latest moment.
    ghost moment: { Self → ℕ };

    /// The bytes that were written by a moment, whatever of them is on the disk.
    ghost written_at: { Self → ℕ → List ℕ };

    /// The contents that a crash at a moment may leave.
    ghost left_at: { Self → ℕ → List ℕ → Type 0 };

    /// Reads bytes from a place on, and returns how many.
    fn read(&mut self, at: u64, piece: &mut [u8]) -> Result<usize, StoreFault>
        ensures room { IfOk result (λ n. n ≤ length piece.old) }
        ensures bytes { keeps_word self.old
            → IfOk result (λ n. IsPiece (written_now moment written_at self.old) at piece.new n) }
        ensures time { keeps_word self.old → Passes moment written_at left_at self.old self.new
            (written_now moment written_at self.old) (MayLeave moment left_at self.old) }
        ensures same { keeps_word self.old
            → written_now moment written_at self.new ≡ written_now moment written_at self.old }
        ensures word { keeps_word self.old → OnOk result (keeps_word self.new) };

    /// Writes bytes behind the last. Until a sync, a crash may leave any bytes in their range.
    fn append(&mut self, bytes: &[u8]) -> Result<(), StoreFault>
        ensures written { keeps_word self.old → OnOk result
            (written_now moment written_at self.new ≡ written_now moment written_at self.old ++ bytes.now) }
        ensures time { keeps_word self.old → Passes moment written_at left_at self.old self.new
            (written_now moment written_at self.old ++ bytes.now)
            (StepsTo (MayLeave moment left_at self.old) (IsTorn bytes.now)) }
        ensures word { keeps_word self.old → OnOk result (keeps_word self.new) };

    /// Cuts to a length.
    fn cut(&mut self, least: u64) -> Result<(), StoreFault>
        ensures written { keeps_word self.old → OnOk result
            (written_now moment written_at self.new ≡ take least (written_now moment written_at self.old)) }
        ensures time { keeps_word self.old → Passes moment written_at left_at self.old self.new
            (take least (written_now moment written_at self.old))
            (StepsTo (MayLeave moment left_at self.old) (IsCut least)) }
        ensures word { keeps_word self.old → OnOk result (keeps_word self.new) };

    /// Brings what was written to the disk: after it, a crash leaves that and nothing else.
    fn sync(&mut self) -> Result<(), StoreFault>
        ensures synced { keeps_word self.old → OnOk result (IsSynced moment written_at left_at self.new) }
        ensures written { keeps_word self.old
            → written_now moment written_at self.new ≡ written_now moment written_at self.old }
        ensures time { keeps_word self.old → Passes moment written_at left_at self.old self.new
            (written_now moment written_at self.old)
            (λ content. MayLeave moment left_at self.old content ⊎ (content ≡ written_now moment written_at self.old)) }
        ensures word { keeps_word self.old → OnOk result (keeps_word self.new) };
}
