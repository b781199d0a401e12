//! Why a journal was not read.
ghost use Rattle.std.specs.Prelude.{◌≡◌};
ghost use Rattle.journal_lines.specs.declared.fault.JournalFault.TheVariants.{NoMemory};

use std::alloc::AllocError;
use thiserror::Error;

/// Why a journal was not read.
#[derive(Clone, Copy, Debug, Drop, PartialEq, Eq, Error)]
pub enum JournalFault {
    #[error("out of memory")]
    NoMemory,
    /// This line does not go on from those before it, and a whole line stands there or behind it: no crash leaves that.
    #[error("line {0} is damaged")]
    Damaged(u64),
}

impl From<AllocError> for JournalFault {
    ghost from_gives = { λ _ why. why ≡ NoMemory };

    fn from(_refused: AllocError) -> JournalFault {
        JournalFault::NoMemory
    }
}
