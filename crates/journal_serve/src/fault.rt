//! Why a session ended.
ghost use Rattle.std.specs.Prelude.{◌≡◌};
ghost use Rattle.journal_serve.specs.declared.fault.RecoverFault.TheVariants.{NoMemory};
ghost use Rattle.journal_serve.specs.declared.fault.ServeFault.TheVariants.{NoMemory as NoneLeft};
ghost use Rattle.journal_serve.specs.Faults.{recover_fault_of, serve_fault_of};

use journal_store::{StoreFailure, StoreFault};
use std::alloc::AllocError;
use std::io;
use thiserror::Error;

/// The reasons why a journal was not recovered.
#[derive(Clone, Copy, Debug, Drop, Error)]
pub enum RecoverFault {
    #[error("out of memory")]
    NoMemory,
    #[error("{0}")]
    Failed(StoreFailure),
    #[error("this is no journal of format 2")]
    Foreign,
    /// This line does not go on from those before it, and a whole line stands there or behind it: no crash leaves that.
    #[error("line {0} of the journal is damaged")]
    Damaged(u64),
    /// A command on this line did not change what it was applied to.
    #[error("line {0} of the journal does not fit the lines before it")]
    Unfit(u64),
}

impl From<AllocError> for RecoverFault {
    ghost from_gives = { λ _ why. why ≡ NoMemory };

    fn from(_refused: AllocError) -> RecoverFault
        ensures { result ≡ RecoverFault.NoMemory }
    {
        RecoverFault::NoMemory
    }
}

impl From<StoreFault> for RecoverFault {
    ghost from_gives = { λ fault why. why ≡ recover_fault_of fault };

    fn from(fault: StoreFault) -> RecoverFault
        ensures { result ≡ recover_fault_of fault }
    {
        match fault {
            StoreFault::NoMemory => RecoverFault::NoMemory,
            StoreFault::Failed(failure) => RecoverFault::Failed(failure),
        }
    }
}

/// The reasons why a session ended before its input.
#[derive(Clone, Copy, Debug, Drop, Error)]
pub enum ServeFault {
    #[error("out of memory")]
    NoMemory,
    #[error("the input was not read: {cause}")]
    ReadFailed { cause: io::Error },
    #[error("the output was not written: {cause}")]
    WriteFailed { cause: io::Error },
    #[error("{0}")]
    NotKept(StoreFailure),
}

impl From<AllocError> for ServeFault {
    ghost from_gives = { λ _ why. why ≡ NoneLeft };

    fn from(_refused: AllocError) -> ServeFault
        ensures { result ≡ ServeFault.NoMemory }
    {
        ServeFault::NoMemory
    }
}

impl From<StoreFault> for ServeFault {
    ghost from_gives = { λ fault why. why ≡ serve_fault_of fault };

    fn from(fault: StoreFault) -> ServeFault
        ensures { result ≡ serve_fault_of fault }
    {
        match fault {
            StoreFault::NoMemory => ServeFault::NoMemory,
            StoreFault::Failed(failure) => ServeFault::NotKept(failure),
        }
    }
}
