//! Why a report ends before the command's own text.
ghost use Rattle.std.specs.Prelude.{◌≡◌};

use crate::made_report::MadeReport;
use std::alloc::AllocError;

/// Why a report ends before the command's own text.
#[derive(Drop)]
pub enum Stop {
    /// Memory was short.
    NoMemory,
    /// A read failed, or the input did not come to its end.
    ReadFailed,
    /// A stage ended the report.
    Report(MadeReport),
}

impl From<AllocError> for Stop {
    ghost use Rattle.sm_report.specs.declared.stop.Stop.TheVariants.{NoMemory};

    ghost from_gives = { λ _ stop. stop ≡ NoMemory };

    fn from(_error: AllocError) -> Stop {
        Stop::NoMemory
    }
}
