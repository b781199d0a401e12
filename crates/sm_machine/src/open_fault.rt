//! Why a machine is not opened.
use thiserror::Error;

/// The reason why a machine is not opened. LogFull is given before any memory is asked for, and so before NoMemory.
#[derive(Clone, Copy, Debug, PartialEq, Eq, Error)]
pub enum OpenFault {
    /// Memory was short.
    #[error("out of memory")]
    NoMemory,
    /// The log would have too many places, or fewer than servers are down.
    #[error("the log has too many places, or too few")]
    LogFull,
}
