//! Ends of restarts.
ghost use Rattle.std.specs.Prelude.{◌≡◌};
ghost use Rattle.sm_driver.specs.Permits.{is_settled};

use sm_server::ServerId;

/// The effect of the end of a restart.
#[derive(Clone, Copy, Debug, PartialEq, Eq)]
pub enum RestartEffect {
    /// The server is up again.
    Up(ServerId),
    /// The restart of this permit has ended before, or there was none.
    Old,
    /// The server has no base, or one below the fence, and stays down until it is restored or settled.
    Unsettled(ServerId),
}

/// Whether a server that has this base, if any, was settled or restored at or above a fence.
pub(crate) fn is_settled(fence: u64, base: Option<u64>) -> bool
    ensures { result ≡ is_settled fence base }
{
    match base {
        None => false,
        Some(number) => fence <= number,
    }
}
