//! The limits of a board, and how many parts its ledgers have.
use sm_plan_code::{MOST_PLANS, MOST_STREAMS};

/// The greatest number of callers that a board gives out.
pub(crate) const MOST_CALLERS: u64 = 4_096;

/// The greatest number of streams that can be unfinished at once: all of the greatest number of plans that run at a
/// time.
pub(crate) const MOST_UNFINISHED: usize = MOST_PLANS * MOST_STREAMS;

/// The number of parts that each ledger is cut into: more than runners and callers can ever be.
pub const PARTS: u64 = 1 << 62;
