//! Plans that have begun.

/// A plan that has begun: its epoch, its number there, and how many calls and streams it has.
#[derive(Clone, Copy, Debug, PartialEq, Eq)]
pub struct BegunPlan {
    pub epoch: u32,
    pub number: u32,
    pub calls: u64,
    pub streams: u64,
}
