//! A server's decisions on copies of a shard: which one is greater, where one may go on, what enough copies have.
#![tactic(auto)]

mod counting;
mod law;
mod order;
mod resuming;

pub use counting::{acknowledged, is_copied};
pub use law::{acknowledges_one_position, compares_in_one_order, resumes_at_a_beginning};
pub use order::{ToldCopy, compare};
pub use resuming::{ViewStart, resumes};
