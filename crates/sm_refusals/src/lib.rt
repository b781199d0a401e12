//! Refusals: what `smplan` says in a line, and `smpland` in a reply, of a placement, a plan or a restart that is
//! refused.
#![tactic(auto)]

mod field;
mod names;
mod openings;
mod plans;
mod refusal;
mod restarts;

pub use field::{Field, Fields};
pub use names::{server_name, shard_name};
pub use openings::open_refusal;
pub use plans::{begin_refusal, check_refusal, holding_refusal};
pub use refusal::RefusalText;
pub use restarts::denied_refusal;
