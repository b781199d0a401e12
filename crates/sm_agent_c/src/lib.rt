//! The agent for programs in C: structs of fixed layout, and functions on pointers to these, which include/sm_agent.h
//! declares.
#![tactic(auto)]

mod assignment;
mod base;
mod code;
mod copies;
mod order;
mod request;
mod slot;

pub use assignment::{RawAssignment, RawShardSlot, sm_take};
pub use base::{RawBase, RawReopening, sm_fence, sm_forget, sm_heed};
pub use copies::{sm_acknowledged, sm_compare, sm_copied, sm_resumes};
pub use order::{RawOrder, RawPublication, sm_commit, sm_judge, sm_may_delete, sm_publish};
pub use request::{RawRequest, sm_route};
pub use slot::{RawSlot, sm_abandon, sm_begin, sm_has_reached_cut, sm_seal, sm_vacant};
