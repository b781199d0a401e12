//! Laws of `smpland`'s lines over the fleet that they are about: if each line is true when it comes, all laws of the
//! fleet hold.
#![tactic(auto)]

mod law;

pub use law::{
    kept_is_renumbered, lines_go_on, opens_on_kept, run_is_safe, runs_begin, true_lines_keep_floors,
};
