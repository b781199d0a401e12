//! The lines of a journal: how an append is written, and what a content recovers to.
//!
//! A journal is a head and then lines, one for each append. A line has the commands that were appended, as they were
//! read, the sum of the line before it, and its own. So each line is checked by itself, and a missing line before it is
//! found.
#![tactic(auto)]

mod bodies;
mod fault;
mod laws;
mod lines;
mod objects;
mod reading;

pub use fault::JournalFault;
pub use laws::{one_recovery, torn_append_recovers, torn_cut_recovers};
pub use lines::{Entries, Line, Sum, is_right, journal_head, read_line, write_line};
pub use objects::{is_object, object_length};
pub use reading::Reading;
