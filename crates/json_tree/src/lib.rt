//! JSON as a tree that borrows its text.
//!
//! A text reads as what `serde_json` reads of it. Its strings are not copied, but for those with escapes, and an object
//! is a list of its members.
#![tactic(auto)]

mod number;
mod read;
mod tree;

pub use json::{Reader, Scratch, Token};
pub use read::{MAX_DEPTH, ReadFault, read_value};
pub use tree::{Tree, find_member};
