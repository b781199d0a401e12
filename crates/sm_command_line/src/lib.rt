//! The command line of `smplan`: what its words ask for, and the report that they ask for.
#![tactic(auto)]

mod reported;
mod words;

pub use reported::report_word;
pub use words::{LineFault, Word, command_of};
