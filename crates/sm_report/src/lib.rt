//! The reports of `smplan`: from the bytes that are read to the bytes that are written.
#![tactic(auto)]

mod answers;
mod begun;
mod boards;
mod calls;
mod checks;
mod command;
mod delivery;
mod input;
mod limits;
mod made_report;
mod outstanding;
mod planning;
mod player;
mod playing;
mod plays;
mod reporting;
mod run_lines;
mod run_stop;
mod running;
mod stages;
mod status;
mod stop;

pub use command::Command;
pub use input::{InputFault, take_input};
pub use reporting::{one_report, report, scenes_are_safe, some_report};
pub use running::{one_run_report, report_run};
pub use status::Status;
