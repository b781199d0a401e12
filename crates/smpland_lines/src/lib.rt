//! The commands of `smpland`, one JSON object a line: what a line asks for, and what is said of one that is no
//! command or is refused.
#![tactic(auto)]

mod asking_lines;
mod bad_line;
mod changing_lines;
mod choices;
mod command;
mod command_member;
mod copied_line;
mod entries;
mod faults;
mod field;
mod form;
mod line;
mod line_part;
mod moves;
mod reader;
mod refusals;
mod reopening_lines;
mod row;
mod slots;
mod writer;
mod writing;

pub use bad_line::{BadLine, write_bad};
pub use choices::{CellChoice, ShardChoice, read_choices};
pub use command::{
    DriverCommand, FailedAnswer, Id, InventoryText, LineCommand, PlanQuestion, Question,
    ReopeningCommand, StateOf,
};
pub use command_member::CommandMember;
pub use field::{refuse, write_refusal};
pub use line::{id_of, parse_line, read_command};
pub use line_part::LinePart;
pub use moves::read_moves_in;
pub use refusals::{refuse_begin, refuse_check, refuse_log, refuse_open, refuse_restart};
pub use slots::{CellKind, PartyText, SlotNeeds, SlotText, read_slots};
pub use sm_refusals::{Field, server_name, shard_name};
pub use writer::Writer;
pub use writing::{write_id, write_name, write_number, write_text};
