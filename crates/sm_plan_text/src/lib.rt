//! Documents and plans as JSON: what they are read as, and how plans are written.
#![tactic(auto)]

mod call;
mod cursor;
mod document;
mod entry;
mod event;
mod fault;
mod instruction;
mod limits;
mod member;
mod moves;
mod names;
mod outline;
mod parcel;
mod plan;
mod plan_text;
mod rows;
mod rule;
mod writing;

use cursor::Cursor;
pub use document::{Document, read_document, read_document_value};
use entry::Entry;
use fault::Faults;
pub use fault::{TextFault, first_is_answered};
pub use member::Member;
use names::Names;
pub use plan_text::{read_plan, read_plan_value};
use rule::{Form, Rule};
pub use writing::{plan_text_is_read, write_plan, written_plan_is_read};
