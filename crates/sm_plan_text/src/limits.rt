//! The limits of a document's own lists and numbers, and of its depth. Those of configurations, placements and plans
//! stand in their crates.
use json_tree::MAX_DEPTH;
use sm_placement::{MOST_LOAD, MOST_SERVERS};
use sm_plan_code::MOST_AMOUNT;

/// The greatest depth to which arrays and objects may nest in a member of a document: a level less than in the
/// document, which is an object itself.
pub const MOST_DEPTH: usize = MAX_DEPTH - 1;

/// The greatest number of calls, and of events, of a document.
pub const MOST_EVENTS: usize = 1_048_576;

/// The greatest number of shards that a document asks for.
pub const MOST_ASKS: usize = 16;

/// The number of places of the log if the document does not say.
pub const LOG_PLACES: u32 = 65_536;

/// The greatest load and room, as they are read.
pub const LOAD_LIMIT: u32 = MOST_LOAD as u32;

/// The greatest amount of a right, as it is read.
pub const AMOUNT_LIMIT: u32 = MOST_AMOUNT as u32;

/// The greatest limit of servers down, as it is read.
pub const DOWN_LIMIT: u32 = MOST_SERVERS as u32;
