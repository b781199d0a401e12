//! Stores of journals: bytes that are read, appended, cut and synced, and what a crash may leave of them.
#![tactic(auto)]

mod disk;
mod file;
mod host;
mod memory;
mod shot;
mod store;

pub use disk::Disk;
pub use file::{FileStore, RENEWED};
pub use host::{HostDisk, OpenFailure};
pub use memory::MemoryDisk;
pub use store::{Store, StoreFailure, StoreFault};
