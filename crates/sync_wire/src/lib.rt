//! Sync datagrams, version 1, by which a node tells the others which endpoints take part in a
//! torrent or have left it. The format is this project's own.
#![tactic(auto)]

pub mod batch;
mod field;
pub mod laws;
pub mod reading;
#[cfg(test)]
mod tests;
pub mod writing;

pub use batch::{NOTES, NoteBatch, batch_len};
pub use reading::{SyncFault, read};
pub use writing::{BATCH_ROOM, write_batch};
