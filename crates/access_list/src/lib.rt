//! Which torrents a tracker takes part in: all but those of a list, or those of a list alone.
#![tactic(auto)]

mod access;
pub mod laws;
mod lines;
mod reader;
#[cfg(test)]
mod tests;

pub use access::{AccessList, admits_hash};
pub use ot_base::{AccessFault, Mode};
pub use reader::ListReader;
