//! The lines of a trace, which records what came to a tracker and when: reading them and writing
//! them.
#![tactic(auto)]

mod fields;
pub mod laws;
mod line;
mod parts;
mod records;
#[cfg(test)]
mod tests;

pub use fields::read_address;
pub use line::{TraceLine, read_line, write_line};
pub use records::{DATAGRAM_BYTES, RECORD_BYTES, Received, Record, read_record};
