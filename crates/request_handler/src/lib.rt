//! What is done for a request: the calls of its plan are made on a tracker's buckets, and their
//! answers are put into the reply. It is the same for every tracker, on one thread or on several.
#![tactic(auto)]

pub mod cleaning;
pub mod connection;
pub mod datagram;
pub mod full;
#[cfg(test)]
mod tests;
pub mod words;

pub use cleaning::clean_all;
pub use connection::serve;
pub use datagram::{Outcome, carry_out};
pub use full::{asks_for_all, bucket_count, full_part};
pub use words::{Draws, Words};
