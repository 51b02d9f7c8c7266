//! The types of the tracker: hashes, addresses, peers, counts, times, and lists of them.
#![tactic(auto)]

pub mod access;
pub mod address;
pub mod fault;
pub mod hash;
pub mod in_place;
pub mod laws;
pub mod minute;
pub mod peer;
pub mod peers;
pub mod refusal;
pub mod sequence;
#[cfg(test)]
mod tests;

pub use access::{AccessFault, Mode};
pub use address::{Addr, Endpoint, Family};
pub use fault::TraceFault;
pub use hash::{InfoHash, Secret, bucket_of};
pub use in_place::{CountList, Hashes, InPlace, Text};
pub use minute::Minute;
pub use peer::{Counts, Event, Held, Limits, Mark, Note, Row};
pub use peers::Peers;
pub use refusal::Refusal;
pub use sequence::{Bytes, EndpointList, HashList, HeldList, Notes, Rows, Sequence};
