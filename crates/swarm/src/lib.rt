//! The live peers of one torrent, in an order that grows at its end, with an index by endpoint and
//! one ring of ages for each family. What a call costs doesn't grow with the number of peers, but
//! for the index, in which a look-up takes the logarithm of their number.
#![tactic(auto)]

mod changes;
mod choice;
mod hints;
mod index;
mod late;
pub mod laws;
mod lookup;
mod members;
mod order;
mod short;
mod swarm;
#[cfg(test)]
mod tests;

pub use members::{MOST_PEERS, PEER_AGES, Put};
pub use swarm::Swarm;
