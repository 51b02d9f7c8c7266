//! A bucket of the tracker: torrents and their peers. No call but a scan and a cleaning walks over
//! what is stored: an index tells where a torrent stands, a ring which ones are forgotten, and each
//! torrent has its own index, rings and running counts. A shelf is all buckets of a tracker, for
//! one thread.
#![tactic(auto)]

pub mod bucket;
mod calls;
mod changes;
mod hints;
mod index;
mod joining;
pub mod laws;
mod outbox;
pub mod shelf;
mod stored;
#[cfg(test)]
mod tests;
mod torrents;

pub use bucket::Bucket;
pub use shelf::Shelf;
