//! The body of a scrape of all torrents (BEP 48), in pieces: its front, then part after part, then
//! its back. So a tracker tells its torrents bucket by bucket and holds the rows of one at a time.
#![tactic(auto)]

pub mod laws;
mod parts;
#[cfg(test)]
mod tests;

pub use parts::{begin, end, part};
