//! The datagrams of a UDP tracker (BEP 15): what clients ask, and what they are answered.
#![tactic(auto)]

mod action;
mod field;
mod hashes;
pub mod laws;
pub mod reading;
pub mod reply;
pub mod request;
#[cfg(test)]
mod tests;

pub use hashes::{ScrapeHashes, hash_ahead};
pub use reading::{Reply, read_reply};
pub use reply::{REPLY_ROOM, write_announce, write_connect, write_error, write_scrape};
pub use request::{Quiet, Request, UdpAnnounce, read_request};
