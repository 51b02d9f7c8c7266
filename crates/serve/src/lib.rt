//! The server: what its workers do for datagrams and connections, each with a pass of its own to
//! buckets that all of them share.
#![tactic(auto)]

pub mod connection;
pub mod datagram;
pub mod full;
pub mod http_worker;
pub mod job;
pub mod laws;
pub mod request;
pub mod scratch;
#[cfg(test)]
mod tests;
pub mod udp_worker;

pub use connection::{ConnEnd, serve_connection};
pub use datagram::{Served, serve_datagram};
pub use http_worker::serve_listener;
pub use job::Job;
pub use request::read_plan;
pub use scratch::Scratch;
pub use udp_worker::serve_wire;
