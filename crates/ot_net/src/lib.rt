//! The host's network and clock, as wires, connections, listeners and clocks.
//!
//! Each counts its faults, and tells nothing of what went over it. This is the one crate that opens
//! sockets.
#![tactic(auto)]

mod address;
mod arrivals;
mod breather;
mod clock;
mod conn;
mod listener;
mod outside;
mod refusal;
#[cfg(test)]
mod tests;
mod waiting;
mod wire;

pub use clock::HostClock;
pub use conn::NetConn;
pub use listener::NetListener;
pub use outside::HostOutside;
pub use wire::NetWire;
