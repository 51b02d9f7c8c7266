//! The outside of the tracker: where bytes come from and go to, how a run ends, and its settings.
//!
//! Each object of the outside counts its faults, and a source also its ends. An answer that blames
//! the outside comes only where that count rose, so a caller's contract can say whose fault it was.
//! A connection is a source and a sink with one count of faults for both.
#![tactic(auto)]

pub mod clock;
pub mod conn;
#[cfg(test)]
mod edge_tests;
mod faults;
pub mod lender;
pub mod listener;
pub mod mem_clock;
pub mod mem_conn;
pub mod mem_listener;
pub mod mem_outside;
pub mod mem_sink;
pub mod mem_source;
pub mod mem_wire;
pub mod message;
pub mod outside;
pub mod settings;
pub mod sink;
pub mod source;
pub mod status;
pub mod std_streams;
#[cfg(test)]
mod tests;
pub mod wire;

pub use clock::Clock;
pub use conn::Conn;
pub use listener::{Accept, Listener};
pub use mem_clock::MemClock;
pub use mem_conn::{ConnScript, MemConn};
pub use mem_listener::MemListener;
pub use mem_outside::MemOutside;
pub use mem_sink::MemSink;
pub use mem_source::MemSource;
pub use mem_wire::{Incoming, MemWire, Outgoing, WireScript};
pub use message::report;
pub use outside::{Made, Outside};
pub use settings::{NODES, ReplaySettings, ServeSettings, SyncSettings};
pub use sink::{Sink, Wrote, send_all};
pub use source::{Piece, Source};
pub use status::{LineFault, Status};
pub use std_streams::{StdSink, StdSource};
pub use wire::{DATAGRAM_LEN, Recv, Sent, Wire};
