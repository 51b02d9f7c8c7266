//! The commands that read an input to its end and touch nothing else: the replay of a recorded
//! trace, in which each record is answered as the tracker would have answered it.
#![tactic(auto)]

mod answerer;
pub mod command;
mod full;
mod output;
mod phase;
mod replay;
#[cfg(test)]
mod tests;

pub use command::{Fault, Offline, run_offline};
