//! A server: it opens its sockets, runs its jobs at once until its input ends, and tells what it
//! knows then.
#![tactic(auto)]

pub mod access;
pub mod closing;
pub mod devices;
pub mod input;
pub mod opening;
pub mod run;
pub mod sharing;
pub mod summary;
pub mod team;
#[cfg(test)]
mod tests;

pub use run::run_serve;
