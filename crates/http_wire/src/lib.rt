//! The heads of a tracker's HTTP requests, and its replies (RFC 9112).
#![tactic(auto)]

mod head;
mod lines;
mod reply;
#[cfg(test)]
mod tests;
mod watch;

pub use head::{Head, find_head};
pub use reply::{Code, write_long_head, write_reply};
pub use watch::Watch;
