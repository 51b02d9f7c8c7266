//! Runs over the lines of an input, which are answered one by one.
//!
//! A line ends at the byte 0x0A. Last bytes without that end are a line where there is at least
//! one, and only where the input came to its end. A line has at most 262,144 bytes without its end.
//!
//! [`Lines`] and [`Replies`] are the two ends of a run, for callers with loops of their own, and
//! [`run_lines`] is the loop of most.
#![tactic(auto)]

pub mod line_buffer;
pub mod replies;
pub mod responder;
pub mod run;
#[cfg(test)]
mod tests;

pub use line_buffer::{Filled, LINE_LIMIT, Lines, READ_LIMIT, Taken};
pub use replies::{REPLIES_LEN, Replies, WriteFault};
pub use responder::{Responder, Trouble};
pub use run::{Ending, run_lines};
