//! One line of a bucket's history.

use crate::{Answer, Call};
use ot_base::Minute;

/// A call with its answer. A history is a list of these; the tracker itself stores none.
#[derive(Debug, Drop)]
pub struct Entry {
    /// The number of the caller, which only names it.
    pub caller: u32,
    /// The minute that the caller gave.
    pub minute: Minute,
    pub call: Call,
    pub answer: Answer,
}
