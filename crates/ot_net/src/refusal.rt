//! Why nothing was made.

use std::alloc::{AllocError, AllocFailed};
use std::io;

/// Why nothing was made.
#[derive(Debug, Drop)]
pub enum Refusal {
    /// The host failed.
    Host,
    /// There is no memory.
    NoMemory,
}

impl From<io::Error> for Refusal {
    fn from(_error: io::Error) -> Self {
        Refusal::Host
    }
}

impl From<AllocError> for Refusal {
    fn from(_error: AllocError) -> Self {
        Refusal::NoMemory
    }
}

impl<T: Drop> From<AllocFailed<T>> for Refusal {
    fn from(_error: AllocFailed<T>) -> Self {
        Refusal::NoMemory
    }
}
