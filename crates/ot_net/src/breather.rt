//! When who is busy all the time is to look up.

use crate::clock::steady_seconds;
use std::rt::Clock;

/// How many calls come between two looks at the clock.
const CALLS: u32 = 15;

/// Says when a wire or a listener is to answer once that none waits, though one may. Who serves
/// looks only then whether it is to end, and where clients ask all the time no other moment comes.
#[derive(Debug, Drop)]
pub struct Breather {
    /// How many calls came since the clock was read.
    calls: u32,
    /// When the clock was read, in seconds.
    read: u64,
}

impl Breather {
    /// One that has seen no call.
    pub fn new() -> Self {
        Breather { calls: 0, read: 0 }
    }

    /// Whether this call is to be answered so: at most one in a second is. The clock is read at
    /// every 16th call, and only then.
    pub fn is_due<R: Clock>(&mut self, rt: &R) -> bool {
        if self.calls < CALLS {
            self.calls += 1;
            return false;
        }
        self.calls = 0;
        let last = self.read;
        self.read = steady_seconds(rt);
        self.read > last
    }
}
