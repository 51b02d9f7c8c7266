//! A clock in memory.

ghost use Rattle.std.specs.Prelude.{◌≡◌, ◌+◌, min};
ghost use Rattle.ot_io.specs.Counts.{last_count};

use crate::clock::Clock;

/// A clock in memory, for tests. It tells the numbers that it was made for.
#[derive(Clone, Copy, Debug, PartialEq, Eq)]
pub struct MemClock {
    told: u64,
    next: u64,
    step: u64,
}

impl MemClock {
    ghost use Rattle.std.specs.Prelude.{◌≡◌};
    ghost use Rattle.ot_io.specs.MemoryClock.{clock_next, clock_step};

    /// A clock that tells the first number, in seconds, and then always one that is higher by the
    /// step, but none past 2^64 - 1.
    pub fn new(first: u64, step: u64) -> Self
        ensures next { clock_next result ≡ first }
        ensures step { clock_step result ≡ step }
    {
        MemClock {
            told: first,
            next: first,
            step,
        }
    }
}

impl Clock for MemClock {
    ghost use Rattle.std.specs.Prelude.{◌≡◌, ◌+◌, min};
    ghost use Rattle.ot_io.specs.Counts.{last_count};
    ghost use Rattle.ot_io.specs.MemoryClock.{clock_next, clock_step, clock_told};

    ghost told = { clock_told };

    fn now(&mut self) -> u64
        ensures told { result ≡ clock_told self.new }
        ensures number { result ≡ clock_next self.old }
        ensures next { clock_next self.new ≡ min (clock_next self.old + clock_step self.old)
            last_count }
        ensures step { clock_step self.new ≡ clock_step self.old }
    {
        self.told = self.next;
        self.next = self.next.saturating_add(self.step);
        self.told
    }

    fn pause(&mut self)
        ensures { self.new ≡ self.old }
    {}
}
