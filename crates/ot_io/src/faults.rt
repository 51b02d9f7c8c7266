//! Faults on demand, for objects in memory.

ghost use Rattle.std.specs.Prelude.{◌≡◌, ◌+◌, ◌≤◌, min};
ghost use Rattle.ot_io.specs.Counts.{last_count, Rose};
ghost use Rattle.ot_io.specs.Demand.{is_demanded};

/// How many calls of an object in memory were made, and how many faults it has counted.
#[derive(Debug, Drop)]
pub struct Faults {
    /// How many calls were made: the number of the next one. At its last value it stays.
    pub(crate) calls: u64,
    /// How many faults were counted. At its last value it stays.
    pub(crate) count: u64,
}

impl Faults {
    pub(crate) fn new() -> Self
        ensures calls { result.calls ≡ 0 }
        ensures count { result.count ≡ 0 }
    {
        Faults { calls: 0, count: 0 }
    }

    /// Counts a call, and says whether it is among those that are to fail.
    pub(crate) fn is_next_among(&mut self, failing: &[u64]) -> bool
        ensures among { result ≡ is_demanded failing.now self.old.calls }
        ensures counted { self.new
            ≡ record self.old { calls = min (self.old.calls + 1) last_count } }
    {
        let number = self.calls;
        self.calls = number.saturating_add(1);
        failing.contains(&number)
    }

    /// Counts a fault.
    pub(crate) fn raise(&mut self)
        ensures risen { (self.old.count ≤ self.new.count) × Rose self.old.count self.new.count }
        ensures counted { self.new
            ≡ record self.old { count = min (self.old.count + 1) last_count } }
    {
        self.count = self.count.saturating_add(1);
    }
}
