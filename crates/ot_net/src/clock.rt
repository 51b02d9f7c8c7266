//! The host's clock.

use ot_io::Clock;
use std::rt::Clock as HostTime;
use std::thread;
use std::time::{Duration, SystemTime};

/// How long a pause is, in milliseconds. A caller that finds nothing to do looks again after it.
const PAUSE: u64 = 4;

/// The host's clock: whole seconds from the beginning of 1970 in UTC.
#[derive(Drop)]
pub struct HostClock<'a, R> {
    rt: &'a R,
    pub(crate) told: u64,
    pub(crate) faults: u64,
}

impl<'a, R: HostTime> HostClock<'a, R> {
    ghost use Rattle.std.specs.Prelude.{◌≡◌};
    ghost use Rattle.ot_net.specs.Adapters.{clock_faults, clock_told};

    /// A clock that has told nothing yet.
    pub fn new(rt: &'a R) -> Self
        ensures told { clock_told result ≡ 0 }
        ensures faults { clock_faults result ≡ 0 }
    {
        HostClock {
            rt,
            told: 0,
            faults: 0,
        }
    }

    /// How many times the host didn't tell the time, and the clock told its last time again, which
    /// is 0 at first. From 2^64 - 1 on the count stands still.
    pub fn faults(&self) -> u64
        ensures { result ≡ clock_faults self.now }
    {
        self.faults
    }
}

impl<R: HostTime> Clock for HostClock<'_, R> {
    ghost use Rattle.ot_net.specs.Adapters.{clock_told};

    ghost told = { clock_told };

    fn now(&mut self) -> u64 {
        match seconds(self.rt) {
            Some(time) => self.told = time,
            None => self.faults = self.faults.saturating_add(1),
        }
        self.told
    }

    fn pause(&mut self) {
        thread::sleep(self.rt, Duration::from_millis(PAUSE));
    }
}

/// The time, where the host tells it and it isn't before 1970.
fn seconds<R: HostTime>(rt: &R) -> Option<u64> {
    let now = SystemTime::now(rt).ok()?;
    let since = now.duration_since(SystemTime::UNIX_EPOCH).ok()?;
    Some(since.as_secs())
}

/// The time in seconds, from a moment that stays the same. Where the host doesn't tell it, it is 0.
pub(crate) fn steady_seconds<R: HostTime>(rt: &R) -> u64 {
    match rt.monotonic() {
        Ok(time) => time.as_secs(),
        Err(_) => 0,
    }
}
