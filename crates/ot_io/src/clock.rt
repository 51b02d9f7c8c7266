//! What time it is.

ghost use Rattle.std.specs.Prelude.{◌≡◌, ℕ};

/// Tells the time.
pub trait Clock {
    /// What it told last.
    ghost told: { Self → ℕ };

    /// The time in seconds, from a moment that all clocks of one maker share. It can't fail.
    fn now(&mut self) -> u64
        ensures { result ≡ told self.new };

    /// Waits a moment, or doesn't: for a caller that has nothing to do.
    fn pause(&mut self)
        ensures { told self.new ≡ told self.old };
}
