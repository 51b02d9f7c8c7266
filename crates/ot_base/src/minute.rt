//! Time in minutes.

ghost use Rattle.std.specs.Prelude.{◌≡◌};
ghost use Rattle.ot_base.specs.Minute.{minute_at};

/// A moment or an age, in whole minutes.
#[derive(Clone, Copy, Debug, Default, PartialEq, Eq, PartialOrd, Ord, Hash)]
pub struct Minute(pub u32);

impl Minute {
    /// The minute that a moment in seconds lies in. From the last minute on, 4,294,967,295, it
    /// stands still.
    pub fn of_seconds(seconds: u64) -> Minute
        ensures { result ≡ minute_at seconds }
    {
        let minutes = (seconds / 60).min(u64::from(u32::MAX));
        Minute(minutes as u32)
    }
}
