//! What is kept in a history's place.

ghost use Rattle.std.specs.Prelude.{ℕ, List};
ghost use Rattle.tracker_model.specs.declared.entry.Entry.{Entry};

/// A value that is kept in place of a history, as a bucket is. A lock over such a value knows it
/// by these two words alone.
pub trait Stands {
    /// The value's settings, as numbers.
    ghost settings: { Self → List ℕ };

    /// The histories that the value stands for, with the oldest entry first.
    ghost stands: { Self → List Entry → Type 0 };
}
