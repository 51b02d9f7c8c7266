//! Laws of the definitions: each function's contract is the law, and its body is empty.

ghost use Rattle.std.specs.Prelude.{◌≡◌, ◌∷◌, [], ◌++◌, ℕ, List};
ghost use Rattle.std.specs.List.{AllByRecursion};
ghost use Rattle.tracker_model.specs.Grows.{entries_by};
ghost use Rattle.tracker_model.specs.declared.entry.Entry.{Entry};
ghost use Rattle.turn_lock.specs.Histories.{GoesOn};

/// Where a history goes on without some callers, it has afterwards just the entries of each of them
/// that it had. So a turn's history has of its own number what it gave, each once and in order, and
/// of each turn that was joined to it what that one had seen of its own.
pub fn none_is_added()
    ensures { (callers : List ℕ) (old new : List Entry) → GoesOn callers old new →
        AllByRecursion (λ caller. entries_by caller new ≡ entries_by caller old) callers }
{}

/// A history that goes on twice without some callers goes on without them.
pub fn goes_on_and_on()
    ensures { (callers : List ℕ) (first second third : List Entry) →
        GoesOn callers first second → GoesOn callers second third →
        GoesOn callers first third }
{}

/// An entry of a caller is one more of its own, behind those before.
pub fn own_is_added()
    ensures { (history : List Entry) (x : Entry) →
        entries_by x.caller (history ++ x ∷ []) ≡ entries_by x.caller history ++ x ∷ [] }
{}
