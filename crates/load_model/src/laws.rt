//! Laws of a load: each function's contract is the law, and its body is empty. Histories have the
//! newest entry first here.

ghost use Rattle.std.specs.Prelude.{◌≡◌, ◌≢◌, ◌==◌, ◌%◌, ℕ, List};
ghost use Rattle.std.specs.List.{AllByRecursion, filter};
ghost use Rattle.ot_base.specs.declared.hash.InfoHash.{InfoHash};
ghost use Rattle.ot_base.specs.declared.minute.Minute.{Minute};
ghost use Rattle.tracker_model.specs.Calls.{IsReport};
ghost use Rattle.tracker_model.specs.declared.call.Call.{Call};
ghost use Rattle.tracker_model.specs.declared.entry.Entry.{Entry};
ghost use Rattle.load_model.specs.Alike.{AreAlike, after_calls};
ghost use Rattle.load_model.specs.Load.{caller_number};

/// Announces and stops that were made at one minute and took effect may stand in any order, as long
/// as those of each worker stay in theirs, where all of a peer have one worker: the same is known
/// after them.
pub fn order_of_workers_is_free()
    ensures { (minute : Minute) (h : InfoHash) (past : List Entry) (workers : ℕ) (calls others : List Call) →
        AreAlike minute.0 h past past →
        AllByRecursion IsReport calls → AllByRecursion IsReport others →
        ((k : ℕ) → filter (λ c. caller_number c % workers == k) calls ≡
        filter (λ c. caller_number c % workers == k) others) →
        AreAlike minute.0 h (after_calls minute past calls) (after_calls minute past others) }
{}
