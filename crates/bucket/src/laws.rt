//! Laws of a shelf: each function's contract is the law, and its body is empty.

ghost use Rattle.std.specs.Prelude.{◌≡◌, ◌<◌, ◌^◌, All, List, length, map, ℕ};
ghost use Rattle.ot_base.specs.declared.minute.Minute.{Minute};
ghost use Rattle.ot_base.specs.declared.peer.Row.{Row};
ghost use Rattle.tracker_model.specs.Grows.{GrowsAlone};
ghost use Rattle.tracker_model.specs.Making.{Makes};
ghost use Rattle.tracker_model.specs.Placed.{moves_of};
ghost use Rattle.tracker_model.specs.declared.answer.Answer.{Answer};
ghost use Rattle.tracker_model.specs.declared.answer.Answer.TheVariants.{Rows};
ghost use Rattle.tracker_model.specs.declared.call.Call.{Call};
ghost use Rattle.tracker_model.specs.declared.call.Call.TheVariants.{Scan};
ghost use Rattle.tracker_model.specs.declared.entry.Entry.{Entry};
ghost use Rattle.bucket.specs.Shelf.{AllStand, CanScan, Follows, MadeOnShelf, ShelfShape};

/// Where calls were made on a shelf whose buckets each stood for a history, the buckets stand for
/// the histories that grew by these calls, by caller 0, and each answer is right just there.
pub fn shelf_follows()
    ensures { (minute : Minute) (old new : ShelfShape) (placed : List (ℕ × Call))
        (answers : List Answer) (histories : List (List Entry)) → AllStand histories old →
        Makes MadeOnShelf minute old placed answers new →
        Follows minute old placed answers new histories }
{}

/// Whatever stands on a shelf, scans of its buckets can be made, in any order, with rows of their
/// torrents as the answers.
pub fn scans_can_be_answered()
    ensures { (minute : Minute) (old : ShelfShape) (buckets : List ℕ) →
        All (λ bucket. bucket < 2 ^ old.bits) buckets → CanScan minute old buckets }
{}
