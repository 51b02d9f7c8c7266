//! Laws of the whole body: each function's contract is the law, and its body is empty.

ghost use Rattle.std.specs.Prelude.{◌≡◌, All, List, map};
ghost use Rattle.std.specs.List.Sorted.{IsStrictlySortedBy};
ghost use Rattle.bencode_text.specs.Bencode.{IsCanonical};
ghost use Rattle.ot_base.specs.Order.{hash_cmp};
ghost use Rattle.ot_base.specs.declared.peer.Row.{Row};
ghost use Rattle.tracker_core.specs.HttpText.{IsRow, scrape_body};
ghost use Rattle.full_scrape.specs.FullScrape.{full_body, rows_of};

/// The pieces together are the body of a scrape that found all rows, however these are divided. It
/// is canonical bencode where the hashes ascend over all parts, and hashes and counts are as their
/// types have them.
pub fn pieces_together()
    ensures body { (lists : List (List Row)) → full_body lists ≡ scrape_body (rows_of lists) }
    ensures canonical { (lists : List (List Row)) → All (λ rows. All IsRow rows) lists →
        IsStrictlySortedBy hash_cmp (map (λ row. row.hash) (rows_of lists)) →
        IsCanonical (full_body lists) }
{}
