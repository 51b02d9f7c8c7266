//! The line that a server ends with.

ghost use Rattle.std.specs.Prelude.{◌≡◌, ◌<◌, ◌^◌, ◌+◌, ◌*◌, false, IfOk, List, length, reverse};
ghost use Rattle.bucket.specs.Shelf.{AllStand, ShelfShape, bucket_at, with_bucket};
ghost use Rattle.load_model.specs.Sums.{IsWithin, totals_in};
ghost use Rattle.load_model.specs.Text.{totals_of};
ghost use Rattle.tracker_model.specs.Counted.{rows_of};
ghost use Rattle.tracker_model.specs.Shape.{Shape};
ghost use Rattle.tracker_model.specs.Stands.{StandsFor};
ghost use Rattle.tracker_model.specs.declared.entry.Entry.{Entry};
ghost use Rattle.server.specs.Summary.{summary_line};

use arrayvec::ArrayString;
use bucket::Shelf;
use itoa::Buffer;
use load_model::Totals;
use std::alloc::AllocError;
use tracker_model::Tracker;

/// Room for the line, of 40 bytes of words and four numbers of at most 39 digits.
const LINE_LEN: usize = 256;

/// The totals of all buckets, each at its own time, from one scan of each.
pub fn sum_up(shelf: &mut Shelf) -> Result<Totals, AllocError>
    ensures { IfOk result (λ totals. (histories : List (List Entry)) →
        AllStand histories shelf.old → totals ≡ totals_in histories) }
{
    let mut totals = Totals::default();
    let count = 1u32 << shelf.bits();
    'buckets: for bucket in 0..count {
        totals = totals.plus(sum_bucket(shelf, bucket)?);
    }
    Ok(totals)
}

/// The totals of a bucket at its own time. Nothing is asked of the others.
fn sum_bucket(shelf: &mut Shelf, bucket: u32) -> Result<Totals, AllocError>
    requires within { bucket < 2 ^ shelf.old.bits }
    requires whole { length shelf.old.buckets ≡ 2 ^ shelf.old.bits }
    ensures others { (changed : Shape) × (shelf.new ≡ with_bucket shelf.old bucket changed) }
    ensures small { IfOk result (IsWithin (2 ^ 96)) }
    ensures totals { IfOk result (λ totals. (history : List Entry) →
        StandsFor history (bucket_at shelf.old bucket) →
        totals ≡ totals_of (rows_of (reverse history))) }
{
    let minute = shelf.bucket(bucket).time();
    let rows = shelf.scan(bucket, minute)?;
    Ok(Totals::of_rows(rows.as_slice()))
}

/// The line of the totals, and of how many calls were made.
pub fn line_of_summary(totals: &Totals, calls: u128) -> ArrayString<LINE_LEN>
    ensures { result.bytes ≡ summary_line totals.now calls }
{
    let mut digits = Buffer::new();
    let mut line = ArrayString::new();
    line.push_str("torrents ");
    line.push_str(digits.format(totals.torrents));
    line.push_str(" complete ");
    line.push_str(digits.format(totals.complete));
    line.push_str(" incomplete ");
    line.push_str(digits.format(totals.incomplete));
    line.push_str(" calls ");
    line.push_str(digits.format(calls));
    line.push_str("\n");
    line
}
