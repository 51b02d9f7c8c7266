//! What is done where all torrents are asked for: the reply is told bucket by bucket, so that the
//! rows of one are held at a time.

ghost use Rattle.std.specs.Prelude.{◌≡◌, ◌<◌, ◌^◌, false, flat_map, IfOk, List, OnErr, true};
ghost use Rattle.ot_base.specs.declared.peer.Row.{Row};
ghost use Rattle.tracker_core.specs.ConnectionPlan.{IsBoundedConnection};
ghost use Rattle.tracker_core.specs.HttpText.{row_text};
ghost use Rattle.tracker_core.specs.declared.connection_plan.ConnectionPlan.TheVariants.{Planned};
ghost use Rattle.tracker_core.specs.declared.http_plan.HttpPlan.TheVariants.{Full};
ghost use Rattle.tracker_model.specs.declared.answer.Answer.{Answer};
ghost use Rattle.tracker_model.specs.declared.answer.Answer.TheVariants as answer;
ghost use Rattle.tracker_model.specs.declared.call.Call.TheVariants as call;

use full_scrape::part;
use ot_base::{Bytes, Minute};
use std::alloc::{AllocError, Global};
use tracker_core::{ConnectionPlan, HttpPlan};
use tracker_model::Tracker;

/// Whether a plan is to tell all torrents.
pub fn asks_for_all(plan: &ConnectionPlan) -> bool
    ensures all { result ≡ true → plan.now ≡ Planned Full }
    ensures bounded { result ≡ false → IsBoundedConnection plan.now }
{
    matches!(plan, ConnectionPlan::Planned(HttpPlan::Full))
}

/// How many buckets a tracker has.
pub fn bucket_count<T: Tracker>(tracker: &T) -> u32
    ensures { result ≡ 2 ^ T.bits tracker.now }
{
    1 << tracker.bits()
}

/// Scans a bucket, and gives the text of its rows: what the reply has of this bucket. Where there
/// is no memory for the rows or for their text, the scan was made.
pub fn full_part<T: Tracker>(
    alloc: Global,
    tracker: &mut T,
    bucket: u32,
    minute: Minute,
) -> Result<Bytes, AllocError>
    requires within { bucket < 2 ^ T.bits tracker.old }
    ensures settings { T.settings tracker.new ≡ T.settings tracker.old }
    ensures bits { T.bits tracker.new ≡ T.bits tracker.old }
    ensures told { IfOk result (λ text. (rows : List Row)
        × T.made tracker.old bucket minute call.Scan (answer.Rows rows) tracker.new
        × (text ≡ flat_map row_text rows)) }
    ensures scanned { OnErr result ((found : Answer)
        × T.made tracker.old bucket minute call.Scan found tracker.new) }
{
    let rows = tracker.scan(bucket, minute)?;
    part(alloc, &rows)
}
