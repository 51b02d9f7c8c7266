//! The scans behind a phase.

ghost use Rattle.std.specs.Prelude.{◌≡◌, ◌^◌, ◌+◌, ◌≤◌, ◌<◌, ◌∷◌, IfOk, reverse};
ghost use Rattle.tracker_model.specs.Counted.{rows_of};
ghost use Rattle.tracker_model.specs.Grows.{history_at};
ghost use Rattle.shards.specs.Shape.{KnowsNumbers};
ghost use Rattle.load_model.specs.Sums.{IsWithin};
ghost use Rattle.load_model.specs.Text.{totals_of};
ghost use Rattle.drill.specs.Scanning.{AreScanned, IsScanOf};

use load_model::Totals;
use ot_base::{Minute, Rows};
use shards::{Pass, Shards};
use std::alloc::AllocError;
use std::sync::Wait;
use tracker_model::{Answer, Call};

/// Scans each bucket once, in order, and adds up what the scans tell. There may be no memory for
/// the rows of one.
pub fn scan_all<R: Wait>(
    rt: &R,
    shards: &Shards,
    pass: &mut Pass,
    bits: u32,
    minute: Minute,
) -> Result<Totals, AllocError>
    requires pass { pass.old.shards ≡ shards.now }
    requires bits { shards.now.bits ≡ bits }
    requires few { bits ≤ 10 }
    requires known { KnowsNumbers pass.old }
    ensures scanned { IfOk result (λ totals. AreScanned minute (2 ^ bits) totals pass.old pass.new) }
    ensures known { IfOk result (λ totals. KnowsNumbers pass.new) }
{
    let mut totals = Totals::default();
    for bucket in 0..1 << bits {
        let rows = scan(rt, shards, pass, bucket, minute)?;
        totals = totals.plus(Totals::of_rows(rows.as_slice()));
    }
    Ok(totals)
}

/// Scans a bucket.
fn scan<R: Wait>(
    rt: &R,
    shards: &Shards,
    pass: &mut Pass,
    bucket: u32,
    minute: Minute,
) -> Result<Rows, AllocError>
    requires pass { pass.old.shards ≡ shards.now }
    requires within { bucket < 2 ^ shards.now.bits }
    ensures scanned { IfOk result (λ rows. IsScanOf minute bucket rows pass.old pass.new) }
    ensures known { KnowsNumbers pass.new }
{
    let done = shards.call_in(rt, pass, bucket, minute, Call::Scan, &[0; 200]);
    match done.answer {
        Answer::Rows { rows } => Ok(rows),
        Answer::NoMemory => Err(AllocError),
        _ => unreachable!(),
    }
}
