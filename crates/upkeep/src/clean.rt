//! The cleaning of one bucket.

ghost use Rattle.std.specs.Prelude.{◌≡◌, ◌<◌, ◌^◌};
ghost use Rattle.shards.specs.Passing.{MadeByPass};
ghost use Rattle.tracker_model.specs.declared.answer.Answer.TheVariants.{Cleaned};
ghost use Rattle.tracker_model.specs.declared.call.Call.TheVariants.{Clean};

use ot_base::Minute;
use shards::{Pass, Seat, Shards};
use std::sync::Wait;
use tracker_model::Tracker;

/// Drops from a bucket what is no longer live or known, and tells how many peers are left in it. It
/// takes no memory.
pub fn clean_turn<R: Wait>(
    rt: &R,
    shards: &Shards,
    pass: &mut Pass,
    bucket: u32,
    minute: Minute,
) -> u64
    requires pass { pass.old.shards ≡ shards.now }
    requires within { bucket < 2 ^ shards.now.bits }
    ensures { MadeByPass pass.old bucket minute Clean (Cleaned result) pass.new }
{
    let mut seat = Seat { rt, shards, pass };
    seat.clean(bucket, minute)
}
