//! The job that cleans.

ghost use Rattle.std.specs.Prelude.{◌≡◌};
ghost use Rattle.tracker_model.specs.declared.call.Call.TheVariants.{Clean};
ghost use Rattle.upkeep.specs.Sweeps.{Sweeps};

use crate::clean::clean_turn;
use ot_base::Minute;
use ot_io::Clock;
use shards::{Pass, Shards};
use std::sync::Wait;
use std::sync::atomic::{AtomicBool, Ordering};

/// Cleans all buckets, one after another: once at its start, once for each further minute that it
/// sees, and once more when it sees the flag up, and then it ends. Between two looks it pauses.
pub fn keep_clean<R: Wait, C: Clock>(
    rt: &R,
    shards: &Shards,
    pass: &mut Pass,
    clock: &mut C,
    stop: &AtomicBool,
)
    requires { pass.old.shards ≡ shards.now }
    ensures { Sweeps Clean pass.old pass.new }
{
    let mut cleaned = Minute::of_seconds(clock.now());
    clean_all(rt, shards, pass, cleaned);
    for _ in rt.forever() {
        clock.pause();
        let ends = stop.load(Ordering::SeqCst);
        let minute = Minute::of_seconds(clock.now());
        if ends || cleaned < minute {
            clean_all(rt, shards, pass, minute);
            cleaned = minute;
        }
        if ends {
            return;
        }
    }
    unreachable!()
}

/// Cleans each bucket once.
fn clean_all<R: Wait>(rt: &R, shards: &Shards, pass: &mut Pass, minute: Minute)
    requires { pass.old.shards ≡ shards.now }
    ensures { Sweeps Clean pass.old pass.new }
{
    for bucket in 0..shards.bucket_count() {
        clean_turn(rt, shards, pass, bucket, minute);
    }
}
