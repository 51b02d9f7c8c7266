//! What is done where the cleaner goes over the buckets.

ghost use Rattle.std.specs.Prelude.{◌≡◌};
ghost use Rattle.tracker_model.specs.Placed.{on_each_bucket};
ghost use Rattle.tracker_model.specs.declared.call.Call.TheVariants.{Clean};
ghost use Rattle.request_handler.specs.Cleaning.{held_sum};
ghost use Rattle.request_handler.specs.Making.{Gives};

use crate::full::bucket_count;
use ot_base::Minute;
use tracker_model::Tracker;

/// Cleans all buckets at a minute, from bucket 0 on, and tells how many peers are left in all.
pub fn clean_all<T: Tracker>(tracker: &mut T, minute: Minute) -> u128
    ensures settings { T.settings tracker.new ≡ T.settings tracker.old }
    ensures bits { T.bits tracker.new ≡ T.bits tracker.old }
    ensures cleaned { Gives T.made minute tracker.old (on_each_bucket (T.bits tracker.old) Clean)
        held_sum tracker.new result }
{
    let mut left = 0;
    'buckets: for bucket in 0..bucket_count(tracker) {
        left += u128::from(tracker.clean(bucket, minute));
    }
    left
}
