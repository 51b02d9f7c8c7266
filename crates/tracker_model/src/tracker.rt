//! The buckets of a tracker, as one caller has them.

ghost use Rattle.std.specs.Prelude.{◌≡◌, ◌<◌, ◌≤◌, ◌^◌, [], ℕ};
ghost use Rattle.ot_base.specs.declared.minute.Minute.{Minute};
ghost use Rattle.tracker_model.specs.Answers.{with_peers};
ghost use Rattle.tracker_model.specs.Calls.{IsReport, IsWellFormed};
ghost use Rattle.tracker_model.specs.Kinds.{IsKindOf};
ghost use Rattle.tracker_model.specs.Making.{scanned};
ghost use Rattle.tracker_model.specs.Placed.{bucket_for, bucket_in};
ghost use Rattle.tracker_model.specs.Settings.{Settings};
ghost use Rattle.tracker_model.specs.declared.answer.Answer.{Answer};
ghost use Rattle.tracker_model.specs.declared.answer.Answer.TheVariants.{Cleaned, Stats};
ghost use Rattle.tracker_model.specs.declared.call.Call.{Call};
ghost use Rattle.tracker_model.specs.declared.call.Call.TheVariants.{Clean, Scan, Scrape};

use crate::{Call, ReportAnswer};
use ot_base::{Counts, InfoHash, Minute, Peers, Rows};
use std::alloc::AllocError;

/// The buckets of a tracker, as one caller has them: alone on one thread, or as one of several.
/// What answers requests knows a tracker by these words, and so does the same for every one.
pub trait Tracker {
    /// The settings of each bucket.
    ghost settings: { Self → Settings };

    /// How many bits of a hash tell its bucket.
    ghost bits: { Self → ℕ };

    /// In an old state a call on a bucket may have this answer at this minute, and a new state
    /// follows.
    ghost made: { Self → ℕ → Minute → Call → Answer → Self → Type 0 };

    /// How many bits of a hash tell its bucket, at most 10. There are 2 to that power buckets.
    fn bits(&self) -> u32
        ensures bits { result ≡ bits self.now }
        ensures few { result ≤ 10 };

    /// Makes an announce or a stop on its torrent's bucket. The peers that an announce is told,
    /// those that `words` choose, are added to an empty list.
    fn report(
        &mut self,
        minute: Minute,
        call: Call,
        words: &[u32; 200],
        told: &mut Peers,
    ) -> ReportAnswer
        requires formed { IsWellFormed call }
        requires report { IsReport call }
        requires empty { told.old ≡ [] }
        ensures settings { settings self.new ≡ settings self.old }
        ensures bits { bits self.new ≡ bits self.old }
        ensures kind { IsKindOf (settings self.old) call (with_peers told.new result) }
        ensures made { made self.old (bucket_for (bucket_in (bits self.old)) call) minute call
            (with_peers told.new result) self.new };

    /// Scrapes a torrent: its counts, and whether it is known.
    fn scrape(&mut self, minute: Minute, hash: &InfoHash) -> (Counts, bool)
        ensures settings { settings self.new ≡ settings self.old }
        ensures bits { bits self.new ≡ bits self.old }
        ensures made { made self.old (bucket_in (bits self.old) hash.now) minute
            (Scrape hash.now) (Stats result.0 result.1) self.new };

    /// Scans a bucket: the counts of all its known torrents, ascending by hash.
    fn scan(&mut self, bucket: u32, minute: Minute) -> Result<Rows, AllocError>
        requires within { bucket < 2 ^ bits self.old }
        ensures settings { settings self.new ≡ settings self.old }
        ensures bits { bits self.new ≡ bits self.old }
        ensures made { made self.old bucket minute Scan (scanned result) self.new };

    /// Cleans a bucket, and tells how many peers are left in it.
    fn clean(&mut self, bucket: u32, minute: Minute) -> u64
        requires within { bucket < 2 ^ bits self.old }
        ensures settings { settings self.new ≡ settings self.old }
        ensures bits { bits self.new ≡ bits self.old }
        ensures made { made self.old bucket minute Clean (Cleaned result) self.new };
}
