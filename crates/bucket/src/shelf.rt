//! The buckets of a tracker, as one thread has them alone.

ghost use Rattle.std.specs.Prelude.{◌≡◌, ◌≤◌, ◌<◌, ◌^◌};
ghost use Rattle.tracker_model.specs.Placed.{bucket_in};
ghost use Rattle.tracker_model.specs.declared.answer.Answer.TheVariants.{Cleaned, Stats};
ghost use Rattle.tracker_model.specs.declared.call.Call.TheVariants.{Clean, Scan, Scrape};

use crate::Bucket;
use ot_base::{Counts, InfoHash, Limits, Minute, Peers, Rows, bucket_of};
use std::alloc::{AllocError, Global};
use std::marker::Model;
use tracker_model::{Answer, Call, ReportAnswer, Tracker};

/// All buckets of a tracker, 2^`bits` of them, for one thread. A torrent's bucket is the one of the
/// number that the first `bits` bits of its hash make, and each call is made by caller 0.
#[derive(Drop)]
pub struct Shelf {
    /// How many bits of a hash tell its bucket, at most 10.
    bits: u32,
    limits: Limits,
    sync: bool,
    buckets: Vec<Bucket>,
}

impl Model for Shelf {
    ghost use Rattle.bucket.specs.Shelf.{IsShelf, ShelfShape};

    ghost Value = { ShelfShape };

    ghost view = { λ s. record {
      bits = s.bits;
      settings = record { limits = s.limits; sync = s.sync };
      buckets = s.buckets.items;
    } };

    ghost invariant = { λ s. IsShelf (record {
      bits = s.bits;
      settings = record { limits = s.limits; sync = s.sync };
      buckets = s.buckets.items;
    }) };
}

impl Shelf {
    ghost use Rattle.std.specs.Prelude.{[], All, IfOk, List, length, replicate, true};
    ghost use Rattle.tracker_model.specs.Calls.{IsWellFormed, names_torrent};
    ghost use Rattle.tracker_model.specs.Kinds.{IsKindOf};
    ghost use Rattle.tracker_model.specs.Placed.{bucket_for};
    ghost use Rattle.tracker_model.specs.Settings.{AreLimits, Settings};
    ghost use Rattle.bucket.specs.Public.{IsChosen, IsCleaned, KeepsOrder};
    ghost use Rattle.bucket.specs.Shelf.{AllStand, AreAlike, IsPlacedIn, IsShelf, MadeOnShelf, bucket_at};

    /// A shelf of 2^`bits` buckets of which nothing has been asked.
    pub fn new(alloc: Global, bits: u32, limits: Limits, sync: bool) -> Result<Self, AllocError>
        requires few { bits ≤ 10 }
        requires limits { AreLimits limits }
        ensures bits { IfOk result (λ shelf. shelf.bits ≡ bits) }
        ensures settings { IfOk result (λ shelf. shelf.settings ≡
            record { limits = limits; sync = sync }) }
        ensures stands { IfOk result (λ shelf. AllStand (replicate (2 ^ bits) []) shelf) }
        ensures empty { IfOk result (λ shelf.
            All (λ bucket. bucket.torrents ≡ []) shelf.buckets) }
    {
        let mut buckets = Vec::new(alloc);
        for _ in 0..buckets_of_bits(bits) {
            buckets.push(Bucket::new(alloc, limits, sync)?)?;
        }
        Ok(Shelf {
            bits,
            limits,
            sync,
            buckets,
        })
    }

    /// A shelf of these 2^`bits` buckets, in their order. It takes no memory.
    pub fn of_buckets(bits: u32, buckets: Vec<Bucket>) -> Self
        requires few { bits ≤ 10 }
        requires full { length buckets.items ≡ 2 ^ bits }
        requires alike { AreAlike buckets.items }
        ensures bits { result.bits ≡ bits }
        ensures settings { (g : Settings) → All (λ bucket. bucket.settings ≡ g) buckets.items →
            result.settings ≡ g }
        ensures buckets { result.buckets ≡ buckets.items }
    {
        let limits = buckets[0].limits();
        let sync = buckets[0].is_synced();
        Shelf {
            bits,
            limits,
            sync,
            buckets,
        }
    }

    /// Makes a call that names a torrent on that torrent's bucket.
    pub fn call(&mut self, minute: Minute, call: Call, words: &[u32; 200]) -> Answer
        requires formed { IsWellFormed call }
        requires named { names_torrent call ≡ true }
        ensures settings { self.new.settings ≡ self.old.settings }
        ensures bits { self.new.bits ≡ self.old.bits }
        ensures kind { IsKindOf self.old.settings call result }
        ensures made { MadeOnShelf self.old (bucket_for (bucket_in self.old.bits) call) minute call
            result self.new }
        ensures chosen { let bucket = bucket_for (bucket_in self.old.bits) call in
            IsChosen words.now (bucket_at self.new bucket) call result }
        ensures order { let bucket = bucket_for (bucket_in self.old.bits) call in
            KeepsOrder call (bucket_at self.old bucket) (bucket_at self.new bucket) }
    {
        let bucket = self.bucket_for(&call);
        self.buckets[bucket].call(0, minute, call, words)
    }

    /// Makes a call on a bucket: it answers, and changes, as a bucket alone does. Where the call
    /// names a torrent, it has to be one of that bucket.
    pub fn call_in(&mut self, bucket: u32, minute: Minute, call: Call, words: &[u32; 200]) -> Answer
        requires within { bucket < 2 ^ self.old.bits }
        requires placed { IsPlacedIn (bucket_in self.old.bits) bucket call }
        requires formed { IsWellFormed call }
        ensures settings { self.new.settings ≡ self.old.settings }
        ensures bits { self.new.bits ≡ self.old.bits }
        ensures kind { IsKindOf self.old.settings call result }
        ensures made { MadeOnShelf self.old bucket minute call result self.new }
        ensures chosen { IsChosen words.now (bucket_at self.new bucket) call result }
        ensures order { KeepsOrder call (bucket_at self.old bucket) (bucket_at self.new bucket) }
        ensures cleaned { IsCleaned call (bucket_at self.new bucket) }
    {
        self.buckets[bucket as usize].call(0, minute, call, words)
    }

    /// How many bits of a hash tell its bucket.
    pub fn bits(&self) -> u32
        ensures bits { result ≡ self.now.bits }
        ensures shelf { IsShelf self.now }
    {
        self.bits
    }

    /// The bucket of a number.
    pub fn bucket(&self, i: u32) -> &Bucket
        requires { i < 2 ^ self.now.bits }
        ensures { result.now ≡ bucket_at self.now i }
    {
        &self.buckets[i as usize]
    }

    /// The number of the bucket of a torrent that a call names. The calls that name none have 0.
    fn bucket_for(&self, call: &Call) -> usize
        ensures bucket { result ≡ bucket_for (bucket_in self.now.bits) call.now }
        ensures within { result < 2 ^ self.now.bits }
    {
        match call {
            Call::Announce { hash, .. }
            | Call::Stop { hash, .. }
            | Call::Scrape { hash }
            | Call::Sync { hash, .. } => place_of(*hash, self.bits),
            Call::Scan | Call::Clean | Call::Drain => 0,
        }
    }
}

/// The place of a torrent's bucket among 2^`bits` of them.
fn place_of(hash: InfoHash, bits: u32) -> usize
    requires { bits ≤ 10 }
    ensures bucket { result ≡ bucket_in bits hash }
    ensures within { result < 2 ^ bits }
{
    bucket_of(&hash, bits) as usize
}

/// How many buckets the bits tell apart.
fn buckets_of_bits(bits: u32) -> u32
    requires { bits ≤ 10 }
    ensures { result ≡ 2 ^ bits }
{
    1 << bits
}

impl Tracker for Shelf {
    ghost use Rattle.bucket.specs.Shelf.{MadeOnShelf};

    ghost settings = { λ shelf. shelf.settings };

    ghost bits = { λ shelf. shelf.bits };

    ghost made = { λ old bucket minute call answer new.
        MadeOnShelf old bucket minute call answer new };

    fn bits(&self) -> u32 {
        self.bits
    }

    fn report(
        &mut self,
        minute: Minute,
        call: Call,
        words: &[u32; 200],
        told: &mut Peers,
    ) -> ReportAnswer {
        let bucket = self.bucket_for(&call);
        self.buckets[bucket].report(0, minute, call, words, told)
    }

    fn scrape(&mut self, minute: Minute, hash: &InfoHash) -> (Counts, bool) {
        let bucket = place_of(*hash, self.bits);
        self.buckets[bucket].scrape(0, minute, hash)
    }

    fn scan(&mut self, bucket: u32, minute: Minute) -> Result<Rows, AllocError> {
        self.buckets[bucket as usize].scan(0, minute)
    }

    fn clean(&mut self, bucket: u32, minute: Minute) -> u64 {
        self.buckets[bucket as usize].clean(0, minute)
    }
}
