//! Calls.

ghost use Rattle.std.specs.Prelude.{◌≡◌, ◌<◌, ◌≤◌, ◌^◌, ◌+◌, length, true};
ghost use Rattle.ot_base.specs.Hash.{first_bits};
ghost use Rattle.shards.specs.Passing.{MadeByPass};
ghost use Rattle.shards.specs.Shape.{KnowsNumbers};
ghost use Rattle.tracker_model.specs.Calls.{IsWellFormed, names_torrent};
ghost use Rattle.tracker_model.specs.Grows.{history_at};
ghost use Rattle.tracker_model.specs.Kinds.{IsKindOf};
ghost use Rattle.tracker_model.specs.Placed.{bucket_for, bucket_in};

use crate::pass::Pass;
use crate::shards::Shards;
use ot_base::{InfoHash, Minute, bucket_of};
use std::sync::Wait;
use tracker_model::{Answer, Call};

/// What a call gives.
#[derive(Drop)]
pub struct Done {
    /// The bucket that it was made on, from 0 on.
    pub bucket: u32,
    /// The call's place in the bucket's history, from 0 on.
    pub place: u64,
    pub answer: Answer,
}

impl Shards {
    /// Makes a call that names a torrent on that torrent's bucket, in its turn. The bucket's
    /// history goes on with calls of others, of which none is joined to the pass, and then with
    /// this one, which is answered right just there. An announce is told the peers that `words`
    /// choose.
    // Both are inlined: an answer that came out of a function would be moved once more, and answers
    // are large.
    #[inline(always)]
    pub fn call<R: Wait>(
        &self,
        rt: &R,
        pass: &mut Pass,
        minute: Minute,
        call: Call,
        words: &[u32; 200],
    ) -> Done
        requires pass { pass.old.shards ≡ self.now }
        requires formed { IsWellFormed call }
        requires named { names_torrent call ≡ true }
        ensures bucket { result.bucket ≡ bucket_for (bucket_in self.now.bits) call }
        ensures kind { IsKindOf self.now.settings call result.answer }
        ensures made { MadeByPass pass.old result.bucket minute call result.answer pass.new }
        ensures place { result.place + 1 ≡ length (history_at pass.new.seen result.bucket) }
        ensures known { KnowsNumbers pass.new }
    {
        let bucket = place_of(self.bits, &call);
        self.call_in(rt, pass, bucket, minute, call, words)
    }

    /// The same on a named bucket, and for calls that name no torrent too. A torrent that is named
    /// has to belong to the bucket.
    #[inline(always)]
    pub fn call_in<R: Wait>(
        &self,
        rt: &R,
        pass: &mut Pass,
        bucket: u32,
        minute: Minute,
        call: Call,
        words: &[u32; 200],
    ) -> Done
        requires pass { pass.old.shards ≡ self.now }
        requires within { bucket < 2 ^ self.now.bits }
        requires formed { IsWellFormed call }
        requires belongs { names_torrent call ≡ true →
            bucket ≡ bucket_for (bucket_in self.now.bits) call }
        ensures bucket { result.bucket ≡ bucket }
        ensures kind { IsKindOf self.now.settings call result.answer }
        ensures made { MadeByPass pass.old bucket minute call result.answer pass.new }
        ensures place { result.place + 1 ≡ length (history_at pass.new.seen bucket) }
        ensures known { KnowsNumbers pass.new }
    {
        let lock = &self.locks[bucket as usize];
        let turn = &mut pass.turns[bucket as usize];
        let mut kept = lock.take(rt, turn);
        let mut done = Done {
            bucket,
            place: 0,
            answer: kept.call(pass.caller, minute, call, words),
        };
        done.place = lock.give(turn, kept, minute, &call, &done.answer);
        done
    }
}

/// The bucket of the torrent that a call names, and 0 where it names none.
pub(crate) fn place_of(bits: u32, call: &Call) -> u32
    requires { bits ≤ 10 }
    ensures place { result ≡ bucket_for (bucket_in bits) call.now }
    ensures within { result < 2 ^ bits }
{
    match call {
        Call::Announce { hash, .. }
        | Call::Stop { hash, .. }
        | Call::Scrape { hash }
        | Call::Sync { hash, .. } => place_in(*hash, bits),
        Call::Scan | Call::Clean | Call::Drain => 0,
    }
}

/// The bucket of a torrent.
pub(crate) fn place_in(hash: InfoHash, bits: u32) -> u32
    requires { bits ≤ 10 }
    ensures place { result ≡ bucket_in bits hash }
    ensures within { result < 2 ^ bits }
{
    bucket_of(&hash, bits)
}
