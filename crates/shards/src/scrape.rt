//! Scrapes.

ghost use Rattle.std.specs.Prelude.{◌≡◌};
ghost use Rattle.shards.specs.Passing.{MadeByPass};
ghost use Rattle.shards.specs.Shape.{KnowsNumbers};
ghost use Rattle.tracker_model.specs.Placed.{bucket_in};
ghost use Rattle.tracker_model.specs.declared.answer.Answer.TheVariants.{Stats};
ghost use Rattle.tracker_model.specs.declared.call.Call.TheVariants.{Scrape};

use crate::call::place_in;
use crate::pass::Pass;
use crate::shards::Shards;
use ot_base::{Counts, InfoHash, Minute};
use std::sync::Wait;
use tracker_model::Call;
use turn_lock::AsAnswer;

/// What a scrape is told, without the room that an answer has for peers.
#[derive(Clone, Copy)]
struct Scraped {
    counts: Counts,
    known: bool,
}

impl AsAnswer for Scraped {
    ghost use Rattle.tracker_model.specs.declared.answer.Answer.TheVariants.{Stats};

    ghost answer = { λ told. Stats told.counts told.known };
}

impl Shards {
    /// What `call` answers to a scrape, the torrent's counts and whether it is known, without the
    /// room for an answer's peers.
    pub fn scrape<R: Wait>(
        &self,
        rt: &R,
        pass: &mut Pass,
        minute: Minute,
        hash: &InfoHash,
    ) -> (Counts, bool)
        requires pass { pass.old.shards ≡ self.now }
        ensures made { MadeByPass pass.old (bucket_in self.now.bits hash.now) minute
            (Scrape hash.now) (Stats result.0 result.1) pass.new }
        ensures known { KnowsNumbers pass.new }
    {
        let bucket = place_in(*hash, self.bits);
        let lock = &self.locks[bucket as usize];
        let turn = &mut pass.turns[bucket as usize];
        let mut kept = lock.take(rt, turn);
        let (counts, known) = kept.scrape(pass.caller, minute, hash);
        let call = Call::Scrape { hash: *hash };
        lock.give(turn, kept, minute, &call, &Scraped { counts, known });
        (counts, known)
    }
}
