//! A seat: shards with a pass, as a tracker.

ghost use Rattle.std.specs.Prelude.{◌≡◌};

use crate::call::place_of;
use crate::pass::Pass;
use crate::shards::Shards;
use ot_base::{Counts, InfoHash, Minute, Peers, Rows};
use std::alloc::AllocError;
use std::sync::Wait;
use tracker_model::{Answer, Call, ReportAnswer, Tracker};
use turn_lock::AsAnswer;

/// What one caller has of the shards, while it makes calls: its pass.
#[derive(Drop)]
pub struct Seat<'a, R> {
    pub rt: &'a R,
    pub shards: &'a Shards,
    pub pass: &'a mut Pass,
    ghost of_shards: { pass.now.shards ≡ shards.now },
}

/// What a report is answered, with the peers that it is told.
#[derive(Clone, Copy)]
struct Reported<'a> {
    answer: ReportAnswer,
    told: &'a Peers,
}

impl AsAnswer for Reported<'_> {
    ghost use Rattle.tracker_model.specs.Answers.{with_peers};

    ghost answer = { λ reported. with_peers reported.told.now reported.answer };
}

impl<R: Wait> Tracker for Seat<'_, R> {
    ghost use Rattle.shards.specs.Passing.{MadeByPass};

    ghost settings = { λ seat. seat.shards.now.settings };

    ghost bits = { λ seat. seat.shards.now.bits };

    ghost made = { λ old bucket minute call answer new.
        (new.pass.ghost_name ≡ old.pass.ghost_name)
        × MadeByPass old.pass.now bucket minute call answer new.pass.now };

    fn bits(&self) -> u32 {
        let shards = self.shards;
        shards.bits
    }

    fn report(
        &mut self,
        minute: Minute,
        call: Call,
        words: &[u32; 200],
        told: &mut Peers,
    ) -> ReportAnswer {
        let shards = self.shards;
        let pass = &mut *self.pass;
        let bucket = place_of(shards.bits, &call);
        let lock = &shards.locks[bucket as usize];
        let turn = &mut pass.turns[bucket as usize];
        let mut kept = lock.take(self.rt, turn);
        let answer = kept.report(pass.caller, minute, call, words, told);
        lock.give(turn, kept, minute, &call, &Reported { answer, told });
        answer
    }

    fn scrape(&mut self, minute: Minute, hash: &InfoHash) -> (Counts, bool) {
        self.shards.scrape(self.rt, self.pass, minute, hash)
    }

    fn scan(&mut self, bucket: u32, minute: Minute) -> Result<Rows, AllocError> {
        match self
            .shards
            .call_in(self.rt, self.pass, bucket, minute, Call::Scan, NO_WORDS)
            .answer
        {
            Answer::Rows { rows } => Ok(rows),
            Answer::NoMemory => Err(AllocError),
            _ => unreachable!(),
        }
    }

    fn clean(&mut self, bucket: u32, minute: Minute) -> u64 {
        match self
            .shards
            .call_in(self.rt, self.pass, bucket, minute, Call::Clean, NO_WORDS)
            .answer
        {
            Answer::Cleaned { held } => held,
            _ => unreachable!(),
        }
    }
}

/// A call that is told no peers reads none.
const NO_WORDS: &[u32; 200] = &[0; 200];
