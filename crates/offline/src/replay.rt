//! Replay of a trace: what the tracker answers to each of its records.

use crate::answerer::Answerer;
use crate::command::Fault;
use crate::phase::Phase;
use lines::{Replies, Responder, Trouble};
use ot_io::{ReplaySettings, Sink};
use std::alloc::{AllocError, Global};
use std::marker::Model;

/// A replay of a trace: a tracker, and what the next line is taken for. Contracts see these two and
/// the settings.
#[derive(Drop)]
pub struct Replay {
    phase: Phase,
    answerer: Answerer,
}

impl Model for Replay {
    ghost use Rattle.offline.specs.Follows.{IsShelfOf, Situation};

    ghost Value = { Situation };

    ghost view = { λ r. record {
      settings = r.answerer.settings;
      phase = r.phase;
      shelf = r.answerer.shelf;
    } };

    ghost invariant = { λ r. IsShelfOf r.answerer.settings r.answerer.shelf };
}

impl Replay {
    ghost use Rattle.std.specs.Prelude.{◌≡◌, IfOk};
    ghost use Rattle.bucket.specs.Shelf.{AllStand};
    ghost use Rattle.offline.specs.Command.{IsOffered};
    ghost use Rattle.offline.specs.Follows.{IsShelfOf, phase_before};
    ghost use Rattle.offline.specs.Replay.{no_calls};

    /// A replay before its first line.
    pub fn new(alloc: Global, settings: &ReplaySettings) -> Result<Replay, AllocError>
        requires { IsOffered settings.now }
        ensures settings { IfOk result (λ replay. replay.settings ≡ settings.now) }
        ensures phase { IfOk result (λ replay. replay.phase ≡ phase_before settings.now.access) }
        ensures shelf { IfOk result (λ replay. IsShelfOf settings.now replay.shelf) }
        ensures stand { IfOk result (λ replay. AllStand (no_calls settings.now.bits) replay.shelf) }
    {
        Ok(Replay {
            phase: Phase::new(alloc, settings.access),
            answerer: Answerer::new(alloc, settings)?,
        })
    }
}

impl Responder for Replay {
    ghost use Rattle.offline.specs.Follows.{Follows, RefusesLine, EndRefusedAt, MayEndAt};

    type Fault = Fault;

    ghost answers = { Follows };

    ghost refuses = { RefusesLine };

    ghost may_end = { MayEndAt };

    ghost refuses_end = { EndRefusedAt };

    fn respond<O: Sink>(
        &mut self,
        line: &[u8],
        replies: &mut Replies,
        out: &mut O,
    ) -> Result<(), Trouble<Fault>> {
        match &self.phase {
            Phase::Listing(_) => self.phase.take_list_line(line),
            Phase::Answering(access) => self.answerer.answer(access.as_ref(), line, replies, out),
        }
    }

    fn end(&self) -> Result<(), Fault> {
        self.phase.may_end()
    }
}
