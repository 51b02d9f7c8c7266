//! What a node does where another tells it something.

ghost use Rattle.std.specs.Prelude.{◌≡◌, List, length, map};
ghost use Rattle.std.specs.List.{AllByRecursion};
ghost use Rattle.sync_wire.specs.Notes.{IsTellable};
ghost use Rattle.tracker_model.specs.Grows.{GrowsAmong};
ghost use Rattle.tracker_model.specs.Placed.{bucket_in, moves_of, placed_calls};
ghost use Rattle.tracker_model.specs.declared.answer.Answer.{Answer};
ghost use Rattle.upkeep.specs.Hearing.{AnswersNotes, HearsCounted, HearsTurn, IdlesOnHearing};
ghost use Rattle.upkeep.specs.Hearing.{is_full, is_wanting};

use crate::NO_WORDS;
use crate::nodes::is_among;
use ot_base::{Endpoint, Minute, Note};
use ot_io::{DATAGRAM_LEN, Recv, Wire};
use shards::{Pass, Shards};
use std::sync::Wait;
use sync_wire::{NoteBatch, SyncFault, read};
use tracker_model::{Answer, Call};

/// What was done for a datagram of another node.
#[derive(Clone, Copy, Debug, PartialEq, Eq)]
pub enum SyncIn {
    /// None waits.
    Idle,
    /// The outside failed as one was to be received.
    RecvFault,
    /// It came from where no node is, and wasn't read.
    Stranger { from: Endpoint },
    /// It is none that a node sends.
    Refused(SyncFault),
    /// A call was made for each note. So many of them were answered that the torrent or the bucket
    /// is full.
    Applied { calls: u32, full: u32 },
    /// There was no memory for a call after so many, and the notes behind it were left out.
    NoMemory { calls: u32 },
}

/// Receives one datagram, and where a node sent it makes a call for each of its notes, in order, up
/// to the first for which there is no memory.
pub fn sync_in_turn<R: Wait, W: Wire>(
    rt: &R,
    shards: &Shards,
    pass: &mut Pass,
    wire: &mut W,
    own: u32,
    nodes: &[Endpoint],
    minute: Minute,
) -> SyncIn
    requires pass { pass.old.shards ≡ shards.now }
    ensures hears { HearsTurn own nodes.now minute pass.old pass.new
        (W.traffic wire.old) (W.traffic wire.new) result }
    ensures pass { pass.new ≡ record pass.old { seen = pass.new.seen } }
    ensures faults { HearsCounted (W.faults wire.old) (W.faults wire.new) result }
    ensures idles { IdlesOnHearing (W.idles wire.old) (W.idles wire.new) result }
{
    let mut room = [0; DATAGRAM_LEN];
    let (len, from) = match wire.recv(&mut room) {
        Recv::Got { len, from } => (len, from),
        Recv::Idle => return SyncIn::Idle,
        Recv::Failed => return SyncIn::RecvFault,
    };
    if !is_among(nodes, &from) {
        return SyncIn::Stranger { from };
    }
    match read(own, &room[..len]) {
        Ok(batch) => apply(rt, shards, pass, minute, &batch),
        Err(fault) => SyncIn::Refused(fault),
    }
}

/// Makes a call for each note of a batch, in order, up to the first for which there is no memory.
fn apply<R: Wait>(
    rt: &R,
    shards: &Shards,
    pass: &mut Pass,
    minute: Minute,
    batch: &NoteBatch,
) -> SyncIn
    requires pass { pass.old.shards ≡ shards.now }
    requires tellable { AllByRecursion IsTellable batch.now.notes }
    ensures applied { AnswersNotes minute pass.old pass.new batch.now.notes result }
    ensures pass { pass.new ≡ record pass.old { seen = pass.new.seen } }
{
    let mut calls = 0;
    let mut full = 0;
    for note in batch.as_slice() {
        let call = Call::Sync {
            hash: note.hash,
            who: note.who,
            mark: note.mark,
        };
        let answer = shards.call(rt, pass, minute, call, NO_WORDS).answer;
        if is_wanting(&answer) {
            return SyncIn::NoMemory { calls };
        }
        full += u32::from(is_full(&answer));
        calls += 1;
    }
    SyncIn::Applied { calls, full }
}

/// Whether an answer says that the torrent or the bucket is full.
fn is_full(answer: &Answer) -> bool
    ensures { result ≡ is_full answer.now }
{
    matches!(answer, Answer::SwarmFull { .. } | Answer::BucketFull { .. })
}

/// Whether an answer says that there was no memory.
fn is_wanting(answer: &Answer) -> bool
    ensures { result ≡ is_wanting answer.now }
{
    matches!(answer, Answer::NoMemory)
}
