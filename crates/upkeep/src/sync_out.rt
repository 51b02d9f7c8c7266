//! What a node tells the others of one bucket.

ghost use Rattle.std.specs.Prelude.{◌≡◌, ◌<◌, ◌≤◌, ◌^◌, All, length, map};
ghost use Rattle.shards.specs.Passing.{MadeByPass};
ghost use Rattle.sync_wire.specs.Batches.{AreOfOneFamily, batch_bytes};
ghost use Rattle.sync_wire.specs.Notes.{IsTellable};
ghost use Rattle.tracker_model.specs.declared.answer.Answer.TheVariants.{Drained};
ghost use Rattle.tracker_model.specs.declared.call.Call.TheVariants.{Drain};
ghost use Rattle.upkeep.specs.Telling.{AreSent, SendsCounted, TellsNotes};
ghost use Rattle.upkeep.specs.Telling.{outgoing, sent_of, to_each};

use crate::NO_WORDS;
use ot_base::{Endpoint, Minute, Note, Notes};
use ot_io::{NODES, Sent, Wire};
use shards::{Pass, Shards};
use std::sync::Wait;
use sync_wire::{BATCH_ROOM, NOTES, batch_len, write_batch};
use tracker_model::{Answer, Call, OUTBOX_NOTES};

/// What became of the notes of a bucket.
#[derive(Clone, Copy, Debug, PartialEq, Eq)]
pub enum SyncOut {
    /// All were sent, in so many datagrams, one for each batch and node. So many more notes had
    /// been dropped, since there were too many.
    Sent { datagrams: u32, dropped: u32 },
    /// The outside failed after so many datagrams. The other notes are lost.
    SendFault { datagrams: u32 },
}

/// Takes the notes out of a bucket and sends them: in batches, in order, each to every node, in
/// their order, before the next. It ends at the first datagram that can't be sent. It takes no
/// memory.
pub fn sync_out_turn<R: Wait, W: Wire>(
    rt: &R,
    shards: &Shards,
    pass: &mut Pass,
    wire: &mut W,
    own: u32,
    nodes: &[Endpoint],
    bucket: u32,
    minute: Minute,
) -> SyncOut
    requires pass { pass.old.shards ≡ shards.now }
    requires within { bucket < 2 ^ shards.now.bits }
    requires few { length nodes.now ≤ NODES }
    ensures tells { TellsNotes own nodes.now bucket minute pass.old pass.new
        (W.traffic wire.old) (W.traffic wire.new) result }
    ensures faults { SendsCounted (W.faults wire.old) (W.faults wire.new) (sent_of result) }
    ensures idles { W.idles wire.new ≡ W.idles wire.old }
{
    let (notes, dropped) = drain(rt, shards, pass, bucket, minute);
    match send_notes(wire, own, nodes, notes.as_slice()) {
        Ok(datagrams) => SyncOut::Sent { datagrams, dropped },
        Err(datagrams) => SyncOut::SendFault { datagrams },
    }
}

/// Takes the notes out of a bucket: those that it kept, and how many it had dropped.
fn drain<R: Wait>(
    rt: &R,
    shards: &Shards,
    pass: &mut Pass,
    bucket: u32,
    minute: Minute,
) -> (Notes, u32)
    requires pass { pass.old.shards ≡ shards.now }
    requires within { bucket < 2 ^ shards.now.bits }
    ensures made { MadeByPass pass.old bucket minute Drain (Drained result.0 result.1) pass.new }
    ensures tellable { All IsTellable result.0 }
    ensures few { length result.0 ≤ OUTBOX_NOTES }
{
    let done = shards.call_in(rt, pass, bucket, minute, Call::Drain, NO_WORDS);
    match done.answer {
        Answer::Drained { notes, dropped } => (notes, dropped),
        _ => unreachable!(),
    }
}

/// Sends notes to every node, batch after batch. Gives the number of datagrams, as an error where
/// one couldn't be sent after so many.
fn send_notes<W: Wire>(
    wire: &mut W,
    own: u32,
    nodes: &[Endpoint],
    notes: &[Note],
) -> Result<u32, u32>
    requires few_nodes { length nodes.now ≤ NODES }
    requires tellable { All IsTellable notes.now }
    requires few_notes { length notes.now ≤ OUTBOX_NOTES }
    ensures sent { AreSent (outgoing own nodes.now notes.now)
        (W.traffic wire.old) (W.traffic wire.new) result }
    ensures faults { SendsCounted (W.faults wire.old) (W.faults wire.new) result }
    ensures idles { W.idles wire.new ≡ W.idles wire.old }
{
    let mut count = 0;
    let mut left = notes;
    while !left.is_empty() {
        let (batch, behind) = left.split_at(batch_len(left));
        match send_batch(wire, own, nodes, batch) {
            Ok(sent) => count += sent,
            Err(sent) => return Err(count + sent),
        }
        left = behind;
    }
    Ok(count)
}

/// The same for the notes of one datagram.
fn send_batch<W: Wire>(
    wire: &mut W,
    own: u32,
    nodes: &[Endpoint],
    batch: &[Note],
) -> Result<u32, u32>
    requires few_nodes { length nodes.now ≤ NODES }
    requires some { 1 ≤ length batch.now }
    requires room { length batch.now ≤ NOTES }
    requires family { AreOfOneFamily batch.now }
    requires tellable { All IsTellable batch.now }
    ensures sent { AreSent (to_each nodes.now (batch_bytes own batch.now))
        (W.traffic wire.old) (W.traffic wire.new) result }
    ensures faults { SendsCounted (W.faults wire.old) (W.faults wire.new) result }
    ensures idles { W.idles wire.new ≡ W.idles wire.old }
{
    let mut room = [0; BATCH_ROOM];
    let len = write_batch(own, batch, &mut room);
    send_to_each(wire, nodes, &room[..len])
}

/// The same for one datagram's bytes.
fn send_to_each<W: Wire>(wire: &mut W, nodes: &[Endpoint], bytes: &[u8]) -> Result<u32, u32>
    requires few { length nodes.now ≤ NODES }
    ensures sent { AreSent (to_each nodes.now bytes.now)
        (W.traffic wire.old) (W.traffic wire.new) result }
    ensures faults { SendsCounted (W.faults wire.old) (W.faults wire.new) result }
    ensures idles { W.idles wire.new ≡ W.idles wire.old }
{
    let mut count = 0;
    for node in nodes {
        match wire.send(*node, bytes) {
            Sent::Done => count += 1,
            Sent::Failed => return Err(count),
        }
    }
    Ok(count)
}
