//! Writing what a node tells the others.

ghost use Rattle.std.specs.Prelude.{◌≡◌, ◌+◌, ◌≤◌, ◌++◌, All, take, length};
ghost use Rattle.std.specs.Int.{w32, to_be_bytes};
ghost use Rattle.sync_wire.specs.Batches.{AreOfOneFamily, head_bytes, batch_bytes};
ghost use Rattle.sync_wire.specs.Notes.{IsTellable, flag_of, note_bytes};

use crate::batch::NOTES;
use crate::field::{put, put_u32};
use ot_base::{Addr, Mark, Note};

/// How many bytes a datagram may have.
pub const BATCH_ROOM: usize = 2048;

/// The kind of a batch of IPv4.
pub const KIND: u32 = 4;

/// The flag of a seed.
pub const SEED: u8 = 0x80;
/// The flag of an endpoint that has stopped.
pub const STOPPED: u8 = 0x20;
/// The flag of a leecher.
pub const LEECHER: u8 = 0;

/// Writes the datagram of a node's notes, 1 to 50 of them, all of one family, which for now is
/// IPv4; no port is 0. Gives its length in bytes, and leaves it at the front of the buffer.
#[tactic(auto, unfolding(crate::specs::Batches::batch_bytes))]
pub fn write_batch(node: u32, notes: &[Note], out: &mut [u8; BATCH_ROOM]) -> usize
    requires some { 1 ≤ length notes.now }
    requires room { length notes.now ≤ NOTES }
    requires family { AreOfOneFamily notes.now }
    requires tellable { All IsTellable notes.now }
    ensures datagram { take result out.new ≡ batch_bytes node notes.now }
    ensures fits { result ≤ BATCH_ROOM }
{
    let mut place = put_head(out, node);
    for note in notes {
        place = put_note(out, place, *note);
    }
    place
}

/// Writes what stands before the notes.
fn put_head(out: &mut [u8; BATCH_ROOM], node: u32) -> usize
    ensures end { result ≡ 8 }
    ensures text { take result out.new ≡ head_bytes node }
{
    let place = put_u32(out, 0, node);
    put_u32(out, place, KIND)
}

/// Writes a note.
fn put_note(out: &mut [u8; BATCH_ROOM], place: usize, note: Note) -> usize
    requires room { place + 40 ≤ BATCH_ROOM }
    requires tellable { IsTellable note }
    ensures end { result ≡ place + 28 }
    ensures text { take result out.new ≡ take place out.old ++ note_bytes note }
{
    let place = put(out, place, &note.hash.0);
    let place = match note.who.addr {
        Addr::V4(bytes) => put(out, place, &bytes),
        Addr::V6(bytes) => put(out, place, &bytes),
    };
    let place = put(out, place, &note.who.port.to_be_bytes());
    put(out, place, &[mark_flag(note.mark), 0])
}

/// The flag of a mark.
fn mark_flag(mark: Mark) -> u8
    ensures { result ≡ flag_of mark }
{
    match mark {
        Mark::Seed => SEED,
        Mark::Stopped => STOPPED,
        Mark::Leecher => LEECHER,
    }
}
