//! Reading what another node tells. Places and lengths count bytes.

ghost use Rattle.std.specs.Prelude.{◌≡◌, ◌+◌, ◌*◌, ◌≤◌, IfOk, length};
ghost use Rattle.sync_wire.specs.Batches.{IsFromAnother, batch_bytes};
ghost use Rattle.sync_wire.specs.Notes.{mark_of, note_of};
ghost use Rattle.sync_wire.specs.Reading.{is_whole, records_of, notes_of, batch_of};

use crate::batch::{NOTES, NoteBatch};
use crate::field::{u16_at, u32_at};
use crate::writing::{KIND, LEECHER, SEED, STOPPED};
use ot_base::{Addr, Endpoint, InPlace, InfoHash, Mark, Note};

/// The place of the sender's number.
const NODE_PLACE: usize = 0;
/// The place of the kind.
const KIND_PLACE: usize = 4;
/// The length of these two, with which every datagram begins.
const HEAD: usize = 8;

/// The length of a record.
const RECORD: usize = 28;
/// The length of an info hash, with which a record begins.
const HASH: usize = 20;
/// The place of the port in a record, behind the address.
const PORT: usize = 24;
/// The place of the flag.
const FLAG: usize = 26;
/// The place of the last byte, which is zero.
const ZERO: usize = 27;

/// Why a datagram isn't read.
#[derive(Clone, Copy, Debug, PartialEq, Eq, PartialOrd, Ord, Hash)]
pub enum SyncFault {
    /// It has so many bytes, which aren't 8 and then 1 to 50 whole records.
    Length(usize),
    /// Its kind is this one, and not 4.
    Kind(u32),
    /// The reader itself, which has this number, sent it.
    Own(u32),
    /// The record of this number, from 0, is the first whose flag is none, whose port is 0 or whose
    /// last byte isn't 0.
    Flag(u32),
}

/// Reads a datagram of any bytes as the batch that another node than the reader, `own`, sent. It
/// has the first of these faults that it has: too short for a kind, another kind, the reader's own,
/// not 1 to 50 whole records, a wrong record.
#[tactic(auto, unfolding(crate::specs::Reading::fault_of, crate::specs::Reading::batch_of))]
pub fn read(own: u32, bytes: &[u8]) -> Result<NoteBatch, SyncFault>
    ensures value { result ≡ batch_of own bytes.now }
    ensures written { IfOk result (λ batch. IsFromAnother own batch ×
        (bytes.now ≡ batch_bytes batch.node batch.notes)) }
{
    let len = bytes.len();
    if len < HEAD {
        return Err(SyncFault::Length(len));
    }
    let kind = u32_at(bytes, KIND_PLACE);
    if kind != KIND {
        return Err(SyncFault::Kind(kind));
    }
    let node = u32_at(bytes, NODE_PLACE);
    if node == own {
        return Err(SyncFault::Own(own));
    }
    if !is_whole_length(len) {
        return Err(SyncFault::Length(len));
    }
    let notes = read_notes(bytes, (len - HEAD) / RECORD)?;
    Ok(NoteBatch::of(node, notes))
}

/// Whether a datagram of so many bytes has 1 to 50 whole records and no more.
fn is_whole_length(len: usize) -> bool
    ensures { result ≡ is_whole len }
{
    len > HEAD && (len - HEAD) % RECORD == 0 && (len - HEAD) / RECORD <= NOTES
}

/// The notes of the first `count` records.
fn read_notes(bytes: &[u8], count: usize) -> Result<InPlace<Note, NOTES>, SyncFault>
    requires room { count ≤ NOTES }
    requires whole { HEAD + RECORD * count ≤ length bytes.now }
    ensures value { result ≡ notes_of (records_of count bytes.now) }
    ensures len { IfOk result (λ notes. length notes ≡ count) }
{
    let mut notes = InPlace::<Note, NOTES>::new();
    for i in 0..count {
        let place = HEAD + RECORD * i;
        let Some(note) = read_note(&bytes[place..place + RECORD]) else {
            return Err(SyncFault::Flag(i as u32));
        };
        notes.push(note);
    }
    Ok(notes)
}

/// The note of a record, unless that is wrong.
fn read_note(bytes: &[u8]) -> Option<Note>
    requires { length bytes.now ≡ RECORD }
    ensures { result ≡ note_of bytes.now }
{
    let port = u16_at(bytes, PORT);
    if port == 0 || bytes[ZERO] != 0 {
        return None;
    }
    let mark = flag_mark(bytes[FLAG])?;
    let mut hash = [0; HASH];
    hash.copy_from_slice(&bytes[..HASH]);
    let mut addr = [0; PORT - HASH];
    addr.copy_from_slice(&bytes[HASH..PORT]);
    Some(Note {
        hash: InfoHash(hash),
        who: Endpoint {
            addr: Addr::V4(addr),
            port,
        },
        mark,
    })
}

/// The mark that a flag means, if it is one's.
fn flag_mark(flag: u8) -> Option<Mark>
    ensures { result ≡ mark_of flag }
{
    match flag {
        SEED => Some(Mark::Seed),
        STOPPED => Some(Mark::Stopped),
        LEECHER => Some(Mark::Leecher),
        _ => None,
    }
}
