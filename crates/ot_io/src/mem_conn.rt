//! A connection in memory.

ghost use Rattle.std.specs.Prelude.{◌≡◌, ◌≤◌, drop, length, vec_len, vec_capacity};

use crate::conn::Conn;
use crate::faults::Faults;
use crate::mem_source::length_of_next;
use crate::sink::{Sink, Wrote};
use crate::source::{Piece, Source};
use ot_base::Endpoint;
use std::alloc::{AllocError, Global};

/// What a connection in memory does.
#[derive(Debug, Drop)]
pub struct ConnScript {
    /// The bytes that the client sends.
    pub sent: Vec<u8>,
    /// The lengths of the pieces in which they come, each at least 1 (0 counts as 1): a read gives
    /// at most the next of them, and after the last of them as much as the buffer holds.
    pub lengths: Vec<usize>,
    /// How many bytes the client takes in all. A write that passes that fails.
    pub room: usize,
    /// How many bytes a write takes at most, at least 1 (0 counts as 1).
    pub piece: usize,
    /// The numbers, from 0, of the calls that fail, reads and writes counted together. Such a call
    /// takes no byte and no length.
    pub failing: Vec<u64>,
}

/// A connection in memory, for tests. It owns all that it holds, so it can be sent to a thread.
#[derive(Debug, Drop)]
pub struct MemConn {
    client: Endpoint,
    script: ConnScript,
    /// How many of the client's bytes were read.
    taken: usize,
    /// How many of the lengths were taken.
    pieces: usize,
    ends: u64,
    written: Vec<u8>,
    faults: Faults,
    ghost taken_within: { taken ≤ vec_len script.sent },
    ghost pieces_within: { pieces ≤ vec_len script.lengths },
    ghost within: { vec_len written ≤ script.room },
    ghost reserved: { script.room ≤ vec_capacity written },
}

impl MemConn {
    ghost use Rattle.std.specs.Prelude.{◌≡◌, [], IfOk, drop};
    ghost use Rattle.ot_io.specs.Lengths.{next_length};
    ghost use Rattle.ot_io.specs.Connection.{calls_made, client_of, conn_ends, conn_faults};
    ghost use Rattle.ot_io.specs.Connection.{conn_left, conn_lengths, conn_written, script_of};

    /// A connection of this client, of which nothing was read yet and to which nothing was written.
    /// The room for what will be written is taken at once: only that can want memory.
    pub fn new(alloc: Global, client: Endpoint, script: ConnScript) -> Result<Self, AllocError>
        ensures client { IfOk result (λ conn. client_of conn ≡ client) }
        ensures script { IfOk result (λ conn. script_of conn ≡ script) }
        ensures left { IfOk result (λ conn. conn_left conn ≡ script.sent.items) }
        ensures lengths { IfOk result (λ conn. conn_lengths conn ≡ script.lengths.items) }
        ensures written { IfOk result (λ conn. conn_written conn ≡ []) }
        ensures number { IfOk result (λ conn. calls_made conn ≡ 0) }
        ensures faults { IfOk result (λ conn. conn_faults conn ≡ 0) }
        ensures ends { IfOk result (λ conn. conn_ends conn ≡ 0) }
    {
        let written = Vec::with_capacity(alloc, script.room)?;
        Ok(MemConn {
            client,
            script,
            taken: 0,
            pieces: 0,
            ends: 0,
            written,
            faults: Faults::new(),
        })
    }

    /// The bytes that the client sent and that weren't read yet.
    pub fn left(&self) -> &[u8]
        ensures { result.now ≡ conn_left self.now }
    {
        &self.script.sent.as_slice()[self.taken..]
    }

    /// The bytes that were written to the client, in order.
    pub fn written(&self) -> &[u8]
        ensures { result.now ≡ conn_written self.now }
    {
        self.written.as_slice()
    }

    /// How many calls have failed, reads and writes together. From 2^64 - 1 on the count stands
    /// still.
    pub fn faults(&self) -> u64
        ensures { result ≡ conn_faults self.now }
    {
        self.faults.count
    }

    /// How many reads have answered that there are no more bytes. From 2^64 - 1 on the count stands
    /// still.
    pub fn ends(&self) -> u64
        ensures { result ≡ conn_ends self.now }
    {
        self.ends
    }
}

impl Source for MemConn {
    ghost use Rattle.std.specs.Prelude.{◌≡◌, ◌<◌, ◌↔◌, ◌⊎◌, ◌+◌, IsTrue, Some, length, min};
    ghost use Rattle.ot_io.specs.Content.{written_aside};
    ghost use Rattle.ot_io.specs.Counts.{last_count};
    ghost use Rattle.ot_io.specs.Pieces.{GivesPiece, EndsOnlyCounted, FailsOnlyCounted};
    ghost use Rattle.ot_io.specs.Lengths.{TakesLength};
    ghost use Rattle.ot_io.specs.Connection.{calls_made, client_of, conn_ends, conn_faults};
    ghost use Rattle.ot_io.specs.Connection.{conn_left, conn_lengths, conn_written};
    ghost use Rattle.ot_io.specs.Connection.{is_call_failing, script_of};

    ghost left = { λ conn. Some (conn_left conn) };

    ghost faults = { conn_faults };

    ghost ends = { conn_ends };

    ghost aside = { λ conn. written_aside (Some (conn_written conn)) (client_of conn) };

    fn read(&mut self, buf: &mut [u8]) -> Piece
        requires { 0 < length buf.old }
        ensures piece { GivesPiece (Some (conn_left self.old)) (Some (conn_left self.new))
            result buf.new }
        ensures end { EndsOnlyCounted (conn_ends self.old) (conn_ends self.new) result }
        ensures failed { FailsOnlyCounted (conn_faults self.old) (conn_faults self.new) result }
        ensures length { TakesLength (conn_lengths self.old) (conn_lengths self.new)
            (length buf.old) (length (conn_left self.old)) result }

        // It fails exactly where it is told to.
        ensures demanded { (result ≡ Piece.Failed) ↔ IsTrue (is_call_failing self.old) }
        ensures blameless { (result ≡ Piece.Failed)
            ⊎ (conn_faults self.new ≡ conn_faults self.old) }
        ensures number { calls_made self.new ≡ min (calls_made self.old + 1) last_count }

        // The rest stays.
        ensures aside { written_aside (Some (conn_written self.new)) (client_of self.new)
            ≡ written_aside (Some (conn_written self.old)) (client_of self.old) }
        ensures script { script_of self.new ≡ script_of self.old }
    {
        if self.faults.is_next_among(self.script.failing.as_slice()) {
            self.faults.raise();
            return Piece::Failed;
        }
        let left = &self.script.sent.as_slice()[self.taken..];
        if left.is_empty() {
            self.ends = self.ends.saturating_add(1);
            return Piece::End;
        }
        let lengths = self.script.lengths.as_slice();
        let count = length_of_next(&lengths[self.pieces..], buf.len()).min(left.len());
        buf[..count].copy_from_slice(&left[..count]);
        self.pieces = place_after(lengths, self.pieces);
        self.taken += count;
        Piece::Got(count)
    }
}

impl Sink for MemConn {
    ghost use Rattle.std.specs.Prelude.{◌≡◌, ◌<◌, ◌↔◌, ◌⊎◌, ◌||◌, ◌+◌, IsTrue, Some, length, min};
    ghost use Rattle.ot_io.specs.Content.{left_aside};
    ghost use Rattle.ot_io.specs.Counts.{last_count};
    ghost use Rattle.ot_io.specs.Writes.{TakesFront, WriteFailsOnlyCounted};
    ghost use Rattle.ot_io.specs.Lengths.{count_at_once, passes_room};
    ghost use Rattle.ot_io.specs.Connection.{calls_made, client_of, conn_ends, conn_faults};
    ghost use Rattle.ot_io.specs.Connection.{conn_left, conn_lengths, conn_written};
    ghost use Rattle.ot_io.specs.Connection.{is_call_failing, script_of};

    ghost written = { λ conn. Some (conn_written conn) };

    ghost faults = { conn_faults };

    ghost aside = { λ conn. left_aside (Some (conn_left conn)) (conn_ends conn) (client_of conn) };

    fn write(&mut self, bytes: &[u8]) -> Wrote
        requires { 0 < length bytes.now }
        ensures taken { TakesFront (Some (conn_written self.old)) (Some (conn_written self.new))
            result bytes.now }
        ensures failed { WriteFailsOnlyCounted (conn_faults self.old) (conn_faults self.new)
            result }
        ensures count { (result ≡ Wrote.Failed)
            ⊎ (result ≡ Wrote.Took (count_at_once (script_of self.old).piece (length bytes.now))) }

        // It fails exactly where it is told to, or where there is no room.
        ensures demanded { (result ≡ Wrote.Failed) ↔ IsTrue (is_call_failing self.old
            || passes_room (script_of self.old).room (length (conn_written self.old))
            (count_at_once (script_of self.old).piece (length bytes.now))) }
        ensures blameless { (result ≡ Wrote.Failed)
            ⊎ (conn_faults self.new ≡ conn_faults self.old) }
        ensures number { calls_made self.new ≡ min (calls_made self.old + 1) last_count }

        // The rest stays.
        ensures aside { left_aside (Some (conn_left self.new)) (conn_ends self.new)
            (client_of self.new)
            ≡ left_aside (Some (conn_left self.old)) (conn_ends self.old) (client_of self.old) }
        ensures lengths { conn_lengths self.new ≡ conn_lengths self.old }
        ensures script { script_of self.new ≡ script_of self.old }
    {
        let count = bytes.len().min(self.script.piece.max(1));
        let room = self.script.room - self.written.len();
        if self.faults.is_next_among(self.script.failing.as_slice()) || count > room {
            self.faults.raise();
            return Wrote::Failed;
        }
        match self.written.extend_from_slice(&bytes[..count]) {
            Ok(()) => Wrote::Took(count),
            Err(_) => unreachable!(),
        }
    }
}

impl Conn for MemConn {
    ghost use Rattle.std.specs.Prelude.{refl};
    ghost use Rattle.ot_io.specs.Connection.{client_of};

    ghost client = { client_of };

    ghost one_count = { λ conn. refl };

    ghost read_keeps = { λ conn. refl };

    ghost write_keeps = { λ conn. refl };

    fn from(&self) -> Endpoint {
        self.client
    }
}

/// The place after this one in a list, or its end.
fn place_after(lengths: &[usize], place: usize) -> usize
    requires { place ≤ length lengths.now }
    ensures within { result ≤ length lengths.now }
    ensures rest { drop result lengths.now ≡ drop 1 (drop place lengths.now) }
{
    if place < lengths.len() {
        place + 1
    } else {
        place
    }
}
