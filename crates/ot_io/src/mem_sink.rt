//! A sink in memory.

ghost use Rattle.std.specs.Prelude.{◌≤◌, vec_len, vec_capacity};

use crate::faults::Faults;
use crate::sink::{Sink, Wrote};
use std::alloc::{AllocError, Global};

/// A sink in memory, for tests: what was written, how much it takes at once, and which writes fail.
#[derive(Debug, Drop)]
pub struct MemSink<'a> {
    written: Vec<u8>,
    room: usize,
    piece: usize,
    failing: &'a [u64],
    faults: Faults,
    ghost within: { vec_len written ≤ room },
    ghost reserved: { room ≤ vec_capacity written },
}

impl<'a> MemSink<'a> {
    ghost use Rattle.std.specs.Prelude.{◌≡◌, [], IfOk};
    ghost use Rattle.ot_io.specs.Memory.{bytes_written, failing_writes, room_of, piece_of};
    ghost use Rattle.ot_io.specs.Memory.{sink_faults, writes_made};

    /// An empty sink with room for so many bytes.
    ///
    /// A write takes at most `piece` bytes, at least 1 (0 counts as 1). `failing` are the numbers,
    /// from 0, of the writes that fail. A write that passes the room fails too.
    pub fn with_capacity(
        alloc: Global,
        room: usize,
        piece: usize,
        failing: &'a [u64],
    ) -> Result<Self, AllocError>
        ensures written { IfOk result (λ sink. bytes_written sink ≡ []) }
        ensures room { IfOk result (λ sink. room_of sink ≡ room) }
        ensures piece { IfOk result (λ sink. piece_of sink ≡ piece) }
        ensures failing { IfOk result (λ sink. failing_writes sink ≡ failing.now) }
        ensures number { IfOk result (λ sink. writes_made sink ≡ 0) }
        ensures faults { IfOk result (λ sink. sink_faults sink ≡ 0) }
    {
        Ok(MemSink {
            written: Vec::with_capacity(alloc, room)?,
            room,
            piece,
            failing,
            faults: Faults::new(),
        })
    }

    /// The bytes that were written, in order.
    pub fn written(&self) -> &[u8]
        ensures { result.now ≡ bytes_written self.now }
    {
        self.written.as_slice()
    }

    /// How many writes have failed. From 2^64 - 1 on the count stands still.
    pub fn faults(&self) -> u64
        ensures { result ≡ sink_faults self.now }
    {
        self.faults.count
    }
}

impl Sink for MemSink<'_> {
    ghost use Rattle.std.specs.Prelude.{◌≡◌, ◌<◌, ◌↔◌, ◌⊎◌, ◌||◌, ◌+◌, IsTrue, Some, length, min};
    ghost use Rattle.ot_io.specs.Counts.{last_count};
    ghost use Rattle.ot_io.specs.Writes.{TakesFront, WriteFailsOnlyCounted};
    ghost use Rattle.ot_io.specs.Lengths.{count_at_once, passes_room};
    ghost use Rattle.ot_io.specs.Memory.{bytes_written, failing_writes, is_write_failing};
    ghost use Rattle.ot_io.specs.Memory.{piece_of, room_of, sink_faults, writes_made};

    ghost written = { λ sink. Some (bytes_written sink) };

    ghost faults = { sink_faults };

    fn write(&mut self, bytes: &[u8]) -> Wrote
        requires { 0 < length bytes.now }
        ensures taken { TakesFront (Some (bytes_written self.old)) (Some (bytes_written self.new))
            result bytes.now }
        ensures failed { WriteFailsOnlyCounted (sink_faults self.old) (sink_faults self.new)
            result }
        ensures count { (result ≡ Wrote.Failed)
            ⊎ (result ≡ Wrote.Took (count_at_once (piece_of self.old) (length bytes.now))) }

        // It fails exactly where it is told to, or where it has no room.
        ensures demanded { (result ≡ Wrote.Failed) ↔ IsTrue (is_write_failing self.old
            || passes_room (room_of self.old) (length (bytes_written self.old))
            (count_at_once (piece_of self.old) (length bytes.now))) }
        ensures blameless { (result ≡ Wrote.Failed)
            ⊎ (sink_faults self.new ≡ sink_faults self.old) }
        ensures number { writes_made self.new ≡ min (writes_made self.old + 1) last_count }
        ensures failing { failing_writes self.new ≡ failing_writes self.old }
        ensures room { room_of self.new ≡ room_of self.old }
        ensures piece { piece_of self.new ≡ piece_of self.old }
    {
        let count = bytes.len().min(self.piece.max(1));
        let left = self.room - self.written.len();
        if self.faults.is_next_among(self.failing) || count > left {
            self.faults.raise();
            return Wrote::Failed;
        }
        match self.written.extend_from_slice(&bytes[..count]) {
            Ok(()) => Wrote::Took(count),
            Err(_) => unreachable!(),
        }
    }
}
