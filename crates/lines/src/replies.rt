//! Answers that wait to be written.

ghost use Rattle.std.specs.Prelude.{◌≡◌, ◌++◌, ◌+◌, ◌≤◌, [], length, OnOk, OnErr, IfOk};
ghost use Rattle.std.specs.Io.KnownBytes.{Appends};
ghost use Rattle.ot_io.specs.Counts.{Rose};
ghost use Rattle.lines.specs.Streams.{IsLaterSink};
ghost use Rattle.lines.specs.Replies.{Adds, Loses};

use ot_io::{Sink, Wrote, send_all};
use std::alloc::{AllocError, Global};
use std::marker::Model;

/// How many bytes wait at most.
pub const REPLIES_LEN: usize = 65_536;

/// The outside failed while answers were written. A front was written, and the rest is lost.
#[derive(Clone, Copy, Debug, PartialEq, Eq)]
pub struct WriteFault;

/// Answers that wait to be written, in a buffer of fixed size. Contracts see the bytes that wait.
#[derive(Drop)]
pub struct Replies {
    waiting: Vec<u8>,
}

impl Model for Replies {
    ghost use Rattle.std.specs.Prelude.{ℕ, List, ◌≤◌, vec_len, vec_capacity};

    ghost Value = { List ℕ };

    ghost use Rattle.lines.specs.Replies.{replies_len};

    ghost view = { λ replies. replies.waiting.items };

    ghost invariant = { λ replies. (vec_len replies.waiting ≤ replies_len)
        × (replies_len ≤ vec_capacity replies.waiting) };
}

impl Replies {
    /// No answers. This takes all the memory that it ever takes.
    pub fn new(alloc: Global) -> Result<Self, AllocError>
        ensures { IfOk result (λ replies. replies ≡ []) }
    {
        Ok(Replies {
            waiting: Vec::with_capacity(alloc, REPLIES_LEN)?,
        })
    }

    /// Adds bytes to those that wait. Where they would be more than 65,536, those that wait are
    /// written first. After a fault nothing waits.
    pub fn add<O: Sink>(&mut self, out: &mut O, bytes: &[u8]) -> Result<(), WriteFault>
        ensures added { OnOk result (Adds (O.written out.old) (O.written out.new)
            self.old self.new bytes.now) }
        ensures lost { OnErr result (Loses (O.written out.old) (O.written out.new)
            (self.old ++ bytes.now)) }
        ensures none { OnErr result (self.new ≡ []) }
        ensures fault { OnErr result (Rose (O.faults out.old) (O.faults out.new)) }
        ensures later { IsLaterSink O.faults O.aside out.old out.new }
    {
        if bytes.len() <= REPLIES_LEN - self.waiting.len() {
            self.keep(bytes);
            return Ok(());
        }
        self.flush(out)?;
        if bytes.len() <= REPLIES_LEN {
            self.keep(bytes);
            return Ok(());
        }
        send(out, bytes)
    }

    /// Writes all that waits. After a fault nothing waits.
    pub fn flush<O: Sink>(&mut self, out: &mut O) -> Result<(), WriteFault>
        ensures written { OnOk result (Appends (O.written out.old) (O.written out.new) self.old) }
        ensures lost { OnErr result (Loses (O.written out.old) (O.written out.new) self.old) }
        ensures none { self.new ≡ [] }
        ensures fault { OnErr result (Rose (O.faults out.old) (O.faults out.new)) }
        ensures later { IsLaterSink O.faults O.aside out.old out.new }
    {
        let sent = send(out, &self.waiting);
        self.waiting.clear();
        sent
    }

    /// Keeps bytes for which there is room.
    fn keep(&mut self, bytes: &[u8])
        requires { length self.old + length bytes.now ≤ REPLIES_LEN }
        ensures { self.new ≡ self.old ++ bytes.now }
    {
        match self.waiting.extend_from_slice(bytes) {
            Ok(()) => (),
            Err(_) => unreachable!(),
        }
    }
}

/// Writes bytes.
fn send<O: Sink>(out: &mut O, bytes: &[u8]) -> Result<(), WriteFault>
    ensures written { OnOk result (Appends (O.written out.old) (O.written out.new) bytes.now) }
    ensures lost { OnErr result (Loses (O.written out.old) (O.written out.new) bytes.now) }
    ensures fault { OnErr result (Rose (O.faults out.old) (O.faults out.new)) }
    ensures later { IsLaterSink O.faults O.aside out.old out.new }
{
    match send_all(out, bytes) {
        Wrote::Took(_) => Ok(()),
        Wrote::Failed => Err(WriteFault),
    }
}
