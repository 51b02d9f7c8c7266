//! A wire in memory.

ghost use Rattle.std.specs.Prelude.{◌≡◌, ◌≤◌, length, min, take, vec_len, vec_capacity};

use crate::faults::Faults;
use crate::wire::{DATAGRAM_LEN, Recv, Sent, Wire};
use arrayvec::ArrayVec;
use ot_base::Endpoint;
use std::alloc::{AllocError, Global};

/// A datagram that waits.
#[derive(Debug, Drop)]
pub struct Incoming {
    /// Who sent it.
    pub from: Endpoint,
    /// All of its bytes, which may be more than are received.
    pub bytes: Vec<u8>,
}

/// A datagram that was sent.
#[derive(Debug, Drop)]
pub struct Outgoing {
    /// Whom it was sent to.
    pub to: Endpoint,
    /// Its bytes.
    pub bytes: ArrayVec<u8, 2048>,
}

/// What a wire in memory does.
#[derive(Debug, Drop)]
pub struct WireScript {
    /// The datagrams that wait, in order.
    pub incoming: Vec<Incoming>,
    /// How many datagrams can be sent in all. A send that passes that fails, and so does one of
    /// more than 2,048 bytes.
    pub room: usize,
    /// The numbers, from 0, of the calls that fail, receives and sends counted together. Such a
    /// call takes nothing and sends nothing.
    pub failing: Vec<u64>,
}

/// A wire in memory, for tests. It owns all that it holds, so it can be sent to a thread.
#[derive(Debug, Drop)]
pub struct MemWire {
    pub(crate) script: WireScript,
    /// How many datagrams were received.
    pub(crate) taken: usize,
    pub(crate) sent: Vec<Outgoing>,
    pub(crate) idles: u64,
    pub(crate) faults: Faults,
    ghost taken_within: { taken ≤ vec_len script.incoming },
    ghost within: { vec_len sent ≤ script.room },
    ghost reserved: { script.room ≤ vec_capacity sent },
}

impl MemWire {
    ghost use Rattle.std.specs.Prelude.{◌≡◌, IfOk, drop};
    ghost use Rattle.ot_io.specs.Traffic.{IsNewWire};
    ghost use Rattle.ot_io.specs.MemoryWire.{wire_calls, wire_faults, wire_idles};
    ghost use Rattle.ot_io.specs.MemoryWire.{wire_script, wire_traffic};

    /// A wire over which nothing went yet. The room for what will be sent is taken at once: only
    /// that can want memory.
    pub fn new(alloc: Global, script: WireScript) -> Result<Self, AllocError>
        ensures script { IfOk result (λ wire. wire_script wire ≡ script) }
        ensures unused { IfOk result (λ wire. IsNewWire (Some (wire_traffic wire))
            (wire_faults wire) (wire_idles wire)) }
        ensures number { IfOk result (λ wire. wire_calls wire ≡ 0) }
    {
        let sent = Vec::with_capacity(alloc, script.room)?;
        Ok(MemWire {
            script,
            taken: 0,
            sent,
            idles: 0,
            faults: Faults::new(),
        })
    }

    /// The datagrams that wait, in order.
    pub fn waiting(&self) -> &[Incoming]
        ensures { result.now ≡ drop self.now.taken self.now.script.incoming.items }
    {
        &self.script.incoming.as_slice()[self.taken..]
    }

    /// The datagrams that were sent, in order.
    pub fn sent(&self) -> &[Outgoing]
        ensures { result.now ≡ self.now.sent.items }
    {
        self.sent.as_slice()
    }

    /// How many calls have failed, receives and sends together. From 2^64 - 1 on the count stands
    /// still.
    pub fn faults(&self) -> u64
        ensures { result ≡ wire_faults self.now }
    {
        self.faults.count
    }

    /// How many receives have answered that none waits. From 2^64 - 1 on the count stands still.
    pub fn idles(&self) -> u64
        ensures { result ≡ wire_idles self.now }
    {
        self.idles
    }
}

impl Wire for MemWire {
    ghost use Rattle.std.specs.Prelude.{◌≡◌, ◌↔◌, ◌⊎◌, ◌||◌, ◌+◌, IsTrue, Some, length, min, nat_lt};
    ghost use Rattle.ot_io.specs.Counts.{last_count};
    ghost use Rattle.ot_io.specs.Lengths.{passes_room};
    ghost use Rattle.ot_io.specs.Traffic.{Receives, Sends, datagram};
    ghost use Rattle.ot_io.specs.Traffic.{IdlesOnlyCounted, RecvFailsOnlyCounted};
    ghost use Rattle.ot_io.specs.Traffic.{SendFailsOnlyCounted};
    ghost use Rattle.ot_io.specs.MemoryWire.{is_wire_failing, wire_calls, wire_faults};
    ghost use Rattle.ot_io.specs.MemoryWire.{wire_idles, wire_script, wire_traffic};

    ghost traffic = { λ wire. Some (wire_traffic wire) };

    ghost faults = { wire_faults };

    ghost idles = { wire_idles };

    fn recv(&mut self, buf: &mut [u8; 2048]) -> Recv
        ensures received { Receives (Some (wire_traffic self.old)) (Some (wire_traffic self.new))
            result buf.new }
        ensures idle { IdlesOnlyCounted (wire_idles self.old) (wire_idles self.new) result }
        ensures failed { RecvFailsOnlyCounted (wire_faults self.old) (wire_faults self.new)
            result }

        // It fails exactly where it is told to.
        ensures demanded { (result ≡ Recv.Failed) ↔ IsTrue (is_wire_failing self.old) }
        ensures blameless { (result ≡ Recv.Failed)
            ⊎ (wire_faults self.new ≡ wire_faults self.old) }
        ensures number { wire_calls self.new ≡ min (wire_calls self.old + 1) last_count }
        ensures script { wire_script self.new ≡ wire_script self.old }
    {
        if self.faults.is_next_among(self.script.failing.as_slice()) {
            self.faults.raise();
            return Recv::Failed;
        }
        let incoming = self.script.incoming.as_slice();
        if self.taken == incoming.len() {
            self.idles = self.idles.saturating_add(1);
            return Recv::Idle;
        }
        let first = &incoming[self.taken];
        let from = first.from;
        let len = copy_front(first.bytes.as_slice(), buf);
        self.taken += 1;
        Recv::Got { len, from }
    }

    fn send(&mut self, to: Endpoint, bytes: &[u8]) -> Sent
        ensures sent { Sends (Some (wire_traffic self.old)) (Some (wire_traffic self.new)) result
            (datagram to bytes.now) }
        ensures failed { SendFailsOnlyCounted (wire_faults self.old) (wire_faults self.new)
            result }
        ensures idles { wire_idles self.new ≡ wire_idles self.old }

        // It fails exactly where it is told to, or where there is no room.
        ensures demanded { (result ≡ Sent.Failed) ↔ IsTrue (is_wire_failing self.old
            || passes_room (wire_script self.old).room (length (wire_traffic self.old).sent) 1
            || nat_lt 2048 (length bytes.now)) }
        ensures blameless { (result ≡ Sent.Failed)
            ⊎ (wire_faults self.new ≡ wire_faults self.old) }
        ensures number { wire_calls self.new ≡ min (wire_calls self.old + 1) last_count }
        ensures script { wire_script self.new ≡ wire_script self.old }
    {
        let is_failing = self.faults.is_next_among(self.script.failing.as_slice());
        if is_failing || self.sent.len() == self.script.room || bytes.len() > DATAGRAM_LEN {
            self.faults.raise();
            return Sent::Failed;
        }
        let bytes = datagram_bytes(bytes);
        match self.sent.push(Outgoing { to, bytes }) {
            Ok(()) => Sent::Done,
            Err(_) => unreachable!(),
        }
    }
}

/// Copies as many bytes from the front as a receive gives, and tells how many.
fn copy_front(bytes: &[u8], buf: &mut [u8; 2048]) -> usize
    ensures len { result ≡ min (length bytes.now) 2048 }
    ensures front { take result buf.new ≡ take 2048 bytes.now }
{
    let len = DATAGRAM_LEN.min(bytes.len());
    buf[..len].copy_from_slice(&bytes[..len]);
    len
}

/// The bytes in place.
fn datagram_bytes(bytes: &[u8]) -> ArrayVec<u8, 2048>
    requires { length bytes.now ≤ 2048 }
    ensures { result.items ≡ bytes.now }
{
    let mut copy = ArrayVec::new();
    match copy.try_extend_from_slice(bytes) {
        Ok(()) => copy,
        Err(_) => unreachable!(),
    }
}
