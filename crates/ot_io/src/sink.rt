//! Where bytes go.

ghost use Rattle.std.specs.Prelude.{◌≡◌, ◌<◌, ℕ, List, length, Option};
ghost use Rattle.ot_io.specs.Content.{Aside, nothing_aside};
ghost use Rattle.ot_io.specs.Writes.{TakesFront, WritesAll, WriteFailsOnlyCounted};

/// What one write took.
#[derive(Clone, Copy, Debug, PartialEq, Eq)]
pub enum Wrote {
    /// So many bytes from the front, at least one.
    Took(usize),
    /// The outside failed. Nothing of this write was taken.
    Failed,
}

/// A stream of bytes to the outside.
pub trait Sink {
    /// The bytes that were written, where they are known.
    ghost written: { Self → Option (List ℕ) };

    /// How often it has failed: a number that doesn't fall.
    ghost faults: { Self → ℕ };

    /// What a write leaves alone, where this object is more than a sink.
    ghost aside: { Self → Aside } = { nothing_aside };

    /// Writes some bytes from the front. It may wait for the machine.
    fn write(&mut self, bytes: &[u8]) -> Wrote
        requires { 0 < length bytes.now }
        ensures taken { TakesFront (written self.old) (written self.new) result bytes.now }
        ensures failed { WriteFailsOnlyCounted (faults self.old) (faults self.new) result }
        ensures aside { aside self.new ≡ aside self.old };
}

/// Writes all of the bytes: `Took` tells their number, and after `Failed` a prefix of them was
/// written. No bytes take no write.
pub fn send_all<K: Sink>(sink: &mut K, bytes: &[u8]) -> Wrote
    ensures sent { WritesAll (K.written sink.old) (K.written sink.new) result bytes.now }
    ensures failed { WriteFailsOnlyCounted (K.faults sink.old) (K.faults sink.new) result }
    ensures aside { K.aside sink.new ≡ K.aside sink.old }
    ensures nothing { length bytes.now ≡ 0 → sink.new ≡ sink.old }
{
    let mut sent = 0;
    while sent < bytes.len() {
        match sink.write(&bytes[sent..]) {
            Wrote::Took(n) => sent += n,
            Wrote::Failed => return Wrote::Failed,
        }
    }
    Wrote::Took(sent)
}
