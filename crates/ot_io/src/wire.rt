//! Where datagrams come from and go to.

ghost use Rattle.std.specs.Prelude.{◌≡◌, ◌≤◌, ℕ, Option};
ghost use Rattle.ot_io.specs.Traffic.{Traffic, datagram, Receives, Sends};
ghost use Rattle.ot_io.specs.Traffic.{IdlesOnlyCounted, RecvFailsOnlyCounted};
ghost use Rattle.ot_io.specs.Traffic.{SendFailsOnlyCounted};

use ot_base::Endpoint;

/// How many bytes of a datagram are received at most.
pub const DATAGRAM_LEN: usize = 2048;

/// What one receive gave.
#[derive(Clone, Copy, Debug, PartialEq, Eq)]
pub enum Recv {
    /// A datagram. Its first bytes stand at the front of the buffer.
    Got {
        /// How many they are: all of them, or 2,048 of a longer datagram.
        len: usize,
        /// Who sent it.
        from: Endpoint,
    },
    /// None waits.
    Idle,
    /// The outside failed. Nothing was received.
    Failed,
}

/// What became of a datagram that was to be sent.
#[derive(Clone, Copy, Debug, PartialEq, Eq)]
pub enum Sent {
    /// It was sent. Whether it comes is another matter.
    Done,
    /// The outside failed. Nothing was sent.
    Failed,
}

/// Sends and receives datagrams at one address.
pub trait Wire {
    /// What waits, was received and was sent, where it is told.
    ghost traffic: { Self → Option Traffic };

    /// How often it has failed: a number that doesn't fall.
    ghost faults: { Self → ℕ };

    /// How often it has answered that none waits: a number that doesn't fall.
    ghost idles: { Self → ℕ };

    /// Receives a datagram. It may wait for the machine.
    fn recv(&mut self, buf: &mut [u8; 2048]) -> Recv
        ensures received { Receives (traffic self.old) (traffic self.new) result buf.new }
        ensures idle { IdlesOnlyCounted (idles self.old) (idles self.new) result }
        ensures failed { RecvFailsOnlyCounted (faults self.old) (faults self.new) result };

    /// Sends these bytes as one datagram.
    fn send(&mut self, to: Endpoint, bytes: &[u8]) -> Sent
        ensures sent { Sends (traffic self.old) (traffic self.new) result
            (datagram to bytes.now) }
        ensures failed { SendFailsOnlyCounted (faults self.old) (faults self.new) result }
        ensures idles { idles self.new ≡ idles self.old };
}
