//! Connections: bytes from a client, and bytes to it.

ghost use Rattle.std.specs.Prelude.{◌≡◌};
ghost use Rattle.ot_base.specs.declared.address.Endpoint.{Endpoint};
ghost use Rattle.ot_io.specs.Content.{written_aside, left_aside};

use crate::sink::Sink;
use crate::source::Source;
use ot_base::Endpoint;

/// A connection: a source of what its client sends and a sink of what it is sent, with one count of
/// faults. A read leaves what was written, and a write what is left to read.
pub trait Conn: Source + Sink {
    /// Who is at the other end.
    ghost client: { Self → Endpoint };

    /// The client's address and port.
    fn from(&self) -> Endpoint
        ensures { result ≡ client self.now };

    /// A fault of either stream raises the same count.
    ghost one_count: { (conn : Self) → Self.Source.faults conn ≡ Self.Sink.faults conn };

    /// A read leaves what was written, and the client.
    ghost read_keeps: { (conn : Self)
        → Self.Source.aside conn ≡ written_aside (Self.Sink.written conn) (client conn) };

    /// A write leaves what is left to read, the count of ends, and the client.
    ghost write_keeps: { (conn : Self)
        → Self.Sink.aside conn
        ≡ left_aside (Self.Source.left conn) (Self.Source.ends conn) (client conn) };
}
