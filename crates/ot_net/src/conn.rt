//! A connection over TCP.

use ot_base::Endpoint;
use ot_io::{Conn, Piece, Sink, Source, StdSink, StdSource, Wrote};
use std::io;
use std::net::TcpStream;
use std::time::Duration;

/// How long a read or a write waits for the other end, in seconds.
const TIMEOUT: u64 = 1;

/// A connection over TCP (RFC 9293). It tells nothing of what was read or written.
#[derive(Debug, Drop)]
pub struct NetConn {
    stream: TcpStream,
    pub(crate) client: Endpoint,
    pub(crate) faults: u64,
    pub(crate) ends: u64,
}

impl NetConn {
    ghost use Rattle.std.specs.Prelude.{◌≡◌, IfOk};
    ghost use Rattle.ot_net.specs.Adapters.{client_of, conn_ends, conn_faults};

    /// A connection over this stream, to this client. A read or a write that waits for longer than
    /// a second fails. An error is the host's, where it doesn't set these times.
    pub fn new(stream: TcpStream, client: Endpoint) -> io::Result<Self>
        ensures client { IfOk result (λ conn. client_of conn ≡ client) }
        ensures faults { IfOk result (λ conn. conn_faults conn ≡ 0) }
        ensures ends { IfOk result (λ conn. conn_ends conn ≡ 0) }
    {
        stream.set_nonblocking(false)?;
        let timeout = Duration::from_secs(TIMEOUT);
        stream.set_read_timeout(Some(timeout))?;
        stream.set_write_timeout(Some(timeout))?;
        Ok(NetConn {
            stream,
            client,
            faults: 0,
            ends: 0,
        })
    }

    /// How many calls have failed, reads and writes together. From 2^64 - 1 on the count stands
    /// still.
    pub fn faults(&self) -> u64
        ensures { result ≡ conn_faults self.now }
    {
        self.faults
    }

    /// How many reads have answered that there are no more bytes. From 2^64 - 1 on the count stands
    /// still.
    pub fn ends(&self) -> u64
        ensures { result ≡ conn_ends self.now }
    {
        self.ends
    }
}

impl Source for NetConn {
    ghost use Rattle.std.specs.Prelude.{None};
    ghost use Rattle.ot_io.specs.Content.{written_aside};
    ghost use Rattle.ot_net.specs.Adapters.{client_of, conn_ends, conn_faults};

    ghost left = { λ conn. None };

    ghost faults = { conn_faults };

    ghost ends = { conn_ends };

    ghost aside = { λ conn. written_aside None (client_of conn) };

    fn read(&mut self, buf: &mut [u8]) -> Piece {
        let piece = StdSource::new(&self.stream).read(buf);
        match piece {
            Piece::Got(_) => {}
            Piece::End => self.ends = self.ends.saturating_add(1),
            Piece::Failed => self.faults = self.faults.saturating_add(1),
        }
        piece
    }
}

impl Sink for NetConn {
    ghost use Rattle.std.specs.Prelude.{None};
    ghost use Rattle.ot_io.specs.Content.{left_aside};
    ghost use Rattle.ot_net.specs.Adapters.{client_of, conn_ends, conn_faults};

    ghost written = { λ conn. None };

    ghost faults = { conn_faults };

    ghost aside = { λ conn. left_aside None (conn_ends conn) (client_of conn) };

    fn write(&mut self, bytes: &[u8]) -> Wrote {
        let wrote = StdSink::new(&self.stream).write(bytes);
        if wrote == Wrote::Failed {
            self.faults = self.faults.saturating_add(1);
        }
        wrote
    }
}

impl Conn for NetConn {
    ghost use Rattle.std.specs.Prelude.{refl};
    ghost use Rattle.ot_net.specs.Adapters.{client_of};

    ghost client = { client_of };

    ghost one_count = { λ conn. refl };

    ghost read_keeps = { λ conn. refl };

    ghost write_keeps = { λ conn. refl };

    fn from(&self) -> Endpoint {
        self.client
    }
}
