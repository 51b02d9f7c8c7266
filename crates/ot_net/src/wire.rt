//! A wire over UDP.

use crate::address::{endpoint, socket_address};
use crate::breather::Breather;
use ot_base::Endpoint;
use ot_io::{Recv, Sent, Wire};
use std::io::ErrorKind;
use std::net::UdpSocket;
use std::rt::Clock;

/// A wire over a socket of UDP (RFC 768), which it may share with others. It tells nothing of what
/// went over it.
///
/// It answers that none waits where none came for as long as its socket's read timeout, and about
/// once in a second where one always does.
#[derive(Drop)]
pub struct NetWire<'a, R> {
    rt: &'a R,
    socket: UdpSocket,
    /// Whether the socket is of IPv6.
    is_six: bool,
    breather: Breather,
    pub(crate) faults: u64,
    pub(crate) idles: u64,
}

impl<'a, R> NetWire<'a, R> {
    ghost use Rattle.std.specs.Prelude.{◌≡◌, ◌≤◌};
    ghost use Rattle.ot_io.specs.Counts.{Rose};
    ghost use Rattle.ot_net.specs.Adapters.{wire_faults, wire_idles};

    /// A wire over this socket, which is to have a read timeout, and whether that is of IPv6.
    pub fn new(rt: &'a R, socket: UdpSocket, is_six: bool) -> Self
        ensures faults { wire_faults result ≡ 0 }
        ensures idles { wire_idles result ≡ 0 }
    {
        NetWire {
            rt,
            socket,
            is_six,
            breather: Breather::new(),
            faults: 0,
            idles: 0,
        }
    }

    /// How many calls have failed. From 2^64 - 1 on the count stands still.
    pub fn faults(&self) -> u64
        ensures { result ≡ wire_faults self.now }
    {
        self.faults
    }

    /// How many receives have answered that none waits. From 2^64 - 1 on the count stands still.
    pub fn idles(&self) -> u64
        ensures { result ≡ wire_idles self.now }
    {
        self.idles
    }

    /// The address of its own socket, where the host tells it.
    pub fn at(&self) -> Option<Endpoint> {
        match self.socket.local_addr() {
            Ok(at) => Some(endpoint(&at)),
            Err(_) => None,
        }
    }

    /// Answers that none waits.
    fn idle(&mut self) -> Recv
        ensures answer { result ≡ Recv.Idle }
        ensures risen { (wire_idles self.old ≤ wire_idles self.new)
            × Rose (wire_idles self.old) (wire_idles self.new) }
        ensures faults { wire_faults self.new ≡ wire_faults self.old }
    {
        self.idles = self.idles.saturating_add(1);
        Recv::Idle
    }
}

impl<R: Clock> Wire for NetWire<'_, R> {
    ghost use Rattle.std.specs.Prelude.{None};
    ghost use Rattle.ot_net.specs.Adapters.{wire_faults, wire_idles};

    ghost traffic = { λ wire. None };

    ghost faults = { wire_faults };

    ghost idles = { wire_idles };

    fn recv(&mut self, buf: &mut [u8; 2048]) -> Recv {
        if self.breather.is_due(self.rt) {
            return self.idle();
        }
        match self.socket.recv_from(buf) {
            Ok((len, peer)) => Recv::Got {
                len,
                from: endpoint(&peer),
            },
            // Its read timeout passed.
            Err(error) if error.kind() == ErrorKind::WouldBlock => self.idle(),
            Err(_) => {
                self.faults = self.faults.saturating_add(1);
                Recv::Failed
            }
        }
    }

    fn send(&mut self, to: Endpoint, bytes: &[u8]) -> Sent {
        let peer = socket_address(to, self.is_six);
        match self.socket.send_to(bytes, peer) {
            Ok(count) if count == bytes.len() => Sent::Done,
            _ => {
                self.faults = self.faults.saturating_add(1);
                Sent::Failed
            }
        }
    }
}
