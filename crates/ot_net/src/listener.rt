//! A listener over TCP.

use crate::address::endpoint;
use crate::arrivals::Arrivals;
use crate::breather::Breather;
use crate::clock::steady_seconds;
use crate::conn::NetConn;
use crate::refusal::Refusal;
use crate::waiting::{Room, Waiting};
use ot_base::Endpoint;
use ot_io::{Accept, Listener};
use std::alloc::Global;
use std::io::{self, ErrorKind};
use std::net::{Net, TcpListener};
use std::rt::Clock;

/// How many new connections are looked at in one turn.
const NEW_LOOKS: u32 = 16;

/// How long it waits before it answers that none waits, in milliseconds.
const WHOLE_WAIT: u64 = 300;

/// How long it waits each time for a new connection, in milliseconds.
const LONG_WAIT: u64 = 100;

/// How long it waits each time, in milliseconds, where it keeps connections that may become ready.
const SHORT_WAIT: u64 = 1;

/// A listener over a socket of TCP, which it may share with others. It tells nothing of its
/// connections.
///
/// It keeps a connection until its client has sent a whole head, so that a slow one holds nobody
/// who serves connections. One that has waited for 10 seconds is handed out as it is, and so is the
/// one that waits longest where more than 1,024 wait or the host has no room for a new one.
///
/// It answers that none waits where there was none to hand out for 300 milliseconds, and about once
/// in a second where there always is one.
#[derive(Drop)]
pub struct NetListener<'a, R> {
    rt: &'a R,
    socket: TcpListener,
    arrivals: Arrivals,
    room: Room,
    breather: Breather,
    pub(crate) faults: u64,
    pub(crate) idles: u64,
}

/// What a look for a connection found.
#[derive(Debug, Drop)]
enum Found {
    /// One to be handed out.
    Ready(Waiting),
    /// A new one that is to wait.
    Kept,
    /// None.
    Nothing,
    /// The host failed.
    Failed,
}

impl<'a, R> NetListener<'a, R> {
    ghost use Rattle.std.specs.Prelude.{◌≡◌, IfOk};
    ghost use Rattle.ot_net.specs.Adapters.{listener_faults, listener_idles};

    /// A listener over this socket, which is set not to block.
    pub(crate) fn new(rt: &'a R, socket: TcpListener) -> Result<Self, Refusal>
    where
        R: Net + Alloc<A = Global>,
        ensures faults { IfOk result (λ listener. listener_faults listener ≡ 0) }
        ensures idles { IfOk result (λ listener. listener_idles listener ≡ 0) }
    {
        let arrivals = Arrivals::at(rt, &socket)?;
        Ok(NetListener {
            rt,
            socket,
            arrivals,
            room: Room::new(rt.alloc())?,
            breather: Breather::new(),
            faults: 0,
            idles: 0,
        })
    }

    /// The address of its own socket, where the host tells it.
    pub fn at(&self) -> Option<Endpoint> {
        match self.socket.local_addr() {
            Ok(at) => Some(endpoint(&at)),
            Err(_) => None,
        }
    }

    /// How many calls have failed, a failed look at one connection among them. From 2^64 - 1 on the
    /// count stands still.
    pub fn faults(&self) -> u64
        ensures { result ≡ listener_faults self.now }
    {
        self.faults
    }

    /// How many calls have answered that none waits. From 2^64 - 1 on the count stands still.
    pub fn idles(&self) -> u64
        ensures { result ≡ listener_idles self.now }
    {
        self.idles
    }
}

impl<R: Clock> NetListener<'_, R> {
    ghost use Rattle.std.specs.Prelude.{◌≡◌, ◌≤◌, None};
    ghost use Rattle.ot_io.specs.Counts.{Rose};
    ghost use Rattle.ot_io.specs.Tales.{Accepts, AcceptFailsOnlyCounted};
    ghost use Rattle.ot_io.specs.Tales.{AcceptIdlesOnlyCounted, tale};
    ghost use Rattle.ot_net.specs.Adapters.{client_of, conn_ends, conn_faults};
    ghost use Rattle.ot_net.specs.Adapters.{listener_faults, listener_idles};

    /// Looks for a connection, and waits for one, but not where a breath is due.
    fn await_one(&mut self) -> Found
        ensures faults { listener_faults self.new ≡ listener_faults self.old }
        ensures idles { listener_idles self.new ≡ listener_idles self.old }
    {
        if self.breather.is_due(self.rt) {
            return Found::Nothing;
        }
        let mut left = WHOLE_WAIT;
        // Each wait is one of a millisecond at least.
        for _ in 0..WHOLE_WAIT {
            match self.find() {
                Found::Nothing if left > 0 => left = left.saturating_sub(self.wait()),
                found => return found,
            }
        }
        self.find()
    }

    /// Waits for a new connection. How long it does at most, in milliseconds.
    fn wait(&mut self) -> u64
        ensures faults { listener_faults self.new ≡ listener_faults self.old }
        ensures idles { listener_idles self.new ≡ listener_idles self.old }
    {
        let longest = if self.room.is_empty() {
            LONG_WAIT
        } else {
            SHORT_WAIT
        };
        self.arrivals.wait(longest);
        longest
    }

    /// Looks for a connection to be handed out, at the new ones first.
    fn find(&mut self) -> Found
        ensures faults { listener_faults self.new ≡ listener_faults self.old }
        ensures idles { listener_idles self.new ≡ listener_idles self.old }
    {
        let now = steady_seconds(self.rt);
        match self.look_at_new(now) {
            Found::Nothing => match self.room.take_next(now) {
                Some(one) => Found::Ready(one),
                None => Found::Nothing,
            },
            found => found,
        }
    }

    /// Answers with what was found.
    fn answer(&mut self, found: Found) -> Accept<NetConn>
        ensures accepted { Accepts
            (λ conn. tale (client_of conn) None None (conn_faults conn) (conn_ends conn))
            None None result }
        ensures idle { AcceptIdlesOnlyCounted (listener_idles self.old) (listener_idles self.new)
            result }
        ensures failed { AcceptFailsOnlyCounted (listener_faults self.old)
            (listener_faults self.new) result }
    {
        match found {
            Found::Ready(one) => self.hand_out(one),
            Found::Failed => self.make_room(),
            Found::Kept | Found::Nothing => {
                self.idles = self.idles.saturating_add(1);
                Accept::Idle
            }
        }
    }

    /// Looks at the new connections, as far as the first that is to be served.
    fn look_at_new(&mut self, now: u64) -> Found
        ensures faults { listener_faults self.new ≡ listener_faults self.old }
        ensures idles { listener_idles self.new ≡ listener_idles self.old }
    {
        for _ in 0..NEW_LOOKS {
            match self.next_new(now) {
                Found::Kept => {}
                found => return found,
            }
        }
        Found::Nothing
    }

    fn next_new(&mut self, now: u64) -> Found
        ensures faults { listener_faults self.new ≡ listener_faults self.old }
        ensures idles { listener_idles self.new ≡ listener_idles self.old }
    {
        match accept_from(&self.socket, now) {
            Ok(one) if one.is_ready() => Found::Ready(one),
            Ok(one) => match self.room.put(one) {
                Some(oldest) => Found::Ready(oldest),
                None => Found::Kept,
            },
            Err(error) if error.kind() == ErrorKind::WouldBlock => Found::Nothing,
            Err(_) => Found::Failed,
        }
    }

    /// Hands out a connection.
    fn hand_out(&mut self, one: Waiting) -> Accept<NetConn>
        ensures accepted { Accepts
            (λ conn. tale (client_of conn) None None (conn_faults conn) (conn_ends conn))
            None None result }
        ensures idle { AcceptIdlesOnlyCounted (listener_idles self.old) (listener_idles self.new)
            result }
        ensures failed { AcceptFailsOnlyCounted (listener_faults self.old)
            (listener_faults self.new) result }
    {
        match NetConn::new(one.stream, one.client) {
            Ok(conn) => Accept::Got(conn),
            Err(_) => {
                self.count_fault();
                Accept::Failed
            }
        }
    }

    /// After a failure of the host, which may have no room for one more connection: hands out the
    /// one that waits longest.
    fn make_room(&mut self) -> Accept<NetConn>
        ensures accepted { Accepts
            (λ conn. tale (client_of conn) None None (conn_faults conn) (conn_ends conn))
            None None result }
        ensures idle { AcceptIdlesOnlyCounted (listener_idles self.old) (listener_idles self.new)
            result }
        ensures failed { AcceptFailsOnlyCounted (listener_faults self.old)
            (listener_faults self.new) result }
    {
        self.count_fault();
        match self.room.take_oldest() {
            Some(oldest) => self.hand_out(oldest),
            None => Accept::Failed,
        }
    }

    fn count_fault(&mut self)
        ensures risen { (listener_faults self.old ≤ listener_faults self.new)
            × Rose (listener_faults self.old) (listener_faults self.new) }
        ensures idles { listener_idles self.new ≡ listener_idles self.old }
    {
        self.faults = self.faults.saturating_add(1);
    }
}

impl<'a, R: Clock> Listener for NetListener<'a, R> {
    ghost use Rattle.std.specs.Prelude.{None};
    ghost use Rattle.ot_net.specs.Adapters.{listener_faults, listener_idles};

    type Link = NetConn;

    ghost links = { λ listener. None };

    ghost faults = { listener_faults };

    ghost idles = { listener_idles };

    fn accept(&mut self) -> Accept<NetConn> {
        let found = self.await_one();
        self.answer(found)
    }

    fn done(&mut self, _link: NetConn) {}

    ghost even = { λ listener. tt };
}

/// The connection that waits first, set not to block.
fn accept_from(socket: &TcpListener, now: u64) -> io::Result<Waiting> {
    let (stream, peer) = socket.accept()?;
    stream.set_nonblocking(true)?;
    Ok(Waiting {
        stream,
        client: endpoint(&peer),
        since: now,
    })
}
