//! What the host makes.

ghost use Rattle.std.specs.Prelude.{◌≡◌, IfOk, vec_len};
ghost use Rattle.std.specs.List.{All};
ghost use Rattle.ot_net.specs.Adapters.{listener_faults, listener_idles};
ghost use Rattle.ot_net.specs.Adapters.{wire_faults, wire_idles};

use crate::address::socket_address;
use crate::clock::HostClock;
use crate::listener::NetListener;
use crate::refusal::Refusal;
use crate::wire::NetWire;
use ot_base::{Endpoint, Family};
use ot_io::{Made, Outside};
use std::alloc::Global;
use std::net::{Net, TcpListener, UdpSocket};
use std::rt::Clock;
use std::time::Duration;

/// How long a receive waits for a datagram, in milliseconds.
const RECV_TIMEOUT: u64 = 250;

/// Sockets and clocks of the host.
#[derive(Drop)]
pub struct HostOutside<'a, R> {
    rt: &'a R,
    pub(crate) faults: u64,
}

impl<'a, R> HostOutside<'a, R> {
    ghost use Rattle.std.specs.Prelude.{◌≡◌};
    ghost use Rattle.ot_net.specs.Adapters.{outside_faults};
    ghost use Rattle.ot_net.specs.Making.{Answers};

    /// What this host makes.
    pub fn new(rt: &'a R) -> Self
        ensures { outside_faults result ≡ 0 }
    {
        HostOutside { rt, faults: 0 }
    }

    /// How many calls have failed. From 2^64 - 1 on the count stands still.
    pub fn faults(&self) -> u64
        ensures { result ≡ outside_faults self.now }
    {
        self.faults
    }

    /// What a maker answers.
    fn answer<T: Drop>(&mut self, made: Result<T, Refusal>) -> Made<T>
        ensures { Answers made result self.old.faults self.new.faults }
    {
        match made {
            Ok(made) => Made::Got(made),
            Err(Refusal::NoMemory) => Made::NoMemory,
            Err(Refusal::Host) => {
                self.faults = self.faults.saturating_add(1);
                Made::Failed
            }
        }
    }
}

impl<'a, R> Outside for HostOutside<'a, R>
where
    R: Net + Alloc<A = Global> + Clock,
{
    ghost use Rattle.std.specs.Prelude.{None};
    ghost use Rattle.ot_net.specs.Adapters.{outside_faults};

    type W = NetWire<'a, R>;

    type L = NetListener<'a, R>;

    type C = HostClock<'a, R>;

    ghost wires_lent = { λ outside. None };

    ghost listeners_lent = { λ outside. None };

    ghost faults = { outside_faults };

    fn wires(&mut self, at: Endpoint, n: u32) -> Made<Vec<NetWire<'a, R>>> {
        let made = bind_wires(self.rt, at, n);
        self.answer(made)
    }

    fn listeners(&mut self, at: Endpoint, n: u32) -> Made<Vec<NetListener<'a, R>>> {
        let made = bind_listeners(self.rt, at, n);
        self.answer(made)
    }

    fn clocks(&mut self, n: u32) -> Made<Vec<HostClock<'a, R>>> {
        let made = make_clocks(self.rt, n);
        self.answer(made)
    }

    fn wire_back(&mut self, _wire: NetWire<'a, R>) {}

    fn listener_back(&mut self, _listener: NetListener<'a, R>) {}

    ghost fair_wires = { λ outside. tt };

    ghost fair_listeners = { λ outside. tt };
}

/// So many wires over one socket at this address. It is closed with the last of them.
fn bind_wires<'a, R: Net + Alloc<A = Global>>(
    rt: &'a R,
    at: Endpoint,
    n: u32,
) -> Result<Vec<NetWire<'a, R>>, Refusal>
    ensures count { IfOk result (λ wires. vec_len wires ≡ n) }
    ensures new { IfOk result (λ wires.
        All (λ wire. (wire_faults wire ≡ 0) × (wire_idles wire ≡ 0)) wires.items) }
{
    let is_six = at.addr.family() == Family::Six;
    let socket = UdpSocket::bind(rt, socket_address(at, is_six))?;
    socket.set_read_timeout(Some(Duration::from_millis(RECV_TIMEOUT)))?;
    let mut wires = Vec::with_capacity(rt.alloc(), n as usize)?;
    for _made in 0..n {
        wires.push(NetWire::new(rt, socket.try_clone()?, is_six))?;
    }
    Ok(wires)
}

/// So many listeners over one socket at this address. It is closed with the last of them.
fn bind_listeners<'a, R: Net + Alloc<A = Global>>(
    rt: &'a R,
    at: Endpoint,
    n: u32,
) -> Result<Vec<NetListener<'a, R>>, Refusal>
    ensures count { IfOk result (λ listeners. vec_len listeners ≡ n) }
    ensures new { IfOk result (λ listeners.
        All (λ listener. (listener_faults listener ≡ 0) × (listener_idles listener ≡ 0))
        listeners.items) }
{
    let is_six = at.addr.family() == Family::Six;
    // mio's is set not to block, and has room for as many new connections as the host allows.
    let bound = mio::net::TcpListener::bind(rt, socket_address(at, is_six))?;
    let socket = TcpListener::from(bound);
    let mut listeners = Vec::with_capacity(rt.alloc(), n as usize)?;
    for _made in 0..n {
        listeners.push(NetListener::new(rt, socket.try_clone()?)?)?;
    }
    Ok(listeners)
}

/// So many clocks.
fn make_clocks<'a, R: Alloc<A = Global> + Clock>(
    rt: &'a R,
    n: u32,
) -> Result<Vec<HostClock<'a, R>>, Refusal>
    ensures { IfOk result (λ clocks. vec_len clocks ≡ n) }
{
    let mut clocks = Vec::with_capacity(rt.alloc(), n as usize)?;
    for _made in 0..n {
        clocks.push(HostClock::new(rt))?;
    }
    Ok(clocks)
}
