//! A server at sockets of the host, and clients that ask it over both protocols.

use super::*;
use ot_io::{Piece, Source};
use ot_net::HostOutside;
use std::alloc::{AllocError, Global};
use std::io::{self, Write};
use std::net::{Net, TcpListener, TcpStream, UdpSocket};
use std::rt::Clock;
use std::sync::Wait;
use std::sync::atomic::{AtomicBool, Ordering};
use std::thread;
use std::thread::Threads;
use std::time::Duration;

/// A seeder's request over HTTP, and its reply where nobody else takes part.
const REQUEST: &[u8] = b"GET /announce?info_hash=\
    %11%11%11%11%11%11%11%11%11%11%11%11%11%11%11%11%11%11%11%11\
    &peer_id=-TR4050-abcdefghijkl&port=51413&uploaded=0&downloaded=0&left=0&compact=1\
    &event=started HTTP/1.1\r\nHost: 127.0.0.1\r\n\r\n";

const REPLY: &[u8] = b"HTTP/1.1 200 OK\r\nContent-Type: text/plain\r\nContent-Length: 92\r\n\
    Connection: close\r\n\r\n\
    d8:completei1e10:downloadedi0e10:incompletei0e\
    8:intervali1800e12:min intervali900e5:peers0:e";

/// A connect request of BEP 15, and the front of its reply, behind which the id stands.
const CONNECT_REQUEST: [u8; 16] =
    *b"\x00\x00\x04\x17\x27\x10\x19\x80\x00\x00\x00\x00\x00\x00\x00\x07";

const CONNECTED: [u8; 8] = *b"\x00\x00\x00\x00\x00\x00\x00\x07";

/// A leecher's announce of the same torrent, behind its id.
const ANNOUNCE: [u8; 90] = *b"\x00\x00\x00\x01\x00\x00\x00\x08\
    \x11\x11\x11\x11\x11\x11\x11\x11\x11\x11\x11\x11\x11\x11\x11\x11\x11\x11\x11\x11\
    \x00\x00\x00\x00\x00\x00\x00\x00\x00\x00\x00\x00\x00\x00\x00\x00\x00\x00\x00\x00\
    \x00\x00\x00\x00\x00\x00\x00\x00\x00\x00\x00\x00\x00\x00\x00\x05\
    \x00\x00\x00\x00\x00\x00\x00\x00\x00\x00\x00\x02\
    \x00\x00\x00\x00\x00\x00\x00\x00\xff\xff\xff\xff\x1a\xe1";

/// Its reply: one leecher, one seeder, and that one's address.
const ANNOUNCED: &[u8] = b"\x00\x00\x00\x01\x00\x00\x00\x08\x00\x00\x07\x08\
    \x00\x00\x00\x01\x00\x00\x00\x01\x7f\x00\x00\x01\xc8\xd5";

/// What the server writes at its end, before the number of calls: the buckets are cleaned as time
/// goes.
const SUMMARY: &[u8] = b"torrents 1 complete 1 incomplete 1 calls ";

/// An input that ends once its flag is up, or after a minute.
#[derive(Drop)]
struct Until<'a, R> {
    rt: &'a R,
    is_over: &'a AtomicBool,
    ends: u64,
}

impl<R: Clock> Source for Until<'_, R> {
    ghost use Rattle.std.specs.Prelude.{None};

    ghost left = { λ source. None };

    ghost faults = { λ source. 0 };

    ghost ends = { λ source. source.ends };

    fn read(&mut self, _buf: &mut [u8]) -> Piece {
        for _ in 0..60_000u32 {
            if self.is_over.load(Ordering::SeqCst) {
                break;
            }
            thread::sleep(self.rt, Duration::from_millis(1));
        }
        self.ends = self.ends.saturating_add(1);
        Piece::End
    }
}

/// How a server ended, and what it wrote.
#[derive(Debug, Drop)]
struct Served {
    status: Status,
    out: Vec<u8>,
    err: Vec<u8>,
}

/// Runs a server at these ports of loopback until the flag is up.
fn serve<R: Threads + Wait + Sync + Net + Alloc<A = Global> + Clock>(
    rt: &R,
    udp: u16,
    http: u16,
    is_over: &AtomicBool,
) -> Result<Served, AllocError> {
    let udp = format!(in rt.alloc(); "udp=127.0.0.1:{udp}")?;
    let http = format!(in rt.alloc(); "http=127.0.0.1:{http}")?;
    let words = ["serve", ZEROS, udp.as_str(), http.as_str()];
    let mut input = Until {
        rt,
        is_over,
        ends: 0,
    };
    let mut out = MemSink::with_capacity(rt.alloc(), 100, 100, &[])?;
    let mut err = MemSink::with_capacity(rt.alloc(), 100, 100, &[])?;
    let mut outside = HostOutside::new(rt);
    let status = run(
        rt,
        rt.alloc(),
        &words,
        &mut input,
        &mut out,
        &mut err,
        &mut outside,
    );
    Ok(Served {
        status,
        out: Vec::from_slice(rt.alloc(), out.written())?,
        err: Vec::from_slice(rt.alloc(), err.written())?,
    })
}

/// What clients were told: over HTTP, of an id and of a leecher's announce.
#[derive(Debug, Drop)]
struct Told {
    page: String,
    connected: Vec<u8>,
    announced: Vec<u8>,
}

/// A stream to a server, once it listens there, or after ten seconds at the latest.
fn stream_to<R: Net<Stream = TcpStream> + Clock>(rt: &R, port: u16) -> io::Result<TcpStream> {
    for _ in 0..1_000u32 {
        match TcpStream::connect(rt, ("127.0.0.1", port)) {
            Ok(stream) => return Ok(stream),
            Err(_) => thread::sleep(rt, Duration::from_millis(10)),
        }
    }
    TcpStream::connect(rt, ("127.0.0.1", port))
}

/// Sends a datagram, and receives one.
fn exchange(alloc: Global, socket: &UdpSocket, port: u16, ask: &[u8]) -> io::Result<Vec<u8>> {
    let mut reply = [0; 2048];
    socket.send_to(ask, ("127.0.0.1", port))?;
    let (len, _from) = socket.recv_from(&mut reply)?;
    Ok(Vec::from_slice(alloc, &reply[..len])?)
}

/// Asks the server over HTTP, and then over UDP: its wires are made before its listeners.
fn ask<R: Net<Stream = TcpStream> + Alloc<A = Global> + Clock>(
    rt: &R,
    udp: u16,
    http: u16,
) -> io::Result<Told> {
    let timeout = Some(Duration::from_secs(10));
    let mut stream = stream_to(rt, http)?;
    stream.set_read_timeout(timeout)?;
    stream.write_all(REQUEST)?;
    let page = io::read_to_string(rt.alloc(), stream)?;
    let socket = UdpSocket::bind(rt, "127.0.0.1:0")?;
    socket.set_read_timeout(timeout)?;
    let connected = exchange(rt.alloc(), &socket, udp, &CONNECT_REQUEST)?;
    let mut announce = Vec::from_slice(rt.alloc(), connected.get(8..).unwrap_or(&[]))?;
    announce.extend_from_slice(&ANNOUNCE)?;
    let announced = exchange(rt.alloc(), &socket, udp, announce.as_slice())?;
    Ok(Told {
        page,
        connected,
        announced,
    })
}

/// The same, and then the flag is raised, however it went.
fn ask_and_end<R: Net<Stream = TcpStream> + Alloc<A = Global> + Clock>(
    rt: &R,
    udp: u16,
    http: u16,
    is_over: &AtomicBool,
) -> io::Result<Told> {
    let told = ask(rt, udp, http);
    is_over.store(true, Ordering::SeqCst);
    told
}

/// Ports of loopback that are free, for UDP and for TCP.
fn free_ports(rt: &HostRuntime) -> io::Result<(u16, u16)> {
    let udp = UdpSocket::bind(rt, "127.0.0.1:0")?.local_addr()?.port();
    let http = TcpListener::bind(rt, "127.0.0.1:0")?.local_addr()?.port();
    Ok((udp, http))
}

#[test]
fn both_protocols_tell_of_one_torrent(rt: HostRuntime) -> Result<(), Fail> {
    let (udp, http) = free_ports(&rt)?;
    let is_over = AtomicBool::new(false);
    let (served, told) = thread::join(
        &rt,
        || serve(&rt, udp, http, &is_over),
        || ask_and_end(&rt, udp, http, &is_over),
    );
    let (served, told) = (served?, told?);
    assert_eq!(&rt; told.page.as_str().as_bytes(), REPLY);
    assert_eq!(&rt; told.connected.len(), 16);
    assert_eq!(&rt; told.connected.as_slice()[..8], CONNECTED[..]);
    assert_eq!(&rt; told.announced.as_slice(), ANNOUNCED);
    assert_eq!(&rt; served.status, Status::Done);
    assert!(&rt; served.out.as_slice().starts_with(SUMMARY));
    assert_eq!(&rt; served.err.len(), 0);
    Ok(())
}
