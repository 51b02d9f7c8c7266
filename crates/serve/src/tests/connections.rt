//! Connections, with replies worked out by hand, and each way in which they end.

ghost use Rattle.std.specs.Prelude.{◌≡◌, false};

use super::{CLIENT, shards};
use crate::{ConnEnd, Scratch, serve_connection};
use http_wire::Code;
use ot_base::{Addr, Endpoint};
use ot_io::{ConnScript, MemClock, MemConn};
use shards::{Pass, Shards};
use std::alloc::{AllocError, Global};
use std::process::Abort;
use std::sync::Wait;
use std::test::Fail;

/// What a usual client sends.
const USUAL: &[u8] = b"GET /announce?info_hash=\
    %11%11%11%11%11%11%11%11%11%11%11%11%11%11%11%11%11%11%11%11\
    &peer_id=-TR4050-abcdefghijkl&port=51413&uploaded=0&downloaded=0&left=0&numwant=80\
    &key=1a2b3c4d&compact=1&supportcrypto=1&event=started HTTP/1.1\r\n\
    Host: tracker.example:6969\r\nAccept: */*\r\nAccept-Encoding: deflate, gzip\r\n\r\n";

/// Its reply where nobody else takes part.
const REPLY: &[u8] = b"HTTP/1.1 200 OK\r\nContent-Type: text/plain\r\nContent-Length: 92\r\n\
    Connection: close\r\n\r\n\
    d8:completei1e10:downloadedi0e10:incompletei0e\
    8:intervali1800e12:min intervali900e5:peers0:e";

/// A seeder of a torrent in another bucket.
const OTHER: &[u8] = b"GET /announce?info_hash=\
    %FF%FF%FF%FF%FF%FF%FF%FF%FF%FF%FF%FF%FF%FF%FF%FF%FF%FF%FF%FF\
    &port=6881&left=0 HTTP/1.1\r\n\r\n";

const ALL: &[u8] = b"GET /scrape HTTP/1.1\r\n\r\n";

/// What that is told of the two torrents.
const BOTH: &[u8] = b"HTTP/1.1 200 OK\r\nContent-Type: text/plain\r\nConnection: close\r\n\r\n\
    d5:filesd\
    20:\x11\x11\x11\x11\x11\x11\x11\x11\x11\x11\x11\x11\x11\x11\x11\x11\x11\x11\x11\x11\
    d8:completei1e10:downloadedi0e10:incompletei0ee\
    20:\xff\xff\xff\xff\xff\xff\xff\xff\xff\xff\xff\xff\xff\xff\xff\xff\xff\xff\xff\xff\
    d8:completei1e10:downloadedi0e10:incompletei0eeee";

/// What an announce is told that names no torrent.
const REFUSED: &[u8] = b"HTTP/1.1 200 OK\r\nContent-Type: text/plain\r\n\
    Content-Length: 39\r\nConnection: close\r\n\r\nd14:failure reason17:missing info_hashe";

const NOT_FOUND: &[u8] = b"HTTP/1.1 404 Not Found\r\nContent-Type: text/plain\r\n\
    Content-Length: 0\r\nConnection: close\r\n\r\n";

const BAD: &[u8] = b"HTTP/1.1 400 Bad Request\r\nContent-Type: text/plain\r\n\
    Content-Length: 0\r\nConnection: close\r\n\r\n";

const TOO_LARGE: &[u8] = b"HTTP/1.1 431 Request Header Fields Too Large\r\n\
    Content-Type: text/plain\r\nContent-Length: 0\r\nConnection: close\r\n\r\n";

/// No call of a connection has this number.
const NONE: u64 = 1000;

/// What a client sends, a byte first and then the rest; the number of the call that fails; how its
/// connection is to end, and what is to be written to it.
#[derive(Clone, Copy)]
struct Case<'a> {
    client: Endpoint,
    sent: &'a [u8],
    failing: u64,
    end: ConnEnd,
    written: &'a [u8],
}

/// What CLIENT is to be sent whole, where no call fails.
fn replied<'a>(sent: &'a [u8], code: Code, written: &'a [u8]) -> Case<'a> {
    Case {
        client: CLIENT,
        sent,
        failing: NONE,
        end: ConnEnd::Replied(code),
        written,
    }
}

/// What CLIENT is to be sent of a reply, where a call fails.
fn failed<'a>(sent: &'a [u8], failing: u64, end: ConnEnd, written: &'a [u8]) -> Case<'a> {
    Case {
        client: CLIENT,
        sent,
        failing,
        end,
        written,
    }
}

/// Serves the connection in minute 0. Its client takes at most 100 bytes at once.
fn served<R: Wait>(
    rt: &R,
    alloc: Global,
    shards: &Shards,
    pass: &mut Pass,
    case: &Case,
) -> Result<(ConnEnd, MemConn), AllocError>
    requires pass { pass.old.shards ≡ shards.now }
    ensures pass { pass.new.shards ≡ shards.now }
{
    let script = ConnScript {
        sent: Vec::from_slice(alloc, case.sent)?,
        lengths: Vec::from_slice(alloc, &[1])?,
        room: 1000,
        piece: 100,
        failing: Vec::from_slice(alloc, &[case.failing])?,
    };
    let mut conn = MemConn::new(alloc, case.client, script)?;
    let mut clock = MemClock::new(0, 1);
    let mut scratch = Scratch::new(0);
    let end = serve_connection(
        rt,
        alloc,
        shards,
        pass,
        &mut conn,
        &mut clock,
        None,
        true,
        &mut scratch,
    );
    Ok((end, conn))
}

/// Serves one connection after another, and checks how each ended.
fn serve_each<R: Wait + Abort>(rt: &R, alloc: Global, cases: &[Case]) -> Result<(), AllocError> {
    let (shards, mut pass) = shards(alloc)?;
    'served: for (number, case) in cases.iter().enumerate() {
        let (end, conn) = served(rt, alloc, &shards, &mut pass, case).expect(rt, "memory");
        assert_eq!(rt; end, case.end, "{number}");
        assert_eq!(rt; conn.written(), case.written, "{number}");
    }
    Ok(())
}

/// Of a reply that is lost by a failing call, what was written before stays.
#[test]
fn an_announce_is_replied_to(rt: HostRuntime) -> Result<(), Fail> {
    serve_each(
        &rt,
        rt.alloc(),
        &[
            failed(USUAL, 0, ConnEnd::ReadFault, b""),
            failed(USUAL, 1, ConnEnd::ReadFault, b""),
            failed(USUAL, 2, ConnEnd::WriteFault, b""),
            failed(USUAL, 3, ConnEnd::WriteFault, &REPLY[..100]),
            replied(USUAL, Code::Ok, REPLY),
        ],
    )?;
    Ok(())
}

/// The front of the reply and the rows of each bucket are written by themselves.
#[test]
fn all_torrents_are_told(rt: HostRuntime) -> Result<(), Fail> {
    serve_each(
        &rt,
        rt.alloc(),
        &[
            replied(OTHER, Code::Ok, REPLY),
            replied(USUAL, Code::Ok, REPLY),
            replied(ALL, Code::Ok, BOTH),
            failed(ALL, 1, ConnEnd::ReadFault, b""),
            failed(ALL, 2, ConnEnd::WriteFault, b""),
            failed(ALL, 3, ConnEnd::WriteFault, &BOTH[..73]),
            failed(ALL, 4, ConnEnd::WriteFault, &BOTH[..143]),
            failed(ALL, 5, ConnEnd::WriteFault, &BOTH[..213]),
            failed(ALL, 6, ConnEnd::Replied(Code::Ok), BOTH),
        ],
    )?;
    Ok(())
}

/// Each code, and the ends without a reply.
#[test]
fn requests_end_by_what_they_are(rt: HostRuntime) -> Result<(), Fail> {
    let long = vec![in rt.alloc(); b'a'; 8_192]?;
    let six = Endpoint {
        addr: Addr::V6([0x20; 16]),
        port: 6881,
    };
    serve_each(
        &rt,
        rt.alloc(),
        &[
            replied(b"GET /announce HTTP/1.1\r\n\r\n", Code::Ok, REFUSED),
            replied(b"GET /stats HTTP/1.1\r\n\r\n", Code::NotFound, NOT_FOUND),
            replied(b"POST /announce HTTP/1.1\r\n\r\n", Code::BadRequest, BAD),
            replied(b"GET /announce\r\n", Code::BadRequest, BAD),
            replied(long.as_slice(), Code::TooLarge, TOO_LARGE),
            failed(b"GET /ann", NONE, ConnEnd::Cut, b""),
            Case {
                client: six,
                sent: USUAL,
                failing: NONE,
                end: ConnEnd::Unbuilt,
                written: b"",
            },
        ],
    )?;
    Ok(())
}
