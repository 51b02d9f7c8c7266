//! Scrapes of all torrents.

use super::connections::{line_of, reply_of};
use super::datagrams::{A, B, NOTHING, P, announce, trace_of};
use super::{USUAL, replayed};
use ot_io::{ReplaySettings, Status};
use std::alloc::{AllocError, Global};
use std::test::Fail;

/// The info hash of zeros.
const Z: u8 = 0;

const ALL: &[u8] = b"GET /scrape HTTP/1.1\r\nHost: t\r\n\r\n";

/// What a first leecher is told, whatever its torrent.
const LEECHER: &str = "R 0000000112345678000007080000000100000000\n";

/// The output line of a full scrape's reply with this body, whose length its head doesn't tell.
fn long_reply_of(alloc: Global, body: &[u8]) -> Result<String, AllocError> {
    let head = "HTTP/1.1 200 OK\r\nContent-Type: text/plain\r\nConnection: close\r\n\r\n";
    let head = hex::encode(alloc, head.as_bytes())?;
    let body = hex::encode(alloc, body)?;
    format!(in alloc; "R {head}{body}\n")
}

/// What a replay writes in which somebody announces each of the torrents at second 0, and all
/// torrents are asked for at another second.
fn told_of_all(rt: &HostRuntime, full: bool, hashes: &[u8], second: u64) -> Result<Vec<u8>, Fail> {
    let mut trace = String::new(rt.alloc());
    for hash in hashes {
        trace.push_str(&trace_of(rt.alloc(), &[announce(0, P, *hash, 9, NOTHING)])?)?;
    }
    trace.push_str(&line_of(rt.alloc(), second, "192.0.2.9", ALL)?)?;
    let settings = ReplaySettings { full, ..USUAL };
    match replayed(rt, settings, &trace)? {
        (Status::Done, written) => Ok(written),
        (_, _) => Ok(Vec::new(rt.alloc())),
    }
}

/// All known torrents are told in the order of their hashes, each once.
#[test]
fn all_torrents_are_told_in_order(rt: HostRuntime) -> Result<(), Fail> {
    for (shows, hashes, body) in [
        ("nothing is known", [].as_slice(), b"d5:filesdee".as_slice()),
        (
            "three, of which each is in another bucket",
            [B, A, Z].as_slice(),
            b"d5:filesd\
            20:\x00\x00\x00\x00\x00\x00\x00\x00\x00\x00\x00\x00\x00\x00\x00\x00\x00\x00\x00\x00\
            d8:completei0e10:downloadedi0e10:incompletei1ee\
            20:\x11\x11\x11\x11\x11\x11\x11\x11\x11\x11\x11\x11\x11\x11\x11\x11\x11\x11\x11\x11\
            d8:completei0e10:downloadedi0e10:incompletei1ee\
            20:\xff\xff\xff\xff\xff\xff\xff\xff\xff\xff\xff\xff\xff\xff\xff\xff\xff\xff\xff\xff\
            d8:completei0e10:downloadedi0e10:incompletei1eeee"
                .as_slice(),
        ),
    ] {
        let mut expected = String::new(rt.alloc());
        for _ in hashes {
            expected.push_str(LEECHER)?;
        }
        expected.push_str(&long_reply_of(rt.alloc(), body)?)?;
        let written = told_of_all(&rt, true, hashes, 0)?;
        assert_eq!(rt; written.as_slice(), expected.as_bytes(), "{shows}");
    }
    Ok(())
}

/// A torrent is known for a day, though its peers are gone after 45 minutes.
#[test]
fn a_torrent_is_told_for_a_day(rt: HostRuntime) -> Result<(), Fail> {
    for (second, body) in [
        (
            86_399,
            b"d5:filesd\
            20:\x11\x11\x11\x11\x11\x11\x11\x11\x11\x11\x11\x11\x11\x11\x11\x11\x11\x11\x11\x11\
            d8:completei0e10:downloadedi0e10:incompletei0eeee"
                .as_slice(),
        ),
        (86_400, b"d5:filesdee".as_slice()),
    ] {
        let reply = long_reply_of(rt.alloc(), body)?;
        let expected = format!(in rt.alloc(); "{LEECHER}{reply}")?;
        let written = told_of_all(&rt, true, &[A], second)?;
        assert_eq!(rt; written.as_slice(), expected.as_bytes(), "{second}");
    }
    Ok(())
}

#[test]
fn all_torrents_are_not_found_where_that_is_off(rt: HostRuntime) -> Result<(), Fail> {
    let reply = reply_of(rt.alloc(), "404 Not Found", b"")?;
    let expected = format!(in rt.alloc(); "{LEECHER}{reply}")?;
    let written = told_of_all(&rt, false, &[A], 0)?;
    assert_eq!(rt; written.as_slice(), expected.as_bytes());
    Ok(())
}
