//! Connections, each as a record of what it sent, with replies worked out by hand.

use super::{USUAL, replayed};
use ot_io::Status;
use std::alloc::{AllocError, Global};
use std::test::Fail;

/// The record of what a connection from an address sent at a second.
pub fn line_of(alloc: Global, second: u64, who: &str, sent: &[u8]) -> Result<String, AllocError> {
    let digits = hex::encode(alloc, sent)?;
    format!(in alloc; "H {second} {who} 5000 {digits}\n")
}

/// The output line of a reply with this code and body.
pub fn reply_of(alloc: Global, code: &str, body: &[u8]) -> Result<String, AllocError> {
    let len = body.len();
    let head = format!(in alloc;
        "HTTP/1.1 {code}\r\nContent-Type: text/plain\r\nContent-Length: \
        {len}\r\nConnection: close\r\n\r\n"
    )?;
    let head = hex::encode(alloc, head.as_bytes())?;
    let body = hex::encode(alloc, body)?;
    format!(in alloc; "R {head}{body}\n")
}

/// Nothing is told but that an announce is refused.
const MISSING_HASH: &[u8] = b"d14:failure reason17:missing info_hashe";

const BAD_HASH: &[u8] = b"d14:failure reason13:bad info_hashe";

const MISSING_PORT: &[u8] = b"d14:failure reason12:missing porte";

const BAD_PORT: &[u8] = b"d14:failure reason8:bad porte";

/// A first peer is told its own count alone.
const LEECHER: &[u8] = b"d8:completei0e10:downloadedi0e10:incompletei1e8:intervali1800e12:min \
    intervali900e5:peers0:e";

const SEEDER: &[u8] = b"d8:completei1e10:downloadedi0e10:incompletei0e8:intervali1800e12:min \
    intervali900e5:peers0:e";

/// A query has the one answer of its first bad part, and the first pair of a name counts. `%11` is
/// the byte 0x11.
#[test]
fn each_query_has_its_one_reply(rt: HostRuntime) -> Result<(), Fail> {
    let hash = "%11%11%11%11%11%11%11%11%11%11%11%11%11%11%11%11%11%11%11%11";
    for (query, body) in [
        ("", MISSING_HASH),
        ("?", MISSING_HASH),
        ("?&&", MISSING_HASH),
        ("?=", MISSING_HASH),
        ("?port=1", MISSING_HASH),
        ("?&&info_hash", BAD_HASH),
        ("?info_hash=%1&port=1", BAD_HASH),
        ("?info_hash=%&port=1", BAD_HASH),
        ("?info_hash=%zz&port=1", BAD_HASH),
        ("?info_hash=1234567890123456789&port=0", BAD_HASH),
        ("?info_hash=123456789012345678901&port=1", BAD_HASH),
        (
            "?info_hash=1&info_hash=12345678901234567890&port=1",
            BAD_HASH,
        ),
        ("?info_hash={h}", MISSING_PORT),
        ("?info_hash={h}&port", BAD_PORT),
        ("?info_hash={h}&port=0", BAD_PORT),
        ("?info_hash={h}&port=65536", BAD_PORT),
        ("?info_hash={h}&port=-1", BAD_PORT),
        ("?info_hash={h}&port=18446744073709551615", BAD_PORT),
        ("?info_hash={h}&port=99999999999999999999", BAD_PORT),
        ("?info_hash={h}&port=0&port=1", BAD_PORT),
        ("?info_hash={h}&port=00080", LEECHER),
        ("?info_hash={h}&port=65535&left=", LEECHER),
        ("?info_hash=+234567890123456789+&port=1", LEECHER),
        ("?info%5Fhash=%zz45678901234567890&port=%31", LEECHER),
        ("?info_hash={h}&port=1&left=18446744073709551616", LEECHER),
        ("?info_hash={h}&port=1&left=5&left=0", LEECHER),
        ("?info_hash={h}&port=1&left=000", SEEDER),
        ("?info_hash={h}&port=1&event=Completed", LEECHER),
    ] {
        let query = query.replace(rt.alloc(), "{h}", hash)?;
        let sent = format!(in rt.alloc(); "GET /announce{query} HTTP/1.1\r\nHost: t\r\n\r\n")?;
        let trace = line_of(rt.alloc(), 0, "192.0.2.1", sent.as_bytes())?;
        let expected = reply_of(rt.alloc(), "200 OK", body)?;
        let (status, written) = replayed(&rt, USUAL, &trace)?;
        assert_eq!(rt; status, Status::Done, "{query}");
        assert_eq!(rt; written.as_slice(), expected.as_bytes(), "{query}");
    }
    Ok(())
}

/// A head is one of a request to a known path, or the connection has another code, or no reply.
#[test]
fn each_head_has_its_one_reply(rt: HostRuntime) -> Result<(), Fail> {
    let empty: &[u8] = b"";
    for (sent, code, body) in [
        (
            "GET /announce HTTP/1.1\r\nHost: t\r\n\r\nand more",
            "200 OK",
            MISSING_HASH,
        ),
        ("\r\n\nGET /announce HTTP/1.0\n\n", "200 OK", MISSING_HASH),
        (
            "GET /announce?\u{e9} HTTP/1.1\r\n\r\n",
            "200 OK",
            MISSING_HASH,
        ),
        (
            "POST /announce HTTP/1.1\r\nHost: t\r\n\r\n",
            "400 Bad Request",
            empty,
        ),
        ("GET /announce\r\n", "400 Bad Request", empty),
        (
            "GET /announce HTTP/2.0\r\nHost: t\r\n\r\n",
            "400 Bad Request",
            empty,
        ),
        (
            "GET /stats HTTP/1.1\r\nHost: t\r\n\r\n",
            "404 Not Found",
            empty,
        ),
        ("GET /announce/ HTTP/1.1\r\n\r\n", "404 Not Found", empty),
        ("GET /scrape HTTP/1.1\r\n\r\n", "404 Not Found", empty),
        ("", "", empty),
        ("GET /ann", "", empty),
        ("GET /announce HTTP/1.1\r\nHost: t\r\n", "", empty),
        (
            "GET /announce HTTP/1.1\r\nHost: t\r\n folded\r\n\r\n",
            "",
            empty,
        ),
        ("GET /announce HTTP/1.1\r\nHost : t\r\n\r\n", "", empty),
    ] {
        let trace = line_of(rt.alloc(), 0, "192.0.2.1", sent.as_bytes())?;
        let expected = if code.is_empty() {
            format!(in rt.alloc(); "S cut\n")?
        } else {
            reply_of(rt.alloc(), code, body)?
        };
        let (status, written) = replayed(&rt, USUAL, &trace)?;
        assert_eq!(rt; status, Status::Done, "{sent}");
        assert_eq!(rt; written.as_slice(), expected.as_bytes(), "{sent}");
    }
    let raw = line_of(
        rt.alloc(),
        0,
        "192.0.2.1",
        b"GET /announce?\xe9 HTTP/1.1\r\n\r\n",
    )?;
    let (status, written) = replayed(&rt, USUAL, &raw)?;
    assert_eq!(rt; status, Status::Done);
    assert_eq!(rt; written.as_slice(), b"S cut\n".as_slice());
    Ok(())
}

/// A head has at most 64 fields and 8,192 bytes.
#[test]
fn heads_as_long_as_they_may_be(rt: HostRuntime) -> Result<(), Fail> {
    let answered = reply_of(rt.alloc(), "200 OK", MISSING_HASH)?;
    let too_large = reply_of(rt.alloc(), "431 Request Header Fields Too Large", b"")?;
    for (fields, bytes, end, expected) in [
        (64, 0, "\r\n", &answered),
        (65, 0, "\r\n", &too_large),
        (1, 8192, "\r\n", &answered),
        (1, 8193, "\r\n", &too_large),
        (1, 8192, "aa", &too_large),
    ] {
        let mut sent = format!(in rt.alloc(); "GET /announce HTTP/1.1\r\n")?;
        for _ in 1..fields {
            sent.push_str("a: b\r\n")?;
        }
        sent.push_str("a: ")?;
        for _ in sent.len().saturating_add(4)..bytes {
            sent.push('b')?;
        }
        sent.push_str("\r\n")?;
        sent.push_str(end)?;
        let trace = line_of(rt.alloc(), 0, "192.0.2.1", sent.as_bytes())?;
        let (status, written) = replayed(&rt, USUAL, &trace)?;
        assert_eq!(rt; status, Status::Done, "{fields} {bytes}");
        assert_eq!(rt; written.as_slice(), expected.as_bytes(), "{fields} {bytes}");
    }
    Ok(())
}

/// Peers of both protocols meet in one tracker. A scrape tells each known torrent that it names
/// once, in the order of the hashes, and is refused whole for one bad hash.
#[test]
fn peers_meet_over_http(rt: HostRuntime) -> Result<(), Fail> {
    let one = "%11%11%11%11%11%11%11%11%11%11%11%11%11%11%11%11%11%11%11%11";
    let other = "%ff%ff%ff%ff%ff%ff%ff%ff%ff%ff%ff%ff%ff%ff%ff%ff%ff%ff%ff%ff";
    let zero = "%00%00%00%00%00%00%00%00%00%00%00%00%00%00%00%00%00%00%00%00";
    let mut trace = String::new(rt.alloc());
    let mut expected = String::new(rt.alloc());
    for (who, target, body) in [
        (
            "192.0.2.1",
            "/announce?info_hash={1}&peer_id=-TR4050-abcdefghijkl&port=51413&uploaded=0\
            &downloaded=0&left=0&numwant=80&key=1a2b3c4d&compact=1&supportcrypto=1&event=started",
            SEEDER,
        ),
        (
            "192.0.2.2",
            "/announce?info_hash={f}&port=6881&left=9",
            LEECHER,
        ),
        (
            "192.0.2.2",
            "/announce?info_hash={1}&port=6881&left=9&numwant=none",
            b"d8:completei1e10:downloadedi0e10:incompletei1e8:intervali1800e12:min \
            intervali900e5:peers6:\xc0\x00\x02\x01\xc8\xd5e"
                .as_slice(),
        ),
        (
            "192.0.2.2",
            "/announce?info_hash={1}&port=6881&event=completed&numwant=0",
            b"d8:completei2e10:downloadedi1e10:incompletei0e8:intervali1800e12:min \
            intervali900e5:peers0:e"
                .as_slice(),
        ),
        (
            "192.0.2.2",
            "/announce?info_hash={1}&port=6881&event=stopped",
            b"d8:completei1e10:downloadedi1e10:incompletei0e8:intervali1800e12:min \
            intervali900e5:peers0:e"
                .as_slice(),
        ),
        (
            "192.0.2.3",
            "/scrape?info_hash={f}&info_hash={1}&x&info_hash={f}&info_hash={0}",
            b"d5:filesd\
            20:\x11\x11\x11\x11\x11\x11\x11\x11\x11\x11\x11\x11\x11\x11\x11\x11\x11\x11\x11\x11\
            d8:completei1e10:downloadedi1e10:incompletei0ee\
            20:\xff\xff\xff\xff\xff\xff\xff\xff\xff\xff\xff\xff\xff\xff\xff\xff\xff\xff\xff\xff\
            d8:completei0e10:downloadedi0e10:incompletei1eeee"
                .as_slice(),
        ),
        (
            "192.0.2.3",
            "/scrape?info_hash={0}",
            b"d5:filesdee".as_slice(),
        ),
        ("192.0.2.3", "/scrape?info_hash={1}&info_hash=1", BAD_HASH),
    ] {
        let target = target.replace(rt.alloc(), "{1}", one)?;
        let target = target.replace(rt.alloc(), "{f}", other)?;
        let target = target.replace(rt.alloc(), "{0}", zero)?;
        let sent = format!(in rt.alloc(); "GET {target} HTTP/1.1\r\nHost: t\r\n\r\n")?;
        let line = line_of(rt.alloc(), 0, who, sent.as_bytes())?;
        let reply = reply_of(rt.alloc(), "200 OK", body)?;
        trace.push_str(&line)?;
        expected.push_str(&reply)?;
    }
    let (status, written) = replayed(&rt, USUAL, &trace)?;
    assert_eq!(rt; status, Status::Done);
    assert_eq!(rt; written.as_slice(), expected.as_bytes());
    Ok(())
}

/// The cleaner tells how many live peers are left: one for 45 minutes, and then none.
#[test]
fn the_cleaner_tells_what_is_left(rt: HostRuntime) -> Result<(), Fail> {
    let sent = b"GET /announce?info_hash=12345678901234567890&port=1 HTTP/1.1\r\n\r\n";
    let announce = line_of(rt.alloc(), 0, "192.0.2.1", sent)?;
    let told = reply_of(rt.alloc(), "200 OK", LEECHER)?;
    let trace = format!(in rt.alloc(); "C 0\n{announce}C 59\nC 2699\nC 2700\nC 00\n")?;
    let expected = format!(in rt.alloc(); "C 0\n{told}C 1\nC 1\nC 0\nC 0\n")?;
    let (status, written) = replayed(&rt, USUAL, &trace)?;
    assert_eq!(rt; status, Status::Done);
    assert_eq!(rt; written.as_slice(), expected.as_bytes());
    Ok(())
}
