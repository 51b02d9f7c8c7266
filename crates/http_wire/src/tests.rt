//! What no clause says: heads and replies as they stand on connections, and that each call
//! succeeds.

use super::*;
use std::alloc::{AllocError, Global};
use std::test::Fail;

/// Some bytes, and what they are.
#[derive(Drop)]
struct Case {
    label: &'static str,
    bytes: &'static [u8],
    head: Head,
}

fn told(label: &'static str, bytes: &'static [u8], head: Head) -> Case {
    Case { label, bytes, head }
}

fn whole(get: bool, from: usize, to: usize, len: usize) -> Head {
    Head::Whole { get, from, to, len }
}

#[test]
fn heads_are_found(rt: HostRuntime) {
    let cases = [
        told(
            "a client that announces",
            b"GET /announce?info_hash=!%eb%d4%ed%cem%81%02%1e%af%3e%1da-%adU%a8%\
        93%3c%f9&peer_id=-LT2080-c)TNoZUR1DXN&port=20820&uploaded=0&downlo\
        aded=0&left=0&corrupt=0&key=7E2CC4DE&event=started&numwant=200&com\
        pact=1&no_peer_id=1&supportcrypto=1&redundant=0 HTTP/1.1\r\nHost: \
        127.0.0.1:7011\r\nUser-Agent: libtorrent/2.0.8.0\r\nAccept-Encodin\
        g: gzip\r\nConnection: close\r\n\r\n",
            whole(true, 4, 245, 354),
        ),
        told(
            "a client that scrapes",
            b"GET /scrape?info_hash=X%25%FD%C2U%F8%A6r%C6%85A%8E%1FO%00N%D2%F8%0\
        E%12 HTTP/1.1\r\nHost: 127.0.0.1:7011\r\nConnection: close\r\n\r\n",
            whole(true, 4, 70, 124),
        ),
        told(
            "line ends of one byte",
            b"GET /a HTTP/1.1\nA: b\n\n",
            whole(true, 4, 6, 22),
        ),
        told(
            "no fields",
            b"GET /a HTTP/1.0\r\n\r\n",
            whole(true, 4, 6, 19),
        ),
        told(
            "another method",
            b"POST /a HTTP/1.1\r\n\r\n",
            whole(false, 5, 7, 20),
        ),
        told(
            "a method in small letters",
            b"get /a HTTP/1.1\r\n\r\n",
            whole(false, 4, 6, 19),
        ),
        told(
            "empty lines before",
            b"\r\n\nGET /a HTTP/1.1\r\n\r\n",
            whole(true, 7, 9, 22),
        ),
        told(
            "bytes after the head",
            b"GET /a HTTP/1.1\r\n\r\nGET /b",
            whole(true, 4, 6, 19),
        ),
        told(
            "a letter of two bytes in the target",
            b"GET /\xc3\xa9 HTTP/1.1\r\n\r\n",
            whole(true, 4, 7, 20),
        ),
        told(
            "a byte that is no text in the target",
            b"GET /\xff HTTP/1.1\r\n\r\n",
            Head::More,
        ),
        told(
            "a folded field",
            b"GET /a HTTP/1.1\r\nA: b\r\n c\r\n\r\n",
            Head::More,
        ),
        told(
            "a space before a colon",
            b"GET /a HTTP/1.1\r\nA : b\r\n\r\n",
            Head::More,
        ),
        told("nothing", b"", Head::More),
        told("a part of a first line", b"GET /ann", Head::More),
        told(
            "a first line without its end",
            b"GET /announce HTTP/1.1",
            Head::More,
        ),
        told("a first line", b"GET /announce HTTP/1.1\r\n", Head::More),
        told(
            "a field without its end",
            b"GET /a HTTP/1.1\r\nA: b",
            Head::More,
        ),
        told("empty lines alone", b"\r\n\r\n\n", Head::More),
        told(
            "a first line without a version",
            b"GET /announce\r\n",
            Head::Bad,
        ),
        told("another version", b"GET /a HTTP/2.0\r\n\r\n", Head::Bad),
        told("a version without a space", b"GETHTTP/1.1\n", Head::Bad),
        told(
            "no request after an empty line",
            b"\r\nhello\r\n",
            Head::Bad,
        ),
        told("two returns", b"\r\r\n", Head::Bad),
    ];
    for case in cases {
        assert_eq!(rt; find_head(case.bytes), case.head, "{}", case.label);
    }
}

/// A head with so many fields, each of 6 bytes.
fn with_fields(alloc: Global, count: usize) -> Result<Vec<u8>, AllocError> {
    let mut bytes = Vec::from_slice(alloc, b"GET /a HTTP/1.1\r\n")?;
    for _ in 0..count {
        bytes.extend_from_slice(b"A: b\r\n")?;
    }
    bytes.extend_from_slice(b"\r\n")?;
    Ok(bytes)
}

#[test]
fn at_most_64_fields_are_read(rt: HostRuntime) -> Result<(), Fail> {
    let rows = [
        (0, whole(true, 4, 6, 19)),
        (64, whole(true, 4, 6, 403)),
        (65, Head::Many),
        (1000, Head::Many),
    ];
    for (count, head) in rows {
        let bytes = with_fields(rt.alloc(), count)?;
        assert_eq!(rt; find_head(&bytes), head, "{count} fields");
    }
    Ok(())
}

/// A head of 8,192 bytes, all but its end in its target.
fn long_target(alloc: Global) -> Result<Vec<u8>, AllocError> {
    let mut bytes = Vec::from_slice(alloc, b"GET /")?;
    for _ in 0..8174 {
        bytes.push(b'a')?;
    }
    bytes.extend_from_slice(b" HTTP/1.1\r\n\r\n")?;
    Ok(bytes)
}

#[test]
fn long_heads_are_found(rt: HostRuntime) -> Result<(), Fail> {
    let bytes = long_target(rt.alloc())?;
    assert_eq!(rt; find_head(&bytes), whole(true, 4, 8179, 8192), "whole");
    assert!(rt; bytes.len() > 5);
    assert_eq!(rt;
        find_head(&bytes[..bytes.len() - 1]),
        Head::More,
        "without its last byte"
    );
    assert_eq!(rt;
        find_head(&bytes[..bytes.len() - 5]),
        Head::More,
        "without its first line's end"
    );
    Ok(())
}

#[test]
fn a_watch_tells_when_to_ask(rt: HostRuntime) {
    let mut watch = Watch::new();
    let rows: [(&[u8], bool); 8] = [
        (b"", false),
        (b"\r\n\n", false),
        (b"\r", false),
        (b"\nGET /a HTTP/1.1", false),
        (b"\r", false),
        (b"\n", true),
        (b"A: b", false),
        (b"\r\n\r\n", true),
    ];
    for (piece, may_change) in rows {
        assert_eq!(rt; watch.take(piece), may_change, "{piece:?}");
    }
}

#[test]
fn replies_read_as_they_stand(rt: HostRuntime) -> Result<(), Fail> {
    let rows: [(Code, &[u8], &[u8]); 4] = [
        (
            Code::Ok,
            b"0123456789",
            b"HTTP/1.1 200 OK\r\nContent-Type: text/plain\r\nContent-Length: 10\r\n\
            Connection: close\r\n\r\n0123456789",
        ),
        (
            Code::BadRequest,
            b"",
            b"HTTP/1.1 400 Bad Request\r\nContent-Type: text/plain\r\nContent-Length: 0\r\n\
            Connection: close\r\n\r\n",
        ),
        (
            Code::NotFound,
            b"",
            b"HTTP/1.1 404 Not Found\r\nContent-Type: text/plain\r\nContent-Length: 0\r\n\
            Connection: close\r\n\r\n",
        ),
        (
            Code::TooLarge,
            b"",
            b"HTTP/1.1 431 Request Header Fields Too Large\r\nContent-Type: text/plain\r\n\
            Content-Length: 0\r\nConnection: close\r\n\r\n",
        ),
    ];
    for (code, body, text) in rows {
        let reply = write_reply(rt.alloc(), code, body)?;
        assert_eq!(rt; reply.as_slice(), text, "{code:?}");
    }
    let head = write_long_head(rt.alloc())?;
    assert_eq!(rt;
        head.as_slice(),
        b"HTTP/1.1 200 OK\r\nContent-Type: text/plain\r\n\
        Connection: close\r\n\r\n"
            .as_slice()
    );
    Ok(())
}
