//! What no clause says: lines as they stand in a trace, and that each call succeeds.

use super::*;
use TraceFault::{Address, Form, Hex, Number, Unbuilt};
use line::copied;
use ot_base::{Addr, Endpoint, TraceFault};
use std::alloc::{AllocError, Global};
use std::test::Fail;

const LINE: &[u8] = b"U 0 192.0.2.1 5000 00000417271019800000000012345678";

const FROM: Endpoint = Endpoint {
    addr: Addr::V4([192, 0, 2, 1]),
    port: 5000,
};

const CONNECT: [u8; 16] = [
    0, 0, 4, 0x17, 0x27, 0x10, 0x19, 0x80, 0, 0, 0, 0, 0x12, 0x34, 0x56, 0x78,
];

const REQUEST: &[u8] = b"GET / HTTP/1.1\r\n\r\n";

const REQUEST_LINE: &[u8] = b"H 1 192.0.2.1 5000 474554202f20485454502f312e310d0a0d0a";

const CLEAN_LINE: &[u8] = b"C 60";

fn fault_of(line: &[u8]) -> Option<TraceFault> {
    let mut bytes = [0; RECORD_BYTES];
    read_record(line, &mut bytes).err()
}

/// The record of a line, by the line's first letter.
fn record_of(line: &[u8], received: Received) -> Record {
    match line {
        [b'U', ..] => Record::Datagram(received),
        _ => Record::Connection(received),
    }
}

/// A line that begins so, with so many hex digits and a last part.
fn long_line(
    alloc: Global,
    front: &[u8],
    digits: usize,
    end: &[u8],
) -> Result<Vec<u8>, AllocError> {
    let mut line = front.to_vec(alloc)?;
    for _ in 0..digits {
        line.push(b'7')?;
    }
    line.extend_from_slice(end)?;
    Ok(line)
}

#[test]
fn a_line_gives_its_parts(rt: HostRuntime) -> Result<(), Fail> {
    let mut bytes = [9; RECORD_BYTES];
    let datagram = Received {
        seconds: 0,
        from: FROM,
        len: CONNECT.len(),
    };
    assert_eq!(rt; read_record(LINE, &mut bytes)?, Record::Datagram(datagram));
    assert_eq!(rt; &bytes[..CONNECT.len()], CONNECT.as_slice());
    let connection = Received {
        seconds: 1,
        from: FROM,
        len: REQUEST.len(),
    };
    assert_eq!(rt;
        read_record(REQUEST_LINE, &mut bytes)?,
        Record::Connection(connection)
    );
    assert_eq!(rt; &bytes[..REQUEST.len()], REQUEST);
    assert_eq!(rt;
        read_record(CLEAN_LINE, &mut bytes)?,
        Record::Clean { seconds: 60 }
    );
    Ok(())
}

#[test]
fn lines_read_back(rt: HostRuntime) -> Result<(), Fail> {
    let datagram = TraceLine::Udp {
        seconds: 0,
        from: FROM,
        bytes: copied(rt.alloc(), &CONNECT)?,
    };
    assert_eq!(rt; write_line(rt.alloc(), &datagram)?.as_slice(), LINE);
    let connection = TraceLine::Http {
        seconds: 1,
        from: FROM,
        bytes: copied(rt.alloc(), REQUEST)?,
    };
    assert_eq!(rt;
        write_line(rt.alloc(), &connection)?.as_slice(),
        REQUEST_LINE
    );
    let clean = TraceLine::Clean { seconds: 60 };
    assert_eq!(rt; write_line(rt.alloc(), &clean)?.as_slice(), CLEAN_LINE);
    for text in [
        LINE,
        REQUEST_LINE,
        CLEAN_LINE,
        b"U 2 10.0.0.1 1 ",
        b"H 3 10.0.0.1 65535 ",
        b"C 0",
        b"C 18446744073709551615",
    ] {
        let line = read_line(rt.alloc(), text)?;
        let label = format!(in rt.alloc(); "{line:?}")?;
        assert_eq!(rt; write_line(rt.alloc(), &line)?.as_slice(), text, "{label}");
    }
    Ok(())
}

#[test]
fn lines_in_their_written_form(rt: HostRuntime) -> Result<(), Fail> {
    let six = Addr::V6([32, 1, 13, 184, 0, 0, 0, 0, 0, 0, 0, 0, 0, 0, 0, 1]);
    let rows: [(&str, u64, Addr, u16, u8, &[u8]); 3] = [
        (
            "the greatest numbers",
            u64::MAX,
            Addr::V4([255, 255, 255, 255]),
            65535,
            0xff,
            b"U 18446744073709551615 255.255.255.255 65535 ff",
        ),
        (
            "the least numbers",
            0,
            Addr::V4([0; 4]),
            0,
            0,
            b"U 0 0.0.0.0 0 00",
        ),
        (
            "an IPv6 address",
            60,
            six,
            1,
            0xab,
            b"U 60 20010db8000000000000000000000001 1 ab",
        ),
    ];
    for (label, seconds, addr, port, byte, want) in rows {
        let line = TraceLine::Udp {
            seconds,
            from: Endpoint { addr, port },
            bytes: copied(rt.alloc(), &[byte])?,
        };
        let text = write_line(rt.alloc(), &line)?;
        assert_eq!(rt; text.as_slice(), want, "{label}");
    }
    Ok(())
}

#[test]
fn the_ends_of_the_ranges_are_read(rt: HostRuntime) -> Result<(), Fail> {
    let rows: [(&str, &[u8], u64, [u8; 4], u16, usize); 10] = [
        (
            "the last second, no byte",
            b"U 18446744073709551615 0.0.0.0 0 ",
            u64::MAX,
            [0; 4],
            0,
            0,
        ),
        (
            "20 digits, the last address and port",
            b"U 00000000000000000007 255.255.255.255 65535 00",
            7,
            [255; 4],
            65535,
            1,
        ),
        (
            "5 digits of a port, letters in both cases",
            b"U 0 1.20.100.9 00001 aBcDeF",
            0,
            [1, 20, 100, 9],
            1,
            3,
        ),
        (
            "upper case",
            b"U 60 10.0.0.1 6881 ABCDEF",
            60,
            [10, 0, 0, 1],
            6881,
            3,
        ),
        (
            "lower case",
            b"U 1 127.0.0.1 80 abcdef",
            1,
            [127, 0, 0, 1],
            80,
            3,
        ),
        (
            "a port's leading zero",
            b"U 1 127.0.0.1 080 0f",
            1,
            [127, 0, 0, 1],
            80,
            1,
        ),
        (
            "nines",
            b"U 9 99.10.199.249 9999 99",
            9,
            [99, 10, 199, 249],
            9999,
            1,
        ),
        (
            "tens",
            b"U 10 250.200.100.0 10000 ",
            10,
            [250, 200, 100, 0],
            10000,
            0,
        ),
        (
            "a connection that ends at once",
            b"H 18446744073709551615 255.255.255.255 65535 ",
            u64::MAX,
            [255; 4],
            65535,
            0,
        ),
        (
            "a connection, letters in both cases",
            b"H 00 0.0.0.0 00000 aBcDeF",
            0,
            [0; 4],
            0,
            3,
        ),
    ];
    let mut bytes = [0; RECORD_BYTES];
    for (label, line, seconds, octets, port, len) in rows {
        let from = Endpoint {
            addr: Addr::V4(octets),
            port,
        };
        let want = record_of(line, Received { seconds, from, len });
        assert_eq!(rt; read_record(line, &mut bytes)?, want, "{label}");
    }
    Ok(())
}

/// Each line is its own label.
#[test]
fn rounds_of_the_cleaner_are_read(rt: HostRuntime) -> Result<(), Fail> {
    let lines: [(&str, u64); 5] = [
        ("C 0", 0),
        ("C 7", 7),
        ("C 18446744073709551615", u64::MAX),
        ("C 00000000000000000060", 60),
        ("C 10000000000000000000", 10_000_000_000_000_000_000),
    ];
    let mut bytes = [9; RECORD_BYTES];
    for (line, seconds) in lines {
        let record = read_record(line.as_bytes(), &mut bytes)?;
        assert_eq!(rt; record, Record::Clean { seconds }, "{line}");
    }
    Ok(())
}

/// Each line is its own label.
#[test]
fn bad_lines_are_refused(rt: HostRuntime) {
    let lines: [(&str, TraceFault); 80] = [
        ("", Form),
        (" ", Form),
        ("U", Form),
        ("U ", Form),
        ("H", Form),
        ("C", Form),
        ("u 0 192.0.2.1 5000 00", Form),
        ("UU 0 192.0.2.1 5000 00", Form),
        ("X 0 192.0.2.1 5000 00", Form),
        (" U 0 192.0.2.1 5000 00", Form),
        ("U  0 192.0.2.1 5000 00", Form),
        ("U 0 192.0.2.1  5000 00", Form),
        ("U 0 192.0.2.1 5000 00 ", Form),
        ("U 0 192.0.2.1 5000", Form),
        ("U\t0 192.0.2.1 5000 00", Form),
        ("H 0", Form),
        ("h 0 192.0.2.1 5000 00", Form),
        ("H 0 192.0.2.1 5000 00 ", Form),
        ("C 0 1", Form),
        ("C 0 ", Form),
        ("C  0", Form),
        ("C x y", Form),
        ("C 0 192.0.2.1 5000 00", Form),
        ("c 0", Form),
        ("CC 0", Form),
        ("C\t0", Form),
        ("X 0", Form),
        ("U 0", Form),
        ("U  192.0.2.1 5000 00", Number),
        ("U 18446744073709551616 192.0.2.1 5000 00", Number),
        ("U 99999999999999999999 192.0.2.1 5000 00", Number),
        ("U 000000000000000000000 192.0.2.1 5000 00", Number),
        ("U +1 192.0.2.1 5000 00", Number),
        ("U -1 192.0.2.1 5000 00", Number),
        ("U 1: 192.0.2.1 5000 00", Number),
        ("U 1/ 192.0.2.1 5000 00", Number),
        ("U x 256.0.2.1 5x 0", Number),
        ("U x 20010db8000000000000000000000001 5000 00", Number),
        ("U 0  5000 00", Address),
        ("U 0 192.0.2 5000 00", Address),
        ("U 0 192.0.2.1. 5000 00", Address),
        ("U 0 192.0.2.1.1 5000 00", Address),
        ("U 0 192..2.1 5000 00", Address),
        ("U 0 256.0.2.1 5000 00", Address),
        ("U 0 192.0.2.999 5000 00", Address),
        ("U 0 192.01.2.1 5000 00", Address),
        ("U 0 192.00.2.1 5000 00", Address),
        ("U 0 192.0.2.0001 5000 00", Address),
        ("U 0 192.0.2.x 5000 00", Address),
        ("U 0 2001:db8::1 5000 00", Address),
        ("U 0 20010db800000000000000000000001 5000 00", Address),
        ("U 0 20010db80000000000000000000000g1 5000 00", Address),
        ("U 0 256.0.2.1 65536 0", Address),
        ("U 0 20010db8000000000000000000000001 5000 00", Unbuilt),
        ("U 0 20010DB8000000000000000000000001 x y", Unbuilt),
        ("U 0 192.0.2.1  00", Number),
        ("U 0 192.0.2.1 65536 00", Number),
        ("U 0 192.0.2.1 000001 00", Number),
        ("U 0 192.0.2.1 5x 0g", Number),
        ("U 0 192.0.2.1 5000 0", Hex),
        ("U 0 192.0.2.1 5000 0g", Hex),
        ("U 0 192.0.2.1 5000 00\r", Hex),
        ("U 0 192.0.2.1 5000 0000\r", Hex),
        ("H 18446744073709551616 192.0.2.1 5000 00", Number),
        ("H x y z ?", Number),
        ("H 0 192.0.2.01 65536 0", Address),
        ("H 0 20010db8000000000000000000000001 x y", Unbuilt),
        ("H 0 192.0.2.1 65536 0", Number),
        ("H 0 192.0.2.1 5000 0", Hex),
        ("H 0 192.0.2.1 5000 474g", Hex),
        ("C x", Number),
        ("C ", Number),
        ("C +1", Number),
        ("C -1", Number),
        ("C 1:", Number),
        ("C 1/", Number),
        ("C 0\r", Number),
        ("C 18446744073709551616", Number),
        ("C 99999999999999999999", Number),
        ("C 000000000000000000000", Number),
    ];
    for (line, fault) in lines {
        assert_eq!(rt; fault_of(line.as_bytes()), Some(fault), "{line}");
    }
}

#[test]
fn of_a_long_record_the_first_bytes_count(rt: HostRuntime) -> Result<(), Fail> {
    let mut bytes = [0; RECORD_BYTES];
    let kinds: [(&str, &[u8], usize); 2] = [
        ("a datagram", b"U 0 192.0.2.1 5000 ", 2048),
        ("a connection", b"H 0 192.0.2.1 5000 ", 8192),
    ];
    for (label, front, len) in kinds {
        let received = Received {
            seconds: 0,
            from: FROM,
            len,
        };
        let want = record_of(front, received);
        let lengths: [(usize, &[u8]); 3] = [(2 * len, b""), (2 * len, b"88"), (1 << 20, b"")];
        for (digits, end) in lengths {
            let line = long_line(rt.alloc(), front, digits, end)?;
            assert_eq!(rt;
                read_record(line.as_slice(), &mut bytes)?,
                want,
                "{label}: {digits}"
            );
            assert!(rt;
                bytes[..len].iter().all(|byte| *byte == 0x77),
                "{label}: {digits}"
            );
            bytes = [0; RECORD_BYTES];
        }
        for end in ["8", "8x"] {
            let line = long_line(rt.alloc(), front, 2 * len, end.as_bytes())?;
            assert_eq!(rt; fault_of(line.as_slice()), Some(Hex), "{label}: {end}");
        }
    }
    Ok(())
}
