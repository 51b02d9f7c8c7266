//! What clients ask.

ghost use Rattle.std.specs.Prelude.{◌≤◌, length};

use super::TRANSACTION;
use crate::field::put;
use crate::{Quiet, Request, UdpAnnounce, read_request};
use ot_base::{Event, InfoHash};

/// The worked connect of BEP 15's protocol id.
const CONNECT: [u8; 16] = [
    0, 0, 4, 0x17, 0x27, 0x10, 0x19, 0x80, 0, 0, 0, 0, 0x12, 0x34, 0x56, 0x78,
];

/// What an announce and a scrape begin with, at the connection id 0xa1a2a3a4a5a6a7a8.
fn begin(datagram: &mut [u8], action: u8)
    requires { 16 ≤ length datagram.old }
{
    let head = [
        0xa1, 0xa2, 0xa3, 0xa4, 0xa5, 0xa6, 0xa7, 0xa8, 0, 0, 0, action, 0x12, 0x34, 0x56, 0x78,
    ];
    put(datagram, 0, &head);
}

/// An announce of the hash of 0x11 with left 0x0102030405060708 and port 6881, and 22 bytes after
/// it.
fn announce(event: u8, want: [u8; 4]) -> [u8; 120] {
    let mut datagram = [0; 120];
    begin(&mut datagram, 1);
    put(&mut datagram, 16, &[0x11; 20]);
    put(&mut datagram, 56, &[9; 8]);
    put(&mut datagram, 64, &[1, 2, 3, 4, 5, 6, 7, 8]);
    put(&mut datagram, 72, &[7; 8]);
    put(&mut datagram, 83, &[event]);
    put(&mut datagram, 92, &want);
    put(&mut datagram, 96, &[0x1a, 0xe1]);
    datagram
}

fn quiet_of(datagram: &[u8]) -> Option<Quiet> {
    match read_request(datagram) {
        Request::Silent(quiet) => Some(quiet),
        Request::Connect { .. }
        | Request::Announce(_)
        | Request::Scrape { .. }
        | Request::Unknown { .. } => None,
    }
}

#[test]
fn datagrams_without_a_reply(rt: HostRuntime) {
    let mut other_protocol = CONNECT;
    other_protocol[7] = 0x81;
    let announce = announce(2, [0; 4]);
    let mut scrape = [0; 36];
    begin(&mut scrape, 2);
    for (label, datagram, want) in [
        ("no byte", [].as_slice(), Some(Quiet::Short)),
        ("one byte", [0].as_slice(), Some(Quiet::Short)),
        ("15 bytes", &CONNECT[..15], Some(Quiet::Short)),
        ("a connect", CONNECT.as_slice(), None),
        (
            "another protocol",
            other_protocol.as_slice(),
            Some(Quiet::Protocol),
        ),
        (
            "an announce of 16 bytes",
            &announce[..16],
            Some(Quiet::Announce),
        ),
        (
            "an announce of 97 bytes",
            &announce[..97],
            Some(Quiet::Announce),
        ),
        ("an announce of 98 bytes", &announce[..98], None),
        ("a scrape of 35 bytes", &scrape[..35], Some(Quiet::Scrape)),
        ("a scrape of 36 bytes", scrape.as_slice(), None),
    ] {
        assert_eq!(rt; quiet_of(datagram), want, "{label}");
    }
}

#[test]
fn connects_and_unknown_actions(rt: HostRuntime) {
    let connect = read_request(&CONNECT);
    assert!(rt;
        matches!(
            connect,
            Request::Connect {
                transaction: TRANSACTION
            }
        )
    );
    let mut datagram = [0; 16];
    begin(&mut datagram, 9);
    let unknown = read_request(&datagram);
    assert!(rt;
        matches!(
            unknown,
            Request::Unknown {
                transaction: TRANSACTION,
                action: 9
            }
        )
    );
}

#[test]
fn announces_by_their_fields(rt: HostRuntime) {
    for (label, number, bytes, event, want) in [
        ("event 0", 0, [0, 0, 0, 0], Event::Nothing, 0),
        ("event 1", 1, [0, 0, 0, 200], Event::Completed, 200),
        ("event 2", 2, [255, 255, 255, 255], Event::Started, -1),
        ("event 3", 3, [128, 0, 0, 0], Event::Stopped, -2_147_483_648),
        (
            "event 4",
            4,
            [127, 255, 255, 255],
            Event::Nothing,
            2_147_483_647,
        ),
    ] {
        let datagram = announce(number, bytes);
        for len in [98, 120] {
            let Request::Announce(announce) = read_request(&datagram[..len]) else {
                panic!(rt; "{label}: no announce of {len} bytes");
            };
            let expected = UdpAnnounce {
                connection: 0xa1a2_a3a4_a5a6_a7a8,
                transaction: TRANSACTION,
                hash: InfoHash([0x11; 20]),
                left: 0x0102_0304_0506_0708,
                event,
                want,
                port: 6881,
            };
            assert_eq!(rt; announce, expected, "{label}, {len} bytes");
        }
    }
}

#[test]
fn scrapes_by_their_whole_hashes(rt: HostRuntime) {
    let mut datagram = [0u8; 16 + 75 * 20];
    begin(&mut datagram, 2);
    for i in 0..75u8 {
        let place = 16 + 20 * usize::from(i);
        put(&mut datagram, place, &[i; 20]);
    }
    for (len, count) in [(36, 1), (55, 1), (56, 2), (1496, 74), (1516, 74)] {
        let Request::Scrape {
            connection,
            transaction,
            hashes,
        } = read_request(&datagram[..len])
        else {
            panic!(rt; "no scrape of {len} bytes");
        };
        assert_eq!(rt;
            (connection, transaction),
            (0xa1a2_a3a4_a5a6_a7a8, TRANSACTION),
            "{len} bytes"
        );
        assert_eq!(rt; hashes.len(), count, "{len} bytes");
        for i in 0..hashes.len() {
            assert_eq!(rt;
                hashes.get(i),
                InfoHash([i as u8; 20]),
                "{len} bytes, hash {i}"
            );
        }
    }
}
