//! What clients are answered, and what they read in it.

use super::{P, SIX, TRANSACTION};
use crate::{
    REPLY_ROOM, Reply, read_reply, write_announce, write_connect, write_error, write_scrape,
};
use ot_base::{Counts, Endpoint, Family, Peers, Refusal};

const CONNECT: &[u8] = &[0, 0, 0, 0, 0x12, 0x34, 0x56, 0x78, 1, 2, 3, 4, 5, 6, 7, 8];

const REFUSED: &[u8] = b"\x00\x00\x00\x03\x12\x34\x56\x78bad connection id";

/// Two leechers, one seeder and no peer.
const ALONE: &[u8] = &[
    0, 0, 0, 1, 0x12, 0x34, 0x56, 0x78, 0, 0, 7, 8, 0, 0, 0, 2, 0, 0, 0, 1,
];

/// One leecher, one seeder and the peer 192.0.2.1 at port 6881.
const OF_FOUR: &[u8] = &[
    0, 0, 0, 1, 0x12, 0x34, 0x56, 0x78, 0, 0, 7, 8, 0, 0, 0, 1, 0, 0, 0, 1, 0xc0, 0, 2, 1, 0x1a,
    0xe1,
];

/// The same of the peer 2001:db8::1 at port 1.
const OF_SIX: &[u8] = &[
    0, 0, 0, 1, 0x12, 0x34, 0x56, 0x78, 0, 0, 7, 8, 0, 0, 0, 1, 0, 0, 0, 1, 0x20, 1, 0x0d, 0xb8, 0,
    0, 0, 0, 0, 0, 0, 0, 0, 0, 0, 1, 0, 1,
];

/// One seeder, 7 downloads and two leechers; then 0x01020304 seeders, no download and 0xffffffff
/// leechers.
const SCRAPED: &[u8] = &[
    0, 0, 0, 2, 0x12, 0x34, 0x56, 0x78, 0, 0, 0, 1, 0, 0, 0, 7, 0, 0, 0, 2, 1, 2, 3, 4, 0, 0, 0, 0,
    0xff, 0xff, 0xff, 0xff,
];

const FEW: Counts = Counts {
    complete: 1,
    downloaded: 7,
    incomplete: 2,
};

const MANY: Counts = Counts {
    complete: 0x0102_0304,
    downloaded: 0,
    incomplete: 0xffff_ffff,
};

const ONE_EACH: Counts = Counts {
    complete: 1,
    downloaded: 0,
    incomplete: 1,
};

#[test]
fn replies_on_the_wire(rt: HostRuntime) {
    let mut out = [0xee; REPLY_ROOM];
    let len = write_connect(TRANSACTION, 0x0102_0304_0506_0708, &mut out);
    assert_eq!(rt; &out[..len], CONNECT);
    let len = write_error(TRANSACTION, Refusal::ConnectionId, &mut out);
    assert_eq!(rt; &out[..len], REFUSED);
    let len = write_announce(TRANSACTION, FEW, &Peers::new(), &mut out);
    assert_eq!(rt; &out[..len], ALONE);
    let len = write_scrape(TRANSACTION, &[FEW, MANY], &mut out);
    assert_eq!(rt; &out[..len], SCRAPED);
}

#[test]
fn peers_on_the_wire(rt: HostRuntime) {
    let mut out = [0xee; REPLY_ROOM];
    let mut peers = Peers::new();
    peers.push(Endpoint {
        addr: P,
        port: 6881,
    });
    let len = write_announce(TRANSACTION, ONE_EACH, &peers, &mut out);
    assert_eq!(rt; &out[..len], OF_FOUR);
    let mut peers = Peers::new();
    peers.push(Endpoint { addr: SIX, port: 1 });
    let len = write_announce(TRANSACTION, ONE_EACH, &peers, &mut out);
    assert_eq!(rt; &out[..len], OF_SIX);
}

#[test]
fn a_connect_and_an_error_are_read(rt: HostRuntime) {
    let connect = read_reply(CONNECT, Family::Four);
    let Some(
        Reply::Connect {
            transaction,
            connection,
        },
    ) = connect
    else {
        panic!(rt; "{connect:?}");
    };
    assert_eq!(rt;
        (transaction, connection),
        (TRANSACTION, 0x0102_0304_0506_0708)
    );
    let refused = read_reply(REFUSED, Family::Six);
    let Some(Reply::Error { transaction, text }) = refused else {
        panic!(rt; "{refused:?}");
    };
    assert_eq!(rt; transaction, TRANSACTION);
    assert_eq!(rt; text.as_slice(), b"bad connection id".as_slice());
}

#[test]
fn peers_are_read_by_the_family(rt: HostRuntime) {
    for (label, bytes, family, addr, port) in [
        ("IPv4", OF_FOUR, Family::Four, P, 6881),
        ("IPv6", OF_SIX, Family::Six, SIX, 1),
    ] {
        let reply = read_reply(bytes, family);
        let Some(
            Reply::Announce {
                transaction,
                interval,
                counts,
                peers,
            },
        ) = reply
        else {
            panic!(rt; "{label}: {reply:?}");
        };
        assert_eq!(rt; (transaction, interval), (TRANSACTION, 1800), "{label}");
        assert_eq!(rt; counts, ONE_EACH, "{label}");
        assert_eq!(rt; peers.len(), 1, "{label}");
        assert_eq!(rt; peers.get(0), Endpoint { addr, port }, "{label}");
    }
}

#[test]
fn counts_of_74_hashes_are_896_bytes(rt: HostRuntime) {
    let mut list = [FEW; 74];
    list[73] = MANY;
    let mut out = [0xee; REPLY_ROOM];
    let len = write_scrape(TRANSACTION, &list, &mut out);
    assert_eq!(rt; len, 896);
    let reply = read_reply(&out[..len], Family::Four);
    let Some(
        Reply::Scrape {
            transaction,
            counts,
        },
    ) = reply
    else {
        panic!(rt; "{reply:?}");
    };
    assert_eq!(rt; transaction, TRANSACTION);
    assert_eq!(rt; counts.as_slice(), list.as_slice());
}

/// A reply with an action, whatever follows.
fn of_action(action: u8) -> [u8; REPLY_ROOM] {
    let mut bytes = [0x77; REPLY_ROOM];
    bytes[..4].copy_from_slice(&[0, 0, 0, action]);
    bytes
}

#[test]
fn replies_by_their_lengths(rt: HostRuntime) {
    for (label, action, family, len, want) in [
        ("no byte", 0, Family::Four, 0, false),
        ("a head cut off", 3, Family::Four, 7, false),
        ("a connect cut off", 0, Family::Four, 15, false),
        ("a connect", 0, Family::Four, 16, true),
        ("a connect with a byte more", 0, Family::Four, 17, false),
        ("an announce cut off", 1, Family::Four, 19, false),
        ("no peer", 1, Family::Four, 20, true),
        ("a peer cut off", 1, Family::Four, 25, false),
        ("a peer of IPv4", 1, Family::Four, 26, true),
        ("one of IPv4 for IPv6", 1, Family::Six, 26, false),
        ("three of IPv4 as one of IPv6", 1, Family::Six, 38, true),
        ("200 peers", 1, Family::Four, 1220, true),
        ("201 peers", 1, Family::Four, 1226, false),
        ("64 peers of IPv6", 1, Family::Six, 1172, true),
        ("65 peers of IPv6", 1, Family::Six, 1190, false),
        ("no counts", 2, Family::Four, 8, false),
        ("counts cut off", 2, Family::Four, 19, false),
        ("counts of one hash", 2, Family::Four, 20, true),
        ("counts of 74 hashes", 2, Family::Four, 896, true),
        ("counts of 75 hashes", 2, Family::Four, 908, false),
        ("no text", 3, Family::Four, 8, true),
        ("a text of 200 bytes", 3, Family::Four, 208, true),
        ("a text of 201 bytes", 3, Family::Four, 209, false),
        ("another action", 4, Family::Four, 16, false),
    ] {
        let bytes = of_action(action);
        let reply = read_reply(&bytes[..len], family);
        assert_eq!(rt; reply.is_some(), want, "{label}");
    }
}
