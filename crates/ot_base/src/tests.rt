//! What no clause says: worked values, and that each call succeeds.

use super::*;
use std::test::Fail;

/// 192.0.2.1 as 16 bytes, and an address of the documentation's prefix (RFC 3849).
const WIDE: [u8; 16] = [0, 0, 0, 0, 0, 0, 0, 0, 0, 0, 255, 255, 192, 0, 2, 1];

const SIX: [u8; 16] = [32, 1, 13, 184, 0, 0, 0, 0, 0, 0, 0, 0, 0, 0, 0, 1];

fn endpoint(last: u8, port: u16) -> Endpoint {
    Endpoint {
        addr: Addr::V4([10, 0, 0, last]),
        port,
    }
}

#[test]
fn addresses_as_16_bytes(rt: HostRuntime) {
    for (label, addr, bytes, family) in [
        ("IPv4", Addr::V4([192, 0, 2, 1]), WIDE, Family::Four),
        ("IPv6", Addr::V6(SIX), SIX, Family::Six),
        ("unspecified", Addr::V6([0; 16]), [0; 16], Family::Six),
    ] {
        assert_eq!(rt; addr.wide(), bytes, "{label}");
        assert_eq!(rt; Addr::of_six(bytes), addr, "{label}");
        assert_eq!(rt; addr.family(), family, "{label}");
    }
}

#[test]
fn endpoints_ascend_by_address_and_then_by_port(rt: HostRuntime) {
    let six = Endpoint {
        addr: Addr::V6([0; 16]),
        port: 0,
    };
    for (label, lower, upper) in [
        ("unspecified first", Endpoint::default(), endpoint(2, 1)),
        (
            "by both of a port's bytes",
            endpoint(2, 1),
            endpoint(2, 256),
        ),
        ("by address before port", endpoint(2, 256), endpoint(3, 0)),
        ("IPv4 before IPv6", endpoint(3, 0), six),
    ] {
        assert!(rt; lower < upper, "{label}");
        assert!(rt; !(upper < lower), "{label}");
    }
}

#[test]
fn buckets_by_the_first_bits(rt: HostRuntime) {
    let mut second = [0; 20];
    second[1] = 64;
    for (label, bytes, bits, want) in [
        ("ten bits of two bytes", [0x11; 20], 10, 68),
        ("no bit", [0x11; 20], 0, 0),
        ("half a byte", [0x11; 20], 4, 1),
        ("the last of 1,024", [0xff; 20], 10, 1023),
        ("one bit", [0xff; 20], 1, 1),
        ("the tenth bit alone", second, 10, 1),
    ] {
        assert_eq!(rt; bucket_of(&InfoHash(bytes), bits), want, "{label}");
    }
}

#[test]
fn minutes_of_seconds(rt: HostRuntime) {
    for (label, seconds, want) in [
        ("the start", 0, 0),
        ("the last second of a minute", 59, 0),
        ("the first second of a minute", 60, 1),
        ("45 minutes but a second", 2699, 44),
        ("the last minute but one", 257_698_037_699, 4_294_967_294),
        ("the last minute", 257_698_037_700, 4_294_967_295),
        ("past the last minute", 257_698_037_760, 4_294_967_295),
        ("the last second", u64::MAX, 4_294_967_295),
    ] {
        assert_eq!(rt; Minute::of_seconds(seconds), Minute(want), "{label}");
    }
}

#[test]
fn refusals_as_clients_read_them(rt: HostRuntime) {
    for (refusal, want) in [
        (Refusal::ConnectionId, "bad connection id"),
        (Refusal::Action, "unknown action"),
        (Refusal::MissingHash, "missing info_hash"),
        (Refusal::BadHash, "bad info_hash"),
        (Refusal::MissingPort, "missing port"),
        (Refusal::BadPort, "bad port"),
        (Refusal::Denied, "not authorized"),
        (Refusal::SwarmFull, "swarm is full"),
        (Refusal::TrackerFull, "tracker is full"),
    ] {
        assert_eq!(rt; refusal.text(), want);
    }
}

#[test]
fn faults_of_a_line_by_their_words(rt: HostRuntime) {
    for (fault, want) in [
        (TraceFault::Form, "form"),
        (TraceFault::Number, "number"),
        (TraceFault::Hex, "hex"),
        (TraceFault::Address, "address"),
        (TraceFault::Unbuilt, "unbuilt"),
        (TraceFault::NoMemory, "no memory"),
    ] {
        assert_eq!(rt; fault.word(), want);
    }
}

#[test]
fn lists_in_place_keep_their_order(rt: HostRuntime) {
    let mut peers = Peers::default();
    let mut hashes = Hashes::default();
    let mut text = Text::default();
    assert!(rt; peers.is_empty() && hashes.is_empty() && text.is_empty());
    for i in 0..3u8 {
        assert!(rt; peers.len() < peers::PEERS && hashes.len() < in_place::HASHES);
        assert!(rt; text.len() < in_place::TEXT);
        peers.push(endpoint(i, 6881));
        hashes.push(InfoHash([i; 20]));
        text.push(b'a' + i);
    }
    assert_eq!(rt; (peers.len(), hashes.len(), text.len()), (3, 3, 3));
    assert_eq!(rt; peers.get(2), endpoint(2, 6881));
    assert_eq!(rt; peers.as_slice().len(), 3);
    assert_eq!(rt; hashes.get(1), InfoHash([1; 20]));
    assert_eq!(rt; hashes.as_slice().len(), 3);
    assert_eq!(rt; text.as_slice(), b"abc".as_slice());
}

#[test]
fn lists_in_place_of_every_element_type(rt: HostRuntime) {
    let mut counts = CountList::new();
    let mut picks = InPlace::<u32, 200>::new();
    let mut notes = InPlace::<Note, 50>::new();
    counts.push(Counts::default());
    picks.push(7);
    notes.push(Note::default());
    assert_eq!(rt; (counts.len(), picks.len(), notes.len()), (1, 1, 1));
    assert_eq!(rt; counts.get(0), Counts::default());
    assert_eq!(rt; picks.get(0), 7);
    assert_eq!(rt; notes.get(0).who, Endpoint::default());
}

#[test]
fn a_list_grows_past_a_thousand_elements(rt: HostRuntime) -> Result<(), Fail> {
    let mut list: Sequence<u32> = Sequence::new(rt.alloc());
    assert!(rt; list.is_empty());
    for i in 0..5_000u32 {
        list.push(i)?;
    }
    assert_eq!(rt; list.len(), 5_000);
    for place in [0, 1, 999, 1_000, 1_001, 4_999] {
        assert!(rt; place < list.len(), "{place}");
        assert_eq!(rt; list.get(place) as usize, place, "{place}");
    }
    assert_eq!(rt; list.as_slice().len(), 5_000);
    Ok(())
}
