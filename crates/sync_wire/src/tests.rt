//! What no clause says: datagrams as they lie on the wire.

ghost use Rattle.std.specs.Prelude.{◌<◌, ◌≤◌};
ghost use Rattle.sync_wire.specs.Notes.{IsTellable};

use super::*;
use ot_base::{Addr, Endpoint, InfoHash, Mark, Note};

/// Node 1 tells that 192.0.2.1 at port 6881 is a seed of the torrent of twenty 0x11.
const ONE: [u8; 36] = [
    0, 0, 0, 1, 0, 0, 0, 4, 0x11, 0x11, 0x11, 0x11, 0x11, 0x11, 0x11, 0x11, 0x11, 0x11, 0x11, 0x11,
    0x11, 0x11, 0x11, 0x11, 0x11, 0x11, 0x11, 0x11, 0xc0, 0, 2, 1, 0x1a, 0xe1, 0x80, 0,
];

const SEED: Note = Note {
    hash: InfoHash([0x11; 20]),
    who: Endpoint {
        addr: Addr::V4([192, 0, 2, 1]),
        port: 6881,
    },
    mark: Mark::Seed,
};

/// Node 0xfedcba98 tells three notes: a leecher at port 1, an endpoint that stopped, and a seed.
const THREE: [u8; 92] = [
    0xfe, 0xdc, 0xba, 0x98, 0, 0, 0, 4, //
    0, 1, 2, 3, 4, 5, 6, 7, 8, 9, 10, 11, 12, 13, 14, 15, 16, 17, 18, 19, 10, 0, 0, 255, 0, 1, 0,
    0, 0xff, 0xff, 0xff, 0xff, 0xff, 0xff, 0xff, 0xff, 0xff, 0xff, 0xff, 0xff, 0xff, 0xff, 0xff,
    0xff, 0xff, 0xff, 0xff, 0xff, 203, 0, 113, 9, 0xff, 0xff, 0x20, 0, //
    0x11, 0x11, 0x11, 0x11, 0x11, 0x11, 0x11, 0x11, 0x11, 0x11, 0x11, 0x11, 0x11, 0x11, 0x11, 0x11,
    0x11, 0x11, 0x11, 0x11, 0xc0, 0, 2, 1, 0x1a, 0xe1, 0x80, 0,
];

const LEECHER: Note = Note {
    hash: InfoHash([
        0, 1, 2, 3, 4, 5, 6, 7, 8, 9, 10, 11, 12, 13, 14, 15, 16, 17, 18, 19,
    ]),
    who: Endpoint {
        addr: Addr::V4([10, 0, 0, 255]),
        port: 1,
    },
    mark: Mark::Leecher,
};

const STOPPED: Note = Note {
    hash: InfoHash([0xff; 20]),
    who: Endpoint {
        addr: Addr::V4([203, 0, 113, 9]),
        port: 65535,
    },
    mark: Mark::Stopped,
};

/// An endpoint of IPv6, of the documentation's prefix (RFC 3849).
const SIX: Note = Note {
    hash: InfoHash([0x11; 20]),
    who: Endpoint {
        addr: Addr::V6([32, 1, 13, 184, 0, 0, 0, 0, 0, 0, 0, 0, 0, 0, 0, 1]),
        port: 6881,
    },
    mark: Mark::Seed,
};

/// Node 1 tells the same note 50 times.
fn write_fifty(note: Note, out: &mut [u8; BATCH_ROOM]) -> usize
    requires { IsTellable note }
    ensures { result ≤ BATCH_ROOM }
{
    write_batch(1, &[note; 50], out)
}

#[test]
fn notes_as_they_are_written(rt: HostRuntime) {
    let mut out = [0xee; BATCH_ROOM];
    let len = write_batch(1, &[SEED], &mut out);
    assert_eq!(rt; &out[..len], ONE.as_slice());
    let len = write_batch(0xfedc_ba98, &[LEECHER, STOPPED, SEED], &mut out);
    assert_eq!(rt; &out[..len], THREE.as_slice());
    let len = write_fifty(SEED, &mut out);
    assert_eq!(rt; len, 1408);
    assert_eq!(rt; &out[1380..1408], &ONE[8..]);
    assert_eq!(rt; out[1408], 0xee);
}

#[test]
fn notes_as_they_are_read(rt: HostRuntime) {
    let read_three = read(2, &THREE);
    let Ok(mut batch) = read_three else {
        panic!(rt; "{read_three:?}");
    };
    assert_eq!(rt; batch.node(), 0xfedc_ba98);
    assert_eq!(rt; batch.as_slice(), [LEECHER, STOPPED, SEED].as_slice());
    assert_eq!(rt; batch.len(), 3);
    assert_eq!(rt; batch.get(1), STOPPED);
    batch.push(LEECHER);
    assert_eq!(rt;
        batch.as_slice(),
        [LEECHER, STOPPED, SEED, LEECHER].as_slice()
    );
}

/// Why the reader `own` refuses a datagram.
fn fault(own: u32, bytes: &[u8]) -> Option<SyncFault> {
    match read(own, bytes) {
        Ok(_) => None,
        Err(fault) => Some(fault),
    }
}

/// The datagram of one note with its bytes at two places changed. Where both are place 0, which
/// has the byte 0, the first counts.
fn changed(one: (usize, u8), two: (usize, u8)) -> [u8; 36]
    requires one { one.0 < 36 }
    requires two { two.0 < 36 }
{
    let mut bytes = ONE;
    bytes[two.0] = two.1;
    bytes[one.0] = one.1;
    bytes
}

#[test]
fn faults_in_their_order(rt: HostRuntime) {
    let none = (0, 0);
    for (label, own, len, one, two, want) in [
        ("nothing wrong", 2, 36, none, none, None),
        ("no byte", 1, 0, (7, 9), none, Some(SyncFault::Length(0))),
        ("too short", 1, 7, none, none, Some(SyncFault::Length(7))),
        ("kind 0", 1, 8, (7, 0), none, Some(SyncFault::Kind(0))),
        ("kind 1", 1, 36, (7, 1), none, Some(SyncFault::Kind(1))),
        ("kind 5", 2, 35, (7, 5), none, Some(SyncFault::Kind(5))),
        ("kind 6", 2, 36, (7, 6), none, Some(SyncFault::Kind(6))),
        (
            "a great kind",
            2,
            36,
            (4, 4),
            none,
            Some(SyncFault::Kind(0x0400_0004)),
        ),
        (
            "its own, no record",
            1,
            8,
            none,
            none,
            Some(SyncFault::Own(1)),
        ),
        (
            "its own, a wrong flag",
            1,
            36,
            (34, 0x81),
            none,
            Some(SyncFault::Own(1)),
        ),
        ("another's by the first byte", 1, 36, (0, 1), none, None),
        ("no record", 2, 8, none, none, Some(SyncFault::Length(8))),
        (
            "a record cut off",
            2,
            35,
            (34, 0x81),
            none,
            Some(SyncFault::Length(35)),
        ),
        (
            "another flag",
            2,
            36,
            (34, 0x81),
            none,
            Some(SyncFault::Flag(0)),
        ),
        (
            "a last byte of 1",
            2,
            36,
            (35, 1),
            none,
            Some(SyncFault::Flag(0)),
        ),
        ("port 225", 2, 36, (32, 0), none, None),
        ("port 6656", 2, 36, (33, 0), none, None),
        ("port 0", 2, 36, (32, 0), (33, 0), Some(SyncFault::Flag(0))),
    ] {
        assert_eq!(rt; fault(own, &changed(one, two)[..len]), want, "{label}");
    }
}

#[test]
fn each_flag_of_each_record(rt: HostRuntime) {
    for i in 0..3u32 {
        for flag in 0..=255u8 {
            let mut bytes = THREE;
            bytes[34 + 28 * i as usize] = flag;
            let good = flag == 0 || flag == 0x20 || flag == 0x80;
            let want = if good { None } else { Some(SyncFault::Flag(i)) };
            assert_eq!(rt; fault(2, &bytes), want, "record {i}, flag {flag}");
        }
    }
}

#[test]
fn each_length(rt: HostRuntime) {
    let mut bytes = [0u8; BATCH_ROOM];
    bytes[..8].copy_from_slice(&ONE[..8]);
    for i in 0..72 {
        let place = 8 + 28 * i;
        bytes[place..place + 28].copy_from_slice(&ONE[8..]);
    }
    for len in 0..2049 {
        let whole = len > 8 && len <= 1408 && len % 28 == 8;
        let want = if whole {
            None
        } else {
            Some(SyncFault::Length(len))
        };
        assert_eq!(rt; fault(2, &bytes[..len]), want, "{len} bytes");
    }
}

#[test]
fn batches_of_one_family(rt: HostRuntime) {
    let mut mixed = [SEED; 60];
    mixed[3] = SIX;
    for (label, notes, want) in [
        ("no note", [].as_slice(), 0),
        ("one note", [SIX].as_slice(), 1),
        ("one family", [SEED, LEECHER, STOPPED].as_slice(), 3),
        (
            "another family behind",
            [SEED, SEED, SIX, SEED].as_slice(),
            2,
        ),
        ("another family before", [SIX, SEED].as_slice(), 1),
        ("50 notes", [SEED; 50].as_slice(), 50),
        ("51 notes", [SIX; 51].as_slice(), 50),
        ("another family among 60", mixed.as_slice(), 3),
    ] {
        assert_eq!(rt; batch_len(notes), want, "{label}");
    }
}
