//! Datagrams over UDP, each as a record built from its fields, with replies worked out by hand.

ghost use Rattle.offline.specs.Command.{IsOffered};

use super::{ROOM, USUAL, replay, replayed};
use conn_id::mint;
use ot_base::{Addr, Minute, Secret};
use ot_io::{MemSink, MemSource, ReplaySettings, Status};
use std::alloc::{AllocError, Global};
use std::test::Fail;

/// Two info hashes and two peers, which listen at port 6881.
pub const A: u8 = 0x11;

pub const B: u8 = 0xff;

pub const P: [u8; 4] = [192, 0, 2, 1];

pub const Q: [u8; 4] = [192, 0, 2, 2];

/// The events of an announce.
pub const NOTHING: u32 = 0;

const COMPLETED: u32 = 1;

const STARTED: u32 = 2;

const STOPPED: u32 = 3;

/// One record: who sends what at which second, with an id of the same minute.
#[derive(Clone, Copy)]
pub struct Sent {
    second: u64,
    who: [u8; 4],
    what: What,
}

/// What a datagram asks. Info hashes are of 20 equal bytes.
#[derive(Clone, Copy)]
enum What {
    Announce { hash: u8, left: u64, event: u32 },
    /// The first so many of the hashes are scraped.
    Scrape { hashes: [u8; 4], count: usize },
}

pub fn announce(second: u64, who: [u8; 4], hash: u8, left: u64, event: u32) -> Sent {
    let what = What::Announce { hash, left, event };
    Sent { second, who, what }
}

fn scrape(second: u64, who: [u8; 4], hash: u8) -> Sent {
    let what = What::Scrape {
        hashes: [hash; 4],
        count: 1,
    };
    Sent { second, who, what }
}

/// The line of the trace for a record.
pub fn line_of(alloc: Global, sent: &Sent) -> Result<String, AllocError> {
    let minute = Minute::of_seconds(sent.second);
    let id = mint(&Secret([0; 20]), Addr::V4(sent.who), minute);
    let [a, b, c, d] = sent.who;
    let second = sent.second;
    let mut line = format!(in alloc; "U {second} {a}.{b}.{c}.{d} 5000 {id:016x}")?;
    match sent.what {
        What::Announce { hash, left, event } => {
            line.push_str("0000000112345678")?;
            push_hash(alloc, &mut line, hash)?;
            push_fields(alloc, &mut line, left, event)?;
        }
        What::Scrape { hashes, count } => {
            line.push_str("0000000212345678")?;
            for hash in &hashes[..count.min(4)] {
                push_hash(alloc, &mut line, *hash)?;
            }
        }
    }
    line.push('\n')?;
    Ok(line)
}

/// Adds the digits of an info hash of 20 equal bytes.
fn push_hash(alloc: Global, line: &mut String, byte: u8) -> Result<(), AllocError> {
    let digits = format!(in alloc; "{byte:02x}")?;
    for _ in 0..20 {
        line.push_str(&digits)?;
    }
    Ok(())
}

/// Adds the fields of an announce behind its hash. It wants as many peers as the tracker likes.
fn push_fields(alloc: Global, line: &mut String, left: u64, event: u32) -> Result<(), AllocError> {
    let zeros = "0000000000000000";
    let peer_id = "0000000000000000000000000000000000000000";
    let fields = format!(in alloc;
        "{peer_id}{zeros}{left:016x}{zeros}{event:08x}{zeros}ffffffff1ae1"
    )?;
    line.push_str(&fields)
}

/// The lines of a trace of these records.
pub fn trace_of(alloc: Global, records: &[Sent]) -> Result<String, AllocError> {
    let mut trace = String::new(alloc);
    for sent in records {
        trace.push_str(&line_of(alloc, sent)?)?;
    }
    Ok(trace)
}

/// What a replay of the records by these settings writes, or nothing where it doesn't end done.
pub fn replies_by(
    rt: &HostRuntime,
    settings: ReplaySettings,
    records: &[Sent],
) -> Result<Vec<u8>, Fail>
    requires { IsOffered settings }
{
    let trace = trace_of(rt.alloc(), records)?;
    match replayed(rt, settings, &trace)? {
        (Status::Done, written) => Ok(written),
        (_, _) => Ok(Vec::new(rt.alloc())),
    }
}

/// The same by the usual settings.
fn replies_to(rt: &HostRuntime, records: &[Sent]) -> Result<Vec<u8>, Fail> {
    replies_by(rt, USUAL, records)
}

#[test]
fn peers_come_change_and_go(rt: HostRuntime) -> Result<(), Fail> {
    let replies = replies_to(
        &rt,
        &[announce(0, P, A, 0, STARTED), announce(0, Q, A, 5, STARTED)],
    )?;
    assert_eq!(rt;
        replies.as_slice(),
        b"R 0000000112345678000007080000000000000001
R 0000000112345678000007080000000100000001c00002011ae1
"
            .as_slice(),
        "a seed, and then a leecher that is told it"
    );
    let replies = replies_to(
        &rt,
        &[announce(0, P, A, 0, STARTED), announce(0, P, A, 9, NOTHING)],
    )?;
    assert_eq!(rt;
        replies.as_slice(),
        b"R 0000000112345678000007080000000000000001
R 0000000112345678000007080000000100000000
"
            .as_slice(),
        "a seed turns leecher"
    );
    let replies = replies_to(&rt, &[announce(0, P, A, 0, STOPPED)])?;
    assert_eq!(rt;
        replies.as_slice(),
        b"R 0000000112345678000007080000000000000000
"
            .as_slice(),
        "a stop of nobody"
    );
    let replies = replies_to(
        &rt,
        &[
            announce(0, P, A, 9, NOTHING),
            scrape(2699, P, A),
            scrape(2700, P, A),
        ],
    )?;
    assert_eq!(rt;
        replies.as_slice(),
        b"R 0000000112345678000007080000000100000000
R 0000000212345678000000000000000000000001
R 0000000212345678000000000000000000000000
"
            .as_slice(),
        "a peer is live for 45 minutes, with no cleaner between"
    );
    let replies = replies_to(
        &rt,
        &[
            announce(480, P, A, 9, NOTHING),
            announce(479, Q, A, 9, NOTHING),
            scrape(3179, P, A),
            scrape(3180, P, A),
        ],
    )?;
    assert_eq!(rt;
        replies.as_slice(),
        b"R 0000000112345678000007080000000100000000
R 0000000112345678000007080000000200000000c00002011ae1
R 0000000212345678000000000000000000000002
R 0000000212345678000000000000000000000000
"
            .as_slice(),
        "a stamp is the bucket's time, which doesn't fall"
    );
    Ok(())
}

#[test]
fn downloads_and_several_torrents(rt: HostRuntime) -> Result<(), Fail> {
    let replies = replies_to(
        &rt,
        &[
            announce(0, P, A, 0, COMPLETED),
            announce(0, P, A, 0, COMPLETED),
            scrape(0, P, A),
            announce(0, P, A, 0, STOPPED),
            announce(0, P, A, 0, COMPLETED),
            scrape(0, P, A),
        ],
    )?;
    assert_eq!(rt;
        replies.as_slice(),
        b"R 0000000112345678000007080000000000000001
R 0000000112345678000007080000000000000001
R 0000000212345678000000010000000100000000
R 0000000112345678000007080000000000000000
R 0000000112345678000007080000000000000001
R 0000000212345678000000010000000200000000
"
            .as_slice(),
        "a completed download counts once, and again after a stop"
    );
    let replies = replies_to(
        &rt,
        &[
            announce(0, P, A, 0, STARTED),
            announce(0, P, A, 0, COMPLETED),
            scrape(0, P, A),
        ],
    )?;
    assert_eq!(rt;
        replies.as_slice(),
        b"R 0000000112345678000007080000000000000001
R 0000000112345678000007080000000000000001
R 0000000212345678000000010000000000000000
"
            .as_slice(),
        "a seed that has completed adds no download"
    );
    let replies = replies_to(
        &rt,
        &[
            announce(0, P, A, 0, STARTED),
            announce(0, Q, B, 5, STARTED),
            Sent {
                second: 0,
                who: P,
                what: What::Scrape {
                    hashes: [B, A, 0, B],
                    count: 4,
                },
            },
        ],
    )?;
    assert_eq!(rt;
        replies.as_slice(),
        b"R 0000000112345678000007080000000000000001
R 0000000112345678000007080000000100000000
R 0000000212345678\
000000000000000000000001000000010000000000000000000000000000000000000000000000000000000000000001
"
            .as_slice(),
        "a scrape of several, in order and repeats too"
    );
    Ok(())
}

/// Whole lines that no builder makes: what is no request is silent, what is wrong has its error.
#[test]
fn what_is_no_request_and_what_is_refused(rt: HostRuntime) -> Result<(), Fail> {
    for (shows, line, output) in [
        ("no bytes", "U 0 192.0.2.1 5000 ", "S short"),
        (
            "15 bytes",
            "U 0 192.0.2.1 5000 000000000000000000000000000000",
            "S short",
        ),
        (
            "another protocol id",
            "U 0 192.0.2.1 5000 00000417271019810000000012345678",
            "S protocol",
        ),
        (
            "an announce of 16 bytes",
            "U 0 192.0.2.1 5000 3a09986f9ddc67750000000112345678",
            "S announce",
        ),
        (
            "an announce of 97 bytes",
            "U 0 192.0.2.1 5000 3a09986f9ddc67750000000112345678\
            11111111111111111111111111111111111111110000000000000000000000000000000000000000\
            000000000000000000000000000000000000000000000000000000020000000000000000ffffffff\
            1a",
            "S announce",
        ),
        (
            "a scrape of 35 bytes",
            "U 0 192.0.2.1 5000 3a09986f9ddc67750000000212345678\
            11111111111111111111111111111111111111",
            "S scrape",
        ),
        (
            "a scrape of one hash and 19 bytes more",
            "U 0 192.0.2.1 5000 3a09986f9ddc67750000000212345678\
            111111111111111111111111111111111111111111111111111111111111111111111111111111",
            "R 0000000212345678000000000000000000000000",
        ),
        (
            "an unknown action",
            "U 0 192.0.2.1 5000 00000000000000000000000712345678",
            "R 0000000312345678756e6b6e6f776e20616374696f6e",
        ),
        (
            "a scrape with another's id",
            "U 0 192.0.2.1 5000 c56531a8350aa48d0000000212345678\
            1111111111111111111111111111111111111111",
            "R 000000031234567862616420636f6e6e656374696f6e206964",
        ),
        (
            "an id of minute 0 at second 179",
            "U 179 192.0.2.1 5000 3a09986f9ddc67750000000212345678\
            1111111111111111111111111111111111111111",
            "R 0000000212345678000000000000000000000000",
        ),
        (
            "an id of minute 0 at second 180",
            "U 180 192.0.2.1 5000 3a09986f9ddc67750000000212345678\
            1111111111111111111111111111111111111111",
            "R 000000031234567862616420636f6e6e656374696f6e206964",
        ),
        (
            "port 0",
            "U 0 192.0.2.1 5000 3a09986f9ddc67750000000112345678\
            11111111111111111111111111111111111111110000000000000000000000000000000000000000\
            000000000000000000000000000000000000000000000000000000020000000000000000ffffffff\
            0000",
            "R 000000031234567862616420706f7274",
        ),
        (
            "a stop with port 0 and another's id",
            "U 0 192.0.2.1 5000 c56531a8350aa48d0000000112345678\
            11111111111111111111111111111111111111110000000000000000000000000000000000000000\
            000000000000000000000000000000000000000000000000000000030000000000000000ffffffff\
            0000",
            "R 000000031234567862616420636f6e6e656374696f6e206964",
        ),
        (
            "an announce with 22 bytes more",
            "U 0 192.0.2.1 5000 3a09986f9ddc67750000000112345678\
            11111111111111111111111111111111111111110000000000000000000000000000000000000000\
            000000000000000000000000000000000000000000000000000000020000000000000000ffffffff\
            1ae100000000000000000000000000000000000000000000",
            "R 0000000112345678000007080000000000000001",
        ),
        (
            "an announce with event 9",
            "U 0 192.0.2.1 5000 3a09986f9ddc67750000000112345678\
            11111111111111111111111111111111111111110000000000000000000000000000000000000000\
            000000000000000000000000000000000000000000000000000000090000000000000000ffffffff\
            1ae1",
            "R 0000000112345678000007080000000000000001",
        ),
    ] {
        let mut input = MemSource::new(line.as_bytes(), &[], &[]);
        let mut out = MemSink::with_capacity(rt.alloc(), ROOM, ROOM, &[])?;
        let (status, _) = replay(&rt, &mut input, &mut out)?;
        assert_eq!(rt; status, Status::Done, "{shows}");
        assert_eq!(rt;
            out.written().trim_ascii_end(),
            output.as_bytes(),
            "{shows}"
        );
    }
    Ok(())
}

/// How many of the peers from 10.0.1.0 on, so many of them, stand among those that are told, in
/// twelve digits each.
fn count_told(alloc: Global, told: &[u8], others: u8) -> Result<usize, AllocError> {
    let mut count = 0usize;
    for n in 0..others {
        let peer = format!(in alloc; "0a0001{n:02x}1ae1")?;
        for group in told.chunks_exact(12) {
            if group == peer.as_bytes() {
                count = count.saturating_add(1);
            }
        }
    }
    Ok(count)
}

/// As many peers are told as are wanted, up to 200, and as there are others. They are different
/// ones of them.
#[test]
fn as_many_peers_as_are_wanted(rt: HostRuntime) -> Result<(), Fail> {
    for (others, want, told) in [
        (199, "000000c8", 199),
        (200, "000000c8", 200),
        (201, "000000c8", 200),
        (201, "00000000", 0),
        (201, "ffffffff", 50),
        (60, "80000000", 50),
        (3, "00000002", 2),
    ] {
        let mut trace = String::new(rt.alloc());
        for n in 0..others {
            trace.push_str(&line_of(rt.alloc(), &announce(0, [10, 0, 1, n], A, 5, NOTHING))?)?;
        }
        let asker = line_of(rt.alloc(), &announce(0, P, A, 0, NOTHING))?;
        trace.push_str(asker.strip_suffix("ffffffff1ae1\n").ok_or("no want")?)?;
        trace.push_str(want)?;
        trace.push_str("1ae1\n")?;
        let (status, written) = replayed(&rt, USUAL, &trace)?;
        assert_eq!(rt; status, Status::Done);
        let last = written
            .trim_ascii_end()
            .rsplit(|byte| *byte == b'\n')
            .next()
            .ok_or("no line")?;
        let head = format!(in rt.alloc(); "R 000000011234567800000708{others:08x}00000001")?;
        let peers = last.strip_prefix(head.as_bytes()).ok_or("no head")?;
        assert_eq!(rt; peers.len(), 12 * told, "{others} others, want {want}");
        let count = count_told(rt.alloc(), peers, others)?;
        assert_eq!(rt; count, told, "{others} others, want {want}");
    }
    Ok(())
}

/// A scrape of 75 hashes is answered for the first 74, in 896 bytes.
#[test]
fn the_first_74_hashes_are_scraped(rt: HostRuntime) -> Result<(), Fail> {
    let mut trace = line_of(rt.alloc(), &scrape(0, P, A))?;
    trace.pop();
    for _ in 1..75u8 {
        push_hash(rt.alloc(), &mut trace, A)?;
    }
    let mut input = MemSource::new(trace.as_bytes(), &[], &[]);
    let mut out = MemSink::with_capacity(rt.alloc(), ROOM, ROOM, &[])?;
    let (status, _) = replay(&rt, &mut input, &mut out)?;
    assert_eq!(rt; status, Status::Done);
    assert_eq!(rt; out.written().len(), 2 + 2 * 896 + 1);
    Ok(())
}
