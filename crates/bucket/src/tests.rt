//! What no clause says: worked values.

ghost use Rattle.std.specs.Prelude.{◌≡◌, ◌≤◌, true};
ghost use Rattle.tracker_model.specs.Calls.{IsPeer, IsWellFormed, names_torrent};
ghost use Rattle.tracker_model.specs.Settings.{AreLimits};

mod random;
mod shelves;
mod syncs;

use super::*;
use ot_base::{Addr, Endpoint, InfoHash, Limits, Mark, Minute};
use std::alloc::{AllocError, Global};
use std::process::Abort;
use std::test::Fail;
use tracker_model::{Answer, Call};

const A: InfoHash = InfoHash([0x11; 20]);

const B: InfoHash = InfoHash([0xff; 20]);

const WORDS: [u32; 200] = [0; 200];

/// An IPv4 address at port 6881.
fn at(address: [u8; 4]) -> Endpoint
    ensures { IsPeer result }
{
    Endpoint {
        addr: Addr::V4(address),
        port: 6881,
    }
}

/// 192.0.2.n at port 6881.
fn numbered(n: u8) -> Endpoint
    ensures { IsPeer result }
{
    at([192, 0, 2, n])
}

/// The limits that a tracker has where nobody sets others.
const USUAL: Limits = Limits {
    peers: 100_000,
    torrents: 65_536,
};

/// What a peer asks.
#[derive(Clone, Copy)]
enum Asks {
    Leecher,
    Seed,
    /// A seed that has just finished its download.
    Finisher,
    Stop,
    Scrape,
    /// Another node says so of the peer.
    Synced(Mark),
}

/// What it is answered.
#[derive(Clone, Copy, Debug, PartialEq)]
enum Outcome {
    /// Seeds, downloads and leechers, and the number of the one peer that is told, if one is.
    Told(u32, u32, u32, Option<u8>),
    /// The same counts, and whether the torrent is known.
    Stats(u32, u32, u32, bool),
    SwarmFull(u32),
    BucketFull(u32),
    Applied,
    Otherwise,
}

/// A label, the minute, the torrent, the peer's number, what it asks, and what it is answered.
type Step = (&'static str, u32, InfoHash, u8, Asks, Outcome);

/// The last byte of the one peer that is told, if it is one and has an IPv4 address.
fn only_one(peers: &[Endpoint]) -> Option<u8> {
    match peers {
        [one] => match one.addr {
            Addr::V4(bytes) => Some(bytes[3]),
            Addr::V6(_) => None,
        },
        _ => None,
    }
}

fn outcome_of(answer: &Answer) -> Outcome {
    match answer {
        Answer::Told { counts, peers } => Outcome::Told(
            counts.complete,
            counts.downloaded,
            counts.incomplete,
            only_one(peers.as_slice()),
        ),
        Answer::Stats { counts, known } => Outcome::Stats(
            counts.complete,
            counts.downloaded,
            counts.incomplete,
            *known,
        ),
        Answer::SwarmFull { count } => Outcome::SwarmFull(*count),
        Answer::BucketFull { count } => Outcome::BucketFull(*count),
        Answer::Applied => Outcome::Applied,
        Answer::Rows { .. } | Answer::Cleaned { .. } | Answer::Drained { .. } | Answer::NoMemory =>
            Outcome::Otherwise,
    }
}

fn announce(hash: InfoHash, who: Endpoint, seed: bool, completed: bool, want: u32) -> Call
    requires peer { IsPeer who }
    requires finished { completed ≡ true → seed ≡ true }
    requires wanted { want ≤ 200 }
    ensures formed { IsWellFormed result }
    ensures named { names_torrent result ≡ true }
{
    Call::Announce {
        hash,
        who,
        seed,
        completed,
        want,
    }
}

fn call_of(hash: InfoHash, who: Endpoint, asks: Asks) -> Call
    requires peer { IsPeer who }
    ensures formed { IsWellFormed result }
    ensures named { names_torrent result ≡ true }
{
    match asks {
        Asks::Leecher => announce(hash, who, false, false, 50),
        Asks::Seed => announce(hash, who, true, false, 50),
        Asks::Finisher => announce(hash, who, true, true, 50),
        Asks::Stop => Call::Stop { hash, who },
        Asks::Scrape => Call::Scrape { hash },
        Asks::Synced(mark) => Call::Sync { hash, who, mark },
    }
}

/// Asks once, and again where there was no memory.
fn ask(bucket: &mut Bucket, minute: u32, call: Call, words: &[u32; 200]) -> Answer
    requires { IsWellFormed call }
    ensures { bucket.new.settings ≡ bucket.old.settings }
{
    match bucket.call(0, Minute(minute), call, words) {
        Answer::NoMemory => bucket.call(0, Minute(minute), call, words),
        answer => answer,
    }
}

/// Compares an answer with what is wanted.
fn expect(rt: &impl Abort, label: &str, answer: &Answer, want: Outcome) {
    assert_eq!(rt; outcome_of(answer), want, "{label}");
}

fn follow(rt: &(impl Abort + AllocGlobal), limits: Limits, steps: &[Step]) -> Result<(), Fail>
    requires { AreLimits limits }
{
    let mut bucket = Bucket::new(rt.alloc(), limits, false)?;
    for (label, minute, hash, n, asks, want) in steps {
        let call = call_of(*hash, numbered(*n), *asks);
        expect(rt, label, &ask(&mut bucket, *minute, call, &WORDS), *want);
    }
    Ok(())
}

#[test]
fn peers_age_out_and_time_never_falls(rt: HostRuntime) -> Result<(), Fail> {
    use Asks::{Leecher, Scrape};
    use Outcome::{Stats, Told};
    follow(
        &rt,
        USUAL,
        &[
            ("the first one", 8, A, 1, Leecher, Told(0, 0, 1, None)),
            ("stamped with 8", 7, A, 2, Leecher, Told(0, 0, 2, Some(1))),
            ("both live", 52, A, 0, Scrape, Stats(0, 0, 2, true)),
            ("both gone", 53, A, 0, Scrape, Stats(0, 0, 0, true)),
            ("time stays", 8, A, 0, Scrape, Stats(0, 0, 0, true)),
            ("anew", 60, A, 1, Leecher, Told(0, 0, 1, None)),
            ("live", 104, A, 2, Leecher, Told(0, 0, 2, Some(1))),
            ("gone", 105, A, 2, Leecher, Told(0, 0, 1, None)),
        ],
    )
}

#[test]
fn a_download_counts_once_until_its_peer_has_left(rt: HostRuntime) -> Result<(), Fail> {
    use Asks::{Finisher, Leecher, Seed, Stop};
    use Outcome::Told;
    follow(
        &rt,
        USUAL,
        &[
            ("finished", 0, A, 1, Finisher, Told(1, 1, 0, None)),
            ("again", 0, A, 1, Finisher, Told(1, 1, 0, None)),
            ("stopped", 0, A, 1, Stop, Told(0, 1, 0, None)),
            ("after its stop", 0, A, 1, Finisher, Told(1, 2, 0, None)),
            ("a seed from the start", 0, B, 1, Seed, Told(1, 0, 0, None)),
            ("was a seed", 0, B, 1, Finisher, Told(1, 0, 0, None)),
            ("a leecher", 0, B, 1, Leecher, Told(0, 0, 1, None)),
            ("was a leecher", 0, B, 1, Finisher, Told(1, 1, 0, None)),
            ("after 45 minutes", 45, A, 1, Finisher, Told(1, 3, 0, None)),
        ],
    )
}

#[test]
fn full_torrents_and_buckets_refuse_newcomers(rt: HostRuntime) -> Result<(), Fail> {
    use Asks::{Leecher, Stop};
    use Outcome::{BucketFull, SwarmFull, Told};
    let narrow = Limits {
        peers: 2,
        torrents: 1,
    };
    follow(
        &rt,
        narrow,
        &[
            ("the first", 0, A, 1, Leecher, Told(0, 0, 1, None)),
            ("the second", 1, A, 2, Leecher, Told(0, 0, 2, Some(1))),
            (
                "one that is in it",
                1,
                A,
                2,
                Leecher,
                Told(0, 0, 2, Some(1)),
            ),
            ("a third", 1, A, 3, Leecher, SwarmFull(2)),
            ("another torrent", 1, B, 1, Leecher, BucketFull(1)),
            (
                "as the first ages out",
                45,
                A,
                3,
                Leecher,
                Told(0, 0, 2, Some(2)),
            ),
            ("the second leaves", 45, A, 2, Stop, Told(0, 0, 1, None)),
            ("in its place", 45, A, 1, Leecher, Told(0, 0, 2, Some(3))),
            ("known for a day", 1484, B, 1, Leecher, BucketFull(1)),
            ("then forgotten", 1485, B, 1, Leecher, Told(0, 0, 1, None)),
        ],
    )
}

#[test]
fn a_stop_takes_out_its_own_peer_alone(rt: HostRuntime) -> Result<(), Fail> {
    use Asks::{Leecher, Scrape, Seed, Stop};
    use Outcome::{Stats, Told};
    follow(
        &rt,
        USUAL,
        &[
            ("an unknown torrent", 0, A, 1, Stop, Told(0, 0, 0, None)),
            ("is still unknown", 0, A, 0, Scrape, Stats(0, 0, 0, false)),
            ("a seed", 0, A, 1, Seed, Told(1, 0, 0, None)),
            ("a leecher", 0, A, 2, Leecher, Told(1, 0, 1, Some(1))),
            ("a stranger", 0, A, 3, Stop, Told(1, 0, 1, None)),
            ("the seed", 0, A, 1, Stop, Told(0, 0, 1, None)),
            ("the seed again", 0, A, 1, Stop, Told(0, 0, 1, None)),
            (
                "the seed's other torrent",
                0,
                B,
                1,
                Seed,
                Told(1, 0, 0, None),
            ),
            ("the leecher, too late", 45, A, 2, Stop, Told(0, 0, 0, None)),
        ],
    )
}

#[test]
fn stops_and_scrapes_keep_no_torrent_known(rt: HostRuntime) -> Result<(), Fail> {
    use Asks::{Finisher, Leecher, Scrape, Stop};
    use Outcome::{Stats, Told};
    follow(
        &rt,
        USUAL,
        &[
            ("the first", 0, A, 1, Finisher, Told(1, 1, 0, None)),
            (
                "its last announce",
                10,
                A,
                2,
                Leecher,
                Told(1, 1, 1, Some(1)),
            ),
            ("live", 44, A, 0, Scrape, Stats(1, 1, 1, true)),
            ("one is gone", 45, A, 0, Scrape, Stats(0, 1, 1, true)),
            ("stopped", 46, A, 2, Stop, Told(0, 1, 0, None)),
            ("nobody is left", 46, A, 0, Scrape, Stats(0, 1, 0, true)),
            ("known for a day", 1449, A, 0, Scrape, Stats(0, 1, 0, true)),
            ("then forgotten", 1450, A, 0, Scrape, Stats(0, 0, 0, false)),
            ("and told nothing", 1450, A, 2, Stop, Told(0, 0, 0, None)),
        ],
    )
}

/// A bucket with so many peers of one torrent.
fn with_others(alloc: Global, others: u16) -> Result<Bucket, AllocError> {
    let mut bucket = Bucket::new(alloc, USUAL, false)?;
    for n in 0..others {
        let [high, low] = n.to_be_bytes();
        let call = announce(A, at([10, 0, high, low]), false, false, 0);
        ask(&mut bucket, 0, call, &WORDS);
    }
    Ok(bucket)
}

/// How many peers a newcomer is told among so many others.
fn told_among(alloc: Global, others: u16, want: u32) -> Result<usize, AllocError>
    requires { want ≤ 200 }
{
    let mut bucket = with_others(alloc, others)?;
    let newcomer = announce(A, numbered(1), false, false, want);
    match ask(&mut bucket, 0, newcomer, &WORDS) {
        Answer::Told { peers, .. } => Ok(peers.len()),
        _ => Ok(usize::MAX),
    }
}

#[test]
fn as_many_peers_as_are_wanted(rt: HostRuntime) -> Result<(), Fail> {
    for (others, want, told) in [
        (199, 200, 199),
        (200, 200, 200),
        (201, 200, 200),
        (201, 50, 50),
        (201, 0, 0),
        (0, 200, 0),
        (1000, 200, 200),
    ] {
        let len = told_among(rt.alloc(), others, want)?;
        assert_eq!(&rt; len, told, "{want} of {others}");
    }
    Ok(())
}

/// Asks, and compares the bucket's time and how many peers it has then with what is wanted.
fn check_stored(rt: &impl Abort, bucket: &mut Bucket, minute: u32, call: Call, want: (u32, u64))
    requires { IsWellFormed call }
{
    ask(bucket, minute, call, &WORDS);
    assert_eq!(rt; (bucket.time().0, bucket.held()), want, "at {minute}");
}

#[test]
fn time_and_stored_peers(rt: HostRuntime) -> Result<(), Fail> {
    use Asks::{Leecher, Stop};
    let mut bucket = Bucket::new(rt.alloc(), USUAL, false)?;
    let who = numbered(1);
    check_stored(&rt, &mut bucket, 0, Call::Clean, (0, 0));
    check_stored(&rt, &mut bucket, 8, call_of(A, who, Leecher), (8, 1));
    check_stored(&rt, &mut bucket, 7, call_of(B, who, Leecher), (8, 2));
    check_stored(&rt, &mut bucket, 9, call_of(B, who, Stop), (9, 1));
    Ok(())
}

/// The hashes in the bucket's order, each with its touch.
fn touches(alloc: Global, bucket: &Bucket) -> Result<Vec<(InfoHash, u32)>, AllocError> {
    let ring = bucket.ring();
    let mut touches = Vec::new(alloc);
    for i in 0..ring.len() {
        touches.push((ring.item(i), ring.stamp(i)))?;
    }
    Ok(touches)
}

/// Asks as a leecher, and compares the touches then with those that are wanted.
fn check_touches(
    rt: &(impl Abort + AllocGlobal),
    bucket: &mut Bucket,
    minute: u32,
    hash: InfoHash,
    label: &str,
    want: &[(InfoHash, u32)],
) -> Result<(), AllocError> {
    let call = call_of(hash, numbered(1), Asks::Leecher);
    ask(bucket, minute, call, &WORDS);
    assert_eq!(rt; touches(rt.alloc(), bucket)?.as_slice(), want, "{label}");
    Ok(())
}

#[test]
fn torrents_stand_in_the_order_in_which_they_came(rt: HostRuntime) -> Result<(), Fail> {
    let c = InfoHash([0x22; 20]);
    let mut bucket = Bucket::new(rt.alloc(), USUAL, false)?;
    let steps: [(&str, u32, InfoHash, &[(InfoHash, u32)]); 6] = [
        ("the first", 0, B, &[(B, 0)]),
        ("behind it", 1, A, &[(B, 0), (A, 1)]),
        ("touched again", 2, B, &[(B, 2), (A, 1)]),
        ("the third", 3, c, &[(B, 2), (A, 1), (c, 3)]),
        ("the last moves into a gap", 1441, B, &[(B, 1441), (c, 3)]),
        ("the second at its end", 1443, A, &[(B, 1441), (A, 1443)]),
    ];
    for (label, minute, hash, order) in steps {
        check_touches(&rt, &mut bucket, minute, hash, label, order)?;
    }
    Ok(())
}

/// A bucket with a torrent of one peer, and one of two, the second of which came 44 minutes later.
fn with_two_torrents(alloc: Global) -> Result<Bucket, AllocError> {
    let mut bucket = Bucket::new(alloc, USUAL, false)?;
    for (minute, hash, n) in [(0, B, 1), (0, A, 1), (44, A, 2)] {
        let call = call_of(hash, numbered(n), Asks::Leecher);
        ask(&mut bucket, minute, call, &WORDS);
    }
    Ok(bucket)
}

/// The rows that a scan tells, by the first bytes of their hashes, with their leechers.
fn scanned(
    rt: &(impl Abort + AllocGlobal),
    bucket: &mut Bucket,
    minute: u32,
) -> Result<Vec<(u8, u32)>, AllocError> {
    let mut told = Vec::new(rt.alloc());
    if let Answer::Rows { rows } = ask(bucket, minute, Call::Scan, &WORDS) {
        for row in rows.as_slice() {
            told.push((row.hash.0[0], row.counts.incomplete))?;
        }
    }
    Ok(told)
}

#[test]
fn a_scan_tells_known_torrents_in_ascending_order(rt: HostRuntime) -> Result<(), Fail> {
    let mut bucket = with_two_torrents(rt.alloc())?;
    let steps: [(&str, u32, &[(u8, u32)]); 6] = [
        ("all live", 44, &[(0x11, 2), (0xff, 1)]),
        ("one is left", 45, &[(0x11, 1), (0xff, 0)]),
        ("none is left", 89, &[(0x11, 0), (0xff, 0)]),
        ("both known", 1439, &[(0x11, 0), (0xff, 0)]),
        ("one forgotten", 1440, &[(0x11, 0)]),
        ("the other as well", 1484, &[]),
    ];
    for (label, minute, want) in steps {
        let rows = scanned(&rt, &mut bucket, minute)?;
        assert_eq!(&rt; rows.as_slice(), want, "{label}");
    }
    Ok(())
}

/// How many peers and torrents are stored.
fn stored(bucket: &Bucket) -> (u64, u32) {
    (bucket.held(), bucket.ring().len())
}

/// Cleans a bucket, and compares what is stored before and after with what is wanted.
fn check_cleaning(
    rt: &impl Abort,
    bucket: &mut Bucket,
    minute: u32,
    label: &str,
    before: (u64, u32),
    after: (u64, u32),
) {
    assert_eq!(rt; stored(bucket), before, "{label}: before");
    let held = match ask(bucket, minute, Call::Clean, &WORDS) {
        Answer::Cleaned { held } => held,
        _ => u64::MAX,
    };
    assert_eq!(rt; held, after.0, "{label}: told");
    assert_eq!(rt; stored(bucket), after, "{label}: after");
}

#[test]
fn a_cleaning_drops_what_is_stale(rt: HostRuntime) -> Result<(), Fail> {
    let mut bucket = with_two_torrents(rt.alloc())?;
    for (label, minute, before, after) in [
        ("all live", 44, (3, 2), (3, 2)),
        ("one is left", 45, (3, 2), (1, 2)),
        ("none is left", 89, (1, 2), (0, 2)),
        ("one forgotten", 1440, (0, 2), (0, 1)),
        ("the other as well", 1484, (0, 1), (0, 0)),
    ] {
        check_cleaning(&rt, &mut bucket, minute, label, before, after);
    }
    Ok(())
}

#[test]
fn a_scrape_by_itself_is_that_of_a_call(rt: HostRuntime) -> Result<(), Fail> {
    use Outcome::Stats;
    let mut bucket = Bucket::new(rt.alloc(), USUAL, false)?;
    let call = call_of(A, numbered(1), Asks::Finisher);
    ask(&mut bucket, 0, call, &WORDS);
    for (label, minute, hash, want) in [
        ("live", 44, A, Stats(1, 1, 0, true)),
        ("stale", 45, A, Stats(0, 1, 0, true)),
        ("time stays", 0, A, Stats(0, 1, 0, true)),
        ("unknown", 45, B, Stats(0, 0, 0, false)),
        ("forgotten", 1440, A, Stats(0, 0, 0, false)),
    ] {
        let (counts, known) = bucket.scrape(0, Minute(minute), &hash);
        expect(&rt, label, &Answer::Stats { counts, known }, want);
    }
    Ok(())
}
