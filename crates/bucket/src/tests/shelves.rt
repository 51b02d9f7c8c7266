//! Worked values of a shelf.

ghost use Rattle.std.specs.Prelude.{◌≡◌, ◌<◌, ◌≤◌, ◌^◌, All, IfOk, false, length, true};
ghost use Rattle.tracker_model.specs.Calls.{IsReport, IsWellFormed, names_torrent};
ghost use Rattle.tracker_model.specs.Settings.{AreLimits};

use super::*;
use ot_base::{Counts, Peers};
use tracker_model::{ReportAnswer, Tracker};

/// Asks a shelf once, and again where there was no memory.
fn ask_shelf(shelf: &mut Shelf, call: Call) -> Answer
    requires formed { IsWellFormed call }
    requires named { names_torrent call ≡ true }
{
    match shelf.call(Minute(0), call, &WORDS) {
        Answer::NoMemory => shelf.call(Minute(0), call, &WORDS),
        answer => answer,
    }
}

/// The numbers of the buckets in which peers are stored, each with how many.
fn filled(alloc: Global, shelf: &Shelf) -> Result<Vec<(u32, u64)>, AllocError> {
    let bits = shelf.bits();
    let mut filled = Vec::new(alloc);
    for i in 0..1 << bits {
        let held = shelf.bucket(i).held();
        if held > 0 {
            filled.push((i, held))?;
        }
    }
    Ok(filled)
}

#[test]
fn a_call_leaves_the_other_buckets(rt: HostRuntime) -> Result<(), Fail> {
    use Asks::{Leecher, Scrape, Stop};
    let mut shelf = Shelf::new(rt.alloc(), 10, USUAL, false)?;
    let steps: [(&str, InfoHash, u8, Asks, &[(u32, u64)]); 5] = [
        ("the first", A, 1, Leecher, &[(68, 1)]),
        ("another torrent", B, 1, Leecher, &[(68, 1), (1023, 1)]),
        ("one more", A, 2, Leecher, &[(68, 2), (1023, 1)]),
        ("it leaves one torrent", B, 1, Stop, &[(68, 2)]),
        ("a look", A, 0, Scrape, &[(68, 2)]),
    ];
    for (label, hash, n, asks, want) in steps {
        ask_shelf(&mut shelf, call_of(hash, numbered(n), asks));
        let filled = filled(rt.alloc(), &shelf)?;
        assert_eq!(&rt; filled.as_slice(), want, "{label}");
    }
    Ok(())
}

/// In which buckets of 2^`bits` the peers of two torrents are stored.
fn filled_by_two(alloc: Global, bits: u32) -> Result<Vec<(u32, u64)>, AllocError>
    requires { bits ≤ 10 }
{
    let mut shelf = Shelf::new(alloc, bits, USUAL, false)?;
    ask_shelf(&mut shelf, call_of(A, numbered(1), Asks::Leecher));
    ask_shelf(&mut shelf, call_of(B, numbered(1), Asks::Leecher));
    filled(alloc, &shelf)
}

#[test]
fn the_first_bits_tell_the_bucket(rt: HostRuntime) -> Result<(), Fail> {
    let one = filled_by_two(rt.alloc(), 0)?;
    assert_eq!(&rt; one.as_slice(), [(0, 2)].as_slice(), "no bits");
    let two = filled_by_two(rt.alloc(), 1)?;
    assert_eq!(&rt; two.as_slice(), [(0, 1), (1, 1)].as_slice(), "one bit");
    Ok(())
}

/// A bucket with so many peers.
fn with_peers(alloc: Global, limits: Limits, peers: u8) -> Result<Bucket, AllocError>
    requires { AreLimits limits }
    ensures { IfOk result (λ bucket. bucket.settings ≡ record { limits = limits; sync = false }) }
{
    let mut bucket = Bucket::new(alloc, limits, false)?;
    for n in 0..peers {
        let call = call_of(A, numbered(n), Asks::Leecher);
        ask(&mut bucket, 0, call, &WORDS);
    }
    Ok(bucket)
}

/// Four buckets: one with no peers, one with one, and so on.
fn four_buckets(alloc: Global, limits: Limits) -> Result<Vec<Bucket>, AllocError>
    requires { AreLimits limits }
    ensures four { IfOk result (λ buckets. length buckets.items ≡ 4) }
    ensures alike { IfOk result (λ buckets. All (λ bucket. bucket.settings ≡
        record { limits = limits; sync = false }) buckets.items) }
{
    let mut buckets = Vec::new(alloc);
    for peers in 0..4 {
        buckets.push(with_peers(alloc, limits, peers)?)?;
    }
    Ok(buckets)
}

#[test]
fn buckets_stand_in_their_order(rt: HostRuntime) -> Result<(), Fail> {
    let shelf = Shelf::of_buckets(2, four_buckets(rt.alloc(), USUAL)?);
    let filled = filled(rt.alloc(), &shelf)?;
    assert_eq!(&rt; filled.as_slice(), [(1, 1), (2, 2), (3, 3)].as_slice());
    Ok(())
}

/// An announce of a seed that has just finished.
fn finished(hash: InfoHash) -> Call
    ensures formed { IsWellFormed result }
    ensures report { IsReport result }
{
    Call::Announce {
        hash,
        who: numbered(1),
        seed: true,
        completed: true,
        want: 0,
    }
}

/// Announces a seed that has just finished, once, and again where there was no memory.
fn report<T: Tracker>(tracker: &mut T, hash: InfoHash) -> ReportAnswer
    ensures settings { T.settings tracker.new ≡ T.settings tracker.old }
    ensures bits { T.bits tracker.new ≡ T.bits tracker.old }
{
    match tracker.report(Minute(0), finished(hash), &WORDS, &mut Peers::new()) {
        ReportAnswer::NoMemory => {
            tracker.report(Minute(0), finished(hash), &WORDS, &mut Peers::new())
        }
        answer => answer,
    }
}

/// Announces a seed to a tracker, and asks for it in each other way.
fn visit<T: Tracker>(
    rt: &(impl Abort + AllocGlobal),
    tracker: &mut T,
    hash: InfoHash,
    bucket: u32,
) -> Result<(), AllocError>
    requires within { bucket < 2 ^ T.bits tracker.old }
{
    let counts = Counts {
        complete: 1,
        downloaded: 1,
        incomplete: 0,
    };
    assert_eq!(rt; report(tracker, hash), ReportAnswer::Told { counts });
    let (counts, known) = tracker.scrape(Minute(0), &hash);
    let scraped = Answer::Stats { counts, known };
    expect(rt, "scraped", &scraped, Outcome::Stats(1, 1, 0, true));
    let live = tracker.clean(bucket, Minute(44));
    let rows = tracker.scan(bucket, Minute(45))?.len();
    let left = tracker.clean(bucket, Minute(45));
    assert_eq!(rt; (live, rows, left), (1, 1, 0), "in its bucket");
    Ok(())
}

#[test]
fn a_shelf_is_a_tracker(rt: HostRuntime) -> Result<(), Fail> {
    let mut shelf = Shelf::new(rt.alloc(), 10, USUAL, false)?;
    assert_eq!(&rt; Tracker::bits(&shelf), 10);
    visit(&rt, &mut shelf, A, 68)?;
    Ok(())
}
