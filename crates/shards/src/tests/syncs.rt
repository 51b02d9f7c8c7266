//! Notes for the other nodes, and notes of theirs.

ghost use Rattle.std.specs.Prelude.{◌≡◌, ◌<◌, ◌^◌, true};
ghost use Rattle.shards.specs.Shape.{first_pass};
ghost use Rattle.tracker_model.specs.Calls.{IsWellFormed, names_torrent};

use super::*;
use ot_base::{Mark, Note, Notes};

/// New shards of two buckets that keep notes, for one caller, and its pass.
fn open_synced<R: Abort>(rt: &R, alloc: Global) -> (Shards, Pass)
    ensures bits { result.0.bits ≡ 1 }
    ensures pass { result.1 ≡ first_pass result.0 }
{
    Shards::new(alloc, 1, USUAL, true, 1).expect(rt, "memory")
}

/// The same peer takes part as a seed that has just finished.
fn finish(hash: InfoHash, n: u8) -> Call
    ensures formed { IsWellFormed result }
    ensures named { names_torrent result ≡ true }
{
    Call::Announce {
        hash,
        who: peer(n),
        seed: true,
        completed: true,
        want: 0,
    }
}

/// Another node says so of a peer.
fn sync(hash: InfoHash, n: u8, mark: Mark) -> Call
    ensures formed { IsWellFormed result }
    ensures named { names_torrent result ≡ true }
{
    Call::Sync {
        hash,
        who: peer(n),
        mark,
    }
}

/// What a peer's call is noted as.
fn note(hash: InfoHash, n: u8, mark: Mark) -> Note {
    Note {
        hash,
        who: peer(n),
        mark,
    }
}

/// The notes of a bucket, none of which may be dropped.
fn drained<R: Wait + Abort>(rt: &R, shards: &Shards, pass: &mut Pass, bucket: u32) -> Notes
    requires pass { pass.old.shards ≡ shards.now }
    requires within { bucket < 2 ^ shards.now.bits }
    ensures { pass.new.shards ≡ shards.now }
{
    let done = shards.call_in(rt, pass, bucket, Minute(0), Call::Drain, &WORDS);
    match done.answer {
        Answer::Drained { notes, dropped: 0 } => notes,
        _ => panic!(rt; "no drain"),
    }
}

#[test]
fn calls_of_clients_are_noted_in_their_bucket(rt: HostRuntime) -> Result<(), Fail> {
    let (shards, mut pass) = open_synced(&rt, rt.alloc());
    shards.call(&rt, &mut pass, Minute(0), announce(A, 1), &WORDS);
    shards.call(&rt, &mut pass, Minute(0), sync(A, 3, Mark::Seed), &WORDS);
    shards.call(&rt, &mut pass, Minute(0), finish(A, 2), &WORDS);
    let low = drained(&rt, &shards, &mut pass, 0);
    let want = [note(A, 1, Mark::Leecher), note(A, 2, Mark::Seed)];
    assert_eq!(&rt; low.as_slice(), want.as_slice(), "without the other node's");
    let high = drained(&rt, &shards, &mut pass, 1);
    assert_eq!(&rt; high.as_slice(), [].as_slice(), "none in the other bucket");
    let again = drained(&rt, &shards, &mut pass, 0);
    assert_eq!(&rt; again.as_slice(), [].as_slice(), "none twice");
    Ok(())
}

/// What a scrape of a torrent counts: its seeds and leechers.
fn scraped<R: Wait>(rt: &R, shards: &Shards, pass: &mut Pass, hash: InfoHash) -> Option<(u32, u32)>
    requires { pass.old.shards ≡ shards.now }
    ensures { pass.new.shards ≡ shards.now }
{
    let done = shards.call(rt, pass, Minute(0), Call::Scrape { hash }, &WORDS);
    counted(&done.answer)
}

#[test]
fn other_nodes_notes_are_counted(rt: HostRuntime) -> Result<(), Fail> {
    let (shards, mut pass) = open(&rt, rt.alloc(), 1, 1);
    shards.call(&rt, &mut pass, Minute(0), sync(A, 1, Mark::Leecher), &WORDS);
    shards.call(&rt, &mut pass, Minute(0), sync(A, 2, Mark::Seed), &WORDS);
    let both = scraped(&rt, &shards, &mut pass, A);
    assert_eq!(&rt; both, Some((1, 1)), "both take part");
    shards.call(&rt, &mut pass, Minute(0), sync(A, 2, Mark::Stopped), &WORDS);
    let one = scraped(&rt, &shards, &mut pass, A);
    assert_eq!(&rt; one, Some((0, 1)), "the seed has stopped");
    Ok(())
}
