//! Notes for the other nodes, and notes of theirs.

use super::*;
use ot_base::{Note, Notes};

/// What a peer's call is noted as.
fn note(hash: InfoHash, n: u8, mark: Mark) -> Note {
    Note {
        hash,
        who: numbered(n),
        mark,
    }
}

/// The notes of a bucket, and how many it dropped.
fn drain(rt: &impl Abort, bucket: &mut Bucket) -> (Notes, u32) {
    match ask(bucket, 0, Call::Drain, &WORDS) {
        Answer::Drained { notes, dropped } => (notes, dropped),
        _ => panic!(rt; "no drain"),
    }
}

/// Drains a bucket, and compares its notes with those that are wanted.
fn check_notes(rt: &impl Abort, bucket: &mut Bucket, label: &str, want: &[Note]) {
    let (notes, dropped) = drain(rt, bucket);
    assert_eq!(rt; notes.as_slice(), want, "{label}");
    assert_eq!(rt; dropped, 0, "{label}: dropped");
}

/// A bucket that peers were let into and one was refused at, with another node's notes between.
fn asked(rt: &(impl Abort + AllocGlobal), sync: bool) -> Result<Bucket, AllocError> {
    use Asks::{Finisher, Leecher, Scrape, Seed, Stop, Synced};
    let narrow = Limits {
        peers: 3,
        torrents: 2,
    };
    let mut bucket = Bucket::new(rt.alloc(), narrow, sync)?;
    for (hash, n, asks) in [
        (A, 1, Leecher),
        (A, 2, Seed),
        (B, 5, Synced(Mark::Seed)),
        (A, 3, Finisher),
        (A, 4, Leecher),
        (A, 1, Stop),
        (A, 0, Scrape),
        (A, 7, Stop),
        (B, 5, Synced(Mark::Stopped)),
    ] {
        ask(&mut bucket, 0, call_of(hash, numbered(n), asks), &WORDS);
    }
    Ok(bucket)
}

#[test]
fn effective_announces_and_stops_are_noted(rt: HostRuntime) -> Result<(), Fail> {
    let mut bucket = asked(&rt, true)?;
    let want = [
        note(A, 1, Mark::Leecher),
        note(A, 2, Mark::Seed),
        note(A, 3, Mark::Seed),
        note(A, 1, Mark::Stopped),
        note(A, 7, Mark::Stopped),
    ];
    check_notes(&rt, &mut bucket, "in order", want.as_slice());
    check_notes(&rt, &mut bucket, "drained", [].as_slice());
    ask(&mut bucket, 0, call_of(B, numbered(6), Asks::Seed), &WORDS);
    let one = [note(B, 6, Mark::Seed)];
    check_notes(&rt, &mut bucket, "one more", one.as_slice());
    Ok(())
}

#[test]
fn without_sync_nothing_is_noted(rt: HostRuntime) -> Result<(), Fail> {
    let mut bucket = asked(&rt, false)?;
    check_notes(&rt, &mut bucket, "off", [].as_slice());
    Ok(())
}

#[test]
fn other_nodes_notes_are_applied(rt: HostRuntime) -> Result<(), Fail> {
    use Asks::{Finisher, Leecher, Scrape, Synced};
    use Outcome::{Applied, BucketFull, Stats, SwarmFull, Told};
    let narrow = Limits {
        peers: 2,
        torrents: 1,
    };
    follow(
        &rt,
        narrow,
        &[
            ("a seed", 0, A, 1, Synced(Mark::Seed), Applied),
            ("it is one", 0, A, 0, Scrape, Stats(1, 0, 0, true)),
            ("no longer", 1, A, 1, Synced(Mark::Leecher), Applied),
            ("it has less", 1, A, 0, Scrape, Stats(0, 0, 1, true)),
            ("it finished", 2, A, 1, Finisher, Told(1, 1, 0, None)),
            ("as it says", 2, A, 1, Synced(Mark::Seed), Applied),
            ("counted once", 2, A, 0, Scrape, Stats(1, 1, 0, true)),
            ("a second", 3, A, 2, Synced(Mark::Leecher), Applied),
            ("a third", 3, A, 3, Synced(Mark::Seed), SwarmFull(2)),
            ("it never came", 3, A, 3, Synced(Mark::Stopped), Applied),
            (
                "another torrent",
                3,
                B,
                1,
                Synced(Mark::Seed),
                BucketFull(1),
            ),
            ("the second left", 3, A, 2, Synced(Mark::Stopped), Applied),
            ("one is left", 3, A, 0, Scrape, Stats(1, 1, 0, true)),
            ("told to others", 46, A, 3, Leecher, Told(1, 1, 1, Some(1))),
            ("one aged out", 47, A, 0, Scrape, Stats(0, 1, 1, true)),
            ("touched at 46", 1485, A, 0, Scrape, Stats(0, 1, 0, true)),
            ("forgotten", 1486, A, 0, Scrape, Stats(0, 0, 0, false)),
        ],
    )
}

#[test]
fn the_first_4096_notes_are_kept(rt: HostRuntime) -> Result<(), Fail> {
    let mut bucket = Bucket::new(rt.alloc(), USUAL, true)?;
    for n in 0..4098u16 {
        let [high, low] = n.to_be_bytes();
        let stop = Call::Stop {
            hash: A,
            who: at([10, 0, high, low]),
        };
        ask(&mut bucket, 0, stop, &WORDS);
    }
    let (notes, dropped) = drain(&rt, &mut bucket);
    assert_eq!(&rt; (notes.len(), dropped), (4096, 2), "kept and dropped");
    let last = notes.as_slice().last().map(|note| note.who);
    assert_eq!(&rt; last, Some(at([10, 0, 15, 255])), "the last");
    check_notes(&rt, &mut bucket, "drained", [].as_slice());
    Ok(())
}
