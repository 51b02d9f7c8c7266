//! What the settings limit, and the words by which peers are chosen.

use super::datagrams::{A, B, NOTHING, P, Q, announce, line_of, replies_by};
use super::{USUAL, replayed};
use ot_base::Limits;
use ot_io::{ReplaySettings, Status};
use pick::pick;
use rand_core::{Rng, SeedableRng};
use rand_pcg::Pcg32;
use std::alloc::{AllocError, Global};
use std::test::Fail;

const S: [u8; 4] = [192, 0, 2, 3];

/// A swarm of two takes no third peer until one of the two is gone, 45 minutes after it came.
#[test]
fn a_swarm_has_so_many_peers(rt: HostRuntime) -> Result<(), Fail> {
    let limits = Limits {
        peers: 2,
        torrents: 65_536,
    };
    let replies = replies_by(
        &rt,
        ReplaySettings { limits, ..USUAL },
        &[
            announce(0, P, A, 9, NOTHING),
            announce(60, Q, A, 9, NOTHING),
            announce(2699, S, A, 9, NOTHING),
            announce(2700, S, A, 9, NOTHING),
        ],
    )?;
    assert_eq!(rt;
        replies.as_slice(),
        b"R 0000000112345678000007080000000100000000
R 0000000112345678000007080000000200000000c00002011ae1
R 0000000312345678737761726d2069732066756c6c
R 0000000112345678000007080000000200000000c00002021ae1
"
            .as_slice()
    );
    Ok(())
}

/// A tracker of one bucket that may have one torrent refuses a second one.
#[test]
fn a_bucket_has_so_many_torrents(rt: HostRuntime) -> Result<(), Fail> {
    let limits = Limits {
        peers: 100_000,
        torrents: 1,
    };
    let settings = ReplaySettings {
        bits: 0,
        limits,
        ..USUAL
    };
    let replies = replies_by(
        &rt,
        settings,
        &[announce(0, P, A, 9, NOTHING), announce(0, P, B, 9, NOTHING)],
    )?;
    assert_eq!(rt;
        replies.as_slice(),
        b"R 0000000112345678000007080000000100000000
R 0000000312345678747261636b65722069732066756c6c
"
            .as_slice()
    );
    Ok(())
}

/// How many peers announce before one is told peers.
const OTHERS: u8 = 100;

/// A trace in which the others announce and want none, and then one that wants 50.
fn crowd(alloc: Global) -> Result<String, Fail> {
    let mut trace = String::new(alloc);
    for n in 0..OTHERS {
        push_wanting(alloc, &mut trace, [10, 0, 0, n], "00000000")?;
    }
    push_wanting(alloc, &mut trace, P, "00000032")?;
    Ok(trace)
}

/// Adds an announce that wants so many peers.
fn push_wanting(alloc: Global, trace: &mut String, who: [u8; 4], want: &str) -> Result<(), Fail> {
    let line = line_of(alloc, &announce(0, who, A, 9, NOTHING))?;
    trace.push_str(line.strip_suffix("ffffffff1ae1\n").ok_or("no want")?)?;
    trace.push_str(want)?;
    trace.push_str("1ae1\n")?;
    Ok(())
}

/// The words that an announce gets from a generator that was seeded by a number, after so many
/// others.
fn words_after(seed: u64, others: u8) -> [u32; 200] {
    let mut generator = Pcg32::seed_from_u64(seed);
    let mut words = [0; 200];
    for _ in 0..=others {
        for place in 0..200 {
            words[place] = generator.next_u32();
        }
    }
    words
}

/// The output line for who is told 50 of the others, in the order in which they are chosen.
fn choice_by(alloc: Global, words: &[u32; 200]) -> Result<String, AllocError> {
    let mut line = format!(in alloc; "R 0000000112345678000007080000006500000000")?;
    for position in pick(words, u32::from(OTHERS), 50).as_slice() {
        let peer = format!(in alloc; "0a0000{position:02x}1ae1")?;
        line.push_str(&peer)?;
    }
    Ok(line)
}

/// Each announce takes 200 words of the generator, also one that wants no peer. By the words of the
/// last one the others are chosen, which stand in the order in which they came.
#[test]
fn words_of_seed(rt: HostRuntime) -> Result<(), Fail> {
    let trace = crowd(rt.alloc())?;
    let settings = ReplaySettings { seed: 7, ..USUAL };
    let (status, written) = replayed(&rt, settings, &trace)?;
    assert_eq!(rt; status, Status::Done);
    let last = written
        .trim_ascii_end()
        .rsplit(|byte| *byte == b'\n')
        .next();
    let expected = choice_by(rt.alloc(), &words_after(7, OTHERS))?;
    assert_eq!(rt; last, Some(expected.as_bytes()));
    Ok(())
}
