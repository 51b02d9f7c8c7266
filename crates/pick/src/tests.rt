//! What no clause says: worked picks, and picks of many against a plain filter.

use super::*;
use std::alloc::{AllocError, Global};
use std::test::Fail;

/// The words 7, 3 and 5, and zeros after them.
fn worked_words() -> [u32; 200] {
    let mut words = [0; 200];
    words[0] = 7;
    words[1] = 3;
    words[2] = 5;
    words
}

/// Words that look random: a linear congruential generator of 64 bits (Knuth's), its upper half.
fn random_words(mut state: u64) -> [u32; 200] {
    let mut words = [0; 200];
    for word in &mut words {
        state = state
            .wrapping_mul(6_364_136_223_846_793_005)
            .wrapping_add(1_442_695_040_888_963_407);
        *word = (state >> 32) as u32;
    }
    words
}

/// The same picks, out of a list of the positions that are left.
fn filtered(
    alloc: Global,
    words: &[u32; 200],
    n: u32,
    k: u32,
) -> Result<(Vec<u32>, bool), AllocError> {
    let mut left: Vec<u32> = (0..n).collect(alloc)?;
    let mut picked = Vec::new(alloc);
    for j in 0..k {
        let len = left.len();
        if len == 0 || j >= 200 {
            return Ok((picked, false));
        }
        let word = words[j as usize] as usize;
        picked.push(left.remove(word % len))?;
    }
    Ok((picked, true))
}

#[test]
fn worked_words_pick(rt: HostRuntime) {
    let words = worked_words();
    for (label, n, k, want) in [
        ("three of four", 4, 3, [3, 0, 2].as_slice()),
        ("none of four", 4, 0, [].as_slice()),
        ("none of none", 0, 0, [].as_slice()),
    ] {
        assert!(rt; k <= n && k <= 200, "{label}");
        assert_eq!(rt; pick(&words, n, k).as_slice(), want, "{label}");
    }
}

#[test]
fn many_are_picked_as_a_filter_picks(rt: HostRuntime) -> Result<(), Fail> {
    for (label, seed, n, k) in [
        ("all of 200", 1, 200, 200),
        ("200 of 201", 2, 201, 200),
        ("50 of 60", 3, 60, 50),
        ("200 of a million", 4, 1_000_000, 200),
    ] {
        let words = random_words(seed);
        assert!(rt; k <= n && k <= 200, "{label}");
        let (want, whole) = filtered(rt.alloc(), &words, n, k)?;
        assert!(rt; whole, "{label}");
        assert_eq!(rt; pick(&words, n, k).as_slice(), want.as_slice(), "{label}");
    }
    Ok(())
}
