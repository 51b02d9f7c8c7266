//! Picks without repetition.

ghost use Rattle.std.specs.Prelude.{◌≡◌, ◌+◌, ◌^◌, ◌<◌, ◌≤◌, All, length, map, nat_eq};
ghost use Rattle.std.specs.List.{IsDistinct};
ghost use Rattle.pick.specs.Passing.{past};
ghost use Rattle.pick.specs.Picks.{picks};

use arrayvec::ArrayVec;
use ot_base::InPlace;

/// How many positions are picked at most: as many as an announce is told peers.
pub const PICKS: usize = 200;

/// At most 200 positions, in the order in which they were picked.
pub type Picks = InPlace<u32, PICKS>;

/// Picks `k` different positions below `n`, one for each of the first `k` words: the word's
/// remainder by the number of positions that are left is the place, from 0, among those left in
/// ascending order. It takes no memory, and k² / 2 comparisons however great `n` is, several at
/// once where the processor can.
pub fn pick(words: &[u32; 200], n: u32, k: u32) -> Picks
    requires within { k ≤ n }
    requires few { k ≤ 200 }
    ensures picks { result ≡ picks words.now n k }
    ensures count { length result ≡ k }
    ensures below { All (λ position. position < n) result }
    ensures distinct { IsDistinct nat_eq result }
{
    // The later picks, the last one first: so each pass over them begins at the same address, and
    // reads what the one before wrote in the same steps. Each pass is for two words, since it costs
    // hardly more than one for one word.
    let mut later: ArrayVec<u32, PICKS> = ArrayVec::new();
    for pair in 0..k / 2 {
        let j = k - 2 - 2 * pair;
        let second = words[j as usize + 1] % (n - j - 1);
        let first = words[j as usize] % (n - j);
        pass_over(later.as_mut_slice(), second, first);
        later.push(passing(first, second));
        later.push(first);
    }
    if k % 2 == 1 {
        let first = words[0] % n;
        pass_over(later.as_mut_slice(), u32::MAX, first);
        later.push(first);
    }
    let mut picked = Picks::new();
    while let Some(position) = later.pop() {
        picked.push(position);
    }
    picked
}

/// Tells positions among all, where they were among all but two: the one at `first`, and of the
/// others the one at `second`. There are no branches, so that the compiler takes several positions
/// at once.
fn pass_over(positions: &mut [u32], second: u32, first: u32)
    requires { All (λ position. position + 2 < 2 ^ 32) positions.old }
    ensures { positions.new ≡ map (λ position. past first (past second position)) positions.old }
{
    for position in positions.iter_mut() {
        *position = passing(first, passing(second, *position));
    }
}

/// Where a position among all but the one at a gap stands among all. There is no branch.
#[inline]
pub fn passing(gap: u32, position: u32) -> u32
    requires { position + 1 < 2 ^ 32 }
    ensures { result ≡ past gap position }
{
    position + u32::from(position >= gap)
}
