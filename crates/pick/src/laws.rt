//! Laws of picks: each function's contract is the law, and its body is empty.

ghost use Rattle.std.specs.Prelude.{◌≡◌, ℕ, ◌<◌, ◌≤◌, All, List, [], ◌∷◌, length, nat_eq};
ghost use Rattle.std.specs.List.{IsDistinct};
ghost use Rattle.pick.specs.Picks.{picks};

/// As many positions are picked as words are used, all of them differ, and they are below `n`.
pub fn picks_differ()
    ensures count { (words : List ℕ) (n k : ℕ) → k ≤ n → k ≤ length words →
        length (picks words n k) ≡ k }
    ensures below { (words : List ℕ) (n k : ℕ) → k ≤ n → k ≤ length words →
        All (λ position. position < n) (picks words n k) }
    ensures distinct { (words : List ℕ) (n k : ℕ) → k ≤ n → k ≤ length words →
        IsDistinct nat_eq (picks words n k) }
{}

/// Of four positions the words 7, 3 and 5 pick the last, the first and then the last that is left.
#[tactic(auto, unfolding(crate::specs::Picks::picks))]
pub fn worked_picks()
    ensures { picks (7 ∷ 3 ∷ 5 ∷ []) 4 3 ≡ 3 ∷ 0 ∷ 2 ∷ [] }
{}
