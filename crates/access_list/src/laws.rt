//! Laws of access lists: each function's contract is the law, and its body is empty.

ghost use Rattle.std.specs.Prelude.{◌≡◌, ◌++◌, ◌∷◌, ◌↔◌, [], IsSome, List, None, length, ℕ};
ghost use Rattle.std.specs.List.{AllPass};
ghost use Rattle.std.specs.Option.{option_to_list};
ghost use Rattle.hex.specs.Hex.{is_hex_digit};
ghost use Rattle.access_list.specs.Access.{AreAccessLines, fault_of, hash_named, hashes_named};

/// A line names a hash exactly where it is 40 hex digits.
pub fn hash_of_forty_digits()
    ensures { (line : List ℕ) →
        IsSome (hash_named line) ↔ ((length line ≡ 40) × AllPass is_hex_digit line) }
{}

/// Lines read one by one name what they name together, and where none of them is refused they are
/// an access list.
pub fn one_line_more()
    ensures named { (lines : List (List ℕ)) (line : List ℕ) →
        hashes_named (lines ++ line ∷ []) ≡
        hashes_named lines ++ option_to_list (hash_named line) }
    ensures none { AreAccessLines [] }
    ensures more { (lines : List (List ℕ)) (line : List ℕ) →
        AreAccessLines (lines ++ line ∷ []) ↔
        (AreAccessLines lines × (fault_of (hashes_named lines) line ≡ None)) }
{}
