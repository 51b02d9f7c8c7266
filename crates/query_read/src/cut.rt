//! Cutting a text at a byte.

ghost use Rattle.std.specs.Prelude.{◌≡◌, ◌==◌, ◌<◌, length, position, MatchOption};
ghost use Rattle.std.specs.List.{before_first, after_first, position_or_len};

/// What stands before the first of this byte, and what follows it: all and nothing, where there is
/// none.
pub fn cut(text: &[u8], separator: u8) -> (&[u8], &[u8])
    ensures before { result.0.now ≡ before_first (λ b. b == separator) text.now }
    ensures after { result.1.now ≡ after_first (λ b. b == separator) text.now }
{
    match split_once(text, separator) {
        Some(parts) => parts,
        None => (text, &[]),
    }
}

/// What stands before the first of this byte, and what follows it, where there is one.
pub fn split_once(text: &[u8], separator: u8) -> Option<(&[u8], &[u8])>
    ensures { let place = position_or_len (λ b. b == separator) text.now in
        MatchOption result
        (place ≡ length text.now)
        (λ parts. (place < length text.now)
        × (parts.0.now ≡ before_first (λ b. b == separator) text.now)
        × (parts.1.now ≡ after_first (λ b. b == separator) text.now)) }
{
    let place = place_of(text, separator)?;
    Some((&text[..place], &text[place + 1..]))
}

/// Where the first of this byte stands.
fn place_of(text: &[u8], separator: u8) -> Option<usize>
    ensures { result ≡ position (λ b. b == separator) text.now }
{
    text.iter().position(|b| *b == separator)
}
