//! Cutting a text at a separator.

ghost use Rattle.std.specs.Prelude.{◌≡◌, ◌≢◌, ◌∷◌, [], length, MatchOption};
ghost use Rattle.trace_text.specs.Trace.{parts_of};

use memchr::memchr;

/// The parts of a text with three separators in it.
pub fn four_parts(text: &[u8], separator: u8) -> Option<(&[u8], &[u8], &[u8], &[u8])>
    ensures { MatchOption result
        (length (parts_of separator text.now) ≢ 4)
        (λ four. parts_of separator text.now
        ≡ four.0.now ∷ four.1.now ∷ four.2.now ∷ four.3.now ∷ []) }
{
    let (first, rest) = split_once(text, separator)?;
    let (second, rest) = split_once(rest, separator)?;
    let (third, fourth) = split_once(rest, separator)?;
    match split_once(fourth, separator) {
        Some(_) => None,
        None => Some((first, second, third, fourth)),
    }
}

/// What stands before and after the first separator of a text, where it has one.
pub fn split_once(text: &[u8], separator: u8) -> Option<(&[u8], &[u8])>
    ensures { MatchOption result
        (parts_of separator text.now ≡ text.now ∷ [])
        (λ cut. parts_of separator text.now ≡ cut.0.now ∷ parts_of separator cut.1.now) }
{
    let place = memchr(separator, text)?;
    Some((&text[..place], &text[place + 1..]))
}
