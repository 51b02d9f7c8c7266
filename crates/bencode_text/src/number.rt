//! Decimal numbers at the front of some bytes.

ghost use Rattle.std.specs.Prelude.{◌≡◌, ◌≢◌, ◌+◌, ◌*◌, ◌<◌, ◌≤◌, ◌∷◌, ◌++◌, ◌↔◌, List, ℕ};
ghost use Rattle.std.specs.Prelude.{IsTrue, MatchOption};
ghost use Rattle.std.specs.Char.{digit_value};
ghost use Rattle.std.specs.Str.Parse.{AllDigits, digits_value};
ghost use Rattle.bencode_text.specs.Bencode.{IsNumber};
ghost use Rattle.bencode_text.specs.Reading.{BeginsWithDigit};

/// What follows one byte, where the bytes begin with it.
pub fn after(bytes: &[u8], first: u8) -> Option<&[u8]>
    ensures { MatchOption result
        ((rest : List ℕ) → bytes.now ≢ first ∷ rest)
        (λ rest. bytes.now ≡ first ∷ rest.now) }
{
    if bytes.is_empty() || bytes[0] != first {
        return None;
    }
    Some(&bytes[1..])
}

/// All digits at the front, and what follows them.
pub fn split_digits(bytes: &[u8]) -> (&[u8], &[u8])
    ensures digits { AllDigits 10 result.0.now }
    ensures whole { bytes.now ≡ result.0.now ++ result.1.now }
    ensures ends { BeginsWithDigit result.1.now → ⊥ }
{
    let mut len = 0;
    for byte in bytes {
        if !byte.is_ascii_digit() {
            return bytes.split_at(len);
        }
        len += 1;
    }
    bytes.split_at(len)
}

/// Whether digits are a number without a leading zero.
pub fn is_number(digits: &[u8]) -> bool
    requires { AllDigits 10 digits.now }
    ensures { IsTrue result ↔ IsNumber digits.now }
{
    digits.len() == 1 || (digits.len() > 1 && digits[0] != b'0')
}

/// The number that digits write, where it is at most `most`.
pub fn number_to(digits: &[u8], most: usize) -> Option<usize>
    requires { AllDigits 10 digits.now }
    ensures { MatchOption result
        (most < digits_value 10 digits.now)
        (λ number. (number ≡ digits_value 10 digits.now) × (number ≤ most)) }
{
    let mut number = 0;
    for digit in digits {
        number = with_digit(number, *digit, most)?;
    }
    Some(number)
}

/// A number with one more decimal digit written after it, where it is then at most `most`.
fn with_digit(number: usize, digit: u8, most: usize) -> Option<usize>
    requires { digit_value digit < 10 }
    ensures { let longer = number * 10 + digit_value digit in
        MatchOption result (most < longer) (λ found. (found ≡ longer) × (found ≤ most)) }
{
    let longer = number
        .checked_mul(10)?
        .checked_add(usize::from(digit - b'0'))?;
    if longer <= most { Some(longer) } else { None }
}
