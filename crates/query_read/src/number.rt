//! Reading a decimal number.

ghost use Rattle.std.specs.Prelude.{◌≡◌, ◌+◌, ◌*◌, ◌^◌, if◌then◌else◌, ◌&&◌, nat_lt};
ghost use Rattle.std.specs.Char.{is_ascii_digit, digit_value};
ghost use Rattle.std.specs.List.{list_all};
ghost use Rattle.std.specs.Str.Parse.{digits_value};
ghost use Rattle.query_read.specs.Query.{number_of};

/// The number that a text writes, exactly where it is one or more decimal digits, with leading
/// zeros or without, and its value is at most 2^64 - 1.
pub fn read_number(text: &[u8]) -> Option<u64>
    ensures { result ≡ number_of text.now }
{
    if text.is_empty() {
        return None;
    }
    digits_number(text)
}

/// The number that decimal digits write, where it has at most 64 bits.
fn digits_number(text: &[u8]) -> Option<u64>
    ensures { let number = digits_value 10 text.now in
        result ≡ (if list_all is_ascii_digit text.now && nat_lt number (2 ^ 64)
        then Some number else None) }
{
    let mut number = 0u64;
    for digit in text {
        number = with_digit(number, *digit)?;
    }
    Some(number)
}

/// A number with one more decimal digit written after it, where it then has at most 64 bits.
fn with_digit(number: u64, digit: u8) -> Option<u64>
    ensures { let longer = number * 10 + digit_value digit in
        result ≡ (if is_ascii_digit digit && nat_lt longer (2 ^ 64) then Some longer else None) }
{
    if !digit.is_ascii_digit() {
        return None;
    }
    number.checked_mul(10)?.checked_add(u64::from(digit - b'0'))
}
