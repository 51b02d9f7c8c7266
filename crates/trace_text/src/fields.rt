//! Reading the numbers, the address and the digits of a line.

ghost use Rattle.std.specs.Prelude.{◌≡◌, ◌+◌, ◌*◌, ◌^◌, if◌then◌else◌, ◌&&◌, nat_lt};
ghost use Rattle.std.specs.Char.{is_ascii_digit, digit_value};
ghost use Rattle.std.specs.List.{list_all};
ghost use Rattle.std.specs.Str.Parse.{digits_value};
ghost use Rattle.hex.specs.Hex.{is_hex_digit};
ghost use Rattle.trace_text.specs.Trace.{parts_of, number_of, seconds_of, port_of, octet_of, address_of, dotted_of};

use crate::parts::four_parts;
use ot_base::{Addr, TraceFault};

/// Reads a moment in seconds.
pub fn read_seconds(text: &[u8]) -> Result<u64, TraceFault>
    ensures { result ≡ seconds_of text.now }
{
    read_number(text, 20, u64::MAX).ok_or(TraceFault::Number)
}

/// Reads an address: four numbers with dots between. An IPv6 address as 32 hex digits isn't built
/// yet.
pub fn read_address(text: &[u8]) -> Result<Addr, TraceFault>
    ensures { result ≡ address_of text.now }
{
    if text.len() == 32 && all_hex_digits(text) {
        Err(TraceFault::Unbuilt)
    } else {
        read_dotted(text)
    }
}

/// Reads a port.
pub fn read_port(text: &[u8]) -> Result<u16, TraceFault>
    ensures { result ≡ port_of text.now }
{
    let port = read_number(text, 5, 65535).ok_or(TraceFault::Number)?;
    Ok(port as u16)
}

/// Whether a text has hex digits alone.
pub fn all_hex_digits(text: &[u8]) -> bool
    ensures { result ≡ list_all is_hex_digit text.now }
{
    text.iter().all(u8::is_ascii_hexdigit)
}

/// Reads an IPv4 address.
fn read_dotted(text: &[u8]) -> Result<Addr, TraceFault>
    ensures { result ≡ dotted_of (parts_of 46 text.now) }
{
    let Some((first, second, third, fourth)) = four_parts(text, b'.') else {
        return Err(TraceFault::Address);
    };
    Ok(Addr::V4([
        read_octet(first)?,
        read_octet(second)?,
        read_octet(third)?,
        read_octet(fourth)?,
    ]))
}

/// Reads one number of a dotted address.
fn read_octet(text: &[u8]) -> Result<u8, TraceFault>
    ensures { result ≡ octet_of text.now }
{
    if text.len() > 1 && text[0] == b'0' {
        return Err(TraceFault::Address);
    }
    let octet = read_number(text, 3, 255).ok_or(TraceFault::Address)?;
    Ok(octet as u8)
}

/// The number that 1 to `most` decimal digits write, where it is at most `greatest`.
fn read_number(text: &[u8], most: usize, greatest: u64) -> Option<u64>
    ensures { result ≡ number_of most greatest text.now }
{
    if text.is_empty() || text.len() > most {
        return None;
    }
    let number = digits_number(text)?;
    if number <= greatest {
        Some(number)
    } else {
        None
    }
}

/// The number that decimal digits write, where it has at most 64 bits.
fn digits_number(text: &[u8]) -> Option<u64>
    ensures { let number = digits_value 10 text.now in
        result ≡ (if list_all is_ascii_digit text.now && nat_lt number (2 ^ 64)
        then Some number else None) }
{
    let mut number = 0u64;
    for digit in text {
        number = with_digit(number, *digit)?;
    }
    Some(number)
}

/// A number with one more decimal digit written after it, where it then has at most 64 bits.
fn with_digit(number: u64, digit: u8) -> Option<u64>
    ensures { let longer = number * 10 + digit_value digit in
        result ≡ (if is_ascii_digit digit && nat_lt longer (2 ^ 64) then Some longer else None) }
{
    if !digit.is_ascii_digit() {
        return None;
    }
    number.checked_mul(10)?.checked_add(u64::from(digit - b'0'))
}
