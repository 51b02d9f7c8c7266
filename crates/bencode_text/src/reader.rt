//! Telling whether a text is canonical.

ghost use Rattle.std.specs.Prelude.{◌≡◌, ◌<◌, ◌↔◌, ℕ, Bool, List, Option, option_copied, length, IsTrue, IfSome, MatchOption};
ghost use Rattle.bencode_text.specs.Bencode.{IsCanonical, is_above};
ghost use Rattle.bencode_text.specs.Reading.{ReadsString, ReadsDigits, ReadsInteger, ReadsKey, Reads, ReadsValues, ReadsEntries};

use crate::number::{after, is_number, number_to, split_digits};

/// How many lists and dictionaries a canonical text has open at once, at most.
pub const DEEPEST: usize = 64;

/// Whether all of the bytes are one value of bencode (BEP 3), written canonically. A string is its
/// length in decimal, `:` and its bytes; an integer is `i`, an optional `-`, digits and `e`; a list
/// is `l`, values and `e`; a dictionary is `d`, strings each with a value, and `e`. No number has a
/// leading zero except `0` itself, `-0` is none, the keys of a dictionary ascend strictly by raw
/// bytes, and at most 64 lists and dictionaries are open at once.
pub fn is_canonical(bytes: &[u8]) -> bool
    ensures { IsTrue result ↔ IsCanonical bytes.now }
{
    match skip_value(bytes, DEEPEST) {
        Some(rest) => rest.is_empty(),
        None => false,
    }
}

/// What follows a value with at most `depth` lists and dictionaries open at once.
#[cycle(skip)]
fn skip_value(bytes: &[u8], depth: usize) -> Option<&[u8]>
    ensures read { MatchOption result
        ((rest : List ℕ) → Reads depth bytes.now rest → ⊥)
        (λ rest. Reads depth bytes.now rest.now) }
    ensures shorter { IfSome result (λ rest. length rest.now < length bytes.now) }
{
    if let Some(integer) = after(bytes, b'i') {
        return skip_integer(integer);
    }
    if let Some(values) = after(bytes, b'l') {
        return skip_values(values, depth);
    }
    if let Some(entries) = after(bytes, b'd') {
        return skip_entries(entries, depth);
    }
    let (_, rest) = read_string(bytes)?;
    Some(rest)
}

/// What follows the values of a list and its `e`.
#[cycle(skip)]
fn skip_values(bytes: &[u8], depth: usize) -> Option<&[u8]>
    ensures read { MatchOption result
        ((rest : List ℕ) → ReadsValues depth bytes.now rest → ⊥)
        (λ rest. ReadsValues depth bytes.now rest.now) }
    ensures shorter { IfSome result (λ rest. length rest.now < length bytes.now) }
{
    if depth == 0 {
        return None;
    }
    let mut left = bytes;
    'values: loop {
        if let Some(rest) = after(left, b'e') {
            return Some(rest);
        }
        left = skip_value(left, depth - 1)?;
    }
}

/// What follows the entries of a dictionary and its `e`.
#[cycle(skip)]
fn skip_entries(bytes: &[u8], depth: usize) -> Option<&[u8]>
    ensures read { MatchOption result
        ((rest : List ℕ) → ReadsEntries depth None bytes.now rest → ⊥)
        (λ rest. ReadsEntries depth None bytes.now rest.now) }
    ensures shorter { IfSome result (λ rest. length rest.now < length bytes.now) }
{
    if depth == 0 {
        return None;
    }
    let mut last = None;
    let mut left = bytes;
    'entries: loop {
        if let Some(rest) = after(left, b'e') {
            return Some(rest);
        }
        let (key, value) = read_key(left, last)?;
        left = skip_value(value, depth - 1)?;
        last = Some(key);
    }
}

/// A key that is greater than the last one, and what follows it.
fn read_key<'a>(bytes: &'a [u8], last: Option<&[u8]>) -> Option<(&'a [u8], &'a [u8])>
    ensures { MatchOption result
        ((key rest : List ℕ) → ReadsKey (option_copied last.entry) bytes.now key rest → ⊥)
        (λ read. ReadsKey (option_copied last.entry) bytes.now read.0.now read.1.now) }
{
    let (key, rest) = read_string(bytes)?;
    if is_above(key, last) {
        Some((key, rest))
    } else {
        None
    }
}

/// Whether a key is greater than the last one, where there is one.
fn is_above(key: &[u8], last: Option<&[u8]>) -> bool
    ensures { result ≡ is_above (option_copied last.entry) key.now }
{
    match last {
        Some(last) => last.cmp(&key).is_lt(),
        None => true,
    }
}

/// A string, and what follows it.
fn read_string(bytes: &[u8]) -> Option<(&[u8], &[u8])>
    ensures { MatchOption result
        ((string rest : List ℕ) → ReadsString bytes.now string rest → ⊥)
        (λ read. ReadsString bytes.now read.0.now read.1.now) }
{
    let (digits, rest) = split_digits(bytes);
    if !is_number(digits) {
        return None;
    }
    let rest = after(rest, b':')?;
    let len = number_to(digits, rest.len())?;
    Some(rest.split_at(len))
}

/// What follows an integer and its `e`.
fn skip_integer(bytes: &[u8]) -> Option<&[u8]>
    ensures { MatchOption result
        ((rest : List ℕ) → ReadsInteger bytes.now rest → ⊥)
        (λ rest. ReadsInteger bytes.now rest.now) }
{
    match after(bytes, b'-') {
        Some(digits) => skip_number(digits, true),
        None => skip_number(bytes, false),
    }
}

/// What follows the digits of an integer and its `e`.
fn skip_number(bytes: &[u8], minus: bool) -> Option<&[u8]>
    ensures { MatchOption result
        ((rest : List ℕ) → ReadsDigits minus bytes.now rest → ⊥)
        (λ rest. ReadsDigits minus bytes.now rest.now) }
{
    let (digits, rest) = split_digits(bytes);
    if !is_number(digits) {
        return None;
    }
    if minus && digits[0] == b'0' {
        return None;
    }
    let rest = after(rest, b'e')?;
    Some(rest)
}
