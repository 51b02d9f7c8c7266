//! Adding bytes to a text, all of them or none.

ghost use Rattle.std.specs.Prelude.{◌≡◌, ◌<◌, ◌^◌, ◌∷◌, ◌++◌, length, [], decimal, OnOk, OnErr};
ghost use Rattle.bencode_text.specs.Bencode.{string_text};

use itoa::Buffer;
use std::alloc::AllocError;

/// Adds a string: its length in decimal, `:` and its bytes. Want of memory changes nothing.
pub fn append_string(text: &mut Vec<u8>, bytes: &[u8]) -> Result<(), AllocError>
    ensures ok { OnOk result
        (text.new.items ≡ text.old.items ++ string_text (decimal (length bytes.now)) bytes.now) }
    ensures err { OnErr result (text.new.items ≡ text.old.items) }
    ensures small { length bytes.now < 2 ^ 64 }
{
    let mut digits = Buffer::new();
    append_three(text, digits.format(bytes.len()).as_bytes(), b":", bytes)
}

/// Adds an integer: `i`, its digits and `e`. Want of memory changes nothing.
pub fn append_integer(text: &mut Vec<u8>, value: u64) -> Result<(), AllocError>
    ensures ok { OnOk result
        (text.new.items ≡ text.old.items ++ (105 ∷ (decimal value ++ 101 ∷ []))) }
    ensures err { OnErr result (text.new.items ≡ text.old.items) }
{
    let mut digits = Buffer::new();
    append_three(text, b"i", digits.format(value).as_bytes(), b"e")
}

/// Adds three pieces. Want of memory changes nothing.
fn append_three(
    text: &mut Vec<u8>,
    front: &[u8],
    middle: &[u8],
    back: &[u8],
) -> Result<(), AllocError>
    ensures ok { OnOk result
        (text.new.items ≡ text.old.items ++ (front.now ++ (middle.now ++ back.now))) }
    ensures err { OnErr result (text.new.items ≡ text.old.items) }
{
    let len = text.len();
    append_two(text, front, middle)?;
    if text.extend_from_slice(back).is_err() {
        text.truncate(len);
        return Err(AllocError);
    }
    Ok(())
}

/// Adds two pieces. Want of memory changes nothing.
fn append_two(text: &mut Vec<u8>, front: &[u8], back: &[u8]) -> Result<(), AllocError>
    ensures ok { OnOk result (text.new.items ≡ text.old.items ++ (front.now ++ back.now)) }
    ensures err { OnErr result (text.new.items ≡ text.old.items) }
{
    let len = text.len();
    text.extend_from_slice(front)?;
    if text.extend_from_slice(back).is_err() {
        text.truncate(len);
        return Err(AllocError);
    }
    Ok(())
}
