//! The fields of a datagram: numbers in network order and info hashes, at places that count bytes
//! from 0.

ghost use Rattle.std.specs.Prelude.{◌≡◌, ◌+◌, ◌≤◌, ◌++◌, length, take};
ghost use Rattle.std.specs.Int.{w16, w32, w64, cast_signed, to_be_bytes};
ghost use Rattle.udp_wire.specs.Hashes.{hash_at};
ghost use Rattle.udp_wire.specs.Places.{number_at};

use ot_base::InfoHash;

#[inline]
pub fn u16_at(bytes: &[u8], place: usize) -> u16
    requires { place + 2 ≤ length bytes.now }
    ensures { result ≡ number_at w16 place bytes.now }
{
    let field = &bytes[place..place + 2];
    u16::from_be_bytes([field[0], field[1]])
}

#[inline]
pub fn u32_at(bytes: &[u8], place: usize) -> u32
    requires { place + 4 ≤ length bytes.now }
    ensures { result ≡ number_at w32 place bytes.now }
{
    let field = &bytes[place..place + 4];
    u32::from_be_bytes([field[0], field[1], field[2], field[3]])
}

#[inline]
pub fn u64_at(bytes: &[u8], place: usize) -> u64
    requires { place + 8 ≤ length bytes.now }
    ensures { result ≡ number_at w64 place bytes.now }
{
    let field = &bytes[place..place + 8];
    u64::from_be_bytes([
        field[0], field[1], field[2], field[3], field[4], field[5], field[6], field[7],
    ])
}

/// A signed number in two's complement.
#[inline]
pub fn i32_at(bytes: &[u8], place: usize) -> i32
    requires { place + 4 ≤ length bytes.now }
    ensures { result ≡ cast_signed w32 (number_at w32 place bytes.now) }
{
    u32_at(bytes, place).cast_signed()
}

#[inline]
pub fn info_hash_at(bytes: &[u8], place: usize) -> InfoHash
    requires { place + 20 ≤ length bytes.now }
    ensures { result ≡ hash_at place bytes.now }
{
    let mut hash = [0; 20];
    hash.copy_from_slice(&bytes[place..place + 20]);
    InfoHash(hash)
}

/// Writes a field at a place, and gives the place after it. What stands before the field stays.
#[inline]
pub fn put(out: &mut [u8], place: usize, field: &[u8]) -> usize
    requires { place + length field.now ≤ length out.old }
    ensures end { result ≡ place + length field.now }
    ensures text { take result out.new ≡ take place out.old ++ field.now }
{
    let end = place + field.len();
    out[place..end].copy_from_slice(field);
    end
}

/// The same for a number of 32 bits.
#[inline]
pub fn put_u32(out: &mut [u8], place: usize, number: u32) -> usize
    requires { place + 4 ≤ length out.old }
    ensures end { result ≡ place + 4 }
    ensures text { take result out.new ≡ take place out.old ++ to_be_bytes w32 number }
{
    put(out, place, &number.to_be_bytes())
}
