//! Reading a line of a trace without memory.

ghost use Rattle.std.specs.Prelude.{◌≡◌, ◌≤◌, ◌∷◌, length, take, codes, IfOk, IfErr};
ghost use Rattle.hex.specs.Hex.{decode_of};
ghost use Rattle.ot_base.specs.Address.{family_of};
ghost use Rattle.ot_base.specs.declared.address.Family.TheVariants.{Four};
ghost use Rattle.trace_text.specs.Trace.{line_of, fields_line, arrival_of, parts_of, counted_of, arrival_in, line_in, IsFromFour, IsWithinLimit};
ghost use Rattle.trace_text.specs.declared.line.TraceLine.TheVariants.{Clean};

use crate::fields::{all_hex_digits, read_address, read_port, read_seconds};
use crate::parts::{four_parts, split_once};
use ot_base::{Endpoint, TraceFault};

/// How many bytes of a datagram count.
pub const DATAGRAM_BYTES: usize = 2048;

/// How many bytes count of what one connection sends: room for those of any record.
pub const RECORD_BYTES: usize = 8192;

/// What a line of a trace records.
#[derive(Clone, Copy, Debug, PartialEq, Eq)]
pub enum Record {
    /// A UDP datagram.
    Datagram(Received),
    /// All that one TCP connection sends before it ends.
    Connection(Received),
    /// The cleaner goes once over all buckets.
    Clean {
        /// When it does, in seconds.
        seconds: u64,
    },
}

/// What came, of which the bytes stand at the front of the buffer that it was read with.
#[derive(Clone, Copy, Debug, PartialEq, Eq)]
pub struct Received {
    /// When it came, in seconds.
    pub seconds: u64,
    /// From whom it came.
    pub from: Endpoint,
    /// How many of its bytes count: at most 2,048 of a datagram, 8,192 of a connection.
    pub len: usize,
}

/// Reads a line, given without the byte 0x0A at its end:
/// - `U seconds address port hex`: a datagram from that endpoint at that time, of which the first
///   2,048 bytes count;
/// - `H seconds address port hex`: all that one connection from that endpoint sends before it ends,
///   of which the first 8,192 bytes count;
/// - `C seconds`: the cleaner goes once over all buckets at that time, and no byte counts.
///
/// The bytes that count go to the front of `bytes`; nothing is said of what stands behind them, and
/// after a fault of what `bytes` holds.
///
/// The line is cut at each space. The seconds are 1 to 20 decimal digits of a value below 2^64, the
/// address is four numbers from 0 to 255 without leading zeros and with `.` between, the port 1 to
/// 5 decimal digits of a value below 2^16, and the bytes an even number of hex digits in either
/// case, also none.
///
/// # Errors
///
/// The first of these that the line gives cause for:
/// - `Form` where the first field is none of the letters `U`, `H` and `C`, or where the fields
///   aren't 5, 5 or 2 for these in turn;
/// - `Number` where the seconds aren't such digits;
/// - `Unbuilt` where the address is 32 hex digits, an IPv6 address, and `Address` where it isn't
///   one;
/// - `Number` where the port isn't such digits;
/// - `Hex` where the bytes aren't such digits.
pub fn read_record(line: &[u8], bytes: &mut [u8; RECORD_BYTES]) -> Result<Record, TraceFault>
    ensures read { IfOk result (λ read. line_of line.now ≡ Ok (line_in read bytes.new)) }
    ensures four { IfOk result (λ read. IsFromFour read) }
    ensures fits { IfOk result (λ read. IsWithinLimit read) }
    ensures refused { IfErr result (λ fault. line_of line.now ≡ Err fault) }
{
    let Some((kind, fields)) = split_once(line, b' ') else {
        return Err(TraceFault::Form);
    };
    if kind == b"C".as_slice() {
        let seconds = read_clean(fields)?;
        return Ok(Record::Clean { seconds });
    }
    let Some((time, address, port, hex)) = four_parts(fields, b' ') else {
        return Err(TraceFault::Form);
    };
    if kind == b"U".as_slice() {
        let received = read_fields(time, address, port, hex, DATAGRAM_BYTES, bytes)?;
        Ok(Record::Datagram(received))
    } else if kind == b"H".as_slice() {
        let received = read_fields(time, address, port, hex, RECORD_BYTES, bytes)?;
        Ok(Record::Connection(received))
    } else {
        Err(TraceFault::Form)
    }
}

/// Reads what stands after the first field of a line where that is `C`: the seconds alone.
fn read_clean(fields: &[u8]) -> Result<u64, TraceFault>
    ensures read { IfOk result (λ seconds.
        fields_line (codes "C" ∷ parts_of 32 fields.now) ≡ Ok (Clean seconds)) }
    ensures refused { IfErr result (λ fault.
        fields_line (codes "C" ∷ parts_of 32 fields.now) ≡ Err fault) }
{
    match split_once(fields, b' ') {
        Some(_) => Err(TraceFault::Form),
        None => read_seconds(fields),
    }
}

/// Reads the fields after the kind from left to right, of a record of which the first `most` bytes
/// count.
fn read_fields(
    time: &[u8],
    address: &[u8],
    port: &[u8],
    hex: &[u8],
    most: usize,
    bytes: &mut [u8; RECORD_BYTES],
) -> Result<Received, TraceFault>
    requires { most ≤ RECORD_BYTES }
    ensures read { IfOk result (λ received.
        arrival_of most time.now address.now port.now hex.now
        ≡ Ok (arrival_in received bytes.new)) }
    ensures four { IfOk result (λ received. family_of received.from.addr ≡ Four) }
    ensures fits { IfOk result (λ received. received.len ≤ most) }
    ensures refused { IfErr result (λ fault.
        arrival_of most time.now address.now port.now hex.now ≡ Err fault) }
{
    let seconds = read_seconds(time)?;
    let addr = read_address(address)?;
    let port = read_port(port)?;
    let len = read_bytes(hex, most, bytes)?;
    Ok(Received {
        seconds,
        from: Endpoint { addr, port },
        len,
    })
}

/// The bytes that hex digits name, the first `most` of them at the front of `bytes`, and how many
/// those are.
fn read_bytes(
    digits: &[u8],
    most: usize,
    bytes: &mut [u8; RECORD_BYTES],
) -> Result<usize, TraceFault>
    requires { most ≤ RECORD_BYTES }
    ensures read { IfOk result (λ len.
        counted_of most (decode_of digits.now) ≡ Ok (take len bytes.new)) }
    ensures fits { IfOk result (λ len. len ≤ most) }
    ensures refused { IfErr result (λ fault. counted_of most (decode_of digits.now) ≡ Err fault) }
{
    if digits.len() % 2 == 1 {
        return Err(TraceFault::Hex);
    }
    let len = (digits.len() / 2).min(most);
    let (counted, dropped) = digits.split_at(2 * len);
    if !all_hex_digits(dropped) {
        return Err(TraceFault::Hex);
    }
    match hex::decode_to_slice(counted, &mut bytes[..len]) {
        Ok(()) => Ok(len),
        Err(_) => Err(TraceFault::Hex),
    }
}
