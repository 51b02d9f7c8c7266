//! A line of a trace as a value.

ghost use Rattle.std.specs.Prelude.{◌≡◌, ◌≤◌, ◌++◌, ◌⊎◌, length, take, codes, decimal, IsOk, IfOk, IfErr, OnOk};
ghost use Rattle.trace_text.specs.Trace.{line_of, line_in, IsWithinLimit};
ghost use Rattle.trace_text.specs.Written.{address_text, dotted_text, five_fields, text_of, AllCount};
ghost use Rattle.hex.specs.Hex.{encode_lower};

use crate::records::{RECORD_BYTES, Record, read_record};
use itoa::Buffer;
use ot_base::{Addr, Bytes, Endpoint, TraceFault};
use std::alloc::{AllocError, Global};

/// What a line of a trace records.
#[derive(Debug, Drop)]
pub enum TraceLine {
    /// A UDP datagram.
    Udp {
        /// When it came, in seconds.
        seconds: u64,
        /// From whom it came.
        from: Endpoint,
        /// Those of its bytes that count, the first 2,048 at most.
        bytes: Bytes,
    },
    /// All that one TCP connection sends before it ends, by which HTTP is spoken.
    Http {
        /// When its first byte came, in seconds.
        seconds: u64,
        /// From whom it came.
        from: Endpoint,
        /// Those of its bytes that count, the first 8,192 at most.
        bytes: Bytes,
    },
    /// The cleaner goes once over all buckets.
    Clean {
        /// When it does, in seconds.
        seconds: u64,
    },
}

/// Reads a line, given without the byte 0x0A at its end. The form of a line, and the faults, are
/// those of `read_record`.
///
/// # Errors
///
/// `NoMemory` where the line is good, and there was no memory for the record's bytes; otherwise the
/// fault of the first bad part, as `read_record` names it.
pub fn read_line(alloc: Global, line: &[u8]) -> Result<TraceLine, TraceFault>
    ensures read { IfOk result (λ read. line_of line.now ≡ Ok read) }
    ensures counted { IfOk result (λ read. AllCount read) }
    ensures refused { IfErr result (λ fault.
        (line_of line.now ≡ Err fault)
        ⊎ (IsOk (line_of line.now) × (fault ≡ TraceFault.NoMemory))) }
{
    let mut buffer = [0; RECORD_BYTES];
    let record = read_record(line, &mut buffer)?;
    match owned(alloc, record, &buffer) {
        Ok(line) => Ok(line),
        Err(_) => Err(TraceFault::NoMemory),
    }
}

/// A record whose bytes stand at the front of a buffer, with a copy of these.
fn owned(
    alloc: Global,
    record: Record,
    buffer: &[u8; RECORD_BYTES],
) -> Result<TraceLine, AllocError>
    requires { IsWithinLimit «record» }
    ensures value { IfOk result (λ line. line ≡ line_in «record» buffer.now) }
    ensures counted { IfOk result (λ line. AllCount line) }
{
    match record {
        Record::Datagram(received) => Ok(TraceLine::Udp {
            seconds: received.seconds,
            from: received.from,
            bytes: copied(alloc, &buffer[..received.len])?,
        }),
        Record::Connection(received) => Ok(TraceLine::Http {
            seconds: received.seconds,
            from: received.from,
            bytes: copied(alloc, &buffer[..received.len])?,
        }),
        Record::Clean { seconds } => Ok(TraceLine::Clean { seconds }),
    }
}

/// Writes a line, without the byte 0x0A at its end: numbers without leading zeros, hex digits in
/// lower case. A datagram has at most 2,048 bytes and a connection 8,192, all that a reader would
/// count.
///
/// # Errors
///
/// `AllocError` where there was no memory for the text.
pub fn write_line(alloc: Global, line: &TraceLine) -> Result<Bytes, AllocError>
    requires { AllCount line.now }
    ensures { IfOk result (λ text. text ≡ text_of line.now) }
{
    match line {
        TraceLine::Udp {
            seconds,
            from,
            bytes,
        } => write_fields(alloc, b"U", *seconds, *from, bytes.as_slice()),
        TraceLine::Http {
            seconds,
            from,
            bytes,
        } => write_fields(alloc, b"H", *seconds, *from, bytes.as_slice()),
        TraceLine::Clean { seconds } => write_clean(alloc, *seconds),
    }
}

/// A list of some bytes.
pub fn copied(alloc: Global, bytes: &[u8]) -> Result<Bytes, AllocError>
    ensures { IfOk result (λ copy. copy ≡ bytes.now) }
{
    let mut copy = Bytes::new(alloc);
    push_all(&mut copy, bytes)?;
    Ok(copy)
}

/// Writes a line of five fields.
fn write_fields(
    alloc: Global,
    kind: &[u8],
    seconds: u64,
    from: Endpoint,
    bytes: &[u8],
) -> Result<Bytes, AllocError>
    ensures { IfOk result (λ text. text ≡ five_fields kind.now seconds from bytes.now) }
{
    let mut text = copied(alloc, kind)?;
    push_all(&mut text, b" ")?;
    push_number(&mut text, seconds)?;
    push_all(&mut text, b" ")?;
    push_address(&mut text, alloc, from.addr)?;
    push_all(&mut text, b" ")?;
    push_number(&mut text, u64::from(from.port))?;
    push_all(&mut text, b" ")?;
    push_hex(&mut text, alloc, bytes)?;
    Ok(text)
}

/// Writes the line of a round of the cleaner.
fn write_clean(alloc: Global, seconds: u64) -> Result<Bytes, AllocError>
    ensures { IfOk result (λ text. text ≡ codes "C " ++ decimal seconds) }
{
    let mut text = copied(alloc, b"C ")?;
    push_number(&mut text, seconds)?;
    Ok(text)
}

/// Adds an address.
fn push_address(text: &mut Bytes, alloc: Global, addr: Addr) -> Result<(), AllocError>
    ensures { OnOk result (text.new ≡ text.old ++ address_text addr) }
{
    match addr {
        Addr::V4(octets) => push_dotted(text, octets),
        Addr::V6(bytes) => push_hex(text, alloc, &bytes),
    }
}

/// Adds four numbers with dots between.
fn push_dotted(text: &mut Bytes, octets: [u8; 4]) -> Result<(), AllocError>
    ensures { OnOk result (text.new ≡ text.old ++ dotted_text octets) }
{
    push_number(text, u64::from(octets[0]))?;
    push_all(text, b".")?;
    push_number(text, u64::from(octets[1]))?;
    push_all(text, b".")?;
    push_number(text, u64::from(octets[2]))?;
    push_all(text, b".")?;
    push_number(text, u64::from(octets[3]))
}

/// Adds a number in decimal digits.
fn push_number(text: &mut Bytes, number: u64) -> Result<(), AllocError>
    ensures { OnOk result (text.new ≡ text.old ++ decimal number) }
{
    let mut digits = Buffer::new();
    push_all(text, digits.format(number).as_bytes())
}

/// Adds two hex digits for each byte.
fn push_hex(text: &mut Bytes, alloc: Global, bytes: &[u8]) -> Result<(), AllocError>
    ensures { OnOk result (text.new ≡ text.old ++ encode_lower bytes.now) }
{
    let digits = hex::encode(alloc, bytes)?;
    push_all(text, digits.as_bytes())
}

/// Adds bytes at the end.
fn push_all(text: &mut Bytes, bytes: &[u8]) -> Result<(), AllocError>
    ensures { OnOk result (text.new ≡ text.old ++ bytes.now) }
{
    for byte in bytes {
        text.push(*byte)?;
    }
    Ok(())
}
