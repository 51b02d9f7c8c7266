//! The output line of a record.

ghost use Rattle.std.specs.Prelude.{◌≡◌, ◌≤◌, ◌*◌, ◌↔◌, ◌++◌, List, Some, IfSome, IsNone, OnOk};
ghost use Rattle.std.specs.Prelude.{OnErr, length, take};
ghost use Rattle.hex.specs.Hex.{encode_lower};
ghost use Rattle.tracker_core.specs.declared.udp_plan.UdpPlan.{UdpPlan};
ghost use Rattle.tracker_model.specs.declared.answer.Answer.{Answer};
ghost use Rattle.request_handler.specs.Datagram.{HasRoom, IsOutcome};
ghost use Rattle.offline.specs.Records.{cleaned_line, datagram_output, reply_line, sent_line};
ghost use Rattle.offline.specs.Records.{silent_line};
ghost use Rattle.lines.specs.Replies.{Adds, Loses};
ghost use Rattle.lines.specs.Streams.{IsLaterSink};
ghost use Rattle.ot_io.specs.Counts.{Rose};

use itoa::Buffer;
use lines::{Replies, WriteFault};
use ot_base::Bytes;
use ot_io::Sink;
use request_handler::Outcome;
use udp_wire::{Quiet, REPLY_ROOM};

/// How many bytes an output line has at most: two before the digits, two digits a byte, and the
/// end.
pub const OUTPUT_ROOM: usize = 2 + 2 * REPLY_ROOM + 1;

/// Writes the output line of what came of a record, and tells how many bytes that is. Where there
/// was no memory there is none.
pub fn write_outcome(
    outcome: Outcome,
    reply: &[u8; REPLY_ROOM],
    out: &mut [u8; OUTPUT_ROOM],
) -> Option<usize>
    requires { HasRoom outcome }
    ensures line { (plan : UdpPlan) (answers : List Answer) →
        IsOutcome plan answers reply.now outcome →
        IfSome result (λ len. datagram_output plan answers ≡ Some (take len out.new)) }
    ensures fits { IfSome result (λ len. len ≤ OUTPUT_ROOM) }
    ensures none { IsNone result ↔ (outcome ≡ Outcome.NoMemory) }
{
    match outcome {
        Outcome::Silent(quiet) => Some(write_silent_line(quiet, out)),
        Outcome::Replied(len) => Some(write_reply_line(&reply[..len], out)),
        Outcome::NoMemory => None,
    }
}

/// Writes `R `, the reply in lower-case hex digits and the line's end, and tells how many bytes
/// that is.
fn write_reply_line(reply: &[u8], out: &mut [u8; OUTPUT_ROOM]) -> usize
    requires { length reply.now ≤ REPLY_ROOM }
    ensures line { take result out.new ≡ reply_line reply.now }
    ensures fits { result ≤ OUTPUT_ROOM }
{
    let end = 2 + 2 * reply.len();
    out[..2].copy_from_slice(b"R ");
    encode_digits(reply, &mut out[2..end]);
    out[end] = b'\n';
    end + 1
}

/// Writes `S `, why there is no reply, and the line's end, and tells how many bytes that is.
fn write_silent_line(quiet: Quiet, out: &mut [u8; OUTPUT_ROOM]) -> usize
    ensures line { take result out.new ≡ silent_line quiet }
    ensures fits { result ≤ OUTPUT_ROOM }
{
    let line = match quiet {
        Quiet::Short => "S short\n",
        Quiet::Protocol => "S protocol\n",
        Quiet::Announce => "S announce\n",
        Quiet::Scrape => "S scrape\n",
    };
    out[..line.len()].copy_from_slice(line.as_bytes());
    line.len()
}

/// Writes the output line of a cleaning that left so many peers, and tells how many bytes that is.
pub fn write_cleaned_line(held: u128, out: &mut [u8; OUTPUT_ROOM]) -> usize
    ensures line { take result out.new ≡ cleaned_line held }
    ensures fits { result ≤ OUTPUT_ROOM }
{
    let mut buffer = Buffer::new();
    let digits = buffer.format(held).as_bytes();
    let end = 2 + digits.len();
    out[..2].copy_from_slice(b"C ");
    out[2..end].copy_from_slice(digits);
    out[end] = b'\n';
    end + 1
}

/// Writes bytes as lower-case hex digits.
fn encode_digits(bytes: &[u8], digits: &mut [u8])
    requires { length digits.old ≡ 2 * length bytes.now }
    ensures { digits.new ≡ encode_lower bytes.now }
{
    let _ = hex::encode_to_slice(bytes, digits);
}

/// Adds the output line of what a connection was sent.
pub fn add_sent_line<O: Sink>(
    replies: &mut Replies,
    out: &mut O,
    sent: &Option<Bytes>,
    room: &mut [u8; OUTPUT_ROOM],
) -> Result<(), WriteFault>
    ensures added { OnOk result (Adds (O.written out.old) (O.written out.new)
        replies.old replies.new (sent_line sent.now)) }
    ensures lost { OnErr result (Loses (O.written out.old) (O.written out.new)
        (replies.old ++ sent_line sent.now)) }
    ensures fault { OnErr result (Rose (O.faults out.old) (O.faults out.new)) }
    ensures later { IsLaterSink O.faults O.aside out.old out.new }
{
    match sent {
        Some(reply) => add_reply_line(replies, out, reply.as_slice(), room),
        None => replies.add(out, b"S cut\n"),
    }
}

/// Adds the output line of a reply of any length, piece by piece.
fn add_reply_line<O: Sink>(
    replies: &mut Replies,
    out: &mut O,
    reply: &[u8],
    room: &mut [u8; OUTPUT_ROOM],
) -> Result<(), WriteFault>
    ensures added { OnOk result (Adds (O.written out.old) (O.written out.new)
        replies.old replies.new (reply_line reply.now)) }
    ensures lost { OnErr result (Loses (O.written out.old) (O.written out.new)
        (replies.old ++ reply_line reply.now)) }
    ensures fault { OnErr result (Rose (O.faults out.old) (O.faults out.new)) }
    ensures later { IsLaterSink O.faults O.aside out.old out.new }
{
    replies.add(out, b"R ")?;
    add_digits(replies, out, reply, room)?;
    replies.add(out, b"\n")
}

/// Adds bytes as lower-case hex digits, piece by piece.
pub fn add_digits<O: Sink>(
    replies: &mut Replies,
    out: &mut O,
    bytes: &[u8],
    room: &mut [u8; OUTPUT_ROOM],
) -> Result<(), WriteFault>
    ensures added { OnOk result (Adds (O.written out.old) (O.written out.new)
        replies.old replies.new (encode_lower bytes.now)) }
    ensures lost { OnErr result (Loses (O.written out.old) (O.written out.new)
        (replies.old ++ encode_lower bytes.now)) }
    ensures fault { OnErr result (Rose (O.faults out.old) (O.faults out.new)) }
    ensures later { IsLaterSink O.faults O.aside out.old out.new }
{
    let mut rest = bytes;
    while !rest.is_empty() {
        let (piece, after) = rest.split_at(rest.len().min(REPLY_ROOM));
        let digits = &mut room[..2 * piece.len()];
        encode_digits(piece, digits);
        replies.add(out, digits)?;
        rest = after;
    }
    Ok(())
}
