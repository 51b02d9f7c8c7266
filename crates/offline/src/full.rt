//! The output line of a full scrape, which is added bucket by bucket.

ghost use Rattle.std.specs.Prelude.{◌≡◌, ◌++◌, Err, List, OnErr, OnOk, ℕ};
ghost use Rattle.lines.specs.Replies.{Adds, Loses};
ghost use Rattle.lines.specs.Responses.{Responds};
ghost use Rattle.lines.specs.Streams.{IsLaterSink};
ghost use Rattle.ot_io.specs.Counts.{Rose};
ghost use Rattle.offline.specs.Full.{AddsFront, AddsParts, TellsAllAt, full_back};

use crate::command::Fault;
use crate::output::{OUTPUT_ROOM, add_digits};
use bucket::Shelf;
use full_scrape::{begin, end};
use http_wire::write_long_head;
use lines::{Replies, Trouble, WriteFault};
use ot_base::Minute;
use ot_io::Sink;
use request_handler::{bucket_count, full_part};
use std::alloc::Global;

/// Adds the output line of a full scrape at a minute. The rows of one bucket are held at a time,
/// and their digits go through `room`. Of an answer that is cut short, the part that was added is a
/// front of one that the scrape may have.
pub fn add_full_line<O: Sink>(
    alloc: Global,
    shelf: &mut Shelf,
    minute: Minute,
    replies: &mut Replies,
    out: &mut O,
    room: &mut [u8; OUTPUT_ROOM],
) -> Result<(), Trouble<Fault>>
    ensures settings { shelf.new.settings ≡ shelf.old.settings }
    ensures bits { shelf.new.bits ≡ shelf.old.bits }
    ensures responds { (line : List ℕ) →
        Responds (TellsAllAt minute) (λ _ _ _. ⊥) shelf.old shelf.new line
        (O.written out.old) (O.written out.new) replies.old replies.new result }
    ensures fault { result ≡ Err Trouble.WriteFault → Rose (O.faults out.old) (O.faults out.new) }
    ensures later { IsLaterSink O.faults O.aside out.old out.new }
{
    add_front(alloc, replies, out, room)?;
    add_parts(alloc, shelf, minute, replies, out, room)?;
    add_back(replies, out, room)?;
    Ok(())
}

/// Adds what the output line has before its first row.
fn add_front<O: Sink>(
    alloc: Global,
    replies: &mut Replies,
    out: &mut O,
    room: &mut [u8; OUTPUT_ROOM],
) -> Result<(), Trouble<Fault>>
    ensures added { AddsFront (O.written out.old) (O.written out.new) replies.old replies.new
        result }
    ensures fault { result ≡ Err Trouble.WriteFault → Rose (O.faults out.old) (O.faults out.new) }
    ensures later { IsLaterSink O.faults O.aside out.old out.new }
{
    let head = write_long_head(alloc)?;
    replies.add(out, b"R ")?;
    add_digits(replies, out, head.as_slice(), room)?;
    add_digits(replies, out, begin(), room)?;
    Ok(())
}

/// Adds the digits of all rows, from bucket 0 on.
fn add_parts<O: Sink>(
    alloc: Global,
    shelf: &mut Shelf,
    minute: Minute,
    replies: &mut Replies,
    out: &mut O,
    room: &mut [u8; OUTPUT_ROOM],
) -> Result<(), Trouble<Fault>>
    ensures settings { shelf.new.settings ≡ shelf.old.settings }
    ensures bits { shelf.new.bits ≡ shelf.old.bits }
    ensures added { AddsParts minute shelf.old shelf.new
        (O.written out.old) (O.written out.new) replies.old replies.new result }
    ensures fault { result ≡ Err Trouble.WriteFault → Rose (O.faults out.old) (O.faults out.new) }
    ensures later { IsLaterSink O.faults O.aside out.old out.new }
{
    'buckets: for bucket in 0..bucket_count(shelf) {
        let part = full_part(alloc, shelf, bucket, minute)?;
        add_digits(replies, out, part.as_slice(), room)?;
    }
    Ok(())
}

/// Adds what the output line has behind its last row.
fn add_back<O: Sink>(
    replies: &mut Replies,
    out: &mut O,
    room: &mut [u8; OUTPUT_ROOM],
) -> Result<(), WriteFault>
    ensures added { OnOk result (Adds (O.written out.old) (O.written out.new)
        replies.old replies.new full_back) }
    ensures lost { OnErr result (Loses (O.written out.old) (O.written out.new)
        (replies.old ++ full_back)) }
    ensures fault { OnErr result (Rose (O.faults out.old) (O.faults out.new)) }
    ensures later { IsLaterSink O.faults O.aside out.old out.new }
{
    add_digits(replies, out, end(), room)?;
    replies.add(out, b"\n")
}
