//! What no clause says: how sources, sinks and connections behave when they are used, and that each
//! call succeeds.

ghost use Rattle.std.specs.Prelude.{◌≡◌, ℕ, List};
ghost use Rattle.std.specs.Io.KnownBytes.{Appends, Consumes, IsAtEnd};
ghost use Rattle.ot_io.specs.Counts.{Rose};

use super::*;
use ot_base::{Addr, Endpoint, TraceFault};
use std::alloc::{AllocError, Global};
use std::io::{self, Cursor, ErrorKind, Read, Write};
use std::test::Fail;

const CLIENT: Endpoint = Endpoint {
    addr: Addr::V4([192, 0, 2, 1]),
    port: 6881,
};

/// A connection whose client sends `abcdefghij`, first 1 byte, then at most 4 and then all, and
/// takes 12 bytes, 3 at once.
fn connection(alloc: Global, failing: &[u64]) -> Result<MemConn, AllocError> {
    let script = ConnScript {
        sent: Vec::from_slice(alloc, b"abcdefghij")?,
        lengths: Vec::from_slice(alloc, &[1, 4])?,
        room: 12,
        piece: 3,
        failing: Vec::from_slice(alloc, failing)?,
    };
    MemConn::new(alloc, CLIENT, script)
}

#[test]
fn pieces_of_a_source(rt: HostRuntime) {
    let mut source = MemSource::new(b"abcdefghijklmnop", &[1, 2, 7, 0], &[]);
    let mut buf = [0; 4];
    for want in ["a", "bc", "defg", "h", "ijkl", "mnop"] {
        assert_eq!(rt; source.read(&mut buf), Piece::Got(want.len()), "{want}");
        assert!(rt; want.len() <= 4);
        assert_eq!(rt; &buf[..want.len()], want.as_bytes());
    }
    for label in ["the end", "the end again"] {
        assert_eq!(rt; source.read(&mut buf), Piece::End, "{label}");
    }
    assert_eq!(rt; (source.faults(), source.ends()), (0, 2));
}

#[test]
fn a_source_goes_on_after_its_faults(rt: HostRuntime) {
    let mut source = MemSource::new(b"abc", &[2], &[1, 2, 4]);
    let mut buf = [0; 8];
    for (label, want) in [
        ("a piece", Piece::Got(2)),
        ("a fault", Piece::Failed),
        ("a fault again", Piece::Failed),
        ("the next piece", Piece::Got(1)),
        ("a fault before the end", Piece::Failed),
        ("the end", Piece::End),
    ] {
        assert_eq!(rt; source.read(&mut buf), want, "{label}");
    }
    assert_eq!(rt; (source.faults(), source.ends()), (3, 1));
    assert_eq!(rt; source.left(), b"".as_slice());
}

#[test]
fn a_sink_fails_where_it_is_told_to_and_past_its_room(rt: HostRuntime) -> Result<(), Fail> {
    let mut sink = MemSink::with_capacity(rt.alloc(), 5, 3, &[1])?;
    for (label, bytes, want) in [
        ("at most 3 bytes", "abcd", Wrote::Took(3)),
        ("told to fail", "x", Wrote::Failed),
        ("past the room", "xyz", Wrote::Failed),
        ("all of the room", "de", Wrote::Took(2)),
        ("no room", "x", Wrote::Failed),
    ] {
        assert!(rt; !bytes.is_empty());
        assert_eq!(rt; sink.write(bytes.as_bytes()), want, "{label}");
    }
    assert_eq!(rt; sink.written(), b"abcde".as_slice());
    assert_eq!(rt; sink.faults(), 3);
    Ok(())
}

#[test]
fn send_all_goes_on_until_all_is_taken_or_a_write_fails(rt: HostRuntime) -> Result<(), Fail> {
    let mut sink = MemSink::with_capacity(rt.alloc(), 16, 3, &[3])?;
    assert_eq!(rt; send_all(&mut sink, b"abcdefgh"), Wrote::Took(8));
    assert_eq!(rt; send_all(&mut sink, b""), Wrote::Took(0));
    assert_eq!(rt; sink.faults(), 0);
    assert_eq!(rt; send_all(&mut sink, b"x"), Wrote::Failed);
    assert_eq!(rt; send_all(&mut sink, b"ijklmnopqr"), Wrote::Failed);
    assert_eq!(rt; sink.written(), b"abcdefghijklmn".as_slice());
    assert_eq!(rt; sink.faults(), 2);
    Ok(())
}

#[test]
fn a_connection_reads_and_writes_by_turns(rt: HostRuntime) -> Result<(), Fail> {
    let mut conn = connection(rt.alloc(), &[])?;
    let mut buf = [0; 8];
    assert_eq!(rt; conn.from(), CLIENT);
    for (read, wrote) in [
        (Piece::Got(1), Wrote::Took(3)),
        (Piece::Got(4), Wrote::Took(3)),
        (Piece::Got(5), Wrote::Took(3)),
        (Piece::End, Wrote::Took(3)),
        (Piece::End, Wrote::Failed),
    ] {
        assert_eq!(rt; conn.read(&mut buf), read);
        assert_eq!(rt; conn.write(b"wxyz"), wrote, "{read:?}");
    }
    assert_eq!(rt; (conn.faults(), conn.ends()), (1, 2));
    assert_eq!(rt; conn.left(), b"".as_slice());
    assert_eq!(rt; conn.written(), b"wxywxywxywxy".as_slice());
    Ok(())
}

#[test]
fn a_fault_at_each_call_is_counted(rt: HostRuntime) -> Result<(), Fail> {
    for failing in 0..6u64 {
        let demanded = [failing];
        let mut source = MemSource::new(b"abc", &[1], &demanded);
        let mut sink = MemSink::with_capacity(rt.alloc(), 9, 1, &demanded)?;
        let mut conn = connection(rt.alloc(), &demanded)?;
        let mut buf = [0; 1];
        for call in 0..6u64 {
            let is_due = call == failing;
            let piece = source.read(&mut buf);
            let wrote = sink.write(b"x");
            assert_eq!(rt; piece == Piece::Failed, is_due, "read {call}");
            assert_eq!(rt; wrote == Wrote::Failed, is_due, "write {call}");
            let has_failed = if call % 2 == 0 {
                conn.read(&mut buf) == Piece::Failed
            } else {
                conn.write(b"x") == Wrote::Failed
            };
            assert_eq!(rt; has_failed, is_due, "call {call} of a connection");
        }
        assert_eq!(rt;
            (source.faults(), sink.faults(), conn.faults()),
            (1, 1, 1),
            "{failing}"
        );
    }
    Ok(())
}

#[test]
fn status_codes(rt: HostRuntime) {
    let line = Status::Line {
        line: 1,
        fault: LineFault::Trace(TraceFault::Form),
    };
    for (status, want) in [
        (Status::Done, 0),
        (Status::Words { at: 7 }, 2),
        (Status::NoMemory, 3),
        (Status::ReadFault, 4),
        (Status::WriteFault, 5),
        (line, 6),
        (Status::TooLong { line: 1 }, 7),
        (Status::TooMuch, 8),
        (Status::Device, 10),
    ] {
        assert_eq!(rt; status.code(), want, "{status:?}");
    }
}

/// A reader and writer that is interrupted twice, then fails once, and then goes on.
#[derive(Drop)]
struct Stammer {
    calls: u8,
    fault: ErrorKind,
}

impl Stammer {
    fn new(fault: ErrorKind) -> Self {
        Stammer { calls: 0, fault }
    }

    fn stammer(&mut self) -> io::Result<()> {
        self.calls = self.calls.saturating_add(1);
        match self.calls {
            1 | 2 => Err(io::Error::from(ErrorKind::Interrupted)),
            3 => Err(io::Error::from(self.fault)),
            _ => Ok(()),
        }
    }
}

impl Read for Stammer {
    fn read(&mut self, buf: &mut [u8]) -> io::Result<usize> {
        self.stammer()?;
        b"ab".as_slice().read(buf)
    }
}

impl Write for Stammer {
    fn write(&mut self, buf: &[u8]) -> io::Result<usize> {
        self.stammer()?;
        Ok(buf.len().min(3))
    }

    fn flush(&mut self) -> io::Result<()> {
        Ok(())
    }
}

#[test]
fn a_reader_as_a_source(rt: HostRuntime) {
    let mut source = StdSource::new(b"abc".as_slice());
    let mut buf = [0; 2];
    for (label, want) in [
        ("a full buffer", Piece::Got(2)),
        ("the rest", Piece::Got(1)),
        ("the end", Piece::End),
        ("the end again", Piece::End),
    ] {
        assert_eq!(rt; source.read(&mut buf), want, "{label}");
    }
    assert_eq!(rt; buf, *b"cb");
    assert_eq!(rt; (source.faults(), source.ends()), (0, 2));
}

#[test]
fn a_writer_that_takes_nothing_fails(rt: HostRuntime) {
    let mut room = [0; 3];
    let mut sink = StdSink::new(Cursor::new(&mut room[..]));
    for (label, want) in [
        ("all", Wrote::Took(2)),
        ("as much as fits", Wrote::Took(1)),
        ("nothing", Wrote::Failed),
    ] {
        assert_eq!(rt; sink.write(b"xy"), want, "{label}");
    }
    assert_eq!(rt; sink.faults(), 1);
}

#[test]
fn an_interrupted_call_is_made_again_and_no_other(rt: HostRuntime) {
    for fault in [ErrorKind::BrokenPipe, ErrorKind::WouldBlock] {
        let mut source = StdSource::new(Stammer::new(fault));
        let mut buf = [0; 8];
        assert_eq!(rt; source.read(&mut buf), Piece::Failed, "{fault:?}");
        assert_eq!(rt; source.read(&mut buf), Piece::Got(2), "{fault:?}");
        assert_eq!(rt; (source.faults(), source.ends()), (1, 0), "{fault:?}");
        let mut sink = StdSink::new(Stammer::new(fault));
        assert_eq!(rt; sink.write(b"xyzw"), Wrote::Failed, "{fault:?}");
        assert_eq!(rt; sink.write(b"xyzw"), Wrote::Took(3), "{fault:?}");
        assert_eq!(rt; sink.faults(), 1, "{fault:?}");
    }
}

/// How a copy ended.
#[derive(Clone, Copy, Debug, PartialEq, Eq)]
enum Copied {
    /// The source has no more bytes, and all that it gave was written.
    All,
    /// 100 pieces were written, and there may be more.
    Some,
    ReadFault,
    WriteFault,
}

/// Sends what a source has to a sink. What it promises follows from the clauses of the two traits
/// alone.
fn copy<S: Source, K: Sink>(source: &mut S, sink: &mut K) -> Copied
    ensures all { result ≡ Copied.All → (bytes : List ℕ)
        × Consumes (S.left source.old) (S.left source.new) bytes
        × Appends (K.written sink.old) (K.written sink.new) bytes
        × IsAtEnd (S.left source.new) }
    ensures ended { result ≡ Copied.All → Rose (S.ends source.old) (S.ends source.new) }
    ensures read_fault { result ≡ Copied.ReadFault
        → Rose (S.faults source.old) (S.faults source.new) }
    ensures write_fault { result ≡ Copied.WriteFault
        → Rose (K.faults sink.old) (K.faults sink.new) }
    ensures source_aside { S.aside source.new ≡ S.aside source.old }
    ensures sink_aside { K.aside sink.new ≡ K.aside sink.old }
{
    let mut buf = [0; 4];
    for _ in 0..100u8 {
        match source.read(&mut buf) {
            Piece::Got(count) => match send_all(sink, &buf[..count]) {
                Wrote::Took(_) => {}
                Wrote::Failed => return Copied::WriteFault,
            },
            Piece::End => return Copied::All,
            Piece::Failed => return Copied::ReadFault,
        }
    }
    Copied::Some
}

#[test]
fn a_copy_from_the_clauses_alone(rt: HostRuntime) -> Result<(), Fail> {
    for (failing_reads, failing_writes, want, copied) in [
        ([].as_slice(), [].as_slice(), Copied::All, "abcdefghij"),
        (&[2], &[], Copied::ReadFault, "abcdef"),
        (&[], &[4], Copied::WriteFault, "abcdefgh"),
    ] {
        let mut source = MemSource::new(b"abcdefghij", &[2], failing_reads);
        let mut sink = MemSink::with_capacity(rt.alloc(), 10, 2, failing_writes)?;
        assert_eq!(rt; copy(&mut source, &mut sink), want);
        assert_eq!(rt; sink.written(), copied.as_bytes(), "{want:?}");
    }
    Ok(())
}

/// Reads up to 100 pieces of what a client sends, and leaves what was written to it.
fn skip<C: Conn>(conn: &mut C) -> Piece
    ensures written { C.written conn.new ≡ C.written conn.old }
    ensures client { C.client conn.new ≡ C.client conn.old }
{
    let mut buf = [0; 4];
    for _ in 0..100u8 {
        let piece = conn.read(&mut buf);
        if piece == Piece::End {
            return piece;
        }
    }
    conn.read(&mut buf)
}

/// Writes back to a client up to 100 pieces of what it sends. A fault of either stream raises the
/// count of both.
fn echo<C: Conn>(conn: &mut C) -> Copied
    ensures all { result ≡ Copied.All → (bytes : List ℕ)
        × Consumes (C.left conn.old) (C.left conn.new) bytes
        × Appends (C.written conn.old) (C.written conn.new) bytes
        × IsAtEnd (C.left conn.new) }
    ensures read_fault { result ≡ Copied.ReadFault
        → Rose (C.Sink.faults conn.old) (C.Sink.faults conn.new) }
    ensures write_fault { result ≡ Copied.WriteFault
        → Rose (C.Source.faults conn.old) (C.Source.faults conn.new) }
    ensures client { C.client conn.new ≡ C.client conn.old }
{
    let mut buf = [0; 4];
    for _ in 0..100u8 {
        match conn.read(&mut buf) {
            Piece::Got(count) => match send_all(conn, &buf[..count]) {
                Wrote::Took(_) => {}
                Wrote::Failed => return Copied::WriteFault,
            },
            Piece::End => return Copied::All,
            Piece::Failed => return Copied::ReadFault,
        }
    }
    Copied::Some
}

#[test]
fn an_echo_from_the_clauses_alone(rt: HostRuntime) -> Result<(), Fail> {
    for (failing, want, echoed) in [
        ([].as_slice(), Copied::All, "abcdefghij"),
        (&[2], Copied::ReadFault, "a"),
        (&[4], Copied::WriteFault, "abcd"),
    ] {
        let mut conn = connection(rt.alloc(), failing)?;
        assert_eq!(rt; echo(&mut conn), want);
        assert_eq!(rt; conn.written(), echoed.as_bytes(), "{want:?}");
        assert_eq!(rt; skip(&mut conn), Piece::End, "{want:?}");
        assert_eq!(rt; conn.written(), echoed.as_bytes(), "{want:?}");
        assert_eq!(rt; conn.left(), b"".as_slice(), "{want:?}");
    }
    Ok(())
}

fn is_send<T: Send + Drop>(_value: T) {}

#[test]
fn a_connection_in_memory_can_be_sent_to_a_thread(rt: HostRuntime) -> Result<(), Fail> {
    is_send(connection(rt.alloc(), &[])?);
    Ok(())
}

#[test]
fn each_ending_has_its_line(rt: HostRuntime) -> Result<(), Fail> {
    let line = u64::MAX;
    let fault = LineFault::Trace(TraceFault::Unbuilt);
    for (status, want) in [
        (Status::Done, ""),
        (Status::Words { at: 1 }, "opentracker: word 1 refused\n"),
        (Status::NoMemory, "opentracker: no memory\n"),
        (Status::ReadFault, "opentracker: read fault\n"),
        (Status::WriteFault, "opentracker: write fault\n"),
        (
            Status::Line { line, fault },
            "opentracker: line 18446744073709551615: unbuilt\n",
        ),
        (
            Status::TooLong { line },
            "opentracker: line 18446744073709551615: too long\n",
        ),
        (Status::TooMuch, "opentracker: too much input\n"),
        (Status::Device, "opentracker: device fault\n"),
    ] {
        let mut err = MemSink::with_capacity(rt.alloc(), 100, 7, &[])?;
        report(status, &mut err);
        assert_eq!(rt; err.written(), want.as_bytes(), "{status:?}");
    }
    Ok(())
}

#[test]
fn a_fault_of_err_loses_the_rest_of_the_line(rt: HostRuntime) -> Result<(), Fail> {
    for (failing, want) in [(0u64, ""), (1, "opentra"), (2, "opentracker: r")] {
        let failing = [failing];
        let mut err = MemSink::with_capacity(rt.alloc(), 100, 7, &failing)?;
        report(Status::ReadFault, &mut err);
        assert_eq!(rt; err.written(), want.as_bytes(), "{want}");
        assert_eq!(rt; err.faults(), 1, "{want}");
    }
    Ok(())
}
