//! Runs of the whole command over inputs and outputs in memory. The replies were computed by
//! another SHA-1.

ghost use Rattle.offline.specs.Command.{IsOffered};

use crate::{Offline, run_offline};
use ot_base::{Limits, Secret, TraceFault};
use ot_io::{LineFault, MemSink, MemSource, ReplaySettings, Status};
use std::test::Fail;

mod access;
mod connections;
mod datagrams;
mod full;
mod settings;

const TRACE: &str = "U 0 192.0.2.1 5000 00000417271019800000000012345678
U 4294967339 10.0.0.255 1 000004172710198000000000FFFFFFFF01020304
U 18446744073709551615 192.0.2.2 65535 00000417271019800000000000000000
";

const REPLIES: &str = "R 00000000123456783a09986f9ddc6775
R 00000000ffffffffc9de7ef2f2c3fa73
R 00000000000000008f736de43fb6da6f
";

/// The first record of the trace, and the reply to it.
const CONNECT: &str = "U 0 192.0.2.1 5000 00000417271019800000000012345678\n";

const CONNECTED: &str = "R 00000000123456783a09986f9ddc6775\n";

/// Room for all that a run here writes.
const ROOM: usize = 1 << 18;

/// Settings as the program has them where it is told none.
const USUAL: ReplaySettings = ReplaySettings {
    bits: 10,
    limits: Limits {
        peers: 100_000,
        torrents: 65_536,
    },
    full: false,
    secret: Secret([0; 20]),
    seed: 0,
    access: None,
};

/// Replays the input by the usual settings, and gives the status and what was told on err.
fn replay(
    rt: &HostRuntime,
    input: &mut MemSource,
    out: &mut MemSink,
) -> Result<(Status, Vec<u8>), Fail> {
    replay_by(rt, USUAL, input, out)
}

/// Replays the input by other settings, likewise.
fn replay_by(
    rt: &HostRuntime,
    settings: ReplaySettings,
    input: &mut MemSource,
    out: &mut MemSink,
) -> Result<(Status, Vec<u8>), Fail>
    requires { IsOffered settings }
{
    let mut err = MemSink::with_capacity(rt.alloc(), ROOM, ROOM, &[])?;
    let status = run_offline(rt.alloc(), &Offline::Replay(settings), input, out, &mut err);
    Ok((status, err.written().to_vec(rt.alloc())?))
}

/// What a replay of the input by these settings ends with and writes.
fn replayed(
    rt: &HostRuntime,
    settings: ReplaySettings,
    input: &str,
) -> Result<(Status, Vec<u8>), Fail>
    requires { IsOffered settings }
{
    let mut source = MemSource::new(input.as_bytes(), &[], &[]);
    let mut sink = MemSink::with_capacity(rt.alloc(), ROOM, ROOM, &[])?;
    let (status, _) = replay_by(rt, settings, &mut source, &mut sink)?;
    Ok((status, sink.written().to_vec(rt.alloc())?))
}

fn count_lines(text: &[u8]) -> usize {
    text.iter().filter(|byte| **byte == b'\n').count()
}

#[test]
fn connects_are_answered_however_the_input_is_cut(rt: HostRuntime) -> Result<(), Fail> {
    for length in [1, 2, 7, 8192] {
        let pieces = [length; 400];
        let mut input = MemSource::new(TRACE.as_bytes(), &pieces, &[]);
        let mut out = MemSink::with_capacity(rt.alloc(), ROOM, ROOM, &[])?;
        let (status, err) = replay(&rt, &mut input, &mut out)?;
        assert_eq!(rt; status, Status::Done, "{length}");
        assert_eq!(rt; out.written(), REPLIES.as_bytes(), "{length}");
        assert_eq!(rt; err.len(), 0, "{length}");
    }
    Ok(())
}

/// Each bad line has its one fault, by the first bad field, and what comes before it is answered.
#[test]
fn each_bad_line_is_told_and_keeps_what_was_answered(rt: HostRuntime) -> Result<(), Fail> {
    for (line, fault, told) in [
        ("", TraceFault::Form, "form"),
        ("U 0 192.0.2.1 5000", TraceFault::Form, "form"),
        ("X 0 192.0.2.1 5000 00", TraceFault::Form, "form"),
        ("C 0 0", TraceFault::Form, "form"),
        ("C -1", TraceFault::Number, "number"),
        ("H x y z ?", TraceFault::Number, "number"),
        ("H 0 192.0.2.1 5000 4", TraceFault::Hex, "hex"),
        (
            "U 18446744073709551616 192.0.2.1 5000 00",
            TraceFault::Number,
            "number",
        ),
        (
            "U 000000000000000000000 192.0.2.1 5000 00",
            TraceFault::Number,
            "number",
        ),
        ("U 0 192.0.2.256 5000 00", TraceFault::Address, "address"),
        ("U 0 192.0.2.01 5000 00", TraceFault::Address, "address"),
        (
            "U 0 20010db8000000000000000000000001 5000 00",
            TraceFault::Unbuilt,
            "unbuilt",
        ),
        ("U 0 192.0.2.1 65536 00", TraceFault::Number, "number"),
        ("U 0 192.0.2.1  00", TraceFault::Number, "number"),
        ("U 0 192.0.2.1 5000 0", TraceFault::Hex, "hex"),
        ("U 0 192.0.2.1 5000 00\r", TraceFault::Hex, "hex"),
    ] {
        let trace = format!(in rt.alloc(); "{CONNECT}{line}\n{CONNECT}")?;
        let mut input = MemSource::new(trace.as_bytes(), &[], &[]);
        let mut out = MemSink::with_capacity(rt.alloc(), ROOM, ROOM, &[])?;
        let (status, err) = replay(&rt, &mut input, &mut out)?;
        let refused = Status::Line {
            line: 2,
            fault: LineFault::Trace(fault),
        };
        assert_eq!(rt; status, refused, "{line}");
        assert_eq!(rt; out.written(), CONNECTED.as_bytes(), "{line}");
        let text = format!(in rt.alloc(); "opentracker: line 2: {told}\n")?;
        assert_eq!(rt; err.as_slice(), text.as_bytes(), "{line}");
    }
    Ok(())
}

#[test]
fn an_input_may_be_empty_or_lack_its_last_end(rt: HostRuntime) -> Result<(), Fail> {
    for (shows, input, out) in [
        ("nothing", "", ""),
        ("no last end", CONNECT.trim_end(), CONNECTED),
    ] {
        let mut source = MemSource::new(input.as_bytes(), &[], &[]);
        let mut sink = MemSink::with_capacity(rt.alloc(), ROOM, ROOM, &[])?;
        let (status, err) = replay(&rt, &mut source, &mut sink)?;
        assert_eq!(rt; status, Status::Done, "{shows}");
        assert_eq!(rt; sink.written(), out.as_bytes(), "{shows}");
        assert_eq!(rt; err.len(), 0, "{shows}");
    }
    Ok(())
}

/// A line of 262,144 bytes is read, 20 of them before the digits, and one byte more is too long.
#[test]
fn lines_as_long_as_they_may_be(rt: HostRuntime) -> Result<(), Fail> {
    for (digits, status, told) in [
        (262_124, Status::Done, ""),
        (
            262_125,
            Status::TooLong { line: 2 },
            "opentracker: line 2: too long\n",
        ),
    ] {
        let mut trace = format!(in rt.alloc(); "{CONNECT}U 00 192.0.2.1 5000 ")?;
        for _ in 0..digits {
            trace.push('7')?;
        }
        trace.push('\n')?;
        let mut input = MemSource::new(trace.as_bytes(), &[7; 40], &[]);
        let mut out = MemSink::with_capacity(rt.alloc(), ROOM, ROOM, &[])?;
        let (ended, err) = replay(&rt, &mut input, &mut out)?;
        assert_eq!(rt; ended, status, "{digits}");
        assert!(rt; out.written().starts_with(CONNECTED.as_bytes()), "{digits}");
        assert_eq!(rt; err.as_slice(), told.as_bytes(), "{digits}");
    }
    Ok(())
}

#[test]
fn a_failing_source_leaves_the_answers_to_the_lines_before(rt: HostRuntime) -> Result<(), Fail> {
    let pieces = [20; 40];
    for k in 0..100 {
        let failing = [k];
        let mut input = MemSource::new(TRACE.as_bytes(), &pieces, &failing);
        let mut out = MemSink::with_capacity(rt.alloc(), ROOM, ROOM, &[])?;
        let (status, err) = replay(&rt, &mut input, &mut out)?;
        assert!(rt; REPLIES.as_bytes().starts_with(out.written()), "{k}");
        if status == Status::Done {
            assert_eq!(rt; out.written(), REPLIES.as_bytes());
            return Ok(());
        }
        assert_eq!(rt; status, Status::ReadFault, "{k}");
        let read = TRACE.len().min(20 * k as usize);
        assert_eq!(rt;
            count_lines(out.written()),
            count_lines(&TRACE.as_bytes()[..read]),
            "{k}"
        );
        assert_eq!(rt; err.as_slice(), b"opentracker: read fault\n".as_slice());
    }
    assert!(rt; false, "no run without a failure");
    Ok(())
}

#[test]
fn a_failing_sink_has_a_front_of_the_answers(rt: HostRuntime) -> Result<(), Fail> {
    let pieces = [20; 40];
    for k in 0..100 {
        let failing = [k];
        let mut input = MemSource::new(TRACE.as_bytes(), &pieces, &[]);
        let mut out = MemSink::with_capacity(rt.alloc(), ROOM, 10, &failing)?;
        let (status, err) = replay(&rt, &mut input, &mut out)?;
        if status == Status::Done {
            assert_eq!(rt; out.written(), REPLIES.as_bytes());
            return Ok(());
        }
        assert_eq!(rt; status, Status::WriteFault, "{k}");
        assert!(rt; REPLIES.as_bytes().starts_with(out.written()), "{k}");
        assert_eq!(rt; err.as_slice(), b"opentracker: write fault\n".as_slice());
    }
    assert!(rt; false, "no run without a failure");
    Ok(())
}
