//! Access lists at the front of an input.

use super::connections::{line_of, reply_of};
use super::datagrams::{A, B, NOTHING, P, announce, trace_of};
use super::{CONNECT, CONNECTED, ROOM, USUAL, replay_by, replayed};
use ot_base::{AccessFault, Mode, TraceFault};
use ot_io::{LineFault, MemSink, MemSource, ReplaySettings, Status};
use std::test::Fail;

/// The usual settings with an access list.
const LISTED: ReplaySettings = ReplaySettings {
    access: Some(Mode::Deny),
    ..USUAL
};

/// The lines of two hashes, of which the first is A.
const ONES: &str = "1111111111111111111111111111111111111111\n";

const TWOS: &str = "2222222222222222222222222222222222222222\n";

/// What a first leecher is told, and what one is that is refused.
const TOLD: &str = "R 0000000112345678000007080000000100000000\n";

const REFUSED: &str = "R 00000003123456786e6f7420617574686f72697a6564\n";

/// A torrent that is denied, or isn't allowed, is refused over UDP.
#[test]
fn lists_deny_or_allow(rt: HostRuntime) -> Result<(), Fail> {
    let records = [announce(0, P, A, 9, NOTHING), announce(0, P, B, 9, NOTHING)];
    let trace = trace_of(rt.alloc(), &records)?;
    for (mode, list, of_a, of_b) in [
        (Mode::Deny, ONES, REFUSED, TOLD),
        (Mode::Allow, ONES, TOLD, REFUSED),
        (Mode::Deny, "", TOLD, TOLD),
        (Mode::Allow, "", REFUSED, REFUSED),
        (Mode::Allow, TWOS, REFUSED, REFUSED),
    ] {
        let settings = ReplaySettings {
            access: Some(mode),
            ..USUAL
        };
        let input = format!(in rt.alloc(); "{list}end\n{trace}")?;
        let expected = format!(in rt.alloc(); "{of_a}{of_b}")?;
        let (status, written) = replayed(&rt, settings, &input)?;
        assert_eq!(rt; status, Status::Done, "{mode:?} {list}");
        assert_eq!(rt; written.as_slice(), expected.as_bytes(), "{mode:?} {list}");
    }
    Ok(())
}

#[test]
fn a_denied_torrent_is_refused_over_http(rt: HostRuntime) -> Result<(), Fail> {
    let sent = b"GET /announce?info_hash=%11%11%11%11%11%11%11%11%11%11%11%11%11%11%11%11%11%11%11\
        %11&port=1 HTTP/1.1\r\n\r\n";
    let line = line_of(rt.alloc(), 0, "192.0.2.1", sent)?;
    let input = format!(in rt.alloc(); "{ONES}end\n{line}")?;
    let (status, written) = replayed(&rt, LISTED, &input)?;
    assert_eq!(rt; status, Status::Done);
    let body = b"d14:failure reason14:not authorizede";
    let expected = reply_of(rt.alloc(), "200 OK", body)?;
    assert_eq!(rt; written.as_slice(), expected.as_bytes());
    Ok(())
}

/// Remarks, empty lines and hashes in either case are lines of a list, which one of them ends.
#[test]
fn a_list_is_read_to_its_end(rt: HostRuntime) -> Result<(), Fail> {
    for (shows, list) in [
        ("nothing", "end\n"),
        ("two hashes, one of them twice", "{1}{2}{1}end\n"),
        ("empty lines", "\n{1}\n\nend\n"),
        ("remarks", "#\n# end\n#end\n{1}# 1111\nend\n"),
        ("letters", "ABCDEFABCDEF0123456789abcdefabcdef012345\nend\n"),
    ] {
        let list = list.replace(rt.alloc(), "{1}", ONES)?;
        let list = list.replace(rt.alloc(), "{2}", TWOS)?;
        let input = format!(in rt.alloc(); "{list}{CONNECT}")?;
        let (status, written) = replayed(&rt, LISTED, &input)?;
        assert_eq!(rt; status, Status::Done, "{shows}");
        assert_eq!(rt; written.as_slice(), CONNECTED.as_bytes(), "{shows}");
    }
    Ok(())
}

/// Each bad line of a list is told, and nothing behind it is answered. An input that ends in its
/// list is refused at the line after its last.
#[test]
fn a_bad_line_of_a_list_is_told(rt: HostRuntime) -> Result<(), Fail> {
    for (shows, list, line) in [
        ("nothing", "", 1),
        ("no end behind two hashes", "{1}{2}", 3),
        ("no end of the last line", "{1}22", 2),
        ("a space behind the end", "{1}end \n", 2),
        ("a space before the end", "{1} end\n", 2),
        ("the end with CR", "{1}end\r\n", 2),
        ("the end in capitals", "{1}END\n", 2),
        (
            "39 digits",
            "111111111111111111111111111111111111111\nend\n",
            1,
        ),
        ("41 digits", "1{1}end\n", 1),
        ("a space before the digits", "{2} {1}end\n", 2),
        (
            "CR behind the digits",
            "1111111111111111111111111111111111111111\r\nend\n",
            1,
        ),
        (
            "no digit",
            "g111111111111111111111111111111111111111\nend\n",
            1,
        ),
    ] {
        let list = list.replace(rt.alloc(), "{1}", ONES)?;
        let input = list.replace(rt.alloc(), "{2}", TWOS)?;
        let mut source = MemSource::new(input.as_bytes(), &[], &[]);
        let mut sink = MemSink::with_capacity(rt.alloc(), ROOM, ROOM, &[])?;
        let (status, err) = replay_by(&rt, LISTED, &mut source, &mut sink)?;
        let refused = Status::List {
            line,
            fault: AccessFault::Line,
        };
        assert_eq!(rt; status, refused, "{shows}");
        assert_eq!(rt; sink.written().len(), 0, "{shows}");
        let told = format!(in rt.alloc(); "opentracker: line {line}: list\n")?;
        assert_eq!(rt; err.as_slice(), told.as_bytes(), "{shows}");
    }
    Ok(())
}

/// The lines of a list are counted with those of the trace. Behind the list `end` is a bad record.
#[test]
fn a_bad_record_behind_a_list_is_told(rt: HostRuntime) -> Result<(), Fail> {
    let input = format!(in rt.alloc(); "{ONES}end\n{CONNECT}end\n{CONNECT}")?;
    let (status, written) = replayed(&rt, LISTED, &input)?;
    let refused = Status::Line {
        line: 4,
        fault: LineFault::Trace(TraceFault::Form),
    };
    assert_eq!(rt; status, refused);
    assert_eq!(rt; written.as_slice(), CONNECTED.as_bytes());
    Ok(())
}
