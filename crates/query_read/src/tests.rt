//! What no clause says: targets as clients send them, and that each call succeeds.

use super::*;
use std::alloc::Global;
use std::process::Abort;
use std::test::Fail;

/// A target, a name, how many values it has, and the first two of them.
#[derive(Drop)]
struct Row {
    label: &'static str,
    target: &'static [u8],
    name: &'static [u8],
    count: usize,
    first: &'static [u8],
    second: &'static [u8],
}

fn told(
    label: &'static str,
    target: &'static [u8],
    name: &'static [u8],
    first: Option<&'static [u8]>,
) -> Row {
    Row {
        label,
        target,
        name,
        count: usize::from(first.is_some()),
        first: first.unwrap_or(b""),
        second: b"",
    }
}

#[test]
fn pairs_are_read(rt: HostRuntime) -> Result<(), Fail> {
    let twice = Row {
        label: "a name twice",
        target: b"/announce?a=1&b=2&a=3",
        name: b"a",
        count: 2,
        first: b"1",
        second: b"3",
    };
    let rows = [
        twice,
        told("no question mark", b"/announce", b"port", None),
        told("an empty query", b"/announce?", b"port", None),
        told("a pair", b"/announce?port=6881", b"port", Some(b"6881")),
        told("another name", b"/announce?port=6881", b"por", None),
        told("empty pieces", b"/announce?&&a=1&&", b"a", Some(b"1")),
        told("empty pieces are no pairs", b"/announce?&&a=1&&", b"", None),
        told("an equals sign alone", b"/announce?=", b"", Some(b"")),
        told(
            "no equals sign",
            b"/announce?compact&a=1",
            b"compact",
            Some(b""),
        ),
        told("two equals signs", b"/announce?a=1=2", b"a", Some(b"1=2")),
        told(
            "two question marks",
            b"/announce?a=1?b=2",
            b"a",
            Some(b"1?b=2"),
        ),
        told("a plus", b"/announce?a=1+2", b"a", Some(b"1+2")),
        told("an escaped plus", b"/announce?a=1%2B2", b"a", Some(b"1+2")),
        told(
            "an escape of one digit",
            b"/announce?a=%1",
            b"a",
            Some(b"%1"),
        ),
        told("a percent sign alone", b"/announce?a=%", b"a", Some(b"%")),
        told(
            "an escape of letters",
            b"/announce?a=%zz",
            b"a",
            Some(b"%zz"),
        ),
        told(
            "an escaped name",
            b"/announce?inf%6F=x",
            b"info",
            Some(b"x"),
        ),
        told(
            "an escaped ampersand",
            b"/announce?a=1%26b=2&c",
            b"a",
            Some(b"1&b=2"),
        ),
    ];
    for row in rows {
        check_row(&rt, rt.alloc(), &row)?;
    }
    Ok(())
}

fn check_row(rt: &impl Abort, alloc: Global, row: &Row) -> Result<(), Fail> {
    let label = row.label;
    let Target::Announce(query) = read_target(alloc, row.target)? else {
        return Err(Fail::from(label));
    };
    let count = query.count(row.name);
    assert_eq!(rt; count, row.count, "{label}");
    assert_eq!(rt;
        query.first(row.name),
        (row.count > 0).then_some(row.first),
        "{label}"
    );
    if count > 1 {
        assert_eq!(rt; query.nth(row.name, 1), row.second, "{label}");
    }
    Ok(())
}

#[test]
fn paths_are_told_apart(rt: HostRuntime) -> Result<(), Fail> {
    let rows: [(&str, &[u8], &str); 9] = [
        ("announce", b"/announce", "announce"),
        ("scrape with a query", b"/scrape?info_hash=a", "scrape"),
        ("a slash behind", b"/announce/", "other"),
        ("a longer path", b"/announces", "other"),
        ("a shorter path", b"/announc", "other"),
        ("in capitals", b"/Announce", "other"),
        ("an escape in the path", b"/announc%65", "other"),
        ("nothing", b"", "other"),
        ("a query alone", b"?/announce", "other"),
    ];
    for (label, target, kind) in rows {
        let read = match read_target(rt.alloc(), target)? {
            Target::Announce(_) => "announce",
            Target::Scrape(_) => "scrape",
            Target::Other => "other",
        };
        assert_eq!(rt; read, kind, "{label}");
    }
    Ok(())
}

#[test]
fn numbers_are_read(rt: HostRuntime) {
    let rows: [(&str, &[u8], Option<u64>); 11] = [
        ("zero", b"0", Some(0)),
        ("leading zeros", b"007", Some(7)),
        ("a port", b"6881", Some(6881)),
        (
            "2^64 - 1",
            b"18446744073709551615",
            Some(18_446_744_073_709_551_615),
        ),
        ("2^64", b"18446744073709551616", None),
        ("10^20", b"100000000000000000000", None),
        ("a minus", b"-1", None),
        ("a plus", b"+1", None),
        ("nothing", b"", None),
        ("a letter behind", b"12x", None),
        (
            "forty zeros and a 7",
            b"00000000000000000000000000000000000000007",
            Some(7),
        ),
    ];
    for (label, text, number) in rows {
        assert_eq!(rt; read_number(text), number, "{label}");
    }
}
