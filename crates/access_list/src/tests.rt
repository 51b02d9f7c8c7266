//! What no clause says: worked lines, and lists of them in both modes.

use super::*;
use ot_base::InfoHash;
use std::test::Fail;

const ONES: &[u8] = b"1111111111111111111111111111111111111111";

const LETTERS: &[u8] = b"abcdefABCDEF0123456789abcdefABCDEF012345";

#[test]
fn lines_are_read_or_refused(rt: HostRuntime) {
    for (label, line, want) in [
        ("40 digits", ONES, Ok(())),
        ("digits in both cases", LETTERS, Ok(())),
        ("empty", b"".as_slice(), Ok(())),
        ("a remark", b"# 1111".as_slice(), Ok(())),
        (
            "a remark of 40 bytes",
            b"#111111111111111111111111111111111111111".as_slice(),
            Ok(()),
        ),
        ("39 digits", &ONES[..39], Err(AccessFault::Line)),
        (
            "41 digits",
            b"11111111111111111111111111111111111111111".as_slice(),
            Err(AccessFault::Line),
        ),
        (
            "42 digits",
            b"111111111111111111111111111111111111111111".as_slice(),
            Err(AccessFault::Line),
        ),
        (
            "a space before",
            b" 1111111111111111111111111111111111111111".as_slice(),
            Err(AccessFault::Line),
        ),
        (
            "a space in the place of a digit",
            b"111111111111111111111111111111111111111 ".as_slice(),
            Err(AccessFault::Line),
        ),
        (
            "CR after",
            b"1111111111111111111111111111111111111111\r".as_slice(),
            Err(AccessFault::Line),
        ),
        ("CR alone", b"\r".as_slice(), Err(AccessFault::Line)),
        (
            "a remark after a space",
            b" #".as_slice(),
            Err(AccessFault::Line),
        ),
        (
            "g",
            b"g111111111111111111111111111111111111111".as_slice(),
            Err(AccessFault::Line),
        ),
        (
            "the word that ends a list",
            b"end".as_slice(),
            Err(AccessFault::Line),
        ),
    ] {
        let mut reader = ListReader::new(rt.alloc(), Mode::Allow);
        assert_eq!(rt; reader.line(line), want, "{label}");
    }
}

/// A list that is read line by line, and what it admits of four torrents: two that it names, one in
/// both cases, and their neighbours.
fn admitted(rt: &HostRuntime, mode: Mode) -> Result<[bool; 4], Fail> {
    let mut reader = ListReader::new(rt.alloc(), mode);
    for line in [
        LETTERS,
        b"# ones",
        ONES,
        b"",
        ONES,
        b"ABCDEFabcdef0123456789ABCDEFabcdef012345",
    ] {
        reader.line(line)?;
    }
    let list = reader.finish()?;
    let letters = [
        0xab, 0xcd, 0xef, 0xab, 0xcd, 0xef, 0x01, 0x23, 0x45, 0x67, 0x89, 0xab, 0xcd, 0xef, 0xab,
        0xcd, 0xef, 0x01, 0x23, 0x45,
    ];
    let mut above = letters;
    above[19] = 0x46;
    let mut below = [0x11; 20];
    below[0] = 0x10;
    Ok([
        list.admits(&InfoHash(letters)),
        list.admits(&InfoHash([0x11; 20])),
        list.admits(&InfoHash(above)),
        list.admits(&InfoHash(below)),
    ])
}

#[test]
fn lists_deny_or_allow(rt: HostRuntime) -> Result<(), Fail> {
    assert_eq!(rt; admitted(&rt, Mode::Deny)?, [false, false, true, true]);
    assert_eq!(rt; admitted(&rt, Mode::Allow)?, [true, true, false, false]);
    Ok(())
}

#[test]
fn empty_lists_deny_or_allow(rt: HostRuntime) -> Result<(), Fail> {
    for (mode, admits) in [(Mode::Deny, true), (Mode::Allow, false)] {
        let list = ListReader::new(rt.alloc(), mode).finish()?;
        assert_eq!(rt; list.admits(&InfoHash([0; 20])), admits);
    }
    Ok(())
}

#[test]
fn a_million_hashes_are_read(rt: HostRuntime) -> Result<(), Fail> {
    let hashes = vec![in rt.alloc(); InfoHash([0x11; 20]); 999_999]?;
    let mut reader = ListReader::of_hashes(Mode::Allow, hashes);
    reader.line(ONES)?;
    for (label, line, want) in [
        ("one that stands there", ONES, Err(AccessFault::Many)),
        ("one that doesn't", LETTERS, Err(AccessFault::Many)),
        ("39 digits", &ONES[..39], Err(AccessFault::Line)),
        ("empty", b"".as_slice(), Ok(())),
    ] {
        assert_eq!(rt; reader.line(line), want, "{label}");
    }
    Ok(())
}
