//! What no clause says: the bytes of worked bodies, in one part, in several and in none.

use super::*;
use bencode_text::is_canonical;
use ot_base::{Counts, InfoHash, Row, Rows};
use std::alloc::{AllocError, Global};
use std::test::Fail;

/// A torrent whose hash is one byte 20 times.
fn row(byte: u8, complete: u32, downloaded: u32, incomplete: u32) -> Row {
    Row {
        hash: InfoHash([byte; 20]),
        counts: Counts {
            complete,
            downloaded,
            incomplete,
        },
    }
}

/// The body that is told in parts of these rows.
fn body_of(alloc: Global, lists: &[&[Row]]) -> Result<Vec<u8>, AllocError> {
    let mut body = Vec::from_slice(alloc, begin())?;
    for list in lists {
        let mut rows = Rows::new(alloc);
        for row in *list {
            rows.push(*row)?;
        }
        body.extend_from_slice(part(alloc, &rows)?.as_slice())?;
    }
    body.extend_from_slice(end())?;
    Ok(body)
}

#[test]
fn empty_bodies_are_told(rt: HostRuntime) -> Result<(), Fail> {
    let none: [&[Row]; 0] = [];
    let two: [&[Row]; 2] = [&[], &[]];
    assert_eq!(rt;
        body_of(rt.alloc(), &none)?.as_slice(),
        b"d5:filesdee".as_slice()
    );
    assert_eq!(rt;
        body_of(rt.alloc(), &two)?.as_slice(),
        b"d5:filesdee".as_slice()
    );
    assert!(rt; is_canonical(b"d5:filesdee"));
    Ok(())
}

#[test]
fn three_rows_are_told_in_two_parts(rt: HostRuntime) -> Result<(), Fail> {
    let first = [row(0, 1, 0, 0), row(0x11, 0, 7, 12)];
    let second = [row(0xff, 4_294_967_295, 4_294_967_295, 4_294_967_295)];
    let body = body_of(rt.alloc(), &[&first, &second])?;
    assert_eq!(rt;
        body.as_slice(),
        b"d5:filesd\
        20:\x00\x00\x00\x00\x00\x00\x00\x00\x00\x00\x00\x00\x00\x00\x00\x00\x00\x00\x00\x00\
        d8:completei1e10:downloadedi0e10:incompletei0ee\
        20:\x11\x11\x11\x11\x11\x11\x11\x11\x11\x11\x11\x11\x11\x11\x11\x11\x11\x11\x11\x11\
        d8:completei0e10:downloadedi7e10:incompletei12ee\
        20:\xff\xff\xff\xff\xff\xff\xff\xff\xff\xff\xff\xff\xff\xff\xff\xff\xff\xff\xff\xff\
        d8:completei4294967295e10:downloadedi4294967295e10:incompletei4294967295eeee"
            .as_slice()
    );
    assert!(rt; is_canonical(body.as_slice()));
    Ok(())
}
