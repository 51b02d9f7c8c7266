//! The pieces of the body.

ghost use Rattle.std.specs.Prelude.{◌≡◌, All, IfOk, OnOk, codes, flat_map};
ghost use Rattle.tracker_core.specs.HttpText.{IsRow, row_text};

use ot_base::{Bytes, Rows};
use std::alloc::{AllocError, Global};
use tracker_core::rows_between;

/// What stands before the first part.
pub fn begin() -> &'static [u8]
    ensures { result.now ≡ codes "d5:filesd" }
{
    b"d5:filesd"
}

/// The rows of some torrents in order, in one block of memory. The body is canonical bencode where
/// the hashes ascend, over all its parts.
pub fn part(alloc: Global, rows: &Rows) -> Result<Bytes, AllocError>
    ensures text { IfOk result (λ text. text ≡ flat_map row_text rows.now) }
    ensures typed { OnOk result (All IsRow rows.now) }
{
    rows_between(alloc, b"", rows.as_slice(), b"")
}

/// What stands behind the last part.
pub fn end() -> &'static [u8]
    ensures { result.now ≡ codes "ee" }
{
    b"ee"
}
