//! The head of a request.

ghost use Rattle.std.specs.Prelude.{◌≡◌};
ghost use Rattle.http_wire.specs.Head.{IsAnswer, answer_without_head};

use crate::lines::{has_too_many_lines, is_bad, skip_empty_lines};
use httparse::Status;
use httparse::spans::{EMPTY_HEADER_SPAN, parse_request};

/// How many fields a head has at most.
pub const MOST_FIELDS: usize = 64;

/// What some bytes are as the beginning of a request.
#[derive(Clone, Copy, Debug, PartialEq, Eq)]
pub enum Head {
    /// The first `len` bytes are the head of a request of at most 64 fields.
    Whole {
        /// Whether the method is `GET`.
        get: bool,
        /// Where its target begins, in bytes from the first.
        from: usize,
        /// Where its target ends: the place of the first byte after it.
        to: usize,
        /// How many bytes the head has, its empty line with them.
        len: usize,
    },
    /// There is no such head yet, and none of the other reasons.
    More,
    /// The first line that is whole and not empty ends neither with ` HTTP/1.0` nor with
    /// ` HTTP/1.1`.
    Bad,
    /// 67 or more lines end from the first one on that isn't empty.
    Many,
}

/// Finds the head of a request (RFC 9112) at the front of some bytes, by the grammar of `httparse`.
/// The first of `Whole`, `Bad`, `Many` and `More` that holds is the answer. A line ends at the byte
/// 0x0A, and one 0x0D before it isn't counted. It takes no memory. A caller that gets the bytes in
/// small pieces asks only where a `Watch` says so.
pub fn find_head(bytes: &[u8]) -> Head
    ensures { IsAnswer bytes.now result }
{
    let mut fields = [EMPTY_HEADER_SPAN; MOST_FIELDS];
    match parse_request(bytes, &mut fields) {
        Ok(Status::Complete(head)) => Head::Whole {
            get: head.method.of(bytes) == b"GET".as_slice(),
            from: head.path.start,
            to: head.path.end,
            len: head.len,
        },
        Ok(Status::Partial) => without_head(bytes),
        // Which error it is decides nothing.
        Err(_) => without_head(bytes),
    }
}

/// The answer where no front of the bytes is a head of at most 64 fields.
fn without_head(bytes: &[u8]) -> Head
    ensures { result ≡ answer_without_head bytes.now }
{
    let lines = skip_empty_lines(bytes);
    if is_bad(lines) {
        Head::Bad
    } else if has_too_many_lines(lines) {
        Head::Many
    } else {
        Head::More
    }
}
