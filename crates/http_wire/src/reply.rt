//! Replies.

ghost use Rattle.std.specs.Prelude.{◌≡◌, IfOk};
ghost use Rattle.http_wire.specs.Reply.{first_line_of, reply_of, long_head};

use itoa::Buffer;
use ot_base::Bytes;
use std::alloc::{AllocError, Global};

/// The status of a reply (RFC 9110; RFC 6585 for 431).
#[derive(Clone, Copy, Debug, PartialEq, Eq)]
pub enum Code {
    /// 200: the request is answered.
    Ok,
    /// 400: the bytes aren't the head of a request.
    BadRequest,
    /// 404: nothing is at that target.
    NotFound,
    /// 431: the head has too many bytes or lines.
    TooLarge,
}

impl Code {
    /// The first line of a reply, with its CR LF.
    fn first_line(self) -> &'static [u8]
        ensures { result.now ≡ first_line_of self }
    {
        match self {
            Code::Ok => b"HTTP/1.1 200 OK\r\n",
            Code::BadRequest => b"HTTP/1.1 400 Bad Request\r\n",
            Code::NotFound => b"HTTP/1.1 404 Not Found\r\n",
            Code::TooLarge => b"HTTP/1.1 431 Request Header Fields Too Large\r\n",
        }
    }
}

/// How many bytes the head of a reply has at most.
const HEAD_ROOM: usize = 131;

/// Writes a whole reply: its head, with the body's length in decimal, and the body. The connection
/// ends after it. It takes one block of memory.
pub fn write_reply(alloc: Global, code: Code, body: &[u8]) -> Result<Bytes, AllocError>
    ensures { IfOk result (λ reply. reply ≡ reply_of code body.now) }
{
    let mut digits = Buffer::new();
    let mut reply = Vec::with_capacity(alloc, body.len().saturating_add(HEAD_ROOM))?;
    reply.extend_from_slice(code.first_line())?;
    reply.extend_from_slice(b"Content-Type: text/plain\r\nContent-Length: ")?;
    reply.extend_from_slice(digits.format(body.len()).as_bytes())?;
    reply.extend_from_slice(b"\r\nConnection: close\r\n\r\n")?;
    reply.extend_from_slice(body)?;
    Ok(Bytes::from(reply))
}

/// Writes the head of a reply of code `Ok` whose body has no length told: it ends with the
/// connection.
pub fn write_long_head(alloc: Global) -> Result<Bytes, AllocError>
    ensures { IfOk result (λ head. head ≡ long_head) }
{
    let head = b"HTTP/1.1 200 OK\r\nContent-Type: text/plain\r\nConnection: close\r\n\r\n";
    Ok(Bytes::from(Vec::from_slice(alloc, head)?))
}
