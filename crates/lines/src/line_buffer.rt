//! The lines of an input that comes in pieces.

ghost use Rattle.std.specs.Prelude.{◌≡◌, ◌<◌, ◌≤◌, ◌+◌, ◌-◌, OnOk, IfOk, length, take, slice_range};
ghost use Rattle.ot_io.specs.Counts.{Rose};
ghost use Rattle.lines.specs.Streams.{IsLaterSource};
ghost use Rattle.lines.specs.Text.{IsUnfinished};
ghost use Rattle.lines.specs.Reading.{Takes, TakesLast, Fills, nothing_read, read_limit};
ghost use Rattle.lines.specs.Buffer.{ReadsBehind};

use memchr::memchr;
use ot_io::{Piece, Source};
use std::alloc::{AllocError, Global};
use std::marker::Model;

/// How many bytes a line has at most, without its end.
pub const LINE_LIMIT: usize = 262_144;

/// How many bytes are read at most, 2^40.
pub const READ_LIMIT: usize = 1 << 40;

/// How many bytes one read asks for.
const PIECE_LEN: usize = 65_536;

/// Room for a line that hasn't ended and for one more piece.
const BUFFER_LEN: usize = LINE_LIMIT + PIECE_LEN;

/// What stands ahead in what was read.
#[derive(Clone, Copy, Debug, PartialEq, Eq)]
pub enum Taken {
    /// A line with its end, which is taken.
    Line,
    /// A line of more than 262,144 bytes. Nothing is taken.
    TooLong,
    /// No whole line: more has to be read. Nothing is taken.
    More,
}

/// What a read gave.
#[derive(Clone, Copy, Debug, PartialEq, Eq)]
pub enum Filled {
    /// Bytes, at least one.
    Got,
    /// The input is at its end.
    End,
    /// The outside failed. Nothing was read.
    Failed,
    /// Bytes beyond 2^40, which are dropped.
    TooMuch,
}

/// The bytes of an input that were read and not yet taken as lines, in a buffer of fixed size.
#[derive(Drop)]
pub struct Lines {
    buffer: Vec<u8>,
    /// Where the bytes begin that were not yet taken.
    start: usize,
    /// Up to here no line ends, from `start` on. A line that comes byte by byte is searched once.
    searched: usize,
    /// Where the bytes end that were not yet taken.
    end: usize,
    /// Where the line begins that was taken last.
    line_start: usize,
    /// Where it ends.
    line_end: usize,
    /// How many lines were taken: at most as many as bytes were read.
    number: u64,
    /// How many bytes were read.
    count: usize,
}

impl Model for Lines {
    ghost use Rattle.lines.specs.Reading.{Reading};

    ghost Value = { Reading };

    ghost use Rattle.lines.specs.Buffer.{reading_of, IsInOrder};

    ghost view = { reading_of };

    ghost invariant = { IsInOrder };
}

impl Lines {
    /// A buffer before the first read. This takes all the memory that it ever takes.
    pub fn new(alloc: Global) -> Result<Self, AllocError>
        ensures { IfOk result (λ lines. lines ≡ nothing_read) }
    {
        Ok(Lines {
            buffer: vec![in alloc; 0; BUFFER_LEN]?,
            start: 0,
            searched: 0,
            end: 0,
            line_start: 0,
            line_end: 0,
            number: 0,
            count: 0,
        })
    }

    /// Takes the next line with its end, if it has come. It reads nothing.
    pub fn take(&mut self) -> Taken
        ensures { Takes self.old self.new result }
    {
        let Some(place) = memchr(b'\n', &self.buffer[self.searched..self.end]) else {
            self.searched = self.end;
            if self.end - self.start > LINE_LIMIT {
                return Taken::TooLong;
            }
            return Taken::More;
        };
        let line_end = self.searched + place;
        if line_end - self.start > LINE_LIMIT {
            return Taken::TooLong;
        }
        self.line_start = self.start;
        self.line_end = line_end;
        self.start = line_end + 1;
        self.searched = self.start;
        self.number += 1;
        Taken::Line
    }

    /// Reads more, at most 65,536 bytes, where no whole line is ahead: call it after `More`. The
    /// line that was taken last is forgotten.
    pub fn fill<S: Source>(&mut self, input: &mut S) -> Filled
        requires { IsUnfinished self.old.ahead }
        ensures filled { Fills (S.left input.old) (S.left input.new) self.old self.new result }
        ensures end { result ≡ Filled.End → Rose (S.ends input.old) (S.ends input.new) }
        ensures failed { result ≡ Filled.Failed → Rose (S.faults input.old) (S.faults input.new) }
        ensures later { IsLaterSource S.faults S.ends S.aside input.old input.new }
    {
        let room = (READ_LIMIT - self.count).min(PIECE_LEN).max(1);
        let read = read_behind(input, &mut self.buffer, self.start, self.end, room);
        self.end -= self.start;
        self.searched = self.end;
        self.start = 0;
        self.line_start = 0;
        self.line_end = 0;
        match read {
            Piece::Got(_) if self.count == READ_LIMIT => Filled::TooMuch,
            Piece::Got(count) => {
                self.end += count;
                self.count += count;
                Filled::Got
            }
            Piece::End => Filled::End,
            Piece::Failed => Filled::Failed,
        }
    }

    /// After the input's end: takes the bytes that no end of a line follows as the last line, and
    /// says whether there are any. Call it after `More`.
    pub fn take_last(&mut self) -> bool
        requires { IsUnfinished self.old.ahead }
        ensures { TakesLast self.old self.new result }
    {
        if self.start == self.end {
            return false;
        }
        self.line_start = self.start;
        self.line_end = self.end;
        self.start = self.end;
        self.searched = self.end;
        self.number += 1;
        true
    }

    /// The line that was taken last, without its end. After a read this is empty.
    pub fn line(&self) -> &[u8]
        ensures { result.now ≡ self.now.line }
    {
        &self.buffer[self.line_start..self.line_end]
    }

    /// How many lines were taken: the number, from 1, of the line that was taken last.
    pub fn number(&self) -> u64
        ensures number { result ≡ self.now.number }
        ensures few { result ≤ read_limit }
    {
        self.number
    }
}

/// Moves the bytes from `start` up to `end` to the front, and reads up to `room` bytes behind them.
fn read_behind<S: Source>(
    input: &mut S,
    buffer: &mut [u8],
    start: usize,
    end: usize,
    room: usize,
) -> Piece
    requires order { start ≤ end }
    requires within { end ≤ length buffer.old }
    requires some { 0 < room }
    requires fits { end - start + room ≤ length buffer.old }
    ensures read { ReadsBehind (S.left input.old) (S.left input.new)
        (slice_range buffer.old start end) (end - start) buffer.new room result }
    ensures end { result ≡ Piece.End → Rose (S.ends input.old) (S.ends input.new) }
    ensures failed { result ≡ Piece.Failed → Rose (S.faults input.old) (S.faults input.new) }
    ensures later { IsLaterSource S.faults S.ends S.aside input.old input.new }
{
    move_to_front(buffer, start, end);
    let ahead = end - start;
    input.read(&mut buffer[ahead..ahead + room])
}

/// Moves the bytes from `start` up to `end` to the front. What stands behind them then is not said.
fn move_to_front(buffer: &mut [u8], start: usize, end: usize)
    requires order { start ≤ end }
    requires within { end ≤ length buffer.old }
    ensures { take (end - start) buffer.new ≡ slice_range buffer.old start end }
{
    let len = end - start;
    if len <= start {
        let (front, back) = buffer.split_at_mut(start);
        front[..len].copy_from_slice(&back[..len]);
    } else {
        buffer[..end].rotate_left(start);
    }
}
