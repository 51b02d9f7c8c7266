//! Readers and writers of std as sources and sinks.

ghost use Rattle.std.specs.Prelude.{◌≡◌, ◌↔◌, IsTrue, IsErrAnd};
ghost use Rattle.std.specs.IoError.{error_kind};
ghost use Rattle.std.specs.Io.{ReadsAtMost, WritesAtMost};
ghost use Rattle.std.specs.Io.KnownBytes.{ReadConsumes, WriteAppends};

use crate::sink::{Sink, Wrote};
use crate::source::{Piece, Source};
use std::io::{self, ErrorKind, Read, Write};

/// A reader as a source, as standard input. It tells what is left where the reader does, so of
/// standard input nothing.
#[derive(Debug, Drop)]
pub struct StdSource<R> {
    reader: R,
    faults: u64,
    ends: u64,
}

impl<R: Read> StdSource<R> {
    ghost use Rattle.std.specs.Prelude.{◌≡◌};
    ghost use Rattle.ot_io.specs.Adapters.{reader_of, reads_failed, reads_ended};

    /// A source of what the reader gives from here on.
    pub fn new(reader: R) -> Self
        ensures reader { reader_of result ≡ reader }
        ensures faults { reads_failed result ≡ 0 }
        ensures ends { reads_ended result ≡ 0 }
    {
        StdSource {
            reader,
            faults: 0,
            ends: 0,
        }
    }

    /// How many reads have failed. From 2^64 - 1 on the count stands still.
    pub fn faults(&self) -> u64
        ensures { result ≡ reads_failed self.now }
    {
        self.faults
    }

    /// How many reads have answered that there are no more bytes. From 2^64 - 1 on the count stands
    /// still.
    pub fn ends(&self) -> u64
        ensures { result ≡ reads_ended self.now }
    {
        self.ends
    }
}

impl<R: Read> Source for StdSource<R> {
    ghost left = { λ source. R.remaining source.reader };

    ghost faults = { λ source. source.faults };

    ghost ends = { λ source. source.ends };

    fn read(&mut self, buf: &mut [u8]) -> Piece {
        match read_retrying(&mut self.reader, buf) {
            Ok(0) => {
                self.ends = self.ends.saturating_add(1);
                Piece::End
            }
            Ok(count) => Piece::Got(count),
            Err(_) => {
                self.faults = self.faults.saturating_add(1);
                Piece::Failed
            }
        }
    }
}

/// A writer as a sink, as standard output. It tells what was written where the writer does, so of
/// standard output nothing.
///
/// Nothing flushes the writer, so take one that keeps nothing back: std's `stdout()` here makes one
/// system call of each write.
#[derive(Debug, Drop)]
pub struct StdSink<W> {
    writer: W,
    faults: u64,
}

impl<W: Write> StdSink<W> {
    ghost use Rattle.std.specs.Prelude.{◌≡◌};
    ghost use Rattle.ot_io.specs.Adapters.{writer_of, writes_failed};

    /// A sink that writes to the writer.
    pub fn new(writer: W) -> Self
        ensures writer { writer_of result ≡ writer }
        ensures faults { writes_failed result ≡ 0 }
    {
        StdSink { writer, faults: 0 }
    }

    /// How many writes have failed. From 2^64 - 1 on the count stands still.
    pub fn faults(&self) -> u64
        ensures { result ≡ writes_failed self.now }
    {
        self.faults
    }
}

impl<W: Write> Sink for StdSink<W> {
    ghost written = { λ sink. W.contents sink.writer };

    ghost faults = { λ sink. sink.faults };

    fn write(&mut self, bytes: &[u8]) -> Wrote {
        match write_retrying(&mut self.writer, bytes) {
            // A writer that takes nothing would be asked for ever.
            Ok(0) | Err(_) => {
                self.faults = self.faults.saturating_add(1);
                Wrote::Failed
            }
            Ok(count) => Wrote::Took(count),
        }
    }
}

/// One read, asked again where a signal interrupts it. After 2^64 - 1 interruptions the next one
/// is its answer.
fn read_retrying<R: Read>(reader: &mut R, buf: &mut [u8]) -> io::Result<usize>
    ensures bound { ReadsAtMost result buf.new }
    ensures bytes { ReadConsumes (R.remaining reader.old) (R.remaining reader.new) result buf.new }
{
    for _ in 0..u64::MAX {
        let answer = reader.read(buf);
        if !is_interrupted(&answer) {
            return answer;
        }
    }
    reader.read(buf)
}

/// One write, asked again where a signal interrupts it. After 2^64 - 1 interruptions the next one
/// is its answer.
fn write_retrying<W: Write>(writer: &mut W, bytes: &[u8]) -> io::Result<usize>
    ensures bound { WritesAtMost result bytes.now }
    ensures bytes { WriteAppends (W.contents writer.old) (W.contents writer.new) result bytes.now }
{
    for _ in 0..u64::MAX {
        let answer = writer.write(bytes);
        if !is_interrupted(&answer) {
            return answer;
        }
    }
    writer.write(bytes)
}

/// Whether a signal came before any byte, so that the same call is to be made again: of no other
/// error, since that could come for ever.
fn is_interrupted(answer: &io::Result<usize>) -> bool
    ensures { IsTrue result
        ↔ IsErrAnd answer.now (λ error. error_kind error ≡ ErrorKind.Interrupted) }
{
    match answer {
        Ok(_) => false,
        Err(error) => error.kind() == ErrorKind::Interrupted,
    }
}
