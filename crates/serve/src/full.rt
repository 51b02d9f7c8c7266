//! How all torrents are told on a connection: bucket by bucket, so that the rows of one are held at
//! a time.

ghost use Rattle.std.specs.Prelude.{◌≡◌, ◌<◌, ◌^◌, false, IfOk};
ghost use Rattle.serve.specs.Full.{Sends, StopsAreCounted, TellsAll, TellsPart, TellsParts};
ghost use Rattle.serve.specs.Full.{full_front};

use full_scrape::{begin, end};
use http_wire::write_long_head;
use ot_base::Minute;
use ot_io::{Sink, Wrote, send_all};
use request_handler::{bucket_count, full_part};
use std::alloc::{AllocError, Global};
use tracker_model::Tracker;

/// Why a reply that is written in pieces stops.
#[derive(Clone, Copy, Debug, PartialEq, Eq)]
pub enum Stop {
    /// There was no memory for the next piece.
    NoMemory,
    /// The outside failed.
    WriteFault,
}

impl From<AllocError> for Stop {
    ghost use Rattle.serve.specs.declared.full.Stop.{Stop};

    ghost from_gives = { λ _ stop. stop ≡ Stop.NoMemory };

    fn from(_error: AllocError) -> Self {
        Stop::NoMemory
    }
}

/// Tells all torrents at a minute: scans one bucket after another, each once, and writes its rows
/// before it scans the next one. Where it stops, a front of the reply was written.
pub(crate) fn tell_all<T: Tracker, K: Sink>(
    alloc: Global,
    tracker: &mut T,
    minute: Minute,
    sink: &mut K,
) -> Result<(), Stop>
    ensures told { TellsAll T.made minute (T.bits tracker.old) tracker.old tracker.new
        (K.written sink.old) (K.written sink.new) result }
    ensures faults { StopsAreCounted (K.faults sink.old) (K.faults sink.new) result }
    ensures aside { K.aside sink.new ≡ K.aside sink.old }
{
    let front = front(alloc)?;
    send(sink, front.as_slice())?;
    tell_parts(alloc, tracker, minute, sink)?;
    send(sink, end())
}

/// What is written before the first row.
fn front(alloc: Global) -> Result<Vec<u8>, AllocError>
    ensures { IfOk result (λ front. front.items ≡ full_front) }
{
    let mut front = Vec::new(alloc);
    front.extend_from_slice(write_long_head(alloc)?.as_slice())?;
    front.extend_from_slice(begin())?;
    Ok(front)
}

/// Writes the rows of all buckets, from bucket 0 on.
fn tell_parts<T: Tracker, K: Sink>(
    alloc: Global,
    tracker: &mut T,
    minute: Minute,
    sink: &mut K,
) -> Result<(), Stop>
    ensures told { TellsParts T.made minute (T.bits tracker.old) tracker.old tracker.new
        (K.written sink.old) (K.written sink.new) result }
    ensures faults { StopsAreCounted (K.faults sink.old) (K.faults sink.new) result }
    ensures aside { K.aside sink.new ≡ K.aside sink.old }
{
    'buckets: for bucket in 0..bucket_count(tracker) {
        tell_part(alloc, tracker, bucket, minute, sink)?;
    }
    Ok(())
}

/// Scans a bucket, and writes its rows.
fn tell_part<T: Tracker, K: Sink>(
    alloc: Global,
    tracker: &mut T,
    bucket: u32,
    minute: Minute,
    sink: &mut K,
) -> Result<(), Stop>
    requires within { bucket < 2 ^ T.bits tracker.old }
    ensures settings { T.settings tracker.new ≡ T.settings tracker.old }
    ensures bits { T.bits tracker.new ≡ T.bits tracker.old }
    ensures told { TellsPart T.made minute tracker.old bucket tracker.new
        (K.written sink.old) (K.written sink.new) result }
    ensures faults { StopsAreCounted (K.faults sink.old) (K.faults sink.new) result }
    ensures aside { K.aside sink.new ≡ K.aside sink.old }
{
    let part = full_part(alloc, tracker, bucket, minute)?;
    send(sink, part.as_slice())
}

/// Writes all of the bytes, or stops.
fn send<K: Sink>(sink: &mut K, bytes: &[u8]) -> Result<(), Stop>
    ensures sent { Sends (K.written sink.old) (K.written sink.new) bytes.now result }
    ensures faults { StopsAreCounted (K.faults sink.old) (K.faults sink.new) result }
    ensures aside { K.aside sink.new ≡ K.aside sink.old }
{
    match send_all(sink, bytes) {
        Wrote::Took(_) => Ok(()),
        Wrote::Failed => Err(Stop::WriteFault),
    }
}
