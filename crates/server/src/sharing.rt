//! The jobs beside the workers: the one that cleans, and those that share with other nodes.

ghost use Rattle.std.specs.Prelude.{◌≡◌, ◌≤◌, ◌<◌, ◌+◌, ◌⊎◌, length};
ghost use Rattle.std.specs.Prelude.{vec_capacity, vec_len};
ghost use Rattle.std.specs.Vec.Iter.{into_iter_items};
ghost use Rattle.server.specs.Opening.{AddsJobs, AreSyncJobs, IsCleanerJob};

use crate::opening::take_next;
use serve::Job;
use shards::Pass;
use std::vec::IntoIter;

/// Puts the cleaner into the room, with the next pass and clock.
pub(crate) fn add_cleaner<W: Drop, L: Drop, C: Drop>(
    mut room: Vec<Job<W, L, C>>,
    passes: &mut IntoIter<Pass>,
    clocks: &mut IntoIter<C>,
) -> Vec<Job<W, L, C>>
    requires room { vec_len room < vec_capacity room }
    requires passes { 0 < length (into_iter_items passes.old) }
    requires clocks { 0 < length (into_iter_items clocks.old) }
    ensures jobs { AddsJobs IsCleanerJob room.items result.items
        (into_iter_items passes.old) (into_iter_items passes.new)
        (into_iter_items clocks.old) (into_iter_items clocks.new) }
    ensures capacity { vec_capacity room ≤ vec_capacity result }
{
    room.push_reserved(Job::Cleaner {
        pass: take_next(passes),
        clock: take_next(clocks),
    });
    room
}

/// Puts the job that tells other nodes into the room, and then the one that hears them, where there
/// are wires for the two.
pub(crate) fn add_sync_jobs<W: Drop, L: Drop, C: Drop>(
    mut room: Vec<Job<W, L, C>>,
    wires: Vec<W>,
    passes: &mut IntoIter<Pass>,
    clocks: &mut IntoIter<C>,
) -> Vec<Job<W, L, C>>
    requires none_or_two { (vec_len wires ≡ 0) ⊎ (vec_len wires ≡ 2) }
    requires room { vec_len room + vec_len wires ≤ vec_capacity room }
    requires passes { vec_len wires ≤ length (into_iter_items passes.old) }
    requires clocks { vec_len wires ≤ length (into_iter_items clocks.old) }
    ensures jobs { AddsJobs (AreSyncJobs wires.items) room.items result.items
        (into_iter_items passes.old) (into_iter_items passes.new)
        (into_iter_items clocks.old) (into_iter_items clocks.new) }
{
    if wires.is_empty() {
        return room;
    }
    let mut wires = wires.into_iter();
    room.push_reserved(Job::Sender {
        pass: take_next(passes),
        wire: take_next(&mut wires),
        clock: take_next(clocks),
    });
    room.push_reserved(Job::Receiver {
        pass: take_next(passes),
        wire: take_next(&mut wires),
        clock: take_next(clocks),
    });
    room
}
