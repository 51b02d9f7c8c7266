//! How the jobs of a server begin.

ghost use Rattle.std.specs.Prelude.{◌≡◌, ◌≤◌, ◌<◌, ◌+◌, ◌⊎◌, [], ◌∷◌, IfOk, length};
ghost use Rattle.std.specs.Prelude.{vec_capacity, vec_len};
ghost use Rattle.std.specs.Vec.Iter.{into_iter_items};
ghost use Rattle.tracker_model.specs.Settings.{AreLimits};
ghost use Rattle.server.specs.Devices.{job_count};
ghost use Rattle.server.specs.Opening.{AddsJobs, AreJobs, AreLinkJobs, AreWireJobs, IsOpened};

use crate::devices::Devices;
use crate::sharing::{add_cleaner, add_sync_jobs};
use ot_io::{ReplaySettings, ServeSettings};
use serve::{Job, Scratch};
use shards::{Pass, Shards};
use std::alloc::{AllocError, Global};
use std::vec::IntoIter;

/// All that is taken for the jobs of a server before the first begins, so that no memory is wanting
/// from then on.
#[derive(Drop)]
pub(crate) struct Opened<W, L, C> {
    pub(crate) shards: Shards,
    /// Caller 0's pass, which makes no call.
    pub(crate) pass: Pass,
    /// That of the job which waits for the input's end, caller 1's. It makes no call either.
    pub(crate) idle: Vec<Pass>,
    /// Those of the other jobs, in order.
    pub(crate) passes: Vec<Pass>,
    /// Where these jobs are put.
    pub(crate) room: Vec<Job<W, L, C>>,
}

/// Opens shards for so many jobs beside the one that waits for the input's end.
pub(crate) fn open_shards<W, L, C>(
    alloc: Global,
    settings: &ServeSettings,
    jobs: u32,
) -> Result<Opened<W, L, C>, AllocError>
    requires few_bits { settings.now.replay.bits ≤ 10 }
    requires limits { AreLimits settings.now.replay.limits }
    requires few { jobs ≤ 1_022 }
    ensures { IfOk result (IsOpened settings.now jobs) }
{
    let ReplaySettings { bits, limits, .. } = settings.replay;
    let notes = settings.sync.is_some();
    let (shards, mut pass) = Shards::new(alloc, bits, limits, notes, 2 + jobs)?;
    let idle = shards.split(alloc, &mut pass, 1)?;
    let passes = shards.split(alloc, &mut pass, jobs)?;
    let room = Vec::with_capacity(alloc, jobs as usize)?;
    Ok(Opened {
        shards,
        pass,
        idle,
        passes,
        room,
    })
}

/// The jobs of these devices, in the room: first a worker for each wire, then one for each
/// listener, then the cleaner, and last those that share with other nodes.
pub(crate) fn new_jobs<W: Drop, L: Drop, C: Drop>(
    room: Vec<Job<W, L, C>>,
    seed: u64,
    devices: Devices<W, L, C>,
    passes: Vec<Pass>,
) -> Vec<Job<W, L, C>>
    requires empty { room.items ≡ [] }
    requires room { vec_len devices.clocks ≤ vec_capacity room }
    requires clocks { vec_len devices.clocks ≡
        job_count (vec_len devices.wires) (vec_len devices.listeners) (vec_len devices.sync_wires) }
    requires passes { vec_len passes ≡ vec_len devices.clocks }
    requires sync_wires { (vec_len devices.sync_wires ≡ 0) ⊎ (vec_len devices.sync_wires ≡ 2) }
    ensures { AreJobs devices.wires.items devices.listeners.items devices.sync_wires.items
        passes.items result.items }
{
    let Devices {
        wires,
        listeners,
        sync_wires,
        clocks,
    } = devices;
    let mut passes = passes.into_iter();
    let mut clocks = clocks.into_iter();
    let room = add_wire_jobs(room, seed, wires, &mut passes, &mut clocks);
    let room = add_listener_jobs(room, seed, listeners, &mut passes, &mut clocks);
    let room = add_cleaner(room, &mut passes, &mut clocks);
    add_sync_jobs(room, sync_wires, &mut passes, &mut clocks)
}

/// Puts a job for each wire into the room, with the next passes and clocks.
fn add_wire_jobs<W: Drop, L: Drop, C: Drop>(
    mut room: Vec<Job<W, L, C>>,
    seed: u64,
    wires: Vec<W>,
    passes: &mut IntoIter<Pass>,
    clocks: &mut IntoIter<C>,
) -> Vec<Job<W, L, C>>
    requires room { vec_len room + vec_len wires ≤ vec_capacity room }
    requires passes { vec_len wires ≤ length (into_iter_items passes.old) }
    requires clocks { vec_len wires ≤ length (into_iter_items clocks.old) }
    ensures jobs { AddsJobs (AreWireJobs wires.items) room.items result.items
        (into_iter_items passes.old) (into_iter_items passes.new)
        (into_iter_items clocks.old) (into_iter_items clocks.new) }
    ensures capacity { vec_capacity room ≤ vec_capacity result }
{
    for wire in wires {
        let pass = take_next(passes);
        let clock = take_next(clocks);
        let scratch = Scratch::new(seed_of(seed, pass.caller()));
        room.push_reserved(Job::Udp {
            pass,
            wire,
            clock,
            scratch,
        });
    }
    room
}

/// Puts a job for each listener into the room, likewise.
fn add_listener_jobs<W: Drop, L: Drop, C: Drop>(
    mut room: Vec<Job<W, L, C>>,
    seed: u64,
    listeners: Vec<L>,
    passes: &mut IntoIter<Pass>,
    clocks: &mut IntoIter<C>,
) -> Vec<Job<W, L, C>>
    requires room { vec_len room + vec_len listeners ≤ vec_capacity room }
    requires passes { vec_len listeners ≤ length (into_iter_items passes.old) }
    requires clocks { vec_len listeners ≤ length (into_iter_items clocks.old) }
    ensures jobs { AddsJobs (AreLinkJobs listeners.items) room.items result.items
        (into_iter_items passes.old) (into_iter_items passes.new)
        (into_iter_items clocks.old) (into_iter_items clocks.new) }
    ensures capacity { vec_capacity room ≤ vec_capacity result }
{
    for listener in listeners {
        let pass = take_next(passes);
        let clock = take_next(clocks);
        let scratch = Scratch::new(seed_of(seed, pass.caller()));
        room.push_reserved(Job::Http {
            pass,
            listener,
            clock,
            scratch,
        });
    }
    room
}

/// The next of those that are left.
pub(crate) fn take_next<T: Drop>(left: &mut IntoIter<T>) -> T
    requires { 0 < length (into_iter_items left.old) }
    ensures { into_iter_items left.old ≡ result ∷ into_iter_items left.new }
{
    match left.next() {
        Some(next) => next,
        None => unreachable!(),
    }
}

/// Where the random words of a caller's job begin: at the seed and the job's number, which is one
/// less than the caller's.
fn seed_of(seed: u64, caller: u32) -> u64 {
    seed.wrapping_add(u64::from(caller)).wrapping_sub(1)
}
