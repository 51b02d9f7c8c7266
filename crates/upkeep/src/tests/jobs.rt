//! When the jobs end, and how often they go over the buckets.

ghost use Rattle.std.specs.Prelude.{◌≡◌};

use super::*;
use ot_io::Clock;
use std::sync::atomic::{AtomicBool, Ordering};

/// A clock whose every look comes so many seconds after the one before. It raises the flag in the
/// last of so many pauses.
#[derive(Drop)]
struct Bell<'a> {
    seconds: u64,
    step: u64,
    pauses: u32,
    stop: &'a AtomicBool,
}

impl Clock for Bell<'_> {
    ghost told = { λ clock. clock.seconds };

    fn now(&mut self) -> u64 {
        self.seconds = self.seconds.saturating_add(self.step);
        self.seconds
    }

    fn pause(&mut self) {
        self.pauses = self.pauses.saturating_sub(1);
        if self.pauses == 0 {
            self.stop.store(true, Ordering::SeqCst);
        }
    }
}

/// Which job is done.
#[derive(Clone, Copy)]
enum Task {
    Clean,
    Send,
    Receive,
}

/// A seed is announced, and then a job is done whose flag is raised in this pause, or before it
/// begins. Gives how many calls the first bucket has had then.
fn work<R: Wait>(
    rt: &R,
    alloc: Global,
    task: Task,
    wire: &mut MemWire,
    step: u64,
    pauses: u32,
) -> Result<u64, AllocError> {
    let (shards, mut pass) = shards(alloc)?;
    ask(rt, &shards, &mut pass, announce(SEED.port))?;
    let stop = AtomicBool::new(pauses == 0);
    let mut clock = Bell {
        seconds: 0,
        step,
        pauses,
        stop: &stop,
    };
    let nodes = [NODE];
    match task {
        Task::Clean => keep_clean(rt, &shards, &mut pass, &mut clock, &stop),
        Task::Send => keep_sending(rt, &shards, &mut pass, wire, &mut clock, OWN, &nodes, &stop),
        Task::Receive => keep_receiving(
            rt, &shards, &mut pass, wire, &mut clock, OWN, &nodes, &stop,
        ),
    }
    ask(rt, &shards, &mut pass, Call::Scrape { hash: HASH })
}

#[test]
fn jobs_end_in_time(rt: HostRuntime) -> Result<(), Fail> {
    let alloc = rt.alloc();
    // One round at the start, one for each minute seen, and one as the flag is seen.
    for (step, pauses, rounds) in [(0, 0, 2), (0, 1, 2), (0, 3, 2), (60, 3, 4), (30, 4, 4)] {
        let mut none = wire(alloc, Vec::new(alloc), 0, &[])?;
        let calls = work(&rt, alloc, Task::Clean, &mut none, step, pauses)?;
        assert_eq!(&rt; calls, 1 + rounds, "cleaner, {step} {pauses}");
    }
    // The round that begins with the flag up is the last. The first one has a note to send. Between
    // two there are five pauses, or less where the flag is up.
    let told = Batch { node: OWN, ..SEED }.incoming(alloc)?.bytes;
    for (pauses, rounds) in [(0, 1), (1, 2), (5, 2), (6, 3), (16, 5)] {
        let mut one = wire(alloc, Vec::new(alloc), 1, &[])?;
        let calls = work(&rt, alloc, Task::Send, &mut one, 60, pauses)?;
        assert_eq!(&rt; calls, 1 + rounds, "sender, {pauses}");
        assert_eq!(&rt; (one.sent().len(), one.faults()), (1, 0));
        assert_eq!(&rt; one.sent()[0].to, NODE);
        assert_eq!(&rt; one.sent()[0].bytes.as_slice(), told.as_slice());
    }
    // All that waits is applied, with the flag up too. A fault is gone over while it is down.
    for (failing, pauses, idles, left, heard) in [
        (9, 0, 1, 0, 3),
        (0, 2, 2, 0, 3),
        (1, 0, 0, 1, 2),
    ] {
        let mut incoming = Vec::new(alloc);
        incoming.push(SEED.incoming(alloc)?)?;
        incoming.push(SEED.incoming(alloc)?)?;
        let mut some = wire(alloc, incoming, 0, &[failing])?;
        let calls = work(&rt, alloc, Task::Receive, &mut some, 0, pauses)?;
        assert_eq!(&rt;
            (calls, some.idles(), some.waiting().len()),
            (heard, idles, left)
        );
    }
    Ok(())
}
