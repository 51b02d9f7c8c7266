//! What no clause says: that turns are got, by threads too, and that their calls are all there.

ghost use Rattle.std.specs.Prelude.{◌≡◌, ◌≢◌, ◌+◌, ◌<◌, ◌≤◌, All, false, length};
ghost use Rattle.turn_lock.specs.Shape.{first_turn};

use super::*;
use ot_base::Minute;
use std::alloc::Global;
use std::process::Abort;
use std::sync::Wait;
use std::test::Fail;
use std::thread;
use std::thread::Threads;
use tracker_model::{Answer, Call, Stands};

/// A value that keeps its history: of each entry the caller and the minute.
#[derive(Drop)]
struct Log {
    calls: Vec<(u32, u32)>,
}

impl Stands for Log {
    ghost use Rattle.std.specs.Prelude.{[], map};

    ghost settings = { λ _. [] };

    ghost stands = { λ log history.
        log.calls.items ≡ map (λ x. (x.caller, x.minute.0)) history };
}

/// What a thread has.
#[derive(Drop)]
struct Job {
    turn: Turn<Log>,
    caller: u32,
    ghost own: { turn.caller ≡ caller },
    ghost split: { caller ≢ 0 },
    ghost free: { turn.holds ≡ false },
}

fn new_log(rt: &impl Abort, alloc: Global, callers: u32) -> (TurnLock<Log>, Turn<Log>)
    requires some { 1 ≤ callers }
    requires few { callers ≤ 1024 }
    ensures callers { result.0.callers ≡ callers }
    ensures turn { result.1 ≡ first_turn result.0 }
{
    let log = Log {
        calls: Vec::new(alloc),
    };
    TurnLock::new(alloc, log, callers).expect(rt, "memory")
}

/// Makes one call, in the minute of its count.
fn call<R: Wait + Abort>(
    rt: &R,
    lock: &TurnLock<Log>,
    turn: &mut Turn<Log>,
    caller: u32,
    count: u32,
) -> u64
    requires lock { turn.old.lock ≡ lock.now }
    requires free { turn.old.holds ≡ false }
    requires caller { turn.old.caller ≡ caller }
    ensures lock { turn.new.lock ≡ turn.old.lock }
    ensures free { turn.new.holds ≡ false }
    ensures caller { turn.new.caller ≡ caller }
    ensures out { turn.new.out ≡ turn.old.out }
{
    let mut log = lock.take(rt, turn);
    log.calls.push((caller, count)).expect(rt, "memory");
    lock.give(turn, log, Minute(count), &Call::Scan, &Answer::Applied)
}

fn work<R: Wait + Abort>(rt: &R, lock: &TurnLock<Log>, job: &mut Job, calls: u32)
    requires { job.old.turn.lock ≡ lock.now }
    ensures { job.new.turn.lock ≡ job.old.turn.lock }
{
    for count in 0..calls {
        call(rt, lock, &mut job.turn, job.caller, count);
    }
}

#[test]
fn calls_stand_in_order(rt: HostRuntime) -> Result<(), Fail> {
    let (lock, mut first) = new_log(&rt, rt.alloc(), 2);
    let mut second = lock.split(&mut first, 1);
    let places = [
        call(&rt, &lock, &mut second, 1, 7),
        call(&rt, &lock, &mut first, 0, 8),
        call(&rt, &lock, &mut second, 1, 9),
    ];
    assert_eq!(&rt; places, [0, 1, 2]);
    lock.join(&mut first, second);
    let (log, count) = lock.close(&rt, first);
    assert_eq!(&rt; count, 3);
    assert_eq!(&rt; log.calls.as_slice(), [(1, 7), (0, 8), (1, 9)].as_slice());
    Ok(())
}

/// Makes the turns of this many callers beside caller 0's.
fn new_jobs<R: Abort>(
    rt: &R,
    alloc: Global,
    lock: &TurnLock<Log>,
    first: &mut Turn<Log>,
    callers: u32,
) -> Vec<Job>
    requires lock { first.old.lock ≡ lock.now }
    requires free { first.old.holds ≡ false }
    requires spare { first.old.free ≡ 1 }
    requires callers { callers < lock.now.callers }
    ensures lock { first.new.lock ≡ lock.now }
    ensures free { first.new.holds ≡ false }
    ensures caller { first.new.caller ≡ first.old.caller }
    ensures out { first.new.out ≡ first.old.out + length result.items }
    ensures jobs { All (λ job. job.turn.lock ≡ lock.now) result.items }
{
    let mut jobs = Vec::new(alloc);
    for caller in 1..=callers {
        let turn = lock.split(first, caller);
        jobs.push(Job { turn, caller }).expect(rt, "memory");
    }
    jobs
}

/// Joins all turns to caller 0's.
fn join_all(lock: &TurnLock<Log>, first: &mut Turn<Log>, mut jobs: Vec<Job>)
    requires lock { first.old.lock ≡ lock.now }
    requires free { first.old.holds ≡ false }
    requires caller { first.old.caller ≡ 0 }
    requires out { first.old.out ≡ length jobs.items }
    requires jobs { All (λ job. job.turn.lock ≡ lock.now) jobs.items }
    ensures lock { first.new.lock ≡ lock.now }
    ensures free { first.new.holds ≡ false }
    ensures caller { first.new.caller ≡ 0 }
    ensures out { first.new.out ≡ 0 }
{
    while let Some(job) = jobs.pop() {
        let Job { turn, caller: _ } = job;
        lock.join(first, turn);
    }
}

/// All callers make their calls, each in a thread of its own where one can be made.
fn work_all<R: Threads + Wait + Abort + Sync>(
    rt: &R,
    lock: &TurnLock<Log>,
    jobs: &mut [Job],
    calls: u32,
)
    requires { All (λ job. job.turn.lock ≡ lock.now) jobs.old }
    ensures { All (λ job. job.turn.lock ≡ lock.now) jobs.new }
{
    let threads = jobs.len().max(1);
    thread::for_each_mut(
        rt,
        jobs,
        threads,
        &|_, job: &mut Job|
            requires { job.now.turn.lock ≡ lock.now }
            ensures { job.exit.now.turn.lock ≡ lock.entry.now }
        { work(rt, lock, job, calls) },
    );
}

/// The history of as many callers, each of which made as many calls.
fn history<R: Threads + Wait + Abort + Sync>(
    rt: &R,
    alloc: Global,
    callers: u32,
    calls: u32,
) -> Vec<(u32, u32)>
    requires { callers < 1024 }
{
    let (lock, mut first) = new_log(rt, alloc, callers + 1);
    let mut jobs = new_jobs(rt, alloc, &lock, &mut first, callers);
    work_all(rt, &lock, jobs.as_mut_slice(), calls);
    join_all(&lock, &mut first, jobs);
    let (log, count) = lock.close(rt, first);
    assert_eq!(rt; count, log.calls.len() as u64);
    log.calls
}

#[test]
fn threads_call_in_turns(rt: HostRuntime) -> Result<(), Fail> {
    for (callers, calls) in [(2u32, 1_000u32), (8, 10_000)] {
        let history = history(&rt, rt.alloc(), callers, calls);
        assert_eq!(&rt; history.len() as u64, u64::from(callers) * u64::from(calls));
        for caller in 1..=callers {
            let own = history.iter().filter(|call| call.0 == caller);
            assert!(&rt;
                own.map(|call| call.1).eq(0..calls),
                "caller {caller} of {callers}"
            );
        }
    }
    Ok(())
}
