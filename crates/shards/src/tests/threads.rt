//! Callers in several threads.

ghost use Rattle.std.specs.Prelude.{◌≡◌, ◌≢◌, All, false};
ghost use Rattle.shards.specs.Shape.{numbers_of};
ghost use Rattle.tracker_model.specs.Settings.{Settings};

use super::*;
use bucket::Bucket;
use std::sync::atomic::{AtomicBool, Ordering};
use std::thread;
use std::thread::Threads;
use turn_lock::{Turn, TurnLock};

/// Announces the caller's own peer so many times, in 256 torrents by turns.
fn work<R: Wait>(rt: &R, shards: &Shards, pass: &mut Pass, calls: u32)
    requires { pass.old.shards ≡ shards.now }
    ensures { (pass.new.shards ≡ shards.now) × (pass.new.caller ≡ pass.old.caller) }
{
    let [n, ..] = pass.caller().to_le_bytes();
    for count in 0..calls {
        let [first, ..] = count.to_le_bytes();
        shards.call(
            rt,
            pass,
            Minute(0),
            announce(InfoHash([first; 20]), n),
            &WORDS,
        );
    }
}

/// All callers make their calls, each in a thread of its own where one can be made.
fn work_all<R: Threads + Wait + Sync>(rt: &R, shards: &Shards, passes: &mut [Pass], calls: u32)
    requires { All (λ one. (one.shards ≡ shards.now) × (one.caller ≢ 0)) passes.old }
    ensures { All (λ one. (one.shards ≡ shards.now) × (one.caller ≢ 0)) passes.new }
{
    let threads = passes.len().max(1);
    thread::for_each_mut(
        rt,
        passes,
        threads,
        &|_, pass: &mut Pass|
            requires { (pass.now.shards ≡ shards.now) × (pass.now.caller ≢ 0) }
            ensures { (pass.exit.now.shards ≡ shards.entry.now) × (pass.exit.now.caller ≢ 0) }
        { work(rt, shards, pass, calls) },
    );
}

#[test]
fn threads_call_in_turns(rt: HostRuntime) -> Result<(), Fail> {
    let (shards, mut pass) = open(&rt, rt.alloc(), 2, 3);
    let mut others = split(&rt, rt.alloc(), &shards, &mut pass, 2);
    work_all(&rt, &shards, others.as_mut_slice(), 500);
    join_all(&shards, &mut pass, others);
    let Ok(Closed { shelf, calls }) = shards.close(&rt, pass) else {
        unreachable!()
    };
    assert_eq!(&rt; calls, 1_000);
    for bucket in 0..1 << shelf.bits() {
        assert_eq!(&rt; shelf.bucket(bucket).held(), 128, "bucket {bucket}");
    }
    Ok(())
}

/// Whether the flag is set before it was looked at 1,000,000,000 times.
fn is_set_in_time(flag: &AtomicBool) -> bool {
    for _ in 0..1_000_000_000 {
        if flag.load(Ordering::SeqCst) {
            return true;
        }
    }
    false
}

/// Has the bucket of a lock until another one has answered, or for long enough. Whether it has.
fn hold<R: Wait>(
    rt: &R,
    lock: &TurnLock<Bucket>,
    turn: &mut Turn<Bucket>,
    taken: &AtomicBool,
    answered: &AtomicBool,
) -> bool
    requires lock { turn.old.lock ≡ lock.now }
    requires free { turn.old.holds ≡ false }
    requires first { turn.old.caller ≡ 0 }
    requires settings { (g : Settings) × (lock.now.settings ≡ numbers_of g) }
{
    let mut bucket = lock.take(rt, turn);
    taken.store(true, Ordering::SeqCst);
    let in_time = is_set_in_time(answered);
    let told = Answer::Cleaned {
        held: bucket.clean(0, Minute(0)),
    };
    lock.give(turn, bucket, Minute(0), &Call::Clean, &told);
    in_time
}

/// Makes a call on bucket 1 of two once bucket 0 is held.
fn call_once_taken<R: Wait>(
    rt: &R,
    shards: &Shards,
    pass: &mut Pass,
    taken: &AtomicBool,
    answered: &AtomicBool,
)
    requires { pass.old.shards ≡ shards.now }
{
    if is_set_in_time(taken) {
        let call = announce(InfoHash([0xff; 20]), 1);
        shards.call(rt, pass, Minute(0), call, &WORDS);
        answered.store(true, Ordering::SeqCst);
    }
}

/// Whether a call on one bucket is answered while a second thread holds another bucket.
fn is_answered_meanwhile<R: Threads + Wait + Sync>(
    rt: &R,
    shards: &Shards,
    pass: Pass,
    other: &mut Pass,
    taken: &AtomicBool,
    answered: &AtomicBool,
) -> bool
    requires pass { pass.shards ≡ shards.now }
    requires first { pass.caller ≡ 0 }
    requires other { other.old.shards ≡ shards.now }
{
    let Pass {
        mut turns,
        place: _place,
        caller: _caller,
        free: _free,
        callers: _callers,
        out: _out,
    } = pass;
    let lock = &shards.locks[0];
    let turn = &mut turns[0];
    let (in_time, _) = thread::join_mut(
        rt,
        &mut || hold(rt, lock, turn, taken, answered),
        &mut || call_once_taken(rt, shards, other, taken, answered),
    );
    in_time
}

#[test]
fn buckets_dont_wait(rt: HostRuntime) -> Result<(), Fail> {
    let (shards, mut pass) = open(&rt, rt.alloc(), 1, 2);
    let mut others = split(&rt, rt.alloc(), &shards, &mut pass, 1);
    let Some(mut other) = others.pop() else {
        unreachable!()
    };
    let (taken, answered) = (AtomicBool::new(false), AtomicBool::new(false));
    assert!(&rt; is_answered_meanwhile(&rt, &shards, pass, &mut other, &taken, &answered));
    Ok(())
}
