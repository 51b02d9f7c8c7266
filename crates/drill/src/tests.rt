//! What no clause says: texts as another program computes them, and that threads come to their end.
//! The expected texts are those of examples/expected_load.py.

ghost use Rattle.load_model.specs.Load.{CanDrill};

use super::*;
use load_model::DrillSettings;
use ot_io::{MemSink, Status};
use std::alloc::{AllocError, Global};
use std::process::Abort;
use std::sync::Wait;
use std::test::Fail;
use std::thread::Threads;

/// Seed 1, 40 requests and 2 buckets.
const FORTY: &str = "\
phase 0 torrents 4 complete 0 downloaded 0 incomplete 4
phase 1 torrents 7 complete 3 downloaded 2 incomplete 5
phase 2 torrents 10 complete 6 downloaded 5 incomplete 7
phase 3 torrents 13 complete 8 downloaded 6 incomplete 4
phase 4 torrents 17 complete 9 downloaded 6 incomplete 4
phase 5 torrents 19 complete 8 downloaded 6 incomplete 4
phase 6 torrents 20 complete 7 downloaded 6 incomplete 6
phase 7 torrents 22 complete 3 downloaded 6 incomplete 9
calls 56
";

/// Seed 1, 100,000 requests and 16 buckets.
const HUNDRED_THOUSAND: &str = "\
phase 0 torrents 64 complete 4216 downloaded 1475 incomplete 5757
phase 1 torrents 64 complete 7724 downloaded 2877 incomplete 10453
phase 2 torrents 64 complete 10651 downloaded 4189 incomplete 14275
phase 3 torrents 64 complete 10661 downloaded 5534 incomplete 14233
phase 4 torrents 64 complete 10757 downloaded 6892 incomplete 14179
phase 5 torrents 64 complete 10823 downloaded 8226 incomplete 14131
phase 6 torrents 64 complete 10769 downloaded 9579 incomplete 14189
phase 7 torrents 64 complete 10643 downloaded 10921 incomplete 14314
calls 100128
";

/// Seed 7, no requests and one bucket.
const NONE: &str = "\
phase 0 torrents 0 complete 0 downloaded 0 incomplete 0
phase 1 torrents 0 complete 0 downloaded 0 incomplete 0
phase 2 torrents 0 complete 0 downloaded 0 incomplete 0
phase 3 torrents 0 complete 0 downloaded 0 incomplete 0
phase 4 torrents 0 complete 0 downloaded 0 incomplete 0
phase 5 torrents 0 complete 0 downloaded 0 incomplete 0
phase 6 torrents 0 complete 0 downloaded 0 incomplete 0
phase 7 torrents 0 complete 0 downloaded 0 incomplete 0
calls 8
";

/// Runs a drill whose writes of these numbers fail, and checks how it ends, and that a front of the
/// text was written. Tells how many bytes.
fn check<R: Threads + Wait + Abort + Sync>(
    rt: &R,
    alloc: Global,
    settings: &DrillSettings,
    failing: &[u64],
    text: &str,
    want: Status,
    told: &str,
) -> Result<usize, AllocError>
    requires { CanDrill settings.now }
{
    let mut out = MemSink::with_capacity(alloc, 1_000, 1_000, failing)?;
    let mut err = MemSink::with_capacity(alloc, 100, 100, &[])?;
    let status = run_drill(rt, alloc, settings, &mut out, &mut err);
    assert_eq!(rt; status, want);
    assert!(rt; text.as_bytes().starts_with(out.written()));
    assert_eq!(rt; err.written(), told.as_bytes());
    Ok(out.written().len())
}

#[test]
fn workers_change_nothing(rt: HostRuntime) -> Result<(), Fail> {
    for workers in 1..9 {
        let settings = DrillSettings {
            seed: 1,
            count: 40,
            workers,
            bits: 1,
        };
        let len = check(&rt, rt.alloc(), &settings, &[], FORTY, Status::Done, "")?;
        assert_eq!(&rt; len, FORTY.len());
    }
    Ok(())
}

#[test]
fn a_hundred_thousand_are_asked(rt: HostRuntime) -> Result<(), Fail> {
    for workers in [1u32, 2, 7, 64] {
        let settings = DrillSettings {
            seed: 1,
            count: 100_000,
            workers: workers.max(1).min(64),
            bits: 4,
        };
        let len = check(
            &rt,
            rt.alloc(),
            &settings,
            &[],
            HUNDRED_THOUSAND,
            Status::Done,
            "",
        )?;
        assert_eq!(&rt; len, HUNDRED_THOUSAND.len(), "{workers}");
    }
    Ok(())
}

#[test]
fn none_are_asked_and_writes_fail(rt: HostRuntime) -> Result<(), Fail> {
    let settings = DrillSettings {
        seed: 7,
        count: 0,
        workers: 3,
        bits: 0,
    };
    let done = check(&rt, rt.alloc(), &settings, &[], NONE, Status::Done, "")?;
    assert_eq!(&rt; done, NONE.len());
    for (failing, len) in [(0, 0), (1, 56), (8, 448)] {
        let written = check(
            &rt,
            rt.alloc(),
            &settings,
            &[failing],
            NONE,
            Status::WriteFault,
            "opentracker: write fault\n",
        )?;
        assert_eq!(&rt; written, len);
    }
    Ok(())
}
