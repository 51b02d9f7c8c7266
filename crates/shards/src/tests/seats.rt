//! A seat, through what answers requests knows of a tracker.

ghost use Rattle.std.specs.Prelude.{◌<◌, ◌^◌};

use super::*;
use ot_base::Peers;
use tracker_model::{ReportAnswer, Tracker};

/// Announces a peer to a tracker, and asks for it in each other way.
fn visit<R: Abort, T: Tracker>(rt: &R, tracker: &mut T, bucket: u32) -> Result<(), AllocError>
    requires within { bucket < 2 ^ T.bits tracker.old }
{
    let mut told = Peers::new();
    let answer = tracker.report(Minute(0), announce(A, 1), &WORDS, &mut told);
    assert!(rt; matches!(answer, ReportAnswer::Told { .. }));
    let (counts, known) = tracker.scrape(Minute(0), &A);
    assert_eq!(rt; (counts.complete, counts.incomplete, known), (0, 1, true));
    let live = tracker.clean(bucket, Minute(44));
    let rows = tracker.scan(bucket, Minute(45))?.len();
    let left = tracker.clean(bucket, Minute(45));
    assert_eq!(rt; (live, rows, left), (1, 1, 0));
    Ok(())
}

#[test]
fn a_seat_is_a_tracker(rt: HostRuntime) -> Result<(), Fail> {
    let (shards, mut pass) = open(&rt, rt.alloc(), 10, 1);
    let mut seat = Seat {
        rt: &rt,
        shards: &shards,
        pass: &mut pass,
    };
    assert_eq!(&rt; Tracker::bits(&seat), 10);
    visit(&rt, &mut seat, 68)?;
    Ok(())
}
