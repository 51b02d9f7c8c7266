//! What no clause says: words as a user writes them, and that each call succeeds.

mod sockets;

use crate::run::run;
use ot_io::{MemClock, MemOutside, MemSink, MemSource, Status};
use std::test::Fail;

/// A connect request, and its reply with a secret of zeros and with one of ones.
const CONNECT: &str = "U 0 192.0.2.1 5000 00000417271019800000000012345678\n";

const WITH_ZEROS: &str = "R 00000000123456783a09986f9ddc6775\n";

const WITH_ONES: &str = "R 0000000012345678fe4de9644c45ec83\n";

const ZEROS: &str = "secret=0000000000000000000000000000000000000000";

const ONES: &str = "secret=FFFFFFFFFFFFFFFFFFFFFFFFFFFFFFFFFFFFFFFF";

#[test]
fn words_and_what_they_give(rt: HostRuntime) -> Result<(), Fail> {
    for (shows, words, status, out, told) in [
        (
            "no secret",
            ["replay"].as_slice(),
            Status::Done,
            WITH_ZEROS,
            "",
        ),
        ("zeros", &["replay", ZEROS], Status::Done, WITH_ZEROS, ""),
        ("ones", &["replay", ONES], Status::Done, WITH_ONES, ""),
        (
            "no words",
            &[],
            Status::Words { at: 0 },
            "",
            "opentracker: word 0 refused\n",
        ),
        (
            "a number past its range",
            &["replay", "bits=11"],
            Status::Words { at: 1 },
            "",
            "opentracker: word 1 refused\n",
        ),
        (
            "a setting twice",
            &["replay", ZEROS, ZEROS],
            Status::Words { at: 2 },
            "",
            "opentracker: word 2 refused\n",
        ),
        (
            "a server without a secret",
            &["serve", "udp=127.0.0.1:6969"],
            Status::Words { at: 2 },
            "",
            "opentracker: word 2 refused\n",
        ),
        (
            "a server that gets no wires",
            &["serve", ZEROS, "udp=127.0.0.1:6969"],
            Status::Device,
            "",
            "opentracker: device fault\n",
        ),
    ] {
        let mut input = MemSource::new(CONNECT.as_bytes(), &[], &[]);
        let mut output = MemSink::with_capacity(rt.alloc(), 100, 100, &[])?;
        let mut err = MemSink::with_capacity(rt.alloc(), 100, 100, &[])?;
        let mut outside = MemOutside::new(rt.alloc(), MemClock::new(0, 0), Vec::new(rt.alloc()));
        let ended = run(
            &rt,
            rt.alloc(),
            words,
            &mut input,
            &mut output,
            &mut err,
            &mut outside,
        );
        assert_eq!(&rt; ended, status, "{shows}");
        assert_eq!(&rt; output.written(), out.as_bytes(), "{shows}");
        assert_eq!(&rt; err.written(), told.as_bytes(), "{shows}");
    }
    Ok(())
}

/// What a drill without requests writes.
const NO_LOAD: &str = "\
    phase 0 torrents 0 complete 0 downloaded 0 incomplete 0\n\
    phase 1 torrents 0 complete 0 downloaded 0 incomplete 0\n\
    phase 2 torrents 0 complete 0 downloaded 0 incomplete 0\n\
    phase 3 torrents 0 complete 0 downloaded 0 incomplete 0\n\
    phase 4 torrents 0 complete 0 downloaded 0 incomplete 0\n\
    phase 5 torrents 0 complete 0 downloaded 0 incomplete 0\n\
    phase 6 torrents 0 complete 0 downloaded 0 incomplete 0\n\
    phase 7 torrents 0 complete 0 downloaded 0 incomplete 0\n\
    calls 8\n";

#[test]
fn a_load_is_run(rt: HostRuntime) -> Result<(), Fail> {
    let words = ["drill", "7", "0", "3", "bits=0"];
    let mut input = MemSource::new(&[], &[], &[]);
    let mut output = MemSink::with_capacity(rt.alloc(), 1_000, 100, &[])?;
    let mut err = MemSink::with_capacity(rt.alloc(), 100, 100, &[])?;
    let mut outside = MemOutside::new(rt.alloc(), MemClock::new(0, 0), Vec::new(rt.alloc()));
    let ended = run(
        &rt,
        rt.alloc(),
        &words,
        &mut input,
        &mut output,
        &mut err,
        &mut outside,
    );
    assert_eq!(&rt; ended, Status::Done);
    assert_eq!(&rt; output.written(), NO_LOAD.as_bytes());
    assert_eq!(&rt; err.written(), "".as_bytes());
    Ok(())
}
