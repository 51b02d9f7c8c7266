//! What no clause says: that each call succeeds, and the bytes of replies worked out by hand. The
//! answers are those of a tracker of the tests' own.

ghost use Rattle.std.specs.Prelude.{false, ⊤};
ghost use Rattle.std.specs.List.{AllByRecursion};
ghost use Rattle.tracker_core.specs.UdpPlan.{IsComplete, calls_of};
ghost use Rattle.tracker_model.specs.Calls.{IsWellFormed};

use crate::{Outcome, bucket_count, carry_out, clean_all, full_part, serve};
use ot_base::{Addr, Counts, Endpoint, InfoHash, Minute, Peers, Refusal, Row, Rows};
use std::alloc::{AllocError, Global};
use std::test::Fail;
use tracker_core::{UdpPlan, plan_connection};
use tracker_model::{Call, ReportAnswer, Tracker};
use udp_wire::{Quiet, REPLY_ROOM, ScrapeHashes};

/// A tracker of two buckets with a torrent in each, whose answers tell the number of the call, from
/// 0, as downloads, and the minute as leechers. It knows any torrent but that of zeros, and nobody
/// else is told.
#[derive(Drop)]
struct Numbered {
    alloc: Global,
    calls: u32,
}

impl Numbered {
    fn new(alloc: Global) -> Self {
        Numbered { alloc, calls: 0 }
    }

    /// What the next call is told of a torrent.
    fn counts(&mut self, minute: Minute) -> Counts {
        let downloaded = self.calls;
        self.calls = self.calls.saturating_add(1);
        Counts {
            complete: 0,
            downloaded,
            incomplete: minute.0,
        }
    }
}

impl Tracker for Numbered {
    ghost settings = { λ tracker.
        record { limits = record { peers = 1; torrents = 1 }; sync = false } };

    ghost bits = { λ tracker. 1 };

    ghost made = { λ old bucket minute call answer new. ⊤ };

    fn bits(&self) -> u32 {
        1
    }

    fn report(
        &mut self,
        minute: Minute,
        call: Call,
        _words: &[u32; 200],
        _told: &mut Peers,
    ) -> ReportAnswer {
        match call {
            Call::Announce { .. } | Call::Stop { .. } => ReportAnswer::Told {
                counts: self.counts(minute),
            },
            Call::Scrape { .. } | Call::Scan | Call::Clean | Call::Sync { .. } | Call::Drain => {
                unreachable!()
            }
        }
    }

    fn scrape(&mut self, minute: Minute, hash: &InfoHash) -> (Counts, bool) {
        (self.counts(minute), hash.0[0] != 0)
    }

    fn scan(&mut self, bucket: u32, minute: Minute) -> Result<Rows, AllocError> {
        let mut rows = Rows::new(self.alloc);
        rows.push(Row {
            hash: InfoHash([if bucket == 0 { b'0' } else { b'f' }; 20]),
            counts: self.counts(minute),
        })?;
        Ok(rows)
    }

    fn clean(&mut self, _bucket: u32, _minute: Minute) -> u64 {
        u64::MAX
    }
}

/// Who asks, and the words by which peers are chosen.
const FROM: Endpoint = Endpoint {
    addr: Addr::V4([192, 0, 2, 1]),
    port: 6881,
};

const WORDS: [u32; 200] = [0; 200];

const MINUTE: Minute = Minute(9);

/// The reply to a datagram of this plan, with no bytes where there is none.
fn reply_to(
    alloc: Global,
    tracker: &mut Numbered,
    plan: &UdpPlan<'_>,
) -> Result<Vec<u8>, AllocError>
    requires formed { AllByRecursion IsWellFormed (calls_of plan.now) }
    requires complete { IsComplete plan.now }
{
    let mut reply = [0; REPLY_ROOM];
    match carry_out(tracker, MINUTE, plan, &WORDS, &mut reply) {
        Outcome::Replied(len) => reply[..len].to_vec(alloc),
        Outcome::Silent(_) | Outcome::NoMemory => Ok(Vec::new(alloc)),
    }
}

/// A scrape tells each torrent in the order of the datagram, repeats too (BEP 15).
#[test]
fn datagrams_are_answered(rt: HostRuntime) -> Result<(), Fail> {
    let mut tracker = Numbered::new(rt.alloc());
    let silent = UdpPlan::Silent(Quiet::Short);
    let reply = reply_to(rt.alloc(), &mut tracker, &silent)?;
    assert_eq!(rt; reply.as_slice(), b"".as_slice());
    let connected = UdpPlan::Connected {
        transaction: 0x1234_5678,
        connection: 0x0102_0304_0506_0708,
    };
    let reply = reply_to(rt.alloc(), &mut tracker, &connected)?;
    assert_eq!(rt;
        reply.as_slice(),
        b"\0\0\0\0\x12\x34\x56\x78\x01\x02\x03\x04\x05\x06\x07\x08".as_slice()
    );
    let refused = UdpPlan::Refused {
        transaction: 0x1234_5678,
        why: Refusal::BadPort,
    };
    let reply = reply_to(rt.alloc(), &mut tracker, &refused)?;
    assert_eq!(rt;
        reply.as_slice(),
        b"\0\0\0\x03\x12\x34\x56\x78bad port".as_slice()
    );
    let announce = UdpPlan::Announce {
        transaction: 0x1234_5678,
        call: Call::Stop {
            hash: InfoHash([0xff; 20]),
            who: FROM,
        },
    };
    let reply = reply_to(rt.alloc(), &mut tracker, &announce)?;
    assert_eq!(rt;
        reply.as_slice(),
        b"\0\0\0\x01\x12\x34\x56\x78\0\0\x07\x08\0\0\0\x09\0\0\0\0".as_slice()
    );
    let mut datagram = [0xff; 76];
    datagram[36..56].fill(0x11);
    let scrape = UdpPlan::Scrape {
        transaction: 0x1234_5678,
        hashes: ScrapeHashes::within(&datagram),
    };
    let reply = reply_to(rt.alloc(), &mut tracker, &scrape)?;
    assert_eq!(rt;
        reply.as_slice(),
        b"\0\0\0\x02\x12\x34\x56\x78\
        \0\0\0\0\0\0\0\x01\0\0\0\x09\
        \0\0\0\0\0\0\0\x02\0\0\0\x09\
        \0\0\0\0\0\0\0\x03\0\0\0\x09"
            .as_slice()
    );
    Ok(())
}

/// A scrape tells the known torrents in the order of their hashes, each once.
#[test]
fn connections_are_served(rt: HostRuntime) -> Result<(), Fail> {
    let mut tracker = Numbered::new(rt.alloc());
    for (sent, code, body) in [
        ("GET /announce", "", ""),
        ("POST /announce HTTP/1.1\r\n\r\n", "400 Bad Request", ""),
        ("GET /stats HTTP/1.1\r\n\r\n", "404 Not Found", ""),
        ("GET /scrape HTTP/1.1\r\n\r\n", "404 Not Found", ""),
        (
            "GET /announce HTTP/1.1\r\n\r\n",
            "200 OK",
            "d14:failure reason17:missing info_hashe",
        ),
        (
            "GET /announce?info_hash=ffffffffffffffffffff&port=1 HTTP/1.1\r\n\r\n",
            "200 OK",
            "d8:completei0e10:downloadedi0e10:incompletei9e\
            8:intervali1800e12:min intervali900e5:peers0:e",
        ),
        (
            "GET /scrape?info_hash=ffffffffffffffffffff&info_hash=00000000000000000000\
            &info_hash=%00%00%00%00%00%00%00%00%00%00%00%00%00%00%00%00%00%00%00%00\
            &info_hash=ffffffffffffffffffff HTTP/1.1\r\n\r\n",
            "200 OK",
            "d5:filesd20:00000000000000000000\
            d8:completei0e10:downloadedi2e10:incompletei9ee20:ffffffffffffffffffff\
            d8:completei0e10:downloadedi3e10:incompletei9eeee",
        ),
    ] {
        let plan = plan_connection(rt.alloc(), sent.as_bytes(), FROM, None, false)?;
        let expected = if code.is_empty() {
            None
        } else {
            let len = body.len();
            Some(format!(in rt.alloc();
                "HTTP/1.1 {code}\r\nContent-Type: text/plain\r\nContent-Length: \
                {len}\r\nConnection: close\r\n\r\n{body}"
            )?)
        };
        match serve(rt.alloc(), &mut tracker, MINUTE, &plan, &WORDS)? {
            None => assert!(rt; expected.is_none(), "{sent}"),
            Some(reply) => match expected {
                None => assert!(rt; false, "{sent}"),
                Some(text) => assert_eq!(rt; reply.as_slice(), text.as_bytes(), "{sent}"),
            },
        }
    }
    Ok(())
}

#[test]
fn each_bucket_is_told_and_cleaned(rt: HostRuntime) -> Result<(), Fail> {
    let mut tracker = Numbered::new(rt.alloc());
    assert_eq!(rt; bucket_count(&tracker), 2);
    let part = full_part(rt.alloc(), &mut tracker, 0, MINUTE)?;
    assert_eq!(rt;
        part.as_slice(),
        b"20:00000000000000000000d8:completei0e10:downloadedi0e10:incompletei9ee".as_slice()
    );
    let part = full_part(rt.alloc(), &mut tracker, 1, MINUTE)?;
    assert_eq!(rt;
        part.as_slice(),
        b"20:ffffffffffffffffffffd8:completei0e10:downloadedi1e10:incompletei9ee".as_slice()
    );
    assert_eq!(rt; clean_all(&mut tracker, MINUTE), 36_893_488_147_419_103_230);
    Ok(())
}
