//! What no clause says: that each call succeeds, and bytes worked out by hand.

ghost use Rattle.std.specs.Prelude.{◌≡◌, IfOk, map};
ghost use Rattle.std.specs.List.Sorted.{IsStrictlySortedBy};
ghost use Rattle.std.specs.Option.{ForSome};
ghost use Rattle.ot_base.specs.Address.{family_of};
ghost use Rattle.ot_base.specs.Order.{hash_cmp};
ghost use Rattle.ot_base.specs.declared.address.Family.TheVariants.{Four};
ghost use Rattle.tracker_model.specs.Answers.{with_peers};
ghost use Rattle.tracker_core.specs.HttpText.{HasBody};

use super::*;
use access_list::{AccessList, ListReader, Mode};
use bencode_text::is_canonical;
use conn_id::mint;
use http_wire::{Code, write_reply};
use ot_base::{
    Addr, Counts, Endpoint, Family, InfoHash, Minute, Peers, Refusal, Row, Rows, Secret,
};
use std::alloc::{AllocError, Global};
use std::test::Fail;
use tracker_model::{Call, ReportAnswer};

/// The client that asks.
const FROM: Endpoint = Endpoint {
    addr: Addr::V4([192, 0, 2, 1]),
    port: 5000,
};

const SECRET: Secret = Secret([0; 20]);

const MINUTE: Minute = Minute(7);

/// What a plan comes to: a word of its own, or the text of its refusal.
fn outcome(plan: &HttpPlan) -> &'static str {
    match plan {
        HttpPlan::NotFound => "not found",
        HttpPlan::Refused(why) => why.text(),
        HttpPlan::Announce(Call::Stop { .. }) => "stop",
        HttpPlan::Announce(_) => "announce",
        HttpPlan::Scrape(_) => "scrape",
        HttpPlan::Full => "full",
    }
}

#[test]
fn targets_are_judged(rt: HostRuntime) -> Result<(), Fail> {
    let rows: [(&str, &[u8], &str); 22] = [
        ("no query", b"/announce", "missing info_hash"),
        ("no pair", b"/announce?&&=&&=", "missing info_hash"),
        ("no value", b"/announce?info_hash", "bad info_hash"),
        (
            "19 bytes",
            b"/announce?info_hash=aaaaaaaaaaaaaaaaaaa&port=1",
            "bad info_hash",
        ),
        (
            "21 bytes",
            b"/announce?info_hash=aaaaaaaaaaaaaaaaaaaaa&port=1",
            "bad info_hash",
        ),
        (
            "hash before port",
            b"/announce?port=0&info_hash=a",
            "bad info_hash",
        ),
        (
            "the first hash counts",
            b"/announce?info_hash=a&info_hash=aaaaaaaaaaaaaaaaaaaa&port=1",
            "bad info_hash",
        ),
        (
            "half an escape",
            b"/announce?info_hash=aaaaaaaaaaaaaaaaaa%1",
            "missing port",
        ),
        (
            "a percent sign",
            b"/announce?info_hash=aaaaaaaaaaaaaaaaaaa%",
            "missing port",
        ),
        (
            "no hex digits",
            b"/announce?info_hash=aaaaaaaaaaaaaaaaa%zz",
            "missing port",
        ),
        (
            "plus stays",
            b"/announce?info_hash=++++++++++++++++++++",
            "missing port",
        ),
        (
            "a semicolon cuts nothing",
            b"/announce?info_hash=aaaaaaaaaaaaaaaaa;po",
            "missing port",
        ),
        (
            "escapes in names",
            b"/announce?%69nfo_hash=aaaaaaaaaaaaaaaaaaaa&p%6Frt=1",
            "announce",
        ),
        (
            "a usual client",
            b"/announce?info_hash=%11%11%11%11%11%11%11%11%11%11%11%11%11%11%11%11%11%11%11%11\
            &peer_id=-TR4050-abcdefghijkl&port=51413&uploaded=0&downloaded=0&left=0&numwant=80\
            &key=1a2b3c4d&compact=1&supportcrypto=1&event=started",
            "announce",
        ),
        (
            "a stop",
            b"/announce?info_hash=aaaaaaaaaaaaaaaaaaaa&port=1&event=%73topped",
            "stop",
        ),
        (
            "no stop",
            b"/announce?info_hash=aaaaaaaaaaaaaaaaaaaa&port=1&event=Stopped",
            "announce",
        ),
        ("a scrape of none", b"/scrape?", "not found"),
        (
            "a scrape of one",
            b"/scrape?info_hash=aaaaaaaaaaaaaaaaaaaa",
            "scrape",
        ),
        (
            "a scrape with a bad hash",
            b"/scrape?info_hash=aaaaaaaaaaaaaaaaaaaa&info_hash=b",
            "bad info_hash",
        ),
        ("another path", b"/stats", "not found"),
        ("a longer path", b"/announce/?port=1", "not found"),
        ("no path", b"", "not found"),
    ];
    for (label, target, expected) in rows {
        let plan = plan_http(rt.alloc(), target, FROM, None, false)?;
        assert_eq!(rt; outcome(&plan), expected, "{label}");
    }
    let all = plan_http(rt.alloc(), b"/scrape?&", FROM, None, true)?;
    assert_eq!(rt; outcome(&all), "full");
    Ok(())
}

#[test]
fn ports_are_judged(rt: HostRuntime) -> Result<(), Fail> {
    let rows: [(&[u8], &str); 12] = [
        (b"", "missing port"),
        (b"port", "bad port"),
        (b"port=0", "bad port"),
        (b"port=1", "announce"),
        (b"port=00080", "announce"),
        (b"port=65535", "announce"),
        (b"port=65536", "bad port"),
        (b"port=18446744073709551616", "bad port"),
        (b"port=99999999999999999999", "bad port"),
        (b"port=-1", "bad port"),
        (b"port=80x&port=80", "bad port"),
        (b"port=80&port=80x", "announce"),
    ];
    for (pair, expected) in rows {
        let mut target = Vec::from_slice(rt.alloc(), b"/announce?info_hash=aaaaaaaaaaaaaaaaaaaa&")?;
        target.extend_from_slice(pair)?;
        let plan = plan_http(rt.alloc(), &target, FROM, None, false)?;
        assert_eq!(rt; outcome(&plan), expected, "{pair:?}");
    }
    Ok(())
}

#[test]
fn calls_of_announces(rt: HostRuntime) -> Result<(), Fail> {
    let rows: [(&[u8], bool, bool, u32); 16] = [
        (b"", false, false, 50),
        (b"left=0", true, false, 50),
        (b"left=000", true, false, 50),
        (b"left=", false, false, 50),
        (b"left=1", false, false, 50),
        (b"left=18446744073709551616", false, false, 50),
        (b"left=0&left=5", true, false, 50),
        (b"left=5&left=0", false, false, 50),
        (b"left=5&event=completed", true, true, 50),
        (b"left=5&event=started", false, false, 50),
        (b"event=paused", false, false, 50),
        (b"numwant=0", false, false, 0),
        (b"numwant=200", false, false, 200),
        (b"numwant=201", false, false, 200),
        (b"numwant=-1", false, false, 50),
        (b"numwant=10&numwant=20", false, false, 10),
    ];
    for (pairs, seed, completed, want) in rows {
        let mut target = Vec::from_slice(
            rt.alloc(),
            b"/announce?info_hash=aaaaaaaaaaaaaaaaaaaa&port=6881&",
        )?;
        target.extend_from_slice(pairs)?;
        let plan = plan_http(rt.alloc(), &target, FROM, None, false)?;
        let expected = Call::Announce {
            hash: InfoHash(*b"aaaaaaaaaaaaaaaaaaaa"),
            who: Endpoint {
                addr: FROM.addr,
                port: 6881,
            },
            seed,
            completed,
            want,
        };
        let as_expected = match plan {
            HttpPlan::Announce(call) => call == expected,
            _ => false,
        };
        assert!(rt; as_expected, "{pairs:?}");
    }
    Ok(())
}

#[test]
fn scraped_hashes_ascend(rt: HostRuntime) -> Result<(), Fail> {
    let target = b"/scrape?info_hash=%ff%ff%ff%ff%ff%ff%ff%ff%ff%ff%ff%ff%ff%ff%ff%ff%ff%ff%ff%ff\
        &info_hash=11111111111111111111&x=y\
        &info_hash=%FF%FF%FF%FF%FF%FF%FF%FF%FF%FF%FF%FF%FF%FF%FF%FF%FF%FF%FF%FF\
        &info_hash=%00%00%00%00%00%00%00%00%00%00%00%00%00%00%00%00%00%00%00%00";
    let expected = [
        InfoHash([0; 20]),
        InfoHash([b'1'; 20]),
        InfoHash([0xff; 20]),
    ];
    match plan_http(rt.alloc(), target, FROM, None, true)? {
        HttpPlan::Scrape(hashes) => assert!(rt; hashes.as_slice() == expected.as_slice()),
        plan => assert_eq!(rt; outcome(&plan), "scrape"),
    }
    Ok(())
}

/// A list of one torrent, whose hash is one hex digit 40 times.
fn list_of(alloc: Global, mode: Mode, digit: u8) -> Result<AccessList, Fail> {
    let mut reader = ListReader::new(alloc, mode);
    reader.line(&[digit; 40])?;
    Ok(reader.finish()?)
}

/// A datagram (BEP 15) that announces the torrent of 20 bytes 0x11, with an id of its address.
fn announce_bytes(event: u8, port: u8) -> [u8; 98] {
    let mut bytes = [0; 98];
    bytes[..8].copy_from_slice(&mint(&SECRET, FROM.addr, MINUTE).to_be_bytes());
    bytes[11] = 1;
    bytes[16..36].fill(0x11);
    bytes[83] = event;
    bytes[97] = port;
    bytes
}

/// A datagram that scrapes it.
fn scrape_bytes() -> [u8; 36] {
    let mut bytes = [0; 36];
    bytes[..8].copy_from_slice(&mint(&SECRET, FROM.addr, MINUTE).to_be_bytes());
    bytes[11] = 2;
    bytes[16..].fill(0x11);
    bytes
}

/// What a datagram's plan comes to: a word of its own, or the text of its refusal.
fn udp_outcome(plan: &UdpPlan) -> &'static str {
    match plan {
        UdpPlan::Silent(_) => "silent",
        UdpPlan::Connected { .. } => "connected",
        UdpPlan::Refused { why, .. } => why.text(),
        UdpPlan::Announce { call, .. } => match call {
            Call::Stop { .. } => "stop",
            _ => "announce",
        },
        UdpPlan::Scrape { .. } => "scrape",
    }
}

#[test]
fn lists_judge_datagrams(rt: HostRuntime) -> Result<(), Fail> {
    let denied = list_of(rt.alloc(), Mode::Deny, b'1')?;
    let allowed = list_of(rt.alloc(), Mode::Allow, b'1')?;
    let others = list_of(rt.alloc(), Mode::Allow, b'2')?;
    let announce = announce_bytes(2, 1);
    let stop = announce_bytes(3, 1);
    let no_port = announce_bytes(2, 0);
    let mut no_id = announce;
    no_id[0] ^= 1;
    let scrape = scrape_bytes();
    let rows: [(&str, &AccessList, &[u8], &str); 9] = [
        ("denied", &denied, &announce, "not authorized"),
        (
            "not among the allowed",
            &others,
            &announce,
            "not authorized",
        ),
        ("allowed", &allowed, &announce, "announce"),
        ("a stop that is denied", &denied, &stop, "not authorized"),
        ("a stop that is allowed", &allowed, &stop, "stop"),
        ("a scrape isn't judged", &denied, &scrape, "scrape"),
        ("by those allowed neither", &others, &scrape, "scrape"),
        ("port 0 goes first", &denied, &no_port, "bad port"),
        ("the id goes first", &denied, &no_id, "bad connection id"),
    ];
    for (label, access, bytes, expected) in rows {
        let plan = plan_udp(bytes, FROM, MINUTE, &SECRET, Some(access));
        assert_eq!(rt; udp_outcome(&plan), expected, "{label}");
    }
    let plan = plan_udp(&announce, FROM, MINUTE, &SECRET, None);
    assert_eq!(rt; udp_outcome(&plan), "announce");
    Ok(())
}

#[test]
fn lists_judge_targets(rt: HostRuntime) -> Result<(), Fail> {
    let denied = list_of(rt.alloc(), Mode::Deny, b'3')?;
    let allowed = list_of(rt.alloc(), Mode::Allow, b'3')?;
    let others = list_of(rt.alloc(), Mode::Allow, b'2')?;
    let announce = b"/announce?info_hash=33333333333333333333&port=1";
    let stop = b"/announce?info_hash=33333333333333333333&port=1&event=stopped";
    let no_port = b"/announce?info_hash=33333333333333333333&port=0";
    let scrape = b"/scrape?info_hash=33333333333333333333";
    let rows: [(&str, &AccessList, &[u8], &str); 9] = [
        ("denied", &denied, announce, "not authorized"),
        ("not among the allowed", &others, announce, "not authorized"),
        ("allowed", &allowed, announce, "announce"),
        ("a stop that is denied", &denied, stop, "not authorized"),
        ("a stop that is allowed", &allowed, stop, "stop"),
        ("a scrape isn't judged", &denied, scrape, "scrape"),
        ("by those allowed neither", &others, scrape, "scrape"),
        ("port 0 goes first", &denied, no_port, "bad port"),
        (
            "no hash goes first",
            &denied,
            b"/announce?port=1",
            "missing info_hash",
        ),
    ];
    for (label, access, target, expected) in rows {
        let plan = plan_http(rt.alloc(), target, FROM, Some(access), false)?;
        assert_eq!(rt; outcome(&plan), expected, "{label}");
    }
    let all = plan_http(rt.alloc(), b"/scrape", FROM, Some(&denied), true)?;
    assert_eq!(rt; outcome(&all), "full");
    Ok(())
}

/// What a connection's plan comes to: a word, or the code of its rejection.
fn connection_outcome(plan: &ConnectionPlan) -> &'static str {
    match plan {
        ConnectionPlan::More => "more",
        ConnectionPlan::Rejected(Code::BadRequest) => "400",
        ConnectionPlan::Rejected(Code::TooLarge) => "431",
        ConnectionPlan::Rejected(_) => "another code",
        ConnectionPlan::Planned(plan) => outcome(plan),
    }
}

#[test]
fn connections_are_judged(rt: HostRuntime) -> Result<(), Fail> {
    let rows: [(&str, &[u8], &str); 9] = [
        ("nothing", b"", "more"),
        ("a part", b"GET /ann", "more"),
        ("no version", b"GET /announce\r\n", "400"),
        ("no request", b"ssh\n", "400"),
        (
            "another method",
            b"POST /announce HTTP/1.1\r\nHost: t\r\n\r\n",
            "400",
        ),
        (
            "another path",
            b"GET /stats HTTP/1.1\r\nHost: t\r\n\r\n",
            "not found",
        ),
        (
            "no hash",
            b"GET /announce HTTP/1.1\r\nHost: t\r\n\r\n",
            "missing info_hash",
        ),
        (
            "bytes after the head",
            b"GET /announce HTTP/1.0\r\n\r\nGET /stats HTTP/1.1\r\n\r\n",
            "missing info_hash",
        ),
        (
            "a head of one line",
            b"\r\nGET /scrape HTTP/1.1\n\n",
            "not found",
        ),
    ];
    for (label, bytes, expected) in rows {
        let plan = plan_connection(rt.alloc(), bytes, FROM, None, false)?;
        assert_eq!(rt; connection_outcome(&plan), expected, "{label}");
    }
    Ok(())
}

/// A head of `GET /stats` with so many fields, and then so many bytes more.
fn long_head(alloc: Global, fields: usize, more: usize) -> Result<Vec<u8>, AllocError> {
    let mut head = Vec::from_slice(alloc, b"GET /stats HTTP/1.1\r\n")?;
    for _ in 0..fields {
        head.extend_from_slice(b"a: b\r\n")?;
    }
    for _ in 0..more {
        head.push(b'x')?;
    }
    Ok(head)
}

#[test]
fn long_heads_are_rejected(rt: HostRuntime) -> Result<(), Fail> {
    let rows = [
        ("64 fields", 64, 0, true, "not found"),
        ("65 fields", 65, 0, true, "431"),
        ("one byte of room", 0, 8170, false, "more"),
        ("no room", 0, 8171, false, "431"),
        ("an end past the room", 0, 8171, true, "431"),
    ];
    for (label, fields, more, ends, expected) in rows {
        let mut bytes = long_head(rt.alloc(), fields, more)?;
        if ends {
            bytes.extend_from_slice(b"\r\n\r\n")?;
        }
        let plan = plan_connection(rt.alloc(), &bytes, FROM, None, false)?;
        assert_eq!(rt; connection_outcome(&plan), expected, "{label}");
    }
    Ok(())
}

/// What an announce is told of a torrent with no downloads, and at most one other peer.
fn told(complete: u32, incomplete: u32, peer: Option<Endpoint>) -> (ReportAnswer, Peers)
    requires { ForSome peer (λ p. family_of p.addr ≡ Four) }
    ensures { HasBody Four (with_peers result.1 result.0) }
{
    let counts = Counts {
        complete,
        downloaded: 0,
        incomplete,
    };
    let mut peers = Peers::new();
    if let Some(peer) = peer {
        peers.push(peer);
    }
    (ReportAnswer::Told { counts }, peers)
}

#[test]
fn announces_are_answered(rt: HostRuntime) -> Result<(), Fail> {
    let peer = Endpoint {
        addr: Addr::V4([192, 0, 2, 1]),
        port: 6881,
    };
    let rows: [((ReportAnswer, Peers), &[u8]); 4] = [
        (
            told(1, 0, None),
            b"d8:completei1e10:downloadedi0e10:incompletei0e\
            8:intervali1800e12:min intervali900e5:peers0:e",
        ),
        (
            told(1, 1, Some(peer)),
            b"d8:completei1e10:downloadedi0e10:incompletei1e\
            8:intervali1800e12:min intervali900e5:peers6:\xc0\x00\x02\x01\x1a\xe1e",
        ),
        (
            (ReportAnswer::SwarmFull { count: 2 }, Peers::new()),
            b"d14:failure reason13:swarm is fulle",
        ),
        (
            (ReportAnswer::BucketFull { count: 1 }, Peers::new()),
            b"d14:failure reason15:tracker is fulle",
        ),
    ];
    for ((answer, peers), expected) in &rows {
        let body = finish_announce(rt.alloc(), Family::Four, *answer, peers)?;
        assert_eq!(rt; body.as_slice(), *expected);
        assert!(rt; is_canonical(body.as_slice()));
    }
    Ok(())
}

#[test]
fn peers_of_six_are_told(rt: HostRuntime) -> Result<(), Fail> {
    let mut peers = Peers::new();
    peers.push(Endpoint {
        addr: Addr::V6(*b"0123456789abcdef"),
        port: 0x5a5a,
    });
    let answer = ReportAnswer::Told {
        counts: Counts::default(),
    };
    let body = finish_announce(rt.alloc(), Family::Six, answer, &peers)?;
    assert_eq!(rt;
        body.as_slice(),
        b"d8:completei0e10:downloadedi0e10:incompletei0e8:intervali1800e12:min intervali900e\
        5:peers0:6:peers618:0123456789abcdefZZe"
            .as_slice()
    );
    assert!(rt; is_canonical(body.as_slice()));
    Ok(())
}

/// The known ones of three torrents that were scraped: a seed of one, a leecher of another.
fn known_rows(alloc: Global) -> Result<Rows, AllocError>
    ensures { IfOk result (λ rows. IsStrictlySortedBy hash_cmp (map (λ row. row.hash) rows)) }
{
    let mut rows = Rows::new(alloc);
    rows.push(Row {
        hash: InfoHash([0x11; 20]),
        counts: Counts {
            complete: 1,
            downloaded: 0,
            incomplete: 0,
        },
    })?;
    rows.push(Row {
        hash: InfoHash([0xff; 20]),
        counts: Counts {
            complete: 0,
            downloaded: 0,
            incomplete: 1,
        },
    })?;
    Ok(rows)
}

#[test]
fn scrapes_are_answered(rt: HostRuntime) -> Result<(), Fail> {
    let rows = known_rows(rt.alloc())?;
    let body = finish_scrape(rt.alloc(), &rows)?;
    assert_eq!(rt;
        body.as_slice(),
        b"d5:filesd\
        20:\x11\x11\x11\x11\x11\x11\x11\x11\x11\x11\x11\x11\x11\x11\x11\x11\x11\x11\x11\x11\
        d8:completei1e10:downloadedi0e10:incompletei0ee\
        20:\xff\xff\xff\xff\xff\xff\xff\xff\xff\xff\xff\xff\xff\xff\xff\xff\xff\xff\xff\xff\
        d8:completei0e10:downloadedi0e10:incompletei1eeee"
            .as_slice()
    );
    assert!(rt; is_canonical(body.as_slice()));
    let none = finish_scrape(rt.alloc(), &Rows::new(rt.alloc()))?;
    assert_eq!(rt; none.as_slice(), b"d5:filesdee".as_slice());
    Ok(())
}

/// Answers the announce of a usual client that is alone, from its request to the whole reply.
#[test]
fn usual_client_is_answered(rt: HostRuntime) -> Result<(), Fail> {
    let request = b"GET /announce?info_hash=\
        %11%11%11%11%11%11%11%11%11%11%11%11%11%11%11%11%11%11%11%11\
        &peer_id=-TR4050-abcdefghijkl&port=51413&uploaded=0&downloaded=0&left=0&numwant=80\
        &key=1a2b3c4d&compact=1&supportcrypto=1&event=started HTTP/1.1\r\n\
        Host: tracker.example:6969\r\nAccept: */*\r\nAccept-Encoding: deflate, gzip\r\n\r\n";
    let plan = plan_connection(rt.alloc(), request, FROM, None, false)?;
    assert_eq!(rt; connection_outcome(&plan), "announce");
    let (answer, peers) = told(1, 0, None);
    let body = finish_announce(rt.alloc(), Family::Four, answer, &peers)?;
    let reply = write_reply(rt.alloc(), Code::Ok, body.as_slice())?;
    assert_eq!(rt;
        reply.as_slice(),
        b"HTTP/1.1 200 OK\r\nContent-Type: text/plain\r\nContent-Length: 92\r\n\
        Connection: close\r\n\r\n\
        d8:completei1e10:downloadedi0e10:incompletei0e\
        8:intervali1800e12:min intervali900e5:peers0:e"
            .as_slice()
    );
    Ok(())
}

#[test]
fn refusals_are_told(rt: HostRuntime) -> Result<(), Fail> {
    let rows: [(Refusal, &[u8]); 3] = [
        (
            Refusal::MissingHash,
            b"d14:failure reason17:missing info_hashe",
        ),
        (Refusal::BadHash, b"d14:failure reason13:bad info_hashe"),
        (Refusal::BadPort, b"d14:failure reason8:bad porte"),
    ];
    for (why, expected) in rows {
        let body = refused_body(rt.alloc(), why)?;
        assert_eq!(rt; body.as_slice(), expected, "{why:?}");
    }
    Ok(())
}
