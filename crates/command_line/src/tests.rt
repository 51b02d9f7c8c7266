//! What no clause says: words as a user writes them.

use crate::words::{Command, WordsFault, read_words};
use load_model::DrillSettings;
use offline::Offline;
use ot_base::{Addr, Endpoint, Limits, Mode, Secret};
use ot_io::{NODES, ReplaySettings, ServeSettings, SyncSettings};
use std::test::Fail;

const ZEROS: &str = "secret=0000000000000000000000000000000000000000";

const ONES: &str = "secret=FFFFFFFFFFFFFFFFFFFFFFFFFFFFFFFFFFFFFFFF";

/// The settings of a replay whose words give none.
const USUAL: ReplaySettings = ReplaySettings {
    bits: 10,
    limits: Limits {
        peers: 100_000,
        torrents: 65_536,
    },
    full: false,
    secret: Secret([0; 20]),
    seed: 0,
    access: None,
};

/// The usual settings with other limits.
fn limited(peers: u32, torrents: u32) -> ReplaySettings {
    ReplaySettings {
        limits: Limits { peers, torrents },
        ..USUAL
    }
}

/// What words ask for, or the place of the one that can't stand.
fn replay(settings: ReplaySettings) -> Result<Command, WordsFault> {
    Ok(Command::Offline(Offline::Replay(settings)))
}

#[test]
fn numbers_that_words_give(rt: HostRuntime) {
    for (word, settings) in [
        ("bits=0", ReplaySettings { bits: 0, ..USUAL }),
        ("bits=007", ReplaySettings { bits: 7, ..USUAL }),
        ("bits=10", USUAL),
        (
            "bits=00000000000000000001",
            ReplaySettings { bits: 1, ..USUAL },
        ),
        ("peers=1", limited(1, 65_536)),
        ("peers=1000000", limited(1_000_000, 65_536)),
        ("torrents=1", limited(100_000, 1)),
        ("torrents=1000000", limited(100_000, 1_000_000)),
        ("seed=7", ReplaySettings { seed: 7, ..USUAL }),
        (
            "seed=18446744073709551615",
            ReplaySettings {
                seed: u64::MAX,
                ..USUAL
            },
        ),
    ] {
        assert_eq!(rt; read_words(&["replay", word]), replay(settings), "{word}");
    }
}

#[test]
fn choices_that_words_give(rt: HostRuntime) {
    for (word, settings) in [
        (
            "full=on",
            ReplaySettings {
                full: true,
                ..USUAL
            },
        ),
        ("full=off", USUAL),
        (
            "access=deny",
            ReplaySettings {
                access: Some(Mode::Deny),
                ..USUAL
            },
        ),
        (
            "access=allow",
            ReplaySettings {
                access: Some(Mode::Allow),
                ..USUAL
            },
        ),
        (ZEROS, USUAL),
        (
            ONES,
            ReplaySettings {
                secret: Secret([0xff; 20]),
                ..USUAL
            },
        ),
    ] {
        assert_eq!(rt; read_words(&["replay", word]), replay(settings), "{word}");
    }
}

#[test]
fn settings_stand_in_any_order(rt: HostRuntime) {
    assert_eq!(rt; read_words(&["replay"]), replay(USUAL));
    let settings = ReplaySettings {
        bits: 1,
        limits: Limits {
            peers: 2,
            torrents: 3,
        },
        full: true,
        secret: Secret([0xff; 20]),
        seed: 4,
        access: Some(Mode::Deny),
    };
    for words in [
        [
            "replay",
            "bits=1",
            "peers=2",
            "torrents=3",
            "full=on",
            ONES,
            "seed=4",
            "access=deny",
        ],
        [
            "replay",
            "access=deny",
            "seed=4",
            ONES,
            "full=on",
            "torrents=3",
            "peers=2",
            "bits=1",
        ],
    ] {
        assert_eq!(rt; read_words(&words), replay(settings));
    }
}

#[test]
fn numbers_that_can_not_stand(rt: HostRuntime) {
    for word in [
        "bits=",
        "bits=11",
        "bits=+1",
        "bits=-1",
        "bits= 1",
        "bits=1 ",
        "bits=0x1",
        "bits=000000000000000000001",
        "peers=0",
        "peers=1000001",
        "peers=4294967297",
        "torrents=0",
        "torrents=1000001",
        "seed=18446744073709551616",
        "seed=99999999999999999999",
        "seed=100000000000000000000",
    ] {
        assert_eq!(rt;
            read_words(&["replay", word]),
            Err(WordsFault::At(1)),
            "{word}"
        );
    }
}

#[test]
fn settings_that_can_not_stand(rt: HostRuntime) {
    for word in [
        "full=yes",
        "full=ON",
        "full=",
        "access=maybe",
        "access=Deny",
        "secret=",
        "secret=000000000000000000000000000000000000000",
        "secret=00000000000000000000000000000000000000000",
        "secret=000000000000000000000000000000000000000g",
        "udp=127.0.0.1:6969",
        "workers=1",
        "bit=1",
        "Bits=1",
        "bits =1",
        "bits==1",
        "=1",
        "bits",
        "replay",
        "",
    ] {
        assert_eq!(rt;
            read_words(&["replay", word]),
            Err(WordsFault::At(1)),
            "{word}"
        );
    }
}

#[test]
fn words_that_can_not_stand(rt: HostRuntime) {
    for (shows, words, at) in [
        ("no words", [].as_slice(), 0),
        ("another command", &["cluster"], 0),
        ("an empty word", &[""], 0),
        ("a longer command", &["replays"], 0),
        ("a setting first", &["bits=1", "replay"], 0),
        ("the first of two", &["replay", "bits=11", "full=yes"], 1),
        ("behind a good one", &["replay", "bits=1", "full=yes"], 2),
        ("twice", &["replay", "bits=1", "full=on", "bits=1"], 3),
        ("twice, both unlike", &["replay", "full=on", "full=off"], 2),
    ] {
        assert_eq!(rt;
            read_words(words).err(),
            Some(WordsFault::At(at)),
            "{shows}"
        );
    }
}

/// What the words of a drill ask for.
fn drill(seed: u64, count: u32, workers: u32, bits: u32) -> Result<Command, WordsFault> {
    Ok(Command::Drill(DrillSettings {
        seed,
        count,
        workers,
        bits,
    }))
}

#[test]
fn drills_are_read(rt: HostRuntime) {
    for (words, want) in [
        (["drill", "7", "0", "3"].as_slice(), drill(7, 0, 3, 10)),
        (&["drill", "7", "0", "3", "bits=0"], drill(7, 0, 3, 0)),
        (
            &["drill", "18446744073709551615", "1000000", "64", "bits=10"],
            drill(u64::MAX, 1_000_000, 64, 10),
        ),
        (&["drill", "7", "0", "0"], Err(WordsFault::At(3))),
        (&["drill", "7", "0", "65"], Err(WordsFault::At(3))),
        (&["drill", "7", "1000001", "3"], Err(WordsFault::At(2))),
        (
            &["drill", "18446744073709551616", "0", "3"],
            Err(WordsFault::At(1)),
        ),
        (&["drill", "bits=1", "7", "0", "3"], Err(WordsFault::At(1))),
        (&["drill", "7", "0", "3", "full=on"], Err(WordsFault::At(4))),
        (
            &["drill", "7", "0", "3", "bits=1", "bits=1"],
            Err(WordsFault::At(5)),
        ),
        (&["drill"], Err(WordsFault::At(1))),
        (&["drill", "7"], Err(WordsFault::At(2))),
        (&["drill", "7", "0"], Err(WordsFault::At(3))),
    ] {
        assert_eq!(rt; read_words(words), want);
    }
}

/// This port of loopback.
fn at(port: u16) -> Option<Endpoint> {
    Some(Endpoint {
        addr: Addr::V4([127, 0, 0, 1]),
        port,
    })
}

/// The settings of a server of datagrams, with a secret of zeros.
fn usual_server() -> ServeSettings {
    ServeSettings {
        replay: USUAL,
        udp: at(6969),
        http: None,
        sync: None,
        workers: 2,
    }
}

#[test]
fn servers_are_read(rt: HostRuntime) {
    for (words, want) in [
        (
            ["serve", ZEROS, "udp=127.0.0.1:6969"].as_slice(),
            Ok(Command::Serve(usual_server())),
        ),
        (
            &[
                "serve",
                "http=127.0.0.1:1",
                ZEROS,
                "udp=127.0.0.1:65535",
                "workers=64",
                "bits=3",
            ],
            Ok(Command::Serve(ServeSettings {
                replay: ReplaySettings { bits: 3, ..USUAL },
                udp: at(65_535),
                http: at(1),
                sync: None,
                workers: 64,
            })),
        ),
        (&["serve", "udp=127.0.0.1:6969"], Err(WordsFault::At(2))),
        (&["serve", ZEROS], Err(WordsFault::At(2))),
        (&["serve"], Err(WordsFault::At(1))),
        (&["serve", ZEROS, "workers=0"], Err(WordsFault::At(2))),
        (&["serve", ZEROS, "workers=65"], Err(WordsFault::At(2))),
        (
            &["serve", ZEROS, "udp=127.0.0.1:1", "udp=127.0.0.1:1"],
            Err(WordsFault::At(3)),
        ),
    ] {
        assert_eq!(rt; read_words(words), want);
    }
}

#[test]
fn endpoints_that_can_not_stand(rt: HostRuntime) {
    for word in [
        "udp=",
        "udp=127.0.0.1",
        "udp=127.0.0.1:",
        "udp=127.0.0.1:0",
        "udp=127.0.0.1:65536",
        "udp=:6969",
        "udp=127.0.0:6969",
        "udp=127.0.0.256:6969",
        "udp=localhost:6969",
        "http=[::1]:6969",
        "http=00000000000000000000000000000001:6969",
        "http=127.0.0.1:6969 ",
    ] {
        assert_eq!(rt;
            read_words(&["serve", ZEROS, word]),
            Err(WordsFault::At(2)),
            "{word}"
        );
    }
}

/// The server that shares with nodes at these ports, in this order.
fn sharing(own: u32, ports: &[u16]) -> Result<Command, WordsFault> {
    let mut nodes = [None; NODES];
    for (node, port) in nodes.iter_mut().zip(ports) {
        *node = at(*port);
    }
    Ok(Command::Serve(ServeSettings {
        sync: Some(SyncSettings {
            at: Endpoint {
                addr: Addr::V4([127, 0, 0, 1]),
                port: 7000,
            },
            own,
            nodes,
        }),
        ..usual_server()
    }))
}

const UDP: &str = "udp=127.0.0.1:6969";

const SYNC: &str = "sync=127.0.0.1:7000";

const NODE: &str = "nodes=127.0.0.1:1";

/// Sixteen nodes, at the ports 1 to 16.
const SIXTEEN: &str = "nodes=127.0.0.1:1,127.0.0.1:2,127.0.0.1:3,127.0.0.1:4,127.0.0.1:5,\
    127.0.0.1:6,127.0.0.1:7,127.0.0.1:8,127.0.0.1:9,127.0.0.1:10,127.0.0.1:11,127.0.0.1:12,\
    127.0.0.1:13,127.0.0.1:14,127.0.0.1:15,127.0.0.1:16";

/// One node more.
const SEVENTEEN: &str = "nodes=127.0.0.1:1,127.0.0.1:2,127.0.0.1:3,127.0.0.1:4,127.0.0.1:5,\
    127.0.0.1:6,127.0.0.1:7,127.0.0.1:8,127.0.0.1:9,127.0.0.1:10,127.0.0.1:11,127.0.0.1:12,\
    127.0.0.1:13,127.0.0.1:14,127.0.0.1:15,127.0.0.1:16,127.0.0.1:17";

#[test]
fn servers_that_share_are_read(rt: HostRuntime) {
    for (words, want) in [
        ([SYNC, "nodes=127.0.0.1:1", "id=0"], sharing(0, &[1])),
        (
            ["id=4294967295", "nodes=127.0.0.1:2,127.0.0.1:1", SYNC],
            sharing(u32::MAX, &[2, 1]),
        ),
        (
            ["nodes=127.0.0.1:3,127.0.0.1:3", "id=0007", SYNC],
            sharing(7, &[3, 3]),
        ),
        (
            [SIXTEEN, SYNC, "id=1"],
            sharing(1, &[1, 2, 3, 4, 5, 6, 7, 8, 9, 10, 11, 12, 13, 14, 15, 16]),
        ),
    ] {
        let [first, second, third] = words;
        let words = ["serve", ZEROS, UDP, first, second, third];
        assert_eq!(rt; read_words(&words), want);
    }
}

#[test]
fn sharing_takes_all_three_settings(rt: HostRuntime) {
    for words in [
        ["serve", ZEROS, UDP, SYNC].as_slice(),
        &["serve", ZEROS, UDP, NODE],
        &["serve", ZEROS, UDP, "id=1"],
        &["serve", ZEROS, UDP, SYNC, NODE],
        &["serve", ZEROS, UDP, "id=1", SYNC],
        &["serve", ZEROS, UDP, NODE, "id=1"],
        &["serve", ZEROS, SYNC, NODE, "id=1"],
        &["serve", UDP, SYNC, NODE, "id=1"],
    ] {
        assert_eq!(rt;
            read_words(words),
            Err(WordsFault::At(words.len() as u32)),
            "{words:?}"
        );
    }
}

#[test]
fn settings_of_sharing_that_can_not_stand(rt: HostRuntime) {
    for word in [
        "sync=",
        "sync=127.0.0.1:0",
        "sync=127.0.0.1:7000,127.0.0.1:7001",
        "nodes=",
        "nodes=,",
        "nodes=127.0.0.1",
        "nodes=127.0.0.1:1,",
        "nodes=,127.0.0.1:1",
        "nodes=127.0.0.1:1,,127.0.0.1:2",
        "nodes=127.0.0.1:1, 127.0.0.1:2",
        "nodes=127.0.0.1:1;127.0.0.1:2",
        "nodes=127.0.0.1:1,127.0.0.1:65536",
        SEVENTEEN,
        "id=",
        "id=-1",
        "id=4294967296",
        "node=127.0.0.1:1",
    ] {
        assert_eq!(rt;
            read_words(&["serve", ZEROS, UDP, word]),
            Err(WordsFault::At(3)),
            "{word}"
        );
    }
    for word in [SYNC, NODE, "id=1"] {
        assert_eq!(rt;
            read_words(&["serve", ZEROS, UDP, word, word]),
            Err(WordsFault::At(4)),
            "{word}"
        );
        assert_eq!(rt;
            read_words(&["replay", word]),
            Err(WordsFault::At(1)),
            "{word}"
        );
    }
}
