//! The settings that words give: each is `name=value`, in any order, each once at most.

ghost use Rattle.std.specs.Prelude.{◌≡◌, ◌+◌, length, map};
ghost use Rattle.command_line.specs.Settings.{asked_setting, bits_setting, given_of};
ghost use Rattle.command_line.specs.Settings.{no_settings, once, place_of};
ghost use Rattle.command_line.specs.Settings.{server_setting, tracker_setting, word_setting};

use crate::values::{
    read_endpoint, read_mode, read_nodes, read_number, read_secret, read_small, read_switch,
};
use crate::words::WordsFault;
use ot_base::{Endpoint, Mode, Secret};
use ot_io::NODES;

/// Whose settings are read. Other commands have other settings.
#[derive(Clone, Copy, Debug, PartialEq, Eq)]
pub enum Asked {
    Replay,
    Drill,
    Serve,
}

/// The settings that words have given so far.
#[derive(Clone, Copy, Debug, PartialEq, Eq)]
pub struct Given {
    pub bits: Option<u32>,
    pub peers: Option<u32>,
    pub torrents: Option<u32>,
    pub full: Option<bool>,
    pub secret: Option<Secret>,
    pub seed: Option<u64>,
    pub access: Option<Mode>,
    pub udp: Option<Endpoint>,
    pub http: Option<Endpoint>,
    pub workers: Option<u32>,
    pub sync: Option<Endpoint>,
    pub nodes: Option<[Option<Endpoint>; NODES]>,
    pub id: Option<u32>,
}

/// Reads the settings of a command, of which the first stands at this place.
///
/// # Errors
///
/// `At` with the place of the first word that can't stand.
pub fn read_settings(asked: Asked, at: u32, words: &[&str]) -> Result<Given, WordsFault>
    ensures { result ≡ given_of asked at no_settings (map (λ word. word.now) words.now) }
{
    let mut given = Given {
        bits: None,
        peers: None,
        torrents: None,
        full: None,
        secret: None,
        seed: None,
        access: None,
        udp: None,
        http: None,
        workers: None,
        sync: None,
        nodes: None,
        id: None,
    };
    for (i, word) in words.iter().enumerate() {
        match read_setting(asked, given, word) {
            Some(more) => given = more,
            None => return Err(WordsFault::At(place(at, i))),
        }
    }
    Ok(given)
}

/// The settings with one more, where the word is one that can stand.
fn read_setting(asked: Asked, given: Given, word: &str) -> Option<Given>
    ensures { result ≡ word_setting asked given word.now }
{
    match word.split_once('=') {
        Some((name, text)) => with_asked(asked, given, name, text),
        None => None,
    }
}

/// The settings with the one of this name, where the command has one and this is the text of a
/// value of it.
fn with_asked(asked: Asked, given: Given, name: &str, text: &str) -> Option<Given>
    ensures { result ≡ asked_setting asked given name.now text.now }
{
    match asked {
        Asked::Replay => with_tracker(given, name, text),
        Asked::Drill => with_bits(given, name, text),
        Asked::Serve => with_server(given, name, text),
    }
}

/// The same for the settings that a server has: its own, and those of a replay.
fn with_server(given: Given, name: &str, text: &str) -> Option<Given>
    ensures { result ≡ server_setting given name.now text.now }
{
    match name {
        "udp" => Some(Given {
            udp: Some(once(given.udp, read_endpoint(text))?),
            ..given
        }),
        "http" => Some(Given {
            http: Some(once(given.http, read_endpoint(text))?),
            ..given
        }),
        "workers" => Some(Given {
            workers: Some(once(given.workers, read_small(text, 1, 64))?),
            ..given
        }),
        "sync" => Some(Given {
            sync: Some(once(given.sync, read_endpoint(text))?),
            ..given
        }),
        "nodes" => Some(Given {
            nodes: Some(once(given.nodes, read_nodes(text))?),
            ..given
        }),
        "id" => Some(Given {
            id: Some(once(given.id, read_small(text, 0, u32::MAX))?),
            ..given
        }),
        _ => with_tracker(given, name, text),
    }
}

/// The same for the settings that a replay has.
fn with_tracker(given: Given, name: &str, text: &str) -> Option<Given>
    ensures { result ≡ tracker_setting given name.now text.now }
{
    match name {
        "peers" => Some(Given {
            peers: Some(once(given.peers, read_small(text, 1, 1_000_000))?),
            ..given
        }),
        "torrents" => Some(Given {
            torrents: Some(once(given.torrents, read_small(text, 1, 1_000_000))?),
            ..given
        }),
        "full" => Some(Given {
            full: Some(once(given.full, read_switch(text))?),
            ..given
        }),
        "secret" => Some(Given {
            secret: Some(once(given.secret, read_secret(text))?),
            ..given
        }),
        "seed" => Some(Given {
            seed: Some(once(given.seed, read_number(text, 0, u64::MAX))?),
            ..given
        }),
        "access" => Some(Given {
            access: Some(once(given.access, read_mode(text))?),
            ..given
        }),
        _ => with_bits(given, name, text),
    }
}

/// The same for the one setting that every command has.
fn with_bits(given: Given, name: &str, text: &str) -> Option<Given>
    ensures { result ≡ bits_setting given name.now text.now }
{
    match name {
        "bits" => Some(Given {
            bits: Some(once(given.bits, read_small(text, 0, 10))?),
            ..given
        }),
        _ => None,
    }
}

/// The value of a setting, which stands once at most.
fn once<T: Copy>(before: Option<T>, value: Option<T>) -> Option<T>
    ensures { result ≡ once before value }
{
    match before {
        None => value,
        Some(_) => None,
    }
}

/// The place of the word so many words behind a place, as a number of 32 bits, at most the last of
/// them.
pub(crate) fn place(at: u32, behind: usize) -> u32
    ensures { result ≡ place_of (at + behind) }
{
    (behind as u64)
        .saturating_add(u64::from(at))
        .min(u64::from(u32::MAX)) as u32
}
