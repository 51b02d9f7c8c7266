//! The command that the words ask for.

ghost use Rattle.std.specs.Prelude.{◌≡◌, ◌≤◌, ◌+◌, IfOk, length, map};
ghost use Rattle.std.specs.Result.{result_map_both};
ghost use Rattle.command_line.specs.Words.{MayRun, command_of, drill_command, number_first};
ghost use Rattle.command_line.specs.Words.{replay_command, replay_of, serve_command, server_of};
ghost use Rattle.command_line.specs.Words.{shares_in_part, sync_of};

use crate::settings::{Asked, Given, place, read_settings};
use crate::values::read_number;
use load_model::DrillSettings;
use offline::Offline;
use ot_base::{Limits, Secret};
use ot_io::{ReplaySettings, ServeSettings, SyncSettings};

/// What the words ask for.
#[derive(Clone, Copy, Debug, PartialEq, Eq)]
pub enum Command {
    /// A command that reads standard input to its end and touches nothing else.
    Offline(Offline),
    /// A generated load is run.
    Drill(DrillSettings),
    /// A server is run.
    Serve(ServeSettings),
}

/// Why words can't be read.
#[derive(Clone, Copy, Debug, PartialEq, Eq)]
pub enum WordsFault {
    /// The word at this place, from 0, can't stand. Where a word is missing, it is the number of
    /// words.
    At(u32),
}

/// Reads the words, without the program's name: a command, what it needs, and then settings in any
/// order, each `name=value`, each once at most.
///
/// - `replay`: answers a recorded trace.
/// - `drill seed count workers`: runs a load of `count` requests, 0 to 1000000, that are drawn from
///   `seed`, 0 to 2^64 - 1, and made by `workers` workers at once, 1 to 64.
/// - `serve`: runs a server. It needs the setting `secret`, and `udp` or `http`; and all of `sync`,
///   `nodes` and `id` or none of them.
///
/// | name | value | without it | commands |
/// |---|---|---|---|
/// | `bits` | 0 to 10: how many bits of a hash tell its bucket | 10 | all |
/// | `peers` | 1 to 1000000: how many live peers a torrent may have | 100000 | replay, serve |
/// | `torrents` | 1 to 1000000: how many torrents a bucket may know | 65536 | replay, serve |
/// | `full` | `on`, `off`: whether a client may ask for all torrents | `off` | replay, serve |
/// | `secret` | 40 hex digits: what goes into connection ids | 40 zeros | replay, serve |
/// | `seed` | 0 to 2^64 - 1: where the random numbers begin | 0 | replay, serve |
/// | `access` | `deny`, `allow`: the input begins with a list | no list | replay, serve |
/// | `udp` | an endpoint: where datagrams are received | nowhere | serve |
/// | `http` | an endpoint: where connections are accepted | nowhere | serve |
/// | `workers` | 1 to 64: how many each of the two has | 2 | serve |
/// | `sync` | an endpoint: where the node hears others and tells them | nowhere | serve |
/// | `nodes` | 1 to 16 endpoints with `,` between: the others' `sync` | none | serve |
/// | `id` | 0 to 4294967295: the node's own number | none | serve |
///
/// A number is 1 to 20 decimal digits, with leading zeros or without. An endpoint is an IPv4
/// address, `:` and a port from 1 to 65535.
///
/// # Errors
///
/// `At` with the place of the first word that can't stand, or of the one that is missing.
pub fn read_words(words: &[&str]) -> Result<Command, WordsFault>
    ensures read { result ≡ command_of (map (λ word. word.now) words.now) }
    ensures may { IfOk result MayRun }
{
    let Some((first, others)) = words.split_first() else {
        return Err(WordsFault::At(0));
    };
    match *first {
        "replay" => read_replay(others),
        "drill" => read_drill(others),
        "serve" => read_server(others),
        _ => Err(WordsFault::At(0)),
    }
}

/// Reads what stands behind `replay`.
fn read_replay(words: &[&str]) -> Result<Command, WordsFault>
    ensures read { result ≡ replay_command (map (λ word. word.now) words.now) }
    ensures may { IfOk result MayRun }
{
    let given = read_settings(Asked::Replay, 1, words)?;
    Ok(Command::Offline(Offline::Replay(replay_of(given))))
}

/// Reads what stands behind `drill`.
fn read_drill(words: &[&str]) -> Result<Command, WordsFault>
    ensures read { result ≡ drill_command (map (λ word. word.now) words.now) }
    ensures may { IfOk result MayRun }
{
    let (seed, others) = next_number(1, words, 0, u64::MAX)?;
    let (count, others) = next_number(2, others, 0, 1_000_000)?;
    let (workers, others) = next_number(3, others, 1, 64)?;
    let given = read_settings(Asked::Drill, 4, others)?;
    Ok(Command::Drill(DrillSettings {
        seed,
        count: count as u32,
        workers: workers as u32,
        bits: given.bits.unwrap_or(10),
    }))
}

/// Reads what stands behind `serve`.
fn read_server(words: &[&str]) -> Result<Command, WordsFault>
    ensures read { result ≡ serve_command (map (λ word. word.now) words.now) }
    ensures may { IfOk result MayRun }
{
    let given = read_settings(Asked::Serve, 1, words)?;
    match server_of(given) {
        Some(settings) => Ok(Command::Serve(settings)),
        None => Err(WordsFault::At(place(1, words.len()))),
    }
}

/// The number that the word at this place writes, which is the first of these, and the words behind
/// it.
fn next_number<'a, 'b>(
    at: u32,
    words: &'a [&'b str],
    least: u64,
    greatest: u64,
) -> Result<(u64, &'a [&'b str]), WordsFault>
    ensures read { result_map_both
        (λ next. (next.0, map (λ word. word.now) next.1.now)) (λ fault. fault) result
        ≡ number_first at least greatest (map (λ word. word.now) words.now) }
    ensures among { IfOk result (λ next. (least ≤ next.0) × (next.0 ≤ greatest)) }
{
    match words.split_first() {
        Some((first, others)) => match read_number(first, least, greatest) {
            Some(number) => Ok((number, others)),
            None => Err(WordsFault::At(at)),
        },
        None => Err(WordsFault::At(at)),
    }
}

/// The settings of a replay, where each that isn't given is the usual one.
fn replay_of(given: Given) -> ReplaySettings
    ensures { result ≡ replay_of given }
{
    ReplaySettings {
        bits: given.bits.unwrap_or(10),
        limits: Limits {
            peers: given.peers.unwrap_or(100_000),
            torrents: given.torrents.unwrap_or(65_536),
        },
        full: given.full.unwrap_or(false),
        secret: given.secret.unwrap_or(Secret([0; 20])),
        seed: given.seed.unwrap_or(0),
        access: given.access,
    }
}

/// The settings of a server, likewise; or nothing where one is missing that it needs.
fn server_of(given: Given) -> Option<ServeSettings>
    ensures { result ≡ server_of given }
{
    if given.secret.is_none()
        || (given.udp.is_none() && given.http.is_none())
        || shares_in_part(given)
    {
        return None;
    }
    Some(ServeSettings {
        replay: replay_of(given),
        udp: given.udp,
        http: given.http,
        sync: sync_of(given),
        workers: given.workers.unwrap_or(2),
    })
}

/// Whether some of the settings of sharing are given, but not all.
fn shares_in_part(given: Given) -> bool
    ensures { result ≡ shares_in_part given }
{
    sync_of(given).is_none()
        && (given.sync.is_some() || given.nodes.is_some() || given.id.is_some())
}

/// With whom a server shares, where all three settings of that are given.
fn sync_of(given: Given) -> Option<SyncSettings>
    ensures { result ≡ sync_of given }
{
    Some(SyncSettings {
        at: given.sync?,
        own: given.id?,
        nodes: given.nodes?,
    })
}
