//! What the calls do to the torrents. Each first moves the time on, and forgets the torrents that
//! are no longer known.

ghost use Rattle.std.specs.Prelude.{◌≡◌, ◌<◌, ◌≤◌, [], IfOk, Some};
ghost use Rattle.bucket.specs.Calls.{Announces, Applies, AreRowsOf, Cleans, Forgets, Joins, Opens, Refuses, Scrapes, Stays, Stops, TakesPart, joining_by};
ghost use Rattle.bucket.specs.Torrents.{place_of};

use crate::joining::{JoinError, Joining};
use crate::torrents::Torrents;
use node_table::Steps;
use ot_base::{Counts, Endpoint, InfoHash, Mark, Minute, Peers, Rows};
use std::alloc::AllocError;
use std::sync::ledger::{Blank, Ledger};

/// The counts of a torrent that isn't known.
const NO_COUNTS: Counts = Counts {
    complete: 0,
    downloaded: 0,
    incomplete: 0,
};

/// Lets the endpoint of an announce take part, adds the other peers that it is told to an empty
/// list, and answers its torrent's counts.
pub fn announce<L: Ledger>(
    torrents: &mut Torrents,
    now: Minute,
    joining: &Joining,
    want: u32,
    words: &[u32; 200],
    told: &mut Peers,
    blank: Blank,
) -> Result<Counts, JoinError>
    requires later { torrents.old.time ≤ now.0 }
    requires few { want ≤ 200 }
    requires empty { told.old ≡ [] }
    requires name { blank.name ≡ L.name }
    requires parts { blank.parts ≡ L.parts }
    requires counts { 0 < blank.parts }
    ensures { Announces now.0 joining.now want words.now torrents.old torrents.new told.new
        result }
{
    let mut steps = Steps::<L>::new(blank);
    torrents.move_on(now, &mut steps);
    let place = join(torrents, joining, &mut steps)?;
    torrents.choose(place, &joining.who, want, words, told);
    Ok(torrents.counts(place))
}

/// Moves the time on alone, and tells why an endpoint can't take part where there is no memory for
/// it: something is full, or memory is wanted.
pub fn refuse<L: Ledger>(
    torrents: &mut Torrents,
    now: Minute,
    joining: &Joining,
    blank: Blank,
) -> JoinError
    requires later { torrents.old.time ≤ now.0 }
    requires name { blank.name ≡ L.name }
    requires parts { blank.parts ≡ L.parts }
    requires counts { 0 < blank.parts }
    ensures { Refuses now.0 joining.now.hash joining.now.who torrents.old torrents.new result }
{
    let mut steps = Steps::<L>::new(blank);
    match open(torrents, now, &joining.hash, &mut steps) {
        Some(place) => JoinError::SwarmFull.or_memory(torrents.is_full_for(place, &joining.who)),
        None => JoinError::BucketFull.or_memory(torrents.is_full()),
    }
}

/// Takes an endpoint out of its torrent, if it takes part in it, and answers the torrent's counts.
pub fn stop<L: Ledger>(
    torrents: &mut Torrents,
    now: Minute,
    hash: &InfoHash,
    who: &Endpoint,
    blank: Blank,
) -> Counts
    requires later { torrents.old.time ≤ now.0 }
    requires name { blank.name ≡ L.name }
    requires parts { blank.parts ≡ L.parts }
    requires counts { 0 < blank.parts }
    ensures { Stops now.0 hash.now who.now torrents.old torrents.new result }
{
    let mut steps = Steps::<L>::new(blank);
    match open(torrents, now, hash, &mut steps) {
        Some(place) => {
            torrents.take(place, who, &mut steps);
            torrents.counts(place)
        }
        None => NO_COUNTS,
    }
}

/// Applies what another node says of an endpoint of a torrent. Only for a new endpoint it may want
/// memory.
pub fn apply<L: Ledger>(
    torrents: &mut Torrents,
    now: Minute,
    hash: &InfoHash,
    who: &Endpoint,
    mark: Mark,
    blank: Blank,
) -> Result<(), JoinError>
    requires later { torrents.old.time ≤ now.0 }
    requires name { blank.name ≡ L.name }
    requires parts { blank.parts ≡ L.parts }
    requires counts { 0 < blank.parts }
    ensures { Applies now.0 hash.now who.now mark torrents.old torrents.new result }
{
    match mark {
        Mark::Leecher => take_part::<L>(torrents, now, hash, who, false, blank),
        Mark::Seed => take_part::<L>(torrents, now, hash, who, true, blank),
        Mark::Stopped => {
            stop::<L>(torrents, now, hash, who, blank);
            Ok(())
        }
    }
}

/// Lets an endpoint take part, with no download that it completes.
fn take_part<L: Ledger>(
    torrents: &mut Torrents,
    now: Minute,
    hash: &InfoHash,
    who: &Endpoint,
    seed: bool,
    blank: Blank,
) -> Result<(), JoinError>
    requires later { torrents.old.time ≤ now.0 }
    requires name { blank.name ≡ L.name }
    requires parts { blank.parts ≡ L.parts }
    requires counts { 0 < blank.parts }
    ensures { TakesPart now.0 (joining_by hash.now who.now seed) torrents.old torrents.new result }
{
    let joining = Joining {
        hash: *hash,
        who: *who,
        seed,
        completed: false,
    };
    let mut steps = Steps::<L>::new(blank);
    torrents.move_on(now, &mut steps);
    join(torrents, &joining, &mut steps)?;
    Ok(())
}

/// The counts of a torrent, and whether it is known.
pub fn scrape<L: Ledger>(
    torrents: &mut Torrents,
    now: Minute,
    hash: &InfoHash,
    blank: Blank,
) -> (Counts, bool)
    requires later { torrents.old.time ≤ now.0 }
    requires name { blank.name ≡ L.name }
    requires parts { blank.parts ≡ L.parts }
    requires counts { 0 < blank.parts }
    ensures { Scrapes now.0 hash.now torrents.old torrents.new result.0 result.1 }
{
    let mut steps = Steps::<L>::new(blank);
    match open(torrents, now, hash, &mut steps) {
        Some(place) => (torrents.counts(place), true),
        None => (NO_COUNTS, false),
    }
}

/// Moves the time on alone.
pub fn pass<L: Ledger>(torrents: &mut Torrents, now: Minute, blank: Blank)
    requires later { torrents.old.time ≤ now.0 }
    requires name { blank.name ≡ L.name }
    requires parts { blank.parts ≡ L.parts }
    requires counts { 0 < blank.parts }
    ensures { Forgets now.0 torrents.old torrents.new }
{
    let mut steps = Steps::<L>::new(blank);
    torrents.move_on(now, &mut steps);
}

/// Drops all peers that aren't live.
pub fn clean<L: Ledger>(torrents: &mut Torrents, now: Minute, blank: Blank)
    requires later { torrents.old.time ≤ now.0 }
    requires name { blank.name ≡ L.name }
    requires parts { blank.parts ≡ L.parts }
    requires counts { 0 < blank.parts }
    ensures { Cleans now.0 torrents.old torrents.new }
{
    let mut steps = Steps::<L>::new(blank);
    torrents.move_on(now, &mut steps);
    torrents.refresh_all(&mut steps);
}

/// Lets an endpoint take part in its torrent, which may be a new one, and tells the place of the
/// torrent.
fn join<L: Ledger>(
    torrents: &mut Torrents,
    joining: &Joining,
    steps: &mut Steps<L>,
) -> Result<u32, JoinError>
    ensures stays { Stays torrents.old torrents.new }
    ensures joins { Joins (place_of joining.now.hash torrents.old.torrents) joining.now
        torrents.old torrents.new result }
    ensures place { IfOk result (λ at. Some at ≡ place_of joining.now.hash torrents.new.torrents) }
{
    match torrents.place(&joining.hash) {
        Some(at) => {
            torrents.put(at, joining, steps)?;
            Ok(at)
        }
        None => torrents.add(joining, steps),
    }
}

/// Moves the time on, finds the torrent of a hash, and drops its peers that aren't live.
fn open<L: Ledger>(
    torrents: &mut Torrents,
    now: Minute,
    hash: &InfoHash,
    steps: &mut Steps<L>,
) -> Option<u32>
    requires { torrents.old.time ≤ now.0 }
    ensures { Opens now.0 hash.now torrents.old torrents.new result }
{
    torrents.move_on(now, steps);
    let place = torrents.place(hash)?;
    torrents.refresh(place, steps);
    Some(place)
}
