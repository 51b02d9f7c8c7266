//! Random calls on a bucket and on a plain list of torrents.

ghost use Rattle.std.specs.Prelude.{◌≡◌, ◌<◌, true, false};
ghost use Rattle.tracker_model.specs.Calls.{IsPeer};

use super::*;
use crate::outbox::mark_of;
use ot_base::{Counts, Held, Note, Row};

/// Numbers that look random: a linear congruential generator.
#[derive(Drop)]
struct Dice {
    state: u32,
}

impl Dice {
    fn word(&mut self) -> u32 {
        self.state = self
            .state
            .wrapping_mul(1_664_525)
            .wrapping_add(1_013_904_223);
        self.state >> 8
    }

    fn below(&mut self, sides: u32) -> u32
        requires { 0 < sides }
        ensures { result < sides }
    {
        self.word() % sides
    }

    fn words(&mut self) -> [u32; 200] {
        let mut words = [0; 200];
        for word in &mut words {
            *word = self.word();
        }
        words
    }
}

/// A torrent with its live peers, those of one family, in their order.
#[derive(Drop)]
struct Plain {
    hash: InfoHash,
    touch: u32,
    downloaded: u32,
    peers: Vec<Held>,
    /// Whether peers have aged out, so that the order is the bucket's own.
    is_shuffled: bool,
}

/// The known torrents, and the notes since the last drain, where sync is on.
#[derive(Drop)]
struct Plains {
    time: u32,
    torrents: Vec<Plain>,
    sync: bool,
    notes: Vec<Note>,
}

const NARROW: Limits = Limits {
    peers: 7,
    torrents: 5,
};

impl Plains {
    /// Moves the time on, and drops what is no longer live or known.
    fn pass_to(&mut self, minute: u32) {
        let now = self.time.max(minute);
        self.time = now;
        self.torrents
            .retain(|torrent| now.saturating_sub(torrent.touch) < 1440);
        for torrent in &mut self.torrents {
            let before = torrent.peers.len();
            torrent
                .peers
                .retain(|held| now.saturating_sub(held.stamp.0) < 45);
            let after = torrent.peers.len();
            if after != before {
                torrent.is_shuffled = after > 1;
            }
        }
    }

    fn note(&mut self, hash: InfoHash, who: Endpoint, mark: Mark) -> Result<(), AllocError> {
        if self.sync {
            self.notes.push(Note { hash, who, mark })?;
        }
        Ok(())
    }

    fn place(&self, hash: &InfoHash) -> Option<usize> {
        self.torrents
            .iter()
            .position(|torrent| torrent.hash == *hash)
    }

    fn counts(&self, hash: &InfoHash) -> (u32, u32, u32) {
        for torrent in &self.torrents {
            if torrent.hash == *hash {
                let mut seeds = 0u32;
                let mut others = 0u32;
                for held in &torrent.peers {
                    if held.seed {
                        seeds = seeds.saturating_add(1);
                    } else {
                        others = others.saturating_add(1);
                    }
                }
                return (seeds, torrent.downloaded, others);
            }
        }
        (0, 0, 0)
    }

    fn held(&self) -> u64 {
        let mut held = 0u64;
        for torrent in &self.torrents {
            held = held.saturating_add(torrent.peers.len() as u64);
        }
        held
    }

    /// Lets a peer take part, or tells why it can't.
    fn put(
        &mut self,
        alloc: Global,
        hash: InfoHash,
        held: Held,
        completed: bool,
    ) -> Result<Option<Outcome>, AllocError> {
        for torrent in &mut self.torrents {
            if torrent.hash == hash {
                let place = torrent.peers.iter().position(|other| other.who == held.who);
                let mut was_seed = false;
                match place {
                    Some(i) => {
                        if i < torrent.peers.len() {
                            was_seed = torrent.peers[i].seed;
                            torrent.peers[i] = held;
                        }
                    }
                    None => {
                        if torrent.peers.len() == NARROW.peers as usize {
                            return Ok(Some(Outcome::SwarmFull(NARROW.peers)));
                        }
                        torrent.peers.push(held)?;
                    }
                }
                torrent.touch = held.stamp.0;
                if completed && !was_seed {
                    torrent.downloaded = torrent.downloaded.saturating_add(1);
                }
                return Ok(None);
            }
        }
        if self.torrents.len() == NARROW.torrents as usize {
            return Ok(Some(Outcome::BucketFull(NARROW.torrents)));
        }
        let mut peers = Vec::new(alloc);
        peers.push(held)?;
        self.torrents.push(Plain {
            hash,
            touch: held.stamp.0,
            downloaded: u32::from(completed),
            peers,
            is_shuffled: false,
        })?;
        Ok(None)
    }

    /// Takes a peer out, if it is one: the last one moves into its place.
    fn take(&mut self, hash: &InfoHash, who: &Endpoint) {
        for torrent in &mut self.torrents {
            if torrent.hash == *hash {
                let place = torrent.peers.iter().position(|held| held.who == *who);
                if let Some(i) = place {
                    if i < torrent.peers.len() {
                        torrent.peers.swap_remove(i);
                    }
                }
            }
        }
    }

    /// The peers but the asker, and whether their order is certain.
    fn others(
        &self,
        alloc: Global,
        hash: &InfoHash,
        asker: &Endpoint,
    ) -> Result<(Vec<Endpoint>, bool), AllocError> {
        let mut others = Vec::new(alloc);
        let mut is_certain = true;
        for torrent in &self.torrents {
            if torrent.hash == *hash {
                is_certain = !torrent.is_shuffled;
                for held in &torrent.peers {
                    if held.who != *asker {
                        others.push(held.who)?;
                    }
                }
            }
        }
        Ok((others, is_certain))
    }
}

/// The elements that the words choose out of those that are left.
fn chosen(
    rt: &impl Abort,
    alloc: Global,
    mut left: Vec<Endpoint>,
    want: u32,
    words: &[u32; 200],
) -> Result<Vec<Endpoint>, AllocError> {
    let mut chosen = Vec::new(alloc);
    for i in 0..want {
        let len = left.len();
        if len == 0 {
            break;
        }
        assert!(rt; i < 200);
        chosen.push(left.remove(words[i as usize] as usize % len))?;
    }
    Ok(chosen)
}

/// Each peer that is told is one of the others, and none is told twice.
fn check_others(
    rt: &impl Abort,
    alloc: Global,
    others: &[Endpoint],
    told: &[Endpoint],
) -> Result<(), AllocError> {
    let mut sorted = told.to_vec(alloc)?;
    sorted.sort()?;
    sorted.dedup();
    assert_eq!(rt; sorted.len(), told.len(), "told once");
    for one in told {
        assert!(rt; others.contains(one), "{one:?} is another live peer");
    }
    Ok(())
}

/// Compares the peers that an asker is told with those that the list has.
fn compare_told(
    rt: &(impl Abort + AllocGlobal),
    plains: &Plains,
    hash: &InfoHash,
    who: &Endpoint,
    want: u32,
    words: &[u32; 200],
    told: &[Endpoint],
) -> Result<(), AllocError> {
    let (others, is_certain) = plains.others(rt.alloc(), hash, who)?;
    let len = others.len().min(want as usize);
    assert_eq!(rt; told.len(), len, "as many as wanted");
    check_others(rt, rt.alloc(), others.as_slice(), told)?;
    if is_certain {
        let chosen = chosen(rt, rt.alloc(), others, want, words)?;
        assert_eq!(rt; told, chosen.as_slice(), "the words choose");
    }
    Ok(())
}

fn told_counts(counts: &Counts) -> (u32, u32, u32) {
    (counts.complete, counts.downloaded, counts.incomplete)
}

/// An announce on both.
fn announce_both(
    rt: &(impl Abort + AllocGlobal),
    bucket: &mut Bucket,
    plains: &mut Plains,
    hash: InfoHash,
    who: Endpoint,
    minute: u32,
    dice: &mut Dice,
) -> Result<(), AllocError>
    requires { IsPeer who }
{
    let seed = dice.below(3) == 0;
    let completed = seed && dice.below(2) == 0;
    let want = dice.below(10);
    let words = dice.words();
    let held = Held {
        who,
        seed,
        stamp: Minute(plains.time),
    };
    let refused = plains.put(rt.alloc(), hash, held, completed)?;
    let answer = ask(
        bucket,
        minute,
        announce(hash, who, seed, completed, want),
        &words,
    );
    match &answer {
        Answer::Told { counts, peers } => {
            assert_eq!(rt; None, refused);
            assert_eq!(rt;
                told_counts(counts),
                plains.counts(&hash),
                "after an announce"
            );
            compare_told(rt, plains, &hash, &who, want, &words, peers.as_slice())?;
            plains.note(hash, who, mark_of(seed))?;
        }
        _ => assert_eq!(rt; Some(outcome_of(&answer)), refused, "refused"),
    }
    Ok(())
}

/// A stop on both.
fn stop_both(
    rt: &impl Abort,
    bucket: &mut Bucket,
    plains: &mut Plains,
    hash: InfoHash,
    who: Endpoint,
    minute: u32,
) -> Result<(), AllocError>
    requires { IsPeer who }
{
    plains.take(&hash, &who);
    plains.note(hash, who, Mark::Stopped)?;
    let stopped = ask(bucket, minute, Call::Stop { hash, who }, &WORDS);
    let (complete, downloaded, incomplete) = plains.counts(&hash);
    let told = Outcome::Told(complete, downloaded, incomplete, None);
    assert_eq!(rt; outcome_of(&stopped), told, "stopped");
    Ok(())
}

/// What another node says, on both.
fn sync_both(
    rt: &(impl Abort + AllocGlobal),
    bucket: &mut Bucket,
    plains: &mut Plains,
    hash: InfoHash,
    who: Endpoint,
    minute: u32,
    mark: Mark,
) -> Result<(), AllocError>
    requires { IsPeer who }
{
    let held = Held {
        who,
        seed: mark == Mark::Seed,
        stamp: Minute(plains.time),
    };
    let mut refused = None;
    if mark == Mark::Stopped {
        plains.take(&hash, &who);
    } else {
        refused = plains.put(rt.alloc(), hash, held, false)?;
    }
    let answer = ask(bucket, minute, Call::Sync { hash, who, mark }, &WORDS);
    assert_eq!(rt;
        outcome_of(&answer),
        refused.unwrap_or(Outcome::Applied),
        "applied"
    );
    let (counts, _) = bucket.scrape(0, Minute(minute), &hash);
    assert_eq!(rt; told_counts(&counts), plains.counts(&hash), "after a sync");
    Ok(())
}

/// A drain of both.
fn drain_both(rt: &impl Abort, bucket: &mut Bucket, plains: &mut Plains, minute: u32) {
    let drained = ask(bucket, minute, Call::Drain, &WORDS);
    match &drained {
        Answer::Drained { notes, dropped } => {
            assert_eq!(rt; notes.as_slice(), plains.notes.as_slice(), "drained");
            assert_eq!(rt; *dropped, 0, "dropped");
        }
        _ => panic!(rt; "no drain"),
    }
    plains.notes.clear();
}

/// A cleaning of both.
fn clean_both(rt: &impl Abort, bucket: &mut Bucket, plains: &Plains, minute: u32) {
    let held = bucket.clean(0, Minute(minute));
    let left = plains.held();
    assert_eq!(rt; (held, bucket.held()), (left, left), "cleaned");
}

/// Compares the rows of a scan with the torrents of the list.
fn compare_rows(rt: &impl Abort, plains: &Plains, rows: &[Row]) {
    assert_eq!(rt; rows.len(), plains.torrents.len(), "rows");
    assert!(rt; rows.is_sorted(), "ascending");
    for row in rows {
        assert!(rt; plains.place(&row.hash).is_some(), "known");
        let counts = told_counts(&row.counts);
        assert_eq!(rt; counts, plains.counts(&row.hash), "in a row");
    }
}

/// A scan of both.
fn scan_both(
    rt: &impl Abort,
    bucket: &mut Bucket,
    plains: &Plains,
    minute: u32,
) -> Result<(), AllocError> {
    let rows = bucket.scan(0, Minute(minute))?;
    compare_rows(rt, plains, rows.as_slice());
    Ok(())
}

fn call_both(
    rt: &(impl Abort + AllocGlobal),
    bucket: &mut Bucket,
    plains: &mut Plains,
    minute: u32,
    dice: &mut Dice,
) -> Result<(), AllocError> {
    plains.pass_to(minute);
    let hash = InfoHash([dice.below(7) as u8; 20]);
    let who = numbered(dice.below(11) as u8);
    match dice.below(20) {
        0 | 1 => stop_both(rt, bucket, plains, hash, who, minute)?,
        2 | 3 => {
            let (counts, known) = bucket.scrape(0, Minute(minute), &hash);
            assert_eq!(rt; told_counts(&counts), plains.counts(&hash), "scraped");
            assert_eq!(rt; known, plains.place(&hash).is_some(), "known");
        }
        4 => scan_both(rt, bucket, plains, minute)?,
        5 => clean_both(rt, bucket, plains, minute),
        6 => drain_both(rt, bucket, plains, minute),
        7 => sync_both(rt, bucket, plains, hash, who, minute, Mark::Leecher)?,
        8 => sync_both(rt, bucket, plains, hash, who, minute, Mark::Seed)?,
        9 => sync_both(rt, bucket, plains, hash, who, minute, Mark::Stopped)?,
        _ => announce_both(rt, bucket, plains, hash, who, minute, dice)?,
    }
    Ok(())
}

/// Makes random calls on both.
fn follow_plains(
    rt: &(impl Abort + AllocGlobal),
    sync: bool,
    calls: u32,
) -> Result<(), AllocError> {
    let mut dice = Dice { state: 5 };
    let mut bucket = Bucket::new(rt.alloc(), NARROW, sync)?;
    let mut plains = Plains {
        time: 0,
        torrents: Vec::new(rt.alloc()),
        sync,
        notes: Vec::new(rt.alloc()),
    };
    for _ in 0..calls {
        let minutes = match dice.below(200) {
            0 => 1400 + dice.below(60),
            1 | 2 | 3 | 4 | 5 => dice.below(60),
            6 | 7 | 8 | 9 | 10 | 11 | 12 | 13 | 14 | 15 | 16 | 17 | 18 | 19 => 1,
            _ => 0,
        };
        // Some callers' minutes lag behind.
        let minute = plains
            .time
            .saturating_add(minutes)
            .saturating_sub(dice.below(2));
        call_both(rt, &mut bucket, &mut plains, minute, &mut dice)?;
        assert_eq!(rt; bucket.time(), Minute(plains.time), "time");
    }
    Ok(())
}

#[test]
fn bucket_follows_a_plain_list(rt: HostRuntime) -> Result<(), Fail> {
    follow_plains(&rt, false, 5000)?;
    follow_plains(&rt, true, 5000)?;
    Ok(())
}
