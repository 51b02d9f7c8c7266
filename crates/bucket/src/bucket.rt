//! A bucket.

ghost use Rattle.std.specs.Prelude.{◌≡◌, ◌≤◌, [], ◌∷◌, ◌++◌, IfOk, ℕ, List, length, max, sum_by};
ghost use Rattle.tracker_model.specs.Answers.{with_peers};
ghost use Rattle.tracker_model.specs.Calls.{IsPeer, IsReport, IsWellFormed};
ghost use Rattle.tracker_model.specs.Kinds.{IsKindOf};
ghost use Rattle.tracker_model.specs.Making.{scanned};
ghost use Rattle.tracker_model.specs.Settings.{AreLimits};
ghost use Rattle.tracker_model.specs.Shape.{peers_of};
ghost use Rattle.tracker_model.specs.Stands.{StandsFor};
ghost use Rattle.tracker_model.specs.declared.answer.Answer.TheVariants.{Cleaned, Drained, Stats};
ghost use Rattle.tracker_model.specs.declared.call.Call.TheVariants.{Clean, Drain, Scan, Scrape, Stop, Sync};
ghost use Rattle.tracker_model.specs.declared.entry.Entry.{Entry};
ghost use Rattle.tracker_model.specs.declared.limits.TheConstants.{TORRENT_MINUTES};
ghost use Rattle.bucket.specs.Answers.{announced, applied, stopped};
ghost use Rattle.bucket.specs.Calls.{announce_of};
ghost use Rattle.bucket.specs.Public.{IsChosen, IsCleaned, IsFresh, KeepsOrder};
ghost use Rattle.bucket.specs.Table.{pairs_of};

use crate::calls::{announce, apply, clean, pass, refuse, scrape, stop};
use crate::joining::{JoinError, Joining};
use crate::outbox::{Outbox, mark_of};
use crate::torrents::Torrents;
use age_ring::AgeRing;
use ot_base::{Counts, Endpoint, InfoHash, Limits, Mark, Minute, Notes, Peers, Rows};
use std::alloc::{AllocError, Global};
use std::marker::{Brand, Model};
use std::sync::ledger::Blank;
use tracker_model::{Answer, Call, ReportAnswer, Stands};

/// One bucket of a tracker: the torrents of a part of all hashes, with their peers.
#[derive(Drop)]
pub struct Bucket {
    /// Boxed, since each call moves the bucket out of its lock and back: so it moves a few bytes.
    torrents: Box<Torrents>,
    outbox: Outbox,
}

impl Model for Bucket {
    ghost use Rattle.tracker_model.specs.Shape.{Shape};

    ghost Value = { Shape };

    ghost view = { λ b. record {
      settings = record { limits = b.torrents.value.limits; sync = b.outbox.sync };
      time = b.torrents.value.time;
      torrents = b.torrents.value.torrents;
      notes = b.outbox.notes;
      dropped = b.outbox.dropped;
    } };
}

impl Stands for Bucket {
    ghost use Rattle.std.specs.Prelude.{[], ◌∷◌, if◌then◌else◌};
    ghost use Rattle.tracker_model.specs.Stands.{StandsFor};

    ghost settings = { λ b. b.settings.limits.peers ∷ b.settings.limits.torrents ∷
        (if b.settings.sync then 1 else 0) ∷ [] };

    ghost stands = { λ b history. StandsFor history b };
}

impl Bucket {
    /// A bucket of which nothing has been asked, with limits from 1 to 1,000,000. Of memory it
    /// takes four bytes for each minute of a day.
    pub fn new(alloc: Global, limits: Limits, sync: bool) -> Result<Self, AllocError>
        requires { AreLimits limits }
        ensures settings { IfOk result (λ bucket. bucket.settings ≡
            record { limits = limits; sync = sync }) }
        ensures stands { IfOk result (λ bucket. StandsFor [] bucket) }
        ensures empty { IfOk result (λ bucket. bucket.torrents ≡ []) }
    {
        Ok(Bucket {
            torrents: Box::new(alloc, Torrents::new(alloc, limits)?)?,
            outbox: Outbox::new(alloc, sync),
        })
    }

    /// Answers a call. A caller is only named by its number. For every history that the bucket
    /// stood for, it stands afterwards for that history with this entry, so the answer is right
    /// after it. An announce is told the peers that `words` choose, in the order that its torrent
    /// and family have then: an announce by one of the peers leaves that order where all of them
    /// are live. After a cleaning all that is stored is live and known. A scrape, a cleaning, a
    /// drain and a sync that is a stop or names a live peer want no memory; nor do, where sync is
    /// off, a stop and an announce of a live peer.
    ///
    /// Only a scan and a cleaning look at all torrents. What the others cost doesn't grow with what
    /// is stored, but for look-ups by hash and by endpoint, and for what ages out just then.
    pub fn call(&mut self, caller: u32, minute: Minute, call: Call, words: &[u32; 200]) -> Answer
        requires formed { IsWellFormed call }
        ensures settings { self.new.settings ≡ self.old.settings }
        ensures kind { IsKindOf self.old.settings call result }
        ensures stands { (history : List Entry) → StandsFor history self.old →
            StandsFor (history ++
            (record { caller = caller; minute = minute; call = call; answer = result }) ∷ [])
            self.new }
        ensures chosen { IsChosen words.now self.new call result }
        ensures order { KeepsOrder call self.old self.new }
        ensures cleaned { IsCleaned call self.new }
    {
        // Each arm returns: a value that leaves the match would be moved once more, and answers are
        // large.
        match call {
            Call::Announce { .. } | Call::Stop { .. } => {
                let mut peers = Peers::new();
                match self.report(caller, minute, call, words, &mut peers) {
                    ReportAnswer::Told { counts } => return Answer::Told { counts, peers },
                    ReportAnswer::SwarmFull { count } => return Answer::SwarmFull { count },
                    ReportAnswer::BucketFull { count } => return Answer::BucketFull { count },
                    ReportAnswer::NoMemory => return Answer::NoMemory,
                }
            }
            Call::Scrape { hash } => {
                let (counts, known) = self.scrape(caller, minute, &hash);
                return Answer::Stats { counts, known };
            }
            Call::Scan => {
                let rows = match self.scan(caller, minute) {
                    Ok(rows) => rows,
                    Err(_) => return Answer::NoMemory,
                };
                return Answer::Rows { rows };
            }
            Call::Clean => {
                return Answer::Cleaned {
                    held: self.clean(caller, minute),
                };
            }
            Call::Sync { hash, who, mark } => {
                let limits = self.limits();
                match self.apply(minute, &hash, &who, mark) {
                    Ok(()) => return Answer::Applied,
                    Err(error) => return error.answer(&limits),
                }
            }
            Call::Drain => {
                let (notes, dropped) = self.drain(minute);
                return Answer::Drained { notes, dropped };
            }
        }
    }

    /// What `call` answers to an announce or a stop, without the room for an answer's peers: those
    /// that an announce is told are added to an empty list.
    pub fn report(
        &mut self,
        caller: u32,
        minute: Minute,
        call: Call,
        words: &[u32; 200],
        told: &mut Peers,
    ) -> ReportAnswer
        requires formed { IsWellFormed call }
        requires report { IsReport call }
        requires empty { told.old ≡ [] }
        ensures settings { self.new.settings ≡ self.old.settings }
        ensures kind { IsKindOf self.old.settings call (with_peers told.new result) }
        ensures stands { (history : List Entry) → StandsFor history self.old →
            StandsFor (history ++ (record {
              caller = caller;
              minute = minute;
              call = call;
              answer = with_peers told.new result;
            }) ∷ []) self.new }
        ensures chosen { IsChosen words.now self.new call (with_peers told.new result) }
        ensures order { KeepsOrder call self.old self.new }
    {
        match call {
            Call::Announce {
                hash,
                who,
                seed,
                completed,
                want,
            } => {
                let joining = Joining {
                    hash,
                    who,
                    seed,
                    completed,
                };
                let limits = self.limits();
                match self.announce(minute, &joining, want, words, told) {
                    Ok(counts) => ReportAnswer::Told { counts },
                    Err(error) => error.report(&limits),
                }
            }
            Call::Stop { hash, who } => match self.stop(minute, &hash, &who) {
                Ok(counts) => ReportAnswer::Told { counts },
                Err(_) => ReportAnswer::NoMemory,
            },
            Call::Scrape { .. } | Call::Scan | Call::Clean | Call::Sync { .. } | Call::Drain => {
                unreachable!()
            }
        }
    }

    /// What `report` answers to an announce. Room for the note is made first. Where there is no
    /// memory for it nothing else than the time changes.
    fn announce(
        &mut self,
        minute: Minute,
        joining: &Joining,
        want: u32,
        words: &[u32; 200],
        told: &mut Peers,
    ) -> Result<Counts, JoinError>
        requires formed { IsWellFormed (announce_of joining.now want) }
        requires empty { told.old ≡ [] }
        ensures settings { self.new.settings ≡ self.old.settings }
        ensures kind { IsKindOf self.old.settings (announce_of joining.now want)
            (announced self.old.settings.limits told.new result) }
        ensures stands { (caller : ℕ) (history : List Entry) → StandsFor history self.old →
            StandsFor (history ++ (record {
              caller = caller;
              minute = minute;
              call = announce_of joining.now want;
              answer = announced self.old.settings.limits told.new result;
            }) ∷ []) self.new }
        ensures chosen { IsChosen words.now self.new (announce_of joining.now want)
            (announced self.old.settings.limits told.new result) }
        ensures order { KeepsOrder (announce_of joining.now want) self.old self.new }
    {
        let now = self.at_least(minute);
        if self.outbox.reserve().is_err() {
            return Err(refuse::<Brand>(&mut self.torrents, now, joining, Blank::new(1)));
        }
        let counts = announce::<Brand>(
            &mut self.torrents,
            now,
            joining,
            want,
            words,
            told,
            Blank::new(1),
        )?;
        self.outbox
            .add(&joining.hash, &joining.who, mark_of(joining.seed));
        Ok(counts)
    }

    /// What `report` answers to a stop. Room for the note is made first.
    fn stop(
        &mut self,
        minute: Minute,
        hash: &InfoHash,
        who: &Endpoint,
    ) -> Result<Counts, AllocError>
        requires { IsPeer who.now }
        ensures settings { self.new.settings ≡ self.old.settings }
        ensures kind { IsKindOf self.old.settings (Stop hash.now who.now) (stopped result) }
        ensures stands { (caller : ℕ) (history : List Entry) → StandsFor history self.old →
            StandsFor (history ++ (record {
              caller = caller;
              minute = minute;
              call = Stop hash.now who.now;
              answer = stopped result;
            }) ∷ []) self.new }
    {
        let now = self.at_least(minute);
        if let Err(error) = self.outbox.reserve() {
            pass::<Brand>(&mut self.torrents, now, Blank::new(1));
            return Err(error);
        }
        let counts = stop::<Brand>(&mut self.torrents, now, hash, who, Blank::new(1));
        self.outbox.add(hash, who, Mark::Stopped);
        Ok(counts)
    }

    /// What `call` answers to a sync. It makes no note.
    fn apply(
        &mut self,
        minute: Minute,
        hash: &InfoHash,
        who: &Endpoint,
        mark: Mark,
    ) -> Result<(), JoinError>
        requires { IsPeer who.now }
        ensures settings { self.new.settings ≡ self.old.settings }
        ensures kind { IsKindOf self.old.settings (Sync hash.now who.now mark)
            (applied self.old.settings.limits result) }
        ensures stands { (caller : ℕ) (history : List Entry) → StandsFor history self.old →
            StandsFor (history ++ (record {
              caller = caller;
              minute = minute;
              call = Sync hash.now who.now mark;
              answer = applied self.old.settings.limits result;
            }) ∷ []) self.new }
    {
        let now = self.at_least(minute);
        apply::<Brand>(&mut self.torrents, now, hash, who, mark, Blank::new(1))
    }

    /// What `call` answers to a drain: the notes, and how many were dropped.
    fn drain(&mut self, minute: Minute) -> (Notes, u32)
        ensures settings { self.new.settings ≡ self.old.settings }
        ensures stands { (caller : ℕ) (history : List Entry) → StandsFor history self.old →
            StandsFor (history ++ (record {
              caller = caller;
              minute = minute;
              call = Drain;
              answer = Drained result.0 result.1;
            }) ∷ []) self.new }
    {
        let now = self.at_least(minute);
        pass::<Brand>(&mut self.torrents, now, Blank::new(1));
        self.outbox.drain()
    }

    /// What `call` answers to a scrape, the torrent's counts and whether it is known, without the
    /// room for an answer's peers.
    pub fn scrape(&mut self, caller: u32, minute: Minute, hash: &InfoHash) -> (Counts, bool)
        ensures settings { self.new.settings ≡ self.old.settings }
        ensures stands { (history : List Entry) → StandsFor history self.old →
            StandsFor (history ++ (record {
              caller = caller;
              minute = minute;
              call = Scrape hash.now;
              answer = Stats result.0 result.1;
            }) ∷ []) self.new }
    {
        let now = self.at_least(minute);
        scrape::<Brand>(&mut self.torrents, now, hash, Blank::new(1))
    }

    /// What `call` answers to a scan: the counts of all known torrents, ascending by hash.
    pub fn scan(&mut self, caller: u32, minute: Minute) -> Result<Rows, AllocError>
        ensures settings { self.new.settings ≡ self.old.settings }
        ensures stands { (history : List Entry) → StandsFor history self.old →
            StandsFor (history ++ (record {
              caller = caller;
              minute = minute;
              call = Scan;
              answer = scanned result;
            }) ∷ []) self.new }
    {
        let now = self.at_least(minute);
        clean::<Brand>(&mut self.torrents, now, Blank::new(1));
        self.torrents.rows()
    }

    /// What `call` answers to a cleaning: how many peers are left. All that is stored is live and
    /// known then.
    pub fn clean(&mut self, caller: u32, minute: Minute) -> u64
        ensures settings { self.new.settings ≡ self.old.settings }
        ensures stands { (history : List Entry) → StandsFor history self.old →
            StandsFor (history ++ (record {
              caller = caller;
              minute = minute;
              call = Clean;
              answer = Cleaned result;
            }) ∷ []) self.new }
        ensures fresh { IsFresh self.new }
    {
        let now = self.at_least(minute);
        clean::<Brand>(&mut self.torrents, now, Blank::new(1));
        self.torrents.held()
    }

    /// How many peers a torrent may have, and how many torrents there may be.
    pub fn limits(&self) -> Limits
        ensures { result ≡ self.now.settings.limits }
    {
        self.torrents.limits()
    }

    /// Whether it keeps notes for other nodes.
    pub fn is_synced(&self) -> bool
        ensures { result ≡ self.now.settings.sync }
    {
        self.outbox.is_synced()
    }

    /// The bucket's time: the greatest minute that it was handed, at first 0.
    pub fn time(&self) -> Minute
        ensures { result.0 ≡ self.now.time }
    {
        self.torrents.time()
    }

    /// How many peers are stored over all torrents, those that are no longer live among them.
    pub fn held(&self) -> u64
        ensures { result ≡ sum_by (λ torrent. length (peers_of torrent)) self.now.torrents }
    {
        self.torrents.held()
    }

    /// The ring of the torrents, which has their hashes in order, each with the minute of its last
    /// touch. Its time is at most the bucket's.
    pub fn ring(&self) -> &AgeRing<InfoHash>
        ensures pairs { result.now.pairs ≡ pairs_of self.now.torrents }
        ensures time { result.now.time ≤ self.now.time }
        ensures ages { result.now.ages ≡ TORRENT_MINUTES }
    {
        self.torrents.ring()
    }

    /// The bucket's time, once it was handed a minute.
    fn at_least(&self, minute: Minute) -> Minute
        ensures { result.0 ≡ max minute.0 self.now.time }
    {
        Minute(minute.0.max(self.torrents.time().0))
    }
}
