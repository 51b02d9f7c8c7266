//! What is stored of one torrent.

ghost use Rattle.std.specs.Prelude.{◌≡◌, ℕ, ◌+◌, ◌<◌, ◌≤◌, ◌⊎◌, ◌==◌, [], not, ◌&&◌, IfOk, IsSome, OnErr, OnOk, find, is_none, is_some, None, length, sum_by};
ghost use Rattle.ot_base.specs.Address.{family_of};
ghost use Rattle.tracker_model.specs.Known.{is_seed};
ghost use Rattle.tracker_model.specs.Steps.{one_more};
ghost use Rattle.swarm.specs.Peers.{choice_of, is_of, other_one, place_of, put_peer, seed_one, without_peer};
ghost use Rattle.swarm.specs.Shape.{of_family, peer_count, with_family};
ghost use Rattle.swarm.specs.declared.members.TheConstants.{MOST_PEERS};
ghost use Rattle.bucket.specs.Stored.{IsFit, IsTidySwarm, JoinsStored, PassesTo, empty_stored, put_stored, stood_as_seed};

use crate::joining::{JoinError, Joining};
use node_table::Steps;
use ot_base::{Counts, Endpoint, Family, Minute, Peers};
use std::alloc::{AllocError, Global};
use std::sync::ledger::Ledger;
use swarm::{Put, Swarm};

/// What is stored of a torrent beside its hash and its touch, which stand in the ring of all
/// torrents.
#[derive(Drop)]
pub struct Stored {
    /// How often it was downloaded since it is known, up to 4,294,967,295.
    pub downloaded: u32,
    pub swarm: Swarm,
}

impl Stored {
    /// A torrent in which an endpoint is the first to take part, at a minute.
    pub fn with_first<L: Ledger>(
        alloc: Global,
        now: Minute,
        joining: &Joining,
        steps: &mut Steps<L>,
    ) -> Result<Self, AllocError>
        ensures value { IfOk result (λ stored. stored ≡
            put_stored joining.now (empty_stored now.0)) }
        ensures fit { (limit : ℕ) → 1 ≤ limit → IfOk result (IsFit limit now.0) }
    {
        let mut stored = Stored::new(alloc, now)?;
        stored.put(joining, steps)?;
        Ok(stored)
    }

    /// A torrent with no peer, at a minute.
    fn new(alloc: Global, now: Minute) -> Result<Self, AllocError>
        ensures { IfOk result (λ stored. stored ≡ empty_stored now.0) }
    {
        Ok(Stored {
            downloaded: 0,
            swarm: Swarm::new(alloc, now)?,
        })
    }

    /// How many peers it has.
    pub fn len(&self) -> u32
        ensures len { result ≡ peer_count self.now.swarm }
        ensures most { result ≤ MOST_PEERS }
    {
        self.swarm.len(Family::Four) + self.swarm.len(Family::Six)
    }

    /// Whether an endpoint is one of its peers.
    pub fn has(&self, who: &Endpoint) -> bool
        ensures { result ≡
            is_some (place_of who.now (of_family (family_of who.now.addr) self.now.swarm)) }
    {
        self.swarm.place(who).is_some()
    }

    /// Whether an endpoint isn't one of its peers, and these are as many as there may be.
    pub fn is_full_for(&self, limit: u32, who: &Endpoint) -> bool
        ensures { result ≡
            (is_none (find (is_of who.now) (of_family (family_of who.now.addr) self.now.swarm))
            && (peer_count self.now.swarm == limit)) }
    {
        self.len() == limit && !self.has(who)
    }

    /// The torrent's counts, over all of its peers.
    pub fn counts(&self) -> Counts
        ensures { result ≡ record {
          complete = sum_by seed_one self.now.swarm.fours + sum_by seed_one self.now.swarm.sixes;
          downloaded = self.now.downloaded;
          incomplete =
              sum_by other_one self.now.swarm.fours + sum_by other_one self.now.swarm.sixes;
        } }
    {
        Counts {
            complete: self.swarm.complete(),
            downloaded: self.downloaded,
            incomplete: self.swarm.incomplete(),
        }
    }

    /// Moves the time on. The peers that weren't heard of for 45 minutes or more go. Where time
    /// stands still this costs nothing.
    pub fn move_on<L: Ledger>(&mut self, now: Minute, steps: &mut Steps<L>)
        requires { self.old.swarm.time ≤ now.0 }
        ensures passes { PassesTo now.0 self.old self.new }
        ensures fit { (limit : ℕ) → peer_count self.old.swarm ≤ limit → IsFit limit now.0 self.new }
    {
        if self.swarm.time() == now {
            // Each peer is live already.
            return;
        }
        self.swarm.advance(now, steps);
        self.peers_are_tidy();
    }

    /// Lets an endpoint take part at a minute. The peers that aren't live go first; where it is
    /// refused nothing else changes.
    pub fn join<L: Ledger>(
        &mut self,
        limit: u32,
        now: Minute,
        joining: &Joining,
        steps: &mut Steps<L>,
    ) -> Result<(), JoinError>
        requires past { self.old.swarm.time ≤ now.0 }
        requires few { peer_count self.old.swarm ≤ limit }
        requires limited { limit ≤ MOST_PEERS }
        ensures joins { JoinsStored limit now.0 joining.now self.old self.new result }
        ensures fit { IsFit limit now.0 self.new }
    {
        self.move_on(now, steps);
        if self.is_full_for(limit, &joining.who) {
            return Err(JoinError::SwarmFull);
        }
        self.put(joining, steps)?;
        Ok(())
    }

    /// Lets an endpoint take part at the swarm's time. Only a new one may want memory, which
    /// changes nothing.
    fn put<L: Ledger>(&mut self, joining: &Joining, steps: &mut Steps<L>) -> Result<(), AllocError>
        requires { IsSome (place_of joining.now.who
            (of_family (family_of joining.now.who.addr) self.old.swarm)) ⊎
            (peer_count self.old.swarm < MOST_PEERS) }
        ensures ok { OnOk result (self.new ≡ put_stored joining.now self.old) }
        ensures err { OnErr result (self.new ≡ self.old) }
        ensures fresh { OnErr result (place_of joining.now.who
            (of_family (family_of joining.now.who.addr) self.old.swarm) ≡ None) }
        ensures tidy { IsTidySwarm self.new.swarm }
    {
        let outcome = self.swarm.put(joining.who, joining.seed, steps);
        self.peers_are_tidy();
        let put = outcome?;
        if joining.completed && !was_seed(put) {
            self.downloaded = self.downloaded.saturating_add(1);
        }
        Ok(())
    }

    /// Takes out an endpoint, if it is one of the peers.
    pub fn take<L: Ledger>(&mut self, who: &Endpoint, steps: &mut Steps<L>)
        ensures value { self.new ≡ record self.old {
          swarm = with_family (family_of who.now.addr) self.old.swarm (without_peer who.now
              (of_family (family_of who.now.addr) self.old.swarm));
        } }
        ensures fit { (limit time : ℕ) → IsFit limit time self.old → IsFit limit time self.new }
    {
        self.swarm.take(who, steps);
        self.peers_are_tidy();
    }

    /// A law of the peers of every swarm.
    fn peers_are_tidy(&self)
        ensures { IsTidySwarm self.now.swarm }
    {
        self.swarm.time();
    }

    /// Adds to an empty list the endpoints that the words choose among those of the asker's family
    /// but the asker's own.
    pub fn choose(&self, asker: &Endpoint, want: u32, words: &[u32; 200], told: &mut Peers)
        requires few { want ≤ 200 }
        requires empty { told.old ≡ [] }
        ensures { told.new ≡ choice_of words.now asker.now want
            (of_family (family_of asker.now.addr) self.now.swarm) }
    {
        self.swarm.choose(asker, want, words, told);
    }
}

/// How many peers there are in all of them.
pub fn peers_held(list: &[Stored]) -> u64
    requires { length list.now ≤ 1000000 }
    ensures { result ≡ sum_by (λ stored. peer_count stored.swarm) list.now }
{
    let mut total = 0;
    for stored in list {
        total += u64::from(stored.len());
    }
    total
}

/// Whether the endpoint that was put was a seed before.
fn was_seed(put: Put) -> bool
    ensures { result ≡ stood_as_seed put }
{
    match put {
        Put::Fresh => false,
        Put::Again { seed } => seed,
    }
}
