//! All torrents of a bucket.

use crate::changes::{add_last, drop_due};
use crate::hints::{fit, name_of};
use crate::index::Index;
use crate::joining::{JoinError, Joining};
use crate::stored::{Stored, peers_held};
use age_ring::AgeRing;
use node_table::Steps;
use ot_base::laws::{equal_hashes, hashes_in_order};
use ot_base::{Counts, Endpoint, InfoHash, Limits, Minute, Peers, Row, Rows};
use place_hints::{FEW, Hints};
use std::alloc::{AllocError, Global};
use std::marker::Model;
use std::sync::ledger::Ledger;
use tracker_model::TORRENT_MINUTES;

/// The torrents that are known, in an order that grows at its end: where one goes, the last one
/// moves into its place. Contracts see their list, the limits and the time.
///
/// The ring has their hashes by the minute of their last touch, and the list beside it what else is
/// stored of them, in the same order. The index tells the place of a hash.
#[derive(Drop)]
pub struct Torrents {
    limits: Limits,
    ring: AgeRing<InfoHash>,
    index: Index,
    /// Where to look first; none for a few torrents.
    hints: Hints,
    list: Vec<Stored>,
}

impl Model for Torrents {
    ghost use Rattle.bucket.specs.Index.{place_in};
    ghost use Rattle.bucket.specs.Table.{IsKept, Table, torrents_by};

    ghost Value = { Table };

    ghost view = { λ t. record {
      limits = t.limits;
      time = t.ring.time;
      torrents = torrents_by t.ring.pairs t.list.items;
    } };

    ghost invariant = { λ t. IsKept t.limits t.ring (place_in t.index) t.list.items };
}

impl Torrents {
    ghost use Rattle.std.specs.Prelude.{◌≡◌, ◌==◌, ◌+◌, ◌<◌, ◌≤◌, [], ◌∷◌, ◌++◌, IfOk, IfSome, IsTrue, OnErr, OnOk, MatchOption, Some, length, slice_get, sum_by, None};
    ghost use Rattle.std.specs.List.{AllZip};
    ghost use Rattle.ot_base.specs.Address.{family_of};
    ghost use Rattle.tracker_model.specs.Settings.{AreLimits};
    ghost use Rattle.tracker_model.specs.Shape.{Torrent, peers_of, torrent_of};
    ghost use Rattle.tracker_model.specs.declared.limits.TheConstants.{TORRENT_MINUTES};
    ghost use Rattle.swarm.specs.Peers.{choice_of};
    ghost use Rattle.bucket.specs.Calls.{Adds, AreRowsOf, Forgets, JoinsAt, Stays};
    ghost use Rattle.bucket.specs.Table.{IsSound, pairs_of};
    ghost use Rattle.bucket.specs.Torrents.{Freshens, Turns, is_full_for, of_family, place_of, tally, without_peer};

    /// No torrents, at the minute 0. Of memory it takes four bytes for each of the 1,440 ages.
    pub fn new(alloc: Global, limits: Limits) -> Result<Self, AllocError>
        requires { AreLimits limits }
        ensures { IfOk result (λ torrents. torrents ≡
            record { limits = limits; time = 0; torrents = [] }) }
    {
        Ok(Torrents {
            limits,
            ring: AgeRing::new(alloc, TORRENT_MINUTES, 0)?,
            index: Index::new(alloc),
            hints: Hints::new(alloc),
            list: Vec::new(alloc),
        })
    }

    /// How many torrents there may be, and peers in each.
    pub fn limits(&self) -> Limits
        ensures { result ≡ self.now.limits }
    {
        self.limits
    }

    /// The greatest time that they were moved on to.
    pub fn time(&self) -> Minute
        ensures time { result.0 ≡ self.now.time }
        ensures sound { IsSound self.now }
    {
        Minute(self.ring.time())
    }

    /// The ring, which has the hashes in their order with their touches.
    pub fn ring(&self) -> &AgeRing<InfoHash>
        ensures pairs { result.now.pairs ≡ pairs_of self.now.torrents }
        ensures time { result.now.time ≡ self.now.time }
        ensures ages { result.now.ages ≡ TORRENT_MINUTES }
    {
        &self.ring
    }

    /// How many peers there are in all of them.
    pub fn held(&self) -> u64
        ensures { result ≡ sum_by (λ torrent. length (peers_of torrent)) self.now.torrents }
    {
        peers_held(&self.list)
    }

    /// The place of the torrent of a hash.
    pub fn place(&self, hash: &InfoHash) -> Option<u32>
        ensures { result ≡ place_of hash.now self.now.torrents }
    {
        if self.ring.len() <= FEW {
            return self.look_through(hash);
        }
        match self.hinted(hash) {
            Some(place) => Some(place),
            None => self.index.get(hash),
        }
    }

    /// The place that is hinted at, where the torrent stands there.
    fn hinted(&self, hash: &InfoHash) -> Option<u32>
        ensures { IfSome result (λ place. place_of hash.now self.now.torrents ≡ Some place) }
    {
        let place = self.hints.get(name_of(hash))?;
        if !self.stands_at(hash, place) {
            return None;
        }
        Some(place)
    }

    /// Whether there is a place of that number, and the torrent of the hash stands there.
    fn stands_at(&self, hash: &InfoHash, place: u32) -> bool
        ensures { IsTrue result → place_of hash.now self.now.torrents ≡ Some place }
    {
        equal_hashes();
        place < self.ring.len() && self.ring.item(place) == *hash
    }

    /// The same, without the index: each torrent is looked at, from the first to the last.
    fn look_through(&self, hash: &InfoHash) -> Option<u32>
        ensures { result ≡ place_of hash.now self.now.torrents }
    {
        equal_hashes();
        for place in 0..self.ring.len() {
            if self.ring.item(place) == *hash {
                return Some(place);
            }
        }
        None
    }

    /// The counts of the torrent at a place.
    pub fn counts(&self, place: u32) -> Counts
        requires { place < length self.now.torrents }
        ensures { MatchOption (slice_get self.now.torrents place) ⊥
            (λ torrent. result ≡ tally torrent) }
    {
        self.list[place as usize].counts()
    }

    /// Whether there are as many torrents as there may be.
    pub fn is_full(&self) -> bool
        ensures { result ≡ (length self.now.torrents == self.now.limits.torrents) }
    {
        self.ring.len() == self.limits.torrents
    }

    /// Whether an endpoint isn't one of the peers of the torrent at a place, and these are as many
    /// as there may be.
    pub fn is_full_for(&self, place: u32, who: &Endpoint) -> bool
        requires { place < length self.now.torrents }
        ensures { MatchOption (slice_get self.now.torrents place) ⊥
            (λ torrent. result ≡ is_full_for self.now.limits.peers who.now torrent) }
    {
        self.list[place as usize].is_full_for(self.limits.peers, who)
    }

    /// Adds to an empty list the endpoints that the words choose among the peers of the torrent at
    /// a place that are of the asker's family and not the asker.
    pub fn choose(
        &self,
        place: u32,
        asker: &Endpoint,
        want: u32,
        words: &[u32; 200],
        told: &mut Peers,
    )
        requires within { place < length self.now.torrents }
        requires few { want ≤ 200 }
        requires empty { told.old ≡ [] }
        ensures { MatchOption (slice_get self.now.torrents place) ⊥
            (λ torrent. told.new ≡ choice_of words.now asker.now want
            (of_family (family_of asker.now.addr) torrent)) }
    {
        self.list[place as usize].choose(asker, want, words, told);
    }

    /// The rows of all torrents, ascending by hash.
    pub fn rows(&self) -> Result<Rows, AllocError>
        ensures { IfOk result (λ rows. AreRowsOf self.now rows) }
    {
        hashes_in_order();
        let mut rows = Vec::with_capacity(*self.list.allocator(), self.list.len())?;
        for (hash, place) in &self.index.places {
            rows.push(Row {
                hash: *hash,
                counts: self.list[*place as usize].counts(),
            })?;
        }
        Ok(Rows::from(rows))
    }

    /// Moves the time on. The torrents that weren't touched for a day go. Where time stands still
    /// this costs nothing.
    pub fn move_on<L: Ledger>(&mut self, now: Minute, steps: &mut Steps<L>)
        requires { self.old.time ≤ now.0 }
        ensures { Forgets now.0 self.old self.new }
    {
        let start = self.ring.time();
        if start == now.0 {
            return;
        }
        for minute in 0..(now.0 - start).min(TORRENT_MINUTES) {
            self.pass_to(start + minute + 1, steps);
        }
        self.pass_to(now.0, steps);
        self.release();
    }

    /// The same, at the cost of a look at each minute for each torrent that goes.
    fn pass_to<L: Ledger>(&mut self, minute: u32, steps: &mut Steps<L>)
        requires { self.old.time ≤ minute }
        ensures { Forgets minute self.old self.new }
    {
        drop_due(
            &mut self.ring,
            &mut self.index,
            &mut self.list,
            minute,
            steps,
        );
        self.ring.advance(minute, steps);
    }

    /// Gives memory back where a third of the room or more is spare: at least a sixth of the
    /// torrents that the room was made for have left it, so it doesn't come and go with a few
    /// torrents.
    fn release(&mut self)
        ensures { self.new ≡ self.old }
    {
        let len = self.ring.len();
        if self.ring.spare() > len / 2 + 8 {
            self.ring.shrink();
            self.list.shrink_to_fit();
        }
        fit(&mut self.hints, &self.ring);
    }

    /// Drops the peers that aren't live of the torrent at a place.
    pub fn refresh<L: Ledger>(&mut self, place: u32, steps: &mut Steps<L>)
        requires { place < length self.old.torrents }
        ensures stays { Stays self.old self.new }
        ensures turns { Turns place (Freshens self.old.time) self.old.torrents self.new.torrents }
    {
        self.list[place as usize].move_on(Minute(self.ring.time()), steps);
    }

    /// Drops the peers that aren't live of all torrents.
    pub fn refresh_all<L: Ledger>(&mut self, steps: &mut Steps<L>)
        ensures stays { Stays self.old self.new }
        ensures freshens { AllZip (Freshens self.old.time) self.old.torrents self.new.torrents }
    {
        for place in 0..self.ring.len() {
            self.refresh(place, steps);
        }
    }

    /// Lets an endpoint take part in the torrent at a place. Its peers that aren't live go first;
    /// where it is refused nothing else changes.
    pub fn put<L: Ledger>(
        &mut self,
        place: u32,
        joining: &Joining,
        steps: &mut Steps<L>,
    ) -> Result<(), JoinError>
        requires { place < length self.old.torrents }
        ensures stays { Stays self.old self.new }
        ensures joins { JoinsAt place joining.now self.old self.new result }
    {
        let now = Minute(self.ring.time());
        self.list[place as usize].join(self.limits.peers, now, joining, steps)?;
        self.ring.renew(place, steps);
        self.hints.set(name_of(&joining.hash), place);
        Ok(())
    }

    /// Lets an endpoint take part in a torrent that isn't there yet, and gives its place. Where it
    /// is refused nothing changes.
    pub fn add<L: Ledger>(
        &mut self,
        joining: &Joining,
        steps: &mut Steps<L>,
    ) -> Result<u32, JoinError>
        requires { place_of joining.now.hash self.old.torrents ≡ None }
        ensures stays { Stays self.old self.new }
        ensures adds { Adds joining.now self.old self.new result }
        ensures place { IfOk result (λ place. place ≡ length self.old.torrents) }
    {
        let place = self.ring.len();
        if place == self.limits.torrents {
            return Err(JoinError::BucketFull);
        }
        let now = Minute(self.ring.time());
        let stored = Stored::with_first(*self.list.allocator(), now, joining, steps)?;
        add_last(
            &mut self.ring,
            &mut self.index,
            &mut self.list,
            joining.hash,
            stored,
            steps,
        )?;
        fit(&mut self.hints, &self.ring);
        self.hints.set(name_of(&joining.hash), place);
        Ok(place)
    }

    /// Takes an endpoint out of the torrent at a place, if it is one of its peers.
    pub fn take<L: Ledger>(&mut self, place: u32, who: &Endpoint, steps: &mut Steps<L>)
        requires { place < length self.old.torrents }
        ensures stays { Stays self.old self.new }
        ensures turns { Turns place (λ before after. after ≡ without_peer who.now before)
            self.old.torrents self.new.torrents }
    {
        self.list[place as usize].take(who, steps);
    }
}
