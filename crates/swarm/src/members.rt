//! The peers of one family.

use crate::changes::{add_last, drop_due, one_if, remove_at, renew_at};
use crate::choice::choose_others;
use crate::hints::{fit, name_of};
use crate::index::Index;
use crate::lookup::{find, stands_at};
use crate::order::Order;
use node_table::Steps;
use ot_base::{Endpoint, Held, Minute, Peers};
use place_hints::Hints;
use std::alloc::{AllocError, Global};
use std::marker::Model;
use std::sync::ledger::Ledger;

/// A peer that wasn't heard of for so many minutes goes.
pub const PEER_AGES: u32 = 45;

/// How many peers of both families a swarm holds at most.
pub const MOST_PEERS: u32 = 1_000_000;

/// What putting a peer found.
#[derive(Clone, Copy, Debug, PartialEq, Eq)]
pub enum Put {
    /// The endpoint is new, and stands last in its family's order.
    Fresh,
    /// The endpoint was held already, and keeps its place in the order.
    Again {
        /// Whether it was a seed before.
        seed: bool,
    },
}

/// The peers of one family in their order, with an index by endpoint, and a running count of seeds.
#[derive(Drop)]
pub struct Members {
    order: Order,
    index: Index,
    /// Which of them are seeds, in their order: what the index tells too, but a flag is found by its
    /// place.
    flags: Vec<bool>,
    /// Where to look before the index is asked; none for a few peers.
    hints: Hints,
    seeds: u32,
    /// The place that was put to last. An endpoint is looked for there first, since a peer is told
    /// others right after it is put; nothing else rests on it.
    recent: u32,
}

impl Model for Members {
    ghost use Rattle.swarm.specs.Index.{place_in};
    ghost use Rattle.swarm.specs.Members.{HeldAt, AreKept, peers_by};

    ghost Value = { HeldAt };

    ghost view = { λ m. record {
      peers = peers_by (place_in m.index) m.order.pairs;
      time = m.order.time;
    } };

    ghost invariant = { λ m. AreKept m.order (place_in m.index) m.flags.items m.seeds };
}

impl Members {
    ghost use Rattle.std.specs.Prelude.{◌≡◌, ◌+◌, ◌*◌, ◌<◌, ◌≤◌, [], ◌⊎◌, ◌↔◌, All, IsTrue, true, IfOk, OnOk, OnErr, IfSome, IsSome, length, find, map, sum_by, slice_get, filter};
    ghost use Rattle.std.specs.List.Sorted.{IsPermutation};
    ghost use Rattle.age_ring.specs.Ring.{items_of, stamps_of};
    ghost use Rattle.ot_base.specs.declared.peer.Held.{Held};
    ghost use Rattle.swarm.specs.Members.{HeldAt, AreOrderly, Expires};
    ghost use Rattle.swarm.specs.Peers.{is_of, is_young, place_of, put_peer, put_answer, without_peer};
    ghost use Rattle.swarm.specs.Peers.{choice_of, endpoints_of, other_one, seed_one};

    /// No peers, at a time. Of memory it takes four bytes for each age.
    pub fn new(alloc: Global, time: u32) -> Result<Self, AllocError>
        ensures peers { IfOk result (λ members. members.peers ≡ []) }
        ensures time { IfOk result (λ members. members.time ≡ time) }
    {
        Ok(Members {
            order: Order::new(alloc, PEER_AGES, time)?,
            index: Index::new(alloc),
            flags: Vec::new(alloc),
            hints: Hints::new(alloc),
            seeds: 0,
            recent: 0,
        })
    }

    /// How many peers there are.
    pub fn len(&self) -> u32
        ensures len { result ≡ length self.now.peers }
        ensures most { result ≤ MOST_PEERS }
    {
        self.order.len()
    }

    /// Whether there is none.
    pub fn is_empty(&self) -> bool
        ensures { IsTrue result ↔ (self.now.peers ≡ []) }
    {
        self.order.is_empty()
    }

    /// How many of them are seeds.
    pub fn seeds(&self) -> u32
        ensures seeds { result ≡ sum_by seed_one self.now.peers }
        ensures within { result ≤ length self.now.peers }
        ensures most { length self.now.peers ≤ MOST_PEERS }
    {
        self.seeds
    }

    /// How many of them aren't.
    pub fn leechers(&self) -> u32
        ensures leechers { result ≡ sum_by other_one self.now.peers }
        ensures within { result ≤ length self.now.peers }
        ensures most { length self.now.peers ≤ MOST_PEERS }
    {
        self.order.len() - self.seeds
    }

    /// The time of the last `advance`, or that at which it began.
    pub fn time(&self) -> u32
        ensures time { result ≡ self.now.time }
        ensures orderly { AreOrderly self.now.time self.now.peers }
    {
        self.order.time()
    }

    /// The peer at a place.
    pub fn at(&self, i: u32) -> Held
        requires { i < length self.now.peers }
        ensures { slice_get self.now.peers i ≡ Some result }
    {
        Held {
            who: self.order.item(i),
            seed: self.flags[i as usize],
            stamp: Minute(self.order.stamp(i)),
        }
    }

    /// The place of an endpoint.
    pub fn place(&self, who: &Endpoint) -> Option<u32>
        ensures { result ≡ place_of who.now self.now.peers }
    {
        if stands_at(&self.order, who, self.recent) {
            return Some(self.recent);
        }
        let place = find(
            &self.order,
            &self.index,
            &self.flags,
            &self.hints,
            self.seeds,
            who,
        )?;
        Some(place.at)
    }

    /// Adds a peer, or renews it. Want of memory changes nothing.
    pub fn put<L: Ledger>(
        &mut self,
        who: Endpoint,
        seed: bool,
        steps: &mut Steps<L>,
    ) -> Result<Put, AllocError>
        requires { IsSome (place_of who self.old.peers) ⊎ (length self.old.peers < MOST_PEERS) }
        ensures peers { OnOk result (self.new.peers ≡
            put_peer (record { who = who; seed = seed; stamp = record { 0 = self.old.time } })
            self.old.peers) }
        ensures answer { IfOk result (λ put. put ≡ put_answer (find (is_of who) self.old.peers)) }
        ensures err { OnErr result (self.new ≡ self.old) }
        ensures fresh { OnErr result (place_of who self.old.peers ≡ None) }
        ensures time { self.new.time ≡ self.old.time }
        ensures steps { steps.new ≤ steps.old + 32 }
    {
        match find(
            &self.order,
            &self.index,
            &self.flags,
            &self.hints,
            self.seeds,
            &who,
        ) {
            Some(place) => {
                let stood = place.seed;
                renew_at(
                    &mut self.order,
                    &mut self.index,
                    &mut self.flags,
                    &who,
                    place,
                    seed,
                    steps,
                );
                self.hints.set(name_of(&who), place.at);
                self.seeds = self.seeds + one_if(seed) - one_if(stood);
                self.recent = place.at;
                Ok(Put::Again { seed: stood })
            }
            None => {
                let place = self.order.len();
                add_last(
                    &mut self.order,
                    &mut self.index,
                    &mut self.flags,
                    who,
                    seed,
                    steps,
                )?;
                self.seeds += one_if(seed);
                fit(&mut self.hints, &self.order);
                self.hints.set(name_of(&who), place);
                self.recent = place;
                Ok(Put::Fresh)
            }
        }
    }

    /// Takes out the peer of an endpoint, with no memory: the last one moves into its place.
    pub fn take<L: Ledger>(&mut self, who: &Endpoint, steps: &mut Steps<L>) -> Option<Held>
        ensures peers { self.new.peers ≡ without_peer who.now self.old.peers }
        ensures taken { result ≡ find (is_of who.now) self.old.peers }
        ensures time { self.new.time ≡ self.old.time }
        ensures steps { steps.new ≤ steps.old + 32 }
    {
        let place = self.index.get(who)?;
        let held = remove_at(
            &mut self.order,
            &mut self.index,
            &mut self.flags,
            place.at,
            steps,
        );
        self.seeds -= one_if(held.seed);
        Some(held)
    }

    /// Moves the time on. Peers that weren't heard of for 45 minutes or more go, and no others.
    pub fn advance<L: Ledger>(&mut self, time: u32, steps: &mut Steps<L>)
        requires { self.old.time ≤ time }
        ensures expires { Expires time self.old.peers self.new.peers }
        ensures young { All (λ peer. is_young time peer ≡ true) self.new.peers }
        ensures time { self.new.time ≡ time }
        ensures steps { steps.new + 32 * length self.new.peers ≤
            steps.old + 32 * length self.old.peers }
    {
        let start = self.order.time();
        for minute in 0..self.minutes_to(time) {
            self.pass_to(start + minute + 1, steps);
        }
        self.pass_to(time, steps);
        self.release();
    }

    /// How many minutes it goes through one by one on the way to a time, since peers may go at
    /// each.
    fn minutes_to(&self, time: u32) -> u32
        requires { self.now.time ≤ time }
        ensures { self.now.time + result ≤ time }
    {
        if self.order.is_empty() {
            return 0;
        }
        (time - self.order.time()).min(PEER_AGES)
    }

    /// The same, at the cost of a look at each minute for each peer that goes.
    fn pass_to<L: Ledger>(&mut self, time: u32, steps: &mut Steps<L>)
        requires { self.old.time ≤ time }
        ensures expires { Expires time self.old.peers self.new.peers }
        ensures young { All (λ peer. is_young time peer ≡ true) self.new.peers }
        ensures time { self.new.time ≡ time }
        ensures steps { steps.new + 32 * length self.new.peers ≤
            steps.old + 32 * length self.old.peers }
    {
        let gone = drop_due(
            &mut self.order,
            &mut self.index,
            &mut self.flags,
            time,
            steps,
        );
        self.seeds -= gone;
        self.order.pass(time);
    }

    /// Gives memory back where much of it is spare, and all of it where no peer is left.
    fn release(&mut self)
        ensures { self.new ≡ self.old }
    {
        if self.order.is_empty() {
            self.index.clear();
        }
        if self.order.is_empty() || self.order.is_wide() {
            self.order.shrink();
            self.flags.shrink_to_fit();
        }
        fit(&mut self.hints, &self.order);
    }

    /// Adds to an empty list the endpoints that the words choose among those but the asker's.
    pub fn choose(&self, asker: &Endpoint, want: u32, words: &[u32; 200], peers: &mut Peers)
        requires few { want ≤ 200 }
        requires empty { peers.old ≡ [] }
        ensures { peers.new ≡ choice_of words.now asker.now want self.now.peers }
    {
        let place = self.place(asker);
        choose_others(&self.order, place, want, words, peers);
    }
}
