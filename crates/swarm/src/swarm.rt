//! The peers of one torrent.

use crate::late::LateMembers;
use crate::members::{MOST_PEERS, Members, Put};
use node_table::Steps;
use ot_base::{Endpoint, Family, Held, Minute, Peers};
use std::alloc::{AllocError, Global};
use std::marker::Model;
use std::sync::ledger::Ledger;

/// The live peers of one torrent, those of each family in an order of their own. Contracts see the
/// two lists and the time.
///
/// A peer takes 32 bytes in its ring, six beside it and one for its flag, with some slack where they
/// grew. In the index it takes 23 bytes, or 45 of IPv6, where endpoints came in a random order, and
/// 8 to 16 for hints where there are more than four: some 80 or 100 in all. A swarm of one peer
/// takes some 1,000.
#[derive(Drop)]
pub struct Swarm {
    fours: Members,
    /// Most torrents have peers of IPv4 alone.
    sixes: LateMembers,
}

impl Model for Swarm {
    ghost use Rattle.swarm.specs.Shape.{Shape, AreTogether};

    ghost Value = { Shape };

    ghost view = { λ s. record {
      fours = s.fours.peers;
      sixes = s.sixes.peers;
      time = s.fours.time;
    } };

    ghost invariant = { λ s. AreTogether s.fours s.sixes };
}

impl Swarm {
    ghost use Rattle.std.specs.Prelude.{◌≡◌, ◌+◌, ◌*◌, ◌<◌, ◌≤◌, [], ◌⊎◌, ◌==◌, ◌↔◌, All, IsTrue, true, IfOk, OnOk, OnErr, IsSome, length, find, map, sum_by, slice_get, None};
    ghost use Rattle.age_ring.specs.Ring.{items_of, stamps_of};
    ghost use Rattle.ot_base.specs.Address.{family_of};
    ghost use Rattle.swarm.specs.Members.{AreOrderly, Expires};
    ghost use Rattle.swarm.specs.Peers.{is_of, is_young, place_of, put_peer, put_answer};
    ghost use Rattle.swarm.specs.Peers.{choice_of, endpoints_of, other_one, seed_one, without_peer};
    ghost use Rattle.swarm.specs.Shape.{AreOf, of_family, with_family, peer_count};
    ghost use Rattle.swarm.specs.declared.members.TheConstants.{MOST_PEERS, PEER_AGES};

    /// A swarm of no peers, at a time.
    pub fn new(alloc: Global, time: Minute) -> Result<Self, AllocError>
        ensures { IfOk result (λ swarm. swarm ≡
            record { fours = []; sixes = []; time = time.0 }) }
    {
        Ok(Swarm {
            fours: Members::new(alloc, time.0)?,
            sixes: LateMembers::new(alloc, time.0),
        })
    }

    /// The greatest time that it was moved on to, or that at which it began.
    pub fn time(&self) -> Minute
        ensures time { result.0 ≡ self.now.time }
        ensures fours { AreOrderly self.now.time self.now.fours }
        ensures sixes { AreOrderly self.now.time self.now.sixes }
        ensures of_four { AreOf Family.Four self.now.fours }
        ensures of_six { AreOf Family.Six self.now.sixes }
    {
        prove_eq!(self.fours.time(), self.sixes.time());
        Minute(self.fours.time())
    }

    /// How many peers of a family it has.
    pub fn len(&self, family: Family) -> u32
        ensures len { result ≡ length (of_family family self.now) }
        ensures most { peer_count self.now ≤ MOST_PEERS }
    {
        match family {
            Family::Four => self.fours.len(),
            Family::Six => self.sixes.len(),
        }
    }

    /// Whether it has no peers.
    pub fn is_empty(&self) -> bool
        ensures { result ≡ (peer_count self.now == 0) }
    {
        self.fours.len() + self.sixes.len() == 0
    }

    /// Whether it has as many peers as it may hold, so that no new one may be put.
    pub fn is_full(&self) -> bool
        ensures { IsTrue result ↔ (MOST_PEERS ≤ peer_count self.now) }
    {
        self.fours.len() + self.sixes.len() >= MOST_PEERS
    }

    /// How many peers of both families are seeds.
    pub fn complete(&self) -> u32
        ensures { result ≡
            sum_by seed_one self.now.fours + sum_by seed_one self.now.sixes }
    {
        self.fours.seeds() + self.sixes.seeds()
    }

    /// How many peers of both families aren't seeds.
    pub fn incomplete(&self) -> u32
        ensures { result ≡
            sum_by other_one self.now.fours + sum_by other_one self.now.sixes }
    {
        self.fours.leechers() + self.sixes.leechers()
    }

    /// The peer at a place in the order of a family.
    pub fn at(&self, family: Family, i: u32) -> Held
        requires { i < length (of_family family self.now) }
        ensures { slice_get (of_family family self.now) i ≡ Some result }
    {
        match family {
            Family::Four => self.fours.at(i),
            Family::Six => self.sixes.at(i),
        }
    }

    /// The place of an endpoint in the order of its family.
    pub fn place(&self, who: &Endpoint) -> Option<u32>
        ensures { result ≡
            place_of who.now (of_family (family_of who.now.addr) self.now) }
    {
        match who.addr.family() {
            Family::Four => self.fours.place(who),
            Family::Six => self.sixes.place(who),
        }
    }

    /// Moves the time on. Peers that weren't heard of for 45 minutes or more go, and no others:
    /// where one goes, the last of its family moves into its place.
    pub fn advance<L: Ledger>(&mut self, time: Minute, steps: &mut Steps<L>)
        requires { self.old.time ≤ time.0 }
        ensures fours { Expires time.0 self.old.fours self.new.fours }
        ensures sixes { Expires time.0 self.old.sixes self.new.sixes }
        ensures young_fours { All (λ peer. is_young time.0 peer ≡ true) self.new.fours }
        ensures young_sixes { All (λ peer. is_young time.0 peer ≡ true) self.new.sixes }
        ensures time { self.new.time ≡ time.0 }
        ensures steps { steps.new + 32 * peer_count self.new ≤
            steps.old + 32 * peer_count self.old }
    {
        self.fours.advance(time.0, steps);
        self.sixes.advance(time.0, steps);
    }

    /// Adds a peer last in the order of its family, or renews it where it stands, at the swarm's
    /// time. Only a new one may want memory, which changes nothing.
    pub fn put<L: Ledger>(
        &mut self,
        who: Endpoint,
        seed: bool,
        steps: &mut Steps<L>,
    ) -> Result<Put, AllocError>
        requires { IsSome (place_of who (of_family (family_of who.addr) self.old)) ⊎
            (peer_count self.old < MOST_PEERS) }
        ensures peers { OnOk result (self.new ≡ with_family (family_of who.addr) self.old
            (put_peer (record { who = who; seed = seed; stamp = record { 0 = self.old.time } })
            (of_family (family_of who.addr) self.old))) }
        ensures answer { IfOk result (λ put. put ≡
            put_answer (find (is_of who) (of_family (family_of who.addr) self.old))) }
        ensures err { OnErr result (self.new ≡ self.old) }
        ensures fresh { OnErr result
            (place_of who (of_family (family_of who.addr) self.old) ≡ None) }
        ensures steps { steps.new ≤ steps.old + 32 }
    {
        match who.addr.family() {
            Family::Four => self.fours.put(who, seed, steps),
            Family::Six => self.sixes.put(who, seed, steps),
        }
    }

    /// Takes out the peer of an endpoint, with no memory: the last of its family moves into its
    /// place.
    pub fn take<L: Ledger>(&mut self, who: &Endpoint, steps: &mut Steps<L>) -> Option<Held>
        ensures peers { self.new ≡ with_family (family_of who.now.addr) self.old
            (without_peer who.now (of_family (family_of who.now.addr) self.old)) }
        ensures taken { result ≡
            find (is_of who.now) (of_family (family_of who.now.addr) self.old) }
        ensures steps { steps.new ≤ steps.old + 32 }
    {
        match who.addr.family() {
            Family::Four => self.fours.take(who, steps),
            Family::Six => self.sixes.take(who, steps),
        }
    }

    /// Adds to an empty list the endpoints that the words choose among those of the asker's family
    /// but the asker's own. It looks at no other peers.
    pub fn choose(&self, asker: &Endpoint, want: u32, words: &[u32; 200], peers: &mut Peers)
        requires few { want ≤ 200 }
        requires empty { peers.old ≡ [] }
        ensures { peers.new ≡ choice_of words.now asker.now want
            (of_family (family_of asker.now.addr) self.now) }
    {
        match asker.addr.family() {
            Family::Four => self.fours.choose(asker, want, words, peers),
            Family::Six => self.sixes.choose(asker, want, words, peers),
        }
    }
}
