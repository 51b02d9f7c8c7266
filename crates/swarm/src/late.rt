//! The peers of a family that mostly has none.

use crate::members::{MOST_PEERS, Members, Put};
use node_table::Steps;
use ot_base::{Endpoint, Held, Peers};
use std::alloc::{AllocError, Global};
use std::marker::Model;
use std::sync::ledger::Ledger;

/// The peers of one family, as `Members` keeps them, which are made for the first one. Until then
/// they take 16 bytes. Contracts see the same list and time.
#[derive(Drop)]
pub struct LateMembers {
    alloc: Global,
    time: u32,
    members: Option<Box<Members>>,
}

impl Model for LateMembers {
    ghost use Rattle.std.specs.Prelude.{◌≡◌, [], IfSome};
    ghost use Rattle.std.specs.Option.{option_map_or};
    ghost use Rattle.swarm.specs.Members.{HeldAt};

    ghost Value = { HeldAt };

    ghost view = { λ l. option_map_or (λ b. b.value) l.members
        (record { peers = []; time = l.time }) };

    ghost invariant = { λ l. IfSome l.members (λ b. b.value.time ≡ l.time) };
}

impl LateMembers {
    ghost use Rattle.std.specs.Prelude.{◌≡◌, ◌+◌, ◌*◌, ◌<◌, ◌≤◌, [], ◌⊎◌, All, true, IfOk, OnOk, OnErr, IsSome, None, Some, length, find, sum_by, slice_get};
    ghost use Rattle.swarm.specs.Members.{AreOrderly, Expires};
    ghost use Rattle.swarm.specs.Peers.{is_of, is_young, place_of, put_peer, put_answer, without_peer};
    ghost use Rattle.swarm.specs.Peers.{choice_of, other_one, seed_one};

    /// No peers, at a time.
    pub fn new(alloc: Global, time: u32) -> Self
        ensures peers { result.peers ≡ [] }
        ensures time { result.time ≡ time }
    {
        LateMembers {
            alloc,
            time,
            members: None,
        }
    }

    /// How many peers there are.
    pub fn len(&self) -> u32
        ensures len { result ≡ length self.now.peers }
        ensures most { result ≤ MOST_PEERS }
    {
        match &self.members {
            Some(members) => members.len(),
            None => 0,
        }
    }

    /// How many of them are seeds.
    pub fn seeds(&self) -> u32
        ensures seeds { result ≡ sum_by seed_one self.now.peers }
        ensures within { result ≤ length self.now.peers }
        ensures most { length self.now.peers ≤ MOST_PEERS }
    {
        match &self.members {
            Some(members) => members.seeds(),
            None => 0,
        }
    }

    /// How many of them aren't.
    pub fn leechers(&self) -> u32
        ensures leechers { result ≡ sum_by other_one self.now.peers }
        ensures within { result ≤ length self.now.peers }
        ensures most { length self.now.peers ≤ MOST_PEERS }
    {
        match &self.members {
            Some(members) => members.leechers(),
            None => 0,
        }
    }

    /// The time of the last `advance`, or that at which it began.
    pub fn time(&self) -> u32
        ensures time { result ≡ self.now.time }
        ensures orderly { AreOrderly self.now.time self.now.peers }
    {
        match &self.members {
            Some(members) => members.time(),
            None => self.time,
        }
    }

    /// The peer at a place.
    pub fn at(&self, i: u32) -> Held
        requires { i < length self.now.peers }
        ensures { slice_get self.now.peers i ≡ Some result }
    {
        match &self.members {
            Some(members) => members.at(i),
            None => unreachable!(),
        }
    }

    /// The place of an endpoint.
    pub fn place(&self, who: &Endpoint) -> Option<u32>
        ensures { result ≡ place_of who.now self.now.peers }
    {
        match &self.members {
            Some(members) => members.place(who),
            None => None,
        }
    }

    /// Adds a peer, or renews it. Want of memory changes nothing.
    pub fn put<L: Ledger>(
        &mut self,
        who: Endpoint,
        seed: bool,
        steps: &mut Steps<L>,
    ) -> Result<Put, AllocError>
        requires { IsSome (place_of who self.old.peers) ⊎ (length self.old.peers < MOST_PEERS) }
        ensures peers { OnOk result (self.new.peers ≡
            put_peer (record { who = who; seed = seed; stamp = record { 0 = self.old.time } })
            self.old.peers) }
        ensures answer { IfOk result (λ put. put ≡ put_answer (find (is_of who) self.old.peers)) }
        ensures err { OnErr result (self.new ≡ self.old) }
        ensures fresh { OnErr result (place_of who self.old.peers ≡ None) }
        ensures time { self.new.time ≡ self.old.time }
        ensures steps { steps.new ≤ steps.old + 32 }
    {
        match &mut self.members {
            Some(members) => members.put(who, seed, steps),
            None => {
                let mut members = Members::new(self.alloc, self.time)?;
                let put = members.put(who, seed, steps)?;
                self.members = Some(Box::new(self.alloc, members)?);
                Ok(put)
            }
        }
    }

    /// Takes out the peer of an endpoint, with no memory: the last one moves into its place.
    pub fn take<L: Ledger>(&mut self, who: &Endpoint, steps: &mut Steps<L>) -> Option<Held>
        ensures peers { self.new.peers ≡ without_peer who.now self.old.peers }
        ensures taken { result ≡ find (is_of who.now) self.old.peers }
        ensures time { self.new.time ≡ self.old.time }
        ensures steps { steps.new ≤ steps.old + 32 }
    {
        match &mut self.members {
            Some(members) => members.take(who, steps),
            None => None,
        }
    }

    /// Moves the time on. Peers that weren't heard of for 45 minutes or more go, and no others.
    /// Where none is left, all memory is given back.
    pub fn advance<L: Ledger>(&mut self, time: u32, steps: &mut Steps<L>)
        requires { self.old.time ≤ time }
        ensures expires { Expires time self.old.peers self.new.peers }
        ensures young { All (λ peer. is_young time peer ≡ true) self.new.peers }
        ensures time { self.new.time ≡ time }
        ensures steps { steps.new + 32 * length self.new.peers ≤
            steps.old + 32 * length self.old.peers }
    {
        self.time = time;
        if let Some(members) = &mut self.members {
            members.advance(time, steps);
            if members.is_empty() {
                self.members = None;
            }
        }
    }

    /// Adds to an empty list the endpoints that the words choose among those but the asker's.
    pub fn choose(&self, asker: &Endpoint, want: u32, words: &[u32; 200], peers: &mut Peers)
        requires few { want ≤ 200 }
        requires empty { peers.old ≡ [] }
        ensures { peers.new ≡ choice_of words.now asker.now want self.now.peers }
    {
        if let Some(members) = &self.members {
            members.choose(asker, want, words, peers);
        }
    }
}
