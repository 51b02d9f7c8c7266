//! A listener in memory.

ghost use Rattle.std.specs.Prelude.{◌≤◌, ◌+◌, vec_len, vec_capacity};
ghost use Rattle.std.specs.VecDeque.{deque_len};
ghost use Rattle.std.specs.List.{All};
ghost use Rattle.std.proofs.Props.{props};
ghost use Rattle.ot_io.specs.Fresh.{IsFreshConn};

use crate::faults::Faults;
use crate::listener::{Accept, Listener};
use crate::mem_conn::{ConnScript, MemConn};
use ot_base::Endpoint;
use std::alloc::{AllocError, Global};
use std::collections::VecDeque;
use std::snapshot::Snapshot;

/// A listener in memory, for tests. It owns its connections, so it can be sent to a thread.
#[derive(Drop)]
pub struct MemListener {
    pub(crate) waiting: VecDeque<MemConn>,
    /// What was accepted, as it was then.
    pub(crate) accepted: Vec<Snapshot<MemConn>>,
    pub(crate) finished: Vec<MemConn>,
    pub(crate) failing: Vec<u64>,
    pub(crate) idles: u64,
    pub(crate) faults: Faults,
    pub ghost fresh: { All IsFreshConn waiting.items } by { Prim.hlevel props },
    pub ghost even: { vec_len finished ≤ vec_len accepted },
    ghost room: { vec_len accepted + deque_len waiting ≤ vec_capacity accepted },
    ghost reserved: { vec_len accepted + deque_len waiting ≤ vec_capacity finished },
}

impl MemListener {
    ghost use Rattle.std.specs.Prelude.{◌≡◌, ◌∷◌, ◌++◌, [], Some, OnOk, OnErr};
    ghost use Rattle.ot_io.specs.MemoryListener.{accepts_made, failing_accepts, links_of};
    ghost use Rattle.ot_io.specs.MemoryListener.{listener_faults, listener_idles};
    ghost use Rattle.ot_io.specs.Tales.{tale};

    /// A listener at which nobody waits. `failing` are the numbers, from 0, of the calls of
    /// `accept` that fail. Such a call accepts nothing.
    pub fn new(alloc: Global, failing: Vec<u64>) -> Self
        ensures links { links_of result ≡ record { waiting = []; accepted = []; finished = [] } }
        ensures failing { failing_accepts result ≡ failing.items }
        ensures number { accepts_made result ≡ 0 }
        ensures faults { listener_faults result ≡ 0 }
        ensures idles { listener_idles result ≡ 0 }
    {
        MemListener {
            waiting: VecDeque::new(alloc),
            accepted: Vec::new(alloc),
            finished: Vec::new(alloc),
            failing,
            idles: 0,
            faults: Faults::new(),
        }
    }

    /// One more client that waits, behind the others. The room for its connection is taken at once.
    /// After an error all is as it was.
    pub fn offer(
        &mut self,
        alloc: Global,
        client: Endpoint,
        script: ConnScript,
    ) -> Result<(), AllocError>
        ensures offered { OnOk result (links_of self.new ≡ record (links_of self.old) {
          waiting =
              (links_of self.old).waiting
              ++ tale client (Some script.sent.items) (Some []) 0 0 ∷ [];
        }) }
        ensures unchanged { OnErr result (links_of self.new ≡ links_of self.old) }
        ensures failing { failing_accepts self.new ≡ failing_accepts self.old }
        ensures number { accepts_made self.new ≡ accepts_made self.old }
        ensures faults { listener_faults self.new ≡ listener_faults self.old }
        ensures idles { listener_idles self.new ≡ listener_idles self.old }
    {
        let conn = MemConn::new(alloc, client, script)?;
        let more = self.waiting.len() + 1;
        self.accepted.reserve(more)?;
        let owed = self.accepted.len() - self.finished.len();
        let room = owed.checked_add(more).ok_or(AllocError)?;
        self.finished.reserve(room)?;
        self.waiting.push_back(conn)?;
        Ok(())
    }

    /// The connections that were taken back, in order.
    pub fn finished(&self) -> &[MemConn]
        ensures { result.now ≡ self.now.finished.items }
    {
        self.finished.as_slice()
    }

    /// How many calls have failed. From 2^64 - 1 on the count stands still.
    pub fn faults(&self) -> u64
        ensures { result ≡ listener_faults self.now }
    {
        self.faults.count
    }

    /// How many calls have answered that none waits. From 2^64 - 1 on the count stands still.
    pub fn idles(&self) -> u64
        ensures { result ≡ listener_idles self.now }
    {
        self.idles
    }
}

impl Listener for MemListener {
    ghost use Rattle.std.specs.Prelude.{◌≡◌, ◌↔◌, ◌⊎◌, ◌+◌, ◌∷◌, [], IsTrue, Some, min};
    ghost use Rattle.ot_io.specs.Counts.{last_count};
    ghost use Rattle.ot_io.specs.MemoryListener.{accepts_made, conn_tale, failing_accepts};
    ghost use Rattle.ot_io.specs.MemoryListener.{is_accept_failing, links_of};
    ghost use Rattle.ot_io.specs.MemoryListener.{listener_faults, listener_idles};
    ghost use Rattle.ot_io.specs.Tales.{Accepts, AcceptIdlesOnlyCounted};
    ghost use Rattle.ot_io.specs.Tales.{AcceptFailsOnlyCounted, AreOwed, AreQuit, Passes};
    ghost use Rattle.std.proofs.Common.{rules};
    ghost use Rattle.std.proofs.lemmas.Grind.{common_steps};

    type Link = MemConn;

    ghost links = { λ listener. Some (links_of listener) };

    ghost faults = { listener_faults };

    ghost idles = { listener_idles };

    fn accept(&mut self) -> Accept<MemConn>
        ensures accepted { Accepts conn_tale (Some (links_of self.old))
            (Some (links_of self.new)) result }
        ensures idle { AcceptIdlesOnlyCounted (listener_idles self.old) (listener_idles self.new)
            result }
        ensures failed { AcceptFailsOnlyCounted (listener_faults self.old)
            (listener_faults self.new) result }

        // It fails exactly where it is told to.
        ensures demanded { (result ≡ Accept.Failed) ↔ IsTrue (is_accept_failing self.old) }
        ensures blameless { (result ≡ Accept.Failed)
            ⊎ (listener_faults self.new ≡ listener_faults self.old) }
        ensures number { accepts_made self.new ≡ min (accepts_made self.old + 1) last_count }
        ensures failing { failing_accepts self.new ≡ failing_accepts self.old }
    {
        if self.faults.is_next_among(self.failing.as_slice()) {
            self.faults.raise();
            return Accept::Failed;
        }
        let Some(conn) = self.waiting.pop_front() else {
            self.idles = self.idles.saturating_add(1);
            return Accept::Idle;
        };
        match self.accepted.push(Snapshot::of(&conn)) {
            Ok(()) => Accept::Got(conn),
            Err(_) => unreachable!(),
        }
    }

    fn done(&mut self, link: MemConn)
        ensures back { AreOwed (Some (links_of self.old)) 1
            → Passes (Some (links_of self.old)) (Some (links_of self.new)) []
            (conn_tale link ∷ []) }
        ensures full { AreQuit (Some (links_of self.old))
            → Passes (Some (links_of self.old)) (Some (links_of self.new)) [] [] }
        ensures faults { listener_faults self.new ≡ listener_faults self.old }
        ensures idles { listener_idles self.new ≡ listener_idles self.old }
        ensures number { accepts_made self.new ≡ accepts_made self.old }
        ensures failing { failing_accepts self.new ≡ failing_accepts self.old }
    {
        if self.finished.len() < self.accepted.len() {
            match self.finished.push(link) {
                Ok(()) => {}
                Err(_) => unreachable!(),
            }
        }
    }

    ghost even = { λ listener. Prim.search (rules, common_steps) };
}
