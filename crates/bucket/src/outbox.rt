//! The outbox of a bucket: what its own calls did, for the other nodes.

ghost use Rattle.std.specs.Prelude.{◌≡◌};
ghost use Rattle.bucket.specs.Outbox.{mark_here};

use ot_base::{Endpoint, InfoHash, Mark, Note, Notes};
use std::alloc::{AllocError, Global};
use std::marker::Model;
use std::mem;
use tracker_model::OUTBOX_NOTES;

/// The first 4,096 notes since it was last drained, and how many came after them. Where sync is off
/// it keeps and counts none.
#[derive(Drop)]
pub struct Outbox {
    sync: bool,
    notes: Vec<Note>,
    /// Up to 4,294,967,295.
    dropped: u32,
}

impl Model for Outbox {
    ghost use Rattle.std.specs.Prelude.{◌-◌, length};
    ghost use Rattle.std.specs.Vec.{vec_capacity};
    ghost use Rattle.bucket.specs.Outbox.{OutboxShape};

    ghost Value = { OutboxShape };

    ghost view = { λ o. record {
      sync = o.sync;
      notes = o.notes.items;
      dropped = o.dropped;
      spare = vec_capacity o.notes - length o.notes.items;
    } };
}

impl Outbox {
    ghost use Rattle.std.specs.Prelude.{OnErr, OnOk, Some, true};
    ghost use Rattle.bucket.specs.Outbox.{Gets, HasRoom, empty_outbox};

    /// An outbox without notes, which takes no memory.
    pub fn new(alloc: Global, sync: bool) -> Self
        ensures { result ≡ empty_outbox sync }
    {
        Outbox {
            sync,
            notes: Vec::new(alloc),
            dropped: 0,
        }
    }

    /// Whether it keeps notes.
    pub fn is_synced(&self) -> bool
        ensures { result ≡ self.now.sync }
    {
        self.sync
    }

    /// Makes room for a note, if it would be kept. The room grows to the double, from 4 notes up to
    /// 4,096. Only where sync is on it may want memory, and want of memory changes nothing.
    pub fn reserve(&mut self) -> Result<(), AllocError>
        ensures same { self.new ≡ record self.old { spare = self.new.spare } }
        ensures room { OnOk result (HasRoom self.new) }
        ensures on { OnErr result (self.old.sync ≡ true) }
    {
        let len = self.notes.len();
        if !self.sync || len >= OUTBOX_NOTES || len < self.notes.capacity() {
            return Ok(());
        }
        self.notes.reserve_exact(len.max(4))
    }

    /// Gets a note, with no memory.
    pub fn add(&mut self, hash: &InfoHash, who: &Endpoint, mark: Mark)
        requires { HasRoom self.old }
        ensures { Gets (Some (record { hash = hash.now; who = who.now; mark = mark }))
            self.old self.new }
    {
        if !self.sync {
            return;
        }
        if self.notes.len() < OUTBOX_NOTES {
            self.notes.push_reserved(Note {
                hash: *hash,
                who: *who,
                mark,
            });
        } else {
            self.dropped = self.dropped.saturating_add(1);
        }
    }

    /// Hands out the notes, oldest first, and how many it had no place for. It is empty afterwards
    /// and holds no memory.
    pub fn drain(&mut self) -> (Notes, u32)
        ensures notes { result.0 ≡ self.old.notes }
        ensures dropped { result.1 ≡ self.old.dropped }
        ensures empty { self.new ≡ empty_outbox self.old.sync }
    {
        let empty = Vec::new(*self.notes.allocator());
        let notes = mem::replace(&mut self.notes, empty);
        let dropped = mem::replace(&mut self.dropped, 0);
        (Notes::from(notes), dropped)
    }
}

/// What a note says of an endpoint that takes part.
pub fn mark_of(seed: bool) -> Mark
    ensures { result ≡ mark_here seed }
{
    if seed { Mark::Seed } else { Mark::Leecher }
}
