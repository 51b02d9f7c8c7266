//! Connections whose clients haven't sent a whole head yet.

ghost use Rattle.std.specs.Prelude.{◌≤◌, ◌+◌, ◌↔◌, IsTrue};
ghost use Rattle.std.specs.VecDeque.{deque_capacity, deque_len};
ghost use Rattle.http_wire.specs.Head.{IsAnswer};
ghost use Rattle.http_wire.specs.declared.head.Head.TheVariants.{More};

use http_wire::{Head, find_head};
use ot_base::Endpoint;
use std::alloc::{AllocError, Global};
use std::collections::VecDeque;
use std::io::ErrorKind;
use std::net::{Shutdown, TcpStream};

/// How many connections wait at most.
pub const ROOM: usize = 1024;

/// How many bytes a head has at most.
const HEAD_LEN: usize = 8192;

/// How many of those that came last are looked at in each turn: most clients send their head at
/// once, and it comes while they are among these.
const YOUNG: usize = 16;

/// How many of all that wait are looked at in one turn, however many there are.
const LOOKS: u32 = 4;

/// How long one waits at most, in seconds.
const LONGEST: u64 = 10;

/// A connection that was accepted and that nobody serves yet. Nothing was read from it.
#[derive(Debug, Drop)]
pub struct Waiting {
    pub stream: TcpStream,
    pub client: Endpoint,
    /// When it came, in seconds.
    pub since: u64,
}

impl Waiting {
    /// Whether who serves it wouldn't wait for its client: it has sent a whole head or what can't
    /// begin one, as many bytes as are read, or its end. Its stream doesn't block.
    pub fn is_ready(&self) -> bool {
        let mut seen = [0; HEAD_LEN];
        match self.stream.peek(&mut seen) {
            Ok(0) => true,
            Ok(len) => len == HEAD_LEN || has_head(&seen[..len]),
            Err(error) => error.kind() != ErrorKind::WouldBlock,
        }
    }

    /// Has its reader see the end of what its client has sent so far: nobody waits for more.
    pub fn hurry(&self) {
        // Where it fails, a read will too.
        let _ = self.stream.shutdown(Shutdown::Read);
    }

    /// Whether it has waited too long.
    fn is_late(&self, now: u64) -> bool
        ensures { IsTrue result ↔ (self.now.since + 10 ≤ now) }
    {
        now.saturating_sub(self.since) >= LONGEST
    }
}

/// Whether a request can be answered with no more of its bytes.
pub fn has_head(bytes: &[u8]) -> bool
    ensures { IsTrue result ↔ (IsAnswer bytes.now More → ⊥) }
{
    find_head(bytes) != Head::More
}

/// The connections that wait, the one that waits longest first.
#[derive(Debug, Drop)]
pub struct Room {
    pub(crate) waiting: VecDeque<Waiting>,
    /// Where the next look is.
    next: usize,
    ghost within: { deque_len waiting ≤ 1024 },
    ghost reserved: { 1024 ≤ deque_capacity waiting },
}

impl Room {
    ghost use Rattle.std.specs.Prelude.{◌≡◌, ◌==◌, ◌∷◌, ◌++◌, ◌+◌, ◌-◌, ◌<◌, ◌≤◌};
    ghost use Rattle.std.specs.Prelude.{[], IfOk, length};
    ghost use Rattle.std.specs.Option.{option_to_list};
    ghost use Rattle.std.specs.VecDeque.{deque_len};
    ghost use Rattle.ot_net.specs.Adapters.{waiting_in};

    /// An empty room. All that it needs is taken at once.
    pub fn new(alloc: Global) -> Result<Self, AllocError>
        ensures { IfOk result (λ room. waiting_in room ≡ []) }
    {
        Ok(Room {
            waiting: VecDeque::with_capacity(alloc, ROOM)?,
            next: 0,
        })
    }

    /// Whether none waits.
    pub fn is_empty(&self) -> bool
        ensures { result ≡ (deque_len self.now.waiting == 0) }
    {
        self.waiting.is_empty()
    }

    /// One more waits, behind the others. Where there is no room, the one that waits longest has to
    /// go.
    pub fn put(&mut self, one: Waiting) -> Option<Waiting>
        ensures { option_to_list result ++ waiting_in self.new ≡ waiting_in self.old ++ one ∷ [] }
    {
        let oldest = self.take_oldest_of(ROOM);
        match self.waiting.push_back(one) {
            Ok(()) => oldest,
            Err(_) => unreachable!(),
        }
    }

    /// The one that waits longest. What its client hasn't sent yet won't be waited for.
    pub fn take_oldest(&mut self) -> Option<Waiting>
        ensures rest { option_to_list result ++ waiting_in self.new ≡ waiting_in self.old }
        ensures len { deque_len self.new.waiting ≡ deque_len self.old.waiting - 1 }
    {
        let oldest = self.waiting.pop_front()?;
        oldest.hurry();
        Some(oldest)
    }

    /// One that is ready, of those that came last. Or else one that has waited too long, or one
    /// that is ready, of the next few.
    pub fn take_next(&mut self, now: u64) -> Option<Waiting>
        ensures { length (option_to_list result) + length (waiting_in self.new)
            ≡ length (waiting_in self.old) }
    {
        if let Some(place) = self.ready_young() {
            return self.waiting.remove(place);
        }
        if self.is_late(now) {
            return self.take_oldest();
        }
        self.look_around()
    }

    /// The place of one that is ready, of those that came last.
    fn ready_young(&self) -> Option<usize> {
        let count = self.waiting.len();
        (count.saturating_sub(YOUNG)..count).find(|place| self.is_ready(*place))
    }

    /// Whether there is one at this place, and it is ready.
    fn is_ready(&self, place: usize) -> bool {
        match self.waiting.get(place) {
            Some(one) => one.is_ready(),
            None => false,
        }
    }

    /// One that is ready, of the next few.
    fn look_around(&mut self) -> Option<Waiting>
        ensures { length (option_to_list result) + length (waiting_in self.new)
            ≡ length (waiting_in self.old) }
    {
        for _ in 0..LOOKS {
            let found = self.look();
            if found.is_some() {
                return found;
            }
        }
        None
    }

    /// The one at the next place, where it is ready.
    fn look(&mut self) -> Option<Waiting>
        ensures { length (option_to_list result) + length (waiting_in self.new)
            ≡ length (waiting_in self.old) }
    {
        if self.next >= self.waiting.len() {
            self.next = 0;
        }
        let place = self.next;
        if self.is_ready(place) {
            return self.waiting.remove(place);
        }
        self.next = place.saturating_add(1);
        None
    }

    fn is_late(&self, now: u64) -> bool {
        match self.waiting.front() {
            Some(oldest) => oldest.is_late(now),
            None => false,
        }
    }

    /// The one that waits longest, where so many wait.
    fn take_oldest_of(&mut self, count: usize) -> Option<Waiting>
        ensures rest { option_to_list result ++ waiting_in self.new ≡ waiting_in self.old }
        ensures room { 0 < count → deque_len self.old.waiting ≤ count
            → deque_len self.new.waiting < count }
    {
        if self.waiting.len() < count {
            return None;
        }
        self.take_oldest()
    }
}
