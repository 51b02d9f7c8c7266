//! An outside in memory.

ghost use Rattle.std.specs.Prelude.{◌≡◌, ◌<◌, ◌↔◌, ◌⊎◌, ◌+◌, IsTrue, min, vec_len};
ghost use Rattle.std.specs.List.{All};
ghost use Rattle.std.proofs.Props.{props};
ghost use Rattle.ot_io.specs.Counts.{last_count};
ghost use Rattle.ot_io.specs.Demand.{is_demanded};
ghost use Rattle.ot_io.specs.FreshEnds.{IsFreshListener, IsFreshWire};
ghost use Rattle.ot_io.specs.Lender.{HandsOut};
ghost use Rattle.ot_io.specs.Lending.{MakerFailsOnlyCounted};

use crate::faults::Faults;
use crate::lender::Lender;
use crate::mem_clock::MemClock;
use crate::mem_listener::MemListener;
use crate::mem_wire::MemWire;
use crate::outside::{Made, Outside};
use ot_base::Endpoint;
use std::alloc::{AllocError, Global};

/// An outside in memory, for tests. It hands out the wires and listeners that it was given, in
/// order, whatever the address, and keeps those that come back.
#[derive(Drop)]
pub struct MemOutside {
    pub(crate) wires: Lender<MemWire>,
    pub(crate) listeners: Lender<MemListener>,
    pub(crate) clock: MemClock,
    alloc: Global,
    pub(crate) failing: Vec<u64>,
    pub(crate) faults: Faults,
    ghost fresh_wires: { All IsFreshWire wires.unused.items } by { Prim.hlevel props },
    ghost fresh_listeners: { All IsFreshListener listeners.unused.items } by { Prim.hlevel props },
}

impl MemOutside {
    ghost use Rattle.std.specs.Prelude.{◌≡◌, ◌∷◌, ◌++◌, [], OnErr, OnOk, Some};
    ghost use Rattle.ot_io.specs.MemoryListener.{links_of, listener_faults, listener_idles};
    ghost use Rattle.ot_io.specs.MemoryOutside.{clock_of, failing_makers, lent_listeners};
    ghost use Rattle.ot_io.specs.MemoryOutside.{lent_wires, listeners_left, makers_called};
    ghost use Rattle.ot_io.specs.MemoryOutside.{outside_faults, wires_left};
    ghost use Rattle.ot_io.specs.MemoryWire.{wire_faults, wire_idles, wire_traffic};
    ghost use Rattle.ot_io.specs.Tales.{IsNewListener};
    ghost use Rattle.ot_io.specs.Traffic.{IsNewWire};

    /// An outside with no wires and no listeners yet, whose clocks are all like this one. `failing`
    /// are the numbers, from 0, of the calls of makers that fail, all kinds counted together. Such
    /// a call makes nothing.
    pub fn new(alloc: Global, clock: MemClock, failing: Vec<u64>) -> Self
        ensures wires { wires_left result ≡ [] }
        ensures listeners { listeners_left result ≡ [] }
        ensures clock { clock_of result ≡ clock }
        ensures failing { failing_makers result ≡ failing.items }
        ensures lent_wires { lent_wires result ≡ record { made = 0; back = [] } }
        ensures lent_listeners { lent_listeners result ≡ record { made = 0; back = [] } }
        ensures number { makers_called result ≡ 0 }
        ensures faults { outside_faults result ≡ 0 }
    {
        MemOutside {
            wires: Lender::new(alloc),
            listeners: Lender::new(alloc),
            clock,
            alloc,
            failing,
            faults: Faults::new(),
        }
    }

    /// One more wire to be made, after the others. After an error nothing has changed.
    pub fn add_wire(&mut self, wire: MemWire) -> Result<(), AllocError>
        requires { IsNewWire (Some (wire_traffic wire)) (wire_faults wire) (wire_idles wire) }
        ensures added { OnOk result (wires_left self.new ≡ wires_left self.old ++ wire ∷ []) }
        ensures unchanged { OnErr result (wires_left self.new ≡ wires_left self.old) }
        ensures lent { lent_wires self.new ≡ lent_wires self.old }
        ensures listeners { self.new.listeners ≡ self.old.listeners }
        ensures clock { self.new.clock ≡ self.old.clock }
        ensures failing { self.new.failing ≡ self.old.failing }
        ensures faults { self.new.faults ≡ self.old.faults }
    {
        self.wires.add(wire)
    }

    /// One more listener to be made, after the others. After an error nothing has changed.
    pub fn add_listener(&mut self, listener: MemListener) -> Result<(), AllocError>
        requires { IsNewListener (Some (links_of listener)) (listener_faults listener)
            (listener_idles listener) }
        ensures added { OnOk result
            (listeners_left self.new ≡ listeners_left self.old ++ listener ∷ []) }
        ensures unchanged { OnErr result (listeners_left self.new ≡ listeners_left self.old) }
        ensures lent { lent_listeners self.new ≡ lent_listeners self.old }
        ensures wires { self.new.wires ≡ self.old.wires }
        ensures clock { self.new.clock ≡ self.old.clock }
        ensures failing { self.new.failing ≡ self.old.failing }
        ensures faults { self.new.faults ≡ self.old.faults }
    {
        self.listeners.add(listener)
    }

    /// The wires that came back, in order.
    pub fn wires_back(&self) -> &[MemWire]
        ensures { result.now ≡ self.now.wires.back.items }
    {
        self.wires.back.as_slice()
    }

    /// The listeners that came back, in order.
    pub fn listeners_back(&self) -> &[MemListener]
        ensures { result.now ≡ self.now.listeners.back.items }
    {
        self.listeners.back.as_slice()
    }

    /// How many calls have failed. From 2^64 - 1 on the count stands still.
    pub fn faults(&self) -> u64
        ensures { result ≡ outside_faults self.now }
    {
        self.faults.count
    }
}

impl Outside for MemOutside {
    ghost use Rattle.std.specs.Prelude.{◌≡◌, ◌<◌, ◌↔◌, ◌⊎◌, ◌+◌, ◌∷◌, [], IsTrue, Some};
    ghost use Rattle.std.specs.Prelude.{length, min};
    ghost use Rattle.std.proofs.Common.{rules};
    ghost use Rattle.std.proofs.lemmas.Grind.{common_steps};
    ghost use Rattle.ot_io.specs.Counts.{last_count};
    ghost use Rattle.ot_io.specs.Lending.{AreBack, AreOut, Lends, Makes};
    ghost use Rattle.ot_io.specs.Lending.{MakerFailsOnlyCounted, count_made};
    ghost use Rattle.ot_io.specs.MemoryClock.{clock_next, clock_step};
    ghost use Rattle.ot_io.specs.MemoryListener.{links_of, listener_faults, listener_idles};
    ghost use Rattle.ot_io.specs.MemoryOutside.{clock_of, failing_makers, is_maker_failing};
    ghost use Rattle.ot_io.specs.MemoryOutside.{lent_listeners, lent_wires, listeners_left};
    ghost use Rattle.ot_io.specs.MemoryOutside.{makers_called, outside_faults};
    ghost use Rattle.ot_io.specs.MemoryOutside.{tale_of_listener, tale_of_wire, wires_left};
    ghost use Rattle.ot_io.specs.MemoryWire.{wire_faults, wire_idles, wire_traffic};
    ghost use Rattle.ot_io.specs.Tales.{IsNewListener};
    ghost use Rattle.ot_io.specs.Traffic.{IsNewWire};

    type W = MemWire;

    type L = MemListener;

    type C = MemClock;

    ghost wires_lent = { λ outside. Some (lent_wires outside) };

    ghost listeners_lent = { λ outside. Some (lent_listeners outside) };

    ghost faults = { outside_faults };

    fn wires(&mut self, _at: Endpoint, n: u32) -> Made<Vec<MemWire>>
        ensures made { Makes
            (λ wire. IsNewWire (Some (wire_traffic wire)) (wire_faults wire) (wire_idles wire))
            n result }
        ensures lent { Lends (Some (lent_wires self.old)) (Some (lent_wires self.new))
            (count_made n result) [] }
        ensures failed { MakerFailsOnlyCounted (outside_faults self.old) (outside_faults self.new)
            result }
        ensures listeners { Some (lent_listeners self.new) ≡ Some (lent_listeners self.old) }

        // It fails exactly where it is told to, or where it has too few.
        ensures demanded { (result ≡ Made.Failed)
            ↔ (IsTrue (is_maker_failing self.old) ⊎ (length (wires_left self.old) < n)) }
        ensures blameless { (result ≡ Made.Failed)
            ⊎ (outside_faults self.new ≡ outside_faults self.old) }
        ensures number { makers_called self.new ≡ min (makers_called self.old + 1) last_count }
        ensures failing { failing_makers self.new ≡ failing_makers self.old }
        ensures others { listeners_left self.new ≡ listeners_left self.old }
    {
        hand_out(
            &mut self.wires,
            &mut self.faults,
            self.failing.as_slice(),
            n,
        )
    }

    fn listeners(&mut self, _at: Endpoint, n: u32) -> Made<Vec<MemListener>>
        ensures made { Makes
            (λ listener. IsNewListener (Some (links_of listener)) (listener_faults listener)
            (listener_idles listener))
            n result }
        ensures lent { Lends (Some (lent_listeners self.old)) (Some (lent_listeners self.new))
            (count_made n result) [] }
        ensures failed { MakerFailsOnlyCounted (outside_faults self.old) (outside_faults self.new)
            result }
        ensures wires { Some (lent_wires self.new) ≡ Some (lent_wires self.old) }

        // It fails exactly where it is told to, or where it has too few.
        ensures demanded { (result ≡ Made.Failed)
            ↔ (IsTrue (is_maker_failing self.old) ⊎ (length (listeners_left self.old) < n)) }
        ensures blameless { (result ≡ Made.Failed)
            ⊎ (outside_faults self.new ≡ outside_faults self.old) }
        ensures number { makers_called self.new ≡ min (makers_called self.old + 1) last_count }
        ensures failing { failing_makers self.new ≡ failing_makers self.old }
        ensures others { wires_left self.new ≡ wires_left self.old }
    {
        hand_out(
            &mut self.listeners,
            &mut self.faults,
            self.failing.as_slice(),
            n,
        )
    }

    fn clocks(&mut self, n: u32) -> Made<Vec<MemClock>>
        ensures made { Makes (λ clock. clock ≡ clock_of self.old) n result }
        ensures failed { MakerFailsOnlyCounted (outside_faults self.old) (outside_faults self.new)
            result }
        ensures wires { Some (lent_wires self.new) ≡ Some (lent_wires self.old) }
        ensures listeners { Some (lent_listeners self.new) ≡ Some (lent_listeners self.old) }

        // It fails exactly where it is told to.
        ensures demanded { (result ≡ Made.Failed) ↔ IsTrue (is_maker_failing self.old) }
        ensures blameless { (result ≡ Made.Failed)
            ⊎ (outside_faults self.new ≡ outside_faults self.old) }
        ensures number { makers_called self.new ≡ min (makers_called self.old + 1) last_count }
        ensures failing { failing_makers self.new ≡ failing_makers self.old }
    {
        if self.faults.is_next_among(self.failing.as_slice()) {
            self.faults.raise();
            return Made::Failed;
        }
        match vec![in self.alloc; self.clock; n as usize] {
            Ok(clocks) => Made::Got(clocks),
            Err(_) => Made::NoMemory,
        }
    }

    fn wire_back(&mut self, wire: MemWire)
        ensures back { AreOut (Some (lent_wires self.old)) 1
            → Lends (Some (lent_wires self.old)) (Some (lent_wires self.new)) 0
            (tale_of_wire wire ∷ []) }
        ensures full { AreBack (Some (lent_wires self.old))
            → Lends (Some (lent_wires self.old)) (Some (lent_wires self.new)) 0 [] }
        ensures faults { outside_faults self.new ≡ outside_faults self.old }
        ensures listeners { Some (lent_listeners self.new) ≡ Some (lent_listeners self.old) }
    {
        self.wires.take_back(wire);
    }

    fn listener_back(&mut self, listener: MemListener)
        ensures back { AreOut (Some (lent_listeners self.old)) 1
            → Lends (Some (lent_listeners self.old)) (Some (lent_listeners self.new)) 0
            (tale_of_listener listener ∷ []) }
        ensures full { AreBack (Some (lent_listeners self.old))
            → Lends (Some (lent_listeners self.old)) (Some (lent_listeners self.new)) 0 [] }
        ensures faults { outside_faults self.new ≡ outside_faults self.old }
        ensures wires { Some (lent_wires self.new) ≡ Some (lent_wires self.old) }
    {
        self.listeners.take_back(listener);
    }

    ghost fair_wires = { λ outside. Prim.search (rules, common_steps) };

    ghost fair_listeners = { λ outside. Prim.search (rules, common_steps) };
}

/// Hands out the first so many objects, as one call of a maker.
fn hand_out<T: Drop>(
    lender: &mut Lender<T>,
    faults: &mut Faults,
    failing: &[u64],
    n: u32,
) -> Made<Vec<T>>
    ensures handed { HandsOut lender.old lender.new n result }
    ensures back { lender.new.back.items ≡ lender.old.back.items }
    ensures failed { MakerFailsOnlyCounted faults.old.count faults.new.count result }
    ensures demanded { (result ≡ Made.Failed)
        ↔ (IsTrue (is_demanded failing.now faults.old.calls)
        ⊎ (vec_len lender.old.unused < n)) }
    ensures blameless { (result ≡ Made.Failed) ⊎ (faults.new.count ≡ faults.old.count) }
    ensures number { faults.new.calls ≡ min (faults.old.calls + 1) last_count }
{
    if faults.is_next_among(failing) {
        faults.raise();
        return Made::Failed;
    }
    let made = lender.hand_out(n as usize);
    if let Made::Failed = made {
        faults.raise();
    }
    made
}
