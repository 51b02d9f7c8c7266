//! Where wires, listeners and clocks come from.

ghost use Rattle.std.specs.Prelude.{◌≡◌, ◌≤◌, ℕ, [], ◌∷◌, Option, vec_len};
ghost use Rattle.ot_io.specs.Lending.{AreBack, AreOut, Lends, Lent, Makes};
ghost use Rattle.ot_io.specs.Lending.{MakerFailsOnlyCounted, count_made};
ghost use Rattle.ot_io.specs.Tales.{IsNewListener, ListenerTale, listener_tale};
ghost use Rattle.ot_io.specs.Traffic.{IsNewWire, WireTale, wire_tale};

use crate::clock::Clock;
use crate::listener::Listener;
use crate::wire::Wire;
use ot_base::Endpoint;

/// What a maker gave.
#[derive(Debug, Drop)]
pub enum Made<T> {
    /// All that was asked for.
    Got(T),
    /// The outside failed. Nothing stays open.
    Failed,
    /// There is no memory for it. Nothing stays open.
    NoMemory,
}

/// Makes what a server stands on, and takes it back.
pub trait Outside {
    /// What datagrams go over.
    type W: Wire;

    /// What connections come from.
    type L: Listener;

    /// What tells the time.
    type C: Clock;

    /// How many wires were made and which came back, where it is told.
    ghost wires_lent: { Self → Option (Lent WireTale) };

    /// How many listeners were made and which came back, where it is told.
    ghost listeners_lent: { Self → Option (Lent ListenerTale) };

    /// How often it has failed: a number that doesn't fall.
    ghost faults: { Self → ℕ };

    /// Makes so many wires at this address, which share one socket.
    fn wires(&mut self, at: Endpoint, n: u32) -> Made<Vec<Self::W>>
        ensures made { Makes
            (λ wire. IsNewWire (Self.W.traffic wire) (Self.W.faults wire) (Self.W.idles wire))
            n result }
        ensures lent { Lends (wires_lent self.old) (wires_lent self.new) (count_made n result)
            [] }
        ensures failed { MakerFailsOnlyCounted (faults self.old) (faults self.new) result }
        ensures listeners { listeners_lent self.new ≡ listeners_lent self.old };

    /// Makes so many listeners at this address, which share one socket.
    fn listeners(&mut self, at: Endpoint, n: u32) -> Made<Vec<Self::L>>
        ensures made { Makes
            (λ listener. IsNewListener (Self.L.links listener) (Self.L.faults listener)
            (Self.L.idles listener))
            n result }
        ensures lent { Lends (listeners_lent self.old) (listeners_lent self.new)
            (count_made n result) [] }
        ensures failed { MakerFailsOnlyCounted (faults self.old) (faults self.new) result }
        ensures wires { wires_lent self.new ≡ wires_lent self.old };

    /// Makes so many clocks.
    fn clocks(&mut self, n: u32) -> Made<Vec<Self::C>>
        ensures made { Makes (λ clock. Unit) n result }
        ensures failed { MakerFailsOnlyCounted (faults self.old) (faults self.new) result }
        ensures wires { wires_lent self.new ≡ wires_lent self.old }
        ensures listeners { listeners_lent self.new ≡ listeners_lent self.old };

    /// Takes back a wire that it made. It can't fail.
    fn wire_back(&mut self, wire: Self::W)
        ensures back { AreOut (wires_lent self.old) 1
            → Lends (wires_lent self.old) (wires_lent self.new) 0
            (wire_tale (Self.W.traffic wire) (Self.W.faults wire) (Self.W.idles wire) ∷ []) }
        ensures full { AreBack (wires_lent self.old)
            → Lends (wires_lent self.old) (wires_lent self.new) 0 [] }
        ensures faults { faults self.new ≡ faults self.old }
        ensures listeners { listeners_lent self.new ≡ listeners_lent self.old };

    /// Takes back a listener that it made. It can't fail.
    fn listener_back(&mut self, listener: Self::L)
        ensures back { AreOut (listeners_lent self.old) 1
            → Lends (listeners_lent self.old) (listeners_lent self.new) 0
            (listener_tale (Self.L.links listener) (Self.L.faults listener)
            (Self.L.idles listener) ∷ []) }
        ensures full { AreBack (listeners_lent self.old)
            → Lends (listeners_lent self.old) (listeners_lent self.new) 0 [] }
        ensures faults { faults self.new ≡ faults self.old }
        ensures wires { wires_lent self.new ≡ wires_lent self.old };

    /// No more wires come back than were made.
    ghost fair_wires: { (outside : Self) → AreOut (wires_lent outside) 0 };

    /// No more listeners come back than were made.
    ghost fair_listeners: { (outside : Self) → AreOut (listeners_lent outside) 0 };
}
