//! Where connections come from.

ghost use Rattle.std.specs.Prelude.{◌≡◌, ℕ, [], ◌∷◌, Option};
ghost use Rattle.ot_io.specs.Tales.{Accepts, AcceptIdlesOnlyCounted, AcceptFailsOnlyCounted};
ghost use Rattle.ot_io.specs.Tales.{AreOwed, AreQuit, Links, Passes, tale};

use crate::conn::Conn;

/// What one look for a new connection gave.
#[derive(Debug, Drop)]
pub enum Accept<C> {
    /// A connection that was neither read nor written yet.
    Got(C),
    /// None waits.
    Idle,
    /// The outside failed. Nothing was accepted.
    Failed,
}

/// Accepts connections at one address, and takes them back when they are served.
pub trait Listener {
    /// A connection.
    type Link: Conn;

    /// What waits, was accepted and was taken back, where it is told.
    ghost links: { Self → Option Links };

    /// How often it has failed: a number that doesn't fall.
    ghost faults: { Self → ℕ };

    /// How often it has answered that none waits: a number that doesn't fall.
    ghost idles: { Self → ℕ };

    /// Accepts the connection that waits first. It may wait a moment for one.
    fn accept(&mut self) -> Accept<Self::Link>
        ensures accepted { Accepts
            (λ link. tale (Self.Link.client link) (Self.Link.left link) (Self.Link.written link)
            (Self.Link.Source.faults link) (Self.Link.ends link))
            (links self.old) (links self.new) result }
        ensures idle { AcceptIdlesOnlyCounted (idles self.old) (idles self.new) result }
        ensures failed { AcceptFailsOnlyCounted (faults self.old) (faults self.new) result };

    /// Takes back a connection that it accepted. One that was not accepted is let go.
    fn done(&mut self, link: Self::Link)
        ensures back { AreOwed (links self.old) 1 → Passes (links self.old) (links self.new) []
            (tale (Self.Link.client link) (Self.Link.left link) (Self.Link.written link)
            (Self.Link.Source.faults link) (Self.Link.ends link) ∷ []) }
        ensures full { AreQuit (links self.old)
            → Passes (links self.old) (links self.new) [] [] }
        ensures faults { faults self.new ≡ faults self.old }
        ensures idles { idles self.new ≡ idles self.old };

    /// No more come back than were accepted.
    ghost even: { (listener : Self) → AreOwed (links listener) 0 };
}
