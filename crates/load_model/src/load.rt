//! A load, as it is drawn.

ghost use Rattle.std.specs.Prelude.{◌≡◌, ◌∷◌, IfNone, IfSome};
ghost use Rattle.load_model.specs.Drawing.{IsNotNext};
ghost use Rattle.load_model.specs.Load.{requests};

use crate::request::Request;
use crate::settings::DrillSettings;
use rand_core::SeedableRng;
use rand_core::utils::NextWord;
use rand_pcg::Pcg32;
use std::marker::Model;

/// How many phases a load has.
pub const PHASES: u32 = 8;

/// The requests of a load that aren't drawn yet. Contracts see them in order, each with its phase.
#[derive(Drop)]
pub struct Load {
    generator: Pcg32,
    /// The number of the next request.
    next: u32,
    /// How many requests there are in all.
    count: u32,
}

impl Model for Load {
    ghost use Rattle.std.specs.Prelude.{◌-◌, ◌≤◌, List, ℕ};
    ghost use Rattle.load_model.specs.Load.{drawn, phased};
    ghost use Rattle.load_model.specs.declared.request.Request.{Request};

    ghost Value = { List (ℕ × Request) };

    ghost view = { λ l. phased l.count l.next (drawn l.generator (l.count - l.next)) };

    ghost invariant = { λ l. (l.next ≤ l.count) × (l.count ≤ 1000000) };
}

impl Load {
    ghost use Rattle.std.specs.Prelude.{◌≤◌};

    /// All requests of a load.
    pub fn new(settings: &DrillSettings) -> Load
        requires { settings.now.count ≤ 1000000 }
        ensures { result ≡ requests settings.now }
    {
        Load {
            generator: Pcg32::seed_from_u64(settings.seed),
            next: 0,
            count: settings.count,
        }
    }

    /// Draws the next request, if there is one and it is of this phase.
    pub fn next_in(&mut self, phase: u32) -> Option<Request>
        ensures some { IfSome result (λ request. self.old ≡ (phase, request) ∷ self.new) }
        ensures none { IfNone result (IsNotNext phase self.old) }
        ensures same { IfNone result (self.new ≡ self.old) }
    {
        if self.next == self.count || self.next * PHASES / self.count != phase {
            return None;
        }
        self.next += 1;
        Some(Request {
            first: self.generator.next_word(),
            second: self.generator.next_word(),
        })
    }
}
