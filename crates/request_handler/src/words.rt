//! The random words by which the peers are chosen that a client is told.

use rand_core::{Rng, SeedableRng};
use rand_pcg::Pcg32;
use tracker_core::{ConnectionPlan, HttpPlan, UdpPlan};
use tracker_model::Call;

/// How many words an announce is handed.
const WORDS: usize = 200;

/// How many words are drawn for an announce.
#[derive(Clone, Copy, Debug, PartialEq, Eq)]
pub enum Draws {
    /// All 200, whatever the announce wants, so that what later ones are handed doesn't depend on
    /// it.
    All,
    /// One for each peer that is wanted, since no more are looked at.
    Wanted,
}

/// A generator, and the words that it gave last. What is answered is right by any words.
#[derive(Drop)]
pub struct Words {
    generator: Pcg32,
    draws: Draws,
    last: [u32; WORDS],
}

impl Words {
    /// The words that follow from a seed.
    pub fn new(seed: u64, draws: Draws) -> Words {
        Words {
            generator: Pcg32::seed_from_u64(seed),
            draws,
            last: [0; WORDS],
        }
    }

    /// Draws the words for a datagram's plan, where it is an announce. No other call looks at its
    /// words, so the last ones stay.
    pub fn draw_for_datagram(&mut self, plan: &UdpPlan<'_>) {
        if let UdpPlan::Announce {
            call: Call::Announce { want, .. },
            ..
        } = plan
        {
            self.draw(*want);
        }
    }

    /// Draws the words for a connection's plan, likewise.
    pub fn draw_for_connection(&mut self, plan: &ConnectionPlan) {
        if let ConnectionPlan::Planned(HttpPlan::Announce(Call::Announce { want, .. })) = plan {
            self.draw(*want);
        }
    }

    /// The words that were drawn last.
    pub fn last(&self) -> &[u32; WORDS] {
        &self.last
    }

    /// Draws the next words for an announce that wants so many peers, in order.
    fn draw(&mut self, want: u32) {
        let count = match self.draws {
            Draws::All => WORDS,
            Draws::Wanted => WORDS.min(want as usize),
        };
        for place in 0..count {
            self.last[place] = self.generator.next_u32();
        }
    }
}
