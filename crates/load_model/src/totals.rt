//! The sums that a phase tells.

ghost use Rattle.std.specs.Prelude.{◌≡◌, ◌^◌};
ghost use Rattle.load_model.specs.Sums.{IsWithin, added, totals_of_one};
ghost use Rattle.load_model.specs.Text.{totals_of};

use ot_base::{Counts, Row};

/// How many torrents are known, and the sums over them.
#[derive(Clone, Copy, Debug, Default, PartialEq, Eq)]
pub struct Totals {
    pub torrents: u128,
    /// Live seeds.
    pub complete: u128,
    /// Announces of a finished download.
    pub downloaded: u128,
    /// Live peers that aren't seeds.
    pub incomplete: u128,
}

impl Totals {
    /// The totals of the rows of a scan.
    pub fn of_rows(rows: &[Row]) -> Totals
        ensures totals { result ≡ totals_of rows.now }
        ensures within { IsWithin (2 ^ 96) result }
    {
        let mut totals = Totals::default();
        for row in rows {
            totals = totals.plus(Totals::of_row(row.counts));
        }
        totals
    }

    /// The totals of one torrent.
    fn of_row(counts: Counts) -> Totals
        ensures totals { result ≡ totals_of_one counts }
        ensures within { IsWithin (2 ^ 32) result }
    {
        Totals {
            torrents: 1,
            complete: u128::from(counts.complete),
            downloaded: u128::from(counts.downloaded),
            incomplete: u128::from(counts.incomplete),
        }
    }

    /// These totals with others added to them.
    pub fn plus(self, other: Totals) -> Totals
        requires within { IsWithin (2 ^ 126) self }
        requires other_within { IsWithin (2 ^ 126) other }
        ensures { result ≡ added self other }
    {
        Totals {
            torrents: self.torrents + other.torrents,
            complete: self.complete + other.complete,
            downloaded: self.downloaded + other.downloaded,
            incomplete: self.incomplete + other.incomplete,
        }
    }
}
