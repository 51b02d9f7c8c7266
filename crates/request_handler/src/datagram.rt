//! What is done for a datagram.

ghost use Rattle.std.specs.Prelude.{◌≡◌, ◌≤◌, length, List, map, take};
ghost use Rattle.std.specs.List.{AllByRecursion};
ghost use Rattle.tracker_core.specs.UdpPlan.{IsComplete, IsReport, calls_of};
ghost use Rattle.tracker_core.specs.UdpText.{all_counts};
ghost use Rattle.tracker_model.specs.Answers.{with_peers};
ghost use Rattle.tracker_model.specs.Calls.{IsWellFormed};
ghost use Rattle.tracker_model.specs.Placed.{bucket_for, bucket_in, placed_calls};
ghost use Rattle.tracker_model.specs.declared.answer.Answer.{Answer};
ghost use Rattle.tracker_model.specs.declared.call.Call.TheVariants as call;
ghost use Rattle.ot_base.specs.declared.peer.Counts.{Counts};
ghost use Rattle.udp_wire.specs.Packets.{scrape_reply};
ghost use Rattle.request_handler.specs.Datagram.{CarriesOut, HasRoom, IsReportAnswer};
ghost use Rattle.request_handler.specs.Datagram.{IsReportOutcome};
ghost use Rattle.request_handler.specs.Making.{Gives};

use ot_base::{CountList, Minute, Peers};
use tracker_core::{UdpPlan, finish_udp};
use tracker_model::{Call, ReportAnswer, Tracker};
use udp_wire::{Quiet, REPLY_ROOM, ScrapeHashes, write_connect, write_error, write_scrape};

/// What came of a plan.
#[derive(Clone, Copy, Debug, PartialEq, Eq)]
pub enum Outcome {
    /// The datagram is left without a reply.
    Silent(Quiet),
    /// The reply has so many bytes.
    Replied(usize),
    /// There was no memory for the call of an announce.
    NoMemory,
}

/// Carries out a plan at a minute: makes its calls, and puts the reply at the front of `reply`. An
/// announce is told the peers that `words` choose. It takes no memory but what the calls take.
pub fn carry_out<T: Tracker>(
    tracker: &mut T,
    minute: Minute,
    plan: &UdpPlan<'_>,
    words: &[u32; 200],
    reply: &mut [u8; REPLY_ROOM],
) -> Outcome
    requires formed { AllByRecursion IsWellFormed (calls_of plan.now) }
    requires complete { IsComplete plan.now }
    ensures settings { T.settings tracker.new ≡ T.settings tracker.old }
    ensures bits { T.bits tracker.new ≡ T.bits tracker.old }
    ensures carried { CarriesOut T.made minute tracker.old (T.bits tracker.old) plan.now
        tracker.new reply.new result }
    ensures fits { HasRoom result }
{
    match plan {
        UdpPlan::Silent(quiet) => Outcome::Silent(*quiet),
        UdpPlan::Connected {
            transaction,
            connection,
        } => Outcome::Replied(write_connect(*transaction, *connection, reply)),
        UdpPlan::Refused { transaction, why } => {
            Outcome::Replied(write_error(*transaction, *why, reply))
        }
        UdpPlan::Announce { transaction, call } => {
            announce(tracker, minute, *transaction, *call, words, reply)
        }
        UdpPlan::Scrape {
            transaction,
            hashes,
        } => Outcome::Replied(scrape_all(tracker, minute, *transaction, hashes, reply)),
    }
}

/// Makes the call of an announce or a stop, and writes its reply. It stays a function of its own,
/// so that no other datagram pays for the room of peers.
#[inline(never)]
fn announce<T: Tracker>(
    tracker: &mut T,
    minute: Minute,
    transaction: u32,
    call: Call,
    words: &[u32; 200],
    reply: &mut [u8; REPLY_ROOM],
) -> Outcome
    requires formed { IsWellFormed call }
    requires report { IsReport call }
    ensures settings { T.settings tracker.new ≡ T.settings tracker.old }
    ensures bits { T.bits tracker.new ≡ T.bits tracker.old }
    ensures made { (answer : Answer)
        × T.made tracker.old (bucket_for (bucket_in (T.bits tracker.old)) call) minute call answer
        tracker.new
        × IsReportOutcome transaction answer reply.new result }
    ensures fits { HasRoom result }
{
    let mut told = Peers::new();
    let answer = tracker.report(minute, call, words, &mut told);
    write_answer(transaction, answer, &told, reply)
}

/// Writes the reply to an announce or a stop that is told these peers.
fn write_answer(
    transaction: u32,
    answer: ReportAnswer,
    told: &Peers,
    reply: &mut [u8; REPLY_ROOM],
) -> Outcome
    requires { IsReportAnswer (with_peers told.now answer) }
    ensures came { IsReportOutcome transaction (with_peers told.now answer) reply.new result }
    ensures fits { HasRoom result }
{
    match answer {
        ReportAnswer::NoMemory => Outcome::NoMemory,
        ReportAnswer::Told { .. }
        | ReportAnswer::SwarmFull { .. }
        | ReportAnswer::BucketFull { .. } => {
            Outcome::Replied(finish_udp(transaction, answer, told, reply))
        }
    }
}

/// Scrapes the torrents in order, and writes the reply. It stays a function of its own, as
/// `announce`.
#[inline(never)]
fn scrape_all<T: Tracker>(
    tracker: &mut T,
    minute: Minute,
    transaction: u32,
    hashes: &ScrapeHashes<'_>,
    reply: &mut [u8; REPLY_ROOM],
) -> usize
    requires some { 1 ≤ length hashes.now }
    ensures settings { T.settings tracker.new ≡ T.settings tracker.old }
    ensures bits { T.bits tracker.new ≡ T.bits tracker.old }
    ensures scraped { (counts : List Counts)
        × Gives T.made minute tracker.old
        (placed_calls (bucket_in (T.bits tracker.old)) (map call.Scrape hashes.now)) all_counts
        tracker.new counts
        × (take result reply.new ≡ scrape_reply transaction counts) }
    ensures fits { result ≤ REPLY_ROOM }
{
    let counts = counts_of(tracker, minute, hashes);
    write_scrape(transaction, counts.as_slice(), reply)
}

/// The counts of the torrents, in order.
fn counts_of<T: Tracker>(tracker: &mut T, minute: Minute, hashes: &ScrapeHashes<'_>) -> CountList
    ensures settings { T.settings tracker.new ≡ T.settings tracker.old }
    ensures bits { T.bits tracker.new ≡ T.bits tracker.old }
    ensures many { length result ≡ length hashes.now }
    ensures scraped { Gives T.made minute tracker.old
        (placed_calls (bucket_in (T.bits tracker.old)) (map call.Scrape hashes.now)) all_counts
        tracker.new result }
{
    let mut counts = CountList::new();
    for i in 0..hashes.len() {
        let (found, _known) = tracker.scrape(minute, &hashes.get(i));
        counts.push(found);
    }
    counts
}
