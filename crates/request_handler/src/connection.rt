//! What is done for a connection.

ghost use Rattle.std.specs.Prelude.{◌≡◌, option_to_list, IfOk, List, OnErr, Some, map};
ghost use Rattle.std.specs.List.{AllByRecursion};
ghost use Rattle.std.specs.List.Sorted.{IsStrictlySortedBy};
ghost use Rattle.ot_base.specs.Order.{hash_cmp};
ghost use Rattle.ot_base.specs.declared.peer.Row.{Row};
ghost use Rattle.tracker_core.specs.ConnectionPlan.{IsBoundedConnection, IsCompleteConnection};
ghost use Rattle.tracker_core.specs.ConnectionPlan.{connection_calls};
ghost use Rattle.tracker_core.specs.HttpPlan.{IsBounded, IsCompleteHttp, ScrapesInOrder};
ghost use Rattle.tracker_core.specs.HttpPlan.{http_calls};
ghost use Rattle.tracker_core.specs.HttpText.{announce_body, family_asking, http_text, scrape_body};
ghost use Rattle.tracker_core.specs.HttpText.{scraped_row, scraped_rows};
ghost use Rattle.tracker_model.specs.Answers.{with_peers};
ghost use Rattle.tracker_model.specs.Calls.{IsReport, IsWellFormed};
ghost use Rattle.tracker_model.specs.Placed.{bucket_for, bucket_in, placed_calls};
ghost use Rattle.tracker_model.specs.declared.answer.Answer.{Answer};
ghost use Rattle.tracker_model.specs.declared.call.Call.TheVariants as call;
ghost use Rattle.request_handler.specs.Connection.{IsBodyAnswer, Serves, connection_placed};
ghost use Rattle.request_handler.specs.Connection.{http_placed};
ghost use Rattle.request_handler.specs.Making.{Gives, MakesFront};

use http_wire::{Code, write_reply};
use ot_base::{Bytes, Family, HashList, InfoHash, Minute, Peers, Row, Rows};
use std::alloc::{AllocError, Global};
use tracker_core::{ConnectionPlan, HttpPlan, finish_announce, finish_scrape, refused_body};
use tracker_model::{Call, ReportAnswer, Tracker};

/// Serves a connection by its plan at a minute, where that isn't to tell all torrents: makes the
/// plan's calls, and gives all bytes that are sent on it. Before a head is whole nothing is. An
/// announce is told the peers that `words` choose.
///
/// Where there is no memory for an announce or for the reply, some of the calls may have been made,
/// the first ones.
pub fn serve<T: Tracker>(
    alloc: Global,
    tracker: &mut T,
    minute: Minute,
    plan: &ConnectionPlan,
    words: &[u32; 200],
) -> Result<Option<Bytes>, AllocError>
    requires formed { AllByRecursion IsWellFormed (connection_calls plan.now) }
    requires complete { IsCompleteConnection plan.now }
    requires bounded { IsBoundedConnection plan.now }
    ensures settings { T.settings tracker.new ≡ T.settings tracker.old }
    ensures bits { T.bits tracker.new ≡ T.bits tracker.old }
    ensures served { IfOk result (Serves T.made minute tracker.old (T.bits tracker.old) plan.now
        tracker.new) }
    ensures front { OnErr result (MakesFront T.made minute tracker.old
        (connection_placed (T.bits tracker.old) plan.now) tracker.new) }
{
    match plan {
        ConnectionPlan::More => Ok(None),
        ConnectionPlan::Rejected(code) => Ok(Some(write_reply(alloc, *code, &[])?)),
        ConnectionPlan::Planned(plan) => {
            let (code, body) = answer(alloc, tracker, minute, plan, words)?;
            Ok(Some(write_reply(alloc, code, body.as_slice())?))
        }
    }
}

/// Makes the calls of a request's plan, and gives the code and the body of the reply.
fn answer<T: Tracker>(
    alloc: Global,
    tracker: &mut T,
    minute: Minute,
    plan: &HttpPlan,
    words: &[u32; 200],
) -> Result<(Code, Bytes), AllocError>
    requires formed { AllByRecursion IsWellFormed (http_calls plan.now) }
    requires complete { IsCompleteHttp plan.now }
    requires ascending { ScrapesInOrder plan.now }
    requires bounded { IsBounded plan.now }
    ensures settings { T.settings tracker.new ≡ T.settings tracker.old }
    ensures bits { T.bits tracker.new ≡ T.bits tracker.old }
    ensures answered { IfOk result (λ reply. Gives T.made minute tracker.old
        (http_placed (T.bits tracker.old) plan.now) (http_text plan.now) tracker.new
        (reply.0, reply.1)) }
    ensures front { OnErr result (MakesFront T.made minute tracker.old
        (http_placed (T.bits tracker.old) plan.now) tracker.new) }
{
    match plan {
        HttpPlan::NotFound => Ok((Code::NotFound, Bytes::new(alloc))),
        HttpPlan::Refused(why) => Ok((Code::Ok, refused_body(alloc, *why)?)),
        HttpPlan::Announce(call) => Ok((Code::Ok, announce(alloc, tracker, minute, *call, words)?)),
        HttpPlan::Scrape(hashes) => Ok((Code::Ok, scrape(alloc, tracker, minute, hashes)?)),
        HttpPlan::Full => unreachable!(),
    }
}

/// Makes the call of an announce or a stop, and gives the body of its reply. Where there is no
/// memory for that, the call was made.
fn announce<T: Tracker>(
    alloc: Global,
    tracker: &mut T,
    minute: Minute,
    call: Call,
    words: &[u32; 200],
) -> Result<Bytes, AllocError>
    requires formed { IsWellFormed call }
    requires report { IsReport call }
    ensures settings { T.settings tracker.new ≡ T.settings tracker.old }
    ensures bits { T.bits tracker.new ≡ T.bits tracker.old }
    ensures made { (answer : Answer)
        × T.made tracker.old (bucket_for (bucket_in (T.bits tracker.old)) call) minute call answer
        tracker.new
        × IfOk result (λ body. announce_body (family_asking call) answer ≡ Some body) }
{
    let mut told = Peers::new();
    let answer = tracker.report(minute, call, words, &mut told);
    body_of(alloc, asker_family(&call), answer, &told)
}

/// The body of the reply to an announce or a stop that is told these peers.
fn body_of(
    alloc: Global,
    family: Family,
    answer: ReportAnswer,
    told: &Peers,
) -> Result<Bytes, AllocError>
    requires { IsBodyAnswer family (with_peers told.now answer) }
    ensures { IfOk result (λ body. announce_body family (with_peers told.now answer) ≡
        Some body) }
{
    match answer {
        ReportAnswer::NoMemory => Err(AllocError),
        ReportAnswer::Told { .. }
        | ReportAnswer::SwarmFull { .. }
        | ReportAnswer::BucketFull { .. } => finish_announce(alloc, family, answer, told),
    }
}

/// The family of the peer that a call reports on.
fn asker_family(call: &Call) -> Family
    ensures { result ≡ family_asking call.now }
{
    match call {
        Call::Announce { who, .. } | Call::Stop { who, .. } | Call::Sync { who, .. } => {
            who.addr.family()
        }
        Call::Scrape { .. } | Call::Scan | Call::Clean | Call::Drain => Family::Four,
    }
}

/// Scrapes the torrents in order, and gives the body of the reply.
fn scrape<T: Tracker>(
    alloc: Global,
    tracker: &mut T,
    minute: Minute,
    hashes: &HashList,
) -> Result<Bytes, AllocError>
    requires ascending { IsStrictlySortedBy hash_cmp hashes.now }
    ensures settings { T.settings tracker.new ≡ T.settings tracker.old }
    ensures bits { T.bits tracker.new ≡ T.bits tracker.old }
    ensures scraped { IfOk result (λ body. (rows : List Row)
        × Gives T.made minute tracker.old
        (placed_calls (bucket_in (T.bits tracker.old)) (map call.Scrape hashes.now))
        (scraped_rows hashes.now) tracker.new rows
        × (body ≡ scrape_body rows)) }
    ensures front { OnErr result (MakesFront T.made minute tracker.old
        (placed_calls (bucket_in (T.bits tracker.old)) (map call.Scrape hashes.now)) tracker.new) }
{
    let rows = known_rows(alloc, tracker, minute, hashes)?;
    finish_scrape(alloc, &rows)
}

/// The known ones of the torrents, in order, with their counts.
fn known_rows<T: Tracker>(
    alloc: Global,
    tracker: &mut T,
    minute: Minute,
    hashes: &HashList,
) -> Result<Rows, AllocError>
    ensures settings { T.settings tracker.new ≡ T.settings tracker.old }
    ensures bits { T.bits tracker.new ≡ T.bits tracker.old }
    ensures found { IfOk result (λ rows. Gives T.made minute tracker.old
        (placed_calls (bucket_in (T.bits tracker.old)) (map call.Scrape hashes.now))
        (scraped_rows hashes.now) tracker.new rows) }
    ensures front { OnErr result (MakesFront T.made minute tracker.old
        (placed_calls (bucket_in (T.bits tracker.old)) (map call.Scrape hashes.now)) tracker.new) }
{
    let mut rows = Rows::new(alloc);
    'hashes: for hash in hashes.as_slice() {
        if let Some(row) = known_row(tracker, minute, hash) {
            rows.push(row)?;
        }
    }
    Ok(rows)
}

/// The counts of a torrent, where it is known.
fn known_row<T: Tracker>(tracker: &mut T, minute: Minute, hash: &InfoHash) -> Option<Row>
    ensures settings { T.settings tracker.new ≡ T.settings tracker.old }
    ensures bits { T.bits tracker.new ≡ T.bits tracker.old }
    ensures scraped { (answer : Answer)
        × T.made tracker.old (bucket_in (T.bits tracker.old) hash.now) minute
        (call.Scrape hash.now) answer tracker.new
        × (scraped_row hash.now answer ≡ Some (option_to_list result)) }
{
    let (counts, known) = tracker.scrape(minute, hash);
    if known {
        Some(Row {
            hash: *hash,
            counts,
        })
    } else {
        None
    }
}
