//! The plan of an HTTP request (BEP 3, BEP 23, BEP 48).

ghost use Rattle.std.specs.Prelude.{◌≡◌, IfOk, OnOk, codes, length, option_copied};
ghost use Rattle.std.specs.List.{AllByRecursion};
ghost use Rattle.ot_base.specs.Address.{family_of};
ghost use Rattle.ot_base.specs.Order.{hash_cmp};
ghost use Rattle.ot_base.specs.declared.address.Family.TheVariants.{Four};
ghost use Rattle.query_read.specs.Query.{values_of};
ghost use Rattle.tracker_model.specs.Calls.{IsWellFormed};
ghost use Rattle.tracker_model.specs.Counted.{put_in_order};
ghost use Rattle.tracker_model.specs.Calls.{IsReport};
ghost use Rattle.tracker_core.specs.HttpPlan.{IsCompleteHttp, ScrapesInOrder, announce_plan};
ghost use Rattle.tracker_core.specs.HttpPlan.{event_named, first_number, hash_named, hashes_named};
ghost use Rattle.tracker_core.specs.HttpPlan.{http_calls, http_plan, named_call, port_named};
ghost use Rattle.tracker_core.specs.HttpPlan.{scrape_plan};

use crate::report::{peers_wanted, report_call};
use access_list::{AccessList, admits_hash};
use ot_base::{Endpoint, Event, HashList, InfoHash, Refusal};
use query_read::{Query, Target, read_number, read_target};
use std::alloc::{AllocError, Global};
use std::cmp::Ordering;
use tracker_model::Call;

/// What is to be done for the target of an HTTP request.
#[derive(Debug, Drop)]
pub enum HttpPlan {
    /// Nothing is at that target.
    NotFound,
    /// The client is told why it is refused.
    Refused(Refusal),
    /// The call is made, an announce or a stop, and the client is told its answer.
    Announce(Call),
    /// Each of the torrents is scraped, in order, and the client is told the counts of those that
    /// are known. They ascend by hash, and none stands twice.
    Scrape(HashList),
    /// The client is told the counts of all known torrents.
    Full,
}

/// The plan for a target of any bytes, from an endpoint of IPv4. `full` says whether a client may
/// ask for all torrents at once.
///
/// An announce or a stop is refused for its info hash first, then for its port, then where the
/// access list doesn't admit the torrent, if there is a list. A scrape isn't judged by the list. Of
/// the pairs of a name the first one counts; but a scrape may name several info hashes. Two blocks
/// of memory are taken for a query, which are given back, and one more for the hashes of a scrape.
pub fn plan_http(
    alloc: Global,
    target: &[u8],
    from: Endpoint,
    access: Option<&AccessList>,
    full: bool,
) -> Result<HttpPlan, AllocError>
    requires { family_of from.addr ≡ Four }
    ensures planned { IfOk result
        (λ plan. plan ≡ http_plan target.now (option_copied access.entry) from full) }
    ensures formed { IfOk result (λ plan. AllByRecursion IsWellFormed (http_calls plan)) }
    ensures complete { IfOk result IsCompleteHttp }
    ensures ascending { IfOk result ScrapesInOrder }
{
    match read_target(alloc, target)? {
        Target::Announce(query) => Ok(plan_announce(&query, from, access)),
        Target::Scrape(query) => plan_scrape(alloc, &query, full),
        Target::Other => Ok(HttpPlan::NotFound),
    }
}

/// The plan for the query of an announce.
fn plan_announce(query: &Query, from: Endpoint, access: Option<&AccessList>) -> HttpPlan
    requires { family_of from.addr ≡ Four }
    ensures planned { result ≡ announce_plan (option_copied access.entry) from query.now }
    ensures formed { AllByRecursion IsWellFormed (http_calls result) }
    ensures complete { IsCompleteHttp result }
    ensures ascending { ScrapesInOrder result }
{
    let hash = match hash_named(query.first(b"info_hash")) {
        Ok(hash) => hash,
        Err(why) => return HttpPlan::Refused(why),
    };
    let port = match port_named(query.first(b"port")) {
        Ok(port) => port,
        Err(why) => return HttpPlan::Refused(why),
    };
    if !admits_hash(access, &hash) {
        return HttpPlan::Refused(Refusal::Denied);
    }
    HttpPlan::Announce(named_call(query, from, hash, port))
}

/// The call of an announce of this torrent and port.
fn named_call(query: &Query, from: Endpoint, hash: InfoHash, port: u16) -> Call
    ensures value { result ≡ named_call from query.now hash port }
    ensures report { IsReport result }
{
    let who = Endpoint {
        addr: from.addr,
        port,
    };
    let event = event_named(query.first(b"event"));
    let done = first_number(query, b"left") == Some(0);
    let want = peers_wanted(first_number(query, b"numwant"));
    report_call(hash, who, event, done, want)
}

/// The number that the first pair of a name writes, if it is there and writes one.
fn first_number(query: &Query, name: &[u8]) -> Option<u64>
    ensures { result ≡ first_number query.now name.now }
{
    read_number(query.first(name)?)
}

/// The info hash that an announce names, or why it is refused.
fn hash_named(value: Option<&[u8]>) -> Result<InfoHash, Refusal>
    ensures { result ≡ hash_named (option_copied value.entry) }
{
    read_hash(value.ok_or(Refusal::MissingHash)?)
}

/// The info hash that a value is, or that it is none.
fn read_hash(value: &[u8]) -> Result<InfoHash, Refusal>
    ensures { result ≡ hash_named (Some value.now) }
{
    if value.len() != 20 {
        return Err(Refusal::BadHash);
    }
    let mut hash = [0; 20];
    hash.copy_from_slice(value);
    Ok(InfoHash(hash))
}

/// The port that an announce names, or why it is refused.
fn port_named(value: Option<&[u8]>) -> Result<u16, Refusal>
    ensures { result ≡ port_named (option_copied value.entry) }
{
    let value = value.ok_or(Refusal::MissingPort)?;
    match read_number(value) {
        Some(number @ 1..=65535) => Ok(number as u16),
        _ => Err(Refusal::BadPort),
    }
}

/// What an announce says of its peer.
fn event_named(value: Option<&[u8]>) -> Event
    ensures { result ≡ event_named (option_copied value.entry) }
{
    match value {
        Some(value) => event_of(value),
        None => Event::Nothing,
    }
}

/// The event of this name; any other than these two counts as none.
fn event_of(value: &[u8]) -> Event
    ensures { result ≡ event_named (Some value.now) }
{
    if value == b"stopped".as_slice() {
        Event::Stopped
    } else if value == b"completed".as_slice() {
        Event::Completed
    } else {
        Event::Nothing
    }
}

/// The plan for the query of a scrape.
fn plan_scrape(alloc: Global, query: &Query, full: bool) -> Result<HttpPlan, AllocError>
    ensures planned { IfOk result
        (λ plan. plan ≡ scrape_plan full (values_of query.now (codes "info_hash"))) }
    ensures formed { IfOk result (λ plan. AllByRecursion IsWellFormed (http_calls plan)) }
    ensures complete { IfOk result IsCompleteHttp }
    ensures ascending { IfOk result ScrapesInOrder }
{
    let count = query.count(b"info_hash");
    if count == 0 {
        return Ok(if full {
            HttpPlan::Full
        } else {
            HttpPlan::NotFound
        });
    }
    match hashes_named(alloc, query, count)? {
        Some(hashes) => Ok(HttpPlan::Scrape(hashes)),
        None => Ok(HttpPlan::Refused(Refusal::BadHash)),
    }
}

/// The info hashes that a scrape names, each once in ascending order, where each of its `count`
/// values is one.
fn hashes_named(alloc: Global, query: &Query, count: usize) -> Result<Option<HashList>, AllocError>
    requires { count ≡ length (values_of query.now (codes "info_hash")) }
    ensures { IfOk result
        (λ found. found ≡ hashes_named (values_of query.now (codes "info_hash"))) }
{
    let mut hashes = Vec::with_capacity(alloc, count)?;
    'values: for i in (0..count).rev() {
        match read_hash(query.nth(b"info_hash", i)) {
            Ok(hash) => put_in_order(&mut hashes, hash)?,
            Err(_) => return Ok(None),
        }
    }
    Ok(Some(HashList::from(hashes)))
}

/// Puts a hash into its place among ascending ones, if it isn't there.
fn put_in_order(hashes: &mut Vec<InfoHash>, hash: InfoHash) -> Result<(), AllocError>
    ensures { OnOk result (hashes.new.items ≡ put_in_order hash_cmp hash hashes.old.items) }
{
    'places: for place in 0..hashes.len() {
        match hash.cmp(&hashes[place]) {
            Ordering::Less => {
                hashes.insert(place, hash)?;
                return Ok(());
            }
            Ordering::Equal => return Ok(()),
            Ordering::Greater => {}
        }
    }
    hashes.push(hash)?;
    Ok(())
}
