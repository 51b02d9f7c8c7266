//! The bodies of HTTP replies, each one dictionary of bencode (BEP 3, BEP 7, BEP 23, BEP 48).
//!
//! A body takes one block of memory, which has room for the longest of its kind before its first
//! byte is written. So the request of an announce takes two blocks for its query and this one;
//! `write_reply`, which puts the head before the body, takes its own.

ghost use Rattle.std.specs.Prelude.{◌≡◌, ◌<◌, ◌≤◌, ◌+◌, ◌*◌, ◌++◌, ◌∷◌, [], All, IfOk, OnOk, Some};
ghost use Rattle.std.specs.Prelude.{decimal, flat_map, length, map};
ghost use Rattle.std.specs.List.Sorted.{IsStrictlySortedBy};
ghost use Rattle.bencode_text.specs.Bencode.{IsCanonical};
ghost use Rattle.ot_base.specs.Address.{family_of};
ghost use Rattle.ot_base.specs.Order.{hash_cmp};
ghost use Rattle.udp_wire.specs.Packets.{peer_bytes, peer_len};
ghost use Rattle.udp_wire.specs.Replies.{IsOf32Bits};
ghost use Rattle.tracker_model.specs.Answers.{with_peers};
ghost use Rattle.tracker_core.specs.HttpText.{HasBody, IsRow, announce_body, counts_text};
ghost use Rattle.tracker_core.specs.HttpText.{failure_body, peer_len_of, peers_key, peers_text};
ghost use Rattle.tracker_core.specs.HttpText.{row_text, scrape_body, told_body};

use itoa::Buffer;
use ot_base::peers::PEERS;
use ot_base::{Addr, Bytes, Counts, Endpoint, Family, Peers, Refusal, Row, Rows};
use std::alloc::{AllocError, Global};
use tracker_model::ReportAnswer;

/// How many bytes tell an announce of all but its peers, at most.
const TOLD_ROOM: usize = 132;

/// How many bytes the row of a torrent has at most.
const ROW_ROOM: usize = 97;

/// How many bytes tell why a request is refused, at most.
const FAILURE_ROOM: usize = 39;

/// The body that answers an announce or a stop of a client of this family, which is told these
/// peers: the counts and the peers, or that the swarm or the tracker is full.
pub fn finish_announce(
    alloc: Global,
    family: Family,
    answer: ReportAnswer,
    told: &Peers,
) -> Result<Bytes, AllocError>
    requires { HasBody family (with_peers told.now answer) }
    ensures text { IfOk result (λ body.
        announce_body family (with_peers told.now answer) ≡ Some body) }
    ensures canonical { IfOk result IsCanonical }
{
    match answer {
        ReportAnswer::Told { counts } => told_body(alloc, family, counts, told),
        ReportAnswer::SwarmFull { .. } => refused_body(alloc, Refusal::SwarmFull),
        ReportAnswer::BucketFull { .. } => refused_body(alloc, Refusal::TrackerFull),
        ReportAnswer::NoMemory => unreachable!(),
    }
}

/// What a client is told that took part or left.
#[tactic(auto, unfolding(crate::specs::HttpText::told_body))]
fn told_body(
    alloc: Global,
    family: Family,
    counts: Counts,
    peers: &Peers,
) -> Result<Bytes, AllocError>
    requires { All (λ peer. family_of peer.addr ≡ family) peers.now }
    ensures text { IfOk result (λ body. body ≡ told_body family counts peers.now) }
    ensures canonical { IfOk result IsCanonical }
{
    let peers = peers.as_slice();
    let mut body = Vec::with_capacity(alloc, TOLD_ROOM + peer_len(family) * peers.len())?;
    body.push(b'd')?;
    append_counts(&mut body, counts)?;
    body.extend_from_slice(b"8:intervali1800e12:min intervali900e")?;
    append_peers(&mut body, family, peers)?;
    body.push(b'e')?;
    Ok(Bytes::from(body))
}

/// The body that answers a scrape: the torrents that are known, with their counts. They ascend by
/// hash, and none stands twice.
#[tactic(auto, unfolding(crate::specs::HttpText::scrape_body))]
pub fn finish_scrape(alloc: Global, rows: &Rows) -> Result<Bytes, AllocError>
    requires { IsStrictlySortedBy hash_cmp (map (λ row. row.hash) rows.now) }
    ensures text { IfOk result (λ body. body ≡ scrape_body rows.now) }
    ensures canonical { IfOk result IsCanonical }
{
    rows_between(alloc, b"d5:filesd", rows.as_slice(), b"ee")
}

/// The rows of torrents in order, with what stands before and behind them. The body of a scrape is
/// such a piece, or made of several.
pub fn rows_between(
    alloc: Global,
    front: &[u8],
    rows: &[Row],
    back: &[u8],
) -> Result<Bytes, AllocError>
    ensures text { IfOk result (λ text.
        text ≡ front.now ++ (flat_map row_text rows.now ++ back.now)) }
    ensures typed { OnOk result (All IsRow rows.now) }
{
    let room = rows
        .len()
        .saturating_mul(ROW_ROOM)
        .saturating_add(front.len())
        .saturating_add(back.len());
    let mut text = Vec::with_capacity(alloc, room)?;
    text.extend_from_slice(front)?;
    'rows: for row in rows {
        append_row(&mut text, row)?;
    }
    text.extend_from_slice(back)?;
    Ok(Bytes::from(text))
}

/// The body that tells why a request is refused.
#[tactic(auto, unfolding(crate::specs::HttpText::failure_body))]
pub fn refused_body(alloc: Global, why: Refusal) -> Result<Bytes, AllocError>
    ensures text { IfOk result (λ body. body ≡ failure_body why) }
    ensures canonical { IfOk result IsCanonical }
{
    let text = why.text().as_bytes();
    let mut body = Vec::with_capacity(alloc, FAILURE_ROOM)?;
    body.extend_from_slice(b"d14:failure reason")?;
    append_number(&mut body, text.len())?;
    body.push(b':')?;
    body.extend_from_slice(text)?;
    body.push(b'e')?;
    Ok(Bytes::from(body))
}

/// Adds the row of a torrent.
#[tactic(auto, unfolding(crate::specs::HttpText::row_text))]
fn append_row(body: &mut Vec<u8>, row: &Row) -> Result<(), AllocError>
    ensures text { OnOk result (body.new.items ≡ body.old.items ++ row_text row.now) }
    ensures typed { OnOk result (IsRow row.now) }
{
    body.extend_from_slice(b"20:")?;
    body.extend_from_slice(&row.hash.0)?;
    body.push(b'd')?;
    append_counts(body, row.counts)?;
    body.push(b'e')?;
    Ok(())
}

/// Adds the counts of a torrent: their keys and their integers.
#[tactic(auto, unfolding(crate::specs::HttpText::counts_text))]
fn append_counts(body: &mut Vec<u8>, counts: Counts) -> Result<(), AllocError>
    ensures text { OnOk result (body.new.items ≡ body.old.items ++ counts_text counts) }
    ensures small { IsOf32Bits counts }
{
    body.extend_from_slice(b"8:completei")?;
    append_number(body, counts.complete as usize)?;
    body.extend_from_slice(b"e10:downloadedi")?;
    append_number(body, counts.downloaded as usize)?;
    body.extend_from_slice(b"e10:incompletei")?;
    append_number(body, counts.incomplete as usize)?;
    body.push(b'e')?;
    Ok(())
}

/// Adds the decimal digits of a number.
fn append_number(body: &mut Vec<u8>, number: usize) -> Result<(), AllocError>
    ensures { OnOk result (body.new.items ≡ body.old.items ++ decimal number) }
{
    let mut digits = Buffer::new();
    body.extend_from_slice(digits.format(number).as_bytes())
}

/// Adds the peers of a family: their key, and a string of their bytes.
#[tactic(auto, unfolding(crate::specs::HttpText::peers_text))]
fn append_peers(body: &mut Vec<u8>, family: Family, peers: &[Endpoint]) -> Result<(), AllocError>
    requires few { length peers.now ≤ PEERS }
    requires same { All (λ peer. family_of peer.addr ≡ family) peers.now }
    ensures text { OnOk result (body.new.items ≡ body.old.items ++ peers_text family peers.now) }
    ensures long { OnOk result
        (length (flat_map peer_bytes peers.now) ≡ peer_len_of family * length peers.now) }
{
    body.extend_from_slice(peers_key(family))?;
    append_number(body, peer_len(family) * peers.len())?;
    body.push(b':')?;
    'peers: for peer in peers {
        append_peer(body, *peer)?;
    }
    Ok(())
}

/// Adds where a peer listens.
fn append_peer(body: &mut Vec<u8>, peer: Endpoint) -> Result<(), AllocError>
    ensures text { OnOk result (body.new.items ≡ body.old.items ++ peer_bytes peer) }
    ensures long { length (peer_bytes peer) ≡ peer_len peer.addr }
{
    let [high, low] = peer.port.to_be_bytes();
    match peer.addr {
        Addr::V4(b) => body.extend_from_slice(&[b[0], b[1], b[2], b[3], high, low]),
        Addr::V6(bytes) => {
            body.extend_from_slice(&bytes)?;
            body.extend_from_slice(&[high, low])
        }
    }
}

/// What stands before the peers of a family.
fn peers_key(family: Family) -> &'static [u8]
    ensures { result.now ≡ peers_key family }
{
    match family {
        Family::Four => b"5:peers",
        Family::Six => b"5:peers0:6:peers6",
    }
}

/// How many bytes a peer of a family has.
fn peer_len(family: Family) -> usize
    ensures { result ≡ peer_len_of family }
{
    match family {
        Family::Four => 6,
        Family::Six => 18,
    }
}
