//! Laws of the definitions: each function's contract is the law, and its body is empty.

ghost use Rattle.std.specs.Prelude.{◌≡◌, ◌<◌, ◌^◌, All, Bool, List, Option, flat_map, length, map, ℕ};
ghost use Rattle.std.specs.List.Sorted.{IsStrictlySortedBy};
ghost use Rattle.ot_base.specs.Order.{hash_cmp};
ghost use Rattle.ot_base.specs.declared.address.Endpoint.{Endpoint};
ghost use Rattle.ot_base.specs.declared.address.Family.{Family};
ghost use Rattle.ot_base.specs.declared.peer.Counts.{Counts};
ghost use Rattle.ot_base.specs.declared.peer.Row.{Row};
ghost use Rattle.ot_base.specs.declared.refusal.Refusal.{Refusal};
ghost use Rattle.access_list.specs.Access.{Listing};
ghost use Rattle.udp_wire.specs.Packets.{peer_bytes};
ghost use Rattle.udp_wire.specs.Replies.{IsOf32Bits};
ghost use Rattle.bencode_text.specs.Bencode.{IsCanonical};
ghost use Rattle.tracker_core.specs.ConnectionPlan.{IsConnectionPlan};
ghost use Rattle.tracker_core.specs.HttpText.{IsRow, failure_body, scrape_body, told_body};
ghost use Rattle.tracker_core.specs.declared.connection_plan.ConnectionPlan.{ConnectionPlan};

/// Bytes that a connection has sent have one plan.
pub fn one_plan()
    ensures { (bytes : List ℕ) (access : Option Listing) (from : Endpoint) (full : Bool)
        (a b : ConnectionPlan) →
        IsConnectionPlan bytes access from full a → IsConnectionPlan bytes access from full b →
        a ≡ b }
{}

/// The bodies of replies are canonical bencode, where counts, hashes and peers are as their types
/// have them and the torrents of a scrape ascend.
pub fn canonical_bodies()
    ensures refused { (why : Refusal) → IsCanonical (failure_body why) }
    ensures told { (family : Family) (counts : Counts) (peers : List Endpoint) →
        IsOf32Bits counts → length (flat_map peer_bytes peers) < 2 ^ 64 →
        IsCanonical (told_body family counts peers) }
    ensures scraped { (rows : List Row) → All IsRow rows →
        IsStrictlySortedBy hash_cmp (map (λ row. row.hash) rows) →
        IsCanonical (scrape_body rows) }
{}
