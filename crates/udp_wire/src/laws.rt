//! Laws of the packets: each function's contract is the law, and its body is empty. What a writer
//! wrote is read again as the same reply, and has its place in the room for replies.

ghost use Rattle.std.specs.Prelude.{◌≡◌, ◌^◌, ◌<◌, ◌≤◌, ℕ, All, List, Some, length};
ghost use Rattle.ot_base.specs.Refusal.{refusal_text};
ghost use Rattle.ot_base.specs.declared.address.Endpoint.{Endpoint};
ghost use Rattle.ot_base.specs.declared.address.Family.{Family};
ghost use Rattle.ot_base.specs.declared.peer.Counts.{Counts};
ghost use Rattle.ot_base.specs.declared.refusal.Refusal.{Refusal};
ghost use Rattle.udp_wire.specs.Packets.{connect_reply, announce_reply, scrape_reply, error_reply};
ghost use Rattle.udp_wire.specs.Replies.{most_peers, AreOf, IsOf32Bits, reply_of};
ghost use Rattle.udp_wire.specs.declared.reading.Reply.TheVariants.{Connect, Announce, Scrape, Error};

use crate::REPLY_ROOM;

/// The reply to a connect, whatever the client's family.
pub fn connect_is_read_again()
    ensures again { (family : Family) (transaction connection : ℕ) →
        transaction < 2 ^ 32 → connection < 2 ^ 64 →
        reply_of family (connect_reply transaction connection)
        ≡ Some (Connect transaction connection) }
    ensures fits { (transaction connection : ℕ) →
        length (connect_reply transaction connection) ≤ REPLY_ROOM }
{}

/// The reply to an announce with peers of the client's family: its interval is half an hour, and
/// the downloads aren't told.
pub fn announce_is_read_again()
    ensures again { (family : Family) (transaction : ℕ) (counts : Counts) (peers : List Endpoint) →
        transaction < 2 ^ 32 → IsOf32Bits counts →
        AreOf family peers → length peers ≤ most_peers family →
        reply_of family (announce_reply transaction counts peers)
        ≡ Some (Announce transaction 1800 (record counts { downloaded = 0 }) peers) }
    ensures fits { (family : Family) (transaction : ℕ) (counts : Counts) (peers : List Endpoint) →
        AreOf family peers → length peers ≤ most_peers family →
        length (announce_reply transaction counts peers) ≤ REPLY_ROOM }
{}

/// The reply to a scrape of 1 to 74 hashes, whatever the client's family.
pub fn scrape_is_read_again()
    ensures again { (family : Family) (transaction : ℕ) (counts : List Counts) →
        transaction < 2 ^ 32 → All IsOf32Bits counts →
        1 ≤ length counts → length counts ≤ 74 →
        reply_of family (scrape_reply transaction counts) ≡ Some (Scrape transaction counts) }
    ensures fits { (transaction : ℕ) (counts : List Counts) →
        length counts ≤ 74 → length (scrape_reply transaction counts) ≤ REPLY_ROOM }
{}

/// An error of every refusal, whatever the client's family.
pub fn error_is_read_again()
    ensures again { (family : Family) (transaction : ℕ) (why : Refusal) →
        transaction < 2 ^ 32 →
        reply_of family (error_reply transaction why)
        ≡ Some (Error transaction (refusal_text why)) }
    ensures fits { (transaction : ℕ) (why : Refusal) →
        length (error_reply transaction why) ≤ REPLY_ROOM }
{}
