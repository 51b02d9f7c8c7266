//! The reply to an announce over UDP, from the answer to its call.

ghost use Rattle.std.specs.Prelude.{◌≡◌, ◌≤◌, take, Some};
ghost use Rattle.tracker_model.specs.Answers.{with_peers};
ghost use Rattle.tracker_core.specs.UdpText.{HasReply, announce_text};

use ot_base::{Peers, Refusal};
use tracker_model::ReportAnswer;
use udp_wire::{REPLY_ROOM, write_announce, write_error};

/// Writes the reply to an announce or a stop that has this answer and is told these peers, and
/// tells its length in bytes: the counts with the peers, or the error that the swarm or the tracker
/// is full. It takes no memory.
pub fn finish_udp(
    transaction: u32,
    answer: ReportAnswer,
    told: &Peers,
    out: &mut [u8; REPLY_ROOM],
) -> usize
    requires { HasReply (with_peers told.now answer) }
    ensures text { announce_text transaction (with_peers told.now answer) ≡
        Some (take result out.new) }
    ensures fits { result ≤ REPLY_ROOM }
{
    match answer {
        ReportAnswer::Told { counts } => write_announce(transaction, counts, told, out),
        ReportAnswer::SwarmFull { .. } => write_error(transaction, Refusal::SwarmFull, out),
        ReportAnswer::BucketFull { .. } => write_error(transaction, Refusal::TrackerFull, out),
        ReportAnswer::NoMemory => unreachable!(),
    }
}
