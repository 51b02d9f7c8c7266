//! How the request of a connection is read.

ghost use Rattle.std.specs.Prelude.{◌≡◌, ◌<◌, ◌≤◌, ◌↔◌, IfOk, IfSome, IsTrue, None, Ok, Some, option_copied};
ghost use Rattle.std.specs.Io.KnownBytes.{IsAtEnd};
ghost use Rattle.std.specs.List.{AllByRecursion};
ghost use Rattle.ot_base.specs.Address.{family_of};
ghost use Rattle.ot_base.specs.declared.address.Family.TheVariants.{Four};
ghost use Rattle.ot_io.specs.Counts.{Rose};
ghost use Rattle.ot_io.specs.Pieces.{EndsOnlyCounted, FailsOnlyCounted};
ghost use Rattle.tracker_core.specs.ConnectionPlan.{IsCompleteConnection};
ghost use Rattle.tracker_core.specs.ConnectionPlan.{connection_calls};
ghost use Rattle.tracker_core.specs.declared.connection_plan.ConnectionPlan.TheVariants.{More};
ghost use Rattle.tracker_model.specs.Calls.{IsWellFormed};
ghost use Rattle.serve.specs.Reading.{AddsPiece, ReadsPlan};

use access_list::AccessList;
use http_wire::Watch;
use ot_base::Endpoint;
use ot_io::{Conn, Piece};
use std::alloc::{AllocError, Global};
use tracker_core::connection_plan::HEAD_ROOM;
use tracker_core::{ConnectionPlan, plan_connection};

/// How many bytes are read at once at most.
const PIECE: usize = 1024;

/// Reads a connection until what came has a plan, and at most 8,192 bytes. It gives that plan, or
/// nothing where the outside failed. Where the connection ended before a head was whole, that is
/// the plan that awaits more.
pub fn read_plan<N: Conn>(
    alloc: Global,
    conn: &mut N,
    from: Endpoint,
    access: Option<&AccessList>,
    full: bool,
) -> Result<Option<ConnectionPlan>, AllocError>
    requires four { family_of from.addr ≡ Four }
    ensures read { IfOk result (ReadsPlan (option_copied access.entry) from full
        (N.left conn.old) (N.left conn.new)) }
    ensures formed { IfOk result (λ plan.
        IfSome plan (λ p. AllByRecursion IsWellFormed (connection_calls p))) }
    ensures complete { IfOk result (λ plan. IfSome plan IsCompleteConnection) }
    ensures cut { result ≡ Ok (Some More) → Rose (N.ends conn.old) (N.ends conn.new) }
    ensures all { result ≡ Ok (Some More) → IsAtEnd (N.left conn.new) }
    ensures fault { result ≡ Ok None →
        Rose (N.Source.faults conn.old) (N.Source.faults conn.new) }
    ensures counted { N.Source.faults conn.old ≤ N.Source.faults conn.new }
    ensures aside { N.Source.aside conn.new ≡ N.Source.aside conn.old }
{
    let mut read = Vec::with_capacity(alloc, HEAD_ROOM)?;
    let mut watch = Watch::new();
    while read.len() < HEAD_ROOM {
        let before = read.len();
        match read_piece(conn, HEAD_ROOM - before, &mut read)? {
            Piece::Got(_) => {
                if watch.take(&read[before..]) {
                    let plan = plan_connection(alloc, read.as_slice(), from, access, full)?;
                    if !awaits_more(&plan) {
                        return Ok(Some(plan));
                    }
                }
            }
            Piece::End => {
                let plan = plan_connection(alloc, read.as_slice(), from, access, full)?;
                return Ok(Some(plan));
            }
            Piece::Failed => return Ok(None),
        }
    }
    Ok(Some(plan_connection(alloc, read.as_slice(), from, access, full)?))
}

/// Reads a piece of at most so many bytes, and adds it to what was read before.
fn read_piece<N: Conn>(conn: &mut N, most: usize, read: &mut Vec<u8>) -> Result<Piece, AllocError>
    requires some { 0 < most }
    ensures counted { N.Source.faults conn.old ≤ N.Source.faults conn.new }
    ensures piece { IfOk result (λ piece. AddsPiece most (N.left conn.old) (N.left conn.new) piece
        read.old.items read.new.items) }
    ensures ends { IfOk result (EndsOnlyCounted (N.ends conn.old) (N.ends conn.new)) }
    ensures faults { IfOk result
        (FailsOnlyCounted (N.Source.faults conn.old) (N.Source.faults conn.new)) }
    ensures aside { N.Source.aside conn.new ≡ N.Source.aside conn.old }
{
    let mut room = [0; PIECE];
    let most = most.min(PIECE);
    let piece = conn.read(&mut room[..most]);
    if let Piece::Got(len) = piece {
        read.extend_from_slice(&room[..len])?;
    }
    Ok(piece)
}

/// Whether a plan awaits more bytes.
fn awaits_more(plan: &ConnectionPlan) -> bool
    ensures { IsTrue result ↔ (plan.now ≡ More) }
{
    matches!(plan, ConnectionPlan::More)
}
