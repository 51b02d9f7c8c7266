//! The plan for what a connection has sent.

ghost use Rattle.std.specs.Prelude.{◌≡◌, false, IfOk, option_copied};
ghost use Rattle.std.specs.List.{AllByRecursion};
ghost use Rattle.ot_base.specs.Address.{family_of};
ghost use Rattle.ot_base.specs.declared.address.Family.TheVariants.{Four};
ghost use Rattle.tracker_model.specs.Calls.{IsWellFormed};
ghost use Rattle.tracker_core.specs.ConnectionPlan.{IsBoundedConnection, IsCompleteConnection};
ghost use Rattle.tracker_core.specs.ConnectionPlan.{IsConnectionPlan, connection_calls, head_front};

use crate::http_plan::{HttpPlan, plan_http};
use access_list::AccessList;
use http_wire::{Code, Head, find_head};
use ot_base::Endpoint;
use std::alloc::{AllocError, Global};

/// How many bytes the head of a request has at most.
pub const HEAD_ROOM: usize = 8192;

/// What is to be done for what a connection has sent so far.
#[derive(Debug, Drop)]
pub enum ConnectionPlan {
    /// No head is whole yet: more bytes are awaited, and where none come the connection is left
    /// without a reply.
    More,
    /// The reply has this code, 400 or 431, and no body.
    Rejected(Code),
    /// The request is taken up.
    Planned(HttpPlan),
}

/// The plan for the bytes that a connection from an endpoint of IPv4 has sent so far. Of them the
/// first 8,192 count, and those after the head of its one request don't.
///
/// A head of another method than `GET`, and a first line that is no request's, are rejected with
/// 400; 8,192 bytes without a whole head, and a head of more lines than 64 fields have, with 431.
/// Where `full` is off, all torrents are never asked for. It takes memory only as `plan_http` does.
pub fn plan_connection(
    alloc: Global,
    bytes: &[u8],
    from: Endpoint,
    access: Option<&AccessList>,
    full: bool,
) -> Result<ConnectionPlan, AllocError>
    requires { family_of from.addr ≡ Four }
    ensures planned { IfOk result
        (λ plan. IsConnectionPlan bytes.now (option_copied access.entry) from full plan) }
    ensures formed { IfOk result (λ plan. AllByRecursion IsWellFormed (connection_calls plan)) }
    ensures complete { IfOk result IsCompleteConnection }
    ensures bounded { full ≡ false → IfOk result IsBoundedConnection }
{
    let front = head_front(bytes);
    match find_head(front) {
        Head::Whole {
            get,
            from: start,
            to,
            ..
        } => {
            if get {
                let plan = plan_http(alloc, &front[start..to], from, access, full)?;
                Ok(ConnectionPlan::Planned(plan))
            } else {
                Ok(ConnectionPlan::Rejected(Code::BadRequest))
            }
        }
        Head::Bad => Ok(ConnectionPlan::Rejected(Code::BadRequest)),
        Head::Many => Ok(ConnectionPlan::Rejected(Code::TooLarge)),
        Head::More => {
            if front.len() >= HEAD_ROOM {
                Ok(ConnectionPlan::Rejected(Code::TooLarge))
            } else {
                Ok(ConnectionPlan::More)
            }
        }
    }
}

/// The bytes in which a head has to stand.
fn head_front(bytes: &[u8]) -> &[u8]
    ensures { result.now ≡ head_front bytes.now }
{
    if bytes.len() > HEAD_ROOM {
        &bytes[..HEAD_ROOM]
    } else {
        bytes
    }
}
