//! The plan of a datagram (BEP 15).

ghost use Rattle.std.specs.Prelude.{◌≡◌, option_copied};
ghost use Rattle.std.specs.List.{AllByRecursion};
ghost use Rattle.ot_base.specs.Address.{family_of};
ghost use Rattle.ot_base.specs.declared.address.Family.TheVariants.{Four};
ghost use Rattle.udp_wire.specs.Packets.{request_of};
ghost use Rattle.tracker_model.specs.Calls.{IsWellFormed};
ghost use Rattle.tracker_model.specs.Calls.{IsReport};
ghost use Rattle.tracker_core.specs.UdpPlan.{IsComplete, announce_call, announce_plan, calls_of};
ghost use Rattle.tracker_core.specs.UdpPlan.{udp_plan, wanted_peers};

use crate::report::{peers_wanted, report_call};
use access_list::{AccessList, admits_hash};
use conn_id::{check, mint};
use ot_base::{Endpoint, Minute, Refusal, Secret};
use tracker_model::Call;
use udp_wire::{Quiet, Request, ScrapeHashes, UdpAnnounce, read_request};

/// What is to be done for a datagram.
#[derive(Debug, Drop)]
pub enum UdpPlan<'a> {
    /// It is no request, and is left without a reply.
    Silent(Quiet),
    /// The client is told its connection id.
    Connected {
        transaction: u32,
        connection: u64,
    },
    /// The client is told why it is refused.
    Refused {
        transaction: u32,
        why: Refusal,
    },
    /// The call is made, an announce or a stop, and the client is told its answer.
    Announce {
        transaction: u32,
        call: Call,
    },
    /// Each of the torrents is scraped, in order, and the client is told the counts.
    Scrape {
        transaction: u32,
        hashes: ScrapeHashes<'a>,
    },
}

/// The plan for a datagram of any bytes that came from an endpoint in a minute. It takes no memory.
///
/// What is wrong is judged in this order: no request at all, the action, the connection id; and of
/// an announce or a stop the port, then whether the access list admits the torrent, if there is a
/// list.
pub fn plan_udp<'a>(
    bytes: &'a [u8],
    from: Endpoint,
    minute: Minute,
    secret: &Secret,
    access: Option<&AccessList>,
) -> UdpPlan<'a>
    requires { family_of from.addr ≡ Four }
    ensures planned { result ≡
        udp_plan secret.now (option_copied access.entry) from minute (request_of bytes.now) }
    ensures formed { AllByRecursion IsWellFormed (calls_of result) }
    ensures complete { IsComplete result }
{
    match read_request(bytes) {
        Request::Silent(quiet) => UdpPlan::Silent(quiet),
        Request::Connect { transaction } => UdpPlan::Connected {
            transaction,
            connection: mint(secret, from.addr, minute),
        },
        Request::Unknown {
            transaction,
            action: _action,
        } => UdpPlan::Refused {
            transaction,
            why: Refusal::Action,
        },
        Request::Announce(announce) => plan_announce(&announce, from, minute, secret, access),
        Request::Scrape {
            connection,
            transaction,
            hashes,
        } => {
            if check(secret, from.addr, minute, connection) {
                UdpPlan::Scrape {
                    transaction,
                    hashes,
                }
            } else {
                UdpPlan::Refused {
                    transaction,
                    why: Refusal::ConnectionId,
                }
            }
        }
    }
}

fn plan_announce<'a>(
    announce: &UdpAnnounce,
    from: Endpoint,
    minute: Minute,
    secret: &Secret,
    access: Option<&AccessList>,
) -> UdpPlan<'a>
    requires { family_of from.addr ≡ Four }
    ensures planned { result ≡
        announce_plan secret.now (option_copied access.entry) from minute announce.now }
    ensures formed { AllByRecursion IsWellFormed (calls_of result) }
    ensures complete { IsComplete result }
{
    let transaction = announce.transaction;
    if !check(secret, from.addr, minute, announce.connection) {
        return UdpPlan::Refused {
            transaction,
            why: Refusal::ConnectionId,
        };
    }
    if announce.port == 0 {
        return UdpPlan::Refused {
            transaction,
            why: Refusal::BadPort,
        };
    }
    if !admits_hash(access, &announce.hash) {
        return UdpPlan::Refused {
            transaction,
            why: Refusal::Denied,
        };
    }
    UdpPlan::Announce {
        transaction,
        call: call_of(from, announce),
    }
}

/// The call of an announce from an endpoint: a stop where its event says so.
fn call_of(from: Endpoint, announce: &UdpAnnounce) -> Call
    ensures value { result ≡ announce_call from announce.now }
    ensures report { IsReport result }
{
    let who = Endpoint {
        addr: from.addr,
        port: announce.port,
    };
    let done = announce.left == 0;
    report_call(
        announce.hash,
        who,
        announce.event,
        done,
        want_of(announce.want),
    )
}

/// How many peers are wanted, where an announce says this number.
fn want_of(number: i32) -> u32
    ensures { result ≡ wanted_peers number }
{
    peers_wanted(u64::try_from(number).ok())
}
