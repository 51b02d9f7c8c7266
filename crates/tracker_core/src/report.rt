//! The call of a peer that announces or stops.

ghost use Rattle.std.specs.Prelude.{◌≡◌};
ghost use Rattle.tracker_model.specs.Calls.{IsReport};
ghost use Rattle.tracker_core.specs.Reports.{peers_wanted, report_call};

use ot_base::{Endpoint, Event, InfoHash};
use tracker_model::{Call, WANTED_PEERS};

/// How many peers a client is told that leaves their number to the tracker.
const USUAL_PEERS: u32 = 50;

/// The call of a peer by its event: a stop where it leaves, else an announce. `done` says whether
/// nothing of the torrent is left to it.
pub fn report_call(hash: InfoHash, who: Endpoint, event: Event, done: bool, want: u32) -> Call
    ensures value { result ≡ report_call event hash who done want }
    ensures report { IsReport result }
{
    let completed = match event {
        Event::Stopped => return Call::Stop { hash, who },
        Event::Completed => true,
        Event::Nothing | Event::Started => false,
    };
    Call::Announce {
        hash,
        who,
        seed: done || completed,
        completed,
        want,
    }
}

/// How many peers are wanted, where a client may say their number: at most 200, and 50 where it
/// says none.
pub fn peers_wanted(number: Option<u64>) -> u32
    ensures { result ≡ peers_wanted number }
{
    match number {
        Some(number) => number.min(u64::from(WANTED_PEERS)) as u32,
        None => USUAL_PEERS,
    }
}
