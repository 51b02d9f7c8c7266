//! How requests are made through a pass.

ghost use Rattle.std.specs.Prelude.{◌≡◌, ◌∷◌, [], List, true};
ghost use Rattle.tracker_model.specs.Entries.{took_effect};
ghost use Rattle.drill.specs.Asking.{Asks};

use load_model::Request;
use ot_base::Minute;
use shards::{Pass, Shards};
use std::sync::Wait;
use tracker_model::Answer;

/// Makes requests at a minute, in order, and tells whether all of them took effect. Those behind
/// the first that took none aren't made. Only want of memory can be the cause: a load has too few
/// peers and torrents for a full swarm or bucket.
pub fn ask<R: Wait>(
    rt: &R,
    shards: &Shards,
    pass: &mut Pass,
    minute: Minute,
    requests: &[Request],
) -> bool
    requires { pass.old.shards ≡ shards.now }
    ensures pass { pass.new ≡ record pass.old { seen = pass.new.seen } }
    ensures asked { result ≡ true → Asks minute requests.now pass.old pass.new }
{
    for request in requests {
        if !ask_one(rt, shards, pass, minute, *request) {
            return false;
        }
    }
    true
}

/// Makes one request, and tells whether it took effect.
fn ask_one<R: Wait>(
    rt: &R,
    shards: &Shards,
    pass: &mut Pass,
    minute: Minute,
    request: Request,
) -> bool
    requires { pass.old.shards ≡ shards.now }
    ensures pass { pass.new ≡ record pass.old { seen = pass.new.seen } }
    ensures asked { result ≡ true → Asks minute (request ∷ []) pass.old pass.new }
{
    let done = shards.call(rt, pass, minute, request.call(), &request.words());
    has_effect(&done.answer)
}

/// Whether a call with this answer took effect.
fn has_effect(answer: &Answer) -> bool
    ensures { result ≡ took_effect answer.now }
{
    match answer {
        Answer::Told { .. }
        | Answer::Stats { .. }
        | Answer::Rows { .. }
        | Answer::Cleaned { .. }
        | Answer::Applied
        | Answer::Drained { .. } => true,
        Answer::SwarmFull { .. } | Answer::BucketFull { .. } | Answer::NoMemory => false,
    }
}
