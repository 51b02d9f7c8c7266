//! How the jobs of a server end.

ghost use Rattle.std.specs.Prelude.{◌≡◌, ◌≢◌, [], ◌∷◌, All, length, map, reverse};
ghost use Rattle.ot_io.specs.Lending.{AreOut, Lends};
ghost use Rattle.ot_io.specs.Tales.{listener_tale};
ghost use Rattle.ot_io.specs.Traffic.{wire_tale};
ghost use Rattle.server.specs.Teams.{IsWorker, listeners_of, pass_of, wires_of};
ghost use Rattle.shards.specs.Joining.{AreJoined};
ghost use Rattle.shards.specs.Shape.{KnowsNumbers};

use ot_io::{Clock, Listener, Outside, Wire};
use serve::Job;
use shards::{Pass, Shards};

/// Joins passes that made no call.
pub(crate) fn join_idle(shards: &Shards, pass: &mut Pass, mut idle: Vec<Pass>)
    requires pass { pass.old.shards ≡ shards.now }
    requires first { pass.old.caller ≡ 0 }
    requires known { KnowsNumbers pass.old }
    requires idle { All (λ other. (other.shards ≡ shards.now) × (other.caller ≢ 0)) idle.items }
    ensures joined { AreJoined idle.items pass.old pass.new }
    ensures known { KnowsNumbers pass.new }
{
    while let Some(other) = idle.pop() {
        join_one(shards, pass, other);
    }
}

/// Joins a pass to caller 0's.
fn join_one(shards: &Shards, pass: &mut Pass, other: Pass)
    requires pass { pass.old.shards ≡ shards.now }
    requires first { pass.old.caller ≡ 0 }
    requires other { other.shards ≡ shards.now }
    requires other_split { other.caller ≢ 0 }
    ensures joined { AreJoined (other ∷ []) pass.old pass.new }
    ensures known { KnowsNumbers pass.new }
{
    shards.join(pass, other);
}

/// Ends jobs, one after another: each one's pass is joined to caller 0's, and its wire or listener
/// is handed back to where it was made.
pub(crate) fn end_jobs<
    W: Wire + Drop,
    L: Listener + Drop,
    C: Clock + Drop,
    N: Outside<W = W, L = L, C = C>,
>(shards: &Shards, pass: &mut Pass, jobs: Vec<Job<W, L, C>>, outside: &mut N)
    requires pass { pass.old.shards ≡ shards.now }
    requires first { pass.old.caller ≡ 0 }
    requires known { KnowsNumbers pass.old }
    requires workers { All (IsWorker shards.now) jobs.items }
    requires wires_out { AreOut (N.wires_lent outside.old) (length (wires_of jobs.items)) }
    requires listeners_out { AreOut (N.listeners_lent outside.old)
        (length (listeners_of jobs.items)) }
    ensures joined { AreJoined (reverse (map pass_of jobs.items)) pass.old pass.new }
    ensures known { KnowsNumbers pass.new }
    ensures wires { Lends (N.wires_lent outside.old) (N.wires_lent outside.new) 0
        (map (λ wire. wire_tale (W.traffic wire) (W.faults wire) (W.idles wire))
        (wires_of jobs.items)) }
    ensures listeners { Lends (N.listeners_lent outside.old) (N.listeners_lent outside.new) 0
        (map (λ listener. listener_tale (L.links listener) (L.faults listener) (L.idles listener))
        (listeners_of jobs.items)) }
    ensures faults { N.faults outside.new ≡ N.faults outside.old }
{
    for job in jobs {
        end_job(shards, pass, job, outside);
    }
}

/// Ends a job.
#[tactic(auto, unfolding(crate::specs::Teams::IsWorker))]
fn end_job<W: Wire + Drop, L: Listener + Drop, C: Clock + Drop, N: Outside<W = W, L = L, C = C>>(
    shards: &Shards,
    pass: &mut Pass,
    job: Job<W, L, C>,
    outside: &mut N,
)
    requires pass { pass.old.shards ≡ shards.now }
    requires first { pass.old.caller ≡ 0 }
    requires worker { IsWorker shards.now job }
    requires wires_out { AreOut (N.wires_lent outside.old) (length (wires_of (job ∷ []))) }
    requires listeners_out { AreOut (N.listeners_lent outside.old)
        (length (listeners_of (job ∷ []))) }
    ensures joined { AreJoined (pass_of job ∷ []) pass.old pass.new }
    ensures known { KnowsNumbers pass.new }
    ensures wires { Lends (N.wires_lent outside.old) (N.wires_lent outside.new) 0
        (map (λ wire. wire_tale (W.traffic wire) (W.faults wire) (W.idles wire))
        (wires_of (job ∷ []))) }
    ensures listeners { Lends (N.listeners_lent outside.old) (N.listeners_lent outside.new) 0
        (map (λ listener. listener_tale (L.links listener) (L.faults listener) (L.idles listener))
        (listeners_of (job ∷ []))) }
    ensures faults { N.faults outside.new ≡ N.faults outside.old }
{
    match job {
        Job::Udp {
            pass: other,
            wire,
            clock: _clock,
            scratch: _scratch,
        } => {
            join_one(shards, pass, other);
            outside.wire_back(wire);
        }
        Job::Http {
            pass: other,
            listener,
            clock: _clock,
            scratch: _scratch,
        } => {
            join_one(shards, pass, other);
            outside.listener_back(listener);
        }
        Job::Cleaner {
            pass: other,
            clock: _clock,
        } => join_one(shards, pass, other),
        Job::Sender {
            pass: other,
            wire: sync_wire,
            clock: _clock,
        }
        | Job::Receiver {
            pass: other,
            wire: sync_wire,
            clock: _clock,
        } => {
            join_one(shards, pass, other);
            outside.wire_back(sync_wire);
        }
    }
}
