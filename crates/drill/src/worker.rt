//! A worker of one phase.

ghost use Rattle.std.specs.Prelude.{◌≡◌, ◌<◌, [], All, IfOk, map, length, true};
ghost use Rattle.drill.specs.Working.{AllWork, Works};

use crate::ask::ask;
use load_model::Request;
use ot_base::Minute;
use shards::{Pass, Shards};
use std::alloc::{AllocError, Global};
use std::sync::Wait;
use std::thread;
use std::thread::Threads;

/// A worker: its pass, its requests, and whether all that it has made took effect.
#[derive(Drop)]
pub struct Worker {
    pub pass: Pass,
    pub requests: Vec<Request>,
    pub took: bool,
}

impl Worker {
    /// A worker that has no requests yet.
    fn new(alloc: Global, pass: Pass) -> Worker
        ensures pass { result.pass ≡ pass }
        ensures requests { result.requests.items ≡ [] }
    {
        Worker {
            pass,
            requests: Vec::new(alloc),
            took: false,
        }
    }

    /// Makes its requests at a minute, with its pass.
    fn work<R: Wait>(&mut self, rt: &R, shards: &Shards, minute: Minute)
        requires { self.old.pass.shards ≡ shards.now }
        ensures { Works minute self.old self.new }
    {
        self.took = ask(rt, shards, &mut self.pass, minute, self.requests.as_slice());
    }
}

/// A worker for each pass, in order.
pub fn team_of(alloc: Global, passes: Vec<Pass>) -> Result<Vec<Worker>, AllocError>
    ensures passes { IfOk result (λ team. map (λ worker. worker.pass) team.items ≡ passes.items) }
    ensures empty { IfOk result (λ team. All (λ worker. worker.requests.items ≡ []) team.items) }
{
    let mut team = Vec::with_capacity(alloc, passes.len())?;
    for pass in passes {
        team.push(Worker::new(alloc, pass))?;
    }
    Ok(team)
}

/// All workers make their requests at once, each in a thread of its own where one can be made.
pub fn work_all<R: Threads + Wait + Sync>(
    rt: &R,
    shards: &Shards,
    team: &mut [Worker],
    minute: Minute,
)
    requires { All (λ worker. worker.pass.shards ≡ shards.now) team.old }
    ensures { AllWork minute team.old team.new }
{
    let threads = team.len().max(1);
    thread::for_each_mut(
        rt,
        team,
        threads,
        &|_, worker: &mut Worker|
            requires { worker.now.pass.shards ≡ shards.now }
            ensures { Works minute worker.entry.now worker.exit.now }
        { worker.work(rt, shards, minute) },
    );
}

/// Whether all requests of all workers took effect.
pub fn all_took(team: &[Worker]) -> bool
    ensures { result ≡ true → All (λ worker. worker.took ≡ true) team.now }
{
    team.iter().all(|worker| worker.took)
}
