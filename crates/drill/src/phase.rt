//! One phase.

ghost use Rattle.std.specs.Prelude.{◌≡◌, ◌≢◌, ◌+◌, ◌≤◌, ◌<◌, All, IfOk, OnOk, map};
ghost use Rattle.shards.specs.Shape.{KnowsNumbers};
ghost use Rattle.load_model.specs.Load.{CanDrill};
ghost use Rattle.load_model.specs.Text.{totals_after};
ghost use Rattle.shards.specs.Joining.{AreJoined};
ghost use Rattle.drill.specs.Joining.{HaveWorked};
ghost use Rattle.drill.specs.Phases.{HaveMade, IsAfter, IsAlone};

use crate::deal::deal;
use crate::scan::scan_all;
use crate::worker::{Worker, all_took, team_of, work_all};
use load_model::{DrillSettings, Load, Totals};
use ot_base::Minute;
use shards::{Pass, Shards};
use std::alloc::{AllocError, Global};
use std::sync::Wait;
use std::thread::Threads;

/// How many minutes a phase is behind the one before.
const PHASE_MINUTES: u32 = 15;

/// Runs a phase: all workers make its requests at once, and then each bucket is scanned. There may
/// be no memory.
pub fn run_phase<R: Threads + Wait + Sync>(
    rt: &R,
    alloc: Global,
    settings: &DrillSettings,
    shards: &Shards,
    pass: &mut Pass,
    load: &mut Load,
    phase: u32,
) -> Result<Totals, AllocError>
    requires can { CanDrill settings.now }
    requires pass { pass.old.shards ≡ shards.now }
    requires few { phase < 8 }
    requires before { IsAfter settings.now phase load.old pass.old }
    ensures after { OnOk result (IsAfter settings.now (phase + 1) load.new pass.new) }
    ensures totals { IfOk result (λ totals. totals ≡ totals_after settings.now phase) }
    ensures pass { OnOk result (pass.new.shards ≡ pass.old.shards) }
{
    let minute = Minute(PHASE_MINUTES * phase);
    work_together(
        rt,
        alloc,
        settings.workers,
        shards,
        pass,
        load,
        phase,
        minute,
    )?;
    scan_all(rt, shards, pass, settings.bits, minute)
}

/// The workers make all requests of a phase at once, each with a pass of its own, which is split
/// before and joined after.
fn work_together<R: Threads + Wait + Sync>(
    rt: &R,
    alloc: Global,
    workers: u32,
    shards: &Shards,
    pass: &mut Pass,
    load: &mut Load,
    phase: u32,
    minute: Minute,
) -> Result<(), AllocError>
    requires pass { pass.old.shards ≡ shards.now }
    requires some { 1 ≤ workers }
    requires alone { IsAlone pass.old }
    requires spare { pass.old.free + workers ≤ shards.now.callers }
    ensures { OnOk result (HaveMade phase minute workers load.old load.new pass.old pass.new) }
{
    let passes = shards.split(alloc, pass, workers)?;
    let mut team = team_of(alloc, passes)?;
    deal(load, phase, &mut team)?;
    let took = work_and_join(rt, shards, pass, team, minute);
    if !took {
        return Err(AllocError);
    }
    Ok(())
}

/// The workers make their requests at once, and their passes are joined. Answers whether all
/// requests took effect.
fn work_and_join<R: Threads + Wait + Sync>(
    rt: &R,
    shards: &Shards,
    pass: &mut Pass,
    mut team: Vec<Worker>,
    minute: Minute,
) -> bool
    requires pass { pass.old.shards ≡ shards.now }
    requires first { pass.old.caller ≡ 0 }
    requires known { KnowsNumbers pass.old }
    requires passes { All (λ worker. (worker.pass.shards ≡ shards.now) × (worker.pass.caller ≢ 0))
        team.items }
    ensures done { HaveWorked minute team.items result pass.old pass.new }
    ensures known { KnowsNumbers pass.new }
{
    work_all(rt, shards, team.as_mut_slice(), minute);
    let took = all_took(team.as_slice());
    join_all(shards, pass, team);
    took
}

/// Joins the passes of all workers.
fn join_all(shards: &Shards, pass: &mut Pass, mut team: Vec<Worker>)
    requires pass { pass.old.shards ≡ shards.now }
    requires first { pass.old.caller ≡ 0 }
    requires known { KnowsNumbers pass.old }
    requires passes { All (λ worker. (worker.pass.shards ≡ shards.now) × (worker.pass.caller ≢ 0))
        team.items }
    ensures joined { AreJoined (map (λ worker. worker.pass) team.items) pass.old pass.new }
    ensures known { KnowsNumbers pass.new }
{
    while let Some(worker) = team.pop() {
        let Worker { pass: other, .. } = worker;
        shards.join(pass, other);
    }
}
