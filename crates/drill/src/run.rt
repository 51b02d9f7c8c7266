//! A whole drill.

ghost use Rattle.std.specs.Prelude.{◌≡◌, ◌+◌, ◌*◌, ◌^◌, ◌≤◌, ◌<◌, IfOk, List, ℕ};
ghost use Rattle.lines.specs.Streams.{IsLaterSink};
ghost use Rattle.ot_io.specs.Message.{TellsLine, status_text};
ghost use Rattle.load_model.specs.Load.{CanDrill, requests};
ghost use Rattle.load_model.specs.Text.{calls_line, load_text, phase_line, phase_lines, totals_after};
ghost use Rattle.load_model.specs.declared.request.Request.{Request};
ghost use Rattle.drill.specs.Phases.{IsAfter};
ghost use Rattle.drill.specs.Run.{Writes};

use crate::phase::run_phase;
use load_model::{DrillSettings, Load, PHASES, line_of_calls, line_of_phase};
use ot_base::Limits;
use ot_io::{Sink, Status, Wrote, report, send_all};
use shards::{Pass, Shards};
use std::alloc::{AllocError, Global};
use std::sync::Wait;
use std::thread::Threads;

/// More than any torrent gets peers, and any bucket torrents.
const LIMITS: Limits = Limits {
    peers: 1_000_000,
    torrents: 1_000_000,
};

/// Runs a drill, and tells on `err` how it ended. What is written is the load's text, whatever the
/// number of workers. Where there is no memory, or a write fails, it is a front of that text.
pub fn run_drill<R: Threads + Wait + Sync, O: Sink, E: Sink>(
    rt: &R,
    alloc: Global,
    settings: &DrillSettings,
    out: &mut O,
    err: &mut E,
) -> Status
    requires { CanDrill settings.now }
    ensures written { Writes (O.written out.old) (O.written out.new)
        (O.faults out.old) (O.faults out.new) (load_text settings.now) result }
    ensures told { TellsLine (E.written err.old) (E.written err.new)
        (E.faults err.old) (E.faults err.new) (status_text result) }
    ensures out { IsLaterSink O.faults O.aside out.old out.new }
    ensures err { IsLaterSink E.faults E.aside err.old err.new }
{
    let status = open_and_run(rt, alloc, settings, out);
    report(status, err);
    status
}

/// Runs a drill.
fn open_and_run<R: Threads + Wait + Sync, O: Sink>(
    rt: &R,
    alloc: Global,
    settings: &DrillSettings,
    out: &mut O,
) -> Status
    requires { CanDrill settings.now }
    ensures written { Writes (O.written out.old) (O.written out.new)
        (O.faults out.old) (O.faults out.new) (load_text settings.now) result }
    ensures later { IsLaterSink O.faults O.aside out.old out.new }
{
    match open(alloc, settings) {
        Ok((shards, pass)) => run(rt, alloc, settings, shards, pass, out),
        Err(AllocError) => Status::NoMemory,
    }
}

/// The shards of a drill, and caller 0's pass, before the first phase.
fn open(alloc: Global, settings: &DrillSettings) -> Result<(Shards, Pass), AllocError>
    requires { CanDrill settings.now }
    ensures pass { IfOk result (λ r. r.1.shards ≡ r.0) }
    ensures before { IfOk result (λ r. IsAfter settings.now 0 (requests settings.now) r.1) }
{
    let callers = PHASES * settings.workers + 1;
    Shards::new(alloc, settings.bits, LIMITS, false, callers)
}

/// Runs all phases and closes the shards.
fn run<R: Threads + Wait + Sync, O: Sink>(
    rt: &R,
    alloc: Global,
    settings: &DrillSettings,
    shards: Shards,
    mut pass: Pass,
    out: &mut O,
) -> Status
    requires can { CanDrill settings.now }
    requires pass { pass.shards ≡ shards }
    requires before { IsAfter settings.now 0 (requests settings.now) pass }
    ensures written { Writes (O.written out.old) (O.written out.new)
        (O.faults out.old) (O.faults out.new) (load_text settings.now) result }
    ensures later { IsLaterSink O.faults O.aside out.old out.new }
{
    let status = run_phases(rt, alloc, settings, &shards, &mut pass, out);
    if status != Status::Done {
        return status;
    }
    finish(rt, settings, shards, pass, out)
}

/// Runs all phases, and writes the line of each.
fn run_phases<R: Threads + Wait + Sync, O: Sink>(
    rt: &R,
    alloc: Global,
    settings: &DrillSettings,
    shards: &Shards,
    pass: &mut Pass,
    out: &mut O,
) -> Status
    requires can { CanDrill settings.now }
    requires pass { pass.old.shards ≡ shards.now }
    requires before { IsAfter settings.now 0 (requests settings.now) pass.old }
    ensures written { Writes (O.written out.old) (O.written out.new)
        (O.faults out.old) (O.faults out.new) (phase_lines settings.now 8) result }
    ensures after { result ≡ Status.Done →
        (left : List (ℕ × Request)) × IsAfter settings.now 8 left pass.new }
    ensures pass { result ≡ Status.Done → pass.new.shards ≡ shards.now }
    ensures later { IsLaterSink O.faults O.aside out.old out.new }
{
    let mut load = Load::new(settings);
    for phase in 0..PHASES {
        let status = tell_phase(rt, alloc, settings, shards, pass, &mut load, phase, out);
        if status != Status::Done {
            return status;
        }
    }
    Status::Done
}

/// Runs a phase, and writes its line.
fn tell_phase<R: Threads + Wait + Sync, O: Sink>(
    rt: &R,
    alloc: Global,
    settings: &DrillSettings,
    shards: &Shards,
    pass: &mut Pass,
    load: &mut Load,
    phase: u32,
    out: &mut O,
) -> Status
    requires can { CanDrill settings.now }
    requires pass { pass.old.shards ≡ shards.now }
    requires few { phase < 8 }
    requires before { IsAfter settings.now phase load.old pass.old }
    ensures written { Writes (O.written out.old) (O.written out.new)
        (O.faults out.old) (O.faults out.new)
        (phase_line phase (totals_after settings.now phase)) result }
    ensures after { result ≡ Status.Done → IsAfter settings.now (phase + 1) load.new pass.new }
    ensures pass { result ≡ Status.Done → pass.new.shards ≡ shards.now }
    ensures later { IsLaterSink O.faults O.aside out.old out.new }
{
    match run_phase(rt, alloc, settings, shards, pass, load, phase) {
        Ok(totals) => write(out, line_of_phase(phase, &totals).as_str()),
        Err(AllocError) => Status::NoMemory,
    }
}

/// Closes the shards after the last phase, and writes the line of all calls.
fn finish<R: Wait, O: Sink>(
    rt: &R,
    settings: &DrillSettings,
    shards: Shards,
    pass: Pass,
    out: &mut O,
) -> Status
    requires pass { pass.shards ≡ shards }
    requires after { (left : List (ℕ × Request)) × IsAfter settings.now 8 left pass }
    ensures written { Writes (O.written out.old) (O.written out.new)
        (O.faults out.old) (O.faults out.new)
        (calls_line (settings.now.count + 8 * 2 ^ settings.now.bits)) result }
    ensures later { IsLaterSink O.faults O.aside out.old out.new }
{
    match shards.close(rt, pass) {
        Ok(closed) => write(out, line_of_calls(closed.calls).as_str()),
        Err(_) => unreachable!(),
    }
}

/// Writes a line.
fn write<O: Sink>(out: &mut O, line: &str) -> Status
    ensures written { Writes (O.written out.old) (O.written out.new)
        (O.faults out.old) (O.faults out.new) line.now result }
    ensures later { IsLaterSink O.faults O.aside out.old out.new }
{
    match send_all(out, line.as_bytes()) {
        Wrote::Took(_) => Status::Done,
        Wrote::Failed => Status::WriteFault,
    }
}
