//! A server, from its start to its end.

ghost use Rattle.std.specs.Prelude.{◌≡◌, ◌≢◌, ◌+◌, ◌≤◌, ◌^◌, All, IfErr, IfOk, List, false, length};
ghost use Rattle.std.specs.Prelude.{option_copied, vec_len};
ghost use Rattle.std.specs.Io.KnownBytes.{IsAtEnd};
ghost use Rattle.std.specs.List.{sum_by};
ghost use Rattle.bucket.specs.Shelf.{AllStand};
ghost use Rattle.lines.specs.Streams.{IsLaterSink, IsLaterSource};
ghost use Rattle.ot_io.specs.Counts.{Rose};
ghost use Rattle.ot_io.specs.Lending.{AreOut};
ghost use Rattle.ot_io.specs.Message.{TellsLine, status_text};
ghost use Rattle.ot_io.specs.Tales.{IsNewListener, listener_tale};
ghost use Rattle.ot_io.specs.Traffic.{IsNewWire, wire_tale};
ghost use Rattle.serve.specs.Jobs.{IsReady, Ran};
ghost use Rattle.server.specs.Access.{IsListCaused};
ghost use Rattle.server.specs.Devices.{AreDevices, IsShut, TakesBack};
ghost use Rattle.server.specs.Input.{IsInputCaused};
ghost use Rattle.server.specs.Opening.{IsOpened};
ghost use Rattle.server.specs.Run.{BeginsWith, CanServe, Concludes, HasConcluded, IsServeCaused};
ghost use Rattle.server.specs.Run.{RunsServer, ServesTo, TellsList, ended_as};
ghost use Rattle.server.specs.Teams.{HaveRun, IsWorker, listeners_of, wires_of};
ghost use Rattle.shards.specs.Shape.{KnowsNumbers};
ghost use Rattle.tracker_model.specs.Legal.{IsLegalHistory};
ghost use Rattle.tracker_model.specs.declared.entry.Entry.{Entry};

use crate::access::read_list;
use crate::closing::{end_jobs, join_idle};
use crate::devices::{Devices, open_devices, return_devices};
use crate::input::InputEnd;
use crate::opening::{Opened, new_jobs, open_shards};
use crate::summary::{line_of_summary, sum_up};
use crate::team::work;
use access_list::AccessList;
use ot_base::Mode;
use ot_io::{
    Clock, Conn, Listener, Outside, ServeSettings, Sink, Source, Status, Wire, Wrote, report,
    send_all,
};
use serve::Job;
use shards::{Closed, Pass, Shards};
use std::alloc::{AllocError, Global};
use std::sync::Wait;
use std::sync::atomic::AtomicBool;
use std::thread::Threads;

/// Runs a server, and tells on `err` how it ended. It begins with the access list, where there is
/// to be one, which it reads from the input; then it serves datagrams and connections until the
/// input ends, cleans its buckets meanwhile, and where there are other nodes tells them what it
/// learns and learns what they tell. At last it writes the summary: the totals of all torrents, and
/// how many calls were made. All that was made of the outside is handed back.
pub fn run_serve<
    W: Wire + Send + Drop,
    K: Conn + Send + Drop,
    L: Listener<Link = K> + Send + Drop,
    C: Clock + Send + Drop,
    R: Threads + Wait + Sync,
    S: Source + Send,
    O: Sink,
    E: Sink,
    N: Outside<W = W, L = L, C = C>,
>(
    rt: &R,
    alloc: Global,
    settings: &ServeSettings,
    input: &mut S,
    out: &mut O,
    err: &mut E,
    outside: &mut N,
) -> Status
    requires can { CanServe settings.now }
    ensures caused { IsServeCaused (S.ends input.old) (S.ends input.new)
        (S.faults input.old) (S.faults input.new) (O.faults out.old) (O.faults out.new)
        (N.faults outside.old) (N.faults outside.new) result }
    ensures served { RunsServer settings.now
        (S.ends input.old) (S.ends input.new) (S.left input.old)
        (N.wires_lent outside.old) (N.wires_lent outside.new)
        (N.listeners_lent outside.old) (N.listeners_lent outside.new)
        (O.written out.old) (O.written out.new) result }
    ensures listed { TellsList
        (Rose (S.ends input.old) (S.ends input.new) × IsAtEnd (S.left input.new))
        settings.now.replay.access (S.left input.old) (S.left input.new) result }
    ensures wires { IsShut (N.wires_lent outside.old) (N.wires_lent outside.new) }
    ensures listeners { IsShut (N.listeners_lent outside.old) (N.listeners_lent outside.new) }
    ensures told { TellsLine (E.written err.old) (E.written err.new)
        (E.faults err.old) (E.faults err.new) (status_text result) }
    ensures input { IsLaterSource S.faults S.ends S.aside input.old input.new }
    ensures out { IsLaterSink O.faults O.aside out.old out.new }
    ensures err { IsLaterSink E.faults E.aside err.old err.new }
{
    let status = serve(rt, alloc, settings, input, out, outside);
    report(status, err);
    status
}

/// The access list that the input begins with, where there is to be one.
fn read_access<S: Source>(
    alloc: Global,
    mode: Option<Mode>,
    input: &mut S,
) -> Result<Option<AccessList>, Status>
    ensures caused { IfErr result (IsListCaused (S.faults input.old) (S.faults input.new)) }
    ensures listed { IfErr result (TellsList
        (Rose (S.ends input.old) (S.ends input.new) × IsAtEnd (S.left input.new))
        mode (S.left input.old) (S.left input.new)) }
    ensures begins { IfOk result (λ access. BeginsWith (S.ends input.old) (S.ends input.new) mode
        (S.left input.old) access) }
    ensures input { IsLaterSource S.faults S.ends S.aside input.old input.new }
{
    match mode {
        Some(mode) => Ok(Some(read_list(alloc, mode, input)?)),
        None => Ok(None),
    }
}

/// Serves from the access list to the summary.
fn serve<
    W: Wire + Send + Drop,
    K: Conn + Send + Drop,
    L: Listener<Link = K> + Send + Drop,
    C: Clock + Send + Drop,
    R: Threads + Wait + Sync,
    S: Source + Send,
    O: Sink,
    N: Outside<W = W, L = L, C = C>,
>(
    rt: &R,
    alloc: Global,
    settings: &ServeSettings,
    input: &mut S,
    out: &mut O,
    outside: &mut N,
) -> Status
    requires can { CanServe settings.now }
    ensures caused { IsServeCaused (S.ends input.old) (S.ends input.new)
        (S.faults input.old) (S.faults input.new) (O.faults out.old) (O.faults out.new)
        (N.faults outside.old) (N.faults outside.new) result }
    ensures served { RunsServer settings.now
        (S.ends input.old) (S.ends input.new) (S.left input.old)
        (N.wires_lent outside.old) (N.wires_lent outside.new)
        (N.listeners_lent outside.old) (N.listeners_lent outside.new)
        (O.written out.old) (O.written out.new) result }
    ensures listed { TellsList
        (Rose (S.ends input.old) (S.ends input.new) × IsAtEnd (S.left input.new))
        settings.now.replay.access (S.left input.old) (S.left input.new) result }
    ensures wires { IsShut (N.wires_lent outside.old) (N.wires_lent outside.new) }
    ensures listeners { IsShut (N.listeners_lent outside.old) (N.listeners_lent outside.new) }
    ensures input { IsLaterSource S.faults S.ends S.aside input.old input.new }
    ensures out { IsLaterSink O.faults O.aside out.old out.new }
{
    let access = match read_access(alloc, settings.replay.access, input) {
        Ok(access) => access,
        Err(status) => return status,
    };
    match open_devices(alloc, settings, outside) {
        Ok(devices) => serve_on(
            rt,
            alloc,
            settings,
            access.as_ref(),
            devices,
            input,
            out,
            outside,
        ),
        Err(status) => status,
    }
}

/// Serves on these devices, and hands them back.
fn serve_on<
    W: Wire + Send + Drop,
    K: Conn + Send + Drop,
    L: Listener<Link = K> + Send + Drop,
    C: Clock + Send + Drop,
    R: Threads + Wait + Sync,
    S: Source + Send,
    O: Sink,
    N: Outside<W = W, L = L, C = C>,
>(
    rt: &R,
    alloc: Global,
    settings: &ServeSettings,
    access: Option<&AccessList>,
    devices: Devices<W, L, C>,
    input: &mut S,
    out: &mut O,
    outside: &mut N,
) -> Status
    requires can { CanServe settings.now }
    requires devices { AreDevices
        (λ wire. IsNewWire (W.traffic wire) (W.faults wire) (W.idles wire))
        (λ listener. IsNewListener (L.links listener) (L.faults listener) (L.idles listener))
        settings.now devices }
    requires wires_out { AreOut (N.wires_lent outside.old)
        (vec_len devices.wires + vec_len devices.sync_wires) }
    requires listeners_out { AreOut (N.listeners_lent outside.old) (vec_len devices.listeners) }
    ensures caused { IsServeCaused (S.ends input.old) (S.ends input.new)
        (S.faults input.old) (S.faults input.new) (O.faults out.old) (O.faults out.new)
        (N.faults outside.old) (N.faults outside.new) result }
    ensures served { ServesTo settings.now (option_copied access.entry) 0 0
        (N.wires_lent outside.old) (N.wires_lent outside.new)
        (N.listeners_lent outside.old) (N.listeners_lent outside.new)
        (O.written out.old) (O.written out.new) result }
    ensures wires { TakesBack (vec_len devices.wires + vec_len devices.sync_wires)
        (N.wires_lent outside.old) (N.wires_lent outside.new) }
    ensures listeners { TakesBack (vec_len devices.listeners)
        (N.listeners_lent outside.old) (N.listeners_lent outside.new) }
    ensures faults { N.faults outside.new ≡ N.faults outside.old }
    ensures input { IsLaterSource S.faults S.ends S.aside input.old input.new }
    ensures out { IsLaterSink O.faults O.aside out.old out.new }
{
    match open_shards(alloc, settings, devices.clocks.len() as u32) {
        Ok(opened) => serve_opened(
            rt, alloc, settings, access, devices, opened, input, out, outside,
        ),
        Err(AllocError) => {
            return_devices(outside, devices);
            Status::NoMemory
        }
    }
}

/// Serves by shards that were opened for these devices.
fn serve_opened<
    W: Wire + Send + Drop,
    K: Conn + Send + Drop,
    L: Listener<Link = K> + Send + Drop,
    C: Clock + Send + Drop,
    R: Threads + Wait + Sync,
    S: Source + Send,
    O: Sink,
    N: Outside<W = W, L = L, C = C>,
>(
    rt: &R,
    alloc: Global,
    settings: &ServeSettings,
    access: Option<&AccessList>,
    devices: Devices<W, L, C>,
    opened: Opened<W, L, C>,
    input: &mut S,
    out: &mut O,
    outside: &mut N,
) -> Status
    requires opened { IsOpened settings.now (vec_len devices.clocks) opened }
    requires devices { AreDevices
        (λ wire. IsNewWire (W.traffic wire) (W.faults wire) (W.idles wire))
        (λ listener. IsNewListener (L.links listener) (L.faults listener) (L.idles listener))
        settings.now devices }
    requires wires_out { AreOut (N.wires_lent outside.old)
        (vec_len devices.wires + vec_len devices.sync_wires) }
    requires listeners_out { AreOut (N.listeners_lent outside.old) (vec_len devices.listeners) }
    ensures caused { IsServeCaused (S.ends input.old) (S.ends input.new)
        (S.faults input.old) (S.faults input.new) (O.faults out.old) (O.faults out.new)
        (N.faults outside.old) (N.faults outside.new) result }
    ensures served { ServesTo settings.now (option_copied access.entry) 0 0
        (N.wires_lent outside.old) (N.wires_lent outside.new)
        (N.listeners_lent outside.old) (N.listeners_lent outside.new)
        (O.written out.old) (O.written out.new) result }
    ensures wires { TakesBack (vec_len devices.wires + vec_len devices.sync_wires)
        (N.wires_lent outside.old) (N.wires_lent outside.new) }
    ensures listeners { TakesBack (vec_len devices.listeners)
        (N.listeners_lent outside.old) (N.listeners_lent outside.new) }
    ensures faults { N.faults outside.new ≡ N.faults outside.old }
    ensures input { IsLaterSource S.faults S.ends S.aside input.old input.new }
    ensures out { IsLaterSink O.faults O.aside out.old out.new }
{
    let Opened {
        shards,
        pass,
        idle,
        passes,
        room,
    } = opened;
    let jobs = new_jobs(room, settings.replay.seed, devices, passes);
    run_jobs(
        rt, alloc, settings, access, shards, pass, idle, jobs, input, out, outside,
    )
}

/// Runs all jobs to their end, and writes the summary.
fn run_jobs<
    W: Wire + Send + Drop,
    K: Conn + Send + Drop,
    L: Listener<Link = K> + Send + Drop,
    C: Clock + Send + Drop,
    R: Threads + Wait + Sync,
    S: Source + Send,
    O: Sink,
    N: Outside<W = W, L = L, C = C>,
>(
    rt: &R,
    alloc: Global,
    settings: &ServeSettings,
    access: Option<&AccessList>,
    shards: Shards,
    mut pass: Pass,
    idle: Vec<Pass>,
    jobs: Vec<Job<W, L, C>>,
    input: &mut S,
    out: &mut O,
    outside: &mut N,
) -> Status
    requires pass { pass.shards ≡ shards }
    requires first { pass.caller ≡ 0 }
    requires known { KnowsNumbers pass }
    requires out { pass.out ≡ vec_len idle + vec_len jobs }
    requires idle { All (λ other. (other.shards ≡ shards) × (other.caller ≢ 0)) idle.items }
    requires ready { All (IsReady shards settings.now.sync) jobs.items }
    requires workers { All (IsWorker shards) jobs.items }
    requires wires_out { AreOut (N.wires_lent outside.old) (length (wires_of jobs.items)) }
    requires listeners_out { AreOut (N.listeners_lent outside.old)
        (length (listeners_of jobs.items)) }
    ensures caused { IsServeCaused (S.ends input.old) (S.ends input.new)
        (S.faults input.old) (S.faults input.new) (O.faults out.old) (O.faults out.new)
        (N.faults outside.old) (N.faults outside.new) result }
    ensures concluded { HasConcluded shards (O.written out.old) (O.written out.new) result (λ last.
        HaveRun (Ran W.traffic W.faults L.links L.faults settings.now
        (option_copied access.entry))
        (λ wire. wire_tale (W.traffic wire) (W.faults wire) (W.idles wire))
        (λ listener. listener_tale (L.links listener) (L.faults listener) (L.idles listener))
        idle.items jobs.items pass last
        (N.wires_lent outside.old) (N.wires_lent outside.new)
        (N.listeners_lent outside.old) (N.listeners_lent outside.new)) }
    ensures faults { N.faults outside.new ≡ N.faults outside.old }
    ensures input { IsLaterSource S.faults S.ends S.aside input.old input.new }
    ensures out { IsLaterSink O.faults O.aside out.old out.new }
{
    let stop = AtomicBool::new(false);
    let end = do_jobs(
        rt, alloc, settings, access, &shards, &mut pass, idle, jobs, input, outside, &stop,
    );
    let told = conclude(rt, shards, pass, out);
    status_of(end, told)
}

/// How a server ends, by the end of its input and by what became of the summary.
fn status_of(end: InputEnd, told: Status) -> Status
    ensures { result ≡ ended_as end told }
{
    match end {
        InputEnd::Ended => told,
        InputEnd::Failed => Status::ReadFault,
    }
}

/// Runs all jobs to their end: joins their passes to caller 0's, and hands wires and listeners
/// back.
fn do_jobs<
    W: Wire + Send + Drop,
    K: Conn + Send + Drop,
    L: Listener<Link = K> + Send + Drop,
    C: Clock + Send + Drop,
    R: Threads + Wait + Sync,
    S: Source + Send,
    N: Outside<W = W, L = L, C = C>,
>(
    rt: &R,
    alloc: Global,
    settings: &ServeSettings,
    access: Option<&AccessList>,
    shards: &Shards,
    pass: &mut Pass,
    idle: Vec<Pass>,
    mut jobs: Vec<Job<W, L, C>>,
    input: &mut S,
    outside: &mut N,
    stop: &AtomicBool,
) -> InputEnd
    requires pass { pass.old.shards ≡ shards.now }
    requires first { pass.old.caller ≡ 0 }
    requires known { KnowsNumbers pass.old }
    requires idle { All (λ other. (other.shards ≡ shards.now) × (other.caller ≢ 0)) idle.items }
    requires ready { All (IsReady shards.now settings.now.sync) jobs.items }
    requires workers { All (IsWorker shards.now) jobs.items }
    requires wires_out { AreOut (N.wires_lent outside.old) (length (wires_of jobs.items)) }
    requires listeners_out { AreOut (N.listeners_lent outside.old)
        (length (listeners_of jobs.items)) }
    ensures ran { HaveRun (Ran W.traffic W.faults L.links L.faults settings.now
        (option_copied access.entry))
        (λ wire. wire_tale (W.traffic wire) (W.faults wire) (W.idles wire))
        (λ listener. listener_tale (L.links listener) (L.faults listener) (L.idles listener))
        idle.items jobs.items pass.old pass.new
        (N.wires_lent outside.old) (N.wires_lent outside.new)
        (N.listeners_lent outside.old) (N.listeners_lent outside.new) }
    ensures known { KnowsNumbers pass.new }
    ensures faults { N.faults outside.new ≡ N.faults outside.old }
    ensures caused { IsInputCaused (S.ends input.old) (S.ends input.new)
        (S.faults input.old) (S.faults input.new) result }
    ensures input { IsLaterSource S.faults S.ends S.aside input.old input.new }
{
    let end = work(
        rt,
        alloc,
        shards,
        settings,
        access,
        jobs.as_mut_slice(),
        input,
        stop,
    );
    join_idle(shards, pass, idle);
    end_jobs(shards, pass, jobs, outside);
    end
}

/// Ends the shards, and writes the summary.
fn conclude<R: Wait, O: Sink>(rt: &R, shards: Shards, pass: Pass, out: &mut O) -> Status
    requires pass { pass.shards ≡ shards }
    requires first { pass.caller ≡ 0 }
    requires alone { pass.out ≡ 0 }
    ensures written { Concludes (O.written out.old) (O.written out.new)
        (O.faults out.old) (O.faults out.new) pass.seen result }
    ensures legal { All (IsLegalHistory shards.settings) pass.seen }
    ensures buckets { length pass.seen ≡ 2 ^ shards.bits }
    ensures out { IsLaterSink O.faults O.aside out.old out.new }
{
    match shards.close(rt, pass) {
        Ok(closed) => tell(closed, out),
        Err(_) => unreachable!(),
    }
}

/// Writes the summary of closed shards.
fn tell<O: Sink>(closed: Closed, out: &mut O) -> Status
    ensures written { (histories : List (List Entry)) → AllStand histories closed.shelf →
        closed.calls ≡ sum_by length histories →
        Concludes (O.written out.old) (O.written out.new)
        (O.faults out.old) (O.faults out.new) histories result }
    ensures out { IsLaterSink O.faults O.aside out.old out.new }
{
    let Closed { mut shelf, calls } = closed;
    let Ok(totals) = sum_up(&mut shelf) else {
        return Status::NoMemory;
    };
    match send_all(out, line_of_summary(&totals, calls).as_str().as_bytes()) {
        Wrote::Took(_) => Status::Done,
        Wrote::Failed => Status::WriteFault,
    }
}
