//! What a server stands on: its wires, its listeners and their clocks.

ghost use Rattle.std.specs.Prelude.{◌≡◌, ◌≤◌, ◌+◌, [], IfErr, IfOk, map, vec_len};
ghost use Rattle.ot_io.specs.Lending.{AreOut, Lends};
ghost use Rattle.ot_io.specs.Tales.{IsNewListener, listener_tale};
ghost use Rattle.ot_io.specs.Traffic.{IsNewWire, wire_tale};
ghost use Rattle.server.specs.Devices.{AreDevices, IsDeviceCaused, IsMade, IsShut, OpensNew};
ghost use Rattle.server.specs.Devices.{TakesBack, device_count, sync_count};

use ot_base::Endpoint;
use ot_io::{Clock, Listener, Made, Outside, ServeSettings, Status, SyncSettings, Wire};
use std::alloc::Global;

/// All that a server has of its outside.
#[derive(Drop)]
pub(crate) struct Devices<W, L, C> {
    /// One for each worker of datagrams.
    pub(crate) wires: Vec<W>,
    /// One for each worker of connections.
    pub(crate) listeners: Vec<L>,
    /// Where there are other nodes, the one over which they are told, and the one over which they
    /// are heard.
    pub(crate) sync_wires: Vec<W>,
    /// One for each job.
    pub(crate) clocks: Vec<C>,
}

/// Makes what the settings ask for: wires and listeners of workers, wires to other nodes, clocks,
/// in this order.
///
/// # Errors
///
/// `Device` where the outside failed, `NoMemory`. Nothing stays open then.
pub(crate) fn open_devices<
    W: Wire + Drop,
    L: Listener + Drop,
    C: Clock + Drop,
    N: Outside<W = W, L = L, C = C>,
>(alloc: Global, settings: &ServeSettings, outside: &mut N) -> Result<Devices<W, L, C>, Status>
    requires few { settings.now.workers ≤ 64 }
    ensures devices { IfOk result (AreDevices
        (λ wire. IsNewWire (W.traffic wire) (W.faults wire) (W.idles wire))
        (λ listener. IsNewListener (L.links listener) (L.faults listener) (L.idles listener))
        settings.now) }
    ensures wires { IfOk result (λ devices.
        Lends (N.wires_lent outside.old) (N.wires_lent outside.new)
        (vec_len devices.wires + vec_len devices.sync_wires) []) }
    ensures listeners { IfOk result (λ devices.
        Lends (N.listeners_lent outside.old) (N.listeners_lent outside.new)
        (vec_len devices.listeners) []) }
    ensures shut { IfErr result (λ _. IsShut (N.wires_lent outside.old) (N.wires_lent outside.new)
        × IsShut (N.listeners_lent outside.old) (N.listeners_lent outside.new)) }
    ensures caused { IfErr result (λ status.
        IsDeviceCaused (N.faults outside.old) (N.faults outside.new) status) }
    ensures counted { N.faults outside.old ≤ N.faults outside.new }
{
    let mut devices = Devices {
        wires: Vec::new(alloc),
        listeners: Vec::new(alloc),
        sync_wires: Vec::new(alloc),
        clocks: Vec::new(alloc),
    };
    match make_devices(alloc, settings, &mut devices, outside) {
        Ok(()) => Ok(devices),
        Err(status) => {
            return_devices(outside, devices);
            Err(status)
        }
    }
}

/// Makes one kind after another, of which there are none yet. What was made stands with the
/// devices, after an error too.
fn make_devices<
    W: Wire + Drop,
    L: Listener + Drop,
    C: Clock + Drop,
    N: Outside<W = W, L = L, C = C>,
>(
    alloc: Global,
    settings: &ServeSettings,
    devices: &mut Devices<W, L, C>,
    outside: &mut N,
) -> Result<(), Status>
    requires few { settings.now.workers ≤ 64 }
    requires no_wires { vec_len devices.old.wires ≡ 0 }
    requires no_listeners { vec_len devices.old.listeners ≡ 0 }
    requires no_sync_wires { vec_len devices.old.sync_wires ≡ 0 }
    ensures devices { IfOk result (λ _. AreDevices
        (λ wire. IsNewWire (W.traffic wire) (W.faults wire) (W.idles wire))
        (λ listener. IsNewListener (L.links listener) (L.faults listener) (L.idles listener))
        settings.now devices.new) }
    ensures wires { Lends (N.wires_lent outside.old) (N.wires_lent outside.new)
        (vec_len devices.new.wires + vec_len devices.new.sync_wires) [] }
    ensures listeners { Lends (N.listeners_lent outside.old) (N.listeners_lent outside.new)
        (vec_len devices.new.listeners) [] }
    ensures caused { IfErr result (λ status.
        IsDeviceCaused (N.faults outside.old) (N.faults outside.new) status) }
    ensures counted { N.faults outside.old ≤ N.faults outside.new }
{
    devices.wires = open_wires(alloc, settings.udp, settings.workers, outside)?;
    devices.listeners = open_listeners(alloc, settings.http, settings.workers, outside)?;
    devices.sync_wires = open_sync_wires(alloc, &settings.sync, outside)?;
    let workers = devices.wires.len() + devices.listeners.len();
    let jobs = workers + 1 + devices.sync_wires.len();
    devices.clocks = all_made(outside.clocks(jobs as u32))?;
    Ok(())
}

/// Makes a wire for each worker at this address, if there is one.
fn open_wires<W: Wire, N: Outside<W = W>>(
    alloc: Global,
    at: Option<Endpoint>,
    workers: u32,
    outside: &mut N,
) -> Result<Vec<W>, Status>
    ensures made { IfOk result (λ wires. OpensNew
        (λ wire. IsNewWire (W.traffic wire) (W.faults wire) (W.idles wire))
        (device_count workers at)
        (N.wires_lent outside.old) (N.wires_lent outside.new) wires.items) }
    ensures shut { IfErr result (λ _.
        Lends (N.wires_lent outside.old) (N.wires_lent outside.new) 0 []) }
    ensures listeners { N.listeners_lent outside.new ≡ N.listeners_lent outside.old }
    ensures caused { IfErr result (λ status.
        IsDeviceCaused (N.faults outside.old) (N.faults outside.new) status) }
    ensures counted { N.faults outside.old ≤ N.faults outside.new }
{
    match at {
        Some(at) => all_made(outside.wires(at, workers)),
        None => Ok(Vec::new(alloc)),
    }
}

/// Makes a listener for each worker at this address, if there is one.
fn open_listeners<L: Listener, N: Outside<L = L>>(
    alloc: Global,
    at: Option<Endpoint>,
    workers: u32,
    outside: &mut N,
) -> Result<Vec<L>, Status>
    ensures made { IfOk result (λ listeners. OpensNew
        (λ listener. IsNewListener (L.links listener) (L.faults listener) (L.idles listener))
        (device_count workers at)
        (N.listeners_lent outside.old) (N.listeners_lent outside.new) listeners.items) }
    ensures shut { IfErr result (λ _.
        Lends (N.listeners_lent outside.old) (N.listeners_lent outside.new) 0 []) }
    ensures wires { N.wires_lent outside.new ≡ N.wires_lent outside.old }
    ensures caused { IfErr result (λ status.
        IsDeviceCaused (N.faults outside.old) (N.faults outside.new) status) }
    ensures counted { N.faults outside.old ≤ N.faults outside.new }
{
    match at {
        Some(at) => all_made(outside.listeners(at, workers)),
        None => Ok(Vec::new(alloc)),
    }
}

/// Makes the two wires to other nodes, if there are any.
fn open_sync_wires<W: Wire, N: Outside<W = W>>(
    alloc: Global,
    sync: &Option<SyncSettings>,
    outside: &mut N,
) -> Result<Vec<W>, Status>
    ensures made { IfOk result (λ wires. OpensNew
        (λ wire. IsNewWire (W.traffic wire) (W.faults wire) (W.idles wire))
        (sync_count sync.now)
        (N.wires_lent outside.old) (N.wires_lent outside.new) wires.items) }
    ensures shut { IfErr result (λ _.
        Lends (N.wires_lent outside.old) (N.wires_lent outside.new) 0 []) }
    ensures listeners { N.listeners_lent outside.new ≡ N.listeners_lent outside.old }
    ensures caused { IfErr result (λ status.
        IsDeviceCaused (N.faults outside.old) (N.faults outside.new) status) }
    ensures counted { N.faults outside.old ≤ N.faults outside.new }
{
    match sync {
        Some(sync) => all_made(outside.wires(sync.at, 2)),
        None => Ok(Vec::new(alloc)),
    }
}

/// What a maker gave, or the status that it ends a server with.
fn all_made<T>(made: Made<T>) -> Result<T, Status>
    ensures { IsMade made result }
{
    match made {
        Made::Got(all) => Ok(all),
        Made::Failed => Err(Status::Device),
        Made::NoMemory => Err(Status::NoMemory),
    }
}

/// Hands all wires and listeners back to where they were made.
pub(crate) fn return_devices<
    W: Wire + Drop,
    L: Listener + Drop,
    C: Clock + Drop,
    N: Outside<W = W, L = L, C = C>,
>(outside: &mut N, devices: Devices<W, L, C>)
    requires wires_out { AreOut (N.wires_lent outside.old)
        (vec_len devices.wires + vec_len devices.sync_wires) }
    requires listeners_out { AreOut (N.listeners_lent outside.old) (vec_len devices.listeners) }
    ensures wires { TakesBack (vec_len devices.wires + vec_len devices.sync_wires)
        (N.wires_lent outside.old) (N.wires_lent outside.new) }
    ensures listeners { TakesBack (vec_len devices.listeners)
        (N.listeners_lent outside.old) (N.listeners_lent outside.new) }
    ensures faults { N.faults outside.new ≡ N.faults outside.old }
{
    let Devices {
        wires,
        listeners,
        sync_wires,
        clocks: _clocks,
    } = devices;
    return_wires(outside, wires);
    return_listeners(outside, listeners);
    return_wires(outside, sync_wires);
}

/// Hands wires back to where they were made, in their order.
fn return_wires<W: Wire + Drop, N: Outside<W = W>>(outside: &mut N, wires: Vec<W>)
    requires out { AreOut (N.wires_lent outside.old) (vec_len wires) }
    ensures back { Lends (N.wires_lent outside.old) (N.wires_lent outside.new) 0
        (map (λ wire. wire_tale (W.traffic wire) (W.faults wire) (W.idles wire)) wires.items) }
    ensures listeners { N.listeners_lent outside.new ≡ N.listeners_lent outside.old }
    ensures faults { N.faults outside.new ≡ N.faults outside.old }
{
    for wire in wires {
        outside.wire_back(wire);
    }
}

/// Hands listeners back to where they were made, in their order.
fn return_listeners<L: Listener + Drop, N: Outside<L = L>>(outside: &mut N, listeners: Vec<L>)
    requires out { AreOut (N.listeners_lent outside.old) (vec_len listeners) }
    ensures back { Lends (N.listeners_lent outside.old) (N.listeners_lent outside.new) 0
        (map (λ listener. listener_tale (L.links listener) (L.faults listener)
        (L.idles listener)) listeners.items) }
    ensures wires { N.wires_lent outside.new ≡ N.wires_lent outside.old }
    ensures faults { N.faults outside.new ≡ N.faults outside.old }
{
    for listener in listeners {
        outside.listener_back(listener);
    }
}
