//! The jobs of a server.

ghost use Rattle.std.specs.Prelude.{◌≡◌, option_copied};
ghost use Rattle.serve.specs.Jobs.{IsReady, Ran};

use crate::http_worker::serve_listener;
use crate::scratch::Scratch;
use crate::udp_worker::serve_wire;
use access_list::AccessList;
use ot_io::{Clock, Listener, ServeSettings, Wire};
use shards::{Pass, Shards};
use std::alloc::Global;
use std::sync::Wait;
use std::sync::atomic::AtomicBool;
use upkeep::{keep_clean, keep_receiving, keep_sending, nodes_in};

/// What one thread of a server does, with all that it has for itself. It has the types of the wire,
/// the listener and the clock as parameters, so that it can be sent to a thread.
#[derive(Drop)]
pub enum Job<W, L, C> {
    /// A worker that serves datagrams.
    Udp {
        pass: Pass,
        wire: W,
        clock: C,
        scratch: Scratch,
    },
    /// A worker that serves connections.
    Http {
        pass: Pass,
        listener: L,
        clock: C,
        scratch: Scratch,
    },
    /// One that cleans the buckets.
    Cleaner {
        pass: Pass,
        clock: C,
    },
    /// One that tells other nodes what the buckets learnt.
    Sender {
        pass: Pass,
        wire: W,
        clock: C,
    },
    /// One that learns what other nodes tell.
    Receiver {
        pass: Pass,
        wire: W,
        clock: C,
    },
}

impl<W: Wire, L: Listener, C: Clock> Job<W, L, C> {
    /// Does the job from its start to its end, which comes once the flag is up: a worker serves
    /// what waits, and ends where nothing does or the outside fails, and so does the receiver; the
    /// cleaner and the sender go over all buckets once more. The pass keeps its number.
    #[tactic(auto, unfolding(crate::specs::Jobs::IsReady, crate::specs::Jobs::Ran))]
    pub fn run<R: Wait>(
        &mut self,
        rt: &R,
        alloc: Global,
        shards: &Shards,
        settings: &ServeSettings,
        access: Option<&AccessList>,
        stop: &AtomicBool,
    )
        requires { IsReady shards.now settings.now.sync self.old }
        ensures { Ran W.traffic W.faults L.links L.faults settings.now
            (option_copied access.entry) self.old self.new }
    {
        match self {
            Job::Udp {
                pass,
                wire,
                clock,
                scratch,
            } => serve_wire(
                rt,
                shards,
                pass,
                wire,
                clock,
                &settings.replay.secret,
                access,
                scratch,
                stop,
            ),
            Job::Http {
                pass,
                listener,
                clock,
                scratch,
            } => serve_listener(
                rt,
                alloc,
                shards,
                pass,
                listener,
                clock,
                access,
                settings.replay.full,
                scratch,
                stop,
            ),
            Job::Cleaner { pass, clock } => keep_clean(rt, shards, pass, clock, stop),
            Job::Sender { pass, wire, clock } => match &settings.sync {
                Some(sync) => {
                    let nodes = nodes_in(&sync.nodes);
                    keep_sending(
                        rt,
                        shards,
                        pass,
                        wire,
                        clock,
                        sync.own,
                        nodes.as_slice(),
                        stop,
                    )
                }
                None => unreachable!(),
            },
            Job::Receiver { pass, wire, clock } => match &settings.sync {
                Some(sync) => {
                    let nodes = nodes_in(&sync.nodes);
                    keep_receiving(
                        rt,
                        shards,
                        pass,
                        wire,
                        clock,
                        sync.own,
                        nodes.as_slice(),
                        stop,
                    )
                }
                None => unreachable!(),
            },
        }
    }
}
