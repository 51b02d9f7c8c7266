//! The jobs of a server at work, all at once.

ghost use Rattle.std.specs.Prelude.{All, option_copied};
ghost use Rattle.lines.specs.Streams.{IsLaterSource};
ghost use Rattle.server.specs.Input.{IsInputCaused};
ghost use Rattle.server.specs.Teams.{AllRan};

use crate::input::{InputEnd, await_end};
use access_list::AccessList;
use ot_io::{Clock, Listener, ServeSettings, Source, Wire};
use serve::Job;
use shards::Shards;
use std::alloc::Global;
use std::sync::Wait;
use std::sync::atomic::AtomicBool;
use std::thread;
use std::thread::Threads;

/// What can be done in a thread of its own, from its start to its end. A job is one. That it is
/// told apart from its type is for the threads: they take any task, and no type with parameters of
/// its own.
pub(crate) trait Task {
    ghost use Rattle.std.specs.Prelude.{Option};
    ghost use Rattle.access_list.specs.Access.{Listing};
    ghost use Rattle.ot_io.specs.declared.settings.ServeSettings.{ServeSettings};
    ghost use Rattle.ot_io.specs.declared.settings.SyncSettings.{SyncSettings};
    ghost use Rattle.shards.specs.Shape.{ShardsShape};

    /// It may begin on these shards, with these other nodes.
    ghost ready: { ShardsShape → Option SyncSettings → Self → Type 0 };

    /// What it did, by the settings and the access list.
    ghost ran: { ServeSettings → Option Listing → Self → Self → Type 0 };

    /// Does it all.
    fn perform<R: Wait>(
        &mut self,
        rt: &R,
        alloc: Global,
        shards: &Shards,
        settings: &ServeSettings,
        access: Option<&AccessList>,
        stop: &AtomicBool,
    )
        requires { ready shards.now settings.now.sync self.old }
        ensures { ran settings.now (option_copied access.entry) self.old self.new };
}

impl<W: Wire, L: Listener, C: Clock> Task for Job<W, L, C> {
    ghost use Rattle.serve.specs.Jobs.{IsReady, Ran};

    ghost ready = { λ shards sync job. IsReady shards sync job };

    ghost ran = { λ settings access old new.
        Ran W.traffic W.faults L.links L.faults settings access old new };

    fn perform<R: Wait>(
        &mut self,
        rt: &R,
        alloc: Global,
        shards: &Shards,
        settings: &ServeSettings,
        access: Option<&AccessList>,
        stop: &AtomicBool,
    ) {
        self.run(rt, alloc, shards, settings, access, stop);
    }
}

/// Does all tasks at once, and beside them waits for the input's end, at which all are to end.
pub(crate) fn work<R: Threads + Wait + Sync, S: Source + Send, J: Task + Send>(
    rt: &R,
    alloc: Global,
    shards: &Shards,
    settings: &ServeSettings,
    access: Option<&AccessList>,
    tasks: &mut [J],
    input: &mut S,
    stop: &AtomicBool,
) -> InputEnd
    requires ready { All (J.ready shards.now settings.now.sync) tasks.old }
    ensures ran { AllRan (J.ran settings.now (option_copied access.entry)) tasks.old tasks.new }
    ensures caused { IsInputCaused (S.ends input.old) (S.ends input.new)
        (S.faults input.old) (S.faults input.new) result }
    ensures input { IsLaterSource S.faults S.ends S.aside input.old input.new }
{
    let (end, ()) = thread::join_mut(
        rt,
        &mut || await_end(rt, input, stop),
        &mut ||
            requires { All (J.ready shards.now settings.now.sync) tasks.now }
            ensures { AllRan (J.ran settings.entry.now (option_copied access.entry))
                tasks.entry.now tasks.exit.now }
        { perform_all(rt, alloc, shards, settings, access, tasks, stop) },
    );
    end
}

/// Does all tasks at once, each in a thread of its own where one can be made.
fn perform_all<R: Threads + Wait + Sync, J: Task + Send>(
    rt: &R,
    alloc: Global,
    shards: &Shards,
    settings: &ServeSettings,
    access: Option<&AccessList>,
    tasks: &mut [J],
    stop: &AtomicBool,
)
    requires { All (J.ready shards.now settings.now.sync) tasks.old }
    ensures { AllRan (J.ran settings.now (option_copied access.entry)) tasks.old tasks.new }
{
    let threads = tasks.len().max(1);
    thread::for_each_mut(
        rt,
        tasks,
        threads,
        &|_, task: &mut J|
            requires { J.ready shards.now settings.now.sync task.now }
            ensures { J.ran settings.entry.now (option_copied access.entry)
                task.entry.now task.exit.now }
        { task.perform(rt, alloc, shards, settings, access, stop) },
    );
}
