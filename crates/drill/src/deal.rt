//! How the requests of a phase are dealt to its workers.

ghost use Rattle.std.specs.Prelude.{◌≡◌, ◌<◌, ◌≤◌, ◌∷◌, [], OnOk, length};
ghost use Rattle.drill.specs.Dealing.{AreHanded, Deals};

use crate::worker::Worker;
use load_model::{Load, Request};
use std::alloc::AllocError;

/// Deals all requests of a phase to its workers: each peer's to one of them, in order.
pub fn deal(load: &mut Load, phase: u32, team: &mut Vec<Worker>) -> Result<(), AllocError>
    requires { 1 ≤ length team.old.items }
    ensures { OnOk result (Deals phase load.old load.new team.old.items team.new.items) }
{
    while let Some(request) = load.next_in(phase) {
        hand(team, request)?;
    }
    Ok(())
}

/// Gives a request to the worker of its peer.
fn hand(team: &mut Vec<Worker>, request: Request) -> Result<(), AllocError>
    requires { 1 ≤ length team.old.items }
    ensures { OnOk result (AreHanded (request ∷ []) team.old.items team.new.items) }
{
    let worker = request.peer() as usize % team.len();
    team[worker].requests.push(request)?;
    Ok(())
}
