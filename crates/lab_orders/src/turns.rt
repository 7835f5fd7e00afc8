//! One turn of a task, and whether it has an effect.
ghost use Rattle.std.specs.Prelude.{◌≡◌, ◌+◌, ◌<◌, ◌≤◌, ◌^◌, IfOk};
ghost use Rattle.application_types.specs.Statements.{IsWithin};
ghost use Rattle.laws_of_states.specs.Keeping.{HasFacts};
ghost use Rattle.lab_orders.specs.Trying.{Rested, Tried, TriedEffect};
ghost use Rattle.lab_walks.specs.Orders.{wait_in};

use kd_base::OutOfMemory;
use kdcs_types::Area;
use lab_walks::shows_effect;
use monitor_core::{Core, Turned};
use std::alloc::Global;

// The request that waits of the service in a task.
fn wait_in(core: &Core, task: u16) -> Option<(Area, u64)>
    requires facts { HasFacts core.now.application core.now.state }
    requires task { IsWithin 1 core.now.application.generation.limits.tasks task }
    ensures { result ≡ wait_in core.now.state task }
{
    let parts = core.parts();
    let id = parts.scheduler.held_by(task)?;
    parts.locks.wait_of(id).copied()
}

/// A turn of a task, from 1 to TASKS, and what it did where it has an effect. Without one the monitor is as it was.
pub(crate) fn try_turn(
    alloc: Global,
    core: Core,
    task: u16,
) -> Result<(Core, Option<Turned>), OutOfMemory>
    requires facts { HasFacts core.application core.state }
    requires task { IsWithin 1 core.application.generation.limits.tasks task }
    requires steps { core.steps < 10 ^ 18 }
    ensures tried { IfOk result (λ next. Tried core task next.0 next.1) }
    ensures steps { IfOk result (λ next. next.0.steps ≡ core.steps + 1) }
{
    let before = wait_in(&core, task);
    let (next, did) = core.turn(alloc, task)?;
    let after = wait_in(&next, task);
    if shows_effect(did.moved, before, after) {
        Ok((next, Some(did)))
    } else {
        Ok((next, None))
    }
}

/// The same, and only whether it had an effect.
pub(crate) fn try_effect(alloc: Global, core: Core, task: u16) -> Result<(Core, bool), OutOfMemory>
    requires facts { HasFacts core.application core.state }
    requires task { IsWithin 1 core.application.generation.limits.tasks task }
    requires steps { core.steps < 10 ^ 18 }
    ensures tried { IfOk result (λ next. TriedEffect core task next.0 next.1) }
    ensures steps { IfOk result (λ next. next.0.steps ≡ core.steps + 1) }
{
    let (next, did) = try_turn(alloc, core, task)?;
    Ok((next, did.is_some()))
}

/// Whether no task's turn has an effect. Then the monitor is as it was.
pub(crate) fn is_at_rest(alloc: Global, mut core: Core) -> Result<(Core, bool), OutOfMemory>
    requires facts { HasFacts core.application core.state }
    requires steps { core.steps + 65535 ≤ 10 ^ 18 }
    ensures rested { IfOk result (λ r. Rested core r.0 r.1) }
    ensures steps { IfOk result (λ r. r.0.steps ≤ core.steps + 65535) }
{
    let tasks = core.tasks();
    for at in 0..tasks {
        let (next, moved) = try_effect(alloc, core, at + 1)?;
        core = next;
        if moved {
            return Ok((core, false));
        }
    }
    Ok((core, true))
}
