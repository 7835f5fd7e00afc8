//! One command of a script, and one turn of a RUN.
ghost use Rattle.std.specs.Prelude.{◌≡◌, ◌+◌, ◌≤◌, ◌<◌, ◌^◌, IfOk};
ghost use Rattle.application_types.specs.Statements.{IsWithin};
ghost use Rattle.abstract_monitor.specs.{CommandsOf.{IsCommandOf}, declared.command.Command.TheVariants.{Restart, Turn}};
ghost use Rattle.monitor_core.specs.Commanding.{IsCoreCommand};
ghost use Rattle.lab_orders.specs.Walking.{DidCommand, IsBeside, IsNoRun};

use crate::path::Path;
use crate::seeing::{is_serial, seen};
use crate::start::start;
use abstract_monitor::Command;
use kd_base::OutOfMemory;
use laws_of_states::laws_of_steps::steps_commit_once;
use monitor_core::{Core, Turned};
use std::alloc::Global;

/// What is sent when a RESTART is done.
const RESTARTED: &[u8] = b"RESTART\n";

// A command that is no RUN, TURN or RESTART.
fn do_core_command(
    alloc: Global,
    core: Core,
    path: &mut Path,
    command: &Command,
) -> Result<Core, OutOfMemory>
    requires beside { IsBeside core path.old }
    requires core_command { IsCoreCommand command.now }
    requires names { IsCommandOf core.application.generation command.now }
    requires steps { core.steps < 10 ^ 18 }
    ensures done { IfOk result (λ next. DidCommand core path.old command.now next path.new) }
    ensures steps { IfOk result (λ next. next.steps ≡ core.steps + 1) }
{
    steps_commit_once();
    let (next, acts) = core.apply(alloc, command)?;
    path.keep(acts)?;
    path.signs = seen(path.signs, &None, &next);
    path.serial = is_serial(path.serial, &next);
    Ok(next)
}

/// One turn of a task.
pub(crate) fn do_turn(
    alloc: Global,
    core: Core,
    path: &mut Path,
    task: u16,
) -> Result<Core, OutOfMemory>
    requires beside { IsBeside core path.old }
    requires task { IsWithin 1 core.application.generation.limits.tasks task }
    requires steps { core.steps < 10 ^ 18 }
    ensures done { IfOk result (λ next. DidCommand core path.old (Turn task) next path.new) }
    ensures steps { IfOk result (λ next. next.steps ≡ core.steps + 1) }
{
    steps_commit_once();
    let (next, did) = core.turn(alloc, task)?;
    let Turned { acts, settled, .. } = did;
    path.keep(acts)?;
    path.signs = seen(path.signs, &settled, &next);
    path.serial = is_serial(path.serial, &next);
    Ok(next)
}

// RESTART: a monitor starts from the durable tables.
fn restart(alloc: Global, core: Core, path: &mut Path) -> Result<Core, OutOfMemory>
    requires beside { IsBeside core path.old }
    ensures done { IfOk result (λ next. DidCommand core path.old Restart next path.new) }
    ensures steps { IfOk result (λ next. next.steps ≡ 0) }
{
    let _before = core.tables(); // for the proof
    let (generation, units) = core.into_application();
    path.sent.append(RESTARTED)?;
    let next = start(alloc, generation, units, &path.durable)?;
    path.signs = seen(path.signs, &None, &next);
    path.serial = is_serial(path.serial, &next);
    Ok(next)
}

/// A command that is no RUN.
pub(crate) fn do_command(
    alloc: Global,
    core: Core,
    path: &mut Path,
    command: &Command,
) -> Result<Core, OutOfMemory>
    requires beside { IsBeside core path.old }
    requires no_run { IsNoRun command.now }
    requires names { IsCommandOf core.application.generation command.now }
    requires steps { core.steps < 10 ^ 18 }
    ensures done { IfOk result (λ next. DidCommand core path.old command.now next path.new) }
    ensures steps { IfOk result (λ next. next.steps ≤ core.steps + 1) }
{
    match command {
        Command::Run(_) => Ok(core),
        Command::Turn(task) => do_turn(alloc, core, path, *task),
        Command::Restart => restart(alloc, core, path),
        Command::Input(_, _)
        | Command::Tick(_)
        | Command::Drop(_)
        | Command::Print(_)
        | Command::PrintLast(_) => do_core_command(alloc, core, path, command),
    }
}
