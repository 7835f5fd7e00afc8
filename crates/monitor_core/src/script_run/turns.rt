//! The turns of a RUN.
ghost use Rattle.std.specs.Prelude.{◌≡◌, ◌≤◌, ◌<◌, ◌+◌, ◌^◌, ◌==◌, if◌then◌else◌, false, IfOk, IfErr, IsTrue, List};
ghost use Rattle.application_types.specs.Statements.{IsWithin};
ghost use Rattle.abstract_monitor.specs.Commands.{ScriptStep, rotated};
ghost use Rattle.monitor_core.specs.{CoreSteps.{turn_steps, HasNoWork}, Sinks.{DidTurns, row_after}};

use crate::Core;
use crate::script_run::sink::Sink;
use std::alloc::Global;

// How many turns in a row moved nothing, with some more after so many.
fn row_with(moved: bool, unmoved: u16, turns: u16) -> u16
    requires { unmoved + turns < 2 ^ 16 }
    ensures { result ≡ row_after moved unmoved turns }
{
    if moved { 0 } else { unmoved + turns }
}

// The next task in rotation.
fn task_after(task: u16, tasks: u16) -> u16
    requires { task ≤ tasks }
    ensures { result ≡ (if task == tasks then 1 else task + 1) }
{
    if task == tasks { 1 } else { task + 1 }
}

// So many turns can be done in a row from this task on, before the last task is passed, so many turns are done, or TASKS
// turns in a row moved nothing.
fn turns_at_most(left: u64, task: u16, unmoved: u16, tasks: u16) -> u16
    requires left { 1 ≤ left }
    requires task { IsWithin 1 tasks task }
    requires unmoved { unmoved < tasks }
    ensures some { 1 ≤ result }
    ensures left { result ≤ left }
    ensures task { task + result ≤ tasks + 1 }
    ensures unmoved { unmoved + result ≤ tasks }
{
    let behind = tasks - task + 1;
    let most = behind.min(tasks - unmoved);
    left.min(most as u64) as u16
}

// A turn of a task, or those of some tasks in a row: how many, and whether the last one moved something. Where `idle` says
// that there is no work, free tasks ask for none; it says so for the next turn after a free task found none.
fn next_turns<S: Sink>(
    alloc: Global,
    sink: &mut S,
    core: Core,
    task: u16,
    most: u16,
    idle: &mut bool,
) -> Result<(Core, u16, bool), S::Error>
    requires ready { S.ready sink.old core }
    requires task { 1 ≤ task }
    requires some { 1 ≤ most }
    requires within { task + most ≤ core.application.generation.limits.tasks + 1 }
    requires steps { core.steps + most ≤ 10 ^ 18 }
    requires idle { IsTrue idle.old → HasNoWork core.application core.state }
    ensures took { IfOk result (λ next. (steps : List ScriptStep) × S.took sink.old core steps sink.new next.0 × DidTurns core task next.0 next.1 next.2 steps) }
    ensures within { IfOk result (λ next. IsWithin 1 most next.1) }
    ensures idle { IfOk result (λ next. IsTrue idle.new → HasNoWork next.0.application next.0.state) }
    ensures failed { IfErr result (λ e. S.failed sink.old core (turn_steps core task) e sink.new) }
{
    let free = core.free_from(task, most);
    if *idle && free > 0 {
        let (next, turns) = sink.idle(alloc, core, task, free)?;
        return Ok((next, turns, false));
    }
    let (next, moved) = sink.turn(alloc, core, task)?;
    *idle = free > 0 && !moved;
    Ok((next, 1, moved))
}

/// RUN: turns of the tasks in rotation, ended by TASKS turns in a row that moved nothing.
pub(crate) fn run_turns<S: Sink>(
    alloc: Global,
    sink: &mut S,
    mut core: Core,
    turns: u64,
) -> Result<Core, S::Error>
    requires ready { S.ready sink.old core }
    requires steps { core.steps + turns ≤ 10 ^ 18 }
    ensures took { IfOk result (λ next. S.took sink.old core (rotated core.application turns false core.state 1 0) sink.new next) }
    ensures steps { IfOk result (λ next. next.steps ≤ core.steps + turns) }
    ensures failed { IfErr result (λ e. S.failed sink.old core (rotated core.application turns false core.state 1 0) e sink.new) }
{
    let tasks = core.tasks();
    let mut task = 1;
    let mut unmoved = 0;
    let mut idle = false;
    let mut done = 0;
    while done < turns {
        let most = turns_at_most(turns - done, task, unmoved, tasks);
        let (next, count, moved) = next_turns(alloc, sink, core, task, most, &mut idle)?;
        core = next;
        done += count as u64;
        unmoved = row_with(moved, unmoved, count);
        if unmoved == tasks {
            sink.over(&core, done, true)?;
            return Ok(core);
        }
        task = task_after(task + (count - 1), tasks);
    }
    sink.over(&core, turns, false)?;
    Ok(core)
}
