//! An order that is drawn at random.
ghost use Rattle.std.specs.Prelude.{◌+◌, ◌≤◌, ◌^◌, ◌∷◌, [], IfOk, sum_by};
ghost use Rattle.abstract_monitor.specs.{CommandsOf.{IsCommandOf}, declared.command.Command.TheVariants.{Run}};
ghost use Rattle.laws_of_runs.specs.Applied.{applied};
ghost use Rattle.laws_of_states.specs.Keeping.{IsScriptOf};
ghost use Rattle.lab_orders.specs.{Drawing.{Drew}, Finding.{CanStart, IsFound}, Walking.{IsBeside, tries_of}};

use crate::path::Path;
use crate::performed::{Found, found_of};
use crate::resting::Resting;
use crate::start::begin;
use crate::step::do_command;
use crate::turns::try_turn;
use abstract_monitor::Command;
use application_types::generation::Generation;
use application_types::units::Units;
use kd_base::OutOfMemory;
use kdcs_types::Tables;
use laws_of_states::laws_of_steps::steps_commit_once;
use monitor_core::Core;
use rand_xoshiro::SplitMix64;
use std::alloc::Global;

// RUN: turns of tasks that are drawn, each of one that does not rest.
fn drawn_run(
    alloc: Global,
    mut core: Core,
    path: &mut Path,
    numbers: &mut SplitMix64,
    turns: u64,
) -> Result<Core, OutOfMemory>
    requires beside { IsBeside core path.old }
    requires steps { core.steps + turns ≤ 10 ^ 14 }
    ensures drew { IfOk result (λ next. Drew core path.old (Run turns ∷ []) next path.new) }
    ensures steps { IfOk result (λ next. next.steps ≤ core.steps + turns) }
{
    steps_commit_once();
    let tasks = core.tasks();
    let mut resting = Resting::none(alloc, tasks)?;
    let mut effects: u64 = 0;
    for _made in 0..turns {
        let Some(task) = resting.draw(numbers) else {
            path.end_run()?;
            return Ok(core);
        };
        let (next, did) = try_turn(alloc, core, task)?;
        core = next;
        if let Some(did) = did {
            path.take(task, did)?;
            resting = Resting::none(alloc, tasks)?;
            effects += 1;
        } else {
            resting.rest(task);
        }
    }
    if effects < turns {
        path.end_run()?;
    }
    Ok(core)
}

// One command.
fn drawn_command(
    alloc: Global,
    core: Core,
    path: &mut Path,
    numbers: &mut SplitMix64,
    command: &Command,
) -> Result<Core, OutOfMemory>
    requires beside { IsBeside core path.old }
    requires names { IsCommandOf core.application.generation command.now }
    requires steps { core.steps + tries_of command.now ≤ 10 ^ 14 }
    ensures drew { IfOk result (λ next. Drew core path.old (command.now ∷ []) next path.new) }
    ensures steps { IfOk result (λ next. next.steps ≤ core.steps + tries_of command.now) }
{
    if let Command::Run(turns) = command {
        return drawn_run(alloc, core, path, numbers, *turns);
    }
    do_command(alloc, core, path, command)
}

// A script to its end.
fn drawn_walk(
    alloc: Global,
    mut core: Core,
    path: &mut Path,
    numbers: &mut SplitMix64,
    commands: &[Command],
) -> Result<Core, OutOfMemory>
    requires beside { IsBeside core path.old }
    requires names { IsScriptOf core.application commands.now }
    requires steps { core.steps + sum_by tries_of commands.now ≤ 10 ^ 14 }
    ensures { IfOk result (λ next. Drew core path.old commands.now next path.new) }
{
    for command in commands {
        core = drawn_command(alloc, core, path, numbers, command)?;
    }
    Ok(core)
}

/// An order that is drawn, and what comes out of it.
pub(crate) fn drawn_order(
    alloc: Global,
    generation: Generation,
    units: Units,
    tables: &Tables,
    commands: &[Command],
    numbers: &mut SplitMix64,
) -> Result<(Generation, Units, Found), OutOfMemory>
    requires { CanStart (applied generation units) tables.now commands.now generation units }
    ensures again { IfOk result (λ n. CanStart (applied generation units) tables.now commands.now n.0 n.1) }
    ensures order { IfOk result (λ n. IsFound (applied generation units) tables.now commands.now n.2) }
{
    let (core, mut path) = begin(alloc, generation, units, tables)?;
    let core = drawn_walk(alloc, core, &mut path, numbers, commands)?;
    let (generation, units) = core.into_application();
    found_of(alloc, generation, units, tables, commands, path.turns)
}
