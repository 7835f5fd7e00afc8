//! What comes out of a walk: it is performed from the start on.
ghost use Rattle.std.specs.{Prelude.{◌≡◌, ◌≤◌, ◌+◌, ◌^◌, true, false, IfOk, sum_by}, List.{list_any}};
ghost use Rattle.abstract_monitor.specs.{Commands.{started}, CommandsOf.{IsCommandOf}, declared.command.Command.TheVariants.{Run}};
ghost use Rattle.application_types.specs.Fitted.{IsFit};
ghost use Rattle.laws_of_runs.specs.Applied.{applied};
ghost use Rattle.laws_of_states.specs.Keeping.{HasFacts, IsScriptOf};
ghost use Rattle.lab_walks.specs.{Signs.{has_work, run_ends, stands_still}, Walks.{IsWalk}};
ghost use Rattle.lab_orders.specs.{Finding.{CanStart, IsFound}, Performing.{AreTasks, PerformedAll, PerformedOne, PerformedRun, PerformedWalk}, Walking.{IsBeside, tries_of}};

use crate::lines::by_name;
use crate::path::Path;
use crate::start::begin;
use crate::step::{do_command, do_turn};
use crate::turns::is_at_rest;
use abstract_monitor::Command;
use application_types::generation::Generation;
use application_types::units::Units;
use kd_base::{Bytes, OutOfMemory, Sequence};
use kdcs_types::Tables;
use lab_walks::{Signs, Turns};
use monitor_core::Core;
use monitor_parts::output_lines::table_lines;
use std::alloc::Global;

/// A walk, and what comes out of it.
#[derive(Drop)]
pub(crate) struct Found {
    pub(crate) turns: Turns,
    pub(crate) sent: Bytes,
    /// The lines that are sent, by their names.
    pub(crate) lines: Sequence<Bytes>,
    /// The lines of the tables.
    pub(crate) tables: Bytes,
    pub(crate) signs: Signs,
    /// Each transaction ran in one go.
    pub(crate) serial: bool,
}

/// A walk to its end, or one of which a RUN ended while there was work.
enum Attempt {
    Ended(Found),
    HasWork(Turns),
}

// RUN: the turns of the walk. What is left of the walk is behind them.
fn perform_run<'a>(
    alloc: Global,
    mut core: Core,
    path: &mut Path,
    turns: u64,
    walk: &'a [u16],
) -> Result<(Core, &'a [u16]), OutOfMemory>
    requires beside { IsBeside core path.old }
    requires tasks { AreTasks core.application walk.now }
    requires steps { core.steps + turns ≤ 10 ^ 17 }
    ensures performed { IfOk result (λ r. PerformedRun core path.old turns walk.now r.0 path.new r.1.now) }
    ensures steps { IfOk result (λ r. r.0.steps ≤ core.steps + turns) }
{
    let mut rest = walk;
    for _made in 0..turns {
        let Some((first, behind)) = rest.split_first() else {
            return Ok((core, rest));
        };
        rest = behind;
        let task = *first;
        if task == 0 {
            return Ok((core, rest));
        }
        core = do_turn(alloc, core, path, task)?;
    }
    Ok((core, rest))
}

// RUN, as above. False where this is asked for and work is left at its end.
fn end_run<'a>(
    alloc: Global,
    core: Core,
    path: &mut Path,
    turns: u64,
    walk: &'a [u16],
    asks: bool,
) -> Result<(Core, &'a [u16], bool), OutOfMemory>
    requires beside { IsBeside core path.old }
    requires tasks { AreTasks core.application walk.now }
    requires steps { core.steps + turns ≤ 10 ^ 17 }
    ensures performed { IfOk result (λ r. PerformedOne asks core path.old (Run turns) walk.now r.0 path.new r.1.now r.2) }
    ensures steps { IfOk result (λ r. r.0.steps ≤ core.steps + (turns + 65535)) }
{
    let (core, behind) = perform_run(alloc, core, path, turns, walk)?;
    if !asks {
        return Ok((core, behind, true));
    }
    let (core, rests) = is_at_rest(alloc, core)?;
    Ok((core, behind, rests))
}

// One command, and what is left of the walk behind it. False where this is asked for and work is left at the end of a RUN.
fn perform_one<'a>(
    alloc: Global,
    core: Core,
    path: &mut Path,
    command: &Command,
    walk: &'a [u16],
    asks: bool,
) -> Result<(Core, &'a [u16], bool), OutOfMemory>
    requires beside { IsBeside core path.old }
    requires names { IsCommandOf core.application.generation command.now }
    requires tasks { AreTasks core.application walk.now }
    requires steps { core.steps + tries_of command.now ≤ 10 ^ 17 }
    ensures performed { IfOk result (λ r. PerformedOne asks core path.old command.now walk.now r.0 path.new r.1.now r.2) }
    ensures steps { IfOk result (λ r. r.0.steps ≤ core.steps + tries_of command.now) }
{
    if let Command::Run(turns) = command {
        return end_run(alloc, core, path, *turns, walk, asks);
    }
    let core = do_command(alloc, core, path, command)?;
    Ok((core, walk, true))
}

// All commands. False where this is asked for and work is left at the end of a RUN: then some of them are not done.
fn perform_all(
    alloc: Global,
    mut core: Core,
    path: &mut Path,
    commands: &[Command],
    walk: &[u16],
    asks: bool,
) -> Result<(Core, bool), OutOfMemory>
    requires beside { IsBeside core path.old }
    requires names { IsScriptOf core.application commands.now }
    requires tasks { AreTasks core.application walk.now }
    requires steps { core.steps + sum_by tries_of commands.now ≤ 10 ^ 17 }
    ensures performed { IfOk result (λ r. PerformedAll asks core path.old commands.now walk.now r.0 path.new r.1) }
    ensures steps { IfOk result (λ r. r.0.steps ≤ core.steps + sum_by tries_of commands.now) }
{
    let mut rest = walk;
    for command in commands {
        let (next, behind, rests) = perform_one(alloc, core, path, command, rest, asks)?;
        core = next;
        rest = behind;
        if !rests {
            return Ok((core, false));
        }
    }
    Ok((core, true))
}

// Whether a service waits and no task can go on. The monitor goes.
fn stands_still(alloc: Global, core: Core) -> Result<(Generation, Units, bool), OutOfMemory>
    requires facts { HasFacts core.application core.state }
    requires steps { core.steps + 65535 ≤ 10 ^ 18 }
    ensures fit { IfOk result (λ r. IsFit r.0 r.1) }
    ensures application { IfOk result (λ r. core.application ≡ applied r.0 r.1) }
    ensures stands { IfOk result (λ r. r.2 ≡ stands_still core.application core.state) }
{
    if core.parts().locks.waiting() == 0 {
        let (generation, units) = core.into_application();
        return Ok((generation, units, false));
    }
    let (core, rests) = is_at_rest(alloc, core)?;
    let (generation, units) = core.into_application();
    Ok((generation, units, rests))
}

// A walk from the start on. Where it is not asked whether work is left at the end of a RUN, this is known.
fn perform_walk(
    alloc: Global,
    generation: Generation,
    units: Units,
    tables: &Tables,
    commands: &[Command],
    turns: Turns,
    asks: bool,
) -> Result<(Generation, Units, Attempt), OutOfMemory>
    requires start { CanStart (applied generation units) tables.now commands.now generation units }
    requires walk { IsWalk (applied generation units) commands.now (started (applied generation units) tables.now) turns }
    requires known { asks ≡ false → list_any (has_work (applied generation units)) (run_ends (applied generation units) commands.now (started (applied generation units) tables.now) turns) ≡ true }
    ensures again { IfOk result (λ n. CanStart (applied generation units) tables.now commands.now n.0 n.1) }
    ensures performed { IfOk result (λ n. PerformedWalk (applied generation units) tables.now commands.now turns asks n.2) }
{
    let (core, mut path) = begin(alloc, generation, units, tables)?;
    let (core, is_over) = perform_all(alloc, core, &mut path, commands, turns.as_slice(), asks)?;
    if !is_over {
        let (generation, units) = core.into_application();
        return Ok((generation, units, Attempt::HasWork(turns)));
    }
    let tables = table_lines(alloc, core.tables())?;
    let (generation, units, standstill) = stands_still(alloc, core)?;
    let lines = by_name(alloc, path.sent.as_slice())?;
    let found = Found {
        turns,
        sent: path.sent,
        lines,
        tables,
        signs: Signs {
            standstill,
            spent: !asks,
            ..path.signs
        },
        serial: path.serial,
    };
    Ok((generation, units, Attempt::Ended(found)))
}

/// A walk, and what comes out of it.
pub(crate) fn found_of(
    alloc: Global,
    generation: Generation,
    units: Units,
    tables: &Tables,
    commands: &[Command],
    turns: Turns,
) -> Result<(Generation, Units, Found), OutOfMemory>
    requires start { CanStart (applied generation units) tables.now commands.now generation units }
    requires walk { IsWalk (applied generation units) commands.now (started (applied generation units) tables.now) turns }
    ensures again { IfOk result (λ n. CanStart (applied generation units) tables.now commands.now n.0 n.1) }
    ensures turns { IfOk result (λ n. n.2.turns ≡ turns) }
    ensures found { IfOk result (λ n. IsFound (applied generation units) tables.now commands.now n.2) }
{
    let (generation, units, attempt) = perform_walk(
        alloc, generation, units, tables, commands, turns, true,
    )?;
    let turns = match attempt {
        Attempt::Ended(found) => return Ok((generation, units, found)),
        Attempt::HasWork(turns) => turns,
    };
    let (generation, units, again) = perform_walk(
        alloc, generation, units, tables, commands, turns, false,
    )?;
    match again {
        Attempt::Ended(found) => Ok((generation, units, found)),
        Attempt::HasWork(_) => unreachable!(),
    }
}
