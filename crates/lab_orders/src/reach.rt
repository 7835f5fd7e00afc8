//! Where the turns of a walk lead: they are done from the start on.
ghost use Rattle.std.specs.Prelude.{◌≡◌, ◌+◌, ◌*◌, ◌≤◌, ◌^◌, All, IfOk, sum_by};
ghost use Rattle.abstract_monitor.specs.{Commands.{started}, CommandsOf.{IsCommandOf}, declared.command.Command.TheVariants.{Run}};
ghost use Rattle.laws_of_runs.specs.Applied.{applied};
ghost use Rattle.laws_of_states.specs.Keeping.{IsScriptOf};
ghost use Rattle.lab_orders.specs.{Finding.{CanStart}, Searching.{CanCount, Followed, IsBesideAt, IsTaken, Reached, WentCommand, WentRun, quest_of}, Walking.{IsBeside, tries_of}};
ghost use Rattle.lab_walks.specs.Frames.{IsWay};

use crate::path::Path;
use crate::start::begin;
use crate::step::{do_command, do_turn};
use crate::turns::is_at_rest;
use abstract_monitor::Command;
use application_types::generation::Generation;
use application_types::units::Units;
use kd_base::OutOfMemory;
use kdcs_types::Tables;
use lab_walks::Frame;
use monitor_core::Core;
use std::alloc::Global;

/// Where turns lead.
#[derive(Clone, Copy)]
pub(crate) enum Place {
    /// Into a RUN: how many turns it has left behind the next one, how many without effect there may have been, and how many
    /// commands stand behind it.
    Inside(u64, u64, usize),
    /// To the end of the script.
    Ended,
    /// A RUN ended while a task's turn had an effect, which was asked for. The rest is not done.
    Worked,
}

/// What is left of the turns behind a command, and the place where they end in it.
type Behind<'a> = (&'a [Frame], Option<Place>);

// RUN: its turns, or as many as there are. So many commands are later.
fn reach_run<'a>(
    alloc: Global,
    mut core: Core,
    path: &mut Path,
    frames: &'a [Frame],
    turns: u64,
    later: usize,
) -> Result<(Core, Behind<'a>), OutOfMemory>
    requires beside { IsBeside core path.old }
    requires taken { All (IsTaken core.application) frames.now }
    requires steps { core.steps + turns ≤ 10 ^ 14 }
    ensures went { IfOk result (λ next. WentRun core path.old turns later frames.now next.0 path.new next.1.0.now next.1.1) }
    ensures taken { IfOk result (λ next. All (IsTaken core.application) next.1.0.now) }
    ensures steps { IfOk result (λ next. next.0.steps ≤ core.steps + turns) }
{
    let mut rest = frames;
    let mut room = 0;
    for made in 0..turns {
        let Some((frame, behind)) = rest.split_first() else {
            let left = turns - made - 1;
            return Ok((core, (rest, Some(Place::Inside(left, room, later)))));
        };
        rest = behind;
        let task = frame.turn();
        if task == 0 {
            return Ok((core, (rest, None)));
        }
        core = do_turn(alloc, core, path, task)?;
        room += u64::from(frame.idle);
    }
    Ok((core, (rest, None)))
}

// RUN, as above. Where it is over, it may be asked whether work is left.
fn end_run<'a>(
    alloc: Global,
    core: Core,
    path: &mut Path,
    frames: &'a [Frame],
    turns: u64,
    later: usize,
    asks: bool,
) -> Result<(Core, Behind<'a>), OutOfMemory>
    requires beside { IsBeside core path.old }
    requires taken { All (IsTaken core.application) frames.now }
    requires steps { core.steps + turns ≤ 10 ^ 14 }
    ensures went { IfOk result (λ next. WentCommand asks core path.old (Run turns) later frames.now next.0 path.new next.1.0.now next.1.1) }
    ensures taken { IfOk result (λ next. All (IsTaken core.application) next.1.0.now) }
    ensures steps { IfOk result (λ next. next.0.steps ≤ core.steps + (turns + 65535)) }
{
    let (core, (rest, place)) = reach_run(alloc, core, path, frames, turns, later)?;
    if let Some(place) = place {
        return Ok((core, (rest, Some(place))));
    }
    if !asks {
        return Ok((core, (rest, None)));
    }
    let (core, rests) = is_at_rest(alloc, core)?;
    if rests {
        return Ok((core, (rest, None)));
    }
    Ok((core, (rest, Some(Place::Worked))))
}

// One command, and what is left of the turns behind it.
fn reach_command<'a>(
    alloc: Global,
    core: Core,
    path: &mut Path,
    command: &Command,
    frames: &'a [Frame],
    later: usize,
    asks: bool,
) -> Result<(Core, Behind<'a>), OutOfMemory>
    requires beside { IsBeside core path.old }
    requires names { IsCommandOf core.application.generation command.now }
    requires taken { All (IsTaken core.application) frames.now }
    requires steps { core.steps + tries_of command.now ≤ 10 ^ 14 }
    ensures went { IfOk result (λ next. WentCommand asks core path.old command.now later frames.now next.0 path.new next.1.0.now next.1.1) }
    ensures taken { IfOk result (λ next. All (IsTaken core.application) next.1.0.now) }
    ensures steps { IfOk result (λ next. next.0.steps ≤ core.steps + tries_of command.now) }
{
    if let Command::Run(turns) = command {
        return end_run(alloc, core, path, frames, *turns, later, asks);
    }
    let core = do_command(alloc, core, path, command)?;
    Ok((core, (frames, None)))
}

// The commands, as far as there are turns for their RUNs.
fn follow(
    alloc: Global,
    mut core: Core,
    path: &mut Path,
    commands: &[Command],
    frames: &[Frame],
    asks: bool,
) -> Result<(Core, Place), OutOfMemory>
    requires beside { IsBeside core path.old }
    requires names { IsScriptOf core.application commands.now }
    requires taken { All (IsTaken core.application) frames.now }
    requires steps { core.steps + sum_by tries_of commands.now ≤ 10 ^ 14 }
    ensures { IfOk result (λ next. Followed asks core path.old commands.now frames.now next.0 path.new next.1) }
{
    let mut rest = frames;
    let mut later = commands.len();
    for command in commands {
        later -= 1;
        let (next, (behind, place)) = reach_command(alloc, core, path, command, rest, later, asks)?;
        core = next;
        rest = behind;
        if let Some(place) = place {
            return Ok((core, place));
        }
    }
    Ok((core, Place::Ended))
}

/// A monitor that starts, and goes as far as the turns lead, with what was done. It may be asked at the end of each RUN
/// whether work is left.
pub(crate) fn reach(
    alloc: Global,
    generation: Generation,
    units: Units,
    tables: &Tables,
    commands: &[Command],
    frames: &[Frame],
    asks: bool,
) -> Result<(Core, Path, Place), OutOfMemory>
    requires start { CanStart (applied generation units) tables.now commands.now generation units }
    requires way { IsWay (applied generation units) commands.now (started (applied generation units) tables.now) frames.now }
    ensures application { IfOk result (λ r. r.0.application ≡ applied generation units) }
    ensures beside { IfOk result (λ r. IsBesideAt r.0 r.1 r.2) }
    ensures reached { IfOk result (λ r. Reached (quest_of (applied generation units) commands.now tables.now frames.now asks) r.0 r.1 r.2) }
    ensures steps { IfOk result (λ r. r.0.steps ≤ sum_by tries_of commands.now) }
    ensures few { IfOk result (λ r. CanCount r.2) }
{
    let (core, mut path) = begin(alloc, generation, units, tables)?;
    let (core, place) = follow(alloc, core, &mut path, commands, frames, asks)?;
    Ok((core, path, place))
}
