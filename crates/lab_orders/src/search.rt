//! The walks of a script, one after another, the first choice first.
ghost use Rattle.std.specs.Prelude.{◌≡◌, ◌⊎◌, ◌+◌, ◌*◌, ◌≤◌, ◌^◌, true, false, All, [], IfOk, IsTrue, OnOk, sum_by};
ghost use Rattle.abstract_monitor.specs.Commands.{started};
ghost use Rattle.laws_of_runs.specs.Applied.{applied};
ghost use Rattle.laws_of_states.specs.Keeping.{HasFacts};
ghost use Rattle.lab_orders.specs.Finding.{AreTried, CanStart, Descended, IsSame, SawIt};
ghost use Rattle.lab_orders.specs.Searching.{CanGo, IsTaken, state_at};
ghost use Rattle.lab_walks.specs.Frames.{IsFrame, IsWay, turns_in};
ghost use Rattle.lab_orders.specs.Walking.{tries_of};
ghost use Rattle.lab_walks.specs.Walks.{InRun, IsEnd, stand};

use crate::performed::{Found, found_of};
use crate::reach::{Place, reach};
use crate::turns::try_effect;
use abstract_monitor::Command;
use application_types::generation::Generation;
use application_types::units::Units;
use kd_base::OutOfMemory;
use kdcs_types::Tables;
use lab_walks::{Frame, Turns, ends, turns_of};
use monitor_core::Core;
use std::alloc::Global;

/// Where some turns lead: to an end, or to what can be next.
pub(crate) enum Seen {
    Ended(Found),
    Open(Frame),
}

// The monitor again as the turns leave it.
fn again(
    alloc: Global,
    core: Core,
    tables: &Tables,
    commands: &[Command],
    frames: &[Frame],
) -> Result<Core, OutOfMemory>
    requires go { CanGo core.application tables.now commands.now }
    requires way { IsWay core.application commands.now (started core.application tables.now) frames.now }
    ensures application { IfOk result (λ next. next.application ≡ core.application) }
    ensures state { IfOk result (λ next. state_at (stand core.application commands.now (started core.application tables.now) (turns_in frames.now)) ≡ next.state) }
    ensures facts { IfOk result (λ next. HasFacts next.application next.state) }
    ensures steps { IfOk result (λ next. next.steps ≤ sum_by tries_of commands.now) }
{
    let (generation, units) = core.into_application();
    let (core, _, _place) = reach(alloc, generation, units, tables, commands, frames, false)?;
    Ok(core)
}

// Which tasks have turns with an effect here, and how many have none.
fn try_tasks(
    alloc: Global,
    mut core: Core,
    tables: &Tables,
    commands: &[Command],
    frames: &[Frame],
) -> Result<(Core, Turns, u16), OutOfMemory>
    requires facts { HasFacts core.application core.state }
    requires here { state_at (stand core.application commands.now (started core.application tables.now) (turns_in frames.now)) ≡ core.state }
    requires steps { core.steps ≤ sum_by tries_of commands.now }
    requires go { CanGo core.application tables.now commands.now }
    requires way { IsWay core.application commands.now (started core.application tables.now) frames.now }
    ensures same { IfOk result (λ r. IsSame core r.0) }
    ensures tried { IfOk result (λ r. AreTried core.application core.state r.1 r.2) }
{
    let mut choices = Turns::new(alloc);
    let mut idle: u16 = 0;
    let tasks = core.tasks();
    for at in 0..tasks {
        let task = at + 1;
        let (next, moved) = try_effect(alloc, core, task)?;
        if moved {
            choices.push(task)?;
            core = again(alloc, next, tables, commands, frames)?;
        } else {
            idle += 1;
            core = next;
        }
    }
    Ok((core, choices, idle))
}

// What can be next in a RUN with so many turns left behind it, and so many without effect before.
fn open(
    alloc: Global,
    core: Core,
    tables: &Tables,
    commands: &[Command],
    frames: &[Frame],
    left: u64,
    room: u64,
) -> Result<(Core, Frame), OutOfMemory>
    requires facts { HasFacts core.application core.state }
    requires here { stand core.application commands.now (started core.application tables.now) (turns_in frames.now) ≡ InRun left room core.state }
    requires room { room ≤ 7 * 10 ^ 18 }
    requires steps { core.steps ≤ sum_by tries_of commands.now }
    requires go { CanGo core.application tables.now commands.now }
    requires way { IsWay core.application commands.now (started core.application tables.now) frames.now }
    ensures application { IfOk result (λ r. r.0.application ≡ core.application) }
    ensures frame { IfOk result (λ r. IsFrame core.application (InRun left room core.state) r.1) }
    ensures first { IfOk result (λ r. r.1.at ≡ 0) }
{
    let (core, mut choices, idle) = try_tasks(alloc, core, tables, commands, frames)?;
    if ends(choices.as_slice(), left, room + u64::from(idle)) {
        choices.push(0)?;
    }
    let frame = Frame {
        choices,
        at: 0,
        idle,
    };
    Ok((core, frame))
}

/// Where the turns lead.
pub(crate) fn see(
    alloc: Global,
    generation: Generation,
    units: Units,
    tables: &Tables,
    commands: &[Command],
    frames: &[Frame],
) -> Result<(Generation, Units, Seen), OutOfMemory>
    requires start { CanStart (applied generation units) tables.now commands.now generation units }
    requires way { IsWay (applied generation units) commands.now (started (applied generation units) tables.now) frames.now }
    ensures again { IfOk result (λ n. CanStart (applied generation units) tables.now commands.now n.0 n.1) }
    ensures saw { IfOk result (λ n. SawIt (applied generation units) commands.now tables.now frames.now n.2) }
{
    let (core, _, place) = reach(alloc, generation, units, tables, commands, frames, false)?;
    match place {
        Place::Ended => {
            let turns = turns_of(alloc, frames)?;
            let (generation, units) = core.into_application();
            let (generation, units, found) = found_of(
                alloc, generation, units, tables, commands, turns,
            )?;
            Ok((generation, units, Seen::Ended(found)))
        }
        Place::Inside(left, room, _) => {
            let (core, frame) = open(alloc, core, tables, commands, frames, left, room)?;
            let (generation, units) = core.into_application();
            Ok((generation, units, Seen::Open(frame)))
        }
        Place::Worked => unreachable!(),
    }
}

/// From these turns on to an end, by the first choice each time.
pub(crate) fn descend(
    alloc: Global,
    mut generation: Generation,
    mut units: Units,
    tables: &Tables,
    commands: &[Command],
    frames: &mut Vec<Frame>,
) -> Result<(Generation, Units, Found), OutOfMemory>
    requires start { CanStart (applied generation units) tables.now commands.now generation units }
    requires way { IsWay (applied generation units) commands.now (started (applied generation units) tables.now) frames.old.items }
    ensures again { IfOk result (λ n. CanStart (applied generation units) tables.now commands.now n.0 n.1) }
    ensures descended { IfOk result (λ n. Descended (applied generation units) tables.now commands.now frames.old.items frames.new.items n.2) }
{
    for _deeper in 0..u64::MAX {
        let (g, u, seen) = see(
            alloc,
            generation,
            units,
            tables,
            commands,
            frames.as_slice(),
        )?;
        generation = g;
        units = u;
        match seen {
            Seen::Ended(found) => return Ok((generation, units, found)),
            Seen::Open(frame) => frames.push(frame)?,
        }
    }
    unreachable!()
}
