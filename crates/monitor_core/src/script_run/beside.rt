//! Steps of a core with its durable tables beside it.
ghost use Rattle.std.specs.Prelude.{◌≡◌, ◌<◌, ◌^◌, IfOk, OnOk};
ghost use Rattle.application_types.specs.Statements.{IsWithin};
ghost use Rattle.abstract_monitor.specs.{CommandsOf.{IsCommandOf}, Commands.{command_of, started}, Trace.{tables_after}, Turns.{turn_of}};
ghost use Rattle.laws_of_states.specs.Keeping.{HasFacts};
ghost use Rattle.monitor_core.specs.{Commanding.{Comes, IsCoreCommand}, CoreSteps.{durable_of}, CoreValue.{OneStep}};
ghost use Rattle.service_ends.specs.Ending.{turned_to};
ghost use Rattle.monitor_core.specs.Keeping.{AreKept};

use crate::{Core, Turned};
use abstract_monitor::Command;
use kd_base::OutOfMemory;
use kdcs_types::{Act, Acts, Tables};
use laws_of_states::laws_of_steps::steps_commit_once;
use std::alloc::Global;

/// The commits among these acts change the tables.
pub fn keep_commits(durable: &mut Tables, acts: &[Act]) -> Result<(), OutOfMemory>
    requires { AreKept acts.now }
    ensures { OnOk result (durable.new ≡ tables_after durable.old acts.now) }
{
    for act in acts {
        match act {
            Act::Commit(changes) => durable.change(changes)?,
            Act::Emit(_) => {}
        }
    }
    Ok(())
}

/// One turn of a task.
pub fn turn_beside(
    alloc: Global,
    core: Core,
    durable: &mut Tables,
    task: u16,
) -> Result<(Core, Turned), OutOfMemory>
    requires durable { durable.old ≡ durable_of core }
    requires task { IsWithin 1 core.application.generation.limits.tasks task }
    requires steps { core.steps < 10 ^ 18 }
    ensures exact { IfOk result (λ next. turned_to next.0.state next.1 ≡ turn_of core.application core.state task) }
    ensures one { IfOk result (λ next. OneStep core next.0) }
    ensures facts { IfOk result (λ next. HasFacts next.0.application next.0.state) }
    ensures durable { IfOk result (λ next. durable.new ≡ durable_of next.0) }
{
    steps_commit_once();
    let _before = core.tables(); // for the proof
    let (next, did) = core.turn(alloc, task)?;
    let _after = next.tables(); // for the proof
    keep_commits(durable, did.acts.as_slice())?;
    Ok((next, did))
}

/// A command that is no RUN, TURN or RESTART.
pub fn apply_beside(
    alloc: Global,
    core: Core,
    durable: &mut Tables,
    command: &Command,
) -> Result<(Core, Acts), OutOfMemory>
    requires durable { durable.old ≡ durable_of core }
    requires core_command { IsCoreCommand command.now }
    requires names { IsCommandOf core.application.generation command.now }
    requires steps { core.steps < 10 ^ 18 }
    ensures exact { IfOk result (λ next. Comes next.0.state next.1 (command_of core.application core.state command.now)) }
    ensures one { IfOk result (λ next. OneStep core next.0) }
    ensures facts { IfOk result (λ next. HasFacts next.0.application next.0.state) }
    ensures durable { IfOk result (λ next. durable.new ≡ durable_of next.0) }
{
    steps_commit_once();
    let _before = core.tables(); // for the proof
    let (next, acts) = core.apply(alloc, command)?;
    let _after = next.tables(); // for the proof
    keep_commits(durable, acts.as_slice())?;
    Ok((next, acts))
}

/// RESTART: a monitor starts from the durable tables.
pub fn start_beside(alloc: Global, core: Core, durable: &Tables) -> Result<Core, OutOfMemory>
    requires durable { durable.now ≡ durable_of core }
    ensures application { IfOk result (λ next. next.application ≡ core.application) }
    ensures state { IfOk result (λ next. next.state ≡ started core.application (durable_of core)) }
    ensures facts { IfOk result (λ next. HasFacts next.application next.state) }
    ensures steps { IfOk result (λ next. next.steps ≡ 0) }
    ensures durable { IfOk result (λ next. durable.now ≡ durable_of next) }
{
    let _before = core.tables(); // for the proof
    let (generation, units) = core.into_application();
    Core::start(alloc, generation, units, durable.clone()?)
}
