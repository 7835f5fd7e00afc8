//! The steps of a script, of which a listener hears.
ghost use Rattle.std.specs.Prelude.{◌≡◌, ◌≤◌, ◌+◌, ◌^◌, ◌∷◌, [], IfOk, List, OnOk, length};
ghost use Rattle.application_types.specs.Statements.{IsWithin};
ghost use Rattle.kdcs_types.specs.declared.act.Act.TheVariants.{Emit};
ghost use Rattle.abstract_monitor.specs.{CommandsOf.{IsCommandOf}, Commands.{steps_of}, Lines.{restart_line}};
ghost use Rattle.laws_of_states.specs.Keeping.{HasFacts};
ghost use Rattle.monitor_core.specs.CoreSteps.{turns_of};
ghost use Rattle.lab_turns.specs.{declared.view.TurnView.{TurnView}, Heard.{EndsSo, Heard, IsEnding, Turned as HeardTurn}, Running.{IsBeside, ToldSteps, Watched}, RunningLaws.{watch_goes}};

use crate::error::LabError;
use crate::listener::Listener;
use crate::run_end::RunEnd;
use crate::view::Before;
use abstract_monitor::Command;
use kd_base::{Bytes, OutOfMemory};
use kdcs_types::{Act, Acts, Tables};
use monitor_core::script_run::{Sink, apply_beside, do_command, start_beside, turn_beside};
use monitor_core::{Core, Turned};
use std::alloc::Global;

/// The durable tables beside a core, and who hears of its steps.
#[derive(Drop)]
struct Watch<'a, L: Listener> {
    durable: &'a mut Tables,
    listener: &'a mut L,
    /// How many steps were done.
    steps: u64,
    /// Whether a RUN ended with turns that moved nothing.
    is_idle: bool,
}

/// How the steps of a command ended.
#[derive(Clone, Copy)]
pub(crate) struct Ran {
    /// How many there were.
    steps: u64,
    is_idle: bool,
}

// One step more.
fn one_more(steps: u64) -> Result<u64, LabError>
    ensures { IfOk result (λ more. more ≡ steps + 1) }
{
    match steps.checked_add(1) {
        Some(more) => Ok(more),
        None => Err(LabError::Spent),
    }
}

// The listener hears of a turn.
fn tell<L: Listener>(
    alloc: Global,
    listener: &mut L,
    before: &Before,
    core: &Core,
    did: &Turned,
) -> Result<(), LabError>
    requires facts { HasFacts core.now.application core.now.state }
    requires task { IsWithin 1 core.now.application.generation.limits.tasks before.now.task }
    ensures { OnOk result ((view : TurnView) × L.hears listener.old (HeardTurn view core.now.state did.now.acts ∷ []) listener.new) }
{
    let view = before.view(alloc, core, did)?;
    listener.turn(core, &view, did.acts.as_slice())
}

/// What is sent when a RESTART is done.
const RESTARTED: &[u8] = b"RESTART\n";

// The acts of a RESTART: a line.
fn restarted(alloc: Global) -> Result<Acts, OutOfMemory>
    ensures { IfOk result (λ acts. acts ≡ Emit restart_line ∷ []) }
{
    let mut acts = Acts::new(alloc);
    acts.push(Act::Emit(Bytes::from_slice(alloc, RESTARTED)?))?;
    Ok(acts)
}

// How a RUN of so many turns ended.
fn end_of(core: &Core, turns: u64, ran: Ran) -> RunEnd
    ensures { EndsSo turns core.now.state ran.steps result }
{
    if !ran.is_idle && ran.steps == turns {
        return RunEnd::Spent;
    }
    match core.parts().locks.waiting() {
        0 => RunEnd::Idle,
        waiting => RunEnd::Waiting(waiting),
    }
}

/// The listener hears how a RUN ended.
pub(crate) fn tell_end<L: Listener>(
    listener: &mut L,
    core: &Core,
    command: &Command,
    ran: Ran,
) -> Result<(), LabError>
    ensures { OnOk result ((tail : List Heard) × IsEnding command.now core.now.state ran.steps tail × L.hears listener.old tail listener.new) }
{
    match command {
        Command::Run(turns) => listener.over(ran.steps, end_of(core, *turns, ran)),
        Command::Input(_, _)
        | Command::Tick(_)
        | Command::Turn(_)
        | Command::Drop(_)
        | Command::Print(_)
        | Command::PrintLast(_)
        | Command::Restart => Ok(()),
    }
}

impl<L: Listener> Sink for Watch<'_, L> {
    type Error = LabError;

    ghost ready = { λ w c. IsBeside c w.durable.now };

    ghost known = { λ _. Unit {0} };

    ghost took = { λ v c steps w d. Watched L.hears c steps v.listener.now w.listener.now d w.durable.now v.steps w.steps (v.durable.ghost_name ∷ v.listener.ghost_name ∷ []) (w.durable.ghost_name ∷ w.listener.ghost_name ∷ []) };

    ghost failed = { λ _ _ _ _ _. Unit {0} };

    ghost unopened = { λ _ _ _ _. Unit {0} };

    fn turn(&mut self, alloc: Global, core: Core, task: u16) -> Result<(Core, bool), LabError> {
        let steps = one_more(self.steps)?;
        self.steps = steps;
        let before = Before::of(alloc, &core, task)?;
        let (next, did) = turn_beside(alloc, core, self.durable, task)?;
        tell(alloc, self.listener, &before, &next, &did)?;
        Ok((next, did.moved))
    }

    fn apply(&mut self, alloc: Global, core: Core, command: &Command) -> Result<Core, LabError> {
        let steps = one_more(self.steps)?;
        self.steps = steps;
        let (next, acts) = apply_beside(alloc, core, self.durable, command)?;
        self.listener.done(&next, acts.as_slice())?;
        Ok(next)
    }

    fn restart(&mut self, alloc: Global, core: Core) -> Result<Core, LabError> {
        let steps = one_more(self.steps)?;
        self.steps = steps;
        let next = start_beside(alloc, core, self.durable)?;
        let acts = restarted(alloc)?;
        self.listener.done(&next, acts.as_slice())?;
        Ok(next)
    }

    fn over(&mut self, _core: &Core, _turns: u64, idle: bool) -> Result<(), LabError> {
        self.is_idle = idle;
        Ok(())
    }

    ghost applies = { λ w c beside. beside.application };

    ghost goes = { watch_goes L.hears L.hears_none L.hears_both (λ w. w.durable.now) (λ w. w.listener.now) (λ w. w.steps) (λ w. w.durable.ghost_name ∷ w.listener.ghost_name ∷ []) };
}

/// One command, of whose steps the listener hears, and how they ended.
pub(crate) fn watch_command<L: Listener>(
    alloc: Global,
    core: Core,
    durable: &mut Tables,
    listener: &mut L,
    command: &Command,
) -> Result<(Core, Ran), LabError>
    requires beside { IsBeside core durable.old }
    requires names { IsCommandOf core.application.generation command.now }
    requires steps { core.steps + turns_of command.now ≤ 10 ^ 18 }
    ensures told { IfOk result (λ next. ToldSteps L.hears core (steps_of core.application core.state command.now) listener.old listener.new next.0) }
    ensures beside { IfOk result (λ next. IsBeside next.0 durable.new) }
    ensures counted { IfOk result (λ next. next.1.steps ≡ length (steps_of core.application core.state command.now)) }
{
    let mut watch = Watch {
        durable,
        listener,
        steps: 0,
        is_idle: false,
    };
    let next = do_command(alloc, &mut watch, core, command)?;
    let ran = Ran {
        steps: watch.steps,
        is_idle: watch.is_idle,
    };
    Ok((next, ran))
}
