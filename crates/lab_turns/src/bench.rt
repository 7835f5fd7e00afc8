//! A monitor that performs commands, with its durable tables beside it.
ghost use Rattle.std.specs.Prelude.{◌≡◌, ◌≤◌, ◌+◌, ◌^◌, ◌↔◌, IfOk, IsTrue, OnOk};
ghost use Rattle.application_types.specs.Fitted.{IsFit};
ghost use Rattle.laws_of_runs.specs.Applied.{applied};
ghost use Rattle.laws_of_states.specs.{Keeping.{HasFacts, IsScriptOf}, Suits.{Suits}};
ghost use Rattle.abstract_monitor.specs.{CommandsOf.{IsCommandOf}, Commands.{started, steps_of}, Trace.{history}};
ghost use Rattle.monitor_core.specs.CoreSteps.{turns_of};
ghost use Rattle.lab_turns.specs.{Heard.{HearsCommand, HearsScript}, Running.{DidSteps}};

use crate::error::LabError;
use crate::listener::Listener;
use crate::watching::{tell_end, watch_command};
use abstract_monitor::Command;
use application_types::generation::Generation;
use application_types::units::Units;
use kd_base::OutOfMemory;
use kdcs_types::Tables;
use monitor_core::Core;
use std::alloc::Global;
use std::marker::Model;

/// How many turns and commands a monitor does at most.
const LAST_STEP: u64 = 1_000_000_000_000_000_000;

// How many turns and commands a command makes at most.
fn turns_of(command: &Command) -> u64
    ensures { result ≡ turns_of command.now }
{
    match command {
        Command::Run(turns) => *turns,
        Command::Input(_, _)
        | Command::Tick(_)
        | Command::Turn(_)
        | Command::Drop(_)
        | Command::Print(_)
        | Command::PrintLast(_)
        | Command::Restart => 1,
    }
}

// Whether so many more turns and commands may be done.
fn may_do(core: &Core, turns: u64) -> bool
    ensures { IsTrue result ↔ (core.now.steps + turns ≤ 10 ^ 18) }
{
    let steps = core.parts().steps;
    steps <= LAST_STEP && turns <= LAST_STEP - steps
}

/// A monitor that performs commands. Contracts see its core. It is gone where an error is answered.
pub struct Bench {
    pub(crate) core: Core,
    /// The tables that a stop would leave.
    pub(crate) durable: Box<Tables>,
}

impl Drop for Bench {
    fn drop(self) {
        let Bench { core, durable } = self;
        let _ = core;
        let _ = durable;
    }
}

impl Model for Bench {
    ghost use Rattle.monitor_core.specs.CoreValue.{CoreValue};
    ghost use Rattle.lab_turns.specs.Running.{IsBeside};

    ghost Value = { CoreValue };

    ghost view = { λ b. b.core };

    ghost invariant = { λ b. IsBeside b.core b.durable.value };
}

impl Bench {
    /// A monitor that starts from tables that suit the generation.
    pub fn start(
        alloc: Global,
        generation: Generation,
        units: Units,
        tables: Tables,
    ) -> Result<Bench, OutOfMemory>
        requires fit { IsFit generation units }
        requires suits { Suits generation tables }
        ensures application { IfOk result (λ bench. bench.application ≡ applied generation units) }
        ensures state { IfOk result (λ bench. bench.state ≡ started bench.application tables) }
    {
        let durable = Box::new(alloc, tables.clone()?)?;
        let core = Core::start(alloc, generation, units, tables)?;
        Ok(Bench { core, durable })
    }

    /// The core, to look at. It takes no memory.
    pub fn core(&self) -> &Core
        ensures value { result.now ≡ self.now }
        ensures facts { HasFacts self.now.application self.now.state }
    {
        &self.core
    }

    /// The generation and the units, with which a monitor can start again. It takes no memory.
    pub fn into_application(self) -> (Generation, Units)
        ensures application { self.application ≡ applied result.0 result.1 }
        ensures fit { IsFit result.0 result.1 }
    {
        let Bench { core, durable } = self;
        drop(durable);
        core.into_application()
    }

    /// Performs a command that names what the generation has. The listener hears of it, of each of its steps, and how a RUN
    /// ended.
    pub fn perform<L: Listener>(
        self,
        alloc: Global,
        listener: &mut L,
        command: &Command,
    ) -> Result<Bench, LabError>
        requires names { IsCommandOf self.application.generation command.now }
        ensures done { IfOk result (λ next. DidSteps self (steps_of self.application self.state command.now) next) }
        ensures heard { OnOk result (HearsCommand L.hears self.application self.state command.now listener.old listener.new) }
    {
        let Bench { core, mut durable } = self;
        listener.command(command)?;
        if !may_do(&core, turns_of(command)) {
            return Err(LabError::Spent);
        }
        let (core, ran) = watch_command(alloc, core, &mut durable, listener, command)?;
        tell_end(listener, &core, command, ran)?;
        Ok(Bench { core, durable })
    }

    /// Performs the commands of a script in their order. The listener hears of each of them, and of each step
    /// of their history.
    pub fn perform_all<L: Listener>(
        self,
        alloc: Global,
        listener: &mut L,
        commands: &[Command],
    ) -> Result<Bench, LabError>
        requires names { IsScriptOf self.application commands.now }
        ensures done { IfOk result (λ next. DidSteps self (history self.application self.state commands.now) next) }
        ensures heard { OnOk result (HearsScript L.hears self.application self.state commands.now listener.old listener.new) }
    {
        let mut bench = self;
        for command in commands {
            bench = bench.perform(alloc, listener, command)?;
        }
        Ok(bench)
    }
}
