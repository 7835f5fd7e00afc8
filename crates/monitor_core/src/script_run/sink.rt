//! What is done with the steps of a script.
ghost use Rattle.std.specs.Prelude.{◌<◌, ◌≤◌, ◌+◌, ◌≡◌, ◌^◌, [], List, IfOk, IfErr};
ghost use Rattle.application_types.specs.Statements.{IsWithin};
ghost use Rattle.abstract_monitor.specs.{CommandsOf.{IsCommandOf}, Commands.{ScriptStep}, declared.command.Command.TheVariants.{Restart}};
ghost use Rattle.laws_of_states.specs.Applications.{IsApplication};
ghost use Rattle.monitor_core.specs.{Commanding.{IsCoreCommand}, CoreSteps.{AreFree, HasNoWork, command_steps, idle_steps, turn_steps}, CoreValue.{CoreValue, OneStep, Rested}};
ghost use Rattle.monitor_core.specs.Sinks.{DidTurn, SinkGoesOn};

use crate::Core;
use abstract_monitor::Command;
use std::alloc::Global;

/// Does the steps of a script on a core, each with what is to be done with its acts, before the next. An error of it ends
/// the script.
pub trait Sink {
    type Error: Drop;

    /// Steps can be done on this core.
    ghost ready: { Self → CoreValue → Type 0 };

    /// What it is told of the outside is so: it is known which tables a core comes to after a RESTART.
    ghost known: { Self → Type 0 };

    /// From one moment and core to a later one, all these steps were done.
    ghost took: { Self → CoreValue → List ScriptStep → Self → CoreValue → Type 0 };

    /// From one moment and core to a later one, no more than these steps were done, and this error came.
    ghost failed: { Self → CoreValue → List ScriptStep → Self.Error → Self → Type 0 };

    /// A RESTART was not done, and this error came.
    ghost unopened: { Self → CoreValue → Self.Error → Self → Type 0 };

    /// One turn of a task, and whether it moved something.
    fn turn(&mut self, alloc: Global, core: Core, task: u16) -> Result<(Core, bool), Self::Error>
        requires ready { ready self.old core }
        requires task { IsWithin 1 core.application.generation.limits.tasks task }
        requires steps { core.steps < 10 ^ 18 }
        ensures took { IfOk result (λ next. took self.old core (turn_steps core task) self.new next.0) }
        ensures turned { IfOk result (λ next. DidTurn core task next.0 next.1) }
        ensures failed { IfErr result (λ e. failed self.old core (turn_steps core task) e self.new) };

    /// The turns of at most so many tasks in a row, from this one on, which are free where there is no work, and how many it
    /// did: one at least.
    fn idle(
        &mut self,
        alloc: Global,
        core: Core,
        task: u16,
        most: u16,
    ) -> Result<(Core, u16), Self::Error>
        requires ready { ready self.old core }
        requires task { IsWithin 1 core.application.generation.limits.tasks task }
        requires some { 1 ≤ most }
        requires free { AreFree core.state task most }
        requires none { HasNoWork core.application core.state }
        requires steps { core.steps + most ≤ 10 ^ 18 }
        ensures took { IfOk result (λ next. took self.old core (idle_steps core.state next.1) self.new next.0) }
        ensures rested { IfOk result (λ next. Rested core next.0 next.1) }
        ensures within { IfOk result (λ next. IsWithin 1 most next.1) }
        ensures failed { IfErr result (λ e. failed self.old core (turn_steps core task) e self.new) }
    {
        let (next, _moved) = self.turn(alloc, core, task)?;
        Ok((next, 1))
    }

    /// A command that is no RUN, TURN or RESTART.
    fn apply(&mut self, alloc: Global, core: Core, command: &Command) -> Result<Core, Self::Error>
        requires ready { ready self.old core }
        requires core_command { IsCoreCommand command.now }
        requires names { IsCommandOf core.application.generation command.now }
        requires steps { core.steps < 10 ^ 18 }
        ensures took { IfOk result (λ next. took self.old core (command_steps core command.now) self.new next) }
        ensures one { IfOk result (λ next. OneStep core next) }
        ensures failed { IfErr result (λ e. failed self.old core (command_steps core command.now) e self.new) };

    /// RESTART: a monitor starts from the durable tables.
    fn restart(&mut self, alloc: Global, core: Core) -> Result<Core, Self::Error>
        requires ready { ready self.old core }
        ensures took { IfOk result (λ next. took self.old core (command_steps core Restart) self.new next) }
        ensures steps { IfOk result (λ next. next.steps ≡ 0) }
        ensures failed { IfErr result (λ e. failed self.old core (command_steps core Restart) e self.new) }
        ensures unopened { IfErr result (λ e. unopened self.old core e self.new) };

    /// A RUN is over, after so many turns: all its turns were done, or TASKS turns in a row moved nothing.
    fn over(&mut self, core: &Core, turns: u64, idle: bool) -> Result<(), Self::Error>
        requires ready { ready self.old core.now }
        ensures took { IfOk result (λ _. took self.old core.now [] self.new core.now) }
        ensures failed { IfErr result (λ e. failed self.old core.now [] e self.new) };

    ghost applies: { (s : Self) (c : CoreValue) → ready s c → IsApplication c.application };

    ghost goes: { SinkGoesOn ready known took failed };
}
