//! A monitor between two commands.
ghost use Rattle.std.specs.Prelude.{◌≡◌, ◌<◌, ◌≤◌, ◌+◌, ◌^◌, ℕ, IfOk, IsTrue};
ghost use Rattle.application_types.specs.Soundness.{AreLimits};
ghost use Rattle.application_types.specs.Statements.{IsWithin};
ghost use Rattle.kdcs_types.specs.Tables.{IsSortedTables};
ghost use Rattle.application_types.specs.Fitted.{IsFit};
ghost use Rattle.laws_of_runs.specs.Applied.{applied};
ghost use Rattle.laws_of_states.specs.{Applications.{IsApplication}, Keeping.{HasFacts}, Replay.{SettlesAs}, Suits.{Suits}};
ghost use Rattle.abstract_monitor.specs.{CommandsOf.{IsCommandOf, is_pterm}, Commands.{command_of, lterm_at, started, turned_step, use_now}, Endings.{durable}, Turns.{turn_of, unmoved}};
ghost use Rattle.laws_of_runs.specs.{Access.{KeepsAccess}, QueueLaws.{KeepsQueues}, Replays.{AllReplay}, SerialLaws.{IsSerialStep}};
ghost use Rattle.service_ends.specs.Ending.{turned_to};
ghost use Rattle.monitor_core.specs.Commanding.{Comes, IsCoreCommand};
ghost use Rattle.monitor_core.specs.{CoreSteps.{AreFree, HasNoWork}, CoreValue.{OneStep, Rested, core_value}, Steps.{came_to}};

use crate::applying::apply;
use crate::input::use_of;
use crate::start::parts_of;
use crate::turning::{count, free_from, turn};
use abstract_monitor::{Command, Use};
use application_types::generation::Generation;
use application_types::units::Units;
use kd_base::{Name, OutOfMemory};
use kdcs_types::{Acts, Tables};
use laws_of_runs::laws_of_access::steps_keep_access;
use laws_of_runs::laws_of_applications::fitted_units_make_an_application;
use laws_of_runs::laws_of_jobs::commits_keep_queues;
use laws_of_runs::{commits_are_serial, replays_hold_along_every_script, turns_end_serially};
use monitor_parts::session_table::lterm_of;
use service_ends::Turned;
use service_ends::core_state::MonitorParts;
use std::alloc::Global;
use std::marker::Model;

/// A monitor that runs. Contracts see its application, the state of the abstract monitor, and how many turns and commands
/// it has done. It is gone where memory runs out.
#[derive(Drop)]
pub struct Core {
    parts: Box<MonitorParts, Global>,
}

impl Model for Core {
    ghost use Rattle.monitor_core.specs.{CoreValue.{CoreValue, core_value}, Sound.{IsSound}};

    ghost Value = { CoreValue };

    ghost view = { λ c. core_value c.parts.value };

    ghost invariant = { λ c. IsSound c.parts.value };
}

impl Core {
    /// A warm or cold start from tables that suit the generation: nobody is signed on, all tasks are free, and every
    /// asynchronous service is ready, in the order of the numbers. Each open transaction is the replay of what it has kept.
    pub fn start(
        alloc: Global,
        generation: Generation,
        units: Units,
        tables: Tables,
    ) -> Result<Core, OutOfMemory>
        requires fit { IsFit generation units }
        requires suits { Suits generation tables }
        ensures application { IfOk result (λ core. core.application ≡ applied generation units) }
        ensures application_is { IfOk result (λ core. IsApplication core.application) }
        ensures state { IfOk result (λ core. core.state ≡ started core.application tables) }
        ensures facts { IfOk result (λ core. HasFacts core.application core.state) }
        ensures replays { IfOk result (λ core. AllReplay core.application core.state) }
        ensures limits { IfOk result (λ core. AreLimits core.application.generation.limits) }
        ensures steps { IfOk result (λ core. core.steps ≡ 0) }
    {
        fitted_units_make_an_application(&generation, &units);
        replays_hold_along_every_script();
        let _clock = tables.clock(); // for the proof
        let _limits = generation.max(); // for the proof
        Ok(Core {
            parts: parts_of(alloc, generation, units, tables)?,
        })
    }

    /// A command that is no RUN, TURN or RESTART, and names what the generation has. Fewer than 10^18 turns and commands
    /// were done. Its commit meets the laws on jobs and on services' rows, and one of a transaction is what its record, run
    /// in one go, makes of the durable tables. A dialogue service begins only where the rule of locks and keys allows it, and
    /// an input is denied just where that rule alone forbids it.
    pub fn apply(self, alloc: Global, command: &Command) -> Result<(Core, Acts), OutOfMemory>
        requires core_command { IsCoreCommand command.now }
        requires names { IsCommandOf self.application.generation command.now }
        requires steps { self.steps < 10 ^ 18 }
        ensures exact { IfOk result (λ done. Comes done.0.state done.1 (command_of self.application self.state command.now)) }
        ensures one { IfOk result (λ done. OneStep self done.0) }
        ensures facts { IfOk result (λ done. HasFacts done.0.application done.0.state) }
        ensures replays { IfOk result (λ done. AllReplay done.0.application done.0.state) }
        ensures serial { IfOk result (λ done. IsSerialStep self.application self.state (came_to done.0.state done.1 (command_of self.application self.state command.now).by)) }
        ensures queues { IfOk result (λ done. KeepsQueues self.application self.state (came_to done.0.state done.1 (command_of self.application self.state command.now).by)) }
        ensures access { IfOk result (λ done. KeepsAccess self.application self.state (came_to done.0.state done.1 (command_of self.application self.state command.now).by)) }
    {
        replays_hold_along_every_script();
        commits_are_serial();
        commits_keep_queues();
        steps_keep_access();
        let mut parts = self.parts;
        let acts = apply(&mut parts, alloc, command)?;
        Ok((Core { parts }, acts))
    }

    /// One turn of a task, from 1 to TASKS. Fewer than 10^18 turns and commands were done. It meets the same laws, that of
    /// access at a PEND FC, and a transaction that it ends comes to the tables and the ending of its record, run in one go on
    /// the tables before.
    pub fn turn(self, alloc: Global, task: u16) -> Result<(Core, Turned), OutOfMemory>
        requires task { IsWithin 1 self.application.generation.limits.tasks task }
        requires steps { self.steps < 10 ^ 18 }
        ensures exact { IfOk result (λ done. turned_to done.0.state done.1 ≡ turn_of self.application self.state task) }
        ensures one { IfOk result (λ done. OneStep self done.0) }
        ensures facts { IfOk result (λ done. HasFacts done.0.application done.0.state) }
        ensures replays { IfOk result (λ done. AllReplay done.0.application done.0.state) }
        ensures serial { IfOk result (λ done. IsSerialStep self.application self.state (turned_step (turned_to done.0.state done.1))) }
        ensures ends { IfOk result (λ done. SettlesAs self.application self.state.tables done.0.state.tables done.1.settled) }
        ensures queues { IfOk result (λ done. KeepsQueues self.application self.state (turned_step (turned_to done.0.state done.1))) }
        ensures access { IfOk result (λ done. KeepsAccess self.application self.state (turned_step (turned_to done.0.state done.1))) }
    {
        replays_hold_along_every_script();
        commits_are_serial();
        turns_end_serially();
        commits_keep_queues();
        steps_keep_access();
        let mut parts = self.parts;
        let did = turn(&mut parts, alloc, task)?;
        Ok((Core { parts }, did))
    }

    /// How many tasks hold no service in a row, from this one on, of at most so many that there are. It takes no memory.
    pub fn free_from(&self, task: u16, most: u16) -> u16
        requires task { 1 ≤ task }
        requires within { task + most ≤ self.now.application.generation.limits.tasks + 1 }
        ensures most { result ≤ most }
        ensures free { AreFree self.now.state task result }
    {
        free_from(&self.parts, task, most)
    }

    /// The turns of so many tasks in a row, from this one on, which are free where there is no work: they are counted. At
    /// most 10^18 turns and commands are done with them. It takes no memory.
    pub fn idle(self, task: u16, turns: u16) -> Core
        requires free { AreFree self.state task turns }
        requires none { HasNoWork self.application self.state }
        requires steps { self.steps + turns ≤ 10 ^ 18 }
        ensures exact { (i : ℕ) → i < turns → turn_of self.application self.state (task + i) ≡ unmoved result.state }
        ensures rested { Rested self result turns }
        ensures facts { HasFacts result.application result.state }
    {
        let mut parts = self.parts;
        count(&mut parts, turns);
        Core { parts }
    }

    /// TASKS of the generation. It takes no memory.
    pub fn tasks(&self) -> u16
        ensures { result ≡ self.now.application.generation.limits.tasks }
    {
        self.parts.generation.max().tasks
    }

    /// The tables, in order; what a stop leaves of them suits the generation. It takes no memory.
    pub fn tables(&self) -> &Tables
        ensures value { result.now ≡ self.now.state.tables }
        ensures order { IsSortedTables self.now.state.tables }
        ensures suits { Suits self.now.application.generation (durable self.now.application.generation self.now.state.tables) }
    {
        &self.parts.tables
    }

    /// All parts of the monitor, to look at: they stand for its application and its state. It takes no memory.
    pub fn parts(&self) -> &MonitorParts
        ensures { core_value result.now ≡ self.now }
    {
        &self.parts
    }

    /// The LTERM of this PTERM of the generation. It takes no memory.
    pub fn lterm_at(&self, pterm: &Name) -> Name
        requires pterm { IsTrue (is_pterm self.now.application.generation pterm.now) }
        ensures { result ≡ lterm_at self.now.application pterm.now }
    {
        lterm_of(&self.parts.generation, *pterm)
    }

    /// What an input at this PTERM of the generation means, as the monitor is now.
    pub fn use_of(&self, pterm: &Name, text: &[u8]) -> Result<Use, OutOfMemory>
        requires pterm { IsTrue (is_pterm self.now.application.generation pterm.now) }
        ensures { IfOk result (λ u. u ≡ use_now self.now.application self.now.state pterm.now text.now) }
    {
        use_of(&self.parts, pterm, text)
    }

    /// The generation and the units, which a start after a RESTART takes again. It takes no memory.
    pub fn into_application(self) -> (Generation, Units)
        ensures application { self.application ≡ applied result.0 result.1 }
        ensures fit { IsFit result.0 result.1 }
    {
        Box::into_inner(self.parts).into_application()
    }
}
