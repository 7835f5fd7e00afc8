//! The commands of a script.
ghost use Rattle.std.specs.Prelude.{◌≡◌, ◌≤◌, ◌+◌, ◌^◌, IfOk, IfErr, OnOk, length, sum_by};
ghost use Rattle.abstract_monitor.specs.{CommandsOf.{IsCommandOf}, Commands.{steps_of}, Trace.{history}, declared.command.Command.TheVariants.{Restart}};
ghost use Rattle.laws_of_states.specs.Keeping.{IsScriptOf};
ghost use Rattle.monitor_core.specs.CoreSteps.{turns_of};
ghost use Rattle.monitor_core.specs.Sinks.{Stopped};

use crate::Core;
use crate::script_run::sink::Sink;
use crate::script_run::turns::run_turns;
use abstract_monitor::Command;
use std::alloc::Global;

/// One command of a script.
pub fn do_command<S: Sink>(
    alloc: Global,
    sink: &mut S,
    core: Core,
    command: &Command,
) -> Result<Core, S::Error>
    requires ready { S.ready sink.old core }
    requires names { IsCommandOf core.application.generation command.now }
    requires steps { core.steps + turns_of command.now ≤ 10 ^ 18 }
    ensures took { IfOk result (λ next. S.took sink.old core (steps_of core.application core.state command.now) sink.new next) }
    ensures steps { IfOk result (λ next. next.steps ≤ core.steps + turns_of command.now) }
    ensures failed { IfErr result (λ e. S.failed sink.old core (steps_of core.application core.state command.now) e sink.new) }
    ensures unopened { IfErr result (λ e. command.now ≡ Restart → S.unopened sink.old core e sink.new) }
{
    match command {
        Command::Run(turns) => run_turns(alloc, sink, core, *turns),
        Command::Turn(task) => {
            let (next, _) = sink.turn(alloc, core, *task)?;
            Ok(next)
        }
        Command::Restart => sink.restart(alloc, core),
        Command::Input(_, _)
        | Command::Tick(_)
        | Command::Drop(_)
        | Command::Print(_)
        | Command::PrintLast(_) => sink.apply(alloc, core, command),
    }
}

/// The commands of a script in their order. What is open at the end of the script is given up. Afterwards `done` is how
/// many commands were done, whatever the answer.
pub fn run_script<S: Sink>(
    alloc: Global,
    sink: &mut S,
    mut core: Core,
    commands: &[Command],
    done: &mut usize,
) -> Result<Core, S::Error>
    requires ready { S.ready sink.old core }
    requires names { IsScriptOf core.application commands.now }
    requires steps { core.steps + sum_by turns_of commands.now ≤ 10 ^ 18 }
    ensures took { IfOk result (λ next. S.took sink.old core (history core.application core.state commands.now) sink.new next) }
    ensures failed { IfErr result (λ e. S.failed sink.old core (history core.application core.state commands.now) e sink.new) }
    ensures stopped { IfErr result (λ e. Stopped S.took S.failed S.unopened sink.old core commands.now done.new e sink.new) }
    ensures all { OnOk result (done.new ≡ length commands.now) }
{
    *done = 0;
    for command in commands {
        core = do_command(alloc, sink, core, command)?;
        *done += 1;
    }
    Ok(core)
}
