//! The commands of a line that is one of a script.
ghost use Rattle.std.specs.{Prelude.{◌≡◌, ◌≢◌, ◌&&◌, ◌++◌, Ok, Err, IfOk, IfErr}, List.{All, list_any}};
ghost use Rattle.abstract_monitor.specs.CommandsOf.{IsCommandOf};
ghost use Rattle.script_read.specs.declared.fault.ScriptFault.TheVariants.{Memory};
ghost use Rattle.typed_lines.specs.Commands.{commands_in, is_input, run_behind, with_turns};

use abstract_monitor::Command;
use application_types::generation::Generation;
use kd_base::OutOfMemory;
use script_read::{ScriptFault, read_script};
use std::alloc::Global;

/// How many turns the tasks have at most after an input.
const TURNS: u64 = 1_000_000;

fn is_input(command: &Command) -> bool
    ensures { result ≡ is_input command.now }
{
    matches!(command, Command::Input(_, _))
}

fn has_input(commands: &[Command]) -> bool
    ensures { result ≡ list_any is_input commands.now }
{
    commands.iter().any(|command| is_input(command))
}

// After an input the tasks work, unless they are not to.
fn with_turns(auto: bool, mut commands: Vec<Command>) -> Result<Vec<Command>, OutOfMemory>
    ensures { IfOk result (λ all. all.items ≡ with_turns auto commands.items) }
{
    if auto && has_input(&commands) {
        commands.push(Command::Run(TURNS))?;
    }
    Ok(commands)
}

/// The commands of a typed line, or its fault: those that a script of this line alone says, and after an input, where the
/// tasks work by themselves, a RUN of 1,000,000 turns. Their PTERMs and tasks are those of the generation.
pub fn commands_typed(
    alloc: Global,
    generation: &Generation,
    auto: bool,
    line: &[u8],
) -> Result<Vec<Command>, ScriptFault>
    ensures found { IfOk result (λ commands. commands_in generation.now auto line.now ≡ Ok commands.items) }
    ensures refused { IfErr result (λ fault. fault ≢ Memory → commands_in generation.now auto line.now ≡ Err fault) }
    ensures names { IfOk result (λ commands. All (IsCommandOf generation.now) commands.items) }
{
    let said = read_script(alloc, generation, line)?;
    Ok(with_turns(auto, said)?)
}
