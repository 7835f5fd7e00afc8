//! The script that an order stands for: TURN commands in place of RUNs.
ghost use Rattle.std.specs.Prelude.{◌≡◌, ◌++◌, ◌∷◌, ℕ, List, IfOk};
ghost use Rattle.abstract_monitor.specs.declared.command.Command.{Command};
ghost use Rattle.lab_walks.specs.Orders.{turned_run, turned_script};

use abstract_monitor::Command;
use kd_base::{Bytes, OutOfMemory};
use std::alloc::Global;

fn copy_of(alloc: Global, command: &Command) -> Result<Command, OutOfMemory>
    ensures { IfOk result (λ copy. copy ≡ command.now) }
{
    match command {
        Command::Input(pterm, text) => {
            let text = Bytes::from_slice(alloc, text.as_slice())?;
            Ok(Command::Input(*pterm, text))
        }
        Command::Tick(ticks) => Ok(Command::Tick(*ticks)),
        Command::Run(turns) => Ok(Command::Run(*turns)),
        Command::Turn(task) => Ok(Command::Turn(*task)),
        Command::Drop(pterm) => Ok(Command::Drop(*pterm)),
        Command::Print(pterm) => Ok(Command::Print(*pterm)),
        Command::PrintLast(pterm) => Ok(Command::PrintLast(*pterm)),
        Command::Restart => Ok(Command::Restart),
    }
}

// The TURN commands of a RUN of at most so many turns. What is left of the order is behind it.
fn put_run<'a>(
    script: &mut Vec<Command>,
    turns: u64,
    order: &'a [u16],
) -> Result<&'a [u16], OutOfMemory>
    ensures { IfOk result (λ rest. (follows : List ℕ → List Command) → script.new.items ++ follows rest.now ≡ script.old.items ++ turned_run turns follows order.now) }
{
    let mut rest = order;
    for _turn in 0..turns {
        let Some((task, behind)) = rest.split_first() else {
            return Ok(rest);
        };
        rest = behind;
        if *task == 0 {
            return Ok(rest);
        }
        script.push(Command::Turn(*task))?;
    }
    Ok(rest)
}

// A command, or TURN commands. What is left of the order is behind it.
fn put_command<'a>(
    alloc: Global,
    script: &mut Vec<Command>,
    command: &Command,
    order: &'a [u16],
) -> Result<&'a [u16], OutOfMemory>
    ensures { IfOk result (λ rest. (cs : List Command) → script.new.items ++ turned_script cs rest.now ≡ script.old.items ++ turned_script (command.now ∷ cs) order.now) }
{
    if let Command::Run(turns) = command {
        return put_run(script, *turns, order);
    }
    script.push(copy_of(alloc, command)?)?;
    Ok(order)
}

/// The script that an order of these commands stands for: each RUN is the TURN commands of its turns.
pub fn turned(
    alloc: Global,
    commands: &[Command],
    order: &[u16],
) -> Result<Vec<Command>, OutOfMemory>
    ensures { IfOk result (λ script. script.items ≡ turned_script commands.now order.now) }
{
    let mut script = Vec::new(alloc);
    let mut rest = order;
    for command in commands {
        rest = put_command(alloc, &mut script, command, rest)?;
    }
    Ok(script)
}
