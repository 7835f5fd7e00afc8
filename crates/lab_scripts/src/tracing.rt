//! The script, turn by turn.
ghost use Rattle.std.specs.Prelude.{List, OnOk};
ghost use Rattle.laws_of_states.specs.Keeping.{IsScriptOf};
ghost use Rattle.lab_turns.specs.{Heard.{Heard, TellsScript}, Printing.{Prints}};

use abstract_monitor::Command;
use lab_turns::lab_printing::{Console, Printer};
use lab_turns::{Bench, LabError};
use std::alloc::Global;

/// Performs the commands of a script in their order. What is printed is the text of all that is heard of them.
pub fn trace<C: Console>(
    alloc: Global,
    bench: Bench,
    printer: &mut Printer<C>,
    commands: &[Command],
) -> Result<(), LabError>
    requires { IsScriptOf bench.application commands.now }
    ensures { OnOk result ((tale : List Heard) × TellsScript bench.application bench.state commands.now tale × Prints C.passes tale printer.old.traces printer.old.units printer.old.console printer.new.traces printer.new.units printer.new.console) }
{
    bench.perform_all(alloc, printer, commands)?;
    Ok(())
}
