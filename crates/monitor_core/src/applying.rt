//! One command.
ghost use Rattle.std.specs.Prelude.{◌≡◌, ◌+◌, ◌<◌, ◌^◌, IfOk, IsTrue, OnOk};
ghost use Rattle.abstract_monitor.specs.{CommandsOf.{is_pterm, IsCommandOf}, Commands.{command_of}};
ghost use Rattle.service_ends.specs.{Whole.{app_of, IsWhole}, Standing.{IsIndexed, SameApplication, state_of}};
ghost use Rattle.monitor_core.specs.{Commanding.{printed, Comes, IsCoreCommand}, Counted.{IsAhead}};

use crate::clock::tick;
use crate::input::input;
use crate::showing::{Shown, show_again, show_next};
use crate::signing::drop_terminal;
use abstract_monitor::Command;
use kd_base::{Name, OutOfMemory};
use kdcs_types::Acts;
use laws_of_states::laws_of_places::states_stay_consistent;
use laws_of_states::laws_of_tables::states_stay_sound;
use monitor_parts::session_table::lterm_of;
use service_ends::core_state::MonitorParts;
use std::alloc::Global;

// PRINT and PRINT LAST: the LTERM of the printer takes its next message, or prints the last one again.
#[tactic(auto, unfolding(abstract_monitor::specs::Commands::command_of))]
fn print(
    parts: &mut MonitorParts,
    alloc: Global,
    pterm: &Name,
    again: bool,
) -> Result<Acts, OutOfMemory>
    requires whole { IsWhole parts.old }
    requires pterm { IsTrue (is_pterm parts.old.generation pterm.now) }
    ensures exact { IfOk result (λ acts. Comes (state_of parts.new) acts (command_of (app_of parts.old) (state_of parts.old) (printed again pterm.now))) }
    ensures indexed { OnOk result (IsIndexed parts.new) }
    ensures same { OnOk result (SameApplication parts.old parts.new) }
{
    let lterm = lterm_of(&parts.generation, *pterm);
    if again {
        return show_again(parts, alloc, Shown::Printer, pterm, &lterm);
    }
    show_next(parts, alloc, Shown::Printer, pterm, &lterm)
}

// The step of a command that was counted.
#[tactic(auto, unfolding(abstract_monitor::specs::Commands::command_of))]
fn do_command(
    parts: &mut MonitorParts,
    alloc: Global,
    command: &Command,
) -> Result<Acts, OutOfMemory>
    requires whole { IsWhole parts.old }
    requires core_command { IsCoreCommand command.now }
    requires names { IsCommandOf parts.old.generation command.now }
    requires ahead { IsAhead parts.old }
    requires steps { parts.old.steps < 2 ^ 64 }
    ensures exact { IfOk result (λ acts. Comes (state_of parts.new) acts (command_of (app_of parts.old) (state_of parts.old) command.now)) }
    ensures indexed { OnOk result (IsIndexed parts.new) }
    ensures same { OnOk result (SameApplication parts.old parts.new) }
{
    match command {
        Command::Input(pterm, text) => input(parts, alloc, pterm, text.as_slice()),
        Command::Tick(ticks) => tick(parts, alloc, *ticks),
        Command::Drop(pterm) => drop_terminal(parts, alloc, pterm),
        Command::Print(pterm) => print(parts, alloc, pterm, false),
        Command::PrintLast(pterm) => print(parts, alloc, pterm, true),
        Command::Run(_) | Command::Turn(_) | Command::Restart => unreachable!(),
    }
}

/// A command that is no RUN, TURN or RESTART, and names what the generation has. Fewer than 2^64 - 1 turns and commands
/// were done. When memory runs out, the parts are of no use any more.
#[tactic(auto, using(crate::specs::CountedLaws::one_counted, crate::specs::CountedLaws::one_ahead))]
pub(crate) fn apply(
    parts: &mut MonitorParts,
    alloc: Global,
    command: &Command,
) -> Result<Acts, OutOfMemory>
    requires whole { IsWhole parts.old }
    requires core_command { IsCoreCommand command.now }
    requires names { IsCommandOf parts.old.generation command.now }
    requires steps { parts.old.steps + 1 < 2 ^ 64 }
    ensures exact { IfOk result (λ acts. Comes (state_of parts.new) acts (command_of (app_of parts.old) (state_of parts.old) command.now)) }
    ensures whole { OnOk result (IsWhole parts.new) }
    ensures generation { OnOk result (parts.new.generation ≡ parts.old.generation) }
    ensures units { OnOk result (parts.new.units ≡ parts.old.units) }
    ensures steps { OnOk result (parts.new.steps ≡ parts.old.steps + 1) }
{
    states_stay_consistent();
    states_stay_sound();
    parts.steps += 1;
    do_command(parts, alloc, command)
}
