//! `explore`: the distinct outcomes of the orders of the tasks.
ghost use Rattle.std.specs.{Prelude.{◌≡◌, ◌≤◌, ◌^◌, ◌++◌, ℕ, List, [], true, false, cond, IfOk, IfSome, IsTrue, OnOk, sum_by}, List.{list_any}};
ghost use Rattle.application_types.specs.Fitted.{IsFit};
ghost use Rattle.laws_of_runs.specs.Applied.{applied};
ghost use Rattle.laws_of_states.specs.{Keeping.{IsScriptOf}, Suits.{Suits}};
ghost use Rattle.abstract_monitor.specs.Commands.{started};
ghost use Rattle.lab_orders.specs.{Exploring.{AreAll, AreDistinct, AreOrdered, AreOutcomes, AreToldSerial, IsTried}, Told.{AreMore}, Walking.{tries_of}};
ghost use Rattle.lab_turns.specs.Consoles.{printed};
ghost use Rattle.lab_cli.specs.{ExploredText.{TellsExplored}, Exploring.{do_differ, is_not_serial, is_spent, stands_still}, Invariants.{all_breaks_text, is_broken}, Places.{CanStart}};

use crate::invariants::{breaks_told, is_broken};
use crate::printing::print_explored;
use crate::reading::Place;
use crate::serial::is_not_serial;
use abstract_monitor::Command;
use application_read::Application;
use kd_base::OutOfMemory;
use kdcs_types::Tables;
use lab_orders::laws_of_orders::walks_are_scripts;
use lab_orders::{Explored, Outcome, explore};
use lab_scripts::Setting;
use lab_turns::LabError;
use lab_turns::lab_printing::Console;
use refusals::Status;
use std::alloc::Global;

/// How many turns and commands an order of a script may have.
const MOST_TRIES: u64 = 100_000_000_000_000;

/// How many tasks there are at most.
const MOST_TASKS: u64 = 65_535;

/// Orders differ, or one comes to a standstill, or a RUN of one is spent, or one is not serial, or one breaks a line of the
/// script.
const DIFFER: Status = Status { code: 1 };

// Tells how many orders are tried at most, beside what is printed.
fn tell_most<C: Console>(alloc: Global, console: &mut C, most: u64) -> Result<(), OutOfMemory>
    ensures { OnOk result (C.passes console.old [] console.new) }
{
    console.tell(format!(in alloc; "exploring at most {most} orders")?.as_str());
    Ok(())
}

fn stands_still(outcome: &Outcome) -> bool
    ensures { result ≡ stands_still outcome.now }
{
    outcome.signs.standstill
}

fn one_stands_still(outcomes: &[Outcome]) -> bool
    ensures { result ≡ list_any stands_still outcomes.now }
{
    outcomes.iter().any(|outcome| stands_still(outcome))
}

fn is_spent(outcome: &Outcome) -> bool
    ensures { result ≡ is_spent outcome.now }
{
    outcome.signs.spent
}

fn one_is_spent(outcomes: &[Outcome]) -> bool
    ensures { result ≡ list_any is_spent outcomes.now }
{
    outcomes.iter().any(|outcome| is_spent(outcome))
}

fn one_is_not_serial(outcomes: &[Outcome], all: bool) -> bool
    ensures { result ≡ list_any (λ outcome. is_not_serial outcomes.now outcome all) outcomes.now }
{
    outcomes
        .iter()
        .any(|outcome| is_not_serial(outcomes, outcome, all))
}

fn one_is_broken(script: &[u8], outcomes: &[Outcome]) -> bool
    ensures { result ≡ list_any (is_broken script.now) outcomes.now }
{
    outcomes.iter().any(|outcome| is_broken(script, outcome))
}

fn do_differ(script: &[u8], outcomes: &[Outcome], all: bool) -> bool
    ensures { result ≡ do_differ script.now outcomes.now all }
{
    outcomes.len() > 1
        || one_stands_still(outcomes)
        || one_is_spent(outcomes)
        || one_is_not_serial(outcomes, all)
        || one_is_broken(script, outcomes)
}

fn status_of(script: &[u8], outcomes: &[Outcome], all: bool) -> Status
    ensures { result.code ≡ cond (do_differ script.now outcomes.now all) 1 0 }
{
    if do_differ(script, outcomes, all) {
        DIFFER
    } else {
        Status::DONE
    }
}

// How many turns and commands a command comes to at most in an order, with a turn of each task where a RUN ends.
fn tries_of(command: &Command) -> Option<u64>
    ensures { IfSome result (λ tries. tries ≡ tries_of command.now) }
{
    match command {
        Command::Run(turns) => turns.checked_add(MOST_TASKS),
        Command::Input(_, _)
        | Command::Tick(_)
        | Command::Turn(_)
        | Command::Drop(_)
        | Command::Print(_)
        | Command::PrintLast(_)
        | Command::Restart => Some(1),
    }
}

// Whether the turns and commands of an order can be counted. Those of a script can.
fn can_be_counted(commands: &[Command]) -> bool
    ensures { IsTrue result → sum_by tries_of commands.now ≤ 10 ^ 14 }
{
    let mut sum: u64 = 0;
    for command in commands {
        let Some(tries) = tries_of(command) else {
            return false;
        };
        if tries > MOST_TRIES - sum {
            return false;
        }
        sum += tries;
    }
    true
}

// Explores a script from these tables, and prints what was found.
fn explore_script<C: Console>(
    alloc: Global,
    console: &mut C,
    setting: Setting,
    tables: &Tables,
    commands: &[Command],
    most: u64,
    number: u64,
) -> Result<Explored, LabError>
    requires fit { IsFit setting.generation setting.units }
    requires suits { Suits setting.generation tables.now }
    requires names { IsScriptOf (applied setting.generation setting.units) commands.now }
    ensures outcomes { IfOk result (λ e. AreOutcomes (applied setting.generation setting.units) tables.now commands.now e.outcomes) }
    ensures orders { IfOk result (λ e. AreOrdered (applied setting.generation setting.units) tables.now commands.now e.outcomes) }
    ensures all { IfOk result (λ e. e.all ≡ true → AreAll (applied setting.generation setting.units) tables.now commands.now e.outcomes) }
    ensures tried { IfOk result (λ e. IsTried (applied setting.generation setting.units) tables.now commands.now e) }
    ensures each { IfOk result (λ e. e.each ≡ true → e.all ≡ true) }
    ensures more { IfOk result (λ e. e.each ≡ false → AreMore (applied setting.generation setting.units) commands.now (started (applied setting.generation setting.units) tables.now) most) }
    ensures serial { IfOk result (λ e. e.all ≡ true → AreToldSerial (applied setting.generation setting.units) tables.now commands.now e.outcomes) }
    ensures distinct { IfOk result (λ e. AreDistinct e.outcomes) }
    ensures counted { IfOk result (λ e. sum_by (λ o. o.orders) e.outcomes ≡ e.orders) }
    ensures most { IfOk result (λ e. e.orders ≤ most) }
    ensures drawn { IfOk result (λ e. e.all ≡ false → e.orders ≡ most) }
    ensures printed { IfOk result (λ e. (text : List ℕ) × TellsExplored (applied setting.generation setting.units) (started (applied setting.generation setting.units) tables.now) setting.source commands.now number e text × C.passes console.old (printed text) console.new) }
{
    if !can_be_counted(commands) {
        return Err(LabError::Spent);
    }
    tell_most(alloc, console, most)?;
    let Setting {
        generation,
        units,
        source,
    } = setting;
    walks_are_scripts();
    let (generation, units, explored) = explore(
        alloc, generation, units, tables, commands, most, number,
    )?;
    let setting = Setting {
        generation,
        units,
        source,
    };
    print_explored(alloc, console, setting, tables, &explored, commands, number)?;
    Ok(explored)
}

/// Tries the orders of the tasks: all, where there are at most `most`; else at most as many that stand for all, if they are
/// found; and else as many, drawn from this number. It prints their distinct outcomes: of each how many orders come to it, the script of the shortest of them, what it sends, the
/// tables at its end, and of each but the first where its script parts from that of the first. The status is 1 where there
/// are two outcomes, where nobody can go on at the end of an order while a service waits, where a RUN of one ends while a
/// task's turn has an effect, where all orders are known and none with each transaction in one go leaves the tables of an
/// outcome, and where the tables of an outcome break a line of the script, which is told last.
pub fn explore_orders<C: Console>(
    alloc: Global,
    console: &mut C,
    place: Place,
    most: u64,
    number: u64,
) -> Result<(Status, Explored), LabError>
    requires { CanStart place }
    ensures outcomes { IfOk result (λ r. AreOutcomes (applied place.application.generation place.application.units) place.tables place.commands.items r.1.outcomes) }
    ensures orders { IfOk result (λ r. AreOrdered (applied place.application.generation place.application.units) place.tables place.commands.items r.1.outcomes) }
    ensures all { IfOk result (λ r. r.1.all ≡ true → AreAll (applied place.application.generation place.application.units) place.tables place.commands.items r.1.outcomes) }
    ensures tried { IfOk result (λ r. IsTried (applied place.application.generation place.application.units) place.tables place.commands.items r.1) }
    ensures each { IfOk result (λ r. r.1.each ≡ true → r.1.all ≡ true) }
    ensures more { IfOk result (λ r. r.1.each ≡ false → AreMore (applied place.application.generation place.application.units) place.commands.items (started (applied place.application.generation place.application.units) place.tables) most) }
    ensures serial { IfOk result (λ r. r.1.all ≡ true → AreToldSerial (applied place.application.generation place.application.units) place.tables place.commands.items r.1.outcomes) }
    ensures distinct { IfOk result (λ r. AreDistinct r.1.outcomes) }
    ensures counted { IfOk result (λ r. sum_by (λ o. o.orders) r.1.outcomes ≡ r.1.orders) }
    ensures most { IfOk result (λ r. r.1.orders ≤ most) }
    ensures drawn { IfOk result (λ r. r.1.all ≡ false → r.1.orders ≡ most) }
    ensures printed { IfOk result (λ r. (text : List ℕ) × TellsExplored (applied place.application.generation place.application.units) (started (applied place.application.generation place.application.units) place.tables) place.units place.commands.items number r.1 text × C.passes console.old (printed (text ++ all_breaks_text place.script.items 1 r.1.outcomes)) console.new) }
    ensures status { IfOk result (λ r. r.0.code ≡ cond (do_differ place.script.items r.1.outcomes r.1.all) 1 0) }
{
    let Place {
        application,
        tables,
        units: source,
        script,
        commands,
    } = place;
    let Application { generation, units } = application;
    let setting = Setting {
        generation,
        units,
        source,
    };
    let explored = explore_script(alloc, console, setting, &tables, &commands, most, number)?;
    let outcomes = explored.outcomes.as_slice();
    let told = breaks_told(alloc, &script, outcomes)?;
    console.put(told.as_slice())?;
    let status = status_of(&script, outcomes, explored.all);
    Ok((status, explored))
}
