//! What is printed of an exploration.
ghost use Rattle.std.specs.Prelude.{◌≡◌, ◌++◌, ℕ, List, IfOk, OnOk, codes, decimal, flat_map};
ghost use Rattle.application_types.specs.Fitted.{IsFit};
ghost use Rattle.abstract_monitor.specs.Commands.{started};
ghost use Rattle.laws_of_runs.specs.Applied.{applied};
ghost use Rattle.laws_of_states.specs.Suits.{Suits};
ghost use Rattle.lab_turns.specs.Consoles.{printed};
ghost use Rattle.lab_cli.specs.{ExploredText.{AreScripts, TellsExplored, TellsOutcomes, chosen_text, command_below, orders_line, outcome_line, outcome_text, parts_text, sign_text, signs_text, some_text}, Exploring.{is_not_serial}};

use crate::serial::is_not_serial;
use abstract_monitor::Command;
use kd_base::{Bytes, OutOfMemory};
use kdcs_types::Tables;
use lab_orders::{Explored, Outcome, Signs, turned};
use lab_scripts::{Setting, put_indented, tell_parting};
use lab_turns::LabError;
use lab_turns::lab_printing::{Console, put_command, put_number};
use std::alloc::Global;

// The word of a sign, where the outcome has it.
fn put_sign(out: &mut Bytes, word: &[u8], has: bool) -> Result<(), OutOfMemory>
    ensures { OnOk result (out.new ≡ out.old ++ sign_text word.now has) }
{
    if has { out.append(word) } else { Ok(()) }
}

// The signs of an outcome, a word each.
fn put_signs(out: &mut Bytes, signs: Signs) -> Result<(), OutOfMemory>
    ensures { OnOk result (out.new ≡ out.old ++ signs_text signs) }
{
    put_sign(out, b" K04", signs.k04)?;
    put_sign(out, b" K05", signs.k05)?;
    put_sign(out, b" DUMP", signs.dump)?;
    put_sign(out, b" STANDSTILL", signs.standstill)?;
    put_sign(out, b" SPENT", signs.spent)
}

// How many orders come to the outcome, its signs, and whether it is not serial.
fn put_outcome_line(
    alloc: Global,
    out: &mut Bytes,
    number: u64,
    not_serial: bool,
    outcome: &Outcome,
) -> Result<(), OutOfMemory>
    ensures { OnOk result (out.new ≡ out.old ++ outcome_line number not_serial outcome.now) }
{
    out.append(b"OUTCOME ")?;
    put_number(alloc, out, number)?;
    out.append(b" ORDERS ")?;
    put_number(alloc, out, outcome.orders)?;
    put_signs(out, outcome.signs)?;
    put_sign(out, b" NOT SERIAL", not_serial)?;
    out.push(b'\n')
}

fn put_command_below(alloc: Global, out: &mut Bytes, command: &Command) -> Result<(), OutOfMemory>
    ensures { OnOk result (out.new ≡ out.old ++ command_below command.now) }
{
    out.append(b"  ")?;
    put_command(alloc, out, command)?;
    out.push(b'\n')
}

// The commands of a script, each in a line after two blanks.
fn put_script(alloc: Global, out: &mut Bytes, commands: &[Command]) -> Result<(), OutOfMemory>
    ensures { OnOk result (out.new ≡ out.old ++ flat_map command_below commands.now) }
{
    for command in commands {
        put_command_below(alloc, out, command)?;
    }
    Ok(())
}

// The script of the order that an outcome shows, what it sends, and the tables at its end.
fn put_parts(
    alloc: Global,
    out: &mut Bytes,
    outcome: &Outcome,
    commands: &[Command],
) -> Result<(), OutOfMemory>
    ensures { OnOk result (out.new ≡ out.old ++ parts_text commands.now outcome.now) }
{
    let script = turned(alloc, commands, outcome.turns.as_slice())?;
    out.append(b"SCRIPT\n")?;
    put_script(alloc, out, &script)?;
    out.append(b"SENT\n")?;
    put_indented(out, outcome.sent.as_slice())?;
    out.append(b"TABLES\n")?;
    put_indented(out, outcome.tables.as_slice())
}

fn outcome_text(
    alloc: Global,
    number: u64,
    not_serial: bool,
    outcome: &Outcome,
    commands: &[Command],
) -> Result<Bytes, OutOfMemory>
    ensures { IfOk result (λ text. text ≡ outcome_text commands.now number not_serial outcome.now) }
{
    let mut out = Bytes::new(alloc);
    put_outcome_line(alloc, &mut out, number, not_serial, outcome)?;
    put_parts(alloc, &mut out, outcome, commands)?;
    Ok(out)
}

fn put_drawn(alloc: Global, out: &mut Bytes, number: u64) -> Result<(), OutOfMemory>
    ensures { OnOk result (out.new ≡ out.old ++ codes " DRAWN FROM " ++ decimal number) }
{
    out.append(b" DRAWN FROM ")?;
    put_number(alloc, out, number)
}

// Which orders were tried, where these are not all.
fn put_some(alloc: Global, out: &mut Bytes, all: bool, number: u64) -> Result<(), OutOfMemory>
    ensures { OnOk result (out.new ≡ out.old ++ some_text all number) }
{
    if all {
        out.append(b" FOR ALL")
    } else {
        put_drawn(alloc, out, number)
    }
}

// Which orders were tried.
fn put_chosen(
    alloc: Global,
    out: &mut Bytes,
    each: bool,
    all: bool,
    number: u64,
) -> Result<(), OutOfMemory>
    ensures { OnOk result (out.new ≡ out.old ++ chosen_text each all number) }
{
    if each {
        out.append(b" ALL")
    } else {
        put_some(alloc, out, all, number)
    }
}

// How many orders were tried, and which.
fn orders_line(alloc: Global, explored: &Explored, number: u64) -> Result<Bytes, OutOfMemory>
    ensures { IfOk result (λ text. text ≡ orders_line number explored.now) }
{
    let mut out = Bytes::from_slice(alloc, b"ORDERS ")?;
    put_number(alloc, &mut out, explored.orders)?;
    put_chosen(alloc, &mut out, explored.each, explored.all, number)?;
    out.append(b" OUTCOMES ")?;
    put_number(alloc, &mut out, explored.outcomes.len() as u64)?;
    out.push(b'\n')?;
    Ok(out)
}

// Prints an outcome of these, which has this number.
fn print_outcome<C: Console>(
    alloc: Global,
    console: &mut C,
    explored: &Explored,
    commands: &[Command],
    number: u64,
    outcome: &Outcome,
) -> Result<(), LabError>
    ensures { OnOk result (C.passes console.old (printed (outcome_text commands.now number (is_not_serial explored.now.outcomes outcome.now explored.now.all) outcome.now)) console.new) }
{
    let not_serial = is_not_serial(explored.outcomes.as_slice(), outcome, explored.all);
    let text = outcome_text(alloc, number, not_serial, outcome, commands)?;
    console.put(text.as_slice())
}

// Prints the outcomes, one after another, and of each but the first where its script parts from that of the first.
fn print_outcomes<C: Console>(
    alloc: Global,
    console: &mut C,
    mut setting: Setting,
    tables: &Tables,
    explored: &Explored,
    commands: &[Command],
) -> Result<(), LabError>
    requires fit { IsFit setting.generation setting.units }
    requires suits { Suits setting.generation tables.now }
    requires names { AreScripts (applied setting.generation setting.units) commands.now explored.now.outcomes }
    ensures { OnOk result ((text : List ℕ) × TellsOutcomes (applied setting.generation setting.units) (started (applied setting.generation setting.units) tables.now) setting.source commands.now explored.now explored.now.outcomes text × C.passes console.old (printed text) console.new) }
{
    let Some((first, others)) = explored.outcomes.as_slice().split_first() else {
        return Ok(());
    };
    print_outcome(alloc, console, explored, commands, 1, first)?;
    let one = turned(alloc, commands, first.turns.as_slice())?;
    let mut number: u64 = 2;
    for outcome in others {
        print_outcome(alloc, console, explored, commands, number, outcome)?;
        let other = turned(alloc, commands, outcome.turns.as_slice())?;
        setting = tell_parting(alloc, console, setting, tables, 1, &one, &other)?;
        number += 1;
    }
    Ok(())
}

/// Prints the outcomes of these commands, from these tables, the shortest order of each, and how many orders were tried;
/// behind each but the first where its script parts from that of the first. Those that are drawn are drawn from this number.
pub(crate) fn print_explored<C: Console>(
    alloc: Global,
    console: &mut C,
    setting: Setting,
    tables: &Tables,
    explored: &Explored,
    commands: &[Command],
    number: u64,
) -> Result<(), LabError>
    requires fit { IsFit setting.generation setting.units }
    requires suits { Suits setting.generation tables.now }
    requires names { AreScripts (applied setting.generation setting.units) commands.now explored.now.outcomes }
    ensures { OnOk result ((text : List ℕ) × TellsExplored (applied setting.generation setting.units) (started (applied setting.generation setting.units) tables.now) setting.source commands.now number explored.now text × C.passes console.old (printed text) console.new) }
{
    let line = orders_line(alloc, explored, number)?;
    console.put(line.as_slice())?;
    print_outcomes(alloc, console, setting, tables, explored, commands)
}
