//! Where two scripts part, and what each of them does there.
ghost use Rattle.std.specs.Prelude.{◌≡◌, ◌≤◌, ◌<◌, ◌^◌, ◌++◌, ◌↔◌, IfOk, IsTrue, List, OnOk, length, take, ℕ};
ghost use Rattle.application_types.specs.Fitted.{IsFit};
ghost use Rattle.abstract_monitor.specs.Commands.{started};
ghost use Rattle.laws_of_runs.specs.Applied.{applied};
ghost use Rattle.laws_of_states.specs.{Keeping.{IsScriptOf}, Suits.{Suits}};
ghost use Rattle.lab_turns.specs.Consoles.{printed};
ghost use Rattle.lab_scripts.specs.Parting.{GoOnAlike, IsSetAgain, PartAt, TellsNext, TellsParting, indented, parting_text};

use crate::kept::{Kept, Unheard};
use crate::same_command::same_command;
use abstract_monitor::Command;
use application_types::generation::Generation;
use application_types::units::Units;
use kd_base::{Bytes, OutOfMemory};
use kdcs_types::Tables;
use lab_turns::lab_printing::{Console, Printer, Source, put_number};
use lab_turns::{Bench, LabError};
use std::alloc::Global;
use texts::next_line;

/// What scripts are performed with: an application, and the text of its units.
#[derive(Drop)]
pub struct Setting {
    pub generation: Generation,
    pub units: Units,
    pub source: Source,
}

// Whether both go on with the same command behind so many.
fn go_on_alike(one: &[Command], other: &[Command], at: usize) -> bool
    ensures { IsTrue result ↔ GoOnAlike at one.now other.now }
{
    match (one.get(at), other.get(at)) {
        (Some(command), Some(its)) => same_command(command, its),
        (None, _) | (_, None) => false,
    }
}

// With how many commands both begin alike.
fn parting_of(one: &[Command], other: &[Command]) -> usize
    ensures { PartAt result one.now other.now }
{
    let mut at = 0;
    while go_on_alike(one, other, at) {
        at += 1;
    }
    at
}

// The first of these commands, if there is one.
fn first_of(commands: &[Command]) -> &[Command]
    ensures { result.now ≡ take 1 commands.now }
{
    if commands.is_empty() {
        return commands;
    }
    let (first, _) = commands.split_at(1);
    first
}

// What a trace prints of the command behind so many, which are performed first.
fn next_told(
    alloc: Global,
    setting: Setting,
    tables: &Tables,
    commands: &[Command],
    at: usize,
) -> Result<(Setting, Kept), LabError>
    requires fit { IsFit setting.generation setting.units }
    requires suits { Suits setting.generation tables.now }
    requires names { IsScriptOf (applied setting.generation setting.units) commands.now }
    requires within { at ≤ length commands.now }
    ensures again { IfOk result (λ r. IsSetAgain setting r.0) }
    ensures told { IfOk result (λ r. TellsNext (applied setting.generation setting.units) (started (applied setting.generation setting.units) tables.now) setting.source at commands.now r.1) }
{
    let Setting {
        generation,
        units,
        source,
    } = setting;
    let bench = Bench::start(alloc, generation, units, tables.clone()?)?;
    let (before, rest) = commands.split_at(at);
    let bench = bench.perform_all(alloc, &mut Unheard, before)?;
    let mut printer = Printer {
        alloc,
        console: Kept::new(alloc),
        units: source,
        traces: true,
    };
    let bench = bench.perform_all(alloc, &mut printer, first_of(rest))?;
    let (generation, units) = bench.into_application();
    let Printer {
        console,
        units: source,
        ..
    } = printer;
    let setting = Setting {
        generation,
        units,
        source,
    };
    Ok((setting, console))
}

/// Puts the lines of a text, each after two blanks.
pub fn put_indented(out: &mut Bytes, text: &[u8]) -> Result<(), OutOfMemory>
    ensures { OnOk result (out.new ≡ out.old ++ indented text.now) }
{
    let mut rest = text;
    while !rest.is_empty() {
        let (line, after) = next_line(rest);
        out.append(b"  ")?;
        out.append(line)?;
        out.push(b'\n')?;
        rest = after;
    }
    Ok(())
}

fn parting_text(
    alloc: Global,
    from: u64,
    at: usize,
    text: &[u8],
    its: &[u8],
) -> Result<Bytes, OutOfMemory>
    requires { at < 2 ^ 63 }
    ensures { IfOk result (λ told. told ≡ parting_text from at text.now its.now) }
{
    let mut out = Bytes::from_slice(alloc, b"DIFFERS FROM ")?;
    put_number(alloc, &mut out, from)?;
    out.append(b" AT ")?;
    put_number(alloc, &mut out, at as u64 + 1)?;
    out.push(b'\n')?;
    put_indented(&mut out, text)?;
    put_indented(&mut out, its)?;
    Ok(out)
}

// Where they part, and what each does there.
fn parting_told(
    alloc: Global,
    setting: Setting,
    tables: &Tables,
    from: u64,
    one: &[Command],
    other: &[Command],
) -> Result<(Setting, Bytes), LabError>
    requires fit { IsFit setting.generation setting.units }
    requires suits { Suits setting.generation tables.now }
    requires names { IsScriptOf (applied setting.generation setting.units) one.now }
    requires names_too { IsScriptOf (applied setting.generation setting.units) other.now }
    ensures again { IfOk result (λ r. IsSetAgain setting r.0) }
    ensures told { IfOk result (λ r. TellsParting (applied setting.generation setting.units) (started (applied setting.generation setting.units) tables.now) setting.source from one.now other.now r.1) }
{
    let at = parting_of(one, other);
    let (setting, text) = next_told(alloc, setting, tables, one, at)?;
    let (setting, its) = next_told(alloc, setting, tables, other, at)?;
    let told = parting_text(alloc, from, at, text.as_slice(), its.as_slice())?;
    Ok((setting, told))
}

/// Tells where a script parts from another one, which has this number: behind how many commands that both begin with, and
/// what a trace prints of the next command of that one, and of its own. Each is performed from these tables on.
pub fn tell_parting<C: Console>(
    alloc: Global,
    console: &mut C,
    setting: Setting,
    tables: &Tables,
    from: u64,
    one: &[Command],
    other: &[Command],
) -> Result<Setting, LabError>
    requires fit { IsFit setting.generation setting.units }
    requires suits { Suits setting.generation tables.now }
    requires names { IsScriptOf (applied setting.generation setting.units) one.now }
    requires names_too { IsScriptOf (applied setting.generation setting.units) other.now }
    ensures again { IfOk result (λ next. IsSetAgain setting next) }
    ensures told { OnOk result ((told : List ℕ) × TellsParting (applied setting.generation setting.units) (started (applied setting.generation setting.units) tables.now) setting.source from one.now other.now told × C.passes console.old (printed told) console.new) }
{
    let (setting, told) = parting_told(alloc, setting, tables, from, one, other)?;
    console.put(told.as_slice())?;
    Ok(setting)
}
