//! What a script demands of the tables at the end of each order.
ghost use Rattle.std.specs.{Prelude.{◌≡◌, ◌++◌, IfOk, OnOk}, List.{list_any}};
ghost use Rattle.lab_cli.specs.Invariants.{all_breaks_text, break_by, break_text, breaks, breaks_by, breaks_text, has_line, is_broken};

use kd_base::{Bytes, OutOfMemory};
use lab_orders::Outcome;
use lab_turns::lab_printing::put_number;
use std::alloc::Global;
use texts::next_line;

fn has_line(text: &[u8], wanted: &[u8]) -> bool
    ensures { result ≡ has_line text.now wanted.now }
{
    let mut rest = text;
    while !rest.is_empty() {
        let (line, after) = next_line(rest);
        if line == wanted {
            return true;
        }
        rest = after;
    }
    false
}

// The tables lack the line behind `*= `, or have the one behind `*! `.
#[tactic(auto, using(script_read::specs::SameLaws::same_texts))]
fn breaks(tables: &[u8], demand: &[u8]) -> bool
    ensures { result ≡ breaks tables.now demand.now }
{
    if let Some(wanted) = demand.strip_prefix(b"*= ") {
        return !has_line(tables, wanted);
    }
    if let Some(unwanted) = demand.strip_prefix(b"*! ") {
        return has_line(tables, unwanted);
    }
    false
}

/// The outcome breaks a line of the script.
pub(crate) fn is_broken(script: &[u8], outcome: &Outcome) -> bool
    ensures { result ≡ is_broken script.now outcome.now }
{
    let mut rest = script;
    while !rest.is_empty() {
        let (line, after) = next_line(rest);
        if breaks(outcome.tables.as_slice(), line) {
            return true;
        }
        rest = after;
    }
    false
}

// Tells of a line of the script, where it is broken.
fn put_break(
    alloc: Global,
    out: &mut Bytes,
    number: u64,
    demand: &[u8],
    broken: bool,
) -> Result<(), OutOfMemory>
    ensures { OnOk result (out.new ≡ out.old ++ break_by number demand.now broken) }
{
    if !broken {
        return Ok(());
    }
    out.append(b"BREAKS ")?;
    put_number(alloc, out, number)?;
    out.append(b" ")?;
    out.append(demand)?;
    out.push(b'\n')
}

// Tells of each line of the script that the outcome breaks.
fn put_breaks(
    alloc: Global,
    out: &mut Bytes,
    script: &[u8],
    number: u64,
    outcome: &Outcome,
) -> Result<(), OutOfMemory>
    ensures { OnOk result (out.new ≡ out.old ++ breaks_text script.now number outcome.now) }
{
    let mut rest = script;
    while !rest.is_empty() {
        let (line, after) = next_line(rest);
        let broken = breaks(outcome.tables.as_slice(), line);
        put_break(alloc, out, number, line, broken)?;
        rest = after;
    }
    Ok(())
}

/// Which lines of the script the outcomes break.
pub(crate) fn breaks_told(
    alloc: Global,
    script: &[u8],
    outcomes: &[Outcome],
) -> Result<Bytes, OutOfMemory>
    ensures { IfOk result (λ text. text ≡ all_breaks_text script.now 1 outcomes.now) }
{
    let mut out = Bytes::new(alloc);
    let mut number: u64 = 1;
    for outcome in outcomes {
        put_breaks(alloc, &mut out, script, number, outcome)?;
        number += 1;
    }
    Ok(out)
}
