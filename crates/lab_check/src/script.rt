//! Why a script is refused: every line by itself.
ghost use Rattle.std.specs.Prelude.{OnOk};
ghost use Rattle.lab_check.specs.Verdicts.{AddsOfScript};

use crate::lab_findings::{Details, Refusals, TextName};
use crate::unit_details::command_detail;
use application_types::generation::Generation;
use kd_base::OutOfMemory;
use script_read::{ScriptFault, read_script};
use std::alloc::Global;
use texts::next_line;

// The fault that a text has, if it has one.
fn fault_of(
    alloc: Global,
    generation: &Generation,
    text: &[u8],
) -> Result<Option<ScriptFault>, OutOfMemory> {
    match read_script(alloc, generation, text) {
        Ok(_) => Ok(None),
        Err(ScriptFault::Memory) => Err(OutOfMemory),
        Err(fault) => Ok(Some(fault)),
    }
}

// The name by which a fault is printed.
fn name_of(fault: ScriptFault) -> &'static str {
    match fault {
        ScriptFault::BadLine(_) => "BadLine",
        ScriptFault::OutOfRange(_) => "OutOfRange",
        ScriptFault::TooLong => "TooLong",
        ScriptFault::Memory => "Memory",
    }
}

// Tells why a line, which has this number, is refused.
#[tactic(auto, using(crate::proofs::Later::later_script))]
fn line_refusal(
    alloc: Global,
    generation: &Generation,
    line: &[u8],
    number: u32,
    refused: &mut Refusals,
    details: &mut Details,
) -> Result<(), OutOfMemory>
    ensures { OnOk result (AddsOfScript refused.old.items.items refused.new.items.items) }
{
    let Some(fault) = fault_of(alloc, generation, line)? else {
        return Ok(());
    };
    refused.refuse(TextName::Script, number, name_of(fault))?;
    let words = command_detail(alloc, line)?;
    details.add(TextName::Script, number, name_of(fault), words)
}

// Tells why the lines of a script are refused.
fn line_refusals(
    alloc: Global,
    generation: &Generation,
    text: &[u8],
    refused: &mut Refusals,
    details: &mut Details,
) -> Result<(), OutOfMemory>
    ensures { OnOk result (AddsOfScript refused.old.items.items refused.new.items.items) }
{
    let mut number: u32 = 1;
    let mut rest = text;
    while !rest.is_empty() {
        let (line, after) = next_line(rest);
        line_refusal(alloc, generation, line, number, refused, details)?;
        number = number.saturating_add(1);
        rest = after;
    }
    Ok(())
}

/// Tells why a script is refused, if there is one.
#[tactic(auto, using(crate::proofs::Later::later_script))]
pub(crate) fn script_refusals(
    alloc: Global,
    generation: &Generation,
    script: Option<&[u8]>,
    refused: &mut Refusals,
    details: &mut Details,
) -> Result<(), OutOfMemory>
    ensures { OnOk result (AddsOfScript refused.old.items.items refused.new.items.items) }
{
    let Some(text) = script else {
        return Ok(());
    };
    match fault_of(alloc, generation, text)? {
        None => Ok(()),
        Some(ScriptFault::TooLong) => refused.refuse(TextName::Script, 0, "TooLong"),
        Some(_) => line_refusals(alloc, generation, text, refused, details),
    }
}
