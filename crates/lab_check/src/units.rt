//! Why units are refused: their first fault, then that of the text mended for it, and so on.
ghost use Rattle.std.specs.{Prelude.{IfOk}, List.{All}};
ghost use Rattle.application_types.specs.UnitText.{IsSpellable};

use crate::definition::{MOST_FAULTS, Mended};
use crate::draft::Draft;
use crate::lab_findings::{Details, LineKind, Refusals, TextName, first_word, kind_of};
use crate::parts::joined;
use crate::unit_details::{fit_detail, unit_detail};
use application_check::unit_check::{FitFault, fit};
use application_types::generation::Generation;
use application_types::unit_types::Unit;
use kd_base::{Bytes, OutOfMemory, ProgName};
use std::alloc::Global;
use unit_read::{UnitFault, read_units};

// Puts a UNIT line in place of this one, with a name that no other has.
fn rename(alloc: Global, draft: &mut Draft, line: u32) -> Result<(), OutOfMemory> {
    let name = format!(in alloc; "$UNIT${line}$")?;
    draft.replace(alloc, line, &[b"UNIT ", name.as_bytes()])
}

// The name in a FIELD line.
fn field_name(line: &[u8]) -> &[u8] {
    match kind_of(line) {
        LineKind::Field(rest) => {
            let (name, _) = first_word(rest);
            name
        }
        _ => b"",
    }
}

// A FIELD line of the name in this one, for the first byte of the area.
fn field_text<'a>(alloc: Global, line: &'a [u8], area: &'a [u8]) -> Result<Bytes, OutOfMemory> {
    joined(alloc, &[b"FIELD ", field_name(line), area, b" 0 1"])
}

// A FIELD line of this name that fits, in place of this one; none where it is that already.
fn field_of_one(
    alloc: Global,
    draft: &mut Draft,
    line: u32,
    area: &[u8],
) -> Result<(), OutOfMemory> {
    let text = field_text(alloc, draft.content(line), area)?;
    if draft.content(line) == text.as_slice() {
        return draft.replace(alloc, line, &[]);
    }
    draft.replace(alloc, line, &[text.as_slice()])
}

// Mends a line that is no piece, or not one that may be there.
fn mend_piece(alloc: Global, draft: &mut Draft, line: u32) -> Result<(), OutOfMemory> {
    match kind_of(draft.content(line)) {
        LineKind::Unit(_) => rename(alloc, draft, line),
        LineKind::Field(_) => field_of_one(alloc, draft, line, b" SPAB"),
        _ => draft.replace(alloc, line, &[]),
    }
}

// Mends the text for a fault that it can be mended for.
fn mend_lines(alloc: Global, draft: &mut Draft, fault: UnitFault) -> Result<(), OutOfMemory> {
    let line = fault.line();
    match fault {
        UnitFault::BadStatement(_) => mend_piece(alloc, draft, line),
        UnitFault::NoEnd(_) => draft.put_before(alloc, line, &[b"END"]),
        UnitFault::UnitTwice(_) => rename(alloc, draft, line),
        _ => draft.replace(alloc, line, &[]),
    }
}

// Mends the text for a fault; false where it cannot be read on.
fn mend(alloc: Global, draft: &mut Draft, fault: UnitFault) -> Result<bool, OutOfMemory> {
    match fault {
        UnitFault::Memory | UnitFault::TooLong(_) => Ok(false),
        fault => {
            mend_lines(alloc, draft, fault)?;
            Ok(true)
        }
    }
}

// The units that a text spells, or why it spells none.
fn read_draft(alloc: Global, draft: &Draft) -> Result<Vec<Unit>, UnitFault>
    ensures { IfOk result (λ units. All IsSpellable units.items) }
{
    let text = draft.text(alloc)?;
    read_units(alloc, text.as_slice())
}

// Why the text spells no units, if it spells none.
fn read_fault(alloc: Global, draft: &Draft) -> Result<Option<UnitFault>, OutOfMemory> {
    match read_draft(alloc, draft) {
        Ok(_) => Ok(None),
        Err(UnitFault::Memory) => Err(OutOfMemory),
        Err(fault) => Ok(Some(fault)),
    }
}

// Tells why the text spells no units, where it is no matter of a line that was put in.
fn tell(
    alloc: Global,
    draft: &Draft,
    fault: UnitFault,
    refused: &mut Refusals,
    details: &mut Details,
) -> Result<(), OutOfMemory> {
    let line = fault.line();
    if draft.is_made(line) {
        return Ok(());
    }
    let number = draft.number_of(line);
    refused.refuse(TextName::Units, number, fault.name())?;
    let words = unit_detail(alloc, draft, fault)?;
    details.add(TextName::Units, number, fault.name(), words)
}

// Tells why the text spells no units, and mends it; false where it cannot be read on.
fn read_refusals(
    alloc: Global,
    draft: &mut Draft,
    refused: &mut Refusals,
    details: &mut Details,
) -> Result<bool, OutOfMemory> {
    for _ in 0..MOST_FAULTS {
        let Some(fault) = read_fault(alloc, draft)? else {
            return Ok(true);
        };
        tell(alloc, draft, fault, refused, details)?;
        if !mend(alloc, draft, fault)? {
            return Ok(false);
        }
    }
    Ok(false)
}

// The program of the statement at this line.
fn program_at(generation: &Generation, line: u32) -> Option<ProgName> {
    let programs = generation.programs();
    for i in 0..programs.len() {
        let (name, at) = programs.get_index(i)?;
        if *at == line {
            return Some(*name);
        }
    }
    None
}

// Puts a unit for the program of the statement at this line of the definition at the end.
fn put_unit(
    alloc: Global,
    draft: &mut Draft,
    generation: &Generation,
    line: u32,
) -> Result<bool, OutOfMemory> {
    let Some(name) = program_at(generation, line) else {
        return Ok(false);
    };
    draft.put_before(alloc, u32::MAX, &[b"UNIT ", name.as_slice()])?;
    draft.put_before(alloc, u32::MAX, &[b"END"])?;
    Ok(true)
}

// Mends a field past its area, where there is an area.
fn mend_field(
    alloc: Global,
    draft: &mut Draft,
    generation: &Generation,
    line: u32,
) -> Result<bool, OutOfMemory> {
    let limits = generation.max();
    let area: &[u8] = match (limits.spab, limits.kb) {
        (0, 0) => return Ok(false),
        (0, _) => b" KB",
        _ => b" SPAB",
    };
    field_of_one(alloc, draft, line, area)?;
    Ok(true)
}

// Mends the text for a fault of its fit; false where it cannot be fitted on.
fn mend_fit(
    alloc: Global,
    draft: &mut Draft,
    generation: &Generation,
    fault: FitFault,
) -> Result<bool, OutOfMemory> {
    match fault {
        FitFault::Memory => Ok(false),
        FitFault::NoUnit(line) => put_unit(alloc, draft, generation, line),
        FitFault::FieldPastArea(line) => mend_field(alloc, draft, generation, line),
        FitFault::NoLabel(line) | FitFault::LiteralFollowUp(line) => {
            draft.replace(alloc, line, &[])?;
            Ok(true)
        }
    }
}

// Why units do not fit, if they do not.
fn misfit(
    alloc: Global,
    units: Vec<Unit>,
    generation: &Generation,
) -> Result<Option<FitFault>, OutOfMemory>
    requires { All IsSpellable units.items }
{
    match fit(alloc, units, generation) {
        Ok(_) => Ok(None),
        Err(FitFault::Memory) => Err(OutOfMemory),
        Err(fault) => Ok(Some(fault)),
    }
}

// Why the units that the text spells do not fit, if they do not; a text that spells none has no such fault.
fn fit_fault(
    alloc: Global,
    draft: &Draft,
    generation: &Generation,
) -> Result<Option<FitFault>, OutOfMemory> {
    match read_draft(alloc, draft) {
        Ok(units) => misfit(alloc, units, generation),
        Err(UnitFault::Memory) => Err(OutOfMemory),
        Err(_) => Ok(None),
    }
}

// Tells why units do not fit, where it is no matter of what mending put in.
fn tell_fit(
    alloc: Global,
    draft: &Draft,
    mended: &Mended,
    fault: FitFault,
    refused: &mut Refusals,
    details: &mut Details,
) -> Result<(), OutOfMemory> {
    let line = fault.line();
    let (text, number, program) = match fault {
        FitFault::NoUnit(_) if mended.draft.is_made(line) => return Ok(()),
        FitFault::NoUnit(_) => (
            TextName::Definition,
            mended.draft.number_of(line),
            program_at(&mended.generation, line),
        ),
        FitFault::NoLabel(_)
        | FitFault::FieldPastArea(_)
        | FitFault::LiteralFollowUp(_)
        | FitFault::Memory => (TextName::Units, draft.number_of(line), None),
    };
    refused.refuse(text, number, fault.name())?;
    let words = fit_detail(alloc, draft, &mended.generation, program, fault)?;
    details.add(text, number, fault.name(), words)
}

// Tells why units that were read do not fit.
fn fit_refusals(
    alloc: Global,
    draft: &mut Draft,
    mended: &Mended,
    refused: &mut Refusals,
    details: &mut Details,
) -> Result<(), OutOfMemory> {
    for _ in 0..MOST_FAULTS {
        let Some(fault) = fit_fault(alloc, draft, &mended.generation)? else {
            return Ok(());
        };
        tell_fit(alloc, draft, mended, fault, refused, details)?;
        if !mend_fit(alloc, draft, &mended.generation, fault)? {
            return Ok(());
        }
    }
    Ok(())
}

/// Tells why units are refused, and why those that can be read do not fit what the definition generates, mended too.
pub(crate) fn units_refusals(
    alloc: Global,
    text: &[u8],
    mended: &Option<Mended>,
    refused: &mut Refusals,
    details: &mut Details,
) -> Result<(), OutOfMemory> {
    let mut draft = Draft::of(alloc, text)?;
    if !read_refusals(alloc, &mut draft, refused, details)? {
        return Ok(());
    }
    match mended {
        Some(mended) => fit_refusals(alloc, &mut draft, mended, refused, details),
        None => Ok(()),
    }
}
