//! Reading a units text.
ghost use Rattle.std.specs.Prelude.{◌≢◌, All, List, IfOk, IfErr, OnOk};
ghost use Rattle.kd_base.specs.FirstFaults.{items_of};
ghost use Rattle.application_types.specs.UnitText.{UnitText, IsSpellable};
ghost use Rattle.unit_read.specs.{declared.fault.UnitFault.TheVariants.{Memory}, Spelling.{SpellsUnits}, Faults.{HasTextFault}, Open.{state_of, AreKept}, Answers.{Gives, after}};
ghost use Rattle.unit_read.specs.Reading.{line_step, read_text};

use crate::fault::UnitFault;
use crate::line::is_passed;
use crate::piece::piece_of;
use crate::reading::Reading;
use crate::word::Word;
use application_types::unit_types::Unit;
use kd_base::LONGEST_TEXT;
use std::alloc::Global;
use texts::{next_line, parts_of};

// One more line.
fn line_step(
    alloc: Global,
    reading: &mut Reading,
    number: u32,
    line: &[u8],
) -> Result<(), UnitFault>
    requires { AreKept reading.old }
    ensures state { Gives (after result (state_of reading.new)) (line_step number line.now (state_of reading.old)) }
    ensures kept { OnOk result (AreKept reading.new) }
{
    if is_passed(line) {
        return Ok(());
    }
    let Some(words) = parts_of::<Word>(alloc, line)? else {
        return Err(UnitFault::BadStatement(number));
    };
    let Some(piece) = piece_of(alloc, &words)? else {
        return Err(UnitFault::BadStatement(number));
    };
    reading.stepped(alloc, number, piece)
}

fn read_text(alloc: Global, text: &[u8]) -> Result<Vec<Unit>, UnitFault>
    ensures { Gives (items_of result) (read_text text.now) }
{
    if text.len() > LONGEST_TEXT {
        return Err(UnitFault::TooLong(0));
    }
    let mut reading = Reading::new(alloc);
    let mut number: u32 = 1;
    let mut rest = text;
    while !rest.is_empty() {
        let (line, after) = next_line(rest);
        line_step(alloc, &mut reading, number, line)?;
        number += 1;
        rest = after;
    }
    reading.finished(number)
}

/// The units of a text, in their order, or its first fault.
pub fn read_units(alloc: Global, text: &[u8]) -> Result<Vec<Unit>, UnitFault>
    // The text spells what is read.
    ensures found { IfOk result (λ units. SpellsUnits text.now units.items) }
    // Labels count from one, and no operand is longer than an area may be.
    ensures whole { IfOk result (λ units. All IsSpellable units.items) }
    // What the text spells is read, unless memory runs out.
    ensures only { (units : List UnitText) → SpellsUnits text.now units → Gives (items_of result) (Ok units) }
    // The fault that is answered is there.
    ensures fault { IfErr result (λ e. e ≢ Memory → HasTextFault text.now e) }
    // A text with the fault is refused for it, unless memory runs out.
    ensures refused { (e : UnitFault) → HasTextFault text.now e → Gives (items_of result) (Err e) }
{
    read_text(alloc, text)
}
