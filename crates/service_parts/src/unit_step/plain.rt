//! The plain statements: moves, numbers, jumps.
ghost use Rattle.std.specs.Prelude.{◌≡◌, ◌+◌, ◌<◌, ◌^◌, ◌++◌, All, OnErr, OnOk, Some, is_some, length, min, take};
ghost use Rattle.application_types.specs.UnitText.{field_named, label_place};
ghost use Rattle.abstract_monitor.specs.{Contents.{compared, number_in, number_of}, Fields.{field_bytes, stored, stored_in, value_of}, Ready.{IsInside}};
ghost use Rattle.abstract_monitor.specs.Statement.{branched, calculated, calculates, jumped, moved_on, relates};
ghost use Rattle.service_parts.specs.{Answers.{meaning_of, OnlyPlainMoves}, Calculation.{calculation_of, result_in, with_result}};

use crate::unit_step::area::{store, store_digits};
use crate::unit_step::compare::compared;
use crate::unit_step::number::{Calculation, last_digits, number_of, result_of};
use crate::unit_step::operand::{content, operand_cells, value};
use crate::unit_step::stepped::Stepped;
use application_types::unit_types::{Field, Operand, Relation, Unit};
use kd_base::{Bytes, OutOfMemory};
use kdcs_types::{Cause, RunState};
use std::alloc::Global;
use std::cmp::Ordering;

// No more than so many bytes, from the front.
fn front(bytes: &[u8], count: u32) -> &[u8]
    ensures { result.now ≡ take (min (length bytes.now) count) bytes.now }
{
    &bytes[..bytes.len().min(count as usize)]
}

/// The statement is counted, and the next one follows.
fn move_on(run: &mut RunState)
    requires place { run.old.place + 1 < 2 ^ 32 }
    requires count { run.old.count + 1 < 2 ^ 32 }
    ensures { run.new ≡ moved_on run.old }
{
    run.place += 1;
    run.count += 1;
}

#[tactic(auto, unfolding(abstract_monitor::specs::Fields::stored), using(crate::proofs::unit_step::Fields::found_inside, crate::proofs::unit_step::Fields::gets_nothing))]
/// MOVE: the field gets the operand.
pub fn move_bytes(
    alloc: Global,
    unit: &Unit,
    run: &mut RunState,
    name: &Bytes,
    operand: &Operand,
) -> Result<(), OutOfMemory>
    requires inside { All (IsInside run.old) unit.now.fields }
    requires place { run.old.place + 1 < 2 ^ 32 }
    requires count { run.old.count + 1 < 2 ^ 32 }
    ensures ok { OnOk result (run.new ≡ moved_on (stored unit.now run.old name.now (value_of unit.now run.old operand.now))) }
    ensures err { OnErr result (run.new ≡ run.old) }
{
    let Some(field) = unit.field(name.as_slice()) else {
        move_on(run);
        return Ok(());
    };
    let cells = operand_cells(run, operand);
    let bytes = Bytes::from_slice(
        alloc,
        front(value(unit, run, operand, &cells), field.length),
    )?;
    store(run, field, bytes.as_slice());
    move_on(run);
    Ok(())
}

#[tactic(auto, unfolding(abstract_monitor::specs::Fields::stored), using(crate::proofs::unit_step::Fields::found_inside, crate::proofs::unit_step::Fields::gets_nothing))]
/// JOIN: the field gets the operands, one after the other. Both are read first.
pub fn join_bytes(
    alloc: Global,
    unit: &Unit,
    run: &mut RunState,
    name: &Bytes,
    first: &Operand,
    second: &Operand,
) -> Result<(), OutOfMemory>
    requires inside { All (IsInside run.old) unit.now.fields }
    requires place { run.old.place + 1 < 2 ^ 32 }
    requires count { run.old.count + 1 < 2 ^ 32 }
    ensures ok { OnOk result (run.new ≡ moved_on (stored unit.now run.old name.now (value_of unit.now run.old first.now ++ value_of unit.now run.old second.now))) }
    ensures err { OnErr result (run.new ≡ run.old) }
{
    let Some(field) = unit.field(name.as_slice()) else {
        move_on(run);
        return Ok(());
    };
    let cells = operand_cells(run, first);
    let mut bytes = Bytes::from_slice(alloc, front(value(unit, run, first, &cells), field.length))?;
    let more_cells = operand_cells(run, second);
    bytes.append(front(value(unit, run, second, &more_cells), field.length))?;
    store(run, field, bytes.as_slice());
    move_on(run);
    Ok(())
}

// The field gets the number with leading zeros; false where it has too many digits, and then nothing changes.
fn store_number(run: &mut RunState, field: &Field, number: u64) -> bool
    requires { IsInside run.old field.now }
    ensures stored { run.new ≡ with_result run.old field.now (number_in field.now.length number) }
    ensures fits { result ≡ is_some (number_in field.now.length number) }
    ensures place { run.new.place ≡ run.old.place }
    ensures count { run.new.count ≡ run.old.count }
{
    let mut cells = [b'0'; 18];
    let digits = &mut cells[..field.length.min(18) as usize];
    if last_digits(number, digits) != 0 {
        return false;
    }
    store_digits(run, field, digits);
    true
}

// The field gets the result of its own number and the operand's; false where there is none that fits, and then nothing
// changes.
fn calculate(
    unit: &Unit,
    run: &mut RunState,
    field: &Field,
    operand: &Operand,
    calculation: Calculation,
) -> bool
    requires inside { All (IsInside run.old) unit.now.fields }
    requires field { IsInside run.old field.now }
    ensures stored { run.new ≡ with_result run.old field.now (result_in unit.now run.old field.now calculation operand.now) }
    ensures fits { result ≡ is_some (result_in unit.now run.old field.now calculation operand.now) }
    ensures place { run.new.place ≡ run.old.place }
    ensures count { run.new.count ≡ run.old.count }
{
    let Some(own) = number_of(content(run, field)) else {
        return false;
    };
    let cells = operand_cells(run, operand);
    let Some(other) = number_of(value(unit, run, operand, &cells)) else {
        return false;
    };
    let Some(number) = result_of(calculation, own, other) else {
        return false;
    };
    store_number(run, field, number)
}

/// ADD, SUB, MUL, DIV: the field gets the result with leading zeros, or E06 ends the unit run.
pub fn arithmetic(
    unit: &Unit,
    run: &mut RunState,
    name: &Bytes,
    operand: &Operand,
    calculation: Calculation,
) -> Stepped
    requires inside { All (IsInside run.old) unit.now.fields }
    requires place { run.old.place + 1 < 2 ^ 32 }
    requires count { run.old.count + 1 < 2 ^ 32 }
    ensures meaning { meaning_of result run.new ≡ calculates unit.now run.old (field_named unit.now name.now) operand.now (calculation_of calculation) }
    ensures same { OnlyPlainMoves result run.old run.new }
{
    let Some(field) = unit.field(name.as_slice()) else {
        move_on(run);
        return Stepped::Plain;
    };
    if !calculate(unit, run, field, operand, calculation) {
        return Stepped::Ends(Cause::E06);
    }
    move_on(run);
    Stepped::Plain
}

/// JUMP. It takes no memory.
pub fn jump(unit: &Unit, run: &mut RunState, label: &Bytes)
    requires { run.old.count + 1 < 2 ^ 32 }
    ensures { run.new ≡ jumped run.old (label_place unit.now label.now) }
{
    if let Some(place) = unit.label(label.as_slice()) {
        run.place = place;
        run.count += 1;
    }
}

fn relates(relation: Relation, order: Ordering) -> bool
    ensures { result ≡ relates relation order }
{
    match relation {
        Relation::Eq => order.is_eq(),
        Relation::Ne => order.is_ne(),
        Relation::Lt => order.is_lt(),
        Relation::Gt => order.is_gt(),
    }
}

/// IF: a true comparison jumps. It takes no memory.
pub fn branch(
    unit: &Unit,
    run: &mut RunState,
    first: &Operand,
    relation: Relation,
    second: &Operand,
    label: &Bytes,
)
    requires inside { All (IsInside run.old) unit.now.fields }
    requires place { run.old.place + 1 < 2 ^ 32 }
    requires count { run.old.count + 1 < 2 ^ 32 }
    ensures { run.new ≡ branched unit.now run.old label.now (relates relation (compared (value_of unit.now run.old first.now) (value_of unit.now run.old second.now))) }
{
    let first_cells = operand_cells(run, first);
    let second_cells = operand_cells(run, second);
    let order = compared(
        value(unit, run, first, &first_cells),
        value(unit, run, second, &second_cells),
    );
    if relates(relation, order) {
        jump(unit, run, label);
    } else {
        move_on(run);
    }
}
