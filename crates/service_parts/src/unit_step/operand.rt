//! What a statement reads of its unit run.
ghost use Rattle.std.specs.{Prelude.{◌≡◌, ◌≤◌, All, IfOk, Some, take}, Option.{option_copied}};
ghost use Rattle.application_types.specs.UnitText.{field_named};
ghost use Rattle.abstract_monitor.specs.{Contents.{in_digits}, Fields.{code_text, field_bytes, header_value, value_of}, Ready.{IsInside}, Statement.{target_capacity}};
ghost use Rattle.service_parts.specs.Header.{HoldsHeader};

use crate::unit_step::number::last_digits;
use application_types::unit_types::{Field, HeaderName, Operand, Unit};
use kd_base::{Bytes, OutOfMemory, trim_end};
use kdcs_types::{Code, RunState};
use std::alloc::Global;

/// At most 8 bytes: those of a header name.
#[derive(Clone, Copy)]
pub struct Cells {
    pub bytes: [u8; 8],
    pub used: usize,
}

// The three bytes of a code, and spaces.
fn code_cells(code: Code) -> [u8; 8]
    ensures { take 3 result ≡ code_text code }
{
    match code {
        Code::Done => *b"000     ",
        Code::K01 => *b"K01     ",
        Code::K02 => *b"K02     ",
        Code::K03 => *b"K03     ",
        Code::K04 => *b"K04     ",
        Code::K05 => *b"K05     ",
        Code::K06 => *b"K06     ",
        Code::K07 => *b"K07     ",
        Code::K08 => *b"K08     ",
        Code::K09 => *b"K09     ",
        Code::K10 => *b"K10     ",
        Code::K11 => *b"K11     ",
    }
}

// The last five digits of a number, and spaces.
fn five_digits(number: u32) -> [u8; 8]
    ensures { take 5 result ≡ in_digits 5 number }
{
    let mut cells = [b' '; 8];
    last_digits(u64::from(number), &mut cells[..5]);
    cells
}

fn header_cells(run: &RunState, name: HeaderName) -> Cells
    ensures value { take result.used result.bytes ≡ header_value run.now name }
    ensures used { result.used ≤ 8 }
{
    let (bytes, used) = match name {
        HeaderName::Benid => (run.header.benid.padded(), 8),
        HeaderName::Logter => (run.header.logter.padded(), 8),
        HeaderName::Tacvg => (run.header.tacvg.padded(), 8),
        HeaderName::Tacal => (run.header.tacal.padded(), 8),
        HeaderName::Crccc => (code_cells(run.code), 3),
        HeaderName::Rlm => (five_digits(run.length), 5),
    };
    Cells { bytes, used }
}

/// The bytes of an operand that is a header name; of another one any.
pub fn operand_cells(run: &RunState, operand: &Operand) -> Cells
    ensures { HoldsHeader run.now operand.now result }
{
    match operand {
        Operand::Header(name) => header_cells(run, *name),
        _ => Cells {
            bytes: [b' '; 8],
            used: 0,
        },
    }
}

/// The bytes of a field.
pub fn content<'a>(run: &'a RunState, field: &Field) -> &'a [u8]
    requires { IsInside run.now field.now }
    ensures { result.now ≡ field_bytes run.now (Some field.now) }
{
    let area = if field.spab {
        run.spab.as_slice()
    } else {
        run.kb.as_slice()
    };
    let at = field.offset as usize;
    &area[at..at + field.length as usize]
}

// The bytes of the field of this name.
fn named<'a>(unit: &Unit, run: &'a RunState, name: &Bytes) -> &'a [u8]
    requires { All (IsInside run.now) unit.now.fields }
    ensures { result.now ≡ field_bytes run.now (field_named unit.now name.now) }
{
    match unit.field(name.as_slice()) {
        Some(field) => content(run, field),
        None => &[],
    }
}

/// The bytes of an operand, of which a header name has these cells. It takes no memory.
#[tactic(auto, unfolding(abstract_monitor::specs::Fields::value_of))]
pub fn value<'a>(unit: &Unit, run: &'a RunState, operand: &'a Operand, cells: &'a Cells) -> &'a [u8]
    requires inside { All (IsInside run.now) unit.now.fields }
    requires cells { HoldsHeader run.now operand.now cells.now }
    ensures { result.now ≡ value_of unit.now run.now operand.now }
{
    match operand {
        Operand::Field(name) => named(unit, run, name),
        Operand::Literal(bytes) | Operand::Digits(bytes) => bytes.as_slice(),
        Operand::Header(_) => &cells.bytes[..cells.used],
        Operand::Trim(name) => trim_end(named(unit, run, name)),
    }
}

/// A copy of the bytes of an operand.
pub fn bytes_of(
    alloc: Global,
    unit: &Unit,
    run: &RunState,
    operand: &Operand,
) -> Result<Bytes, OutOfMemory>
    requires { All (IsInside run.now) unit.now.fields }
    ensures { IfOk result (λ bytes. bytes ≡ value_of unit.now run.now operand.now) }
{
    let cells = operand_cells(run, operand);
    Bytes::from_slice(alloc, value(unit, run, operand, &cells))
}

/// The length of a target field.
pub fn capacity(unit: &Unit, name: &Bytes) -> u32
    ensures { result ≡ target_capacity unit.now name.now }
{
    match unit.field(name.as_slice()) {
        Some(field) => field.length,
        None => 0,
    }
}
