//! Comparisons that always go the same way: with a code that no call has, or of lengths that can never be equal.

use crate::areas::{field_of, fixed, is_stored, stored, written};
use crate::flow::{Fact, Question, Walk, Ways};
use crate::warned::{Warnings, joined};
use crate::warning::Warning;
use application_types::unit_types::{Action, HeaderName, Operand, Relation, Unit};
use kd_base::{Bytes, OutOfMemory};
use lab_check::lab_findings::TextName;
use std::alloc::Global;

/// The codes that calls have.
const CODES: &[&[u8]] = &[
    b"000", b"K01", b"K02", b"K03", b"K04", b"K05", b"K06", b"K07", b"K08", b"K09", b"K10", b"K11",
];

/// How many bytes an operand has, spaces at its end aside.
#[derive(Clone, Copy)]
struct Sizes {
    least: u32,
    most: u32,
}

/// Whether a field has a number with leading zeros, which fills it.
#[derive(Clone, Copy)]
struct Filled<'a> {
    field: &'a Bytes,
}

impl Question for Filled<'_> {
    fn behind(&self, unit: &Unit, action: &Action, fact: Fact) -> Option<Fact> {
        if !is_stored(unit, action, self.field) {
            return Some(fact);
        }
        let is_own = match stored(action) {
            Some(field) => field.as_slice() == self.field.as_slice(),
            None => false,
        };
        match action {
            Action::Add(_, _) | Action::Sub(_, _) | Action::Mul(_, _) | Action::Div(_, _)
                if is_own => { Some(Fact::Number) }
            _ => Some(Fact::Any),
        }
    }
}

// How many bytes an operand can have.
fn sizes_of(unit: &Unit, operand: &Operand) -> Sizes {
    if let Some(bytes) = fixed(operand) {
        let size = u32::try_from(bytes.len()).unwrap_or(u32::MAX);
        return Sizes {
            least: size,
            most: size,
        };
    }
    let (least, most) = match operand {
        Operand::Header(HeaderName::Crccc) => (3, 3),
        Operand::Header(HeaderName::Rlm) => (5, 5),
        Operand::Header(_) => (1, 8),
        _ => match field_of(operand) {
            Some(name) => match unit.field(name.as_slice()) {
                Some(field) => (0, field.length),
                None => (0, u32::MAX),
            },
            None => (0, u32::MAX),
        },
    };
    Sizes { least, most }
}

fn can_be_equal(a: Sizes, b: Sizes) -> bool {
    a.least <= b.most && b.least <= a.most
}

// How many bytes an operand can have at this place: all of its field, where that has a number on all ways.
fn sizes_at(
    alloc: Global,
    unit: &Unit,
    place: u32,
    operand: &Operand,
) -> Result<Sizes, OutOfMemory> {
    let sizes = sizes_of(unit, operand);
    let Some(field) = field_of(operand) else {
        return Ok(sizes);
    };
    let walk = Walk::from(alloc, unit, &[1], Fact::Any, &Filled { field })?;
    if walk.ways(place, &[Fact::Number], &[Fact::Any]) == Ways::All {
        return Ok(Sizes {
            least: sizes.most,
            most: sizes.most,
        });
    }
    Ok(sizes)
}

fn is_code(bytes: &[u8]) -> bool {
    for code in CODES {
        if *code == bytes {
            return true;
        }
    }
    false
}

// The bytes that are compared with a code and are none that a call has.
fn no_code<'a>(a: &'a Operand, b: &'a Operand) -> Option<&'a [u8]> {
    let bytes = match (a, b) {
        (Operand::Header(HeaderName::Crccc), other) => fixed(other)?,
        (other, Operand::Header(HeaderName::Crccc)) => fixed(other)?,
        _ => return None,
    };
    if is_code(bytes) { None } else { Some(bytes) }
}

// How an operand is written, and its length.
fn sized(alloc: Global, operand: &Operand, size: u32) -> Result<Bytes, OutOfMemory> {
    let word = written(alloc, operand)?;
    let number = format!(in alloc; " {size}")?;
    joined(alloc, &[word.as_slice(), number.as_bytes()])
}

// Warns of two operands whose lengths can never be equal.
fn length_warning(
    alloc: Global,
    unit: &Unit,
    place: u32,
    line: u32,
    a: &Operand,
    b: &Operand,
    warned: &mut Warnings,
) -> Result<(), OutOfMemory> {
    let x = sizes_at(alloc, unit, place, a)?;
    let y = sizes_at(alloc, unit, place, b)?;
    if can_be_equal(x, y) {
        return Ok(());
    }
    let (x_size, y_size) = if x.most < y.least {
        (x.most, y.least)
    } else {
        (x.least, y.most)
    };
    let first = sized(alloc, a, x_size)?;
    let second = sized(alloc, b, y_size)?;
    warned.warn(
        alloc,
        TextName::Units,
        line,
        Warning::NeverEqual,
        first.as_slice(),
        second.as_slice(),
    )
}

/// Warns of an IF at this place that always goes the same way.
pub(crate) fn comparison_warning(
    alloc: Global,
    unit: &Unit,
    place: u32,
    line: u32,
    action: &Action,
    warned: &mut Warnings,
) -> Result<(), OutOfMemory> {
    let Action::If(a, Relation::Eq | Relation::Ne, b, _) = action else {
        return Ok(());
    };
    if let Some(bytes) = no_code(a, b) {
        let text = TextName::Units;
        return warned.warn(
            alloc,
            text,
            line,
            Warning::NoSuchCode,
            bytes,
            b"000,K01..K11",
        );
    }
    length_warning(alloc, unit, place, line, a, b, warned)
}
