//! What of a statement of a definition is at fault, and what would be right.

use crate::definition::{KEYWORDS, MOST_OPERANDS, fault_with};
use crate::draft::Draft;
use crate::lab_findings::{form_of, is_near, nearest};
use crate::parts::{Parts, Which, joined, key_of};
use application_check::kdcdef_check::CheckFault;
use application_read::DefinitionFault;
use kd_base::{Bytes, OutOfMemory};
use kdcdef_read::ReadFault;
use std::alloc::Global;

// Whether the text has this fault too, where another statement takes the place of the one at its line.
fn has_fault(
    alloc: Global,
    draft: &Draft,
    fault: DefinitionFault,
    statement: &[u8],
) -> Result<bool, OutOfMemory> {
    match fault_with(alloc, draft, fault.line(), statement)? {
        Some(other) => {
            Ok(other.line() == fault.line() && other.name().as_bytes() == fault.name().as_bytes())
        }
        None => Ok(false),
    }
}

// The first operand with which the statement has the fault; empty where that is none of the first ones.
fn operand_at_fault<'a>(
    alloc: Global,
    draft: &Draft,
    fault: DefinitionFault,
    parts: Parts<'a>,
) -> Result<&'a [u8], OutOfMemory> {
    for i in 0..parts.len().min(MOST_OPERANDS) {
        let statement = parts.with(alloc, Which::UpTo(i))?;
        if has_fault(alloc, draft, fault, statement.as_slice())? {
            return Ok(parts.operand(i));
        }
    }
    Ok(b"")
}

// What is right for an operand of a statement.
fn right_of(parts: Parts, operand: &[u8]) -> &'static str {
    match (form_of(parts.keyword()), key_of(operand)) {
        (Some(form), Some(key)) => form.right_of(key).unwrap_or(""),
        (Some(form), None) => form.first,
        (None, _) => "",
    }
}

/// An operand, of a password its key alone, and what would be right behind it.
pub(crate) fn with_right(
    alloc: Global,
    operand: &[u8],
    right: &[u8],
) -> Result<Bytes, OutOfMemory> {
    let named = match key_of(operand) {
        Some(key) if key.eq_ignore_ascii_case(b"PASS") => key,
        _ => operand,
    };
    if named.is_empty() || right.is_empty() {
        return joined(alloc, &[named, right]);
    }
    joined(alloc, &[named, b" ", right])
}

// What a statement lacks.
fn missing(alloc: Global, parts: Parts) -> Result<Bytes, OutOfMemory> {
    let Some(form) = form_of(parts.keyword()) else {
        return Ok(Bytes::new(alloc));
    };
    for key in ["PROGRAM", "KEYS"] {
        if let Some(right) = form.right_of(key.as_bytes()) {
            if parts.value(key).is_none() {
                return joined(alloc, &[key.as_bytes(), b"= ", right.as_bytes()]);
            }
        }
    }
    Bytes::from_slice(alloc, form.first.as_bytes())
}

// The first operand of the first statement of this keyword that is nearly this name; empty where there is none.
fn near_name<'a>(statements: &'a [Bytes], keyword: &str, name: &[u8]) -> &'a [u8] {
    for statement in statements {
        let parts = Parts::of(statement.as_slice());
        if parts.has_keyword(keyword) && is_near(name, parts.operand(0)) {
            return parts.operand(0);
        }
    }
    b""
}

// The name that an operand of this key has, which no statement of the keyword has, and one that is nearly it.
fn unknown_name(
    alloc: Global,
    draft: &Draft,
    parts: Parts,
    key: &str,
) -> Result<Bytes, OutOfMemory> {
    let name = parts.value(key).unwrap_or(b"");
    let operand = joined(alloc, &[key.as_bytes(), b"=", name])?;
    let statements = draft.statements(alloc)?;
    let near = near_name(statements.as_slice(), key, name);
    with_right(alloc, operand.as_slice(), near)
}

// Whether a statement needs a page: an LTERM, or a user with RESTART=YES.
fn needs_page(parts: Parts) -> bool {
    let is_kept = match parts.value("RESTART") {
        Some(value) => !value.eq_ignore_ascii_case(b"NO"),
        None => true,
    };
    parts.has_keyword("LTERM") || (parts.has_keyword("USER") && is_kept)
}

// The pages that the statements need.
fn pages_needed(statements: &[Bytes]) -> u32 {
    let mut count: u32 = 0;
    for statement in statements {
        if needs_page(Parts::of(statement.as_slice())) {
            count = count.saturating_add(1);
        }
    }
    count
}

// PGPOOL, and the pages that users and LTERMs need.
fn pool_detail(alloc: Global, draft: &Draft) -> Result<Bytes, OutOfMemory> {
    let statements = draft.statements(alloc)?;
    let least = format!(in alloc; "PGPOOL= {}..30000", pages_needed(statements.as_slice()))?;
    Bytes::from_slice(alloc, least.as_bytes())
}

// The class of a TAC, and those of its TYPE.
fn class_detail(alloc: Global, parts: Parts) -> Result<Bytes, OutOfMemory> {
    let is_job = parts
        .value("TYPE")
        .unwrap_or(b"D")
        .eq_ignore_ascii_case(b"A");
    let right: &[u8] = if is_job { b" 9..16" } else { b" 1..8" };
    let class = parts.value("TACCLASS").unwrap_or(b"");
    joined(alloc, &[b"TACCLASS=", class, right])
}

// What is wrong with statements together.
fn check_detail(
    alloc: Global,
    draft: &Draft,
    parts: Parts,
    fault: CheckFault,
) -> Result<Bytes, OutOfMemory> {
    match fault {
        CheckFault::NoProgram(_) => unknown_name(alloc, draft, parts, "PROGRAM"),
        CheckFault::NoLterm(_) => unknown_name(alloc, draft, parts, "LTERM"),
        CheckFault::NoKset(_) => unknown_name(alloc, draft, parts, "KSET"),
        CheckFault::NameTwice(_) => Bytes::from_slice(alloc, parts.operand(0)),
        CheckFault::LtermTwice(_) => {
            joined(alloc, &[b"LTERM=", parts.value("LTERM").unwrap_or(b"")])
        }
        CheckFault::ClassOfWrongKind(_) => class_detail(alloc, parts),
        CheckFault::PoolTooSmall(_) => pool_detail(alloc, draft),
        CheckFault::PoolForDouble(_) => Bytes::from_slice(alloc, b"PGPOOL=30000 16..29999"),
        CheckFault::NoMax(_) => Bytes::from_slice(alloc, b"APPLINAME="),
        CheckFault::NoUser(_) | CheckFault::TooMany(_) | CheckFault::Memory => {
            Ok(Bytes::new(alloc))
        }
    }
}

// The operand that is at fault, and what would be right; of one that stands twice it alone.
fn operand_detail(
    alloc: Global,
    draft: &Draft,
    parts: Parts,
    fault: DefinitionFault,
) -> Result<Bytes, OutOfMemory> {
    let operand = operand_at_fault(alloc, draft, fault, parts)?;
    let right = match fault {
        DefinitionFault::Read(ReadFault::OperandTwice(_)) => "",
        _ => right_of(parts, operand),
    };
    with_right(alloc, operand, right.as_bytes())
}

// What is at fault in these parts of a statement, and what would be right.
fn detail_in(
    alloc: Global,
    draft: &Draft,
    parts: Parts,
    fault: DefinitionFault,
) -> Result<Bytes, OutOfMemory> {
    match fault {
        DefinitionFault::Read(ReadFault::UnknownStatement(_)) => {
            let near = nearest(parts.keyword(), KEYWORDS).unwrap_or("");
            with_right(alloc, parts.keyword(), near.as_bytes())
        }
        DefinitionFault::Read(ReadFault::OperandMissing(_)) => missing(alloc, parts),
        DefinitionFault::Read(
            ReadFault::OperandTwice(_)
            | ReadFault::BadName(_)
            | ReadFault::BadNumber(_)
            | ReadFault::OutOfRange(_)
            | ReadFault::BadChoice(_)
            | ReadFault::NotInProfile(_),
        ) => operand_detail(alloc, draft, parts, fault),
        DefinitionFault::Check(fault) => check_detail(alloc, draft, parts, fault),
        _ => Ok(Bytes::new(alloc)),
    }
}

/// What is at fault in the statement of a fault, and what would be right; empty where that is not known.
pub(crate) fn detail_of(
    alloc: Global,
    draft: &Draft,
    fault: DefinitionFault,
) -> Result<Bytes, OutOfMemory> {
    let text = draft.statement(alloc, fault.line())?;
    detail_in(alloc, draft, Parts::of(text.as_slice()), fault)
}
