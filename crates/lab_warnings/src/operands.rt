//! Warnings of operands that are kept nowhere.

use crate::warned::{Warnings, joined};
use crate::warning::Warning;
use kd_base::{Bytes, OutOfMemory};
use lab_check::lab_findings::{Form, TextName, form_of, is_near};
use std::alloc::Global;
use texts::kdcdef_lex::{RawOperand, RawStatement, RawValue, Statements};

/// Keys of KDCDEF that restrict access, where their statement does not keep them.
const ACCESS: &[&str] = &[
    "ACCESS-LIST",
    "ADMIN",
    "CARD",
    "CERTIFICATE",
    "ENCRYPTION-LEVEL",
    "KEYS",
    "KSET",
    "LOCK",
    "PASS",
    "PASSWORD",
    "PERMIT",
    "PRINCIPAL",
    "PROTECT-PW",
    "STATUS",
];

// Whether an operand that is not kept would restrict access. STATUS=ON restricts nothing.
fn restricts(key: &[u8], value: &RawValue) -> bool {
    if let RawValue::Word(word) = value {
        if key.eq_ignore_ascii_case(b"STATUS") && word.as_slice().eq_ignore_ascii_case(b"ON") {
            return false;
        }
    }
    for known in ACCESS {
        if key.eq_ignore_ascii_case(known.as_bytes()) {
            return true;
        }
    }
    false
}

// What restricts access in such a statement.
fn restricting(keyword: &[u8]) -> &'static str {
    if keyword.eq_ignore_ascii_case(b"USER") {
        "PASS,KSET"
    } else if keyword.eq_ignore_ascii_case(b"TAC") {
        "LOCK,STATUS"
    } else if keyword.eq_ignore_ascii_case(b"LTERM") {
        "KSET"
    } else {
        ""
    }
}

// How a value without a key is named.
fn named<'a>(operand: &RawOperand<'a>) -> &'a [u8] {
    match &operand.value {
        RawValue::Word(word) => word.as_slice(),
        RawValue::Quoted(_) => b"'..'",
        RawValue::Listed(_) => b"(..)",
    }
}

// How an operand with a key is named: with its value, but for a password.
fn keyed<'a>(alloc: Global, key: &'a [u8], operand: &RawOperand<'a>) -> Result<Bytes, OutOfMemory> {
    match &operand.value {
        RawValue::Word(word) if !is_near(key, b"PASS") => {
            joined(alloc, &[key, b"=", word.as_slice()])
        }
        _ => Bytes::from_slice(alloc, key),
    }
}

// What is likely wrong with an operand of this key that is not kept, and what would be right.
fn wrong_with(form: Form, key: &[u8], value: &RawValue) -> (Warning, &'static str) {
    let near = form.near_key(key);
    let is_of_access = match near {
        Some(near) => restricts(near.as_bytes(), value),
        None => false,
    };
    match near {
        Some(near) if is_of_access => (Warning::AccessNotKept, near),
        _ if restricts(key, value) => (
            Warning::AccessNotKept,
            restricting(form.keyword.as_bytes()),
        ),
        Some(near) => (Warning::NearOperand, near),
        None => (Warning::NotKept, ""),
    }
}

// Warns of an operand at this line that is not kept.
fn operand_warning(
    alloc: Global,
    line: u32,
    form: Form,
    is_first: bool,
    operand: &RawOperand,
    warned: &mut Warnings,
) -> Result<(), OutOfMemory> {
    let text = TextName::Definition;
    let Some(word) = &operand.key else {
        if is_first && !form.first.is_empty() {
            return Ok(());
        }
        return warned.warn(alloc, text, line, Warning::NotKept, named(operand), b"");
    };
    let key = word.as_slice();
    if form.right_of(key).is_some() {
        return Ok(());
    }
    let (warning, right) = wrong_with(form, key, &operand.value);
    let words = keyed(alloc, key, operand)?;
    warned.warn(
        alloc,
        text,
        line,
        warning,
        words.as_slice(),
        right.as_bytes(),
    )
}

// Whether the statement is a PTERM that names no LTERM, which is passed over.
fn is_passed(raw: &RawStatement) -> bool {
    if !raw.keyword.as_slice().eq_ignore_ascii_case(b"PTERM") {
        return false;
    }
    let mut left = raw.operands.again();
    while let Some((operand, rest)) = left.next() {
        if let Some(word) = &operand.key {
            if word.as_slice().eq_ignore_ascii_case(b"LTERM") {
                return false;
            }
        }
        left = rest;
    }
    true
}

// Warns of a PTERM that is passed over, by its first operand.
fn passed_warning(
    alloc: Global,
    raw: &RawStatement,
    warned: &mut Warnings,
) -> Result<(), OutOfMemory> {
    if !is_passed(raw) {
        return Ok(());
    }
    let name = match raw.operands.next() {
        Some((operand, _)) => named(&operand),
        None => b"",
    };
    warned.warn(
        alloc,
        TextName::Definition,
        raw.line,
        Warning::PassedPterm,
        name,
        b"LTERM=",
    )
}

// Warns of the operands of a statement that are not kept.
fn statement_warnings(
    alloc: Global,
    raw: &RawStatement,
    warned: &mut Warnings,
) -> Result<(), OutOfMemory> {
    let Some(form) = form_of(raw.keyword.as_slice()) else {
        return Ok(());
    };
    passed_warning(alloc, raw, warned)?;
    let mut is_first = true;
    let mut left = raw.operands.again();
    while let Some((operand, rest)) = left.next() {
        operand_warning(alloc, raw.line, form, is_first, &operand, warned)?;
        is_first = false;
        left = rest;
    }
    Ok(())
}

/// Warns of operands that are kept nowhere.
pub(crate) fn operand_warnings(
    alloc: Global,
    raw: &Statements,
    warned: &mut Warnings,
) -> Result<(), OutOfMemory> {
    for i in 0..raw.len() {
        statement_warnings(alloc, &raw.statement(i), warned)?;
    }
    Ok(())
}
