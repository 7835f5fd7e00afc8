//! Why a definition is refused: its first fault, then that of the text mended for it, and so on.

use crate::definition_details::detail_of;
use crate::draft::Draft;
use crate::lab_findings::{Details, Refusals, TextName, first_word, nearest, without_blanks};
use crate::parts::{Parts, Which, joined};
use application_check::kdcdef_check::CheckFault;
use application_read::{DefinitionFault, generate};
use application_types::generation::Generation;
use kd_base::OutOfMemory;
use kdcdef_read::ReadFault;
use std::alloc::Global;
use texts::kdcdef_lex::LexFault;

/// How many faults of a text are told.
pub(crate) const MOST_FAULTS: u32 = 1_000;

/// How many operands of a faulty statement are left out one after another.
pub(crate) const MOST_OPERANDS: usize = 40;

/// A statement with which no users and LTERMs are too many, and no copy too long.
const POOL: &[u8] = b"MAX PGPOOL=29999";

/// The keywords of all statements.
pub(crate) const KEYWORDS: &[&str] = &[
    "MAX", "PROGRAM", "TAC", "USER", "PTERM", "LTERM", "TLS", "ULS", "TACCLASS", "KSET", "END",
    "FORMSYS", "ROOT", "OPTION", "EXIT", "MESSAGE", "BCAMAPPL", "RESERVE", "SIGNON", "ACCOUNT",
];

/// A definition, mended where it is refused, and what it generates.
#[derive(Drop)]
pub(crate) struct Mended {
    pub draft: Draft,
    pub generation: Generation,
}

// The fault of a text, if it has one.
fn fault_of(alloc: Global, text: &[u8]) -> Result<Option<DefinitionFault>, OutOfMemory> {
    match generate(alloc, text) {
        Ok(_) => Ok(None),
        Err(DefinitionFault::Memory) => Err(OutOfMemory),
        Err(fault) => Ok(Some(fault)),
    }
}

/// The fault of the text where another statement takes the place of the one at this line.
pub(crate) fn fault_with(
    alloc: Global,
    draft: &Draft,
    line: u32,
    statement: &[u8],
) -> Result<Option<DefinitionFault>, OutOfMemory> {
    let text = draft.text_with(alloc, line, draft.last_of(line), statement)?;
    fault_of(alloc, text.as_slice())
}

// Puts another statement in place of the one at this line, if the text has no fault there then.
fn try_statement(
    alloc: Global,
    draft: &mut Draft,
    line: u32,
    statement: &[u8],
) -> Result<bool, OutOfMemory> {
    match fault_with(alloc, draft, line, statement)? {
        Some(fault) if fault.line() == line => Ok(false),
        _ => {
            draft.put_statement(alloc, line, &[statement])?;
            Ok(true)
        }
    }
}

// Takes the one of the operands that is at fault out of the statement at this line, if there is one.
fn leave_operand_out(
    alloc: Global,
    draft: &mut Draft,
    line: u32,
    parts: Parts,
) -> Result<bool, OutOfMemory> {
    let count = parts.len();
    if count > MOST_OPERANDS {
        return Ok(false);
    }
    for i in 0..count {
        let statement = parts.with(alloc, Which::AllBut(i))?;
        if try_statement(alloc, draft, line, statement.as_slice())? {
            return Ok(true);
        }
    }
    Ok(false)
}

// Puts the name of the statement at this line and this behind it in its place, if that has no fault.
fn try_ending(
    alloc: Global,
    draft: &mut Draft,
    line: u32,
    parts: Parts,
    ending: &[u8],
) -> Result<bool, OutOfMemory> {
    let statement = parts.first_with(alloc, ending)?;
    try_statement(alloc, draft, line, statement.as_slice())
}

// The same with the program that the statement names behind its name.
fn try_program(
    alloc: Global,
    draft: &mut Draft,
    line: u32,
    parts: Parts,
) -> Result<bool, OutOfMemory> {
    let name = parts.value("PROGRAM").unwrap_or(b"");
    let ending = joined(alloc, &[b",PROGRAM=", name])?;
    try_ending(alloc, draft, line, parts, ending.as_slice())
}

// Leaves the statement at this line its name and no more than what is required, if that has no fault.
fn leave_name(
    alloc: Global,
    draft: &mut Draft,
    line: u32,
    parts: Parts,
) -> Result<bool, OutOfMemory> {
    Ok(
        try_ending(alloc, draft, line, parts, b"")?
            || try_ending(alloc, draft, line, parts, b",KEYS=1")?
            || try_program(alloc, draft, line, parts)?,
    )
}

// Mends the statement at this line, or takes it away.
fn mend_statement(alloc: Global, draft: &mut Draft, line: u32) -> Result<(), OutOfMemory> {
    let text = draft.statement(alloc, line)?;
    let parts = Parts::of(text.as_slice());
    if leave_operand_out(alloc, draft, line, parts)? || leave_name(alloc, draft, line, parts)? {
        return Ok(());
    }
    draft.clear(alloc, line)
}

// Puts a statement that a statement at this line names before it: the keyword, and the value of an operand of it.
fn put_named(
    alloc: Global,
    draft: &mut Draft,
    line: u32,
    keyword: &str,
) -> Result<(), OutOfMemory> {
    let statement = draft.statement(alloc, line)?;
    let name = Parts::of(statement.as_slice())
        .value(keyword)
        .unwrap_or(b"");
    draft.put_before(alloc, line, &[keyword.as_bytes(), b" ", name])
}

// Takes PGPOOL out of the statement at this line, where it has one.
fn without_pool(alloc: Global, draft: &mut Draft, line: u32) -> Result<(), OutOfMemory> {
    let text = draft.statement(alloc, line)?;
    let parts = Parts::of(text.as_slice());
    let Some(place) = parts.place("PGPOOL") else {
        return Ok(());
    };
    let statement = parts.with(alloc, Which::AllBut(place))?;
    draft.put_statement(alloc, line, &[statement.as_slice()])
}

// Another PGPOOL, which is put before END at this line; false where that was done.
fn mend_pool(alloc: Global, draft: &mut Draft, end: u32) -> Result<bool, OutOfMemory> {
    if draft.content(end.saturating_sub(1)) == POOL {
        return Ok(false);
    }
    for line in 1..end {
        without_pool(alloc, draft, line)?;
    }
    draft.put_before(alloc, end, &[POOL])?;
    Ok(true)
}

// Mends the text for a fault of its statements together, which is none of the pool.
fn mend_together(alloc: Global, draft: &mut Draft, fault: CheckFault) -> Result<(), OutOfMemory> {
    let line = fault.line();
    match fault {
        CheckFault::NoMax(_) => draft.put_before(alloc, line, &[b"MAX APPLINAME=X"]),
        CheckFault::NoUser(_) => draft.put_before(alloc, line, &[b"USER X"]),
        CheckFault::NoProgram(_) => put_named(alloc, draft, line, "PROGRAM"),
        CheckFault::NoLterm(_) => put_named(alloc, draft, line, "LTERM"),
        _ => mend_statement(alloc, draft, line),
    }
}

// Puts a keyword that is nearly the same in place of one that no statement has, or takes the statement away. END would make
// all statements behind it faults.
fn mend_keyword(alloc: Global, draft: &mut Draft, line: u32) -> Result<(), OutOfMemory> {
    let statement = draft.statement(alloc, line)?;
    let (word, rest) = first_word(without_blanks(statement.as_slice()));
    match nearest(word, KEYWORDS) {
        Some(near) if near != "END" => {
            draft.put_statement(alloc, line, &[near.as_bytes(), b" ", rest])
        }
        _ => draft.clear(alloc, line),
    }
}

// Mends the text for a fault that is none of the pool.
fn mend_lines(alloc: Global, draft: &mut Draft, fault: DefinitionFault) -> Result<(), OutOfMemory> {
    match fault {
        DefinitionFault::Lex(LexFault::DanglingContinuation(line)) => {
            draft.end_statement(alloc, line)
        }
        DefinitionFault::Read(ReadFault::NoEnd(_)) => draft.put_before(alloc, u32::MAX, &[b"END"]),
        DefinitionFault::Read(ReadFault::AfterEnd(line)) => draft.clear(alloc, line),
        DefinitionFault::Read(ReadFault::UnknownStatement(line)) => {
            mend_keyword(alloc, draft, line)
        }
        DefinitionFault::Check(fault) => mend_together(alloc, draft, fault),
        fault => mend_statement(alloc, draft, fault.line()),
    }
}

// Mends the text for a fault; false where it cannot be read on.
fn mend(alloc: Global, draft: &mut Draft, fault: DefinitionFault) -> Result<bool, OutOfMemory> {
    match fault {
        DefinitionFault::Memory | DefinitionFault::Lex(LexFault::TextTooLong) => Ok(false),
        DefinitionFault::Check(CheckFault::PoolTooSmall(line) | CheckFault::PoolForDouble(line)) =>
            { mend_pool(alloc, draft, line) }
        fault => {
            mend_lines(alloc, draft, fault)?;
            Ok(true)
        }
    }
}

// Whether the text has a statement of this keyword, with an operand of this key where one is asked for.
fn has_statement(
    alloc: Global,
    text: &[u8],
    keyword: &str,
    key: Option<&str>,
) -> Result<bool, OutOfMemory> {
    let statements = Draft::of(alloc, text)?.statements(alloc)?;
    for statement in &statements {
        let parts = Parts::of(statement.as_slice());
        if parts.has_keyword(keyword) && key.is_none_or(|key| parts.value(key).is_some()) {
            return Ok(true);
        }
    }
    Ok(false)
}

// Whether the fault is one of the text as it was, and not only of the mended one.
fn is_own(
    alloc: Global,
    text: &[u8],
    draft: &Draft,
    fault: DefinitionFault,
) -> Result<bool, OutOfMemory> {
    match fault {
        DefinitionFault::Check(CheckFault::NoMax(_)) => {
            Ok(!has_statement(alloc, text, "MAX", Some("APPLINAME"))?)
        }
        DefinitionFault::Check(CheckFault::NoUser(_)) => {
            Ok(!has_statement(alloc, text, "USER", None)?)
        }
        DefinitionFault::Check(CheckFault::PoolTooSmall(_) | CheckFault::PoolForDouble(_)) => {
            Ok(true)
        }
        _ => Ok(!draft.is_made(fault.line())),
    }
}

// Tells the fault of the mended text, where it is one of the text too.
fn tell(
    alloc: Global,
    text: &[u8],
    draft: &Draft,
    fault: DefinitionFault,
    refused: &mut Refusals,
    details: &mut Details,
) -> Result<(), OutOfMemory> {
    if !refused.items.is_empty() && !is_own(alloc, text, draft, fault)? {
        return Ok(());
    }
    let number = draft.number_of(fault.line());
    refused.refuse(TextName::Definition, number, fault.name())?;
    let words = detail_of(alloc, draft, fault)?;
    details.add(TextName::Definition, number, fault.name(), words)
}

// What a text generates, as far as it was mended.
fn generated(alloc: Global, draft: &Draft) -> Result<Generation, DefinitionFault> {
    match draft.text(alloc) {
        Ok(text) => generate(alloc, text.as_slice()),
        Err(OutOfMemory) => Err(DefinitionFault::Memory),
    }
}

// Tells why a definition is refused, and mends it; what it generates then, or none where it cannot be read on.
fn mend_all(
    alloc: Global,
    text: &[u8],
    draft: &mut Draft,
    refused: &mut Refusals,
    details: &mut Details,
) -> Result<Option<Generation>, OutOfMemory> {
    for _ in 0..MOST_FAULTS {
        let fault = match generated(alloc, draft) {
            Ok(generation) => return Ok(Some(generation)),
            Err(DefinitionFault::Memory) => return Err(OutOfMemory),
            Err(fault) => fault,
        };
        tell(alloc, text, draft, fault, refused, details)?;
        if !mend(alloc, draft, fault)? {
            return Ok(None);
        }
    }
    Ok(None)
}

/// Tells why a definition is refused, and mends it; none where it cannot be read on.
pub(crate) fn definition_refusals(
    alloc: Global,
    text: &[u8],
    refused: &mut Refusals,
    details: &mut Details,
) -> Result<Option<Mended>, OutOfMemory> {
    let mut draft = Draft::of(alloc, text)?;
    match mend_all(alloc, text, &mut draft, refused, details)? {
        Some(generation) => Ok(Some(Mended { draft, generation })),
        None => Ok(None),
    }
}
