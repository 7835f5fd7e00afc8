//! What a statement says, from what its operands say.
ghost use Rattle.std.specs.Prelude.{◌≡◌, IfOk};
ghost use Rattle.kdcdef_read.specs.Said.{name_at, prog_name_at, number_at, class_at, redelivery_at, time_at, call_at, flag_at, password_at, max_said, program_said, class_of, tac_entry, tac_said};
ghost use Rattle.kdcdef_read.specs.Said.{user_said, pterm_said, lterm_said, tls_said, uls_said, class_said, kset_said, said_of};
ghost use Rattle.kdcdef_read.specs.{Filling.{answer, answers}, Operands.{default_in}, Table.{row_of}, KeySets.{key_set_of}};
ghost use Rattle.kdcdef_read.specs.declared.words.Keyword.TheVariants as keywords;
ghost use Rattle.kdcdef_read.specs.declared.words.Key.TheVariants as keys;

use crate::key_set::key_set_of;
use crate::operands::Given;
use crate::rows::row_of;
use crate::value::Value;
use crate::words::{Key, Keyword, place_of};
use application_types::kdcdef_types::{
    CallUse, LtermEntry, MaxOperands, PtermEntry, Said, TacEntry, UserEntry,
};
use kd_base::{Bytes, Name, OutOfMemory, ProgName};
use std::alloc::Global;
use texts::kdcdef_lex::Operands;

// What it is where no operand has this key.
fn default_of(keyword: Keyword, key: Key) -> Option<Value>
    ensures { result ≡ default_in (row_of keyword key) }
{
    match row_of(keyword, key) {
        Some(row) => row.default,
        None => None,
    }
}

// What the operand with this key says, or its default.
fn answer(keyword: Keyword, given: &Given, key: Key) -> Option<Value>
    ensures { result ≡ answer keyword given.now.slots key }
{
    given.slots[place_of(key)].or(default_of(keyword, key))
}

fn name_at(keyword: Keyword, given: &Given, key: Key) -> Option<Name>
    ensures { result ≡ name_at (answer keyword given.now.slots key) }
{
    match &answer(keyword, given, key) {
        Some(Value::Name(name)) => Some(*name),
        _ => None,
    }
}

fn prog_name_at(keyword: Keyword, given: &Given, key: Key) -> Option<ProgName>
    ensures { result ≡ prog_name_at (answer keyword given.now.slots key) }
{
    match &answer(keyword, given, key) {
        Some(Value::ProgName(name)) => Some(*name),
        _ => None,
    }
}

fn number_at(keyword: Keyword, given: &Given, key: Key) -> Option<u16>
    ensures { result ≡ number_at (answer keyword given.now.slots key) }
{
    match answer(keyword, given, key) {
        Some(Value::Number(number)) => Some(number),
        _ => None,
    }
}

// The same in a wider type.
fn wide_at(keyword: Keyword, given: &Given, key: Key) -> Option<u32>
    ensures { result ≡ number_at (answer keyword given.now.slots key) }
{
    Some(u32::from(number_at(keyword, given, key)?))
}

fn ticks_at(keyword: Keyword, given: &Given, key: Key) -> Option<u64>
    ensures { result ≡ number_at (answer keyword given.now.slots key) }
{
    Some(u64::from(number_at(keyword, given, key)?))
}

fn class_at(keyword: Keyword, given: &Given, key: Key) -> Option<u8>
    ensures { result ≡ class_at (answer keyword given.now.slots key) }
{
    match answer(keyword, given, key) {
        Some(Value::Class(class)) => Some(class),
        _ => None,
    }
}

fn redelivery_at(keyword: Keyword, given: &Given, key: Key) -> Option<u8>
    ensures { result ≡ redelivery_at (answer keyword given.now.slots key) }
{
    match answer(keyword, given, key) {
        Some(Value::Redelivery(times)) => Some(times),
        _ => None,
    }
}

fn time_at(keyword: Keyword, given: &Given, key: Key) -> Option<u32>
    ensures { result ≡ time_at (answer keyword given.now.slots key) }
{
    match answer(keyword, given, key) {
        Some(Value::Time(time)) => Some(time),
        _ => None,
    }
}

fn call_at(keyword: Keyword, given: &Given, key: Key) -> Option<CallUse>
    ensures { result ≡ call_at (answer keyword given.now.slots key) }
{
    match answer(keyword, given, key) {
        Some(Value::Call(call)) => Some(call),
        _ => None,
    }
}

fn flag_at(keyword: Keyword, given: &Given, key: Key) -> Option<bool>
    ensures { result ≡ flag_at (answer keyword given.now.slots key) }
{
    match answer(keyword, given, key) {
        Some(Value::Flag(flag)) => Some(flag),
        _ => None,
    }
}

fn password_at(
    alloc: Global,
    keyword: Keyword,
    given: &Given,
    key: Key,
) -> Result<Option<Bytes>, OutOfMemory>
    ensures { IfOk result (λ pass. pass ≡ password_at (answer keyword given.now.slots key)) }
{
    match &answer(keyword, given, key) {
        Some(Value::Password(password)) => {
            Ok(Some(Bytes::from_slice(alloc, password.as_slice())?))
        }
        _ => Ok(None),
    }
}

fn max_said(given: &Given) -> Said
    ensures { result ≡ max_said (answers keywords.Max given.now.slots) }
{
    Said::Max(MaxOperands {
        appliname: name_at(Keyword::Max, given, Key::Appliname),
        tasks: number_at(Keyword::Max, given, Key::Tasks),
        asyntasks: number_at(Keyword::Max, given, Key::Asyntasks),
        gssbs: wide_at(Keyword::Max, given, Key::Gssbs),
        lssbs: wide_at(Keyword::Max, given, Key::Lssbs),
        kb: wide_at(Keyword::Max, given, Key::Kb),
        spab: wide_at(Keyword::Max, given, Key::Spab),
        nb: wide_at(Keyword::Max, given, Key::Nb),
        pgpool: wide_at(Keyword::Max, given, Key::Pgpool),
        reswait: ticks_at(Keyword::Max, given, Key::Reswait),
        blksize: wide_at(Keyword::Max, given, Key::Blksize),
        redelivery: redelivery_at(Keyword::Max, given, Key::Redelivery),
        double: flag_at(Keyword::Max, given, Key::KdcFile),
    })
}

fn program_said(given: &Given) -> Option<Said>
    ensures { result ≡ program_said (answers keywords.Program given.now.slots) }
{
    let name = prog_name_at(Keyword::Program, given, Key::First)?;
    Some(Said::Program(name))
}

// The class of a TAC; 0 for none, which only a dialogue TAC has.
fn class_of(asynchronous: bool, class: Option<u8>) -> u8
    ensures { result ≡ class_of asynchronous class }
{
    match class {
        Some(class) => class,
        None if asynchronous => 16,
        None => 0,
    }
}

fn tac_entry(given: &Given) -> Option<TacEntry>
    ensures { result ≡ tac_entry (answers keywords.Tac given.now.slots) }
{
    let program = prog_name_at(Keyword::Tac, given, Key::Program)?;
    let asynchronous = flag_at(Keyword::Tac, given, Key::Type)?;
    let call = call_at(Keyword::Tac, given, Key::Call)?;
    let on = flag_at(Keyword::Tac, given, Key::Status)?;
    let class = class_at(Keyword::Tac, given, Key::TacClass);
    let time = time_at(Keyword::Tac, given, Key::Time)?;
    let lock = number_at(Keyword::Tac, given, Key::Lock);
    Some(TacEntry {
        program,
        asynchronous,
        call,
        on,
        class: class_of(asynchronous, class),
        time,
        lock,
    })
}

fn tac_said(given: &Given) -> Option<Said>
    ensures { result ≡ tac_said (answers keywords.Tac given.now.slots) }
{
    let name = name_at(Keyword::Tac, given, Key::First)?;
    let entry = tac_entry(given)?;
    Some(Said::Tac(name, entry))
}

fn user_said(alloc: Global, given: &Given) -> Result<Option<Said>, OutOfMemory>
    ensures { IfOk result (λ said. said ≡ user_said (answers keywords.User given.now.slots)) }
{
    let Some(name) = name_at(Keyword::User, given, Key::First) else {
        return Ok(None);
    };
    let Some(restart) = flag_at(Keyword::User, given, Key::Restart) else {
        return Ok(None);
    };
    let kset = name_at(Keyword::User, given, Key::Kset);
    let pass = password_at(alloc, Keyword::User, given, Key::Pass)?;
    Ok(Some(Said::User(
        name,
        UserEntry {
            pass,
            restart,
            kset,
        },
    )))
}

// A PTERM without LTERM is passed over.
fn pterm_said(given: &Given) -> Option<Said>
    ensures { result ≡ pterm_said (answers keywords.Pterm given.now.slots) }
{
    let name = name_at(Keyword::Pterm, given, Key::First)?;
    match name_at(Keyword::Pterm, given, Key::Lterm) {
        Some(lterm) => Some(Said::Pterm(name, PtermEntry { lterm })),
        None => Some(Said::Passed),
    }
}

fn lterm_said(given: &Given) -> Option<Said>
    ensures { result ≡ lterm_said (answers keywords.Lterm given.now.slots) }
{
    let name = name_at(Keyword::Lterm, given, Key::First)?;
    let printer = flag_at(Keyword::Lterm, given, Key::Usage)?;
    let kset = name_at(Keyword::Lterm, given, Key::Kset);
    Some(Said::Lterm(name, LtermEntry { printer, kset }))
}

fn tls_said(given: &Given) -> Option<Said>
    ensures { result ≡ tls_said (answers keywords.Tls given.now.slots) }
{
    let name = name_at(Keyword::Tls, given, Key::First)?;
    Some(Said::Tls(name))
}

fn uls_said(given: &Given) -> Option<Said>
    ensures { result ≡ uls_said (answers keywords.Uls given.now.slots) }
{
    let name = name_at(Keyword::Uls, given, Key::First)?;
    Some(Said::Uls(name))
}

fn class_said(given: &Given) -> Option<Said>
    ensures { result ≡ class_said (answers keywords.TacClass given.now.slots) }
{
    let class = class_at(Keyword::TacClass, given, Key::First)?;
    let tasks = number_at(Keyword::TacClass, given, Key::Tasks)?;
    Some(Said::TacClass(class, tasks))
}

fn kset_said(alloc: Global, given: &Given, operands: &Operands) -> Result<Option<Said>, OutOfMemory>
    ensures { IfOk result (λ said. said ≡ kset_said (answers keywords.Kset given.now.slots) (key_set_of operands.now)) }
{
    let Some(name) = name_at(Keyword::Kset, given, Key::First) else {
        return Ok(None);
    };
    match key_set_of(alloc, operands)? {
        Some(set) => Ok(Some(Said::Kset(name, set))),
        None => Ok(None),
    }
}

/// What the statement with these operands says; `None` where an operand is missing that has no default.
pub(crate) fn said_of(
    alloc: Global,
    keyword: Keyword,
    given: &Given,
    operands: &Operands,
) -> Result<Option<Said>, OutOfMemory>
    ensures { IfOk result (λ said. said ≡ said_of keyword (answers keyword given.now.slots) (key_set_of operands.now)) }
{
    match keyword {
        Keyword::Max => Ok(Some(max_said(given))),
        Keyword::Program => Ok(program_said(given)),
        Keyword::Tac => Ok(tac_said(given)),
        Keyword::User => user_said(alloc, given),
        Keyword::Pterm => Ok(pterm_said(given)),
        Keyword::Lterm => Ok(lterm_said(given)),
        Keyword::Tls => Ok(tls_said(given)),
        Keyword::Uls => Ok(uls_said(given)),
        Keyword::TacClass => Ok(class_said(given)),
        Keyword::Kset => kset_said(alloc, given, operands),
    }
}
