//! The calls on areas that are locked: GSSBs, and the blocks of users and LTERMs.
ghost use Rattle.std.specs.{Prelude.{◌≡◌, IfOk, IfSome, OnOk, Some, option_map}, FinMap.{find}};
ghost use Rattle.kdcs_types.specs.{declared.key.Area.{Area as AnArea}, Keys.{area_cmp}, Tables.{content_of}};
ghost use Rattle.abstract_monitor.specs.Calls.{deleted, name_in_operand, or_empty, shown_by, wrote};
ghost use Rattle.open_transaction.specs.Transactions.{transaction_of};
ghost use Rattle.kdcs_calls.specs.Calling.{HoldsJust, IsShort, after_release, after_request};
ghost use Rattle.kdcs_calls.specs.Parts.{accessed_by, accessed_in, asked_in, held, named_by, released_in, seen_of, unlocked_by, unlocked_in};

use crate::answer::{read_or, read_reply, replied};
use crate::lock::{lock, touches};
use crate::operand::{Owner, area_in};
use crate::outside::CallOutside;
use abstract_monitor::Called;
use kd_base::{Bytes, OutOfMemory};
use kdcs_types::{Area, Code, Note, Tables};
use monitor_parts::area_locks::LockTable;
use open_transaction::{OpenTransaction, release};
use std::alloc::Global;

/// What a call does with the area that it has locked.
#[derive(Clone, Copy)]
pub(crate) enum Access<'a> {
    /// SGET GB: K03 where the area is absent.
    Read(u32),
    /// SGET US and GTDA: a block that is absent is read as empty.
    ReadBlock(u32),
    /// SPUT GB, SPUT US and PTDA.
    Write(&'a Bytes),
    /// SREL GB: K03 where the area is absent.
    Delete,
}

// An absent block is empty.
fn or_empty(alloc: Global, found: Option<Bytes>) -> Bytes
    ensures { result ≡ or_empty found }
{
    match found {
        Some(bytes) => bytes,
        None => Bytes::new(alloc),
    }
}

// SPUT GB, SPUT US and PTDA, of an area that the transaction holds.
fn write(
    transaction: &mut OpenTransaction,
    area: Area,
    bytes: &Bytes,
) -> Result<Called, OutOfMemory>
    ensures exact { IfOk result (λ called. (transaction_of transaction.new, called) ≡ wrote (transaction_of transaction.old) area (Some bytes.now)) }
    ensures id { transaction.new.id ≡ transaction.old.id }
    ensures statements { transaction.new.statements ≡ transaction.old.statements }
    ensures nb { transaction.new.messages.nb ≡ transaction.old.messages.nb }
{
    transaction.areas.write(area, bytes.clone()?)?;
    Ok(replied(Code::Done))
}

// SREL GB, of an area that the transaction holds.
fn delete(
    tables: &Tables,
    transaction: &mut OpenTransaction,
    area: Area,
) -> Result<Called, OutOfMemory>
    ensures exact { IfOk result (λ called. (transaction_of transaction.new, called) ≡ deleted (transaction_of transaction.old) area (seen_of (content_of tables.now area) (transaction_of transaction.old) area)) }
    ensures id { transaction.new.id ≡ transaction.old.id }
    ensures statements { transaction.new.statements ≡ transaction.old.statements }
    ensures nb { transaction.new.messages.nb ≡ transaction.old.messages.nb }
{
    if transaction.areas.read(tables, &area)?.is_none() {
        return Ok(replied(Code::K03));
    }
    transaction.areas.delete(area)?;
    Ok(replied(Code::Done))
}

// What a call does with an area that the transaction holds.
fn access_held(
    outside: &CallOutside,
    transaction: &mut OpenTransaction,
    area: Area,
    access: Access,
) -> Result<Called, OutOfMemory>
    requires { IfSome (seen_of (content_of outside.now.tables.now area) (transaction_of transaction.old) area) IsShort }
    ensures exact { IfOk result (λ called. (transaction_of transaction.new, called) ≡ held access.entry (content_of outside.now.tables.now area) (transaction_of transaction.old) area) }
    ensures id { transaction.new.id ≡ transaction.old.id }
    ensures statements { transaction.new.statements ≡ transaction.old.statements }
    ensures nb { transaction.new.messages.nb ≡ transaction.old.messages.nb }
{
    match access {
        Access::Read(capacity) => {
            let found = transaction.areas.read(outside.tables, &area)?;
            Ok(read_or(Code::K03, capacity, found))
        }
        Access::ReadBlock(capacity) => {
            let found = transaction.areas.read(outside.tables, &area)?;
            Ok(read_reply(capacity, or_empty(outside.alloc, found)))
        }
        Access::Write(bytes) => write(transaction, area, bytes),
        Access::Delete => delete(outside.tables, transaction, area),
    }
}

// The calls that lock the area first.
fn access_locked(
    outside: &CallOutside,
    locks: &mut LockTable,
    transaction: &mut OpenTransaction,
    area: Result<Area, Code>,
    access: Access,
) -> Result<Called, OutOfMemory>
    requires holds { HoldsJust locks.old transaction.old.id (transaction_of transaction.old) }
    requires short { (a : AnArea) → IfSome (shown_by (find area_cmp a transaction.old.areas.written) (content_of outside.now.tables.now a)) IsShort }
    ensures exact { IfOk result (λ called. (transaction_of transaction.new, called) ≡ accessed_in outside.now.generation.now outside.now.tables.now locks.old transaction.old area access.entry) }
    ensures locks { OnOk result (locks.new ≡ asked_in outside.now.generation.now outside.now.tables.now.clock locks.old transaction.old.id area) }
    ensures id { transaction.new.id ≡ transaction.old.id }
    ensures statements { transaction.new.statements ≡ transaction.old.statements }
    ensures nb { transaction.new.messages.nb ≡ transaction.old.messages.nb }
{
    let area = match area {
        Ok(area) => area,
        Err(code) => return Ok(replied(code)),
    };
    if let Some(called) = lock(outside, locks, transaction, &area)? {
        return Ok(called);
    }
    access_held(outside, transaction, area, access)
}

/// The calls that lock the area in their operand first.
pub(crate) fn access_area(
    outside: &CallOutside,
    locks: &mut LockTable,
    transaction: &mut OpenTransaction,
    owner: Owner,
    operand: &Bytes,
    access: Access,
) -> Result<Called, OutOfMemory>
    requires holds { HoldsJust locks.old transaction.old.id (transaction_of transaction.old) }
    requires short { (a : AnArea) → IfSome (shown_by (find area_cmp a transaction.old.areas.written) (content_of outside.now.tables.now a)) IsShort }
    ensures exact { IfOk result (λ called. (transaction_of transaction.new, called) ≡ accessed_by outside.now.generation.now outside.now.tables.now locks.old transaction.old owner operand.now access.entry) }
    ensures locks { OnOk result (locks.new ≡ after_request outside.now.generation.now outside.now.tables.now.clock locks.old transaction.old.id (option_map (named_by owner) (name_in_operand operand.now))) }
    ensures id { transaction.new.id ≡ transaction.old.id }
    ensures statements { transaction.new.statements ≡ transaction.old.statements }
    ensures nb { transaction.new.messages.nb ≡ transaction.old.messages.nb }
{
    let area = area_in(outside.generation, owner, operand);
    access_locked(outside, locks, transaction, area, access)
}

// The content of an area in the tables.
fn content(tables: &Tables, area: &Area) -> Result<Option<Bytes>, OutOfMemory>
    ensures { IfOk result (λ content. content ≡ content_of tables.now area.now) }
{
    match tables.content(area) {
        Some(bytes) => Ok(Some(bytes.clone()?)),
        None => Ok(None),
    }
}

// UNLK: K06 where the transaction does not hold the area, K07 where it wrote or deleted it.
fn unlock_held(
    outside: &CallOutside,
    locks: &mut LockTable,
    transaction: &mut OpenTransaction,
    area: Result<Area, Code>,
) -> Result<Called, OutOfMemory>
    requires { HoldsJust locks.old transaction.old.id (transaction_of transaction.old) }
    ensures exact { IfOk result (λ called. (transaction_of transaction.new, called) ≡ unlocked_in outside.now.generation.now outside.now.tables.now locks.old transaction.old area) }
    ensures locks { OnOk result (locks.new ≡ released_in locks.old transaction.old.id (transaction_of transaction.old) area) }
    ensures id { transaction.new.id ≡ transaction.old.id }
    ensures statements { transaction.new.statements ≡ transaction.old.statements }
    ensures nb { transaction.new.messages.nb ≡ transaction.old.messages.nb }
{
    match area {
        Err(code) => Ok(replied(code)),
        Ok(area) if !touches(locks, transaction, &area) => Ok(replied(Code::K06)),
        Ok(area) if transaction.areas.changed(&area) => Ok(replied(Code::K07)),
        Ok(area) => {
            let content = content(outside.tables, &area)?;
            transaction.notes.push(Note::Released(area, content))?;
            release(outside.alloc, &mut transaction.touched, &area);
            let _held = locks.unlock(transaction.id, &area);
            Ok(replied(Code::Done))
        }
    }
}

/// UNLK of the area in the operand.
pub(crate) fn unlock(
    outside: &CallOutside,
    locks: &mut LockTable,
    transaction: &mut OpenTransaction,
    owner: Owner,
    operand: &Bytes,
) -> Result<Called, OutOfMemory>
    requires { HoldsJust locks.old transaction.old.id (transaction_of transaction.old) }
    ensures exact { IfOk result (λ called. (transaction_of transaction.new, called) ≡ unlocked_by outside.now.generation.now outside.now.tables.now locks.old transaction.old owner operand.now) }
    ensures locks { OnOk result (locks.new ≡ after_release outside.now.generation.now locks.old transaction.old.id (transaction_of transaction.old) (option_map (named_by owner) (name_in_operand operand.now))) }
    ensures id { transaction.new.id ≡ transaction.old.id }
    ensures statements { transaction.new.statements ≡ transaction.old.statements }
    ensures nb { transaction.new.messages.nb ≡ transaction.old.messages.nb }
{
    let area = area_in(outside.generation, owner, operand);
    unlock_held(outside, locks, transaction, area)
}
