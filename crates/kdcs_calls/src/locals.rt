//! The calls on LSSBs.
ghost use Rattle.std.specs.{Prelude.{◌≡◌, IfOk, IfSome}, FinMap.{find}};
ghost use Rattle.abstract_monitor.specs.{Bytes.{Bytes, bytes_cmp}, Calls.{read_away, write_local}};
ghost use Rattle.open_transaction.specs.Transactions.{transaction_of};
ghost use Rattle.kdcs_calls.specs.{Calling.{IsShort}, Parts.{local_by}};

use crate::answer::{read_or, read_reply, replied};
use crate::operand::name_in;
use abstract_monitor::Called;
use application_types::generation::Generation;
use kd_base::{Bytes, Name, OutOfMemory};
use kdcs_types::Code;
use open_transaction::OpenTransaction;

/// What a call does with the LSSB in its operand: K03 where one that is read or deleted is absent.
#[derive(Clone, Copy)]
pub(crate) enum Local<'a> {
    /// SGET KP.
    Read(u32),
    /// SGET RL.
    ReadAway(u32),
    /// SPUT MS.
    Write(&'a Bytes),
    /// SREL LB.
    Delete,
}

// What was read away, once it is deleted.
fn read_away(
    transaction: &mut OpenTransaction,
    name: Name,
    capacity: u32,
) -> Result<Called, OutOfMemory>
    requires { IfSome (find bytes_cmp name transaction.old.areas.lssbs) IsShort }
    ensures exact { IfOk result (λ called. (transaction_of transaction.new, called) ≡ read_away (transaction_of transaction.old) name capacity) }
    ensures id { transaction.new.id ≡ transaction.old.id }
    ensures statements { transaction.new.statements ≡ transaction.old.statements }
    ensures nb { transaction.new.messages.nb ≡ transaction.old.messages.nb }
{
    match transaction.areas.read_local(name)? {
        None => Ok(replied(Code::K03)),
        Some(bytes) => {
            let _deleted = transaction.areas.delete_local(name);
            Ok(read_reply(capacity, bytes))
        }
    }
}

// SPUT MS.
fn write(
    generation: &Generation,
    transaction: &mut OpenTransaction,
    name: Name,
    bytes: &Bytes,
) -> Result<Called, OutOfMemory>
    ensures exact { IfOk result (λ called. (transaction_of transaction.new, called) ≡ write_local generation.now (transaction_of transaction.old) name bytes.now) }
    ensures id { transaction.new.id ≡ transaction.old.id }
    ensures statements { transaction.new.statements ≡ transaction.old.statements }
    ensures nb { transaction.new.messages.nb ≡ transaction.old.messages.nb }
{
    let limit = generation.max().lssbs;
    let code = transaction.areas.write_local(name, bytes.clone()?, limit)?;
    Ok(replied(code))
}

/// The calls on the LSSB in their operand.
pub(crate) fn access_local(
    generation: &Generation,
    transaction: &mut OpenTransaction,
    operand: &Bytes,
    access: Local,
) -> Result<Called, OutOfMemory>
    requires { (name : Bytes) → IfSome (find bytes_cmp name transaction.old.areas.lssbs) IsShort }
    ensures exact { IfOk result (λ called. (transaction_of transaction.new, called) ≡ local_by generation.now (transaction_of transaction.old) operand.now access.entry) }
    ensures id { transaction.new.id ≡ transaction.old.id }
    ensures statements { transaction.new.statements ≡ transaction.old.statements }
    ensures nb { transaction.new.messages.nb ≡ transaction.old.messages.nb }
{
    let Some(name) = name_in(operand) else {
        return Ok(replied(Code::K11));
    };
    match access {
        Local::Read(capacity) => {
            let found = transaction.areas.read_local(name)?;
            Ok(read_or(Code::K03, capacity, found))
        }
        Local::ReadAway(capacity) => read_away(transaction, name, capacity),
        Local::Write(bytes) => write(generation, transaction, name, bytes),
        Local::Delete => Ok(replied(transaction.areas.delete_local(name))),
    }
}
