//! All calls.
ghost use Rattle.std.specs.Prelude.{◌≡◌, IfOk, OnOk};
ghost use Rattle.abstract_monitor.specs.{Calls.{call_outcome, first_call}, Endings.{is_asynchronous}, Statements.{area_of_call}};
ghost use Rattle.open_transaction.specs.Transactions.{transaction_of};
ghost use Rattle.kdcs_calls.specs.{Calling.{CanRead, HoldersMatch, HoldsJust, WaitsMatch, called_now, locks_after_call, locks_by_call, performed_now}, Parts.{owner_of}};

use crate::answer::replied;
use crate::areas::{Access, access_area, unlock};
use crate::jobs::{moment_in, put_job};
use crate::locals::{Local, access_local};
use crate::messages::{get, put};
use crate::operand::Owner;
use crate::outside::CallOutside;
use crate::pend::pend;
use abstract_monitor::{Called, Due};
use application_types::generation::Generation;
use kd_base::OutOfMemory;
use kdcs_types::{Call, Cause, Code, ServiceId, Tables};
use monitor_parts::area_locks::LockTable;
use open_transaction::OpenTransaction;
use std::alloc::Global;

fn is_asynchronous(id: ServiceId) -> bool
    ensures { result ≡ is_asynchronous id }
{
    matches!(id, ServiceId::Asynchronous(_))
}

// Whose area the call names.
fn owner_of(transaction: &OpenTransaction, call: &Call) -> Owner
    ensures { result ≡ owner_of (transaction_of transaction.now) call.now }
{
    match call {
        Call::SgetUs(..) | Call::SputUs(..) | Call::UnlkUs(_) => Owner::User(transaction.user),
        Call::Gtda(..) | Call::Ptda(..) | Call::UnlkDa(_) => Owner::Lterm(transaction.lterm),
        _ => Owner::All,
    }
}

// Before INIT is done, INIT alone is answered.
fn first_call(transaction: &mut OpenTransaction, call: &Call) -> Called
    ensures exact { (transaction_of transaction.new, result) ≡ first_call (transaction_of transaction.old) call.now }
    ensures id { transaction.new.id ≡ transaction.old.id }
    ensures statements { transaction.new.statements ≡ transaction.old.statements }
    ensures nb { transaction.new.messages.nb ≡ transaction.old.messages.nb }
{
    match call {
        Call::Init => {
            transaction.inited = true;
            replied(Code::Done)
        }
        _ => Called::Abnormal(Cause::E01),
    }
}

// A call, once INIT is done.
#[tactic(auto, unfolding(abstract_monitor::specs::Calls::called))]
fn later_call(
    outside: &CallOutside,
    locks: &mut LockTable,
    transaction: &mut OpenTransaction,
    call: &Call,
) -> Result<Called, OutOfMemory>
    requires holds { HoldsJust locks.old transaction.old.id (transaction_of transaction.old) }
    requires short { CanRead outside.now.tables.now (transaction_of transaction.old) }
    requires nb { transaction.old.messages.nb ≡ outside.now.generation.now.limits.nb }
    ensures exact { IfOk result (λ c. (transaction_of transaction.new, c) ≡ called_now outside.now.generation.now outside.now.tables.now locks.old transaction.old.id (transaction_of transaction.old) call.now) }
    ensures locks { OnOk result (locks.new ≡ locks_by_call outside.now.generation.now outside.now.tables.now.clock locks.old transaction.old.id (transaction_of transaction.old) call.now) }
    ensures id { transaction.new.id ≡ transaction.old.id }
    ensures statements { transaction.new.statements ≡ transaction.old.statements }
    ensures nb { transaction.new.messages.nb ≡ transaction.old.messages.nb }
{
    let g = outside.generation;
    let owner = owner_of(transaction, call);
    let asynchronous = is_asynchronous(transaction.id);
    match call {
        Call::Init => Ok(Called::Abnormal(Cause::E01)),
        Call::Mget(capacity) => Ok(get(transaction, !asynchronous, *capacity)),
        Call::Mput(part) => put(transaction, !asynchronous, part),
        Call::Fget(capacity) => Ok(get(transaction, asynchronous, *capacity)),
        Call::Fput(to, message) => put_job(g, transaction, to, Some(Due::After(0)), message),
        Call::Dput(to, mode, d, h, m, s, message) => {
            put_job(g, transaction, to, moment_in(*mode, d, h, m, s), message)
        }
        Call::SgetGb(name, capacity) => {
            access_area(
                outside,
                locks,
                transaction,
                owner,
                name,
                Access::Read(*capacity),
            )
        }
        Call::SgetUs(name, capacity) | Call::Gtda(name, capacity) => {
            access_area(
                outside,
                locks,
                transaction,
                owner,
                name,
                Access::ReadBlock(*capacity),
            )
        }
        Call::SputGb(name, bytes) | Call::SputUs(name, bytes) | Call::Ptda(name, bytes) => {
            access_area(
                outside,
                locks,
                transaction,
                owner,
                name,
                Access::Write(bytes),
            )
        }
        Call::SrelGb(name) => access_area(outside, locks, transaction, owner, name, Access::Delete),
        Call::UnlkGb(name) | Call::UnlkUs(name) | Call::UnlkDa(name) => {
            unlock(outside, locks, transaction, owner, name)
        }
        Call::SgetKp(name, capacity) => access_local(g, transaction, name, Local::Read(*capacity)),
        Call::SgetRl(name, capacity) => access_local(
            g,
            transaction,
            name,
            Local::ReadAway(*capacity),
        ),
        Call::SputMs(name, bytes) => access_local(g, transaction, name, Local::Write(bytes)),
        Call::SrelLb(name) => access_local(g, transaction, name, Local::Delete),
        Call::Pend(variant, operand) => Ok(pend(g, asynchronous, transaction, *variant, operand)),
    }
}

/// Performs a KDCS call of an open transaction at the clock of the tables: what it answers, or that its request for an
/// area waits, that the service ends abnormally, or that a PEND is not refused. A request that waits changes nothing but
/// the wait, and is repeated as it is. `locks` gives the service exactly the areas that its transaction holds. No
/// part, area or LSSB that it may read is longer than 32,767 bytes. When memory runs out, the transaction and the locks
/// are of no use any more.
#[tactic(auto, unfolding(abstract_monitor::specs::Calls::call_outcome))]
pub fn perform(
    alloc: Global,
    generation: &Generation,
    tables: &Tables,
    locks: &mut LockTable,
    open_work: &mut OpenTransaction,
    call: &Call,
) -> Result<Called, OutOfMemory>
    requires holds { HoldsJust locks.old open_work.old.id (transaction_of open_work.old) }
    requires short { CanRead tables.now (transaction_of open_work.old) }
    requires nb { open_work.old.messages.nb ≡ generation.now.limits.nb }
    ensures exact { IfOk result (λ c. (transaction_of open_work.new, c) ≡ performed_now generation.now tables.now locks.old open_work.old.id (transaction_of open_work.old) call.now) }
    ensures locks { OnOk result (locks.new ≡ locks_after_call generation.now tables.now.clock locks.old open_work.old.id (transaction_of open_work.old) call.now) }
    ensures holders { OnOk result (HoldersMatch locks.old locks.new open_work.old.id (transaction_of open_work.new)) }
    ensures holds { OnOk result (HoldsJust locks.new open_work.old.id (transaction_of open_work.new)) }
    ensures waits { IfOk result (λ c. WaitsMatch locks.old locks.new open_work.old.id tables.now.clock (area_of_call (transaction_of open_work.old) call.now) c) }
    ensures id { open_work.new.id ≡ open_work.old.id }
    ensures statements { open_work.new.statements ≡ open_work.old.statements }
    ensures nb { open_work.new.messages.nb ≡ open_work.old.messages.nb }
{
    if !open_work.inited {
        return Ok(first_call(open_work, call));
    }
    let outside = CallOutside {
        alloc,
        generation,
        tables,
    };
    later_call(&outside, locks, open_work, call)
}
