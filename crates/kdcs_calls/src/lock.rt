//! The request for the lock of an area.
ghost use Rattle.std.specs.Prelude.{◌≡◌, IfOk, OnOk};
ghost use Rattle.monitor_parts.specs.Asked.{asked};
ghost use Rattle.abstract_monitor.specs.{Calls.{Performed, on_answer, touches}, State.{OpenTransaction as Transaction}};
ghost use Rattle.open_transaction.specs.Transactions.{transaction_of};
ghost use Rattle.kdcs_calls.specs.{Calling.{HoldsJust}, Parts.{AnswersLock, after_lock}};

use crate::answer::replied;
use crate::outside::CallOutside;
use abstract_monitor::{Called, LockAnswer};
use kd_base::OutOfMemory;
use kdcs_types::{Area, Code, Note};
use monitor_parts::area_locks::LockTable;
use open_transaction::OpenTransaction;

/// Whether the transaction holds the area, as the locks tell. It takes no memory.
pub(crate) fn touches(locks: &LockTable, transaction: &OpenTransaction, area: &Area) -> bool
    requires { HoldsJust locks.now transaction.now.id (transaction_of transaction.now) }
    ensures { result ≡ touches (transaction_of transaction.now) area.now }
{
    locks.holder(area) == Some(transaction.id)
}

// A lock that is granted is held from now on, if it was not before, and a refusal is noted.
fn take_answer(
    transaction: &mut OpenTransaction,
    area: &Area,
    held: bool,
    answer: LockAnswer,
) -> Result<Option<Called>, OutOfMemory>
    requires { held ≡ touches (transaction_of transaction.old) area.now }
    ensures exact { IfOk result (λ called. (go : Transaction → Performed) → after_lock called (transaction_of transaction.new) go ≡ on_answer (transaction_of transaction.old) area.now answer go) }
    ensures areas { transaction.new.areas ≡ transaction.old.areas }
    ensures id { transaction.new.id ≡ transaction.old.id }
    ensures statements { transaction.new.statements ≡ transaction.old.statements }
    ensures messages { transaction.new.messages ≡ transaction.old.messages }
{
    match answer {
        LockAnswer::Granted if held => Ok(None),
        LockAnswer::Granted => {
            transaction.touched.push(*area)?;
            Ok(None)
        }
        LockAnswer::Wait => Ok(Some(Called::Waits)),
        LockAnswer::Busy => {
            transaction.notes.push(Note::Refused(*area, Code::K04))?;
            Ok(Some(replied(Code::K04)))
        }
        LockAnswer::Deadlock => {
            transaction.notes.push(Note::Refused(*area, Code::K05))?;
            Ok(Some(replied(Code::K05)))
        }
    }
}

/// Asks for the lock of an area. `None` where the transaction has it, else what the call answers without it.
pub(crate) fn lock(
    outside: &CallOutside,
    locks: &mut LockTable,
    transaction: &mut OpenTransaction,
    area: &Area,
) -> Result<Option<Called>, OutOfMemory>
    requires { HoldsJust locks.old transaction.old.id (transaction_of transaction.old) }
    ensures exact { IfOk result (λ called. AnswersLock outside.now.generation.now outside.now.tables.now locks.old transaction.old area.now called (transaction_of transaction.new)) }
    ensures locks { OnOk result (locks.new ≡ asked locks.old outside.now.generation.now.limits.reswait outside.now.tables.now.clock transaction.old.id area.now) }
    ensures areas { transaction.new.areas ≡ transaction.old.areas }
    ensures id { transaction.new.id ≡ transaction.old.id }
    ensures statements { transaction.new.statements ≡ transaction.old.statements }
    ensures messages { transaction.new.messages ≡ transaction.old.messages }
{
    let held = touches(locks, transaction, area);
    let reswait = outside.generation.max().reswait;
    let answer = locks.ask(transaction.id, *area, outside.tables.clock(), reswait)?;
    take_answer(transaction, area, held, answer)
}
