//! A statement that is a KDCS call.
ghost use Rattle.std.specs.Prelude.{◌≡◌, ◌+◌, ◌≤◌, ◌<◌, ◌^◌, IfOk, OnOk};
ghost use Rattle.kdcs_calls.specs.Calling.{HoldersMatch, HoldsJust};
ghost use Rattle.abstract_monitor.specs.{Endings.{is_asynchronous}, Statements.{area_of_call}};
ghost use Rattle.laws_of_states.specs.OpenLaws.{CalledFits, StandsIn};
ghost use Rattle.open_transaction.specs.Transactions.{transaction_of};
ghost use Rattle.abstract_monitor.specs.{Ready.{IsReady}, Statement.{Asks, step}};
ghost use Rattle.laws_of_runs.specs.Applied.{applied};
ghost use Rattle.kdcs_calls.specs.Stating.{ContentsFit, answered_now, call_now, wait_ended, waits_by};

use crate::perform;
use crate::service_statement::outside::Outside;
use crate::service_statement::pend::pend;
use abstract_monitor::{Called, Happened};
use application_types::unit_types::Unit;
use kd_base::OutOfMemory;
use kdcs_types::{Call, Ending};
use monitor_parts::area_locks::LockTable;
use open_transaction::OpenTransaction;

// What the answer of a call does: a reply is stored, and its statement is counted.
fn after_call(
    outside: &Outside,
    unit: &Unit,
    transaction: &mut OpenTransaction,
    called: Called,
) -> Result<Happened, OutOfMemory>
    requires ready { IsReady unit.now transaction.old.run }
    requires fits { CalledFits outside.now.generation.now (is_asynchronous transaction.old.id) unit.now transaction.old.run called }
    requires statements { transaction.old.statements + 1 < 2 ^ 64 }
    ensures exact { IfOk result (λ h. (transaction_of transaction.new, h) ≡ answered_now (applied outside.now.generation.now outside.now.units.now) transaction.old unit.now called) }
    ensures id { transaction.new.id ≡ transaction.old.id }
    ensures counted { OnOk result (transaction.new.statements ≤ transaction.old.statements + 1) }
    ensures nb { transaction.old.messages.nb ≡ outside.now.generation.now.limits.nb → transaction.new.messages.nb ≡ outside.now.generation.now.limits.nb }
{
    match called {
        Called::Replied(reply) => {
            transaction.count(unit, &reply);
            Ok(Happened::Went)
        }
        Called::Waits => Ok(Happened::Waited),
        Called::Abnormal(cause) => Ok(Happened::Breaks(Ending::Broken(cause))),
        Called::Pends(variant, outcome) => pend(outside, transaction, variant, outcome),
    }
}

/// Performs the call that a statement asks for, and what its answer does. `locks` gives the service exactly the areas that
/// its transaction holds, and no content of an area is longer than 32,767 bytes. When memory runs out, the transaction and
/// the locks are of no use any more.
pub fn perform_call(
    outside: &Outside,
    unit: &Unit,
    locks: &mut LockTable,
    transaction: &mut OpenTransaction,
    call: &Call,
) -> Result<Happened, OutOfMemory>
    requires stands { StandsIn (applied outside.now.generation.now outside.now.units.now) transaction.old.id (transaction_of transaction.old) unit.now }
    requires contents { ContentsFit outside.now.tables.now }
    requires asks { step unit.now transaction.old.run ≡ Asks call.now }
    requires holds { HoldsJust locks.old transaction.old.id (transaction_of transaction.old) }
    requires nb { transaction.old.messages.nb ≡ outside.now.generation.now.limits.nb }
    requires statements { transaction.old.statements + 1 < 2 ^ 64 }
    ensures exact { IfOk result (λ h. (transaction_of transaction.new, h) ≡ call_now (applied outside.now.generation.now outside.now.units.now) outside.now.tables.now locks.old transaction.old unit.now call.now) }
    ensures waits { IfOk result (λ h. (wait_ended locks.new transaction.old.id h).waits ≡ waits_by locks.old transaction.old.id outside.now.tables.now.clock (area_of_call (transaction_of transaction.old) call.now) h) }
    ensures holders { OnOk result (HoldersMatch locks.old locks.new transaction.old.id (transaction_of transaction.new)) }
    ensures id { transaction.new.id ≡ transaction.old.id }
    ensures counted { OnOk result (transaction.new.statements ≤ transaction.old.statements + 1) }
    ensures nb { transaction.new.messages.nb ≡ transaction.old.messages.nb }
{
    let called = perform(
        outside.alloc,
        outside.generation,
        outside.tables,
        locks,
        transaction,
        call,
    )?;
    after_call(outside, unit, transaction, called)
}
