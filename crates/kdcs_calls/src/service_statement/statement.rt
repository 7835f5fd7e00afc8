//! The next statement of a service.
ghost use Rattle.std.specs.Prelude.{◌≡◌, ◌+◌, ◌≤◌, ◌<◌, ◌^◌, IfOk, OnOk, Some};
ghost use Rattle.kdcs_calls.specs.Calling.{HoldersMatch, HoldsJust};
ghost use Rattle.laws_of_states.specs.{Applications.{IsApplication}, Transactions.{CanGoOn}};
ghost use Rattle.laws_of_states.specs.PointLaws.{AreSound};
ghost use Rattle.open_transaction.specs.Transactions.{transaction_of};
ghost use Rattle.abstract_monitor.specs.{Ready.{IsReady}, Statement.{step}};
ghost use Rattle.service_parts.specs.Answers.{meaning_of};
ghost use Rattle.laws_of_runs.specs.Applied.{applied};
ghost use Rattle.application_types.specs.Fitted.{IsFit, unit_of};
ghost use Rattle.kdcs_calls.specs.Stating.{StepLeaves, WaitsAfter, stated_now, waits_after};

use crate::service_statement::call::perform_call;
use crate::service_statement::outside::Outside;
use crate::service_statement::waits::end_wait;
use abstract_monitor::Happened;
use application_types::generation::Generation;
use application_types::unit_types::Unit;
use kd_base::OutOfMemory;
use kdcs_types::{Ending, Tables};
use monitor_parts::area_locks::LockTable;
use monitor_parts::task_units::TaskUnits;
use open_transaction::OpenTransaction;
use service_parts::unit_step::{Stepped, step};
use std::alloc::Global;

/// A plain statement is done and counted; else nothing changes. Fewer than 2^64 - 1 statements were done.
pub fn step_unit(
    alloc: Global,
    unit: &Unit,
    transaction: &mut OpenTransaction,
) -> Result<Stepped, OutOfMemory>
    requires ready { IsReady unit.now transaction.old.run }
    requires statements { transaction.old.statements + 1 < 2 ^ 64 }
    ensures meaning { IfOk result (λ stepped. meaning_of stepped transaction.new.run ≡ step unit.now transaction.old.run) }
    ensures leaves { IfOk result (λ stepped. StepLeaves transaction.old transaction.new stepped) }
    ensures id { transaction.new.id ≡ transaction.old.id }
    ensures nb { transaction.new.messages.nb ≡ transaction.old.messages.nb }
{
    let stepped = step(alloc, unit, &mut transaction.run)?;
    if let Stepped::Plain = &stepped {
        transaction.statements += 1;
    }
    Ok(stepped)
}

// The next statement of the unit that runs, but for the end of a wait.
fn next_statement(
    outside: &Outside,
    unit: &Unit,
    locks: &mut LockTable,
    transaction: &mut OpenTransaction,
) -> Result<Happened, OutOfMemory>
    requires fit { IsFit outside.now.generation.now outside.now.units.now }
    requires unit { Some unit.now ≡ unit_of outside.now.units.now transaction.old.current }
    requires application { IsApplication (applied outside.now.generation.now outside.now.units.now) }
    requires can { CanGoOn outside.now.generation.now transaction.old.id (transaction_of transaction.old) }
    requires sound { AreSound outside.now.generation.now outside.now.tables.now }
    requires holds { HoldsJust locks.old transaction.old.id (transaction_of transaction.old) }
    requires nb { transaction.old.messages.nb ≡ outside.now.generation.now.limits.nb }
    requires statements { transaction.old.statements + 1 < 2 ^ 64 }
    ensures exact { IfOk result (λ h. (transaction_of transaction.new, h) ≡ stated_now (applied outside.now.generation.now outside.now.units.now) outside.now.tables.now locks.old transaction.old) }
    ensures waits { IfOk result (λ h. WaitsAfter (applied outside.now.generation.now outside.now.units.now) outside.now.tables.now locks.old locks.new transaction.old h) }
    ensures holders { OnOk result (HoldersMatch locks.old locks.new transaction.old.id (transaction_of transaction.new)) }
    ensures id { transaction.new.id ≡ transaction.old.id }
    ensures nb { transaction.new.messages.nb ≡ transaction.old.messages.nb }
    ensures counted { OnOk result (transaction.new.statements ≤ transaction.old.statements + 1) }
{
    match step_unit(outside.alloc, unit, transaction)? {
        Stepped::Plain => Ok(Happened::Went),
        Stepped::Asks(call) => {
            let happened = perform_call(outside, unit, locks, transaction, &call);
            drop(call);
            happened
        }
        Stepped::Ends(cause) => Ok(Happened::Breaks(Ending::Broken(cause))),
    }
}

/// Does the next statement of a service, at the clock of the tables, and says what became of it. A statement that waits
/// changes nothing but the wait, and is repeated as it is. `locks` gives the service exactly the areas that its
/// transaction holds. Fewer than 2^64 - 1 statements were done. When memory runs out, the transaction and the locks
/// are of no use any more.
pub fn do_statement<'a>(
    alloc: Global,
    generation: &'a Generation,
    units: &'a TaskUnits,
    tables: &'a Tables,
    locks: &mut LockTable,
    transaction: &mut OpenTransaction,
) -> Result<Happened, OutOfMemory>
    requires fit { IsFit generation.now units.now }
    requires application { IsApplication (applied generation.now units.now) }
    requires can { CanGoOn generation.now transaction.old.id (transaction_of transaction.old) }
    requires sound { AreSound generation.now tables.now }
    requires holds { HoldsJust locks.old transaction.old.id (transaction_of transaction.old) }
    requires nb { transaction.old.messages.nb ≡ generation.now.limits.nb }
    requires statements { transaction.old.statements + 1 < 2 ^ 64 }
    ensures exact { IfOk result (λ h. (transaction_of transaction.new, h) ≡ stated_now (applied generation.now units.now) tables.now locks.old transaction.old) }
    ensures waits { IfOk result (λ h. locks.new.waits ≡ waits_after (applied generation.now units.now) tables.now locks.old transaction.old.id (transaction_of transaction.old) h) }
    ensures holders { OnOk result (HoldersMatch locks.old locks.new transaction.old.id (transaction_of transaction.new)) }
    ensures holds { OnOk result (HoldsJust locks.new transaction.old.id (transaction_of transaction.new)) }
    ensures id { transaction.new.id ≡ transaction.old.id }
    ensures nb { transaction.new.messages.nb ≡ transaction.old.messages.nb }
    ensures counted { OnOk result (transaction.new.statements ≤ transaction.old.statements + 1) }
{
    let Some(unit) = units.unit_of(transaction.current) else {
        unreachable!()
    };
    let outside = Outside {
        alloc,
        generation,
        units: units.units(),
        tables,
    };
    let happened = next_statement(&outside, unit, locks, transaction)?;
    end_wait(locks, transaction.id, &happened);
    Ok(happened)
}
