//! Abnormal ends.
ghost use Rattle.std.specs.Prelude.{◌≡◌, ◌++◌, IfOk, OnOk};
ghost use Rattle.kdcs_types.specs.{Difference.{difference}, Tables.{IsSortedTables}};
ghost use Rattle.abstract_monitor.specs.{Endings.{broken, durable}, Statements.{kept_record}};
ghost use Rattle.open_transaction.specs.Transactions.{transaction_of};
ghost use Rattle.sync_points.specs.PointChanges.{end_changes, end_writes};

use crate::kept::KeptRecord;
use crate::writes::{real_of, write_fate, write_service};
use application_types::generation::Generation;
use kd_base::OutOfMemory;
use kdcs_types::{Changes, Ending, RowChanges, Tables};
use open_transaction::OpenTransaction;
use std::alloc::Global;

fn write_end(
    changes: &mut RowChanges,
    generation: &Generation,
    tables: &Tables,
    transaction: &OpenTransaction,
) -> Result<(), OutOfMemory>
    ensures { OnOk result (changes.new ≡ changes.old ++ end_writes generation.now tables.now transaction.now.id (transaction_of transaction.now)) }
{
    write_service(changes, generation, transaction.id, &None)?;
    write_fate(
        changes,
        generation,
        tables,
        transaction.id,
        &transaction.began,
    )
}

fn end_changes(
    alloc: Global,
    generation: &Generation,
    tables: &Tables,
    transaction: &OpenTransaction,
) -> Result<Changes, OutOfMemory>
    ensures changes { IfOk result (λ changes. changes ≡ end_changes generation.now tables.now transaction.now.id (transaction_of transaction.now)) }
    ensures sorted { OnOk result (IsSortedTables tables.now) }
{
    let mut changes = RowChanges::new(alloc);
    write_end(&mut changes, generation, tables, transaction)?;
    Ok(Changes {
        clock: tables.clock(),
        next_job: tables.next_job(),
        items: real_of(tables, changes),
    })
}

/// The changes of the durable tables by an abnormal end, by PEND ER or by PEND FR, and what the transaction keeps for
/// its replay: what it wrote is dropped, the service's row goes, and the own job of an asynchronous service without a row
/// is delivered again, is a dead letter, or goes. The changes cost what they are, and a look-up for each; there may be none, and the clock and the next job number stay.
/// The transaction is lost where memory runs out.
pub fn broken(
    transaction: Box<OpenTransaction>,
    alloc: Global,
    generation: &Generation,
    tables: &Tables,
    ending: Ending,
) -> Result<(Changes, KeptRecord), OutOfMemory>
    ensures changes { IfOk result (λ ended. ended.0 ≡ difference (durable generation.now tables.now) (durable generation.now (broken generation.now tables.now transaction.value.id (transaction_of transaction.value)))) }
    ensures kept { IfOk result (λ ended. ended.1 ≡ kept_record transaction.value.id (transaction_of transaction.value) ending) }
{
    let changes = end_changes(alloc, generation, tables, &transaction)?;
    Ok((changes, KeptRecord::of(transaction, ending)))
}
