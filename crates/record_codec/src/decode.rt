//! Contents, read as tables.
ghost use Rattle.std.specs.Prelude.{◌≡◌, Some, None, IfOk, IfSome, OnOk, All};
ghost use Rattle.kdcs_types.specs.Tables.{TableRows, empty_tables, changed, AreChanges};
ghost use Rattle.record_codec.specs.{Records.{AreTablesOf}, Reads.{ReadsWhole}, TableReadings.{AreRecordBytes, sets_read, AreProperTables, changes_of}};

use crate::ascending::ascend;
use crate::reading::Unread;
use crate::rows::row_in;
use kd_base::{Bytes, OutOfMemory};
use kd_records::{Content, RecordKey};
use kdcs_types::{Change, Changes, RowChanges, Tables};
use std::alloc::Global;

// Each record as the change that sets its row.
fn sets_in(alloc: Global, records: &[(RecordKey, Bytes)]) -> Result<RowChanges, Unread>
    ensures read { ReadsWhole result (sets_read records.now) }
    ensures bytes { OnOk result (All AreRecordBytes records.now) }
{
    let mut sets = RowChanges::new(alloc);
    for record in records {
        let row = row_in(alloc, &record.0, record.1.as_slice())?;
        sets.push(Change::Set(row))?;
    }
    Ok(sets)
}

fn tables_with(
    alloc: Global,
    clock: u64,
    next_job: u64,
    items: RowChanges,
) -> Result<Tables, OutOfMemory>
    requires { AreChanges items }
    ensures { IfOk result (λ t. t ≡ changed empty_tables (changes_of clock next_job items)) }
{
    let mut tables = Tables::empty(alloc);
    tables.change(&Changes {
        clock,
        next_job,
        items,
    })?;
    Ok(tables)
}

/// The tables whose records a content has, in time in proportion to its bytes. `None` exactly where there are no such
/// tables: where a record is no row's, or the keys do not ascend without repeats.
pub fn tables_of(alloc: Global, content: &Content) -> Result<Option<Tables>, OutOfMemory>
    ensures found { IfOk result (λ tables. IfSome tables (λ t. AreTablesOf content.now t)) }
    ensures proper { IfOk result (λ tables. IfSome tables (λ t. AreProperTables t)) }
    ensures none { IfOk result (λ tables. tables ≡ None → (t : TableRows) → AreProperTables t → AreTablesOf content.now t → ⊥) }
    ensures back { IfOk result (λ tables. (t : TableRows) → AreProperTables t → AreTablesOf content.now t → tables ≡ Some t) }
{
    let records = content.items.as_slice();
    if !ascend(records) {
        return Ok(None);
    }
    match sets_in(alloc, records) {
        Ok(items) => Ok(Some(tables_with(alloc, content.clock, content.next_job, items)?)),
        Err(Unread::NotThere) => Ok(None),
        Err(Unread::Memory) => Err(OutOfMemory),
    }
}
