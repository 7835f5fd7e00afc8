//! What the transaction of a record changes, run in one go.
ghost use Rattle.std.specs.Prelude.{◌≡◌, ◌↔◌, ◌≤◌, ◌∷◌, [], IfOk, IfNone, IfSome, IsTrue, OnOk, option_copied};
ghost use Rattle.monitor_parts.specs.Asked.{no_locks};
ghost use Rattle.abstract_monitor.specs.{Charges.{total_charge}, Endings.{durable, is_durable, service_change, with_service}, Statements.{kept_of}};
ghost use Rattle.kdcs_types.specs.Tables.{AreChanges, lterm_fits, service_of};
ghost use Rattle.laws_of_runs.specs.Applied.{applied};
ghost use Rattle.laws_of_states.specs.Suits.{Suits};
ghost use Rattle.application_types.specs.Fitted.{IsFit};
ghost use Rattle.serial_audit.specs.{Audit.{BeganIn, HasDueJob, IsDueFor, IsTrailRecord, most_statements, volatile_row_suits}, Expecting.{ExpectsReplay, IsReady, IsReplayed}, Opening.{Rooted}};
ghost use Rattle.serial_audit.specs.Replaying.{Auditable, IsAuditable, app_of, kept_in, tables_in};
ghost use Rattle.laws_of_states.specs.Replay.{lterm_in, tac_in};

use crate::ending::end;
use crate::names::{Names, has_short_items, has_user, names_in};
use crate::notes::same_notes;
use crate::opening::open;
use crate::replay::{Replay, has_read, run};
use crate::same::same_ending;
use application_types::generation::Generation;
use application_types::units::Units;
use kd_base::{Name, OutOfMemory};
use kdcs_calls::service_statement::Outside;
use kdcs_types::{
    Change, Changes, JobValue, Key, Row, RowChanges, Service, ServiceId, Settled, Tables, Target,
};
use laws_of_runs::laws_of_applications::fitted_units_make_an_application;
use monitor_parts::area_locks::LockTable;
use record_codec::ascend;
use service_parts::service_runs::is_durable;
use std::alloc::Global;
use sync_points::same_service;
use table_fit::{service_suits, total_charge};

fn service_change(id: &ServiceId, row: &Option<Service>) -> Result<Change, OutOfMemory>
    ensures { IfOk result (λ change. change ≡ service_change id.now row.now) }
{
    match row {
        Some(row) => Ok(Change::Set(Row::Service(*id, row.clone()?))),
        None => Ok(Change::Remove(Key::Service(*id))),
    }
}

// The service has this row in the tables, or none.
fn set_row(
    alloc: Global,
    tables: &mut Tables,
    id: &ServiceId,
    row: &Option<Service>,
) -> Result<(), OutOfMemory>
    requires { AreChanges (service_change id.now row.now ∷ []) }
    ensures { OnOk result (tables.new ≡ with_service tables.old id.now row.now) }
{
    let mut items = RowChanges::new(alloc);
    items.push(service_change(id, row)?)?;
    tables.change(&Changes {
        clock: tables.clock(),
        next_job: tables.next_job(),
        items,
    })
}

// The record says that its service began with the row that is in the tables, or with none.
fn has_row(tables: &Tables, id: &ServiceId, began: &Option<Service>) -> bool
    ensures { IsTrue result ↔ (service_of tables.now id.now ≡ began.now) }
{
    match (tables.service(*id), began) {
        (Some(row), Some(other)) => same_service(row, other),
        (None, None) => true,
        _ => false,
    }
}

fn lterm_fits(row: &Service) -> bool
    ensures { result ≡ lterm_fits row.now.id row.now.lterm }
{
    match row.id {
        ServiceId::Dialogue(_) => row.lterm.is_none(),
        ServiceId::Asynchronous(_) => row.lterm.is_some(),
    }
}

// The row of a service that no stop leaves.
fn volatile_row_suits(generation: &Generation, id: &ServiceId, row: &Service) -> bool
    ensures { result ≡ volatile_row_suits generation.now id.now row.now }
{
    row.id == *id
        && lterm_fits(row)
        && ascend(row.lssbs.as_slice())
        && service_suits(generation, row)
}

fn began_in(
    generation: &Generation,
    tables: &Tables,
    id: &ServiceId,
    began: &Option<Service>,
) -> bool
    ensures { IsTrue result ↔ BeganIn generation.now tables.now id.now (is_durable generation.now id.now) began.now }
{
    if is_durable(generation, *id) {
        return has_row(tables, id, began);
    }
    match began {
        None => tables.service(*id).is_none(),
        Some(row) => volatile_row_suits(generation, id, row),
    }
}

fn is_due_for(clock: u64, tac: Name, job: Option<&JobValue>) -> bool
    ensures { IsTrue result ↔ IsDueFor clock tac (option_copied job.entry) }
{
    match job {
        Some(job) => job.due <= clock && job.to == Target::Tac(tac),
        None => false,
    }
}

// An asynchronous service without a row has its job, which is due.
fn has_due_job(tables: &Tables, record: &Settled, tac: Name) -> bool
    requires { tac ≡ tac_in (kept_of record.now) }
    ensures { IsTrue result ↔ HasDueJob tables.now (kept_of record.now) record.now.service record.now.began }
{
    match (record.service, &record.began) {
        (ServiceId::Asynchronous(number), None) => {
            is_due_for(tables.clock(), tac, tables.job(number))
        }
        _ => true,
    }
}

// The names with which the inputs of a record begin, if it may determine a replay that starts from these tables.
fn ready(generation: &Generation, tables: &Tables, record: &Settled) -> Option<Names>
    ensures some { IfSome result (λ names. IsReady generation.now tables.now record.now × ((names.tac ≡ tac_in (kept_of record.now)) × (names.lterm ≡ lterm_in (kept_of record.now)))) }
    ensures none { IfNone result (IsReady generation.now tables.now record.now → ⊥) }
{
    let names = names_in(generation, record)?;
    if has_user(generation, record.service)
        && has_short_items(generation, record)
        && began_in(generation, tables, &record.service, &record.began)
        && has_due_job(tables, record, names.tac)
    {
        Some(names)
    } else {
        None
    }
}

// What the transaction changes in the durable tables, where the record determines its replay and ends so. The durable
// rows take `charge` pages. The replay and the locks are lent: beside the transaction they would be dear to own.
fn replayed_with(
    replay: &Replay,
    locks: &mut LockTable,
    charge: u64,
    names: Names,
) -> Result<Option<Changes>, OutOfMemory>
    requires auditable { IsAuditable replay.now }
    requires can { Rooted replay.now.outside.generation.now (tables_in replay.now) (kept_in replay.now) }
    requires locks { locks.old ≡ no_locks }
    requires few { replay.now.record.now.statements ≤ most_statements }
    requires charge { charge ≡ total_charge replay.now.outside.generation.now.limits.blksize (durable replay.now.outside.generation.now (tables_in replay.now)) }
    requires tac { names.tac ≡ tac_in (kept_in replay.now) }
    requires lterm { names.lterm ≡ lterm_in (kept_in replay.now) }
    ensures { IfOk result (IsReplayed (app_of replay.now) (tables_in replay.now) replay.now.record.now) }
{
    let record = replay.record;
    let mut transaction = open(replay, names)?;
    if !has_read(record, &transaction) {
        return Ok(None);
    }
    if !run(replay, locks, &mut transaction)? {
        return Ok(None);
    }
    if !same_notes(transaction.notes.as_slice(), record.notes.as_slice()) {
        return Ok(None);
    }
    match end(replay, charge, locks, transaction)? {
        Some(ended) => {
            if same_ending(ended.ending, record.ending) {
                Ok(Some(ended.changes))
            } else {
                Ok(None)
            }
        }
        None => Ok(None),
    }
}

// The same, from no locks.
fn replayed<'a>(
    outside: &Outside<'a>,
    record: &'a Settled,
    charge: u64,
    names: Names,
) -> Result<Option<Changes>, OutOfMemory>
    requires auditable { Auditable outside.now.generation.now outside.now.units.now outside.now.tables.now (kept_of record.now) }
    requires can { Rooted outside.now.generation.now outside.now.tables.now (kept_of record.now) }
    requires few { record.now.statements ≤ most_statements }
    requires charge { charge ≡ total_charge outside.now.generation.now.limits.blksize (durable outside.now.generation.now outside.now.tables.now) }
    requires tac { names.tac ≡ tac_in (kept_of record.now) }
    requires lterm { names.lterm ≡ lterm_in (kept_of record.now) }
    ensures { IfOk result (IsReplayed (applied outside.now.generation.now outside.now.units.now) outside.now.tables.now record.now) }
{
    let replay = Replay {
        outside: *outside,
        record,
    };
    let mut locks = LockTable::new(outside.alloc);
    replayed_with(&replay, &mut locks, charge, names)
}

// The same, over all that is looked at.
fn replayed_over<'a>(
    alloc: Global,
    generation: &'a Generation,
    units: &'a Units,
    tables: &'a Tables,
    record: &'a Settled,
    charge: u64,
    names: Names,
) -> Result<Option<Changes>, OutOfMemory>
    requires auditable { Auditable generation.now units.now tables.now (kept_of record.now) }
    requires can { Rooted generation.now tables.now (kept_of record.now) }
    requires few { record.now.statements ≤ most_statements }
    requires charge { charge ≡ total_charge generation.now.limits.blksize (durable generation.now tables.now) }
    requires tac { names.tac ≡ tac_in (kept_of record.now) }
    requires lterm { names.lterm ≡ lterm_in (kept_of record.now) }
    ensures { IfOk result (IsReplayed (applied generation.now units.now) tables.now record.now) }
{
    let outside = Outside {
        alloc,
        generation,
        units,
        tables,
    };
    replayed(&outside, record, charge, names)
}

/// What the transaction of a record changes in durable tables, if the record determines its replay on them and ends so.
/// The tables are the same then, but where memory runs out.
pub(crate) fn transaction_changes(
    alloc: Global,
    generation: &Generation,
    units: &Units,
    tables: &mut Tables,
    record: &Settled,
) -> Result<Option<Changes>, OutOfMemory>
    requires fit { IsFit generation.now units.now }
    requires suits { Suits generation.now tables.old }
    requires kept { IsTrailRecord record.now }
    ensures expected { IfOk result (ExpectsReplay (applied generation.now units.now) tables.old record.now) }
    ensures same { OnOk result (tables.new ≡ tables.old) }
{
    let _clock = tables.clock(); // for the proof
    fitted_units_make_an_application(generation, units);
    let Some(names) = ready(generation, tables, record) else {
        return Ok(None);
    };
    let charge = total_charge(tables, generation.max().blksize);
    let lasts = is_durable(generation, record.service);
    if lasts {
        return replayed_over(alloc, generation, units, tables, record, charge, names);
    }
    set_row(alloc, tables, &record.service, &record.began)?;
    let changes = replayed_over(alloc, generation, units, tables, record, charge, names)?;
    set_row(alloc, tables, &record.service, &None)?;
    Ok(changes)
}
