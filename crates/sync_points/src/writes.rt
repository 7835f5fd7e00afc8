//! What ends of transactions write, one kind of row after another.
ghost use Rattle.std.specs.Prelude.{◌≡◌, ◌++◌, IfOk, OnOk, option_and_then, option_copied, filter};
ghost use Rattle.sync_points.specs.PointChanges.{fate_changes, is_real, own_job_changes, service_changes};
ghost use Rattle.abstract_monitor.specs.{Endings.{job_change, service_change}, Redelivery.{fate, has_dead_letter_queue}};

use crate::real::is_real;
use application_types::generation::Generation;
use kd_base::OutOfMemory;
use kdcs_types::{Change, JobValue, Key, Row, RowChanges, Service, ServiceId, Tables};
use open_transaction::async_queue::{dead_letter_queue, fate_change, own_job};
use service_parts::service_runs::is_durable;

/// The row of a service is this one, or is gone.
pub fn service_change(id: ServiceId, row: &Option<Service>) -> Result<Change, OutOfMemory>
    ensures { IfOk result (λ change. change ≡ service_change id row.now) }
{
    match row {
        Some(row) => Ok(Change::Set(Row::Service(id, row.clone()?))),
        None => Ok(Change::Remove(Key::Service(id))),
    }
}

pub(crate) fn write_service(
    changes: &mut RowChanges,
    generation: &Generation,
    id: ServiceId,
    row: &Option<Service>,
) -> Result<(), OutOfMemory>
    ensures { OnOk result (changes.new ≡ changes.old ++ service_changes generation.now id row.now) }
{
    if !is_durable(generation, id) {
        return Ok(());
    }
    changes.push(service_change(id, row)?)
}

pub(crate) fn write_own_job(
    changes: &mut RowChanges,
    id: ServiceId,
    began: &Option<Service>,
) -> Result<(), OutOfMemory>
    ensures { OnOk result (changes.new ≡ changes.old ++ own_job_changes id began.now) }
{
    match (id, began) {
        (ServiceId::Asynchronous(number), None) => changes.push(Change::Remove(Key::Job(number))),
        _ => Ok(()),
    }
}

// The dead letter queue is an LTERM of the generation.
fn has_dead_letter_queue(generation: &Generation) -> bool
    ensures { result ≡ has_dead_letter_queue generation.now }
{
    generation.lterm(dead_letter_queue()).is_some()
}

// What becomes of a job whose service ends abnormally before its first point.
#[tactic(auto, unfolding(abstract_monitor::specs::Redelivery::fate))]
fn fate_of_own(
    generation: &Generation,
    number: u64,
    value: Option<&JobValue>,
) -> Result<Change, OutOfMemory>
    ensures { IfOk result (λ change. change ≡ job_change number (option_and_then (fate generation.now) (option_copied value.entry))) }
{
    match value {
        Some(value) => {
            let limit = generation.max().redelivery;
            fate_change(number, value, limit, has_dead_letter_queue(generation))
        }
        None => Ok(Change::Remove(Key::Job(number))),
    }
}

/// The own job meets its fate, where there is one.
pub(crate) fn write_fate(
    changes: &mut RowChanges,
    generation: &Generation,
    tables: &Tables,
    id: ServiceId,
    began: &Option<Service>,
) -> Result<(), OutOfMemory>
    ensures { OnOk result (changes.new ≡ changes.old ++ fate_changes generation.now tables.now id began.now) }
{
    match own_job(id, began) {
        Some(number) => changes.push(fate_of_own(generation, number, tables.job(number))?),
        None => Ok(()),
    }
}

/// The changes that leave another row than is there.
pub(crate) fn real_of(tables: &Tables, changes: RowChanges) -> RowChanges
    ensures { result ≡ filter (is_real tables.now) changes }
{
    let mut changes = changes.into_vec();
    changes.retain(|change| is_real(tables, change));
    RowChanges::from_vec(changes)
}
