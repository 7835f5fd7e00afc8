//! Rows of services, and services that go on from them.
ghost use Rattle.std.specs.{Prelude.{◌≡◌, ◌++◌, ◌∷◌, [], false, true, Some, None, IfOk, IsTrue, OnOk}, FinMap.{find}};
ghost use Rattle.kdcs_types.specs.{Keys.{id_cmp}, declared.act.Act.TheVariants.{Commit}, Tables.{AreChanges}};
ghost use Rattle.abstract_monitor.specs.{Endings.{header_of_row, is_durable, opened_by_row, service_change, user_in_row, with_service}, Sessions.{is_running}, Turns.{queued}};
ghost use Rattle.open_transaction.specs.Transactions.{HasOrder};
ghost use Rattle.service_ends.specs.Standing.{IsIndexed, SameApplication, state_of};
ghost use Rattle.table_fit.specs.Pages.{FitPool};
ghost use Rattle.service_ends.specs.Ending.{CanCommit, committed_in};

use crate::core_state::MonitorParts;
use kd_base::{Name, OutOfMemory};
use kdcs_types::{Act, Acts, Changes, Header, RowChanges, Service, ServiceId, Tables};
use service_parts::service_runs::is_durable;
use std::alloc::Global;
use sync_points::service_change;

// The row of the service is this one, or is gone, and nothing else changes.
fn changes_of_row(
    alloc: Global,
    tables: &Tables,
    id: &ServiceId,
    row: &Option<Service>,
) -> Result<Changes, OutOfMemory>
    ensures { IfOk result (λ changes. changes ≡ record { clock = tables.now.clock; next_job = tables.now.next_job; items = service_change id.now row.now ∷ [] }) }
{
    let mut items = RowChanges::new(alloc);
    items.push(service_change(*id, row)?)?;
    Ok(Changes {
        clock: tables.clock(),
        next_job: tables.next_job(),
        items,
    })
}

/// The service has this row in the tables, or none. The durable rows fit into the page pool before and after that.
pub fn set_row(
    parts: &mut MonitorParts,
    alloc: Global,
    id: &ServiceId,
    row: &Option<Service>,
) -> Result<(), OutOfMemory>
    requires indexed { IsIndexed parts.old }
    requires fits { AreChanges (service_change id.now row.now ∷ []) }
    requires before { FitPool parts.old.generation parts.old.tables }
    requires after { FitPool parts.old.generation (with_service parts.old.tables id.now row.now) }
    ensures indexed { OnOk result (IsIndexed parts.new) }
    ensures same { OnOk result (SameApplication parts.old parts.new) }
    ensures state { OnOk result (state_of parts.new ≡ record (state_of parts.old) { tables = with_service parts.old.tables id.now row.now }) }
{
    let changes = changes_of_row(alloc, &parts.tables, id, row)?;
    parts.change(&changes)
}

// The service has no row in the tables, and is to have none.
#[tactic(auto, using(crate::proofs::Rows::none_goes))]
fn has_and_keeps_none(tables: &Tables, id: ServiceId, row: &Option<Service>) -> bool
    ensures { IsTrue result → with_service tables.now id row.now ≡ tables.now }
{
    match row {
        None => match tables.service(id) {
            None => true,
            Some(_) => false,
        },
        Some(_) => false,
    }
}

// The service has this row in the tables, or none, behind the changes of a commit. These lack the row of a service that no
// stop leaves, and have any other.
fn complete_row(
    parts: &mut MonitorParts,
    alloc: Global,
    id: &ServiceId,
    row: &Option<Service>,
) -> Result<(), OutOfMemory>
    requires indexed { IsIndexed parts.old }
    requires fits { AreChanges (service_change id.now row.now ∷ []) }
    requires alone { is_durable parts.old.generation id.now ≡ true → parts.old.tables ≡ with_service parts.old.tables id.now row.now }
    requires before { FitPool parts.old.generation parts.old.tables }
    requires after { FitPool parts.old.generation (with_service parts.old.tables id.now row.now) }
    ensures indexed { OnOk result (IsIndexed parts.new) }
    ensures same { OnOk result (SameApplication parts.old parts.new) }
    ensures state { OnOk result (state_of parts.new ≡ record (state_of parts.old) { tables = with_service parts.old.tables id.now row.now }) }
{
    if has_and_keeps_none(&parts.tables, *id, row) {
        return Ok(());
    }
    if is_durable(&parts.generation, *id) {
        return Ok(());
    }
    set_row(parts, alloc, id, row)
}

/// A commit: the changes of the durable tables, and the row of its service, which is also in the tables where no stop leaves
/// it.
pub(crate) fn commit(
    parts: &mut MonitorParts,
    alloc: Global,
    id: &ServiceId,
    row: &Option<Service>,
    changes: Changes,
    acts: &mut Acts,
) -> Result<(), OutOfMemory>
    requires indexed { IsIndexed parts.old }
    requires commits { CanCommit parts.old changes id.now row.now }
    ensures indexed { OnOk result (IsIndexed parts.new) }
    ensures same { OnOk result (SameApplication parts.old parts.new) }
    ensures state { OnOk result (state_of parts.new ≡ committed_in parts.old changes id.now row.now) }
    ensures acts { OnOk result (acts.new ≡ acts.old ++ Commit changes ∷ []) }
{
    parts.change(&changes)?;
    complete_row(parts, alloc, id, row)?;
    acts.push(Act::Commit(changes))?;
    Ok(())
}

// A dialogue service has the user of its id.
fn user_in_row(id: &ServiceId, row: &Service) -> Name
    ensures { result ≡ user_in_row id.now row.now }
{
    match id {
        ServiceId::Dialogue(user) => *user,
        ServiceId::Asynchronous(_) => row.user,
    }
}

/// The header of a service that goes on from its row, at this LTERM.
pub fn header_of_row(id: &ServiceId, row: &Service, lterm: &Name) -> Header
    ensures { result ≡ header_of_row id.now row.now lterm.now }
{
    Header {
        benid: user_in_row(id, row),
        logter: *lterm,
        tacvg: row.first,
        tacal: row.next,
    }
}

/// A service without an open transaction goes on from its row, at this LTERM, and is at the back of the ready list.
pub fn go_on(
    parts: &mut MonitorParts,
    alloc: Global,
    id: &ServiceId,
    row: Service,
    lterm: &Name,
) -> Result<(), OutOfMemory>
    requires indexed { IsIndexed parts.old }
    requires order { HasOrder (Some row) }
    requires closed { find id_cmp id.now (state_of parts.old).active ≡ None }
    requires unplaced { is_running (state_of parts.old) id.now ≡ false }
    ensures indexed { OnOk result (IsIndexed parts.new) }
    ensures same { OnOk result (SameApplication parts.old parts.new) }
    ensures state { OnOk result (state_of parts.new ≡ queued (state_of parts.old) id.now (opened_by_row parts.old.generation id.now row lterm.now)) }
{
    let header = header_of_row(id, &row, lterm);
    let handed = row.handed.clone()?;
    parts.open(alloc, id, Some(row), header, handed, false)?;
    parts.make_ready(id)
}
