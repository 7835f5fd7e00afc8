//! The way back to the last synchronisation point.
ghost use Rattle.std.specs.Prelude.{◌≡◌, true, Some, None, IfOk, OnOk};
ghost use Rattle.abstract_monitor.specs.{State.{OpenTransaction as Transaction}, Turns.{back, back_by, ended_acts, last_again, moved_to, without_transaction}};
ghost use Rattle.open_transaction.specs.Transactions.{boxed_transaction};
ghost use Rattle.service_ends.specs.Ending.{turned_to, CanGoOn, ForOpen, IsClosed, Serves};
ghost use Rattle.service_ends.specs.{Standing.{IsIndexed, SameApplication, state_of}, Whole.{app_of}};

use crate::closed::close_transaction;
use crate::core_state::MonitorParts;
use crate::row::go_on;
use crate::terminal::{say_ended, tell};
use crate::turned::Turned;
use kd_base::{Bytes, Name, OutOfMemory};
use kdcs_types::{Acts, Service, ServiceId};
use open_transaction::OpenTransaction;
use std::alloc::Global;

fn without_commit(acts: Acts) -> Turned
    ensures { result ≡ record { moved = true; acts = acts; settled = None } }
{
    Turned {
        moved: true,
        acts,
        settled: None,
    }
}

// The last dialogue message is sent again.
fn send_again(
    parts: &mut MonitorParts,
    alloc: Global,
    id: &ServiceId,
    last: Option<Bytes>,
) -> Result<Turned, OutOfMemory>
    requires indexed { IsIndexed parts.old }
    ensures exact { IfOk result (λ did. turned_to (state_of parts.new) did ≡ last_again (state_of parts.old) id.now last) }
    ensures indexed { OnOk result (IsIndexed parts.new) }
    ensures same { OnOk result (SameApplication parts.old parts.new) }
{
    let mut acts = Acts::new(alloc);
    match (id, last) {
        (ServiceId::Dialogue(user), Some(message)) => {
            tell(parts, alloc, user, message, &mut acts)?;
        }
        _ => {}
    }
    Ok(without_commit(acts))
}

// The service is back at its row, at this LTERM.
fn back_at(
    parts: &mut MonitorParts,
    alloc: Global,
    id: &ServiceId,
    row: Service,
    lterm: &Name,
) -> Result<Turned, OutOfMemory>
    requires indexed { IsIndexed parts.old }
    requires rests { CanGoOn parts.old id.now (Some row) }
    ensures exact { IfOk result (λ did. (x : Transaction) → x.lterm ≡ lterm.now → turned_to (state_of parts.new) did ≡ back_by (app_of parts.old) (state_of parts.old) id.now x row row.awaits) }
    ensures indexed { OnOk result (IsIndexed parts.new) }
    ensures same { OnOk result (SameApplication parts.old parts.new) }
{
    if row.awaits {
        return send_again(parts, alloc, id, row.into_last());
    }
    go_on(parts, alloc, id, row, lterm)?;
    Ok(Turned::quiet(alloc, true))
}

// A service without a row is over.
fn over(parts: &MonitorParts, alloc: Global, id: &ServiceId) -> Result<Turned, OutOfMemory>
    ensures { IfOk result (λ did. turned_to (state_of parts.now) did ≡ moved_to (state_of parts.now) (ended_acts (state_of parts.now) id.now)) }
{
    let mut acts = Acts::new(alloc);
    say_ended(parts, alloc, id, &mut acts)?;
    Ok(without_commit(acts))
}

// The transaction, which is closed, is back at the row of its service, if there is one.
fn back_from(
    parts: &mut MonitorParts,
    alloc: Global,
    mut transaction: Box<OpenTransaction>,
) -> Result<Turned, OutOfMemory>
    requires indexed { IsIndexed parts.old }
    requires closed { IsClosed parts.old transaction }
    ensures exact { IfOk result (λ did. turned_to (state_of parts.new) did ≡ back (app_of parts.old) (state_of parts.old) transaction.value.id (boxed_transaction transaction) transaction.value.began) }
    ensures indexed { OnOk result (IsIndexed parts.new) }
    ensures same { OnOk result (SameApplication parts.old parts.new) }
{
    let id = transaction.id;
    let lterm = transaction.lterm;
    match transaction.began.take() {
        None => over(parts, alloc, &id),
        Some(row) => back_at(parts, alloc, &id, row, &lterm),
    }
}

/// PEND RS: the task is free, the transaction is rolled back, and the service is back at its last synchronisation point. A
/// point that awaits an input has its last message sent again, and from another the service is at the back of the ready
/// list; a service without a point is over.
pub fn go_back(
    parts: &mut MonitorParts,
    alloc: Global,
    task: u16,
    id: &ServiceId,
) -> Result<Turned, OutOfMemory>
    requires serves { (x : Transaction) × Serves parts.old task id.now x }
    ensures exact { IfOk result (λ did. ForOpen (state_of parts.old) id.now (λ x. turned_to (state_of parts.new) did ≡ back (app_of parts.old) (without_transaction (state_of parts.old) task id.now) id.now x x.began)) }
    ensures indexed { OnOk result (IsIndexed parts.new) }
    ensures same { OnOk result (SameApplication parts.old parts.new) }
{
    let transaction = close_transaction(parts, task, id);
    back_from(parts, alloc, transaction)
}
