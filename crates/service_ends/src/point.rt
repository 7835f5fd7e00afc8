//! Synchronisation points.
ghost use Rattle.std.specs.Prelude.{◌≡◌, ◌++◌, ◌∷◌, [], IfOk, OnOk};
ghost use Rattle.kdcs_types.specs.declared.act.Act.TheVariants.{Commit};
ghost use Rattle.abstract_monitor.specs.{Endings.{joined}, State.{OpenTransaction as Transaction}, Turns.{settled}};
ghost use Rattle.open_transaction.specs.Transactions.{boxed_transaction, transaction_of};
ghost use Rattle.service_ends.specs.Ending.{CanCommit, committed_in, goes_on_from, point_with, pointed_to, sent_by, turned_to, CanGoOn, ForOpen, IsClosed, Serves};
ghost use Rattle.service_ends.specs.{Standing.{IsIndexed, SameApplication, state_of}, Whole.{app_of}};

use crate::broken::end_transaction;
use crate::closed::close_transaction;
use crate::core_state::MonitorParts;
use crate::row::{commit, go_on};
use crate::terminal::tell;
use crate::turned::Turned;
use abstract_monitor::Outcome;
use kd_base::{Bytes, Name, OutOfMemory};
use kdcs_types::{Acts, Changes, Ending, Service, ServiceId};
use open_transaction::OpenTransaction;
use std::alloc::Global;
use sync_points::{KeptRecord, SettleAnswer};

/// What is left of a transaction that comes to a point.
#[derive(Drop)]
struct Ended {
    id: ServiceId,
    outcome: Outcome,
    lterm: Name,
    /// The parts that it put, joined for the line; the row has them joined anew, since memory is taken before a commit.
    message: Bytes,
}

fn ended_by(
    alloc: Global,
    transaction: &OpenTransaction,
    outcome: &Outcome,
) -> Result<Ended, OutOfMemory>
    ensures { IfOk result (λ ended. ended ≡ record { id = transaction.now.id; outcome = outcome.now; lterm = (transaction_of transaction.now).lterm; message = joined (transaction_of transaction.now).parts }) }
{
    Ok(Ended {
        id: transaction.id,
        outcome: *outcome,
        lterm: transaction.lterm,
        message: transaction.message(alloc)?,
    })
}

// After RE and FI the message of a dialogue service is sent; after SP and FC the service goes on from its row.
fn go_behind(
    parts: &mut MonitorParts,
    alloc: Global,
    ended: Ended,
    row: Option<Service>,
    acts: &mut Acts,
) -> Result<(), OutOfMemory>
    requires indexed { IsIndexed parts.old }
    requires rests { CanGoOn parts.old ended.id row }
    ensures indexed { OnOk result (IsIndexed parts.new) }
    ensures same { OnOk result (SameApplication parts.old parts.new) }
    ensures state { OnOk result (state_of parts.new ≡ goes_on_from (app_of parts.old) (state_of parts.old) ended.id row ended.outcome ended.message ended.lterm) }
    ensures acts { OnOk result (acts.new ≡ acts.old ++ sent_by (state_of parts.old) ended.id ended.outcome ended.message) }
{
    let Ended {
        id,
        outcome,
        lterm,
        message,
    } = ended;
    match outcome {
        Outcome::Wait(_) | Outcome::Finish => match &id {
            ServiceId::Dialogue(user) => tell(parts, alloc, user, message, acts),
            ServiceId::Asynchronous(_) => Ok(()),
        },
        Outcome::Point(_) | Outcome::Follow(_) => match row {
            Some(row) => go_on(parts, alloc, &id, row, &lterm),
            None => Ok(()),
        },
        Outcome::Hold(_) | Outcome::Stay(_) | Outcome::Queue(_) | Outcome::Break | Outcome::Back =>
            Ok(()),
    }
}

// The commit of a point, and what follows it.
fn point_acts(
    parts: &mut MonitorParts,
    alloc: Global,
    ended: Ended,
    changes: Changes,
    row: Option<Service>,
) -> Result<Acts, OutOfMemory>
    requires indexed { IsIndexed parts.old }
    requires commits { CanCommit parts.old changes ended.id row }
    requires rests { CanGoOn parts.old ended.id row }
    ensures acts { IfOk result (λ acts. acts ≡ Commit changes ∷ sent_by (committed_in parts.old changes ended.id row) ended.id ended.outcome ended.message) }
    ensures state { OnOk result (state_of parts.new ≡ goes_on_from (app_of parts.old) (committed_in parts.old changes ended.id row) ended.id row ended.outcome ended.message ended.lterm) }
    ensures indexed { OnOk result (IsIndexed parts.new) }
    ensures same { OnOk result (SameApplication parts.old parts.new) }
{
    let id = ended.id;
    let mut acts = Acts::new(alloc);
    commit(parts, alloc, &id, &row, changes, &mut acts)?;
    go_behind(parts, alloc, ended, row, &mut acts)?;
    Ok(acts)
}

// The turn of a point.
fn synchronise(
    parts: &mut MonitorParts,
    alloc: Global,
    ended: Ended,
    changes: Changes,
    row: Option<Service>,
    kept: KeptRecord,
) -> Result<Turned, OutOfMemory>
    requires indexed { IsIndexed parts.old }
    requires commits { CanCommit parts.old changes ended.id row }
    requires rests { CanGoOn parts.old ended.id row }
    ensures exact { IfOk result (λ did. turned_to (state_of parts.new) did ≡ point_with parts.old changes ended.id row ended.outcome ended.message ended.lterm kept) }
    ensures indexed { OnOk result (IsIndexed parts.new) }
    ensures same { OnOk result (SameApplication parts.old parts.new) }
{
    let acts = point_acts(parts, alloc, ended, changes, row)?;
    Ok(Turned {
        moved: true,
        acts,
        settled: Some(kept),
    })
}

// The transaction, which is closed, comes to a synchronisation point, or to the abnormal end that refuses it.
fn settle_transaction(
    parts: &mut MonitorParts,
    alloc: Global,
    transaction: Box<OpenTransaction>,
    outcome: Outcome,
) -> Result<Turned, OutOfMemory>
    requires indexed { IsIndexed parts.old }
    requires closed { IsClosed parts.old transaction }
    ensures exact { IfOk result (λ did. turned_to (state_of parts.new) did ≡ pointed_to (app_of parts.old) (state_of parts.old) transaction.value.id (boxed_transaction transaction) outcome) }
    ensures indexed { OnOk result (IsIndexed parts.new) }
    ensures same { OnOk result (SameApplication parts.old parts.new) }
{
    let ended = ended_by(alloc, &transaction, &outcome)?;
    match sync_points::settle(
        transaction,
        alloc,
        &parts.generation,
        &parts.tables,
        parts.charge,
        outcome,
    )? {
        SettleAnswer::Refused(cause, transaction) => end_transaction(
            parts,
            alloc,
            transaction,
            Ending::Broken(cause),
        ),
        SettleAnswer::Synced(changes, row, kept) => {
            synchronise(parts, alloc, ended, changes, row, kept)
        }
    }
}

/// PEND RE, SP, FI or FC: the task is free, the transaction is over, and one commit is made, of the synchronisation point or
/// of the abnormal end with the cause that refuses it.
pub fn pass_point(
    parts: &mut MonitorParts,
    alloc: Global,
    task: u16,
    id: &ServiceId,
    outcome: Outcome,
) -> Result<Turned, OutOfMemory>
    requires serves { (x : Transaction) × Serves parts.old task id.now x }
    ensures exact { IfOk result (λ did. ForOpen (state_of parts.old) id.now (λ x. turned_to (state_of parts.new) did ≡ settled (app_of parts.old) (state_of parts.old) task id.now x outcome)) }
    ensures indexed { OnOk result (IsIndexed parts.new) }
    ensures same { OnOk result (SameApplication parts.old parts.new) }
{
    let transaction = close_transaction(parts, task, id);
    settle_transaction(parts, alloc, transaction, outcome)
}
