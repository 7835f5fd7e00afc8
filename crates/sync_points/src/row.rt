//! The row of a service after a synchronisation point.
ghost use Rattle.std.specs.Prelude.{◌≡◌, [], true, false, IfOk, Some};
ghost use Rattle.abstract_monitor.specs.Endings.{joined, last_of, lterm_in_row, new_row, point_row, row_after};
ghost use Rattle.open_transaction.specs.Transactions.{transaction_of};

use abstract_monitor::Outcome;
use application_types::generation::Generation;
use kd_base::{Bytes, Name, OutOfMemory};
use kdcs_types::{Areas, Parts, Service, ServiceId};
use open_transaction::OpenTransaction;
use service_parts::service_runs::spaces;
use std::alloc::Global;

fn lterm_in_row(id: ServiceId, lterm: Name) -> Option<Name>
    ensures { result ≡ lterm_in_row id lterm }
{
    match id {
        ServiceId::Dialogue(_) => None,
        ServiceId::Asynchronous(_) => Some(lterm),
    }
}

fn last_of(began: &Option<Service>) -> Result<Option<Bytes>, OutOfMemory>
    ensures { IfOk result (λ last. last ≡ last_of began.now) }
{
    match began {
        Some(row) => Ok(row.last.clone()?),
        None => Ok(None),
    }
}

fn parts_put(alloc: Global, transaction: &OpenTransaction) -> Result<Parts, OutOfMemory>
    ensures { IfOk result (λ parts. parts ≡ (transaction_of transaction.now).parts) }
{
    Ok(Parts::from_vec(transaction.messages.parts().to_vec(alloc)?))
}

// The row of a service that goes on.
fn point_row(
    alloc: Global,
    transaction: &OpenTransaction,
    next: Name,
    awaits: bool,
    handed: Parts,
    last: Option<Bytes>,
) -> Result<Service, OutOfMemory>
    ensures { IfOk result (λ row. row ≡ point_row transaction.now.id (transaction_of transaction.now) next awaits handed last) }
{
    Ok(Service {
        id: transaction.id,
        first: transaction.first,
        next,
        awaits,
        user: transaction.user,
        lterm: lterm_in_row(transaction.id, transaction.lterm),
        kb: Bytes::from_slice(alloc, transaction.run.kb.as_slice())?,
        handed,
        last,
        lssbs: Areas::from_vec(transaction.areas.lssbs().to_vec(alloc)?),
    })
}

// The row of the service that PEND FC begins.
fn new_row(
    alloc: Global,
    generation: &Generation,
    transaction: &OpenTransaction,
    first: Name,
) -> Result<Service, OutOfMemory>
    ensures { IfOk result (λ row. row ≡ new_row generation.now transaction.now.id (transaction_of transaction.now) first) }
{
    Ok(Service {
        id: transaction.id,
        first,
        next: first,
        awaits: false,
        user: transaction.user,
        lterm: lterm_in_row(transaction.id, transaction.lterm),
        kb: spaces(alloc, generation.max().kb)?,
        handed: parts_put(alloc, transaction)?,
        last: None,
        lssbs: Areas::new(alloc),
    })
}

// The row of a service that awaits an input.
fn waiting_row(
    alloc: Global,
    transaction: &OpenTransaction,
    next: Name,
) -> Result<Service, OutOfMemory>
    ensures { IfOk result (λ row. row ≡ point_row transaction.now.id (transaction_of transaction.now) next true [] (Some (joined (transaction_of transaction.now).parts))) }
{
    let message = transaction.message(alloc)?;
    point_row(
        alloc,
        transaction,
        next,
        true,
        Parts::new(alloc),
        Some(message),
    )
}

// The row of a service that goes on at once.
fn going_row(
    alloc: Global,
    transaction: &OpenTransaction,
    next: Name,
) -> Result<Service, OutOfMemory>
    ensures { IfOk result (λ row. row ≡ point_row transaction.now.id (transaction_of transaction.now) next false (transaction_of transaction.now).parts (last_of (transaction_of transaction.now).began)) }
{
    let parts = parts_put(alloc, transaction)?;
    let last = last_of(&transaction.began)?;
    point_row(alloc, transaction, next, false, parts, last)
}

#[tactic(auto, unfolding(abstract_monitor::specs::Endings::row_after))]
pub(crate) fn row_after(
    alloc: Global,
    generation: &Generation,
    transaction: &OpenTransaction,
    outcome: Outcome,
) -> Result<Option<Service>, OutOfMemory>
    ensures { IfOk result (λ row. row ≡ row_after generation.now transaction.now.id (transaction_of transaction.now) outcome) }
{
    match outcome {
        Outcome::Wait(tac) => Ok(Some(waiting_row(alloc, transaction, tac)?)),
        Outcome::Point(tac) => Ok(Some(going_row(alloc, transaction, tac)?)),
        Outcome::Follow(tac) => Ok(Some(new_row(alloc, generation, transaction, tac)?)),
        Outcome::Finish
        | Outcome::Hold(_)
        | Outcome::Stay(_)
        | Outcome::Queue(_)
        | Outcome::Break
        | Outcome::Back => Ok(None),
    }
}
