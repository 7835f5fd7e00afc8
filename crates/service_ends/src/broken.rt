//! Abnormal ends.
ghost use Rattle.std.specs.Prelude.{◌≡◌, ◌++◌, ◌∷◌, [], None, IfOk, OnOk};
ghost use Rattle.kdcs_types.specs.declared.act.Act.TheVariants.{Commit};
ghost use Rattle.abstract_monitor.specs.{State.{OpenTransaction as Transaction}, Turns.{abnormal, dump_acts, ended_acts}};
ghost use Rattle.open_transaction.specs.Transactions.{boxed_transaction, transaction_of};
ghost use Rattle.service_ends.specs.Ending.{behind_end, broken_to, CanCommit, committed_in, emitted, turned_to, ForOpen, IsClosed, Serves};
ghost use Rattle.service_ends.specs.{Standing.{IsIndexed, SameApplication, state_of}, Whole.{app_of}};

use crate::closed::close_transaction;
use crate::core_state::MonitorParts;
use crate::row::commit;
use crate::terminal::say_ended;
use crate::turned::Turned;
use kd_base::{Bytes, OutOfMemory};
use kdcs_types::{Act, Acts, Changes, Ending, ServiceId};
use monitor_parts::output_lines::dump_line;
use open_transaction::OpenTransaction;
use std::alloc::Global;
use sync_points::{KeptRecord, broken};

// The dump line of an abnormal end; PEND FR has none.
fn dump_of(
    alloc: Global,
    transaction: &OpenTransaction,
    ending: Ending,
) -> Result<Option<Bytes>, OutOfMemory>
    ensures { IfOk result (λ dump. emitted dump ≡ dump_acts transaction.now.id (transaction_of transaction.now) ending) }
{
    match ending {
        Ending::Broken(cause) => Ok(Some(dump_line(
            alloc,
            transaction.id,
            transaction.current,
            cause,
            transaction.run.place,
        )?)),
        Ending::Synced | Ending::BrokenFr => Ok(None),
    }
}

fn send(acts: &mut Acts, line: Option<Bytes>) -> Result<(), OutOfMemory>
    ensures { OnOk result (acts.new ≡ acts.old ++ emitted line) }
{
    if let Some(line) = line {
        acts.push(Act::Emit(line))?;
    }
    Ok(())
}

// The commit of an abnormal end, and its lines.
fn end_acts(
    parts: &mut MonitorParts,
    alloc: Global,
    id: &ServiceId,
    dump: Option<Bytes>,
    changes: Changes,
) -> Result<Acts, OutOfMemory>
    requires indexed { IsIndexed parts.old }
    requires commits { CanCommit parts.old changes id.now None }
    ensures acts { IfOk result (λ acts. acts ≡ Commit changes ∷ (emitted dump ++ ended_acts (state_of parts.new) id.now)) }
    ensures state { OnOk result (state_of parts.new ≡ committed_in parts.old changes id.now None) }
    ensures indexed { OnOk result (IsIndexed parts.new) }
    ensures same { OnOk result (SameApplication parts.old parts.new) }
{
    let mut acts = Acts::new(alloc);
    commit(parts, alloc, id, &None, changes, &mut acts)?;
    send(&mut acts, dump)?;
    say_ended(parts, alloc, id, &mut acts)?;
    Ok(acts)
}

// The turn of an abnormal end.
fn break_off(
    parts: &mut MonitorParts,
    alloc: Global,
    id: &ServiceId,
    dump: Option<Bytes>,
    changes: Changes,
    kept: KeptRecord,
) -> Result<Turned, OutOfMemory>
    requires indexed { IsIndexed parts.old }
    requires commits { CanCommit parts.old changes id.now None }
    ensures exact { IfOk result (λ did. turned_to (state_of parts.new) did ≡ behind_end (committed_in parts.old changes id.now None) id.now dump (Commit changes) kept) }
    ensures indexed { OnOk result (IsIndexed parts.new) }
    ensures same { OnOk result (SameApplication parts.old parts.new) }
{
    let acts = end_acts(parts, alloc, id, dump, changes)?;
    Ok(Turned {
        moved: true,
        acts,
        settled: Some(kept),
    })
}

// The transaction, which is closed, ends abnormally.
pub(crate) fn end_transaction(
    parts: &mut MonitorParts,
    alloc: Global,
    transaction: Box<OpenTransaction>,
    ending: Ending,
) -> Result<Turned, OutOfMemory>
    requires indexed { IsIndexed parts.old }
    requires closed { IsClosed parts.old transaction }
    ensures exact { IfOk result (λ did. turned_to (state_of parts.new) did ≡ broken_to (app_of parts.old) (state_of parts.old) transaction.value.id (boxed_transaction transaction) ending) }
    ensures indexed { OnOk result (IsIndexed parts.new) }
    ensures same { OnOk result (SameApplication parts.old parts.new) }
{
    let id = transaction.id;
    let dump = dump_of(alloc, &transaction, ending)?;
    let (changes, kept) = broken(transaction, alloc, &parts.generation, &parts.tables, ending)?;
    break_off(parts, alloc, &id, dump, changes, kept)
}

/// An abnormal end, PEND ER or PEND FR: the task is free, the transaction is over, one commit is made, and its lines are
/// sent.
pub fn end(
    parts: &mut MonitorParts,
    alloc: Global,
    task: u16,
    id: &ServiceId,
    ending: Ending,
) -> Result<Turned, OutOfMemory>
    requires serves { (x : Transaction) × Serves parts.old task id.now x }
    ensures exact { IfOk result (λ did. ForOpen (state_of parts.old) id.now (λ x. turned_to (state_of parts.new) did ≡ abnormal (app_of parts.old) (state_of parts.old) task id.now x ending)) }
    ensures indexed { OnOk result (IsIndexed parts.new) }
    ensures same { OnOk result (SameApplication parts.old parts.new) }
{
    let transaction = close_transaction(parts, task, id);
    end_transaction(parts, alloc, transaction, ending)
}
