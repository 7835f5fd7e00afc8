//! Transactions that are over.
ghost use Rattle.std.specs.{Prelude.{◌≡◌, Some}, FinMap.{find}};
ghost use Rattle.kdcs_types.specs.Keys.{id_cmp};
ghost use Rattle.abstract_monitor.specs.{State.{OpenTransaction as Transaction}, Turns.{without_transaction}};
ghost use Rattle.open_transaction.specs.Transactions.{boxed_transaction};
ghost use Rattle.service_ends.specs.Ending.{IsClosed, Serves};
ghost use Rattle.service_ends.specs.Standing.{IsIndexed, SameApplication, state_of};

use crate::core_state::MonitorParts;
use kdcs_types::ServiceId;
use open_transaction::OpenTransaction;

/// The task is free, and the transaction of its service is over. It takes no memory.
pub(crate) fn close_transaction(
    parts: &mut MonitorParts,
    task: u16,
    id: &ServiceId,
) -> Box<OpenTransaction>
    requires serves { (x : Transaction) × Serves parts.old task id.now x }
    ensures indexed { IsIndexed parts.new }
    ensures same { SameApplication parts.old parts.new }
    ensures state { state_of parts.new ≡ without_transaction (state_of parts.old) task id.now }
    ensures found { Some (boxed_transaction result) ≡ find id_cmp id.now (state_of parts.old).active }
    ensures own { result.value.id ≡ id.now }
    ensures closed { IsClosed parts.new result }
{
    parts.free_task(task);
    match parts.close(id) {
        Some(transaction) => transaction,
        None => unreachable!(),
    }
}
