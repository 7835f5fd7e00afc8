//! How the transaction of a record ends.
ghost use Rattle.std.specs.Prelude.{◌≡◌, ◌+◌, ◌<◌, ◌^◌, IfOk, IfSome, IfNone, IsSome};
ghost use Rattle.abstract_monitor.specs.{Charges.{total_charge}, Endings.{durable, is_asynchronous}};
ghost use Rattle.laws_of_states.specs.{Replay.{ended_by}, Transactions.{IsRooted}};
ghost use Rattle.laws_of_states.specs.OpenLaws.{OutcomeFits};
ghost use Rattle.open_transaction.specs.Transactions.{boxed_transaction};
ghost use Rattle.abstract_monitor.specs.declared.answer.Happened.TheVariants as happened;
ghost use Rattle.serial_audit.specs.{Ending.{ChangesAre, StandsAt, ended_from}, Replaying.{Goes, IsAuditable, app_of, kept_in, tables_in}};

use crate::replay::Replay;
use crate::statement::next_statement;
use abstract_monitor::{Happened, Outcome};
use kd_base::OutOfMemory;
use kdcs_types::{Changes, Ending};
use monitor_parts::area_locks::LockTable;
use open_transaction::OpenTransaction;
use sync_points::{SettleAnswer, broken, settle};

/// What an end changes in the durable tables, and how it ends.
#[derive(Drop)]
pub(crate) struct Ended {
    pub(crate) changes: Changes,
    pub(crate) ending: Ending,
}

// An abnormal end.
fn end_broken(
    replay: &Replay,
    transaction: Box<OpenTransaction>,
    ending: Ending,
) -> Result<Ended, OutOfMemory>
    requires stands { StandsAt replay.now transaction }
    ensures { IfOk result (ChangesAre replay.now (ended_by (app_of replay.now) (tables_in replay.now) (kept_in replay.now).service (boxed_transaction transaction) (happened.Breaks ending))) }
{
    let outside = &replay.outside;
    let (changes, _kept) = broken(
        transaction,
        outside.alloc,
        outside.generation,
        outside.tables,
        ending,
    )?;
    Ok(Ended { changes, ending })
}

// A synchronisation point, or the abnormal end that refuses it. The durable rows take `charge` pages.
fn end_settled(
    replay: &Replay,
    charge: u64,
    transaction: Box<OpenTransaction>,
    outcome: Outcome,
) -> Result<Ended, OutOfMemory>
    requires stands { StandsAt replay.now transaction }
    requires fits { OutcomeFits (app_of replay.now).generation (is_asynchronous (kept_in replay.now).service) outcome }
    requires charge { charge ≡ total_charge (app_of replay.now).generation.limits.blksize (durable (app_of replay.now).generation (tables_in replay.now)) }
    ensures { IfOk result (ChangesAre replay.now (ended_by (app_of replay.now) (tables_in replay.now) (kept_in replay.now).service (boxed_transaction transaction) (happened.Settles outcome))) }
{
    let outside = &replay.outside;
    match settle(
        transaction,
        outside.alloc,
        outside.generation,
        outside.tables,
        charge,
        outcome,
    )? {
        SettleAnswer::Synced(changes, _row, _kept) => Ok(Ended {
            changes,
            ending: Ending::Synced,
        }),
        SettleAnswer::Refused(cause, transaction) => {
            end_broken(replay, transaction, Ending::Broken(cause))
        }
    }
}

/// The statement that ends the transaction, if it does. The durable rows take `charge` pages.
pub(crate) fn end(
    replay: &Replay,
    charge: u64,
    locks: &mut LockTable,
    mut transaction: Box<OpenTransaction>,
) -> Result<Option<Ended>, OutOfMemory>
    requires auditable { IsAuditable replay.now }
    requires goes { Goes replay.now locks.old transaction.value }
    requires rooted { IsRooted (tables_in replay.now) (kept_in replay.now).service (boxed_transaction transaction) }
    requires statements { transaction.value.statements + 1 < 2 ^ 64 }
    requires charge { charge ≡ total_charge (app_of replay.now).generation.limits.blksize (durable (app_of replay.now).generation (tables_in replay.now)) }
    ensures some { IfOk result (λ o. IfSome o (ChangesAre replay.now (ended_from replay.now (boxed_transaction transaction)))) }
    ensures none { IfOk result (λ o. IfNone o (IsSome (ended_from replay.now (boxed_transaction transaction)) → ⊥)) }
{
    match next_statement(replay, locks, &mut transaction)? {
        Happened::Settles(outcome) => Ok(Some(end_settled(replay, charge, transaction, outcome)?)),
        Happened::Breaks(ending) => Ok(Some(end_broken(replay, transaction, ending)?)),
        Happened::Went | Happened::Queued | Happened::Waited => Ok(None),
        Happened::Held(_) | Happened::Returns => Ok(None),
    }
}
