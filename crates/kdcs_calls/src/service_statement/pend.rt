//! What a PEND does that is not refused.
ghost use Rattle.std.specs.Prelude.{◌≡◌, ◌+◌, ◌≤◌, ◌<◌, ◌^◌, IfOk, OnOk};
ghost use Rattle.abstract_monitor.specs.Statements.{break_ending};
ghost use Rattle.open_transaction.specs.Transactions.{transaction_of};
ghost use Rattle.laws_of_runs.specs.Applied.{applied};
ghost use Rattle.kdcs_calls.specs.Stating.{pended_now};

use crate::service_statement::outside::Outside;
use abstract_monitor::{Happened, Outcome};
use kd_base::{OutOfMemory, Variant};
use kdcs_types::{Cause, Ending};
use open_transaction::OpenTransaction;

// PEND FR and PEND ER both break the transaction.
fn break_ending(variant: Variant) -> Ending
    ensures { result ≡ break_ending variant }
{
    match variant {
        Variant::Fr => Ending::BrokenFr,
        _ => Ending::Broken(Cause::Er),
    }
}

/// PR goes on and PA is queued in a further unit run of the same transaction; the others leave the transaction as it is.
pub(crate) fn pend(
    outside: &Outside,
    transaction: &mut OpenTransaction,
    variant: Variant,
    outcome: Outcome,
) -> Result<Happened, OutOfMemory>
    requires { transaction.old.statements + 1 < 2 ^ 64 }
    ensures exact { IfOk result (λ h. (transaction_of transaction.new, h) ≡ pended_now (applied outside.now.generation.now outside.now.units.now) transaction.old variant outcome) }
    ensures id { transaction.new.id ≡ transaction.old.id }
    ensures counted { OnOk result (transaction.new.statements ≤ transaction.old.statements + 1) }
    ensures nb { transaction.old.messages.nb ≡ outside.now.generation.now.limits.nb → transaction.new.messages.nb ≡ outside.now.generation.now.limits.nb }
{
    match outcome {
        Outcome::Stay(tac) => {
            transaction.follow(outside.alloc, outside.generation, tac, None)?;
            Ok(Happened::Went)
        }
        Outcome::Queue(tac) => {
            transaction.follow(outside.alloc, outside.generation, tac, None)?;
            Ok(Happened::Queued)
        }
        Outcome::Hold(tac) => Ok(Happened::Held(tac)),
        Outcome::Wait(_) | Outcome::Point(_) | Outcome::Follow(_) | Outcome::Finish => {
            Ok(Happened::Settles(outcome))
        }
        Outcome::Break => Ok(Happened::Breaks(break_ending(variant))),
        Outcome::Back => Ok(Happened::Returns),
    }
}
