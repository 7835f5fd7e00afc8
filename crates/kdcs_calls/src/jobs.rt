//! FPUT and DPUT.
ghost use Rattle.std.specs.Prelude.{◌≡◌, ◌≤◌, IfOk, IfSome};
ghost use Rattle.application_types.specs.Generation.{lterm_of, tac_of};
ghost use Rattle.abstract_monitor.specs.Calls.{drafted, job_target, moment_by, put_job, target_by};
ghost use Rattle.abstract_monitor.specs.Contents.{number_of};
ghost use Rattle.open_transaction.specs.Transactions.{transaction_of};
ghost use Rattle.open_transaction.specs.Drafts.{IsInTicks};

use crate::answer::replied;
use crate::operand::name_in;
use abstract_monitor::{Called, Due};
use application_types::generation::Generation;
use application_types::kdcdef_types::{CallUse, TacEntry};
use kd_base::{Bytes, Mode, Name, OutOfMemory};
use kdcs_types::{Cause, Code, Target};
use open_transaction::OpenTransaction;
use service_parts::timer_queue::moment;
use service_parts::unit_step::number_of;

// An asynchronous TAC with CALL other than NEXT and STATUS=ON.
fn tac_target(name: Name, entry: &TacEntry) -> Option<Target>
    ensures { result ≡ target_by name None (Some entry.now) }
{
    if entry.asynchronous && entry.call != CallUse::Next && entry.on {
        Some(Target::Tac(name))
    } else {
        None
    }
}

// Whom a job may go to.
#[tactic(auto, unfolding(abstract_monitor::specs::Calls::job_target))]
fn job_target(generation: &Generation, name: Name) -> Option<Target>
    ensures { result ≡ job_target generation.now name }
{
    match (generation.lterm(name), generation.tac(name)) {
        (Some(_), _) => Some(Target::Lterm(name)),
        (None, Some(entry)) => tac_target(name, entry),
        (None, None) => None,
    }
}

/// The moment that the operands of DPUT name: days, hours, minutes and seconds.
pub(crate) fn moment_in(mode: Mode, d: &Bytes, h: &Bytes, m: &Bytes, s: &Bytes) -> Option<Due>
    ensures exact { result ≡ moment_by mode (number_of d.now) (number_of h.now) (number_of m.now) (number_of s.now) }
    ensures ticks { IfSome result IsInTicks }
{
    match (
        number_of(d.as_slice()),
        number_of(h.as_slice()),
        number_of(m.as_slice()),
        number_of(s.as_slice()),
    ) {
        (Some(d), Some(h), Some(m), Some(s)) => moment(mode, d, h, m, s),
        _ => None,
    }
}

// A new draft, once its target and then its moment are found.
fn draft(
    transaction: &mut OpenTransaction,
    to: Option<Target>,
    due: Option<Due>,
    message: &Bytes,
) -> Result<Called, OutOfMemory>
    requires { IfSome due IsInTicks }
    ensures exact { IfOk result (λ called. (transaction_of transaction.new, called) ≡ drafted (transaction_of transaction.old) to due message.now) }
    ensures id { transaction.new.id ≡ transaction.old.id }
    ensures statements { transaction.new.statements ≡ transaction.old.statements }
    ensures nb { transaction.new.messages.nb ≡ transaction.old.messages.nb }
{
    let Some(to) = to else {
        return Ok(replied(Code::K08));
    };
    let Some(due) = due else {
        return Ok(replied(Code::K10));
    };
    transaction.drafts.add(to, due, message.clone()?)?;
    Ok(replied(Code::Done))
}

/// FPUT, and DPUT where its operands name the moment `due`.
pub(crate) fn put_job(
    generation: &Generation,
    transaction: &mut OpenTransaction,
    to: &Bytes,
    due: Option<Due>,
    message: &Bytes,
) -> Result<Called, OutOfMemory>
    requires { IfSome due IsInTicks }
    ensures exact { IfOk result (λ called. (transaction_of transaction.new, called) ≡ put_job generation.now (transaction_of transaction.old) to.now due message.now) }
    ensures id { transaction.new.id ≡ transaction.old.id }
    ensures statements { transaction.new.statements ≡ transaction.old.statements }
    ensures nb { transaction.new.messages.nb ≡ transaction.old.messages.nb }
{
    if message.len() > generation.max().nb as usize {
        return Ok(Called::Abnormal(Cause::E12));
    }
    match name_in(to) {
        None => Ok(replied(Code::K11)),
        Some(name) => draft(transaction, job_target(generation, name), due, message),
    }
}
