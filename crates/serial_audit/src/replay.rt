//! The replay of a record.
ghost use Rattle.std.specs.Prelude.{◌≡◌, ◌+◌, ◌≤◌, ◌<◌, ◌^◌, IfOk, false, true, length, nat_le, option_copied, slice_get};
ghost use Rattle.abstract_monitor.specs.Statements.{kept_of};
ghost use Rattle.laws_of_states.specs.Replay.{accepted};
ghost use Rattle.open_transaction.specs.Transactions.{transaction_of};
ghost use Rattle.serial_audit.specs.{Audit.{BeginsRightly, Determines, most_statements}, Replaying.{Goes, IsAuditable, Ran, ReadInput, WentOn, app_of, kept_in, tables_in}};

use crate::statement::next_statement;
use abstract_monitor::Happened;
use kd_base::{Bytes, Name, OutOfMemory};
use kdcs_calls::service_statement::Outside;
use kdcs_types::Settled;
use monitor_parts::area_locks::LockTable;
use open_transaction::OpenTransaction;

/// A record, with what its replay looks at.
#[derive(Clone, Copy)]
pub(crate) struct Replay<'a> {
    pub(crate) outside: Outside<'a>,
    pub(crate) record: &'a Settled,
}

/// The inputs behind the first TAC and the LTERM.
pub(crate) fn accepted(record: &Settled) -> &[Bytes]
    requires { 2 ≤ length record.now.inputs }
    ensures { result.now ≡ accepted (kept_of record.now) }
{
    &record.inputs.as_slice()[2..]
}

/// An accepted input of a record, if there are as many.
pub(crate) fn input_at(record: &Settled, place: usize) -> Option<&Bytes>
    requires { 2 ≤ length record.now.inputs }
    ensures { option_copied result ≡ slice_get (accepted (kept_of record.now)) place }
{
    accepted(record).get(place)
}

/// A record has as many accepted inputs as its replay.
pub(crate) fn has_read(record: &Settled, transaction: &OpenTransaction) -> bool
    requires { 2 ≤ length record.now.inputs }
    ensures { result ≡ nat_le (length transaction.now.inputs) (length (accepted (kept_of record.now))) }
{
    transaction.inputs.len() <= accepted(record).len()
}

// After PEND KP the next input is read, if there is one.
fn read_input(
    replay: &Replay,
    transaction: &mut OpenTransaction,
    tac: Name,
) -> Result<bool, OutOfMemory>
    requires begins { BeginsRightly (app_of replay.now).generation (kept_in replay.now) }
    requires statements { transaction.old.statements + 1 < 2 ^ 64 }
    ensures read { IfOk result (ReadInput replay.now (transaction_of transaction.old) (transaction_of transaction.new) tac) }
    ensures id { transaction.new.id ≡ transaction.old.id }
    ensures nb { transaction.old.messages.nb ≡ (app_of replay.now).generation.limits.nb → transaction.new.messages.nb ≡ (app_of replay.now).generation.limits.nb }
{
    let Some(input) = input_at(replay.record, transaction.inputs.len()) else {
        return Ok(false);
    };
    let outside = &replay.outside;
    transaction.follow(outside.alloc, outside.generation, tac, Some(input.clone()?))?;
    Ok(true)
}

// One statement of the record, if it leaves the transaction open and finds the input that it reads.
fn go_on(
    replay: &Replay,
    locks: &mut LockTable,
    transaction: &mut OpenTransaction,
) -> Result<bool, OutOfMemory>
    requires auditable { IsAuditable replay.now }
    requires goes { Goes replay.now locks.old transaction.old }
    requires statements { transaction.old.statements + 1 < 2 ^ 64 }
    ensures went { IfOk result (WentOn replay.now (transaction_of transaction.old) (transaction_of transaction.new)) }
    ensures goes { IfOk result (λ on. on ≡ true → Goes replay.now locks.new transaction.new) }
    ensures counted { IfOk result (λ on. on ≡ true → transaction.new.statements ≤ transaction.old.statements + 1) }
{
    match next_statement(replay, locks, transaction)? {
        Happened::Went | Happened::Queued => { Ok(has_read(replay.record, transaction)) }
        Happened::Held(tac) => read_input(replay, transaction, tac),
        Happened::Settles(_outcome) => Ok(false),
        Happened::Waited | Happened::Breaks(_) | Happened::Returns => Ok(false),
    }
}

/// Does the statements of a record, if all of them leave the transaction open and find the inputs that they read.
pub(crate) fn run(
    replay: &Replay,
    locks: &mut LockTable,
    transaction: &mut OpenTransaction,
) -> Result<bool, OutOfMemory>
    requires auditable { IsAuditable replay.now }
    requires goes { Goes replay.now locks.old transaction.old }
    requires start { Ran replay.now 0 (transaction_of transaction.old) }
    requires few { (kept_in replay.now).statements ≤ most_statements }
    requires none { transaction.old.statements ≡ 0 }
    ensures ran { IfOk result (λ all. all ≡ true → Ran replay.now (kept_in replay.now).statements (transaction_of transaction.new)) }
    ensures goes { IfOk result (λ all. all ≡ true → Goes replay.now locks.new transaction.new) }
    ensures counted { IfOk result (λ all. all ≡ true → transaction.new.statements ≤ (kept_in replay.now).statements) }
    ensures stopped { IfOk result (λ all. all ≡ false → Determines (app_of replay.now) (tables_in replay.now) (kept_in replay.now) → ⊥) }
{
    for _done in 0..replay.record.statements {
        if !go_on(replay, locks, transaction)? {
            return Ok(false);
        }
    }
    Ok(true)
}
