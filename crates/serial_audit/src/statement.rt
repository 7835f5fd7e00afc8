//! One statement of a replay.
ghost use Rattle.std.specs.Prelude.{◌≡◌, ◌+◌, ◌≤◌, ◌<◌, ◌^◌, IfOk, OnOk, Some};
ghost use Rattle.abstract_monitor.specs.{Calls.{noted, plain_reply}, Endings.{is_asynchronous}, Statements.{area_of_call, counted}};
ghost use Rattle.abstract_monitor.specs.declared.answer.Happened.TheVariants.{Went};
ghost use Rattle.kdcs_types.specs.declared.service.Note.TheVariants.{Refused, Released};
ghost use Rattle.laws_of_states.specs.Replay.{first_unused, replay_statement};
ghost use Rattle.laws_of_states.specs.OpenLaws.{HappenedFits, StandsIn};
ghost use Rattle.open_transaction.specs.Transactions.{transaction_of};
ghost use Rattle.abstract_monitor.specs.{Ready.{CanAnswer, IsReady}, Statement.{Asks, step}};
ghost use Rattle.serial_audit.specs.{Asking.{HoldsAlone, call_replayed, relabelled, showing}, Replaying.{Goes, IsAuditable, app_of, kept_in, tables_in}};

use crate::asking::{area_of_call, asks_lock};
use crate::notes::first_unused;
use crate::replay::Replay;
use abstract_monitor::Happened;
use application_types::unit_types::Unit;
use kd_base::{Bytes, OutOfMemory};
use kdcs_calls::service_statement::{Outside, perform_call, step_unit};
use kdcs_types::{Area, Areas, Call, Changes, Code, Ending, Note, Notes, Reply, Tables};
use monitor_parts::area_locks::LockTable;
use open_transaction::OpenTransaction;
use service_parts::storage_areas::Overlay;
use service_parts::unit_step::Stepped;
use std::alloc::Global;
use std::mem;

// Tables that have this content in the area, and nothing else.
fn tables_showing(
    alloc: Global,
    clock: u64,
    area: &Area,
    content: &Option<Bytes>,
) -> Result<Tables, OutOfMemory>
    ensures { IfOk result (λ shown. shown ≡ showing clock area.now content.now) }
{
    let mut areas = Overlay::new(alloc, Areas::new(alloc));
    if let Some(content) = content {
        areas.write(*area, content.clone()?)?;
    }
    let changes = Changes {
        clock,
        next_job: 1,
        items: areas.changes(alloc)?,
    };
    let mut shown = Tables::empty(alloc);
    shown.change(&changes)?;
    Ok(shown)
}

// The last of the notes is this one, where there are more than so many.
fn relabel(
    alloc: Global,
    transaction: &mut OpenTransaction,
    before: usize,
    note: Note,
) -> Result<(), OutOfMemory>
    ensures exact { OnOk result (transaction_of transaction.new ≡ relabelled before note (transaction_of transaction.old)) }
    ensures id { transaction.new.id ≡ transaction.old.id }
    ensures nb { transaction.new.messages.nb ≡ transaction.old.messages.nb }
    ensures statements { transaction.new.statements ≡ transaction.old.statements }
{
    if transaction.notes.len() <= before {
        return Ok(());
    }
    let mut notes = mem::replace(&mut transaction.notes, Notes::new(alloc)).into_vec();
    notes.pop();
    notes.push(note)?;
    transaction.notes = Notes::from_vec(notes);
    Ok(())
}

// The request of a call is refused with this code, which is noted.
fn refuse(
    unit: &Unit,
    transaction: &mut OpenTransaction,
    area: Area,
    code: Code,
) -> Result<Happened, OutOfMemory>
    requires ready { IsReady unit.now transaction.old.run }
    requires can { CanAnswer unit.now transaction.old.run (plain_reply code) }
    requires statements { transaction.old.statements + 1 < 2 ^ 64 }
    ensures went { IfOk result (λ h. h ≡ Went) }
    ensures exact { OnOk result (transaction_of transaction.new ≡ counted unit.now (noted (transaction_of transaction.old) area code) (plain_reply code)) }
    ensures id { transaction.new.id ≡ transaction.old.id }
    ensures nb { transaction.new.messages.nb ≡ transaction.old.messages.nb }
    ensures statements { OnOk result (transaction.new.statements ≡ transaction.old.statements + 1) }
{
    transaction.notes.push(Note::Refused(area, code))?;
    let reply = Reply {
        code,
        length: 0,
        content: None,
    };
    transaction.count(unit, &reply);
    Ok(Happened::Went)
}

// A call whose request for the area a note refuses, where it comes to that request.
fn do_refused(
    replay: &Replay,
    unit: &Unit,
    locks: &mut LockTable,
    transaction: &mut OpenTransaction,
    call: &Call,
    area: Area,
    code: Code,
) -> Result<Happened, OutOfMemory>
    requires auditable { IsAuditable replay.now }
    requires goes { Goes replay.now locks.old transaction.old }
    requires stands { StandsIn (app_of replay.now) transaction.old.id (transaction_of transaction.old) unit.now }
    requires asks { step unit.now transaction.old.run ≡ Asks call.now }
    requires statements { transaction.old.statements + 1 < 2 ^ 64 }
    requires area { area_of_call (transaction_of transaction.old) call.now ≡ Some area }
    requires first { first_unused (kept_in replay.now) (transaction_of transaction.old) area ≡ Some (Refused area code) }
    ensures exact { IfOk result (λ h. (transaction_of transaction.new, h) ≡ call_replayed (app_of replay.now) (tables_in replay.now) (kept_in replay.now) (transaction_of transaction.old) unit.now call.now) }
    ensures alone { OnOk result (HoldsAlone locks.new transaction.old.id (transaction_of transaction.new)) }
    ensures id { transaction.new.id ≡ transaction.old.id }
    ensures nb { transaction.new.messages.nb ≡ transaction.old.messages.nb }
    ensures counted { OnOk result (transaction.new.statements ≤ transaction.old.statements + 1) }
{
    let outside = &replay.outside;
    let held = locks.holder(&area).is_some();
    if held || !asks_lock(outside.generation, transaction, call, &area) {
        return perform_call(outside, unit, locks, transaction, call);
    }
    refuse(unit, transaction, area, code)
}

fn copy_of(content: &Option<Bytes>) -> Result<Option<Bytes>, OutOfMemory>
    ensures { IfOk result (λ copy. copy ≡ content.now) }
{
    match content {
        Some(content) => Ok(Some(content.clone()?)),
        None => Ok(None),
    }
}

// A call that is shown the content of a note in its area.
fn do_shown(
    replay: &Replay,
    unit: &Unit,
    locks: &mut LockTable,
    transaction: &mut OpenTransaction,
    call: &Call,
    area: Area,
    content: &Option<Bytes>,
) -> Result<Happened, OutOfMemory>
    requires auditable { IsAuditable replay.now }
    requires goes { Goes replay.now locks.old transaction.old }
    requires stands { StandsIn (app_of replay.now) transaction.old.id (transaction_of transaction.old) unit.now }
    requires asks { step unit.now transaction.old.run ≡ Asks call.now }
    requires statements { transaction.old.statements + 1 < 2 ^ 64 }
    requires area { area_of_call (transaction_of transaction.old) call.now ≡ Some area }
    requires first { first_unused (kept_in replay.now) (transaction_of transaction.old) area ≡ Some (Released area content.now) }
    ensures exact { IfOk result (λ h. (transaction_of transaction.new, h) ≡ call_replayed (app_of replay.now) (tables_in replay.now) (kept_in replay.now) (transaction_of transaction.old) unit.now call.now) }
    ensures alone { OnOk result (HoldsAlone locks.new transaction.old.id (transaction_of transaction.new)) }
    ensures id { transaction.new.id ≡ transaction.old.id }
    ensures nb { transaction.new.messages.nb ≡ transaction.old.messages.nb }
    ensures counted { OnOk result (transaction.new.statements ≤ transaction.old.statements + 1) }
{
    let alloc = replay.outside.alloc;
    let clock = replay.outside.tables.clock();
    let shown = tables_showing(alloc, clock, &area, content)?;
    let outside = Outside {
        alloc,
        generation: replay.outside.generation,
        units: replay.outside.units,
        tables: &shown,
    };
    let before = transaction.notes.len();
    let happened = perform_call(&outside, unit, locks, transaction, call)?;
    let content = copy_of(content)?;
    // UNLK notes what the record says, which may be a block without bytes
    relabel(alloc, transaction, before, Note::Released(area, content))?;
    Ok(happened)
}

// A call, told by the notes and the tables.
fn do_call(
    replay: &Replay,
    unit: &Unit,
    locks: &mut LockTable,
    transaction: &mut OpenTransaction,
    call: &Call,
) -> Result<Happened, OutOfMemory>
    requires auditable { IsAuditable replay.now }
    requires goes { Goes replay.now locks.old transaction.old }
    requires stands { StandsIn (app_of replay.now) transaction.old.id (transaction_of transaction.old) unit.now }
    requires asks { step unit.now transaction.old.run ≡ Asks call.now }
    requires statements { transaction.old.statements + 1 < 2 ^ 64 }
    ensures exact { IfOk result (λ h. (transaction_of transaction.new, h) ≡ call_replayed (app_of replay.now) (tables_in replay.now) (kept_in replay.now) (transaction_of transaction.old) unit.now call.now) }
    ensures alone { OnOk result (HoldsAlone locks.new transaction.old.id (transaction_of transaction.new)) }
    ensures id { transaction.new.id ≡ transaction.old.id }
    ensures nb { transaction.new.messages.nb ≡ transaction.old.messages.nb }
    ensures counted { OnOk result (transaction.new.statements ≤ transaction.old.statements + 1) }
{
    let Some(area) = area_of_call(transaction, call) else {
        return perform_call(&replay.outside, unit, locks, transaction, call);
    };
    match first_unused(replay.record, transaction, &area) {
        None => perform_call(&replay.outside, unit, locks, transaction, call),
        Some(Note::Refused(_, code)) => {
            do_refused(replay, unit, locks, transaction, call, area, *code)
        }
        Some(Note::Released(_, content)) => {
            do_shown(replay, unit, locks, transaction, call, area, content)
        }
    }
}

/// Does the next statement of a replay, and says what became of it. Fewer than 2^64 - 1 statements were done. When
/// memory runs out, the transaction and the locks are of no use any more.
pub(crate) fn next_statement(
    replay: &Replay,
    locks: &mut LockTable,
    transaction: &mut OpenTransaction,
) -> Result<Happened, OutOfMemory>
    requires auditable { IsAuditable replay.now }
    requires goes { Goes replay.now locks.old transaction.old }
    requires statements { transaction.old.statements + 1 < 2 ^ 64 }
    ensures exact { IfOk result (λ h. (transaction_of transaction.new, h) ≡ replay_statement (app_of replay.now) (tables_in replay.now) (kept_in replay.now) (transaction_of transaction.old)) }
    ensures goes { OnOk result (Goes replay.now locks.new transaction.new) }
    ensures fits { IfOk result (HappenedFits (app_of replay.now).generation (is_asynchronous transaction.old.id)) }
    ensures counted { OnOk result (transaction.new.statements ≤ transaction.old.statements + 1) }
{
    let outside = &replay.outside;
    let Some(unit) = outside.units.unit_of(transaction.current) else {
        unreachable!()
    };
    match step_unit(outside.alloc, unit, transaction)? {
        Stepped::Plain => Ok(Happened::Went),
        Stepped::Asks(call) => {
            let happened = do_call(replay, unit, locks, transaction, &call);
            drop(call);
            happened
        }
        Stepped::Ends(cause) => Ok(Happened::Breaks(Ending::Broken(cause))),
    }
}
