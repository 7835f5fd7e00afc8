//! Inputs that services read.
ghost use Rattle.std.specs.Prelude.{◌≡◌, ◌∷◌, [], ◌<◌, ◌^◌, false, OnOk};
ghost use Rattle.kdcs_types.specs.declared.key.ServiceId.TheVariants.{Dialogue};
ghost use Rattle.abstract_monitor.specs.{declared.input_use.ServiceState.TheVariants.{Awaits}, Commands.{next_input, start_service}, Endings.{opened}, Sessions.{is_running, service_state}};
ghost use Rattle.abstract_monitor.specs.Turns.{queued};
ghost use Rattle.open_transaction.specs.Transactions.{HasOrder};
ghost use Rattle.service_ends.specs.{Whole.{app_of, IsWhole}, Standing.{IsIndexed, SameApplication, state_of}};
ghost use Rattle.service_ends.specs.Ending.{ForOpen};
ghost use Rattle.monitor_core.specs.{Commanding.{Rests, queued_with}, Counted.{IsAhead}};

use crate::signing::row_of;
use abstract_monitor::Happened;
use kd_base::{Bytes, Name, OutOfMemory};
use kdcs_calls::service_statement::do_statement;
use kdcs_types::{Header, Parts, Service, ServiceId};
use service_ends::core_state::MonitorParts;
use service_ends::header_of_row;
use std::alloc::Global;

// A service at rest opens a transaction, from its row if it has one, that has this input to read, and is at the back of the
// ready list.
fn open_with(
    parts: &mut MonitorParts,
    alloc: Global,
    id: &ServiceId,
    began: Option<Service>,
    header: Header,
    text: Bytes,
) -> Result<(), OutOfMemory>
    requires indexed { IsIndexed parts.old }
    requires order { HasOrder began }
    requires rests { Rests (state_of parts.old) id.now }
    ensures state { OnOk result (state_of parts.new ≡ queued (state_of parts.old) id.now (opened parts.old.generation began header (text ∷ []) (text ∷ []))) }
    ensures indexed { OnOk result (IsIndexed parts.new) }
    ensures same { OnOk result (SameApplication parts.old parts.new) }
{
    let mut handed = Parts::new(alloc);
    handed.push(text)?;
    parts.open(alloc, id, began, header, handed, true)?;
    parts.make_ready(id)
}

/// The dialogue service of a user, which rests, starts with this TAC, and this input is the message to read.
pub(crate) fn start_service(
    parts: &mut MonitorParts,
    alloc: Global,
    user: &Name,
    lterm: &Name,
    tac: &Name,
    text: Bytes,
) -> Result<(), OutOfMemory>
    requires indexed { IsIndexed parts.old }
    requires rests { Rests (state_of parts.old) (Dialogue user.now) }
    ensures state { OnOk result (state_of parts.new ≡ start_service (app_of parts.old) (state_of parts.old) user.now lterm.now tac.now text) }
    ensures indexed { OnOk result (IsIndexed parts.new) }
    ensures same { OnOk result (SameApplication parts.old parts.new) }
{
    let header = Header {
        benid: *user,
        logter: *lterm,
        tacvg: *tac,
        tacal: *tac,
    };
    open_with(
        parts,
        alloc,
        &ServiceId::Dialogue(*user),
        None,
        header,
        text,
    )
}

// The open transaction is at a PEND KP, whose statement is done now, since only its place was kept: its follow-up reads
// the input.
fn follow_keep(
    parts: &mut MonitorParts,
    alloc: Global,
    user: &Name,
    text: Bytes,
) -> Result<(), OutOfMemory>
    requires whole { IsWhole parts.old }
    requires rests { is_running (state_of parts.old) (Dialogue user.now) ≡ false }
    requires ahead { IsAhead parts.old }
    requires steps { parts.old.steps < 2 ^ 64 }
    ensures state { OnOk result (ForOpen (state_of parts.old) (Dialogue user.now) (λ x. state_of parts.new ≡ queued_with (app_of parts.old) (state_of parts.old) user.now x text)) }
    ensures indexed { OnOk result (IsIndexed parts.new) }
    ensures same { OnOk result (SameApplication parts.old parts.new) }
{
    let id = ServiceId::Dialogue(*user);
    let Some(transaction) = parts.active.get_mut(&id) else {
        return Ok(());
    };
    match do_statement(
        alloc,
        &parts.generation,
        &parts.units,
        &parts.tables,
        &mut parts.locks,
        transaction,
    )? {
        Happened::Held(tac) => {
            transaction.follow(alloc, &parts.generation, tac, Some(text))?;
            parts.make_ready(&id)
        }
        // It is at no other statement.
        Happened::Settles(_outcome) => Ok(()),
        _ => Ok(()),
    }
}

/// The input that the dialogue service of a user awaits: after PEND KP its open transaction goes on with it, else the service
/// goes on from its row. A turn or command was counted that no open transaction has done.
pub(crate) fn next_input(
    parts: &mut MonitorParts,
    alloc: Global,
    user: &Name,
    lterm: &Name,
    text: Bytes,
) -> Result<(), OutOfMemory>
    requires whole { IsWhole parts.old }
    requires awaits { service_state (state_of parts.old) user.now ≡ Awaits }
    requires ahead { IsAhead parts.old }
    requires steps { parts.old.steps < 2 ^ 64 }
    ensures state { OnOk result (state_of parts.new ≡ next_input (app_of parts.old) (state_of parts.old) user.now lterm.now text) }
    ensures indexed { OnOk result (IsIndexed parts.new) }
    ensures same { OnOk result (SameApplication parts.old parts.new) }
{
    let id = ServiceId::Dialogue(*user);
    if parts.active.contains_key(&id) {
        return follow_keep(parts, alloc, user, text);
    }
    let Some(row) = row_of(&parts.tables, user)? else {
        unreachable!()
    };
    let header = header_of_row(&id, &row, lterm);
    open_with(parts, alloc, &id, Some(row), header, text)
}
