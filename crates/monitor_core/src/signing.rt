//! Signing on and off.
ghost use Rattle.std.specs.{Prelude.{◌≡◌, ◌∷◌, [], ◌++◌, Some, None, IfOk, OnOk, codes}, FinMap.{find}};
ghost use Rattle.kdcs_types.specs.{declared.act.Act.TheVariants.{Emit}, declared.key.ServiceId.TheVariants.{Dialogue}, Tables.{service_of}};
ghost use Rattle.abstract_monitor.specs.{Bytes.{bytes_cmp}, Commands.{drop_by, lterm_at, out_again, resumed_by, signed_off, signed_on, signed_on_by, with_session}, Endings.{restarts}, Lines.{sys_line}};
ghost use Rattle.open_transaction.specs.Transactions.{HasOrder};
ghost use Rattle.monitor_parts.specs.Signed.{CanSignOn};
ghost use Rattle.service_ends.specs.{Whole.{app_of, IsWhole}, Standing.{IsIndexed, SameApplication, state_of}};
ghost use Rattle.monitor_core.specs.Commanding.{Comes, Rests};

use crate::message::{line_alone, say};
use application_types::generation::Generation;
use kd_base::{Bytes, Name, OutOfMemory};
use kdcs_types::{Act, Acts, Service, ServiceId, Tables};
use monitor_parts::output_lines::{out_line, signed_on_line};
use service_ends::core_state::MonitorParts;
use service_ends::{go_on, set_row};
use std::alloc::Global;

fn send_last(
    acts: &mut Acts,
    alloc: Global,
    pterm: &Name,
    last: &Option<Bytes>,
) -> Result<(), OutOfMemory>
    ensures { OnOk result (acts.new ≡ acts.old ++ out_again pterm.now last.now) }
{
    match last {
        Some(message) => acts.push(Act::Emit(out_line(alloc, *pterm, message.as_slice())?)),
        None => Ok(()),
    }
}

fn say_signed_on(alloc: Global, pterm: &Name, user: &Name) -> Result<Acts, OutOfMemory>
    ensures { IfOk result (λ acts. acts ≡ Emit (sys_line pterm.now (codes "SIGNED ON " ++ user.now)) ∷ []) }
{
    line_alone(alloc, signed_on_line(alloc, *pterm, *user)?)
}

// What a user sees who signs on: that it is so, and the last dialogue message of an open service again.
fn greeting(
    alloc: Global,
    pterm: &Name,
    user: &Name,
    last: &Option<Bytes>,
) -> Result<Acts, OutOfMemory>
    ensures { IfOk result (λ acts. acts ≡ Emit (sys_line pterm.now (codes "SIGNED ON " ++ user.now)) ∷ out_again pterm.now last.now) }
{
    let mut acts = say_signed_on(alloc, pterm, user)?;
    send_last(&mut acts, alloc, pterm, last)?;
    Ok(acts)
}

// The user is signed on, and has seen the last message of this row.
fn sign_on_with(
    parts: &mut MonitorParts,
    pterm: &Name,
    user: &Name,
    row: &Service,
) -> Result<(), OutOfMemory>
    requires indexed { IsIndexed parts.old }
    requires can { CanSignOn (state_of parts.old).signed pterm.now user.now }
    ensures indexed { OnOk result (IsIndexed parts.new) }
    ensures same { OnOk result (SameApplication parts.old parts.new) }
    ensures state { OnOk result (state_of parts.new ≡ with_session (state_of parts.old) pterm.now user.now row.now.last) }
{
    parts.sign_on(pterm, user, row.last.clone()?)
}

// The user is signed on, and the service goes on from its row, unless that awaits an input.
fn resume(
    parts: &mut MonitorParts,
    alloc: Global,
    pterm: &Name,
    lterm: &Name,
    user: &Name,
    row: Service,
) -> Result<(), OutOfMemory>
    requires indexed { IsIndexed parts.old }
    requires can { CanSignOn (state_of parts.old).signed pterm.now user.now }
    requires order { HasOrder (Some row) }
    requires rests { Rests (state_of parts.old) (Dialogue user.now) }
    ensures state { OnOk result (state_of parts.new ≡ resumed_by (app_of parts.old) (with_session (state_of parts.old) pterm.now user.now row.last) user.now lterm.now row row.awaits) }
    ensures indexed { OnOk result (IsIndexed parts.new) }
    ensures same { OnOk result (SameApplication parts.old parts.new) }
{
    sign_on_with(parts, pterm, user, &row)?;
    if row.awaits {
        return Ok(());
    }
    go_on(parts, alloc, &ServiceId::Dialogue(*user), row, lterm)
}

/// The row of the user's dialogue service.
pub(crate) fn row_of(tables: &Tables, user: &Name) -> Result<Option<Service>, OutOfMemory>
    ensures { IfOk result (λ row. row ≡ service_of tables.now (Dialogue user.now)) }
{
    match tables.service(ServiceId::Dialogue(*user)) {
        Some(row) => Ok(Some(row.clone()?)),
        None => Ok(None),
    }
}

// A user without a service signs on.
fn sign_on_anew(
    parts: &mut MonitorParts,
    alloc: Global,
    pterm: &Name,
    user: &Name,
) -> Result<Acts, OutOfMemory>
    requires indexed { IsIndexed parts.old }
    requires can { CanSignOn (state_of parts.old).signed pterm.now user.now }
    ensures exact { IfOk result (λ acts. Comes (state_of parts.new) acts (signed_on_by (app_of parts.old) (state_of parts.old) pterm.now user.now (lterm_at (app_of parts.old) pterm.now) None)) }
    ensures indexed { OnOk result (IsIndexed parts.new) }
    ensures same { OnOk result (SameApplication parts.old parts.new) }
{
    parts.sign_on(pterm, user, None)?;
    greeting(alloc, pterm, user, &None)
}

// A user with this row of a service signs on.
fn sign_on_again(
    parts: &mut MonitorParts,
    alloc: Global,
    pterm: &Name,
    lterm: &Name,
    user: &Name,
    row: Service,
) -> Result<Acts, OutOfMemory>
    requires indexed { IsIndexed parts.old }
    requires can { CanSignOn (state_of parts.old).signed pterm.now user.now }
    requires order { HasOrder (Some row) }
    requires rests { Rests (state_of parts.old) (Dialogue user.now) }
    ensures exact { IfOk result (λ acts. Comes (state_of parts.new) acts (signed_on_by (app_of parts.old) (state_of parts.old) pterm.now user.now lterm.now (Some row))) }
    ensures indexed { OnOk result (IsIndexed parts.new) }
    ensures same { OnOk result (SameApplication parts.old parts.new) }
{
    let acts = greeting(alloc, pterm, user, &row.last)?;
    resume(parts, alloc, pterm, lterm, user, row)?;
    Ok(acts)
}

/// KDCSIGN of a user who may sign on: a user with an open service sees its last dialogue message again, and a service that
/// awaits no input becomes ready.
pub(crate) fn sign_on(
    parts: &mut MonitorParts,
    alloc: Global,
    pterm: &Name,
    lterm: &Name,
    user: &Name,
) -> Result<Acts, OutOfMemory>
    requires whole { IsWhole parts.old }
    requires can { CanSignOn (state_of parts.old).signed pterm.now user.now }
    requires lterm { lterm.now ≡ lterm_at (app_of parts.old) pterm.now }
    ensures exact { IfOk result (λ acts. Comes (state_of parts.new) acts (signed_on (app_of parts.old) (state_of parts.old) pterm.now user.now)) }
    ensures indexed { OnOk result (IsIndexed parts.new) }
    ensures same { OnOk result (SameApplication parts.old parts.new) }
{
    match row_of(&parts.tables, user)? {
        None => sign_on_anew(parts, alloc, pterm, user),
        Some(row) => sign_on_again(parts, alloc, pterm, lterm, user, row),
    }
}

// Whether the user has RESTART=YES.
fn restarts(generation: &Generation, user: &Name) -> bool
    ensures { result ≡ restarts generation.now user.now }
{
    match generation.user(*user) {
        Some(entry) => entry.restart,
        None => false,
    }
}

/// KDCOFF and DROP: the open transaction of the user's dialogue service is rolled back, and the service of a user with
/// RESTART=NO is over. Neither is a commit.
pub(crate) fn sign_off(
    parts: &mut MonitorParts,
    alloc: Global,
    pterm: &Name,
    user: &Name,
) -> Result<(), OutOfMemory>
    requires whole { IsWhole parts.old }
    ensures state { OnOk result (state_of parts.new ≡ signed_off (app_of parts.old) (state_of parts.old) pterm.now user.now) }
    ensures indexed { OnOk result (IsIndexed parts.new) }
    ensures same { OnOk result (SameApplication parts.old parts.new) }
{
    let keeps = restarts(&parts.generation, user);
    let id = ServiceId::Dialogue(*user);
    parts.withdraw(&id);
    parts.close(&id);
    parts.sign_off(pterm);
    if keeps {
        return Ok(());
    }
    set_row(parts, alloc, &id, &None)
}

/// DROP: the connection of a terminal is lost.
pub(crate) fn drop_terminal(
    parts: &mut MonitorParts,
    alloc: Global,
    pterm: &Name,
) -> Result<Acts, OutOfMemory>
    requires whole { IsWhole parts.old }
    ensures exact { IfOk result (λ acts. Comes (state_of parts.new) acts (drop_by (app_of parts.old) (state_of parts.old) pterm.now (find bytes_cmp pterm.now (state_of parts.old).signed))) }
    ensures indexed { OnOk result (IsIndexed parts.new) }
    ensures same { OnOk result (SameApplication parts.old parts.new) }
{
    let Some(user) = parts.sessions.user_at(*pterm) else {
        return say(alloc, pterm, b"NOT SIGNED ON");
    };
    sign_off(parts, alloc, pterm, &user)?;
    say(alloc, pterm, b"DROPPED")
}
