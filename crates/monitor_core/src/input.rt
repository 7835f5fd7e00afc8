//! Terminal inputs: what they mean, and what is done.
ghost use Rattle.std.specs.{Prelude.{◌≡◌, ◌<◌, ◌^◌, ◌++◌, [], IfOk, IsSome, IsTrue, OnOk, codes}, FinMap.{find}};
ghost use Rattle.abstract_monitor.specs.{CommandsOf.{is_pterm}, declared.command.Command.TheVariants.{Input}, declared.input_use.ServiceState.TheVariants.{Awaits, NoService}, Bytes.{bytes_cmp}};
ghost use Rattle.abstract_monitor.specs.{Commands.{command_of, lterm_at, next_input, says, start_service, uncommitted, use_now, used, user_at}, Lines.{sys_line}};
ghost use Rattle.abstract_monitor.specs.Sessions.{is_awaiting, service_state};
ghost use Rattle.service_ends.specs.{Whole.{app_of, IsWhole}, Standing.{IsIndexed, SameApplication, state_of}};
ghost use Rattle.monitor_core.specs.{Commanding.{Comes, HasService, IsFor, IsUnread, off_step}, Counted.{IsAhead}};

use crate::message::{line_alone, say};
use crate::showing::{Shown, display, show_again, show_next};
use crate::signing::{sign_off, sign_on};
use crate::starting::{next_input, start_service};
use abstract_monitor::{ServiceState, Use};
use kd_base::{Bytes, Name, OutOfMemory};
use kdcs_types::{Acts, ServiceId};
use monitor_parts::output_lines::{fault_text, refused_line, signed_off_line};
use monitor_parts::session_table::lterm_of;
use service_ends::core_state::MonitorParts;
use std::alloc::Global;

// Whether the dialogue service of a user awaits an input, where it is neither ready nor in a task.
fn is_awaiting(parts: &MonitorParts, id: &ServiceId) -> bool
    ensures { result ≡ is_awaiting (state_of parts.now) id.now }
{
    if parts.active.contains_key(id) {
        return true;
    }
    match parts.tables.service(*id) {
        Some(row) => row.awaits,
        None => false,
    }
}

// What the dialogue service of a user does.
#[tactic(auto, using(crate::proofs::Signs::running_is), unfolding(abstract_monitor::specs::Sessions::service_state))]
fn service_state(parts: &MonitorParts, user: &Name) -> ServiceState
    ensures { result ≡ service_state (state_of parts.now) user.now }
{
    let id = ServiceId::Dialogue(*user);
    if parts.scheduler.is_running(id) {
        return ServiceState::Running;
    }
    if is_awaiting(parts, &ServiceId::Dialogue(*user)) {
        return ServiceState::Awaits;
    }
    ServiceState::NoService
}

/// What an input at this PTERM of the generation means, as the monitor is now. Memory is wanted only for the text that a
/// service reads.
#[tactic(auto, unfolding(abstract_monitor::specs::Commands::use_now))]
pub(crate) fn use_of(parts: &MonitorParts, pterm: &Name, text: &[u8]) -> Result<Use, OutOfMemory>
    requires pterm { IsTrue (is_pterm parts.now.generation pterm.now) }
    ensures { IfOk result (λ u. u ≡ use_now (app_of parts.now) (state_of parts.now) pterm.now text.now) }
{
    let state = match parts.sessions.user_at(*pterm) {
        Some(user) => service_state(parts, &user),
        None => ServiceState::NoService,
    };
    parts
        .sessions
        .use_of(&parts.generation, state, *pterm, text)
}

// KDCOFF of the user who is signed on at this PTERM.
fn leave(parts: &mut MonitorParts, alloc: Global, pterm: &Name) -> Result<Acts, OutOfMemory>
    requires whole { IsWhole parts.old }
    requires signed { IsSome (find bytes_cmp pterm.now (state_of parts.old).signed) }
    ensures exact { IfOk result (λ acts. Comes (state_of parts.new) acts (off_step (app_of parts.old) (state_of parts.old) pterm.now)) }
    ensures indexed { OnOk result (IsIndexed parts.new) }
    ensures same { OnOk result (SameApplication parts.old parts.new) }
{
    let Some(user) = parts.sessions.user_at(*pterm) else {
        unreachable!()
    };
    sign_off(parts, alloc, pterm, &user)?;
    line_alone(alloc, signed_off_line(alloc, *pterm, user)?)
}

// The service of the user who is signed on at this PTERM reads the input that it awaits.
fn read_next(
    parts: &mut MonitorParts,
    alloc: Global,
    pterm: &Name,
    lterm: &Name,
    text: Bytes,
) -> Result<Acts, OutOfMemory>
    requires whole { IsWhole parts.old }
    requires awaits { HasService (state_of parts.old) pterm.now Awaits }
    requires ahead { IsAhead parts.old }
    requires steps { parts.old.steps < 2 ^ 64 }
    ensures exact { IfOk result (λ acts. Comes (state_of parts.new) acts (uncommitted (next_input (app_of parts.old) (state_of parts.old) (user_at (state_of parts.old) pterm.now) lterm.now text) [])) }
    ensures indexed { OnOk result (IsIndexed parts.new) }
    ensures same { OnOk result (SameApplication parts.old parts.new) }
{
    let Some(user) = parts.sessions.user_at(*pterm) else {
        unreachable!()
    };
    next_input(parts, alloc, &user, lterm, text)?;
    Ok(Acts::new(alloc))
}

// A service of the user who is signed on at this PTERM, and has none, starts with this TAC and reads this message.
fn begin(
    parts: &mut MonitorParts,
    alloc: Global,
    pterm: &Name,
    lterm: &Name,
    tac: &Name,
    text: Bytes,
) -> Result<Acts, OutOfMemory>
    requires indexed { IsIndexed parts.old }
    requires none { HasService (state_of parts.old) pterm.now NoService }
    ensures exact { IfOk result (λ acts. Comes (state_of parts.new) acts (uncommitted (start_service (app_of parts.old) (state_of parts.old) (user_at (state_of parts.old) pterm.now) lterm.now tac.now text) [])) }
    ensures indexed { OnOk result (IsIndexed parts.new) }
    ensures same { OnOk result (SameApplication parts.old parts.new) }
{
    let Some(user) = parts.sessions.user_at(*pterm) else {
        unreachable!()
    };
    start_service(parts, alloc, &user, lterm, tac, text)?;
    Ok(Acts::new(alloc))
}

// What an input does that no service reads.
#[tactic(auto, unfolding(abstract_monitor::specs::Commands::used))]
fn answer_it(
    parts: &mut MonitorParts,
    alloc: Global,
    pterm: &Name,
    lterm: &Name,
    meaning: &Use,
) -> Result<Acts, OutOfMemory>
    requires whole { IsWhole parts.old }
    requires lterm { lterm.now ≡ lterm_at (app_of parts.old) pterm.now }
    requires unread { IsUnread meaning.now }
    requires meant { IsFor (state_of parts.old) pterm.now meaning.now }
    ensures exact { IfOk result (λ acts. Comes (state_of parts.new) acts (used (app_of parts.old) (state_of parts.old) pterm.now lterm.now (user_at (state_of parts.old) pterm.now) meaning.now)) }
    ensures indexed { OnOk result (IsIndexed parts.new) }
    ensures same { OnOk result (SameApplication parts.old parts.new) }
{
    match meaning {
        Use::Sign(name) => sign_on(parts, alloc, pterm, lterm, name),
        Use::SignRefused(fault) => say(alloc, pterm, fault_text(*fault)),
        Use::SignFirst => say(alloc, pterm, b"SIGN ON FIRST"),
        Use::AlreadySigned => say(alloc, pterm, b"ALREADY SIGNED ON"),
        Use::Off => leave(parts, alloc, pterm),
        Use::Display => display(parts, alloc, pterm),
        Use::Output => show_next(parts, alloc, Shown::Terminal, pterm, lterm),
        Use::Again => show_again(parts, alloc, Shown::Terminal, pterm, lterm),
        Use::Busy => say(alloc, pterm, b"SERVICE RUNNING"),
        Use::TooLong => say(alloc, pterm, b"INPUT TOO LONG"),
        Use::TacRefused(fault) => line_alone(alloc, refused_line(alloc, *pterm, *fault)?),
        Use::Next(_) | Use::Start(_, _) => unreachable!(),
    }
}

// What the use of an input does at this PTERM, which has this LTERM.
#[tactic(auto, unfolding(abstract_monitor::specs::Commands::used))]
fn use_it(
    parts: &mut MonitorParts,
    alloc: Global,
    pterm: &Name,
    lterm: &Name,
    meaning: Use,
) -> Result<Acts, OutOfMemory>
    requires whole { IsWhole parts.old }
    requires lterm { lterm.now ≡ lterm_at (app_of parts.old) pterm.now }
    requires meant { IsFor (state_of parts.old) pterm.now meaning }
    requires ahead { IsAhead parts.old }
    requires steps { parts.old.steps < 2 ^ 64 }
    ensures exact { IfOk result (λ acts. Comes (state_of parts.new) acts (used (app_of parts.old) (state_of parts.old) pterm.now lterm.now (user_at (state_of parts.old) pterm.now) meaning)) }
    ensures indexed { OnOk result (IsIndexed parts.new) }
    ensures same { OnOk result (SameApplication parts.old parts.new) }
{
    match meaning {
        Use::Next(text) => read_next(parts, alloc, pterm, lterm, text),
        Use::Start(tac, text) => begin(parts, alloc, pterm, lterm, &tac, text),
        other => answer_it(parts, alloc, pterm, lterm, &other),
    }
}

// An input at a PTERM of the generation.
#[tactic(auto, unfolding(abstract_monitor::specs::Commands::command_of))]
pub(crate) fn input(
    parts: &mut MonitorParts,
    alloc: Global,
    pterm: &Name,
    text: &[u8],
) -> Result<Acts, OutOfMemory>
    requires whole { IsWhole parts.old }
    requires pterm { IsTrue (is_pterm parts.old.generation pterm.now) }
    requires ahead { IsAhead parts.old }
    requires steps { parts.old.steps < 2 ^ 64 }
    ensures exact { IfOk result (λ acts. Comes (state_of parts.new) acts (command_of (app_of parts.old) (state_of parts.old) (Input pterm.now text.now))) }
    ensures indexed { OnOk result (IsIndexed parts.new) }
    ensures same { OnOk result (SameApplication parts.old parts.new) }
{
    let lterm = lterm_of(&parts.generation, *pterm);
    let meaning = use_of(parts, pterm, text)?;
    use_it(parts, alloc, pterm, &lterm, meaning)
}
