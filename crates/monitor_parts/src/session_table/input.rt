//! What a terminal input means, in the order of the tests.
ghost use Rattle.std.specs.{Prelude.{◌≡◌, List, ℕ, None, IfOk, IsTrue, OnErr, length, nat_lt}, Option.{option_copied}};
ghost use Rattle.application_types.specs.Generation.{pterm_of};
ghost use Rattle.abstract_monitor.specs.{CommandsOf.{is_pterm}, Sessions.{after_word, lterm_by, off_use, same_password, sign_on_use, use_signed, use_unsigned}, Turns.{pterm_of_user}};
ghost use Rattle.abstract_monitor.specs.declared.input_use.Use.TheVariants.{Sign};
ghost use Rattle.monitor_parts.specs.Inputs.{denies, holds_text, start_use};

use crate::session_table::sessions::Sessions;
use crate::session_table::split::Split;
use abstract_monitor::{ServiceState, SignFault, TacFault, Use};
use application_types::generation::Generation;
use application_types::kdcdef_types::CallUse;
use kd_base::{Bytes, Name, OutOfMemory};
use monitor_rules::decide;
use std::alloc::Global;

/// Who types an input, and the LTERM of the terminal.
#[derive(Clone, Copy)]
pub struct Caller {
    pub user: Name,
    pub lterm: Name,
}

/// The LTERM of a PTERM of the generation. It takes no memory.
pub fn lterm_of(generation: &Generation, pterm: Name) -> Name
    requires pterm { IsTrue (is_pterm generation.now pterm) }
    ensures { result ≡ lterm_by (pterm_of generation.now pterm) }
{
    match generation.pterm(pterm) {
        Some(entry) => entry.lterm,
        None => unreachable!(),
    }
}

// Both have none, or both have the same.
fn same_password(given: &Option<Bytes>, said: Option<&[u8]>) -> bool
    ensures { result ≡ same_password given.now (option_copied said.entry) }
{
    match (given, said) {
        (None, None) => true,
        (Some(given), Some(said)) => given.as_slice() == said,
        _ => false,
    }
}

// A user and, after a comma, the password, as they are after KDCSIGN.
fn sign_on_use(generation: &Generation, sessions: &Sessions, named: &Split) -> Use
    ensures exact { result ≡ sign_on_use generation.now sessions.now named.now }
    ensures nowhere { (user : List ℕ) → result ≡ Sign user → pterm_of_user sessions.now user ≡ None }
{
    let Some(user) = Name::from_bytes(named.word()) else {
        return Use::SignRefused(SignFault::BadForm);
    };
    let Some(entry) = generation.user(user) else {
        return Use::SignRefused(SignFault::UnknownUser);
    };
    if !same_password(&entry.pass, named.rest()) {
        return Use::SignRefused(SignFault::WrongPassword);
    }
    if sessions.is_signed_on(user) {
        return Use::SignRefused(SignFault::InUse);
    }
    Use::Sign(user)
}

/// The use of an input where nobody is signed on.
pub fn use_unsigned(generation: &Generation, sessions: &Sessions, text: &Split) -> Use
    ensures exact { result ≡ use_unsigned generation.now sessions.now text.now }
    ensures nowhere { (user : List ℕ) → result ≡ Sign user → pterm_of_user sessions.now user ≡ None }
{
    if text.word() != b"KDCSIGN".as_slice() {
        return Use::SignFirst;
    }
    sign_on_use(generation, sessions, &Split::at(b',', text.after_word()))
}

fn is_too_long(generation: &Generation, text: &[u8]) -> bool
    ensures { result ≡ nat_lt generation.now.limits.nb (length text.now) }
{
    text.len() > generation.max().nb as usize
}

// A service starts with the TAC that the first word names, or why it does not.
fn start(
    alloc: Global,
    generation: &Generation,
    caller: Caller,
    text: &Split,
) -> Result<Use, OutOfMemory>
    ensures ok { IfOk result (λ u. u ≡ start_use generation.now caller text.now) }
    ensures memory { OnErr result (IsTrue (holds_text (start_use generation.now caller text.now))) }
{
    let Some(tac) = Name::from_bytes(text.word()) else {
        return Ok(Use::TacRefused(TacFault::UnknownTac));
    };
    let Some(entry) = generation.tac(tac) else {
        return Ok(Use::TacRefused(TacFault::UnknownTac));
    };
    if entry.asynchronous || entry.call == CallUse::Next {
        return Ok(Use::TacRefused(TacFault::NotAllowed));
    }
    if !entry.on {
        return Ok(Use::TacRefused(TacFault::IsOff));
    }
    if let Some(denial) = decide(generation, caller.user, caller.lterm, tac) {
        return Ok(Use::TacRefused(TacFault::Denied(denial)));
    }
    let message = text.after_word();
    if is_too_long(generation, message) {
        return Ok(Use::TooLong);
    }
    Ok(Use::Start(tac, Bytes::from_slice(alloc, message)?))
}

// KDCOFF while a service runs is Busy.
fn off_use(state: ServiceState) -> Use
    ensures { result ≡ off_use state }
{
    match state {
        ServiceState::Running => Use::Busy,
        ServiceState::Awaits | ServiceState::NoService => Use::Off,
    }
}

/// The use of an input of a user who is signed on: the commands of the terminal by their first word, then the text.
pub fn use_signed(
    alloc: Global,
    generation: &Generation,
    caller: Caller,
    whole: &[u8],
    text: &Split,
    state: ServiceState,
) -> Result<Use, OutOfMemory>
    ensures ok { IfOk result (λ u. u ≡ use_signed generation.now (denies generation.now caller) whole.now text.now state) }
    ensures memory { OnErr result (IsTrue (holds_text (use_signed generation.now (denies generation.now caller) whole.now text.now state))) }
{
    let word = text.word();
    if word == b"KDCSIGN".as_slice() {
        return Ok(Use::AlreadySigned);
    }
    if word == b"KDCDISP".as_slice() {
        return Ok(Use::Display);
    }
    if word == b"KDCOUT".as_slice() {
        return Ok(Use::Output);
    }
    if word == b"KDCLAST".as_slice() {
        return Ok(Use::Again);
    }
    if word == b"KDCOFF".as_slice() {
        return Ok(off_use(state));
    }
    match state {
        ServiceState::Running => Ok(Use::Busy),
        ServiceState::Awaits if is_too_long(generation, whole) => Ok(Use::TooLong),
        ServiceState::Awaits => Ok(Use::Next(Bytes::from_slice(alloc, whole)?)),
        ServiceState::NoService => start(alloc, generation, caller, text),
    }
}
