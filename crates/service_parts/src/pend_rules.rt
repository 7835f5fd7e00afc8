//! What PEND does at the end of a unit run: its outcome, or the cause that refuses it.
//!
//! It stands on the data types and on the definitions of the abstract monitor. Its contract gives the calls above it that
//! the answer is the one that the definitions say, for each variant in a dialogue and in an asynchronous service.

ghost use Rattle.std.specs.{Prelude.{◌≡◌, if◌then◌else◌}, Option.{option_copied}};
ghost use Rattle.abstract_monitor.specs.Outcomes.{goes_first, goes_within, fits_follow_up, is_for_kind, may_follow, needs_message, pend_outcome};

use abstract_monitor::Outcome;
use application_types::kdcdef_types::{CallUse, TacEntry};
use kd_base::{Name, Variant};
use kdcs_types::Cause;

// KP, RE and FC are of dialogue services alone.
fn is_for_kind(asynchronous: bool, variant: Variant) -> bool
    ensures { result ≡ is_for_kind asynchronous variant }
{
    !asynchronous || !matches!(variant, Variant::Kp | Variant::Re | Variant::Fc)
}

// CALL other than FIRST.
fn goes_within(call: CallUse) -> bool
    ensures { result ≡ goes_within call }
{
    call != CallUse::First
}

// CALL other than NEXT.
fn goes_first(call: CallUse) -> bool
    ensures { result ≡ goes_first call }
{
    call != CallUse::Next
}

// The variant allows this follow-up TAC.
fn may_follow(asynchronous: bool, variant: Variant, entry: &TacEntry) -> bool
    ensures { result ≡ may_follow asynchronous variant entry.now }
{
    match variant {
        Variant::Kp | Variant::Re => !entry.asynchronous && goes_within(entry.call),
        Variant::Pr | Variant::Pa | Variant::Sp => {
            entry.asynchronous == asynchronous && goes_within(entry.call)
        }
        Variant::Fc => !entry.asynchronous && goes_first(entry.call) && entry.on,
        Variant::Fi | Variant::Fr | Variant::Er | Variant::Rs => true,
    }
}

// KP, RE, FC, and FI of a dialogue service, need a message.
fn needs_message(asynchronous: bool, variant: Variant) -> bool
    ensures { result ≡ needs_message asynchronous variant }
{
    match variant {
        Variant::Kp | Variant::Re | Variant::Fc => true,
        Variant::Fi => !asynchronous,
        _ => false,
    }
}

// The operand's name, where the variant allows it as a follow-up.
fn follow_up_of(
    asynchronous: bool,
    variant: Variant,
    follow_up: Option<&TacEntry>,
    name: Option<Name>,
) -> Option<Name>
    ensures { result ≡ (if fits_follow_up asynchronous variant (option_copied follow_up.entry) name then name else None) }
{
    match follow_up {
        Some(entry) if may_follow(asynchronous, variant, entry) => name,
        _ => None,
    }
}

/// The outcome of a PEND of this variant in a dialogue or an asynchronous service, whose unit run has put a message or
/// none. `name` is the operand, `None` where it is no name, and `follow_up` is what the generation says of it. Refused by
/// E05 where the variant is not for this kind of service, then by E04 where the variant wants a follow-up and the operand
/// is none that it allows, then by E03 where it wants a message and there is none. It takes no memory.
#[tactic(auto, unfolding(abstract_monitor::specs::Outcomes::pend_outcome))]
pub fn outcome(
    asynchronous: bool,
    variant: Variant,
    has_message: bool,
    follow_up: Option<&TacEntry>,
    name: Option<Name>,
) -> Result<Outcome, Cause>
    ensures { result ≡ pend_outcome asynchronous variant has_message (option_copied follow_up.entry) name }
{
    if !is_for_kind(asynchronous, variant) {
        return Err(Cause::E05);
    }
    let follow_up = follow_up_of(asynchronous, variant, follow_up, name);
    let outcome = match (variant, follow_up) {
        (Variant::Fi, _) => Outcome::Finish,
        (Variant::Fr | Variant::Er, _) => Outcome::Break,
        (Variant::Rs, _) => Outcome::Back,
        (_, None) => return Err(Cause::E04),
        (Variant::Kp, Some(tac)) => Outcome::Hold(tac),
        (Variant::Pr, Some(tac)) => Outcome::Stay(tac),
        (Variant::Pa, Some(tac)) => Outcome::Queue(tac),
        (Variant::Re, Some(tac)) => Outcome::Wait(tac),
        (Variant::Sp, Some(tac)) => Outcome::Point(tac),
        (Variant::Fc, Some(tac)) => Outcome::Follow(tac),
    };
    if needs_message(asynchronous, variant) && !has_message {
        return Err(Cause::E03);
    }
    Ok(outcome)
}
