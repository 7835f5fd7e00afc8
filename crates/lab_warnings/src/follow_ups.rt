//! Calls that are not for the services of a unit, and follow-ups that their PEND does not allow.

use crate::areas::fixed;
use crate::messages::variant_word;
use crate::roles::Role;
use crate::warned::Warnings;
use crate::warning::Warning;
use application_types::generation::Generation;
use application_types::kdcdef_types::{CallUse, TacEntry};
use application_types::unit_types::{Action, Operand};
use kd_base::{Name, OutOfMemory, Variant};
use lab_check::lab_findings::TextName;
use std::alloc::Global;

// What of a TAC the variant does not allow, and what would be right.
fn wrong_in(role: Role, variant: Variant, entry: &TacEntry) -> Option<&'static str> {
    let is_of_dialogue = match variant {
        Variant::Kp | Variant::Re | Variant::Fc => true,
        _ => role.is_dialogue(),
    };
    if is_of_dialogue && entry.asynchronous {
        return Some("TYPE=A D");
    }
    if !is_of_dialogue && role.is_job() && !entry.asynchronous {
        return Some("TYPE=D A");
    }
    match (variant, entry.call) {
        (Variant::Fc, CallUse::Next) => Some("CALL=NEXT BOTH,FIRST"),
        (Variant::Fc, _) if !entry.on => Some("STATUS=OFF ON"),
        (Variant::Fc, _) => None,
        (_, CallUse::First) => Some("CALL=FIRST BOTH,NEXT"),
        _ => None,
    }
}

// What of its follow-up a PEND does not allow, with the follow-up.
fn wrong_follow_up<'a>(
    generation: &Generation,
    role: Role,
    action: &'a Action,
) -> Option<(&'a [u8], &'static str)> {
    let Action::Pend(variant, Some(operand)) = action else {
        return None;
    };
    let Operand::Literal(_) = operand else {
        return None;
    };
    let bytes = fixed(operand)?;
    let entry = generation.tac(Name::from_bytes(bytes)?)?;
    Some((bytes, wrong_in(role, *variant, entry)?))
}

// A statement that is not for the services of a unit, and what is in its place there.
fn wrong_call(role: Role, action: &Action) -> Option<(Warning, &'static str, &'static str)> {
    match action {
        Action::Fget(_) if role.is_dialogue() => Some((Warning::NotInDialogue, "FGET", "MGET")),
        Action::Mget(_) if role.is_job() => Some((Warning::NotInJob, "MGET", "FGET")),
        Action::Mput(_) if role.is_job() => Some((Warning::NotInJob, "MPUT", "FPUT")),
        Action::Pend(variant @ (Variant::Kp | Variant::Re | Variant::Fc), _) if role.is_job() => {
            Some((
                Warning::NotInJob,
                variant_word(*variant),
                "FI,PR,PA,SP,RS,FR,ER",
            ))
        }
        _ => None,
    }
}

/// Warns of a statement that is not for the services of its unit, else of the follow-up that its PEND does not allow.
pub(crate) fn service_warnings(
    alloc: Global,
    generation: &Generation,
    role: Role,
    line: u32,
    action: &Action,
    warned: &mut Warnings,
) -> Result<(), OutOfMemory> {
    let text = TextName::Units;
    if let Some((warning, word, right)) = wrong_call(role, action) {
        return warned.warn(
            alloc,
            text,
            line,
            warning,
            word.as_bytes(),
            right.as_bytes(),
        );
    }
    match wrong_follow_up(generation, role, action) {
        Some((tac, wrong)) => {
            warned.warn(
                alloc,
                text,
                line,
                Warning::WrongFollowUp,
                tac,
                wrong.as_bytes(),
            )
        }
        None => Ok(()),
    }
}
