//! Whether a run calls INIT first, and puts a message before a PEND that needs one.

use crate::flow::{Fact, Question, Walk};
use crate::roles::Role;
use crate::warned::Warnings;
use crate::warning::Warning;
use application_types::unit_types::{Action, Unit};
use kd_base::{OutOfMemory, Variant};
use std::alloc::Global;

/// Whether INIT was done, and a part of a message put.
struct Begun;

impl Question for Begun {
    fn behind(&self, _unit: &Unit, action: &Action, fact: Fact) -> Option<Fact> {
        match (action, fact) {
            (Action::Init, Fact::Early) => Some(Fact::Silent),
            // The service ends with E01.
            (Action::Init, _) => None,
            (action, Fact::Early) if call_of(action).is_some() => None,
            (Action::Mput(_), _) => Some(Fact::Spoken),
            _ => Some(fact),
        }
    }
}

/// The word of a call, which INIT comes before.
pub(crate) fn call_of(action: &Action) -> Option<&'static str> {
    match action {
        Action::Mget(_) => Some("MGET"),
        Action::Mput(_) => Some("MPUT"),
        Action::Fget(_) => Some("FGET"),
        Action::Fput(_, _) => Some("FPUT"),
        Action::Dput(_, _, _, _, _, _, _) => Some("DPUT"),
        Action::SgetGb(_, _) | Action::SgetKp(_, _) | Action::SgetRl(_, _) | Action::SgetUs(_, _) =>
            Some("SGET"),
        Action::SputGb(_, _) | Action::SputMs(_, _) | Action::SputUs(_, _) => Some("SPUT"),
        Action::SrelGb(_) | Action::SrelLb(_) => Some("SREL"),
        Action::Gtda(_, _) => Some("GTDA"),
        Action::Ptda(_, _) => Some("PTDA"),
        Action::UnlkGb(_) | Action::UnlkUs(_) | Action::UnlkDa(_) => Some("UNLK"),
        _ => None,
    }
}

/// The word of a variant of PEND.
pub(crate) fn variant_word(variant: Variant) -> &'static str {
    match variant {
        Variant::Kp => "KP",
        Variant::Pr => "PR",
        Variant::Pa => "PA",
        Variant::Re => "RE",
        Variant::Sp => "SP",
        Variant::Fi => "FI",
        Variant::Fc => "FC",
        Variant::Fr => "FR",
        Variant::Er => "ER",
        Variant::Rs => "RS",
    }
}

// Warns of a call that may be the first, of a second INIT, and of a PEND without a message.
fn statement_warning(
    alloc: Global,
    walk: &Walk,
    role: Role,
    place: u32,
    line: u32,
    action: &Action,
    warned: &mut Warnings,
) -> Result<(), OutOfMemory> {
    let begun = &[Fact::Silent, Fact::Spoken];
    if let Action::Init = action {
        let ways = walk.ways(place, begun, &[Fact::Early]);
        return warned.warn_on(alloc, ways, line, Warning::InitTwice, b"");
    }
    if let Some(call) = call_of(action) {
        let ways = walk.ways(place, &[Fact::Early], begun);
        return warned.warn_on(alloc, ways, line, Warning::NoInit, call.as_bytes());
    }
    if let Action::Pend(
        variant @ (Variant::Fi | Variant::Re | Variant::Kp | Variant::Fc),
        _,
    ) = action
    {
        if role.is_dialogue() {
            let ways = walk.ways(place, &[Fact::Early, Fact::Silent], &[Fact::Spoken]);
            let word = variant_word(*variant).as_bytes();
            return warned.warn_on(alloc, ways, line, Warning::NoMessage, word);
        }
    }
    Ok(())
}

/// Warns of calls before INIT, of a second INIT, and of a PEND without a message.
pub(crate) fn message_warnings(
    alloc: Global,
    unit: &Unit,
    role: Role,
    warned: &mut Warnings,
) -> Result<(), OutOfMemory> {
    let walk = Walk::from(alloc, unit, &[1], Fact::Early, &Begun)?;
    let mut place: u32 = 1;
    for statement in unit.statements() {
        let line = statement.line;
        statement_warning(alloc, &walk, role, place, line, &statement.action, warned)?;
        place = place.saturating_add(1);
    }
    Ok(())
}
