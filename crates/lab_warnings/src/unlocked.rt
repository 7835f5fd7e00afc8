//! Areas that are freed though they are not held, or between their read and their write.

use crate::areas::{
    Doing, Kind, Sameness, Use, area_words, field_of, is_stored, same_area, use_of,
};
use crate::flow::{Fact, Question, Walk};
use crate::roles::Role;
use crate::warned::Warnings;
use crate::warning::Warning;
use application_types::unit_types::{Action, Operand, Unit};
use kd_base::OutOfMemory;
use std::alloc::Global;

/// What is so where an area may be held.
const HELD: &[Fact] = &[Fact::PerhapsRead, Fact::Read, Fact::Written, Fact::Unknown];

/// What is so where an area is not known to be freed.
const NOT_FREED: &[Fact] = &[
    Fact::Untouched,
    Fact::PerhapsRead,
    Fact::Read,
    Fact::Written,
    Fact::Unknown,
];

/// What was done with an area.
#[derive(Clone, Copy)]
struct Done<'a> {
    kind: Kind,
    name: &'a Operand,
}

// What is so of an area after this was done with it.
fn after(doing: Doing, fact: Fact) -> Fact {
    match (doing, fact) {
        (Doing::Writes | Doing::Deletes, _) => Fact::Written,
        (_, Fact::Written | Fact::Unknown) => fact,
        (Doing::Reads, _) => Fact::Read,
        (Doing::Frees, Fact::Read) => Fact::Freed,
        (Doing::Frees, _) => fact,
    }
}

// What is so of an area after this was done with what may be that area.
fn after_maybe(doing: Doing, fact: Fact) -> Fact {
    match (doing, fact) {
        (_, Fact::Written) => Fact::Written,
        (Doing::Writes | Doing::Deletes, _) => Fact::Unknown,
        (Doing::Reads, Fact::Untouched | Fact::Freed) => Fact::PerhapsRead,
        (Doing::Frees, Fact::Read) => Fact::PerhapsRead,
        _ => fact,
    }
}

// What is so of the area that a field names, after bytes of the field were stored.
fn after_store(fact: Fact) -> Fact {
    match fact {
        Fact::Untouched => Fact::Untouched,
        Fact::PerhapsRead | Fact::Read | Fact::Freed => Fact::PerhapsRead,
        _ => Fact::Unknown,
    }
}

impl Question for Done<'_> {
    fn behind(&self, unit: &Unit, action: &Action, fact: Fact) -> Option<Fact> {
        let mut behind = fact;
        if let Some(used) = use_of(action) {
            if used.kind == self.kind {
                behind = match same_area(used.name, self.name) {
                    Sameness::Same => after(used.doing, fact),
                    Sameness::MayBe => after_maybe(used.doing, fact),
                    Sameness::Other => fact,
                };
            }
        }
        match field_of(self.name) {
            Some(field) if is_stored(unit, action, field) => Some(after_store(behind)),
            _ => Some(behind),
        }
    }
}

// Warns of a use of the area of this walk.
fn use_warning(
    alloc: Global,
    walk: &Walk,
    place: u32,
    line: u32,
    used: Use,
    warned: &mut Warnings,
) -> Result<(), OutOfMemory> {
    let words = area_words(alloc, used)?;
    let (facts, others, warning): (&[Fact], &[Fact], Warning) = match used.doing {
        Doing::Reads => return Ok(()),
        Doing::Frees => (&[Fact::Untouched, Fact::Freed], HELD, Warning::NotHeld),
        Doing::Writes | Doing::Deletes => (&[Fact::Freed], NOT_FREED, Warning::LostUpdate),
    };
    let ways = walk.ways(place, facts, others);
    warned.warn_on(alloc, ways, line, warning, words.as_slice())
}

// Warns of what is done with an area that is freed.
fn freed_warnings(
    alloc: Global,
    unit: &Unit,
    role: Role,
    freed: Use,
    warned: &mut Warnings,
) -> Result<(), OutOfMemory> {
    let first = if role.goes_on {
        Fact::Unknown
    } else {
        Fact::Untouched
    };
    let done = Done {
        kind: freed.kind,
        name: freed.name,
    };
    let walk = Walk::from(alloc, unit, &[1], first, &done)?;
    let mut place: u32 = 1;
    for statement in unit.statements() {
        if let Some(used) = use_of(&statement.action) {
            if used.kind == freed.kind && same_area(used.name, freed.name) == Sameness::Same {
                use_warning(alloc, &walk, place, statement.line, used, warned)?;
            }
        }
        place = place.saturating_add(1);
    }
    Ok(())
}

// Whether a statement behind this place frees the area too.
fn is_freed_behind(unit: &Unit, place: u32, freed: Use) -> bool {
    let mut other: u32 = 1;
    for statement in unit.statements() {
        if let Some(used) = use_of(&statement.action) {
            if other > place
                && used.doing == Doing::Frees
                && used.kind == freed.kind
                && same_area(used.name, freed.name) == Sameness::Same
            {
                return true;
            }
        }
        other = other.saturating_add(1);
    }
    false
}

/// Warns of areas that are freed though they are not held, or between their read and their write.
pub(crate) fn unlock_warnings(
    alloc: Global,
    unit: &Unit,
    role: Role,
    warned: &mut Warnings,
) -> Result<(), OutOfMemory> {
    let mut place: u32 = 1;
    for statement in unit.statements() {
        if let Some(used) = use_of(&statement.action) {
            // Each area once, at the last statement that frees it.
            if used.doing == Doing::Frees && !is_freed_behind(unit, place, used) {
                freed_warnings(alloc, unit, role, used, warned)?;
            }
        }
        place = place.saturating_add(1);
    }
    Ok(())
}
