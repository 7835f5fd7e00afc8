//! Warnings of areas that a service may hold while it has no task.

use crate::areas::{Doing, Kind, Sameness, Use, same_area, use_of};
use crate::flow::{Coming, Fact, Walk};
use crate::messages::variant_word;
use crate::warned::Warnings;
use crate::warning::Warning;
use application_types::generation::Generation;
use application_types::unit_types::{Action, Unit};
use kd_base::{OutOfMemory, Variant};
use lab_check::lab_findings::TextName;
use std::alloc::Global;

// Whether the unit frees the area that is read here, and does not write it.
fn is_freed(unit: &Unit, read: Use) -> bool {
    let mut is_freed = false;
    for statement in unit.statements() {
        if let Some(other) = use_of(&statement.action) {
            if other.kind == read.kind && same_area(other.name, read.name) == Sameness::Same {
                match other.doing {
                    Doing::Reads => {}
                    Doing::Writes | Doing::Deletes => return false,
                    Doing::Frees => is_freed = true,
                }
            }
        }
    }
    is_freed
}

// Whether another service may ask for the area that a statement asks for, and it is not freed. Blocks are asked for by
// services of one user or at one LTERM alone, of which one is no job.
fn may_be_held(unit: &Unit, action: &Action, has_jobs: bool) -> bool {
    let Some(used) = use_of(action) else {
        return false;
    };
    if used.kind == Kind::Lssb || (used.kind != Kind::Gssb && !has_jobs) {
        return false;
    }
    match used.doing {
        Doing::Reads => !is_freed(unit, used),
        Doing::Writes | Doing::Deletes => true,
        Doing::Frees => false,
    }
}

// The places behind the statements that are reached and ask for an area that may be held from there on.
fn behind_areas(
    alloc: Global,
    unit: &Unit,
    walk: &Walk,
    has_jobs: bool,
) -> Result<Vec<u32>, OutOfMemory> {
    let mut places = Vec::new(alloc);
    let mut place: u32 = 1;
    for statement in unit.statements() {
        let next = place.saturating_add(1);
        if walk.comes(place) && may_be_held(unit, &statement.action, has_jobs) {
            places.push(next)?;
        }
        place = next;
    }
    Ok(places)
}

// Warns of a PEND KP or PA, after which the transaction goes on without a task, where it is reached from such places.
fn pend_warnings(
    alloc: Global,
    unit: &Unit,
    behind: &Walk,
    warned: &mut Warnings,
) -> Result<(), OutOfMemory> {
    let mut place: u32 = 1;
    for statement in unit.statements() {
        if let Action::Pend(variant @ (Variant::Kp | Variant::Pa), _) = &statement.action {
            if behind.comes(place) {
                warned.warn(
                    alloc,
                    TextName::Units,
                    statement.line,
                    Warning::HeldOverPend,
                    variant_word(*variant).as_bytes(),
                    b"",
                )?;
            }
        }
        place = place.saturating_add(1);
    }
    Ok(())
}

// Whether there can be asynchronous services.
fn has_jobs(generation: &Generation) -> bool {
    let tacs = generation.tacs();
    for i in 0..tacs.len() {
        if let Some((_, entry)) = tacs.get_index(i) {
            if entry.asynchronous && generation.max().asyntasks > 0 {
                return true;
            }
        }
    }
    false
}

/// Warns of a PEND KP or PA behind a statement that asks for an area, where there is one task, and another service may
/// ask for the area too.
pub(crate) fn held_warnings(
    alloc: Global,
    generation: &Generation,
    unit: &Unit,
    walk: &Walk,
    warned: &mut Warnings,
) -> Result<(), OutOfMemory> {
    let has_jobs = has_jobs(generation);
    if generation.max().tasks > 1 || (generation.counts().users < 2 && !has_jobs) {
        return Ok(());
    }
    let starts = behind_areas(alloc, unit, walk, has_jobs)?;
    let behind = Walk::from(alloc, unit, starts.as_slice(), Fact::Comes, &Coming)?;
    pend_warnings(alloc, unit, &behind, warned)
}
