//! Warnings of the units of an accepted application.

use crate::comparisons::comparison_warning;
use crate::flow::Walk;
use crate::follow_ups::service_warnings;
use crate::held::held_warnings;
use crate::labels::{Label, labels_of};
use crate::messages::message_warnings;
use crate::roles::{Continued, Role, role_of};
use crate::targets::{
    Names, Wanted, add_fields, add_label, message_of, near_name, takes_jobs, target_of, undeclared,
    wanted_block,
};
use crate::unlocked::unlock_warnings;
use crate::unmatched::unmatched_warnings;
use crate::warned::Warnings;
use crate::warning::Warning;
use application_types::generation::Generation;
use application_types::kdcdef_types::Statement;
use application_types::unit_types::{Action, Unit};
use application_types::units::Units;
use kd_base::OutOfMemory;
use lab_check::lab_findings::TextName;
use std::alloc::Global;
use std::collections::BTreeSet;

// The fields that statements of the unit name.
fn named_fields(alloc: Global, unit: &Unit) -> Result<Names, OutOfMemory> {
    let mut names: Names = BTreeSet::new(alloc);
    for statement in unit.statements() {
        add_fields(&mut names, &statement.action)?;
    }
    Ok(names)
}

// The labels that statements of the unit jump to.
fn named_labels(alloc: Global, unit: &Unit) -> Result<Names, OutOfMemory> {
    let mut names: Names = BTreeSet::new(alloc);
    for statement in unit.statements() {
        add_label(&mut names, &statement.action)?;
    }
    Ok(names)
}

// Warns of fields that no statement names.
fn field_warnings(alloc: Global, unit: &Unit, warned: &mut Warnings) -> Result<(), OutOfMemory> {
    let names = named_fields(alloc, unit)?;
    unnamed_fields(alloc, unit, &names, warned)
}

fn unnamed_fields(
    alloc: Global,
    unit: &Unit,
    names: &Names,
    warned: &mut Warnings,
) -> Result<(), OutOfMemory> {
    for field in unit.fields() {
        if !names.contains(&field.name) {
            warned.warn(
                alloc,
                TextName::Units,
                field.line,
                Warning::UnusedField,
                field.name.as_slice(),
                b"",
            )?;
        }
    }
    Ok(())
}

// Warns of labels that no statement jumps to.
fn label_warnings(
    alloc: Global,
    unit: &Unit,
    labels: &[Label],
    warned: &mut Warnings,
) -> Result<(), OutOfMemory> {
    let names = named_labels(alloc, unit)?;
    unnamed_labels(alloc, unit, labels, &names, warned)
}

fn unnamed_labels(
    alloc: Global,
    unit: &Unit,
    labels: &[Label],
    names: &Names,
    warned: &mut Warnings,
) -> Result<(), OutOfMemory> {
    for label in labels {
        if label.unit == *unit.name() && !names.contains(&label.name) {
            warned.warn(
                alloc,
                TextName::Units,
                label.line,
                Warning::UnusedLabel,
                label.name.as_slice(),
                b"",
            )?;
        }
    }
    Ok(())
}

// Warns of a literal that is longer than a message may be.
fn message_warning(
    alloc: Global,
    generation: &Generation,
    line: u32,
    action: &Action,
    warned: &mut Warnings,
) -> Result<(), OutOfMemory> {
    let Some(message) = message_of(action) else {
        return Ok(());
    };
    let most = generation.max().nb;
    if message.len() <= most as usize {
        return Ok(());
    }
    let numbers = format!(in alloc; "{} NB={most}", message.len())?;
    warned.warn(
        alloc,
        TextName::Units,
        line,
        Warning::LongMessage,
        numbers.as_bytes(),
        b"",
    )
}

// Warns of what a statement at this line names.
fn name_warnings(
    alloc: Global,
    generation: &Generation,
    said: &[Statement],
    line: u32,
    action: &Action,
    warned: &mut Warnings,
) -> Result<(), OutOfMemory> {
    if let Some(target) = target_of(action) {
        if !takes_jobs(generation, target) {
            let near = near_name(said, Wanted::Target, target);
            warned.warn(
                alloc,
                TextName::Units,
                line,
                Warning::NoTarget,
                target,
                near,
            )?;
        }
    }
    if let Some(block) = undeclared(generation, action) {
        let near = near_name(said, wanted_block(action), block);
        warned.warn(alloc, TextName::Units, line, Warning::NoBlock, block, near)?;
    }
    message_warning(alloc, generation, line, action, warned)
}

// Warns of statements that are never reached, the first of several.
fn reach_warnings(
    alloc: Global,
    unit: &Unit,
    walk: &Walk,
    warned: &mut Warnings,
) -> Result<(), OutOfMemory> {
    let mut place: u32 = 1;
    let mut was_reached = true;
    for statement in unit.statements() {
        let is_reached = walk.comes(place);
        if was_reached && !is_reached {
            warned.warn(
                alloc,
                TextName::Units,
                statement.line,
                Warning::NeverReached,
                b"",
                b"",
            )?;
        }
        was_reached = is_reached;
        place = place.saturating_add(1);
    }
    end_warning(alloc, unit, walk, place, warned)
}

// Warns of a run that comes to the place behind the last statement.
fn end_warning(
    alloc: Global,
    unit: &Unit,
    walk: &Walk,
    end: u32,
    warned: &mut Warnings,
) -> Result<(), OutOfMemory> {
    if !walk.comes(end) {
        return Ok(());
    }
    let line = match unit.statements().last() {
        Some(last) => last.line,
        None => unit.line(),
    };
    warned.warn(
        alloc,
        TextName::Units,
        line,
        Warning::RunsPastEnd,
        unit.name().as_slice(),
        b"",
    )
}

// Warns of a unit that no PROGRAM statement names.
fn use_warning(
    alloc: Global,
    generation: &Generation,
    unit: &Unit,
    warned: &mut Warnings,
) -> Result<(), OutOfMemory> {
    if generation.programs().contains_key(unit.name()) {
        return Ok(());
    }
    warned.warn(
        alloc,
        TextName::Units,
        unit.line(),
        Warning::UnusedUnit,
        unit.name().as_slice(),
        b"",
    )
}

// Warns of what a statement at this place does where runs come to it.
fn reached_warnings(
    alloc: Global,
    generation: &Generation,
    unit: &Unit,
    role: Role,
    walk: &Walk,
    warned: &mut Warnings,
) -> Result<(), OutOfMemory> {
    let mut place: u32 = 1;
    for statement in unit.statements() {
        if walk.comes(place) {
            let line = statement.line;
            service_warnings(alloc, generation, role, line, &statement.action, warned)?;
            comparison_warning(alloc, unit, place, line, &statement.action, warned)?;
        }
        place = place.saturating_add(1);
    }
    Ok(())
}

// Warns of where these runs of a unit go, and what they do there.
fn walk_warnings(
    alloc: Global,
    generation: &Generation,
    unit: &Unit,
    role: Role,
    walk: &Walk,
    warned: &mut Warnings,
) -> Result<(), OutOfMemory> {
    reach_warnings(alloc, unit, walk, warned)?;
    held_warnings(alloc, generation, unit, walk, warned)?;
    reached_warnings(alloc, generation, unit, role, walk, warned)?;
    message_warnings(alloc, unit, role, warned)?;
    unlock_warnings(alloc, unit, role, warned)
}

// Warns of where runs of a unit go, and what they do there.
fn flow_warnings(
    alloc: Global,
    generation: &Generation,
    unit: &Unit,
    role: Role,
    warned: &mut Warnings,
) -> Result<(), OutOfMemory> {
    let walk = Walk::whole(alloc, unit)?;
    walk_warnings(alloc, generation, unit, role, &walk, warned)
}

fn warnings_of(
    alloc: Global,
    generation: &Generation,
    unit: &Unit,
    role: Role,
    said: &[Statement],
    labels: &[Label],
    warned: &mut Warnings,
) -> Result<(), OutOfMemory> {
    use_warning(alloc, generation, unit, warned)?;
    field_warnings(alloc, unit, warned)?;
    label_warnings(alloc, unit, labels, warned)?;
    for statement in unit.statements() {
        name_warnings(
            alloc,
            generation,
            said,
            statement.line,
            &statement.action,
            warned,
        )?;
    }
    flow_warnings(alloc, generation, unit, role, warned)
}

/// Warns of what the units of an accepted application do, whose definition says this.
pub(crate) fn unit_warnings(
    alloc: Global,
    generation: &Generation,
    said: &[Statement],
    units: &Units,
    text: &[u8],
    warned: &mut Warnings,
) -> Result<(), OutOfMemory> {
    let labels = labels_of(alloc, text)?;
    let mut continued = Continued::none(alloc);
    continued.add_all(units)?;
    for unit in units.all() {
        let role = role_of(generation, &continued, unit);
        warnings_of(alloc, generation, unit, role, said, &labels, warned)?;
    }
    unmatched_warnings(alloc, generation, units, warned)
}
