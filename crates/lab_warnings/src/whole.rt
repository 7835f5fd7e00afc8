//! All warnings of texts.

use crate::generation_warnings::generation_warnings;
use crate::operands::operand_warnings;
use crate::pool::pool_warning;
use crate::said::{Definition, statements_of};
use crate::units::unit_warnings;
use crate::warned::{Warned, Warnings};
use application_read::{Application, ApplicationFault, DefinitionFault, generate};
use application_types::generation::Generation;
use application_types::units::Units;
use kd_base::OutOfMemory;
use lab_check::Verdict;
use std::alloc::Global;

// Warns of the statements of an accepted definition, and with the units where they fit.
fn definition_warnings(
    alloc: Global,
    definition: &Definition,
    generation: &Generation,
    units: Option<&Units>,
    warned: &mut Warnings,
) -> Result<(), OutOfMemory> {
    let said = definition.said.as_slice();
    operand_warnings(alloc, &definition.raw, warned)?;
    generation_warnings(alloc, generation, units, said, warned)?;
    match units {
        Some(units) => pool_warning(alloc, generation, units, said, warned),
        None => Ok(()),
    }
}

// Warns of texts that make an application.
fn application_warnings(
    alloc: Global,
    definition: &[u8],
    units: &[u8],
    application: &Application,
    warned: &mut Warnings,
) -> Result<(), OutOfMemory> {
    let Some(definition) = statements_of(alloc, definition)? else {
        return Ok(());
    };
    let generation = &application.generation;
    let all = &application.units;
    definition_warnings(alloc, &definition, generation, Some(all), warned)?;
    let said = definition.said.as_slice();
    unit_warnings(alloc, generation, said, all, units, warned)
}

// Warns of a definition that generates this, where the units are refused.
fn accepted_warnings(
    alloc: Global,
    text: &[u8],
    generation: &Generation,
    warned: &mut Warnings,
) -> Result<(), OutOfMemory> {
    match statements_of(alloc, text)? {
        Some(definition) => definition_warnings(alloc, &definition, generation, None, warned),
        None => Ok(()),
    }
}

// Warns of a definition that is accepted, where the units are refused.
fn lone_warnings(alloc: Global, text: &[u8], warned: &mut Warnings) -> Result<(), OutOfMemory> {
    match generate(alloc, text) {
        Ok(generation) => accepted_warnings(alloc, text, &generation, warned),
        Err(DefinitionFault::Memory) => Err(OutOfMemory),
        Err(_) => Ok(()),
    }
}

/// What is accepted in texts that are taken for this and likely wrong: what restricts access first, the others in the order
/// of text and line. A definition that is refused is warned of nothing.
pub fn warnings(
    alloc: Global,
    definition: &[u8],
    units: &[u8],
    verdict: &Verdict,
) -> Result<Vec<Warned>, OutOfMemory> {
    let mut warned = Warnings::new(alloc);
    match verdict {
        Verdict::Accepted(application) => {
            application_warnings(alloc, definition, units, application, &mut warned)?;
        }
        Verdict::Refused(ApplicationFault::Definition(_) | ApplicationFault::Memory) => {}
        Verdict::Refused(ApplicationFault::Units(_) | ApplicationFault::Fit(_)) => {
            lone_warnings(alloc, definition, &mut warned)?;
        }
    }
    warned.sort()?;
    Ok(warned.items)
}
