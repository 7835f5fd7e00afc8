//! The audit of one entry.
ghost use Rattle.std.specs.Prelude.{◌≡◌, IfOk, Some};
ghost use Rattle.kdcs_types.specs.Tables.{AreChanges, IsSortedTables, TableRows, changed};
ghost use Rattle.laws_of_states.specs.Suits.{Suits};
ghost use Rattle.laws_of_runs.specs.Applied.{applied};
ghost use Rattle.application_types.specs.Fitted.{IsFit};
ghost use Rattle.serial_audit.specs.{Answers.{IfDiffers, IfHolds}, Audit.{HasTrailRecord, HoldsFor}};

use crate::expected::expected_changes;
use crate::same::same_changes;
use application_types::generation::Generation;
use application_types::units::Units;
use audit_trail::TrailEntry;
use kd_base::OutOfMemory;
use kdcs_types::{Changes, Tables};
use std::alloc::Global;

/// Whether an entry holds.
#[derive(Drop)]
pub enum Audited {
    /// It holds, and these are the tables after it.
    Holds(Tables),
    /// It does not, and these are the tables before it.
    Differs(Tables),
}

// The changes are made where they are those expected.
fn confirm(
    mut tables: Tables,
    expected: Option<Changes>,
    changes: &Changes,
) -> Result<Audited, OutOfMemory>
    requires { AreChanges changes.now.items }
    ensures holds { IfOk result (λ audited. IfHolds audited (λ after. (expected ≡ Some changes.now) × (after ≡ changed tables changes.now))) }
    ensures differs { IfOk result (λ audited. IfDiffers audited (λ before. (before ≡ tables) × (expected ≡ Some changes.now → ⊥))) }
{
    let agrees = match &expected {
        Some(expected) => same_changes(expected, changes),
        None => false,
    };
    if !agrees {
        return Ok(Audited::Differs(tables));
    }
    tables.change(changes)?;
    Ok(Audited::Holds(tables))
}

/// Checks one entry of a trail against the durable tables before it, by replaying what made the commit alone. The units
/// were fitted to the generation, the tables suit it, the changes are as `Tables::change` wants them, and a record has
/// at most 10^12 statements, and no note of another code than K04 and K05.
pub fn audit_entry(
    alloc: Global,
    generation: &Generation,
    units: &Units,
    tables: Tables,
    entry: &TrailEntry,
) -> Result<Audited, OutOfMemory>
    requires fit { IsFit generation.now units.now }
    requires suits { Suits generation.now tables }
    requires changes { AreChanges entry.now.changes.items }
    requires kept { HasTrailRecord entry.now.by }
    ensures holds { IfOk result (λ audited. IfHolds audited (HoldsFor (applied generation.now units.now) tables entry.now)) }
    ensures suits { IfOk result (λ audited. IfHolds audited (Suits generation.now)) }
    ensures sorted { IfOk result (λ audited. IfHolds audited IsSortedTables) }
    ensures same { IfOk result (λ audited. IfDiffers audited (λ before. before ≡ tables)) }
    ensures differs { IfOk result (λ audited. IfDiffers audited (λ before. (after : TableRows) → HoldsFor (applied generation.now units.now) tables entry.now after → ⊥)) }
{
    let mut tables = tables;
    let _clock = tables.clock(); // for the proof
    let expected = expected_changes(alloc, generation, units, &mut tables, &entry.by)?;
    confirm(tables, expected, &entry.changes)
}
