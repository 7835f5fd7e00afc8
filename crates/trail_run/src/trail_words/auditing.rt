//! The audit of a whole trail.
ghost use Rattle.std.specs.Prelude.{IfOk};
ghost use Rattle.audit_trail.specs.Facts.{IsTrail};
ghost use Rattle.laws_of_runs.specs.Applied.{applied};
ghost use Rattle.laws_of_states.specs.Suits.{Suits};
ghost use Rattle.trail_run.specs.Auditing.{IsJudged};
ghost use Rattle.application_types.specs.Fitted.{IsFit};

use crate::trail_words::verdict::Verdict;
use application_types::generation::Generation;
use application_types::units::Units;
use audit_trail::Trail;
use kd_base::OutOfMemory;
use serial_audit::{Audited, audit_entry};
use std::alloc::Global;

/// Replays the entries of a trail, one after another, from the tables at its start.
pub fn audit_trail(
    alloc: Global,
    generation: &Generation,
    units: &Units,
    trail: Trail,
) -> Result<Verdict, OutOfMemory>
    requires fit { IsFit generation.now units.now }
    requires trail { IsTrail trail }
    requires suits { Suits generation.now trail.start }
    ensures { IfOk result (IsJudged (applied generation.now units.now) trail) }
{
    let mut tables = trail.start;
    let mut held: u64 = 0;
    for entry in trail.entries.as_slice() {
        match audit_entry(alloc, generation, units, tables, entry)? {
            Audited::Holds(after) => tables = after,
            Audited::Differs(_) => return Ok(Verdict::Differs(held + 1)),
        }
        held += 1;
    }
    Ok(Verdict::Holds(held))
}
