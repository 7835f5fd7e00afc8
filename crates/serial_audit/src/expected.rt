//! What each maker is to change.
ghost use Rattle.std.specs.Prelude.{◌≡◌, ◌+◌, ◌≤◌, IfOk, IfNone, IfSome, OnOk};
ghost use Rattle.kd_base.specs.Limits.{last_clock};
ghost use Rattle.laws_of_runs.specs.Applied.{applied};
ghost use Rattle.laws_of_states.specs.CommitLaws.{tick_changes};
ghost use Rattle.laws_of_states.specs.Suits.{Suits};
ghost use Rattle.application_types.specs.Fitted.{IsFit};
ghost use Rattle.serial_audit.specs.{Audit.{HasTrailRecord}, Expecting.{Expects}};

use crate::shows::show_changes;
use crate::transaction::transaction_changes;
use application_types::generation::Generation;
use application_types::units::Units;
use audit_trail::By;
use kd_base::{LAST_CLOCK, OutOfMemory};
use kdcs_types::{Changes, RowChanges, Tables};
use std::alloc::Global;

// What TICK changes, if it stays within the greatest clock.
fn ticked(alloc: Global, tables: &Tables, ticks: u64) -> Option<Changes>
    requires { tables.now.clock ≤ last_clock }
    ensures some { IfSome result (λ changes. (tables.now.clock + ticks ≤ last_clock) × (changes ≡ tick_changes tables.now (tables.now.clock + ticks))) }
    ensures none { IfNone result (tables.now.clock + ticks ≤ last_clock → ⊥) }
{
    if ticks > LAST_CLOCK - tables.clock() {
        return None;
    }
    Some(Changes {
        clock: tables.clock() + ticks,
        next_job: tables.next_job(),
        items: RowChanges::new(alloc),
    })
}

/// What the maker of a commit is to change in durable tables, if it can make one. The tables are the same then, but
/// where memory runs out.
pub(crate) fn expected_changes(
    alloc: Global,
    generation: &Generation,
    units: &Units,
    tables: &mut Tables,
    by: &By,
) -> Result<Option<Changes>, OutOfMemory>
    requires fit { IsFit generation.now units.now }
    requires suits { Suits generation.now tables.old }
    requires kept { HasTrailRecord by.now }
    ensures expected { IfOk result (Expects (applied generation.now units.now) tables.old by.now) }
    ensures same { OnOk result (tables.new ≡ tables.old) }
{
    let _clock = tables.clock(); // for the proof
    match by {
        By::Tick(ticks) => Ok(ticked(alloc, tables, *ticks)),
        By::Shown(lterm) => show_changes(alloc, tables, *lterm),
        By::Transaction(record) => transaction_changes(alloc, generation, units, tables, record),
    }
}
