//! The trail of a script's run, as a text.
ghost use Rattle.std.specs.Prelude.{◌≡◌, ◌≤◌, ◌++◌, ◌^◌, flat_map, All, IfOk, OnOk, sum_by};
ghost use Rattle.audit_trail.specs.{Printed.{entry_lines}, Written.{AreEntryBytes, HasShortEntry}};
ghost use Rattle.laws_of_runs.specs.Applied.{applied};
ghost use Rattle.trail_run.specs.OwnTrails.{CanBeTrailed, entries_of};
ghost use Rattle.monitor_core.specs.CoreSteps.{turns_of};
ghost use Rattle.trail_run.specs.Trailing.{HasBytes, text_of};
ghost use Rattle.application_types.specs.Fitted.{IsFit};

use crate::laws_of_trails::own_trails_are_written;
use crate::trail_of;
use abstract_monitor::Command;
use application_types::generation::Generation;
use application_types::units::Units;
use audit_trail::{TrailEntries, TrailEntry, end_line, entry_lines, head_lines};
use kd_base::{Bytes, OutOfMemory};
use kdcs_types::Tables;
use monitor_core::Core;
use std::alloc::Global;
use table_fit::suiting_tables_are_short;

// The commits of the run. The core starts from the tables; the durable ones beside it are a copy.
fn entries_of(
    alloc: Global,
    generation: Generation,
    units: Units,
    tables: Tables,
    commands: &[Command],
) -> Result<TrailEntries, OutOfMemory>
    requires fit { IsFit generation units }
    requires can { CanBeTrailed (applied generation units) tables commands.now }
    requires steps { sum_by turns_of commands.now ≤ 10 ^ 18 }
    ensures { IfOk result (λ entries. entries ≡ entries_of (applied generation units) tables commands.now) }
{
    let durable = tables.clone()?;
    let core = Core::start(alloc, generation, units, tables)?;
    trail_of(alloc, core, durable, commands)
}

fn put_entries(out: &mut Bytes, alloc: Global, entries: &[TrailEntry]) -> Result<(), OutOfMemory>
    requires { All HasShortEntry entries.now }
    ensures lines { OnOk result (out.new ≡ out.old ++ flat_map entry_lines entries.now) }
    ensures bytes { OnOk result (All AreEntryBytes entries.now) }
{
    for entry in entries {
        let lines = entry_lines(alloc, entry)?;
        out.append(lines.as_slice())?;
    }
    Ok(())
}

/// The text of the trail of a script's run from these tables, which texts with this fingerprint generate.
pub fn trail_text(
    alloc: Global,
    generation: Generation,
    units: Units,
    tables: Tables,
    fingerprint: &[u8; 32],
    commands: &[Command],
) -> Result<Bytes, OutOfMemory>
    requires fit { IsFit generation units }
    requires can { CanBeTrailed (applied generation units) tables commands.now }
    requires steps { sum_by turns_of commands.now ≤ 10 ^ 18 }
    ensures text { IfOk result (λ text. text ≡ text_of (applied generation units) fingerprint.now tables commands.now) }
    // What was written are bytes.
    ensures bytes { IfOk result (λ _. HasBytes (applied generation units) fingerprint.now tables commands.now) }
{
    own_trails_are_written();
    suiting_tables_are_short();
    let mut text = head_lines(alloc, fingerprint, &tables)?;
    let entries = entries_of(alloc, generation, units, tables, commands)?;
    put_entries(&mut text, alloc, entries.as_slice())?;
    text.append(end_line())?;
    Ok(text)
}
