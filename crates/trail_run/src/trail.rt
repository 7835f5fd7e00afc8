//! A whole script.
ghost use Rattle.std.specs.Prelude.{◌≡◌, ◌≤◌, ◌+◌, ◌^◌, IfOk, sum_by};
ghost use Rattle.abstract_monitor.specs.Trace.{history};
ghost use Rattle.laws_of_states.specs.{Applications.{IsApplication}, Keeping.{IsScriptOf}};
ghost use Rattle.monitor_core.specs.CoreSteps.{durable_of, turns_of};
ghost use Rattle.trail_run.specs.Entries.{entries_in};

use crate::kept::Kept;
use abstract_monitor::Command;
use audit_trail::TrailEntries;
use kd_base::OutOfMemory;
use kdcs_types::Tables;
use monitor_core::Core;
use monitor_core::script_run::run_script;
use std::alloc::Global;

/// The commits of a script in their order, from a core and its durable tables: each with what made it and what it changes.
/// What is open at the end of the script is given up, and commits nothing.
pub fn trail_of(
    alloc: Global,
    core: Core,
    durable: Tables,
    commands: &[Command],
) -> Result<TrailEntries, OutOfMemory>
    requires application { IsApplication core.application }
    requires durable { durable ≡ durable_of core }
    requires names { IsScriptOf core.application commands.now }
    requires steps { core.steps + sum_by turns_of commands.now ≤ 10 ^ 18 }
    ensures { IfOk result (λ entries. entries ≡ entries_in (history core.application core.state commands.now)) }
{
    let mut kept = Kept {
        durable,
        entries: TrailEntries::new(alloc),
    };
    let mut done = 0;
    let _last = run_script(alloc, &mut kept, core, commands, &mut done)?;
    Ok(kept.entries)
}
