//! TICK.
ghost use Rattle.std.specs.Prelude.{◌≡◌, ◌≤◌, ◌+◌, IfOk, OnOk, SomeIff};
ghost use Rattle.kd_base.specs.Limits.{last_clock};
ghost use Rattle.abstract_monitor.specs.Commands.{ticked};
ghost use Rattle.service_ends.specs.{Whole.{app_of, IsWhole}, Standing.{IsIndexed, SameApplication, state_of}};
ghost use Rattle.monitor_core.specs.Commanding.{Comes};

use crate::message::{line_alone, line_behind};
use kd_base::{LAST_CLOCK, OutOfMemory};
use kdcs_types::{Acts, Changes, RowChanges};
use monitor_parts::output_lines::{tick_line, tick_refused_line};
use service_ends::core_state::MonitorParts;
use std::alloc::Global;

// The clock that many ticks later, where there is one.
fn later(clock: u64, ticks: u64) -> Option<u64>
    ensures { SomeIff result (clock + ticks ≤ last_clock) (clock + ticks) }
{
    match clock.checked_add(ticks) {
        Some(sum) if sum <= LAST_CLOCK => Some(sum),
        _ => None,
    }
}

/// So many ticks are added to the clock, in one commit; a clock past the greatest one is refused, without a commit.
pub(crate) fn tick(parts: &mut MonitorParts, alloc: Global, ticks: u64) -> Result<Acts, OutOfMemory>
    requires whole { IsWhole parts.old }
    ensures exact { IfOk result (λ acts. Comes (state_of parts.new) acts (ticked (app_of parts.old) (state_of parts.old) ticks)) }
    ensures indexed { OnOk result (IsIndexed parts.new) }
    ensures same { OnOk result (SameApplication parts.old parts.new) }
{
    let Some(clock) = later(parts.tables.clock(), ticks) else {
        return line_alone(alloc, tick_refused_line(alloc)?);
    };
    let changes = Changes {
        clock,
        next_job: parts.tables.next_job(),
        items: RowChanges::new(alloc),
    };
    parts.change(&changes)?;
    line_behind(alloc, changes, tick_line(alloc, clock)?)
}
