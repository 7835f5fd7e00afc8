//! One turn of a task.
ghost use Rattle.std.specs.{Prelude.{◌≡◌, ◌+◌, ◌<◌, ◌≤◌, ◌^◌, IfOk, OnOk}, FinMap.{find}};
ghost use Rattle.application_types.specs.Statements.{IsWithin};
ghost use Rattle.kdcs_types.specs.Keys.{id_cmp};
ghost use Rattle.abstract_monitor.specs.Turns.{turn_of, served};
ghost use Rattle.service_ends.specs.Ending.{turned_to};
ghost use Rattle.service_ends.specs.{Standing.{IsIndexed, state_of}, Whole.{IsWhole, app_of}};
ghost use Rattle.monitor_core.specs.{CoreSteps.{AreFree}, Turning.{IsHeldBy}};

use crate::statement::next_statement;
use crate::take::take;
use abstract_monitor::Happened;
use kd_base::OutOfMemory;
use kdcs_types::ServiceId;
use laws_of_states::laws_of_places::states_stay_consistent;
use laws_of_states::laws_of_tables::states_stay_sound;
use service_ends::core_state::MonitorParts;
use service_ends::{Turned, end, go_back, hold, pass_point, queue};
use std::alloc::Global;

// The statement of the service in this task, and what follows it.
fn serve(
    parts: &mut MonitorParts,
    alloc: Global,
    task: u16,
    id: &ServiceId,
) -> Result<Turned, OutOfMemory>
    requires whole { IsWhole parts.old }
    requires task { IsWithin 1 parts.old.generation.limits.tasks task }
    requires held { IsHeldBy (state_of parts.old) task id.now }
    requires steps { parts.old.steps + 1 < 2 ^ 64 }
    ensures exact { IfOk result (λ did. turned_to (state_of parts.new) did ≡ served (app_of parts.old) (state_of parts.old) task id.now (find id_cmp id.now (state_of parts.old).active)) }
    ensures indexed { OnOk result (IsIndexed parts.new) }
    ensures generation { OnOk result (parts.new.generation ≡ parts.old.generation) }
    ensures units { OnOk result (parts.new.units ≡ parts.old.units) }
    ensures steps { OnOk result (parts.new.steps ≡ parts.old.steps + 1) }
{
    match next_statement(parts, alloc, task, id)? {
        Happened::Went => Ok(Turned::quiet(alloc, true)),
        Happened::Waited => Ok(Turned::quiet(alloc, false)),
        Happened::Queued => queue(parts, alloc, task, id),
        Happened::Held(_) => hold(parts, alloc, task, id),
        Happened::Settles(outcome) => pass_point(parts, alloc, task, id, outcome),
        Happened::Breaks(ending) => end(parts, alloc, task, id, ending),
        Happened::Returns => go_back(parts, alloc, task, id),
    }
}

/// How many tasks are free in a row, from this one on, of at most so many that there are.
pub(crate) fn free_from(parts: &MonitorParts, task: u16, most: u16) -> u16
    requires whole { IsWhole parts.now }
    requires task { 1 ≤ task }
    requires within { task + most ≤ parts.now.generation.limits.tasks + 1 }
    ensures most { result ≤ most }
    ensures free { AreFree (state_of parts.now) task result }
{
    parts.scheduler.free_from(task, most)
}

/// So many turns that move nothing are counted. Fewer than 2^64 turns and commands are done with them.
#[tactic(auto, using(crate::specs::CountedLaws::all_counted))]
pub(crate) fn count(parts: &mut MonitorParts, turns: u16)
    requires whole { IsWhole parts.old }
    requires steps { parts.old.steps + turns < 2 ^ 64 }
    ensures counted { parts.new ≡ record parts.old { steps = parts.old.steps + turns } }
    ensures whole { IsWhole parts.new }
{
    parts.steps += turns as u64;
}

/// One turn of a task, from 1 to TASKS: a free task takes work, another does the next statement of its service, or repeats
/// its request for an area. Fewer than 2^64 - 1 turns and commands were done. When memory runs out, the parts are of no
/// use any more.
pub(crate) fn turn(
    parts: &mut MonitorParts,
    alloc: Global,
    task: u16,
) -> Result<Turned, OutOfMemory>
    requires whole { IsWhole parts.old }
    requires task { IsWithin 1 parts.old.generation.limits.tasks task }
    requires steps { parts.old.steps + 1 < 2 ^ 64 }
    ensures exact { IfOk result (λ did. turned_to (state_of parts.new) did ≡ turn_of (app_of parts.old) (state_of parts.old) task) }
    ensures whole { OnOk result (IsWhole parts.new) }
    ensures generation { OnOk result (parts.new.generation ≡ parts.old.generation) }
    ensures units { OnOk result (parts.new.units ≡ parts.old.units) }
    ensures steps { OnOk result (parts.new.steps ≡ parts.old.steps + 1) }
{
    states_stay_consistent();
    states_stay_sound();
    match parts.scheduler.held_by(task) {
        None => {
            let did = take(parts, alloc, task)?;
            parts.steps += 1;
            Ok(did)
        }
        Some(id) => serve(parts, alloc, task, &id),
    }
}
