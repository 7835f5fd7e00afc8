//! A service that waits for an input, or for a task.
ghost use Rattle.std.specs.{Prelude.{◌≡◌, ◌++◌, ◌∷◌, [], IsSome, Some, None, IfOk, OnOk}, FinMap.{find}};
ghost use Rattle.kdcs_types.specs.Keys.{id_cmp};
ghost use Rattle.abstract_monitor.specs.{State.{OpenTransaction as Transaction}, Turns.{message_acts, message_sent, moved_to, with_task}};
ghost use Rattle.service_ends.specs.Schedule.{IsTask};
ghost use Rattle.service_ends.specs.Ending.{held_to, turned_to, ForOpen};
ghost use Rattle.service_ends.specs.Standing.{IsIndexed, SameApplication, state_of};

use crate::core_state::MonitorParts;
use crate::terminal::tell;
use crate::turned::Turned;
use kd_base::OutOfMemory;
use kdcs_types::{Acts, ServiceId};
use std::alloc::Global;

// The message of a dialogue service is sent.
fn send_message(
    parts: &mut MonitorParts,
    alloc: Global,
    id: &ServiceId,
    acts: &mut Acts,
) -> Result<(), OutOfMemory>
    requires indexed { IsIndexed parts.old }
    ensures indexed { OnOk result (IsIndexed parts.new) }
    ensures same { OnOk result (SameApplication parts.old parts.new) }
    ensures state { OnOk result ((x : Transaction) → find id_cmp id.now (state_of parts.old).active ≡ Some x → state_of parts.new ≡ message_sent (state_of parts.old) id.now x) }
    ensures acts { OnOk result ((x : Transaction) → find id_cmp id.now (state_of parts.old).active ≡ Some x → acts.new ≡ acts.old ++ message_acts (state_of parts.old) id.now x) }
{
    let ServiceId::Dialogue(user) = id else {
        return Ok(());
    };
    match parts.active.get(id) {
        Some(transaction) => {
            let message = transaction.message(alloc)?;
            tell(parts, alloc, user, message, acts)
        }
        None => Ok(()),
    }
}

/// PEND KP: the task is free, and the message of a dialogue service is sent. Its transaction stays as it is.
pub fn hold(
    parts: &mut MonitorParts,
    alloc: Global,
    task: u16,
    id: &ServiceId,
) -> Result<Turned, OutOfMemory>
    requires indexed { IsIndexed parts.old }
    requires task { IsTask task parts.old.scheduler }
    ensures exact { IfOk result (λ did. ForOpen (state_of parts.old) id.now (λ x. turned_to (state_of parts.new) did ≡ held_to (state_of parts.old) task id.now x)) }
    ensures indexed { OnOk result (IsIndexed parts.new) }
    ensures same { OnOk result (SameApplication parts.old parts.new) }
{
    parts.free_task(task);
    let mut acts = Acts::new(alloc);
    send_message(parts, alloc, id, &mut acts)?;
    Ok(Turned {
        moved: true,
        acts,
        settled: None,
    })
}

/// PEND PA: the task is free, and the service is at the back of the ready list.
pub fn queue(
    parts: &mut MonitorParts,
    alloc: Global,
    task: u16,
    id: &ServiceId,
) -> Result<Turned, OutOfMemory>
    requires indexed { IsIndexed parts.old }
    requires task { IsTask task parts.old.scheduler }
    requires is_open { IsSome (find id_cmp id.now (state_of parts.old).active) }
    ensures exact { IfOk result (λ did. turned_to (state_of parts.new) did ≡ moved_to (record (with_task (state_of parts.old) task None) { ready = (state_of parts.old).ready ++ id.now ∷ [] }) []) }
    ensures indexed { OnOk result (IsIndexed parts.new) }
    ensures same { OnOk result (SameApplication parts.old parts.new) }
{
    parts.free_task(task);
    parts.make_ready(id)?;
    Ok(Turned::quiet(alloc, true))
}
