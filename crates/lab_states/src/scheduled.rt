//! What is ready, what the tasks hold, and who waits.
ghost use Rattle.std.specs.Prelude.{◌≡◌, IfOk, length, map};
ghost use Rattle.service_ends.specs.{Schedule.{service_in}, Standing.{id_of}};

use kd_base::{OutOfMemory, Sequence};
use kdcs_types::{Area, ServiceId};
use monitor_parts::area_locks::LockTable;
use service_ends::step_scheduler::Scheduler;
use std::alloc::Global;

/// The services of the ready list, front first.
pub(crate) fn ready_in(
    alloc: Global,
    scheduler: &Scheduler,
) -> Result<Sequence<ServiceId>, OutOfMemory>
    ensures { IfOk result (λ ready. ready ≡ map id_of scheduler.now.ready) }
{
    let mut ready = Sequence::new(alloc);
    for (_, entry) in scheduler.waiting() {
        ready.push(entry.0)?;
    }
    Ok(ready)
}

/// The service that each of so many tasks holds, if any.
pub(crate) fn held_in(
    alloc: Global,
    scheduler: &Scheduler,
    tasks: u16,
) -> Result<Sequence<Option<ServiceId>>, OutOfMemory>
    requires { length scheduler.now.places ≡ tasks }
    ensures { IfOk result (λ held. held ≡ map service_in scheduler.now.places) }
{
    let mut held = Sequence::new(alloc);
    for before in 0..tasks {
        held.push(scheduler.held_by(before + 1))?;
    }
    Ok(held)
}

/// The services that wait, each with the area and the clock of its first request.
pub(crate) fn waits_in(
    alloc: Global,
    locks: &LockTable,
) -> Result<Sequence<(ServiceId, (Area, u64))>, OutOfMemory>
    ensures { IfOk result (λ waits. waits ≡ locks.now.waits) }
{
    let mut waits = Sequence::new(alloc);
    for (id, wait) in locks.waits() {
        waits.push((*id, *wait))?;
    }
    Ok(waits)
}
