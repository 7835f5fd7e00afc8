//! What `LOCKS`, `TASKS` and `JOBS` print of a monitor.
ghost use Rattle.laws_of_states.specs.Keeping.{HasFacts};

use crate::held_by;
use crate::lab_printing::phrases::{put_area, put_number, put_service};
use kd_base::{Bytes, OutOfMemory};
use kdcs_types::{Job, ServiceId, Target};
use monitor_core::Core;
use open_transaction::OpenTransaction;
use service_ends::core_state::MonitorParts;
use std::alloc::Global;

// The areas that a service holds, in the order in which it asked for them.
fn put_held(
    alloc: Global,
    out: &mut Bytes,
    id: &ServiceId,
    transaction: &OpenTransaction,
) -> Result<(), OutOfMemory> {
    for area in transaction.touched.as_slice() {
        put_service(alloc, out, id)?;
        out.append(b" HOLDS ")?;
        put_area(alloc, out, area)?;
        out.push(b'\n')?;
    }
    Ok(())
}

// The area for which a service waits, and since when.
fn put_wait(
    alloc: Global,
    out: &mut Bytes,
    parts: &MonitorParts,
    id: &ServiceId,
) -> Result<(), OutOfMemory> {
    let Some((area, since)) = parts.locks.wait_of(*id) else {
        return Ok(());
    };
    put_service(alloc, out, id)?;
    out.append(b" WAITS FOR ")?;
    put_area(alloc, out, area)?;
    if let Some(holder) = parts.locks.holder(area) {
        out.append(b" OF ")?;
        put_service(alloc, out, &holder)?;
    }
    out.append(b" SINCE ")?;
    put_number(alloc, out, *since)?;
    out.push(b'\n')
}

/// Who holds which area, and who waits for which.
pub fn lock_lines(alloc: Global, core: &Core) -> Result<Bytes, OutOfMemory> {
    let parts = core.parts();
    let mut out = Bytes::new(alloc);
    for (id, transaction) in parts.active.iter() {
        put_held(alloc, &mut out, id, transaction)?;
        put_wait(alloc, &mut out, parts, id)?;
    }
    Ok(out)
}

// Where a service is: its TAC and its next statement.
fn put_place(
    alloc: Global,
    out: &mut Bytes,
    parts: &MonitorParts,
    id: &ServiceId,
) -> Result<(), OutOfMemory> {
    put_service(alloc, out, id)?;
    if let Some(transaction) = parts.active.get(id) {
        out.push(b' ')?;
        out.append(transaction.current.as_slice())?;
        out.append(b" AT ")?;
        put_number(alloc, out, u64::from(transaction.run.place))?;
    }
    Ok(())
}

fn is_it(held: Option<ServiceId>, id: &ServiceId) -> bool {
    match held {
        Some(held) => held == *id,
        None => false,
    }
}

fn is_in_a_task(core: &Core, id: &ServiceId) -> bool
    requires { HasFacts core.now.application core.now.state }
{
    for task in 1..=core.tasks() {
        if is_it(held_by(core, task), id) {
            return true;
        }
    }
    false
}

// The services with an open transaction that are in no task: ready, or at a PEND KP.
fn put_others(alloc: Global, out: &mut Bytes, core: &Core) -> Result<(), OutOfMemory>
    requires { HasFacts core.now.application core.now.state }
{
    let parts = core.parts();
    for (id, _) in parts.active.iter() {
        if is_in_a_task(core, id) {
            continue;
        }
        let word: &[u8] = if parts.scheduler.is_running(*id) {
            b"READY "
        } else {
            b"AWAITS "
        };
        out.append(word)?;
        put_place(alloc, out, parts, id)?;
        out.push(b'\n')?;
    }
    Ok(())
}

/// What each task does, and the services that are in none.
pub fn task_lines(alloc: Global, core: &Core) -> Result<Bytes, OutOfMemory>
    requires { HasFacts core.now.application core.now.state }
{
    let mut out = Bytes::new(alloc);
    for task in 1..=core.tasks() {
        out.append(b"TASK ")?;
        put_number(alloc, &mut out, u64::from(task))?;
        match held_by(core, task) {
            Some(id) => {
                out.push(b' ')?;
                put_place(alloc, &mut out, core.parts(), &id)?;
            }
            None => out.append(b" FREE")?,
        }
        out.push(b'\n')?;
    }
    put_others(alloc, &mut out, core)?;
    Ok(out)
}

fn put_job(
    alloc: Global,
    out: &mut Bytes,
    parts: &MonitorParts,
    job: &Job,
) -> Result<(), OutOfMemory> {
    out.append(b"JOB ")?;
    put_number(alloc, out, job.number)?;
    let name = match &job.value.to {
        Target::Tac(tac) => {
            out.append(b" T ")?;
            tac
        }
        Target::Lterm(lterm) => {
            out.append(b" L ")?;
            lterm
        }
    };
    out.append(name.as_slice())?;
    out.append(b" DUE ")?;
    put_number(alloc, out, job.value.due)?;
    let taken = parts
        .active
        .contains_key(&ServiceId::Asynchronous(job.number));
    out.append(if taken { b" TAKEN\n" } else { b" FREE\n" })
}

/// The jobs, and which of them open services have taken.
pub fn job_lines(alloc: Global, core: &Core) -> Result<Bytes, OutOfMemory> {
    let mut out = Bytes::new(alloc);
    for job in core.parts().tables.jobs() {
        put_job(alloc, &mut out, core.parts(), job)?;
    }
    Ok(out)
}
