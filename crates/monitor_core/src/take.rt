//! A free task takes work.
ghost use Rattle.std.specs.Prelude.{◌≡◌, ◌-◌, Some, None, IfOk, OnOk, slice_get};
ghost use Rattle.kdcs_types.specs.Tables.{job_of};
ghost use Rattle.abstract_monitor.specs.{Picks.{pick}, Turns.{took}};
ghost use Rattle.service_ends.specs.Schedule.{IsTask};
ghost use Rattle.service_ends.specs.Ending.{turned_to};
ghost use Rattle.service_ends.specs.{Standing.{IsIndexed, SameApplication, state_of}, Whole.{IsWhole, app_of}};
ghost use Rattle.monitor_core.specs.Turning.{BegunBy};

use abstract_monitor::Work;
use kd_base::OutOfMemory;
use kdcs_types::{Header, Parts, ServiceId, Target};
use open_transaction::OpenTransaction;
use service_ends::Turned;
use service_ends::core_state::MonitorParts;
use std::alloc::Global;

// The service of a job begins, in the task that took it.
fn begin_job(parts: &mut MonitorParts, alloc: Global, number: u64) -> Result<(), OutOfMemory>
    ensures { OnOk result (BegunBy parts.old parts.new number (job_of parts.old.tables number)) }
{
    let Some(job) = parts.tables.job(number) else {
        return Ok(());
    };
    let Target::Tac(tac) = job.to else {
        return Ok(());
    };
    let header = Header {
        benid: job.user,
        logter: job.lterm,
        tacvg: tac,
        tacal: tac,
    };
    let mut handed = Parts::new(alloc);
    handed.push(job.message.clone()?)?;
    let id = ServiceId::Asynchronous(number);
    let transaction = OpenTransaction::begin(
        alloc,
        &parts.generation,
        id,
        None,
        header,
        handed,
        false,
    )?;
    parts
        .active
        .put(ServiceId::Asynchronous(number), transaction)?;
    parts.jobs.take(number);
    Ok(())
}

/// A free task takes the first allowed service of the ready list, else the due job of an allowed TAC, whose service
/// begins; the job stays in the tables, marked as taken.
pub(crate) fn take(
    parts: &mut MonitorParts,
    alloc: Global,
    task: u16,
) -> Result<Turned, OutOfMemory>
    requires whole { IsWhole parts.old }
    requires task { IsTask task parts.old.scheduler }
    requires free { slice_get (state_of parts.old).tasks (task - 1) ≡ Some None }
    ensures exact { IfOk result (λ did. turned_to (state_of parts.new) did ≡ took (app_of parts.old) (state_of parts.old) task (pick (app_of parts.old) (state_of parts.old))) }
    ensures indexed { OnOk result (IsIndexed parts.new) }
    ensures same { OnOk result (SameApplication parts.old parts.new) }
{
    let clock = parts.tables.clock();
    match parts
        .scheduler
        .pick(&parts.generation, task, &parts.jobs, clock)
    {
        None => Ok(Turned::quiet(alloc, false)),
        Some(Work::Service(_)) => Ok(Turned::quiet(alloc, true)),
        Some(Work::Job(number)) => {
            begin_job(parts, alloc, number)?;
            Ok(Turned::quiet(alloc, true))
        }
    }
}
