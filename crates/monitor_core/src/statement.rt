//! The next statement of a service.
ghost use Rattle.std.specs.Prelude.{◌≡◌, ◌+◌, ◌<◌, ◌^◌, IfOk, IfSome, IsTrue, OnOk, is_some};
ghost use Rattle.abstract_monitor.specs.{Picks.{class_of}, Turns.{statement_now}};
ghost use Rattle.service_ends.specs.Schedule.{IsTask, place_of, with_class, with_place};
ghost use Rattle.service_ends.specs.{Standing.{IsIndexed, state_of}, Whole.{IsWhole, app_of}};
ghost use Rattle.service_ends.specs.Ending.{ForOpen};
ghost use Rattle.monitor_core.specs.Turning.{state_by, IsHeldBy};

use abstract_monitor::Happened;
use application_types::generation::Generation;
use kd_base::{Name, OutOfMemory};
use kdcs_calls::service_statement::do_statement;
use kdcs_types::ServiceId;
use service_ends::core_state::MonitorParts;
use service_ends::step_scheduler::{Scheduler, class_of};
use std::alloc::Global;

// The task has the class of the TAC that its service runs now; it has that of the TAC that ran before, which may be the same.
fn keep_class(
    generation: &Generation,
    scheduler: &mut Scheduler,
    task: u16,
    before: Name,
    current: Name,
)
    requires task { IsTask task scheduler.old }
    requires held { IsTrue (is_some (place_of task scheduler.old)) }
    requires class { IfSome (place_of task scheduler.old) (λ e. e.1 ≡ class_of generation.now before) }
    ensures { scheduler.new ≡ with_place task (with_class (class_of generation.now current) (place_of task scheduler.old)) scheduler.old }
{
    if before == current {
        return;
    }
    scheduler.stay(task, class_of(generation, current));
}

/// The next statement of the service of a task, before what follows it: the transaction, its locks and its wait are as the
/// statement leaves them, and the task has the class of the TAC that runs then.
pub(crate) fn next_statement(
    parts: &mut MonitorParts,
    alloc: Global,
    task: u16,
    id: &ServiceId,
) -> Result<Happened, OutOfMemory>
    requires whole { IsWhole parts.old }
    requires task { IsTask task parts.old.scheduler }
    requires held { IsHeldBy (state_of parts.old) task id.now }
    requires steps { parts.old.steps + 1 < 2 ^ 64 }
    ensures exact { IfOk result (λ happened. ForOpen (state_of parts.old) id.now (λ x. happened ≡ (statement_now (app_of parts.old) (state_of parts.old) id.now x).1)) }
    ensures state { IfOk result (λ happened. ForOpen (state_of parts.old) id.now (λ x. state_of parts.new ≡ state_by (app_of parts.old) (state_of parts.old) id.now x happened)) }
    ensures indexed { OnOk result (IsIndexed parts.new) }
    ensures generation { OnOk result (parts.new.generation ≡ parts.old.generation) }
    ensures units { OnOk result (parts.new.units ≡ parts.old.units) }
    ensures steps { OnOk result (parts.new.steps ≡ parts.old.steps + 1) }
{
    parts.steps += 1;
    let Some(transaction) = parts.active.get_mut(id) else {
        unreachable!()
    };
    let before = transaction.current;
    parts.units.run(task, before);
    let happened = do_statement(
        alloc,
        &parts.generation,
        &parts.units,
        &parts.tables,
        &mut parts.locks,
        transaction,
    )?;
    keep_class(
        &parts.generation,
        &mut parts.scheduler,
        task,
        before,
        transaction.current,
    );
    Ok(happened)
}
