//! A warm or cold start.
ghost use Rattle.std.specs.Prelude.{◌≡◌, ◌++◌, ◌∷◌, [], IfOk, OnOk, filter, map};
ghost use Rattle.open_transaction.specs.Queue.{untaken};
ghost use Rattle.service_ends.specs.Schedule.{all_free};
ghost use Rattle.abstract_monitor.specs.{Commands.{asynchronous_rows, started}, Endings.{is_asynchronous}};
ghost use Rattle.laws_of_states.specs.Suits.{Suits};
ghost use Rattle.service_ends.specs.{Standing.{IsIndexed, SameApplication, state_of}, Whole.{app_of}};
ghost use Rattle.monitor_core.specs.Starting.{AreFresh, IsFresh, all_opened, idle, opened_then};

use application_types::generation::Generation;
use application_types::units::Units;
use kd_base::OutOfMemory;
use kd_base::sorted_pairs::OrderedMap;
use kdcs_types::{Service, ServiceId, Tables};
use monitor_parts::area_locks::LockTable;
use monitor_parts::session_table::Sessions;
use monitor_parts::task_units::TaskUnits;
use open_transaction::async_queue::Jobs;
use service_ends::core_state::MonitorParts;
use service_ends::go_on;
use service_ends::step_scheduler::Scheduler;
use std::alloc::Global;
use table_fit::total_charge;

// The ready list with all tasks free, and the jobs of the tables, of which none is taken.
fn queues(
    alloc: Global,
    generation: &Generation,
    tables: &Tables,
) -> Result<(Scheduler, Jobs), OutOfMemory>
    ensures scheduler { IfOk result (λ made. made.0 ≡ all_free generation.now.limits.tasks) }
    ensures jobs { IfOk result (λ made. made.1 ≡ map untaken tables.now.jobs) }
{
    let scheduler = Scheduler::new(alloc, generation.max().tasks)?;
    let jobs = Jobs::from_tables(alloc, tables)?;
    Ok((scheduler, jobs))
}

// Nobody is signed on, all tasks are free, and no service is open.
fn idle(
    alloc: Global,
    generation: Generation,
    units: TaskUnits,
    tables: Tables,
    scheduler: Scheduler,
    jobs: Jobs,
) -> MonitorParts
    requires suits { Suits generation tables }
    requires scheduler { scheduler ≡ all_free generation.limits.tasks }
    requires jobs { jobs ≡ map untaken tables.jobs }
    ensures state { state_of result ≡ idle generation tables }
    ensures indexed { IsIndexed result }
    ensures generation { result.generation ≡ generation }
    ensures units { result.units ≡ units }
    ensures steps { result.steps ≡ 0 }
{
    let charge = total_charge(&tables, generation.max().blksize);
    MonitorParts {
        generation,
        units,
        steps: 0,
        tables,
        charge,
        sessions: Sessions::new(alloc),
        scheduler,
        active: OrderedMap::new(alloc),
        locks: LockTable::new(alloc),
        jobs,
    }
}

fn is_asynchronous(row: &Service) -> bool
    ensures { result ≡ is_asynchronous row.now.id }
{
    matches!(row.id, ServiceId::Asynchronous(_))
}

// An asynchronous service is kept.
fn keep_asynchronous(found: &mut Vec<Service>, row: &Service) -> Result<(), OutOfMemory>
    ensures { OnOk result (found.new.items ≡ found.old.items ++ filter (λ s. is_asynchronous s.id) (row.now ∷ [])) }
{
    if is_asynchronous(row) {
        found.push(row.clone()?)?;
    }
    Ok(())
}

// The asynchronous services of the tables, in the order of their numbers.
fn asynchronous_rows(alloc: Global, rows: &[Service]) -> Result<Vec<Service>, OutOfMemory>
    ensures { IfOk result (λ found. found.items ≡ filter (λ s. is_asynchronous s.id) rows.now) }
{
    let mut found = Vec::new(alloc);
    for row in rows {
        keep_asynchronous(&mut found, row)?;
    }
    Ok(found)
}

// The service goes on from its row, at the LTERM of its job.
fn open_row(parts: &mut MonitorParts, alloc: Global, row: Service) -> Result<(), OutOfMemory>
    requires indexed { IsIndexed parts.old }
    requires fresh { IsFresh (state_of parts.old) row }
    ensures indexed { OnOk result (IsIndexed parts.new) }
    ensures same { OnOk result (SameApplication parts.old parts.new) }
    ensures state { OnOk result (state_of parts.new ≡ opened_then (app_of parts.old) (state_of parts.old) row) }
{
    let id = row.id;
    let Some(lterm) = row.lterm else {
        return Ok(());
    };
    go_on(parts, alloc, &id, row, &lterm)
}

fn open_all(parts: &mut MonitorParts, alloc: Global, rows: Vec<Service>) -> Result<(), OutOfMemory>
    requires indexed { IsIndexed parts.old }
    requires fresh { AreFresh (state_of parts.old) rows.items }
    ensures indexed { OnOk result (IsIndexed parts.new) }
    ensures same { OnOk result (SameApplication parts.old parts.new) }
    ensures state { OnOk result (state_of parts.new ≡ all_opened (app_of parts.old) (state_of parts.old) rows.items) }
{
    for row in rows {
        open_row(parts, alloc, row)?;
    }
    Ok(())
}

// Each asynchronous service of the tables goes on, in the order of the numbers.
fn open_services(parts: &mut MonitorParts, alloc: Global) -> Result<(), OutOfMemory>
    requires indexed { IsIndexed parts.old }
    requires fresh { AreFresh (state_of parts.old) (asynchronous_rows parts.old.tables) }
    ensures indexed { OnOk result (IsIndexed parts.new) }
    ensures same { OnOk result (SameApplication parts.old parts.new) }
    ensures state { OnOk result (state_of parts.new ≡ all_opened (app_of parts.old) (state_of parts.old) (asynchronous_rows parts.old.tables)) }
{
    let rows = asynchronous_rows(alloc, parts.tables.services())?;
    open_all(parts, alloc, rows)
}

/// The parts of a monitor that starts from these tables, which suit: nobody is signed on, all tasks are free, and each
/// asynchronous service is ready, in the order of the numbers. No turn and no command was done. It goes over all rows.
pub(crate) fn parts_of(
    alloc: Global,
    generation: Generation,
    units: Units,
    tables: Tables,
) -> Result<Box<MonitorParts>, OutOfMemory>
    requires suits { Suits generation tables }
    ensures state { IfOk result (λ parts. state_of parts.value ≡ started (app_of parts.value) tables) }
    ensures indexed { IfOk result (λ parts. IsIndexed parts.value) }
    ensures generation { IfOk result (λ parts. parts.value.generation ≡ generation) }
    ensures units { IfOk result (λ parts. parts.value.units ≡ units) }
    ensures steps { IfOk result (λ parts. parts.value.steps ≡ 0) }
{
    let _clock = tables.clock(); // for the proof
    let (scheduler, jobs) = queues(alloc, &generation, &tables)?;
    let units = TaskUnits::of(alloc, units, generation.max().tasks)?;
    let resting = idle(alloc, generation, units, tables, scheduler, jobs);
    let mut parts = Box::new(alloc, resting)?;
    open_services(&mut parts, alloc)?;
    Ok(parts)
}
