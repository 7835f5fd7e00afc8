//! The tables.
ghost use Rattle.std.specs.Prelude.{◌≡◌, OnOk};
ghost use Rattle.kdcs_types.specs.Tables.{changed, AreChanges};
ghost use Rattle.table_fit.specs.Pages.{FitPool};
ghost use Rattle.service_ends.specs.{Queue.{queue_after, queue_after_all, is_open_job, marked_if, with_marked}, Standing.{IsIndexed, SameApplication, active_of, state_of}};

use crate::core_state::parts::MonitorParts;
use kd_base::OutOfMemory;
use kd_base::sorted_pairs::OrderedMap;
use kdcs_types::{Change, Changes, JobValue, Key, Row, ServiceId};
use open_transaction::OpenTransaction;
use open_transaction::async_queue::Jobs;
use table_fit::row_charges::charge_after;

/// The open transactions by their services.
type OpenTransactions = OrderedMap<ServiceId, Box<OpenTransaction>>;

// The job is taken where its service is open.
fn mark_if_open(jobs: &mut Jobs, active: &OpenTransactions, number: u64)
    ensures { jobs.new ≡ marked_if (is_open_job (active_of active.now) number) number jobs.old }
{
    if active.contains_key(&ServiceId::Asynchronous(number)) {
        jobs.take(number);
    }
}

// The job is in its place, with the mark of its service.
fn set_job(
    jobs: &mut Jobs,
    active: &OpenTransactions,
    number: u64,
    value: &JobValue,
) -> Result<(), OutOfMemory>
    ensures { OnOk result (jobs.new ≡ with_marked (active_of active.now) (record { number = number; value = value.now }) jobs.old) }
{
    jobs.remove(number);
    jobs.insert(number, value.to, value.due)?;
    mark_if_open(jobs, active, number);
    Ok(())
}

// The jobs after a change of the tables, with the marks of those that are open.
fn change_jobs(
    jobs: &mut Jobs,
    active: &OpenTransactions,
    change: &Change,
) -> Result<(), OutOfMemory>
    ensures { OnOk result (jobs.new ≡ queue_after (active_of active.now) change.now jobs.old) }
{
    match change {
        Change::Set(Row::Job(number, value)) => set_job(jobs, active, *number, value),
        Change::Remove(Key::Job(number)) => {
            jobs.remove(*number);
            Ok(())
        }
        _ => Ok(()),
    }
}

fn change_all_jobs(
    jobs: &mut Jobs,
    active: &OpenTransactions,
    changes: &[Change],
) -> Result<(), OutOfMemory>
    ensures { OnOk result (jobs.new ≡ queue_after_all (active_of active.now) changes.now jobs.old) }
{
    for change in changes {
        change_jobs(jobs, active, change)?;
    }
    Ok(())
}

impl MonitorParts {
    /// Makes the changes in the tables, which cost in proportion to their number, and to the rows after those that come or
    /// go. The durable rows fit into the page pool before and after them.
    pub fn change(&mut self, changes: &Changes) -> Result<(), OutOfMemory>
        requires indexed { IsIndexed self.old }
        requires changes { AreChanges changes.now.items }
        requires before { FitPool self.old.generation self.old.tables }
        requires after { FitPool self.old.generation (changed self.old.tables changes.now) }
        ensures indexed { OnOk result (IsIndexed self.new) }
        ensures same { OnOk result (SameApplication self.old self.new) }
        ensures state { OnOk result (state_of self.new ≡ record (state_of self.old) { tables = changed self.old.tables changes.now }) }
    {
        let _clock = self.tables.clock(); // for the proof
        let _limits = self.generation.max(); // for the proof
        let charge = charge_after(&self.generation, &self.tables, changes, self.charge);
        self.tables.change(changes)?;
        self.charge = charge as u64;
        change_all_jobs(&mut self.jobs, &self.active, changes.items.as_slice())?;
        Ok(())
    }
}
