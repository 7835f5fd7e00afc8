//! What KDCOUT and PRINT change.
ghost use Rattle.std.specs.{Prelude.{◌≡◌, ◌++◌, ◌&&◌, None, Some, IfOk, IfNone, IfSome, OnOk, nat_le, option_copied}, Option.{option_eq}};
ghost use Rattle.kdcs_types.specs.{declared.service.Job.{Job as OfTables}, Same.{job_value_eq}, Tables.{shown_of}};
ghost use Rattle.abstract_monitor.specs.{Commands.{is_for}, Picks.{due_job, earlier_of, is_earlier}};
ghost use Rattle.laws_of_states.specs.CommitLaws.{shown_changes, shown_set};
ghost use Rattle.serial_audit.specs.Due.{earlier_if};

use kd_base::{Name, OutOfMemory};
use kdcs_types::{Change, Changes, Job, JobValue, Key, Row, RowChanges, Tables, Target};
use std::alloc::Global;
use sync_points::is_real;

fn is_for(lterm: Name, to: &Target) -> bool
    ensures { result ≡ is_for lterm to.now }
{
    match to {
        Target::Lterm(other) => lterm == *other,
        Target::Tac(_) => false,
    }
}

fn is_earlier(a: &Job, b: &Job) -> bool
    ensures { result ≡ is_earlier a.now b.now }
{
    a.value.due < b.value.due || (a.value.due == b.value.due && a.number < b.number)
}

// The job is due for this LTERM.
fn is_due(job: &Job, clock: u64, lterm: Name) -> bool
    ensures { result ≡ (nat_le job.now.value.due clock && is_for lterm job.now.value.to) }
{
    job.value.due <= clock && is_for(lterm, &job.value.to)
}

fn earlier_of<'a>(job: &'a Job, other: Option<&'a Job>) -> &'a Job
    ensures { Some result.now ≡ earlier_of job.now (option_copied other.entry) }
{
    match other {
        Some(other) if is_earlier(other, job) => other,
        _ => job,
    }
}

// The earlier one, where the job is due for this LTERM.
fn with_job<'a>(first: Option<&'a Job>, job: &'a Job, clock: u64, lterm: Name) -> Option<&'a Job>
    ensures { option_copied result ≡ earlier_if (nat_le job.now.value.due clock && is_for lterm job.now.value.to) job.now (option_copied first.entry) }
{
    if is_due(job, clock, lterm) {
        Some(earlier_of(job, first))
    } else {
        first
    }
}

// Of the jobs that are due for this LTERM, the one with the least due and number.
fn due_job(jobs: &[Job], clock: u64, lterm: Name) -> Option<&Job>
    ensures { option_copied result ≡ due_job clock (is_for lterm) jobs.now }
{
    let mut first = None;
    for behind in 0..jobs.len() {
        first = with_job(first, &jobs[jobs.len() - 1 - behind], clock, lterm);
    }
    first
}

// The message is set, unless the LTERM shows it already.
#[tactic(auto, using(crate::proofs::SetShown::set_none, crate::proofs::SetShown::set_one))]
fn set_shown(
    items: &mut RowChanges,
    tables: &Tables,
    lterm: Name,
    value: &JobValue,
) -> Result<(), OutOfMemory>
    ensures { OnOk result (items.new ≡ items.old ++ shown_set (option_eq job_value_eq (Some value.now) (shown_of tables.now lterm)) lterm value.now) }
{
    let shown = Change::Set(Row::Shown(lterm, value.clone()?));
    if !is_real(tables, &shown) {
        return Ok(());
    }
    items.push(shown)
}

fn shown_changes(
    alloc: Global,
    tables: &Tables,
    lterm: Name,
    job: &Job,
) -> Result<Changes, OutOfMemory>
    ensures { IfOk result (λ changes. changes ≡ shown_changes tables.now lterm job.now) }
{
    let mut items = RowChanges::new(alloc);
    items.push(Change::Remove(Key::Job(job.number)))?;
    set_shown(&mut items, tables, lterm, &job.value)?;
    Ok(Changes {
        clock: tables.clock(),
        next_job: tables.next_job(),
        items,
    })
}

/// What KDCOUT and PRINT at this LTERM change in durable tables, if a job is due for it.
pub(crate) fn show_changes(
    alloc: Global,
    tables: &Tables,
    lterm: Name,
) -> Result<Option<Changes>, OutOfMemory>
    ensures some { IfOk result (λ o. IfSome o (λ changes. (job : OfTables) × (due_job tables.now.clock (is_for lterm) tables.now.jobs ≡ Some job) × (changes ≡ shown_changes tables.now lterm job))) }
    ensures none { IfOk result (λ o. IfNone o (due_job tables.now.clock (is_for lterm) tables.now.jobs ≡ None)) }
{
    match due_job(tables.jobs(), tables.clock(), lterm) {
        Some(job) => Ok(Some(shown_changes(alloc, tables, lterm, job)?)),
        None => Ok(None),
    }
}
