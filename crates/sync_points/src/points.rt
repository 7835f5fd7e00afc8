//! Synchronisation points.
ghost use Rattle.std.specs.Prelude.{◌≡◌, ◌∷◌, [], ◌++◌, ◌+◌, ◌≤◌, false, IfOk, OnOk, length, nat_lt};
ghost use Rattle.kdcs_types.specs.{declared.act.Change.TheVariants.{Set}, Tables.{job_row, with_changes}};
ghost use Rattle.kd_base.specs.Limits.{last_clock, last_next_job};
ghost use Rattle.abstract_monitor.specs.{Charges.{total_charge}, Endings.{durable, numbered, refusal, row_after, synchronised}};
ghost use Rattle.laws_of_states.specs.{JobLaw.{new_jobs}, PointLaws.{IsSoundlyOpen}};
ghost use Rattle.open_transaction.specs.Transactions.{transaction_of};
ghost use Rattle.service_parts.specs.Areas.{changes_of};
ghost use Rattle.sync_points.specs.{Answers.{answer_by, point_by, refused_by}, PointChanges.{changes_with, job_changes, own_job_changes, service_changes}};

use crate::gssbs::has_too_many_gssbs;
use crate::kept::KeptRecord;
use crate::pool::is_pool_full;
use crate::row::row_after;
use crate::writes::{real_of, write_own_job, write_service};
use abstract_monitor::Outcome;
use application_types::generation::Generation;
use kd_base::{LAST_NEXT_JOB, OutOfMemory};
use kdcs_types::{Cause, Change, Changes, Ending, Job, Row, RowChanges, Service, Tables};
use open_transaction::OpenTransaction;
use std::alloc::Global;

/// What a synchronisation point comes to.
#[derive(Drop)]
pub enum SettleAnswer {
    /// The changes of the durable tables, the row of the service after the point, also for a user with RESTART=NO, and
    /// what the transaction keeps for its replay.
    Synced(Changes, Option<Service>, KeptRecord),
    /// E10, E11 or E09, and the transaction as it was.
    Refused(Cause, Box<OpenTransaction>),
}

// The same, before the transaction is taken apart.
#[derive(Drop)]
enum Point {
    Passed(Changes, Option<Service>),
    Refused(Cause),
}

fn write_job(changes: &mut RowChanges, job: Job) -> Result<(), OutOfMemory>
    ensures { OnOk result (changes.new ≡ changes.old ++ Set (job_row job) ∷ []) }
{
    changes.push(Change::Set(Row::Job(job.number, job.value)))
}

fn write_jobs(changes: &mut RowChanges, jobs: Vec<Job>) -> Result<(), OutOfMemory>
    ensures { OnOk result (changes.new ≡ changes.old ++ job_changes jobs.items) }
{
    for job in jobs {
        write_job(changes, job)?;
    }
    Ok(())
}

// The last number of a job would be too great.
fn spends_numbers(tables: &Tables, transaction: &OpenTransaction) -> bool
    requires { tables.now.next_job ≤ last_next_job }
    ensures { result ≡ nat_lt last_next_job (tables.now.next_job + length (transaction_of transaction.now).drafts) }
{
    transaction.drafts.len() as u64 > LAST_NEXT_JOB - tables.next_job()
}

// The row of the service and the jobs come after the areas.
fn write_behind(
    changes: &mut RowChanges,
    alloc: Global,
    generation: &Generation,
    tables: &Tables,
    transaction: &OpenTransaction,
    row: &Option<Service>,
) -> Result<(), OutOfMemory>
    requires clock { tables.now.clock ≤ last_clock }
    requires next { tables.now.next_job + length (transaction_of transaction.now).drafts ≤ last_next_job }
    ensures { OnOk result (changes.new ≡ changes.old ++ service_changes generation.now transaction.now.id row.now ++ own_job_changes transaction.now.id transaction.now.began ++ job_changes (new_jobs tables.now (transaction_of transaction.now))) }
{
    let jobs = transaction.drafts.numbered(
        tables.next_job(),
        tables.clock(),
        transaction.user,
        transaction.lterm,
        alloc,
    )?;
    write_service(changes, generation, transaction.id, row)?;
    write_own_job(changes, transaction.id, &transaction.began)?;
    write_jobs(changes, jobs)
}

fn point_changes(
    alloc: Global,
    generation: &Generation,
    tables: &Tables,
    transaction: &OpenTransaction,
    areas: RowChanges,
    row: &Option<Service>,
) -> Result<Changes, OutOfMemory>
    requires areas { areas ≡ changes_of (transaction_of transaction.now).written }
    requires clock { tables.now.clock ≤ last_clock }
    requires next { tables.now.next_job + length (transaction_of transaction.now).drafts ≤ last_next_job }
    ensures { IfOk result (λ changes. changes ≡ changes_with generation.now tables.now transaction.now.id (transaction_of transaction.now) row.now) }
{
    let mut changes = areas;
    write_behind(&mut changes, alloc, generation, tables, transaction, row)?;
    Ok(Changes {
        clock: tables.clock(),
        next_job: tables.next_job() + transaction.drafts.len() as u64,
        items: real_of(tables, changes),
    })
}

// The point of a transaction with not too many GSSBs or jobs, unless it would fill the page pool.
fn point_with(
    alloc: Global,
    generation: &Generation,
    tables: &Tables,
    charge: u64,
    transaction: &OpenTransaction,
    outcome: Outcome,
    areas: RowChanges,
) -> Result<Point, OutOfMemory>
    requires stands { IsSoundlyOpen generation.now tables.now transaction.now.id (transaction_of transaction.now) }
    requires charge { charge ≡ total_charge generation.now.limits.blksize (durable generation.now tables.now) }
    requires areas { areas ≡ changes_of (transaction_of transaction.now).written }
    requires few_gssbs { nat_lt generation.now.limits.gssbs (length (with_changes tables.now areas).gssbs) ≡ false }
    requires few_jobs { nat_lt last_next_job (tables.now.next_job + length (transaction_of transaction.now).drafts) ≡ false }
    ensures { IfOk result (λ point. point ≡ point_by generation.now tables.now transaction.now outcome (refused_by generation.now tables.now transaction.now outcome)) }
{
    let _limits = generation.max(); // for the proof
    let row = row_after(alloc, generation, transaction, outcome)?;
    let changes = point_changes(alloc, generation, tables, transaction, areas, &row)?;
    if is_pool_full(generation, tables, &changes, charge) {
        return Ok(Point::Refused(Cause::E09));
    }
    Ok(Point::Passed(changes, row))
}

fn point_of(
    alloc: Global,
    generation: &Generation,
    tables: &Tables,
    charge: u64,
    transaction: &OpenTransaction,
    outcome: Outcome,
) -> Result<Point, OutOfMemory>
    requires stands { IsSoundlyOpen generation.now tables.now transaction.now.id (transaction_of transaction.now) }
    requires charge { charge ≡ total_charge generation.now.limits.blksize (durable generation.now tables.now) }
    ensures { IfOk result (λ point. point ≡ point_by generation.now tables.now transaction.now outcome (refused_by generation.now tables.now transaction.now outcome)) }
{
    let limits = generation.max();
    let areas = transaction.areas.changes(alloc)?;
    if has_too_many_gssbs(tables, &areas, limits.gssbs) {
        return Ok(Point::Refused(Cause::E10));
    }
    if spends_numbers(tables, transaction) {
        return Ok(Point::Refused(Cause::E11));
    }
    point_with(
        alloc,
        generation,
        tables,
        charge,
        transaction,
        outcome,
        areas,
    )
}

/// A synchronisation point by PEND RE, SP, FI or FC, whose outcomes are Wait, Point, Finish and Follow. Where it is
/// refused, the tests are in this order: E10 where there would be more than GSSBS GSSBs, E11 where a job's number would
/// pass 999,999,999,999, and E09 where the page pool would be full. `charge` is how many pages the durable rows of the
/// tables take together. The changes and the tests cost what the changes are, and a look-up for each. The transaction can
/// go on, and its service's row is in the tables as it began; their durable part suits the generation. The transaction is
/// lost where memory runs out.
pub fn settle(
    transaction: Box<OpenTransaction>,
    alloc: Global,
    generation: &Generation,
    tables: &Tables,
    charge: u64,
    outcome: Outcome,
) -> Result<SettleAnswer, OutOfMemory>
    requires stands { IsSoundlyOpen generation.now tables.now transaction.value.id (transaction_of transaction.value) }
    requires charge { charge ≡ total_charge generation.now.limits.blksize (durable generation.now tables.now) }
    ensures { IfOk result (λ answer. answer ≡ answer_by generation.now tables.now transaction outcome (refused_by generation.now tables.now transaction.value outcome)) }
{
    match point_of(alloc, generation, tables, charge, &transaction, outcome)? {
        Point::Refused(cause) => Ok(SettleAnswer::Refused(cause, transaction)),
        Point::Passed(changes, row) => {
            let kept = KeptRecord::of(transaction, Ending::Synced);
            Ok(SettleAnswer::Synced(changes, row, kept))
        }
    }
}
