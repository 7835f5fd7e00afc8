//! Which jobs and shown messages suit.
ghost use Rattle.std.specs.{Prelude.{◌≡◌, ◌&&◌}, List.{list_all}};
ghost use Rattle.kdcs_types.specs.declared.key.Target.TheVariants.{Tac};
ghost use Rattle.laws_of_states.specs.Suits.{job_suits, shown_suits, target_name, target_suits, value_suits};
ghost use Rattle.abstract_monitor.specs.{Calls.{job_target}, Outcomes.{goes_first}};

use crate::names::{fits_message, is_lterm, is_user};
use application_types::generation::Generation;
use application_types::kdcdef_types::{CallUse, TacEntry};
use kd_base::Name;
use kdcs_types::{Job, JobValue, Target};

/// The greatest clock and the greatest relative time together, in ticks.
const LAST_DUE: u64 = 1_000_863_999_998;

// The due is in range, and the user and the LTERM are declared.
fn value_suits(generation: &Generation, value: &JobValue) -> bool
    ensures { result ≡ value_suits generation.now value.now }
{
    value.due <= LAST_DUE && is_user(generation, value.user) && is_lterm(generation, value.lterm)
}

// An asynchronous TAC with CALL other than NEXT and STATUS=ON.
fn starts_jobs(entry: &TacEntry) -> bool
    ensures { result ≡ (entry.now.asynchronous && goes_first entry.now.call && entry.now.on) }
{
    entry.asynchronous && entry.call != CallUse::Next && entry.on
}

// A TAC that jobs may go to, and no LTERM.
#[tactic(auto, unfolding(abstract_monitor::specs::Calls::job_target))]
fn is_job_tac(generation: &Generation, name: Name) -> bool
    ensures { result ≡ target_suits generation.now (Tac name) (job_target generation.now name) }
{
    match (generation.lterm(name), generation.tac(name)) {
        (None, Some(entry)) => starts_jobs(entry),
        (Some(_), _) | (None, None) => false,
    }
}

// An LTERM, or a TAC that jobs may go to.
#[tactic(auto, unfolding(abstract_monitor::specs::Calls::job_target))]
fn target_suits(generation: &Generation, to: Target) -> bool
    ensures { result ≡ target_suits generation.now to (job_target generation.now (target_name to)) }
{
    match to {
        Target::Lterm(name) => is_lterm(generation, name),
        Target::Tac(name) => is_job_tac(generation, name),
    }
}

/// The job's due is in range, user and LTERM are declared, the message has at most NB bytes, and its target takes jobs.
pub fn job_suits(generation: &Generation, job: &Job) -> bool
    ensures { result ≡ job_suits generation.now job.now }
{
    value_suits(generation, &job.value)
        && fits_message(generation, &job.value.message)
        && target_suits(generation, job.value.to)
}

/// Each job's due, user, LTERM, message and target suit.
pub(crate) fn jobs_suit(generation: &Generation, jobs: &[Job]) -> bool
    ensures { result ≡ list_all (job_suits generation.now) jobs.now }
{
    jobs.iter().all(|job| job_suits(generation, job))
}

/// The message was for the LTERM that shows it, and its due, user and LTERM suit.
pub fn shown_suits(generation: &Generation, row: &(Name, JobValue)) -> bool
    ensures { result ≡ shown_suits generation.now row.now }
{
    is_lterm(generation, row.0)
        && value_suits(generation, &row.1)
        && row.1.to == Target::Lterm(row.0)
}

/// Each shown message was for the LTERM that shows it, and its due, user and LTERM suit.
pub(crate) fn all_shown_suit(generation: &Generation, rows: &[(Name, JobValue)]) -> bool
    ensures { result ≡ list_all (shown_suits generation.now) rows.now }
{
    rows.iter().all(|row| shown_suits(generation, row))
}
