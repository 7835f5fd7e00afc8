//! Which tables suit a generation.
ghost use Rattle.std.specs.{Prelude.{◌≡◌, ◌↔◌, ◌&&◌, not, IsTrue, is_some, length, nat_le, nat_lt}, List.{list_all}};
ghost use Rattle.kdcs_types.specs.{declared.service.Job.{Job as JobRow}, declared.service.Service.{Service as ServiceRow}, declared.key.ServiceId.TheVariants.{Asynchronous}, Limits.{IsInRange}};
ghost use Rattle.kdcs_types.specs.Tables.{service_of};
ghost use Rattle.laws_of_states.specs.Suits.{SuitsFrom, number_is_below};
ghost use Rattle.table_fit.specs.{Charging.{RowsSuit}, Suiting.{AreNumbersApart, are_numbers_apart, are_numbers_in_range}};

use crate::areas::{gssbs_suit, tlss_suit, ulss_suit};
use crate::charges::charges_suit;
use crate::messages::{all_shown_suit, jobs_suit};
use crate::services::{services_are_durable, services_suit};
use application_types::generation::Generation;
use kd_base::{LAST_CLOCK, LAST_NEXT_JOB};
use kdcs_types::{Job, Service, ServiceId, Tables};

/// The clock and the next job number are in range.
pub fn numbers_suit(tables: &Tables) -> bool
    ensures test { result ≡ are_numbers_in_range tables.now }
    ensures range { IsTrue result ↔ IsInRange tables.now }
{
    tables.clock() <= LAST_CLOCK && 1 <= tables.next_job() && tables.next_job() <= LAST_NEXT_JOB
}

// Each row by itself, and the number of GSSBs.
fn rows_suit(generation: &Generation, tables: &Tables) -> bool
    ensures { IsTrue result ↔ RowsSuit generation.now tables.now }
{
    tables.gssbs().len() as u64 <= u64::from(generation.max().gssbs)
        && gssbs_suit(tables.gssbs())
        && tlss_suit(generation, tables.tlss())
        && ulss_suit(generation, tables.ulss())
        && services_suit(generation, tables.services())
        && services_are_durable(generation, tables.services())
        && jobs_suit(generation, tables.jobs())
        && all_shown_suit(generation, tables.shown())
}

fn is_below(next_job: u64, id: &ServiceId) -> bool
    ensures { result ≡ number_is_below next_job id.now }
{
    match id {
        ServiceId::Dialogue(_) => true,
        ServiceId::Asynchronous(number) => *number < next_job,
    }
}

fn jobs_are_below(next_job: u64, jobs: &[Job]) -> bool
    ensures { result ≡ list_all (λ (j : JobRow). nat_lt j.number next_job) jobs.now }
{
    jobs.iter().all(|job| job.number < next_job)
}

fn services_are_below(next_job: u64, services: &[Service]) -> bool
    ensures { result ≡ list_all (λ (s : ServiceRow). number_is_below next_job s.id) services.now }
{
    services
        .iter()
        .all(|service| is_below(next_job, &service.id))
}

// No number is both a job's and an asynchronous service's.
fn no_number_is_both(tables: &Tables) -> bool
    ensures { result ≡ list_all (λ (j : JobRow). not (is_some (service_of tables.now (Asynchronous j.number)))) tables.now.jobs }
{
    tables.jobs().iter().all(|job| tables
        .service(ServiceId::Asynchronous(job.number))
        .is_none())
}

/// The numbers of jobs and asynchronous services are below the next job number, and none is both. It takes time in
/// proportion to the rows, with a look-up for each job.
pub fn numbers_are_apart(tables: &Tables) -> bool
    ensures test { result ≡ are_numbers_apart tables.now }
    ensures apart { IsTrue result ↔ AreNumbersApart tables.now }
{
    jobs_are_below(tables.next_job(), tables.jobs())
        && services_are_below(tables.next_job(), tables.services())
        && no_number_is_both(tables)
}

/// Whether the tables suit the generation: false exactly where one of the conditions fails. `blksize`, in bytes, and
/// `pgpool`, in pages, are those of the file that the tables come from, or the generation's own where there is none. It
/// takes no memory, and time in proportion to the tables.
pub fn suits(generation: &Generation, tables: &Tables, blksize: u32, pgpool: u32) -> bool
    ensures { IsTrue result ↔ SuitsFrom generation.now blksize pgpool tables.now }
{
    let limits = generation.max();
    blksize == limits.blksize
        && pgpool == limits.pgpool
        && numbers_suit(tables)
        && rows_suit(generation, tables)
        && numbers_are_apart(tables)
        && charges_suit(generation, tables)
}
