//! Whether the rows of tables fit into the page pool together.
ghost use Rattle.std.specs.{Prelude.{◌≡◌, ◌-◌, ◌<◌, ◌≤◌, ◌^◌, ℕ, SomeIff, length, min, nat_le, sum_by, All}, List.{list_all}};
ghost use Rattle.kd_records.specs.Charge.{IsBlockSize};
ghost use Rattle.abstract_monitor.specs.Charges.{charge_of, job_length, service_length, total_charge};
ghost use Rattle.table_fit.specs.Charging.{AreShort, RowsSuit, has_few_bytes, left_after};

use crate::lengths::{job_length, service_length};
use application_types::generation::Generation;
use kd_base::{Bytes, Name};
use kd_records::charge;
use kdcs_types::{Job, JobValue, Service, Tables};

/// No pool has more bytes: 30,000 pages of 8,192 bytes.
const MOST_BYTES: usize = 245_760_000;

/// A row of the tables, with the number of bytes of its value.
pub(crate) trait Charged {
    ghost bytes: { Self → ℕ };

    fn pages(&self, blksize: u32) -> u64
        requires block { IsBlockSize blksize }
        requires short { bytes self.now < 2 ^ 32 }
        ensures { result ≡ charge_of blksize (bytes self.now) };
}

impl Charged for (Name, Bytes) {
    ghost bytes = { λ r. length r.1 };

    fn pages(&self, blksize: u32) -> u64 {
        charge(self.1.len() as u64, blksize)
    }
}

impl Charged for (Name, Name, Bytes) {
    ghost bytes = { λ r. length r.2 };

    fn pages(&self, blksize: u32) -> u64 {
        charge(self.2.len() as u64, blksize)
    }
}

impl Charged for Service {
    ghost bytes = { service_length };

    fn pages(&self, blksize: u32) -> u64 {
        charge(service_length(self), blksize)
    }
}

impl Charged for Job {
    ghost bytes = { λ j. job_length j.value };

    fn pages(&self, blksize: u32) -> u64 {
        charge(job_length(&self.value), blksize)
    }
}

impl Charged for (Name, JobValue) {
    ghost bytes = { λ r. job_length r.1 };

    fn pages(&self, blksize: u32) -> u64 {
        charge(job_length(&self.1), blksize)
    }
}

// The pages that are left of so many, or none where the rows take more.
fn left<R: Charged>(pages: u64, rows: &[R], blksize: u32) -> Option<u64>
    requires block { IsBlockSize blksize }
    requires short { All (λ (r : R). R.bytes r < 2 ^ 32) rows.now }
    ensures { let taken = sum_by (λ (r : R). charge_of blksize (R.bytes r)) rows.now in SomeIff result (taken ≤ pages) (pages - taken) }
{
    let mut left = pages;
    for row in rows {
        left = left.checked_sub(row.pages(blksize))?;
    }
    Some(left)
}

// The same, where none may be left already.
fn left_after<R: Charged>(pages: Option<u64>, rows: &[R], blksize: u32) -> Option<u64>
    requires block { IsBlockSize blksize }
    requires short { All (λ (r : R). R.bytes r < 2 ^ 32) rows.now }
    ensures { result ≡ left_after pages (sum_by (λ (r : R). charge_of blksize (R.bytes r)) rows.now) }
{
    match pages {
        Some(pages) => left(pages, rows, blksize),
        None => None,
    }
}

// The messages are short enough that their lengths can be told.
fn are_short(shown: &[(Name, JobValue)]) -> bool
    ensures { result ≡ list_all has_few_bytes shown.now }
{
    shown.iter().all(|row| row.1.message.len() <= MOST_BYTES)
}

// What all rows leave of so many pages.
fn pages_left(pages: u64, tables: &Tables, blksize: u32) -> Option<u64>
    requires block { IsBlockSize blksize }
    requires short { AreShort tables.now }
    ensures { SomeIff result (total_charge blksize tables.now ≤ pages) (pages - total_charge blksize tables.now) }
{
    let gssbs = left_after(Some(pages), tables.gssbs(), blksize);
    let tlss = left_after(gssbs, tables.tlss(), blksize);
    let ulss = left_after(tlss, tables.ulss(), blksize);
    let services = left_after(ulss, tables.services(), blksize);
    let jobs = left_after(services, tables.jobs(), blksize);
    left_after(jobs, tables.shown(), blksize)
}

/// The charges of all rows together, in pages of this BLKSIZE; the greatest u64 stands for itself and more. It
/// goes over all rows.
pub fn total_charge(tables: &Tables, blksize: u32) -> u64
    requires block { IsBlockSize blksize }
    requires short { AreShort tables.now }
    ensures { result ≡ min (total_charge blksize tables.now) (2 ^ 64 - 1) }
{
    match pages_left(u64::MAX, tables, blksize) {
        Some(left) => u64::MAX - left,
        None => u64::MAX,
    }
}

/// The charges of all rows together are at most PGPOOL. It goes over all rows.
pub(crate) fn charges_suit(generation: &Generation, tables: &Tables) -> bool
    requires { RowsSuit generation.now tables.now }
    ensures { result ≡ nat_le (total_charge generation.now.limits.blksize tables.now) generation.now.limits.pgpool }
{
    let limits = generation.max();
    are_short(tables.shown())
        && pages_left(u64::from(limits.pgpool), tables, limits.blksize).is_some()
}
