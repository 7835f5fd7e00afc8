//! What is told of a file that was loaded.
ghost use Rattle.std.specs.Prelude.{◌≡◌, ◌≤◌, ◌<◌, ◌^◌};
ghost use Rattle.kd_records.specs.Charge.{IsBlockSize, total_charge};
ghost use Rattle.kdcfile_copies.specs.{Copies.{bare}, Finding.{IsLoaded}};
ghost use Rattle.carry_cli.specs.{Kinds.{made_once, made_twice, one_less}, Seeing.{IsSound, kind_of}};

use crate::kinds::{Kind, Making};
use crate::seeing::Seen;
use kd_base::Bytes;
use kd_records::{RecordKey, charge};
use kdcfile_copies::LoadedCopy;
use kdcfile_store::PagedStore;

// How many pages records are charged.
fn record_pages(size: u32, records: &[(RecordKey, Bytes)]) -> u32
    requires size { IsBlockSize size }
    requires few { total_charge size records.now < 2 ^ 32 }
    ensures { result ≡ total_charge size records.now }
{
    let mut pages = 0;
    for record in records {
        pages += charge(record.1.len() as u64, size) as u32;
    }
    pages
}

// With what a file was made, and what its records take of it.
fn made_once(store: &PagedStore) -> Making
    ensures { result ≡ made_once store.now.identity store.now.content }
{
    store.is_in_order();
    let limits = store.limits();
    Making {
        blksize: limits.blksize,
        pgpool: limits.pgpool,
        used: record_pages(limits.blksize, store.kept().items.as_slice()),
        fingerprint: *store.fingerprint(),
    }
}

// The same without a page.
fn one_less(made: Making) -> Making
    requires used { 1 ≤ made.used }
    requires pgpool { 1 ≤ made.pgpool }
    ensures { result ≡ one_less made }
{
    let Making {
        blksize,
        pgpool,
        used,
        fingerprint,
    } = made;
    Making {
        blksize,
        pgpool: pgpool - 1,
        used: used - 1,
        fingerprint,
    }
}

// The same of a copy, without the page of its sequence.
fn made_twice(copy: &LoadedCopy) -> Making
    requires { IsLoaded copy.now }
    ensures { result ≡ made_twice copy.now.store.identity (bare copy.now.store.content) }
{
    one_less(made_once(&copy.store))
}

impl Seen {
    /// What is told of it.
    pub(crate) fn kind(&self, there: bool) -> Kind
        requires { IsSound self.now }
        ensures { result ≡ kind_of there self.now }
    {
        match self {
            Seen::Empty if there => Kind::Empty,
            Seen::Empty => Kind::Missing,
            Seen::Shut => Kind::Shut,
            Seen::Foreign => Kind::NoKdcfile,
            Seen::Single(store) => Kind::Single(made_once(store)),
            Seen::Copy(copy) => Kind::Copy(copy.sequence, made_twice(copy)),
        }
    }
}
