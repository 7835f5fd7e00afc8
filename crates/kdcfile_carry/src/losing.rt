//! The rows that go when tables are carried.
ghost use Rattle.std.specs.Prelude.{◌≡◌, ◌++◌, ◌∷◌, [], IfOk, OnOk, filter, is_some, map};
ghost use Rattle.kdcs_types.specs.{declared.act.Row.{Row as RowIs}, Tables.{gssb_row, tls_row, uls_row, service_row, job_row, shown_row, row_at, row_key}};
ghost use Rattle.kdcfile_carry.specs.Losing.{is_gone, rows_gone};

use kd_base::{Bytes, Name, OutOfMemory};
use kdcs_types::{Area, Job, JobValue, Row, Service, Tables};
use std::alloc::Global;

/// Whether rows may go that do not suit the new texts.
#[derive(Clone, Copy, Debug, PartialEq, Eq)]
pub enum Losses {
    /// Where a row would go, nothing is written.
    Refused,
    /// The rows that do not suit go.
    Accepted,
}

// A list of the tables.
trait Kind {
    type Item;

    ghost row_of: { Self.Item → RowIs };

    // Whether the tables have a row of its key.
    fn stays(new: &Tables, item: &Self::Item) -> bool
        ensures { result ≡ is_some (row_at new.now (row_key (row_of item.now))) };

    // The item as a row.
    fn row(item: &Self::Item) -> Result<Row, OutOfMemory>
        ensures { IfOk result (λ r. r ≡ row_of item.now) };
}

struct Gssbs;

struct Tlss;

struct Ulss;

struct Services;

struct Jobs;

struct Shown;

impl Kind for Gssbs {
    type Item = (Name, Bytes);

    ghost row_of = { gssb_row };

    fn stays(new: &Tables, item: &(Name, Bytes)) -> bool {
        new.content(&Area::Gssb(item.0)).is_some()
    }

    fn row(item: &(Name, Bytes)) -> Result<Row, OutOfMemory> {
        Ok(Row::Gssb(item.0, item.1.clone()?))
    }
}

impl Kind for Tlss {
    type Item = (Name, Name, Bytes);

    ghost row_of = { tls_row };

    fn stays(new: &Tables, item: &(Name, Name, Bytes)) -> bool {
        new.content(&Area::Tls(item.0, item.1)).is_some()
    }

    fn row(item: &(Name, Name, Bytes)) -> Result<Row, OutOfMemory> {
        Ok(Row::Tls(item.0, item.1, item.2.clone()?))
    }
}

impl Kind for Ulss {
    type Item = (Name, Name, Bytes);

    ghost row_of = { uls_row };

    fn stays(new: &Tables, item: &(Name, Name, Bytes)) -> bool {
        new.content(&Area::Uls(item.0, item.1)).is_some()
    }

    fn row(item: &(Name, Name, Bytes)) -> Result<Row, OutOfMemory> {
        Ok(Row::Uls(item.0, item.1, item.2.clone()?))
    }
}

impl Kind for Services {
    type Item = Service;

    ghost row_of = { service_row };

    fn stays(new: &Tables, item: &Service) -> bool {
        new.service(item.id).is_some()
    }

    fn row(item: &Service) -> Result<Row, OutOfMemory> {
        Ok(Row::Service(item.id, item.clone()?))
    }
}

impl Kind for Jobs {
    type Item = Job;

    ghost row_of = { job_row };

    fn stays(new: &Tables, item: &Job) -> bool {
        new.job(item.number).is_some()
    }

    fn row(item: &Job) -> Result<Row, OutOfMemory> {
        Ok(Row::Job(item.number, item.value.clone()?))
    }
}

impl Kind for Shown {
    type Item = (Name, JobValue);

    ghost row_of = { shown_row };

    fn stays(new: &Tables, item: &(Name, JobValue)) -> bool {
        new.shown_at(item.0).is_some()
    }

    fn row(item: &(Name, JobValue)) -> Result<Row, OutOfMemory> {
        Ok(Row::Shown(item.0, item.1.clone()?))
    }
}

// Adds the row of an item that goes.
fn add_one<K: Kind>(new: &Tables, item: &K::Item, gone: &mut Vec<Row>) -> Result<(), OutOfMemory>
    ensures { OnOk result (gone.new.items ≡ gone.old.items ++ filter (is_gone new.now) (K.row_of item.now ∷ [])) }
{
    if !K::stays(new, item) {
        gone.push(K::row(item)?)?;
    }
    Ok(())
}

// Adds the rows of one list that go.
fn add_gone<K: Kind>(
    new: &Tables,
    items: &[K::Item],
    gone: &mut Vec<Row>,
) -> Result<(), OutOfMemory>
    ensures { OnOk result (gone.new.items ≡ gone.old.items ++ filter (is_gone new.now) (map K.row_of items.now)) }
{
    for item in items {
        add_one::<K>(new, item, gone)?;
    }
    Ok(())
}

/// The rows of the old tables that the new ones do not have, in the order of their keys.
pub fn rows_gone(alloc: Global, old: &Tables, new: &Tables) -> Result<Vec<Row>, OutOfMemory>
    ensures { IfOk result (λ rows. rows.items ≡ rows_gone old.now new.now) }
{
    let mut gone = Vec::new(alloc);
    add_gone::<Gssbs>(new, old.gssbs(), &mut gone)?;
    add_gone::<Tlss>(new, old.tlss(), &mut gone)?;
    add_gone::<Ulss>(new, old.ulss(), &mut gone)?;
    add_gone::<Services>(new, old.services(), &mut gone)?;
    add_gone::<Jobs>(new, old.jobs(), &mut gone)?;
    add_gone::<Shown>(new, old.shown(), &mut gone)?;
    Ok(gone)
}
