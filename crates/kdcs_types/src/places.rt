//! Lists in ascending order of their keys: where a key is, and what is read and changed there.
ghost use Rattle.std.specs.{Prelude.{◌≡◌, ◌+◌, ◌≤◌, ◌<◌, length, option_copied}, Vec.{vec_len, vec_capacity}, List.Sorted.{IsSearchInRange}};
ghost use Rattle.kdcs_types.specs.declared.key.Key.TheVariants as key;
ghost use Rattle.kdcs_types.specs.{Tables.{gssb_key, tls_key, uls_key, service_key, job_key, shown_key}, Places.{IsPlaceOf, found_at, placed_at, removed_at}};

use crate::key::{Key, ServiceId};
use crate::service::{Job, JobValue, Service};
use kd_base::{Bytes, Name};

pub(crate) fn gssb_place(rows: &[(Name, Bytes)], name: Name) -> Result<usize, usize>
    ensures { IsPlaceOf gssb_key (key.Gssb name) rows.now result }
{
    rows.binary_search_by_key(&Key::Gssb(name), |row| Key::Gssb(row.0))
}

pub(crate) fn tls_place(
    rows: &[(Name, Name, Bytes)],
    block: Name,
    lterm: Name,
) -> Result<usize, usize>
    ensures { IsPlaceOf tls_key (key.Tls block lterm) rows.now result }
{
    rows.binary_search_by_key(&Key::Tls(block, lterm), |row| Key::Tls(row.0, row.1))
}

pub(crate) fn uls_place(
    rows: &[(Name, Name, Bytes)],
    block: Name,
    user: Name,
) -> Result<usize, usize>
    ensures { IsPlaceOf uls_key (key.Uls block user) rows.now result }
{
    rows.binary_search_by_key(&Key::Uls(block, user), |row| Key::Uls(row.0, row.1))
}

pub(crate) fn service_place(rows: &[Service], id: ServiceId) -> Result<usize, usize>
    ensures { IsPlaceOf service_key (key.Service id) rows.now result }
{
    rows.binary_search_by_key(&Key::Service(id), |row| Key::Service(row.id))
}

pub(crate) fn job_place(rows: &[Job], number: u64) -> Result<usize, usize>
    ensures { IsPlaceOf job_key (key.Job number) rows.now result }
{
    rows.binary_search_by_key(&Key::Job(number), |row| Key::Job(row.number))
}

pub(crate) fn shown_place(rows: &[(Name, JobValue)], lterm: Name) -> Result<usize, usize>
    ensures { IsPlaceOf shown_key (key.Shown lterm) rows.now result }
{
    rows.binary_search_by_key(&Key::Shown(lterm), |row| Key::Shown(row.0))
}

pub(crate) fn found<T>(rows: &[T], place: Result<usize, usize>) -> Option<&T>
    requires { IsSearchInRange place (length rows.now) }
    ensures { option_copied result ≡ found_at place rows.now }
{
    match place {
        Ok(at) => Some(&rows[at]),
        Err(_) => None,
    }
}

/// Puts a row at its place, over the one that is there. There is capacity for it.
pub(crate) fn set<T: Drop>(rows: &mut Vec<T>, place: Result<usize, usize>, row: T)
    requires place { IsSearchInRange place (length rows.old.items) }
    requires capacity { vec_len rows.old < vec_capacity rows.old }
    ensures items { rows.new.items ≡ placed_at place row rows.old.items }
    ensures len { vec_len rows.new ≤ vec_len rows.old + 1 }
    ensures capacity { vec_capacity rows.old ≤ vec_capacity rows.new }
{
    match place {
        Ok(at) => rows[at] = row,
        Err(at) => rows.insert(at, row).unwrap(),
    }
}

/// Removes the row of a place, if one is there.
pub(crate) fn remove<T: Drop>(rows: &mut Vec<T>, place: Result<usize, usize>)
    requires { IsSearchInRange place (length rows.old.items) }
    ensures items { rows.new.items ≡ removed_at place rows.old.items }
    ensures len { vec_len rows.new ≤ vec_len rows.old }
    ensures capacity { vec_capacity rows.old ≤ vec_capacity rows.new }
{
    if let Ok(at) = place {
        let _row = rows.remove(at);
    }
}
