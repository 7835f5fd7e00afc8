//! Whether a change leaves another row than is there.
ghost use Rattle.std.specs.{Prelude.{◌≡◌, ◌&&◌, Some, bytes_eq, is_some}, Option.{option_eq}, Cmp.Lexicographic.{pointwise}};
ghost use Rattle.kdcs_types.specs.{Same.{both_eq, job_value_eq, row_same, service_eq}, Tables.{content_of, row_at, row_key}};
ghost use Rattle.sync_points.specs.PointChanges.{is_real};

use kd_base::Bytes;
use kdcs_types::{Area, Change, JobValue, Key, Row, Service, Tables};

// Whether both rows have the same LTERM, storage and messages.
fn same_rest(a: &Service, b: &Service) -> bool
    ensures { result ≡ (option_eq bytes_eq a.now.lterm b.now.lterm && (bytes_eq a.now.kb b.now.kb && (pointwise bytes_eq a.now.handed b.now.handed && (option_eq bytes_eq a.now.last b.now.last && pointwise (both_eq bytes_eq bytes_eq) a.now.lssbs b.now.lssbs)))) }
{
    a.lterm == b.lterm
        && a.kb == b.kb
        && a.handed.as_slice() == b.handed.as_slice()
        && a.last == b.last
        && a.lssbs.as_slice() == b.lssbs.as_slice()
}

/// Whether both rows say the same.
pub fn same_service(a: &Service, b: &Service) -> bool
    ensures { result ≡ service_eq a.now b.now }
{
    a.id == b.id
        && a.first == b.first
        && a.next == b.next
        && a.awaits == b.awaits
        && a.user == b.user
        && same_rest(a, b)
}

/// Whether both jobs are the same, beside their numbers.
pub fn same_value(a: &JobValue, b: &JobValue) -> bool
    ensures { result ≡ job_value_eq a.now b.now }
{
    a.to == b.to
        && a.due == b.due
        && a.redelivered == b.redelivered
        && a.user == b.user
        && a.lterm == b.lterm
        && a.message == b.message
}

fn has_content(tables: &Tables, area: Area, content: &Bytes) -> bool
    ensures { result ≡ option_eq bytes_eq (Some content.now) (content_of tables.now area) }
{
    match tables.content(&area) {
        Some(old) => content == old,
        None => false,
    }
}

fn has_row(tables: &Tables, row: &Row) -> bool
    ensures { result ≡ row_same (Some row.now) (row_at tables.now (row_key row.now)) }
{
    match row {
        Row::Gssb(name, content) => has_content(tables, Area::Gssb(*name), content),
        Row::Tls(block, lterm, content) => has_content(tables, Area::Tls(*block, *lterm), content),
        Row::Uls(block, user, content) => has_content(tables, Area::Uls(*block, *user), content),
        Row::Service(id, service) => match tables.service(*id) {
            Some(old) => same_service(service, old),
            None => false,
        },
        Row::Job(number, value) => match tables.job(*number) {
            Some(old) => same_value(value, old),
            None => false,
        },
        Row::Shown(lterm, value) => match tables.shown_at(*lterm) {
            Some(old) => same_value(value, old),
            None => false,
        },
    }
}

fn has_area(tables: &Tables, area: Area) -> bool
    ensures { result ≡ is_some (content_of tables.now area) }
{
    tables.content(&area).is_some()
}

fn has_key(tables: &Tables, key: &Key) -> bool
    ensures { result ≡ is_some (row_at tables.now key.now) }
{
    match key {
        Key::Gssb(name) => has_area(tables, Area::Gssb(*name)),
        Key::Tls(block, lterm) => has_area(tables, Area::Tls(*block, *lterm)),
        Key::Uls(block, user) => has_area(tables, Area::Uls(*block, *user)),
        Key::Service(id) => tables.service(*id).is_some(),
        Key::Job(number) => tables.job(*number).is_some(),
        Key::Shown(lterm) => tables.shown_at(*lterm).is_some(),
    }
}

/// Whether the change leaves another row in the tables than is there. It takes no memory.
pub fn is_real(tables: &Tables, change: &Change) -> bool
    ensures { result ≡ is_real tables.now change.now }
{
    match change {
        Change::Set(row) => !has_row(tables, row),
        Change::Remove(key) => has_key(tables, key),
    }
}
