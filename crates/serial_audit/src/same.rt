//! Whether changes are the same.
ghost use Rattle.std.specs.{Prelude.{◌≡◌, ◌↔◌, ◌&&◌, IsTrue, bytes_eq}, Cmp.Lexicographic.{pointwise}};
ghost use Rattle.kdcs_types.specs.Same.{row_eq};
ghost use Rattle.serial_audit.specs.Same.{change_eq};

use kd_base::{Bytes, Name};
use kdcs_types::{Change, Changes, Ending, Row};
use sync_points::{same_service, same_value};

// Blocks of TLS or ULS: the name, the LTERM or user, and the content.
fn same_block(a: (Name, Name), content: &Bytes, b: (Name, Name), other: &Bytes) -> bool
    ensures { result ≡ (bytes_eq a.0 b.0 && (bytes_eq a.1 b.1 && bytes_eq content.now other.now)) }
{
    a.0 == b.0 && a.1 == b.1 && content == other
}

fn same_row(a: &Row, b: &Row) -> bool
    ensures { result ≡ row_eq a.now b.now }
{
    match (a, b) {
        (Row::Gssb(name, content), Row::Gssb(other, bytes)) => name == other && content == bytes,
        (Row::Tls(block, lterm, content), Row::Tls(other, owner, bytes)) => {
            same_block((*block, *lterm), content, (*other, *owner), bytes)
        }
        (Row::Uls(block, user, content), Row::Uls(other, owner, bytes)) => {
            same_block((*block, *user), content, (*other, *owner), bytes)
        }
        (Row::Service(id, service), Row::Service(other, row)) => {
            id == other && same_service(service, row)
        }
        (Row::Job(number, value), Row::Job(other, job)) => {
            number == other && same_value(value, job)
        }
        (Row::Shown(lterm, value), Row::Shown(other, job)) => {
            lterm == other && same_value(value, job)
        }
        _ => false,
    }
}

fn same_change(a: &Change, b: &Change) -> bool
    ensures { result ≡ change_eq a.now b.now }
{
    match (a, b) {
        (Change::Set(row), Change::Set(other)) => same_row(row, other),
        (Change::Remove(key), Change::Remove(other)) => key == other,
        _ => false,
    }
}

fn same_items(a: &[Change], b: &[Change]) -> bool
    ensures { result ≡ pointwise change_eq a.now b.now }
{
    let mut rest = b;
    for change in a {
        let Some((other, behind)) = rest.split_first() else {
            return false;
        };
        if !same_change(change, other) {
            return false;
        }
        rest = behind;
    }
    rest.is_empty()
}

/// Whether both are the same changes. It takes no memory.
pub(crate) fn same_changes(a: &Changes, b: &Changes) -> bool
    ensures { IsTrue result ↔ (a.now ≡ b.now) }
{
    a.clock == b.clock
        && a.next_job == b.next_job
        && same_items(a.items.as_slice(), b.items.as_slice())
}

/// Whether both transactions ended in the same way.
pub(crate) fn same_ending(a: Ending, b: Ending) -> bool
    ensures { IsTrue result ↔ (a ≡ b) }
{
    match (a, b) {
        (Ending::Synced, Ending::Synced) | (Ending::BrokenFr, Ending::BrokenFr) => true,
        (Ending::Broken(cause), Ending::Broken(other)) => cause == other,
        _ => false,
    }
}
