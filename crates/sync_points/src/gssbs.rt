//! How many GSSBs there are after changes.
ghost use Rattle.std.specs.Prelude.{◌≡◌, length, nat_lt};
ghost use Rattle.kdcs_types.specs.Tables.{AreChanges, IsSortedTables, change_key, row_at, with_changes};
ghost use Rattle.table_fit.specs.Weights.{row_left, row_weight};
ghost use Rattle.sync_points.specs.Refusals.{gssb_weight};

use kdcs_types::{Area, Change, Key, Row, RowChanges, Tables};

// 1 where the change makes a GSSB's row.
fn made(change: &Change) -> u64
    ensures { result ≡ row_weight gssb_weight (row_left change.now) }
{
    match change {
        Change::Set(Row::Gssb(_, _)) => 1,
        _ => 0,
    }
}

// 1 where a GSSB's row is at the key of the change.
fn replaced(tables: &Tables, change: &Change) -> u64
    ensures { result ≡ row_weight gssb_weight (row_at tables.now (change_key change.now)) }
{
    match change.key() {
        Key::Gssb(name) => match tables.content(&Area::Gssb(name)) {
            Some(_) => 1,
            None => 0,
        },
        _ => 0,
    }
}

/// More GSSBs than `limit` would be there after these changes. It costs a look-up for each change.
pub(crate) fn has_too_many_gssbs(tables: &Tables, changes: &RowChanges, limit: u32) -> bool
    requires sorted { IsSortedTables tables.now }
    requires changes { AreChanges changes.now }
    ensures { result ≡ nat_lt limit (length (with_changes tables.now changes.now).gssbs) }
{
    let mut after = tables.gssbs().len() as u64;
    let mut allowed = u64::from(limit);
    for change in changes.as_slice() {
        after += made(change);
        allowed += replaced(tables, change);
    }
    after > allowed
}
