//! How many pages the durable rows of tables take after changes, told by the changes alone.
//!
//! It stands on what a row is charged, on service_parts, which says what outlives a stop, and on the definitions of
//! laws_of_states. To synchronisation points and to the state of a monitor, its contract says that `charge_after` is
//! the sum over all durable rows after the changes, where the sum before them is known, and that `takes_more` is a test of
//! it. The law under it holds of any number that each row adds to a whole.
ghost use Rattle.std.specs.{Prelude.{◌≡◌, ◌+◌, ◌<◌, ◌^◌, IsTrue, length, nat_lt, option_copied, true}, Option.{option_map}, List.{list_all}};
ghost use Rattle.kd_records.specs.Charge.{IsBlockSize};
ghost use Rattle.kdcs_types.specs.Tables.{AreChanges, change_key, changed, row_at};
ghost use Rattle.laws_of_states.specs.DurableKeys.{key_is_durable};
ghost use Rattle.abstract_monitor.specs.{Charges.{total_charge}, Endings.{durable}};
ghost use Rattle.table_fit.specs.{Pages.{FitPool, is_short, leaves_short, row_charge}, Weights.{made_weight, replaced_weight, row_left, row_weight}};
ghost use Rattle.table_fit.specs.Lengths.{value_length};

use crate::{job_length, service_length, value_length};
use application_types::generation::Generation;
use kd_base::Bytes;
use kd_records::charge;
use kdcs_types::{Area, Change, Changes, Key, Row, Tables};
use service_parts::service_runs::is_durable;

// Whether a row with this key outlives a stop.
fn is_key_durable(generation: &Generation, key: Key) -> bool
    ensures { result ≡ key_is_durable generation.now key }
{
    match key {
        Key::Service(id) => is_durable(generation, id),
        Key::Gssb(_) | Key::Tls(_, _) | Key::Uls(_, _) | Key::Job(_) | Key::Shown(_) => true,
    }
}

// The pages of the row that the change makes.
fn made(generation: &Generation, change: &Change) -> u64
    requires { IsTrue (leaves_short generation.now change.now) }
    ensures { result ≡ row_weight (row_charge generation.now) (row_left change.now) }
{
    if !is_key_durable(generation, change.key()) {
        return 0;
    }
    match change {
        Change::Set(row) => charge(value_length(row), generation.max().blksize),
        Change::Remove(_) => 0,
    }
}

fn content_length(content: Option<&Bytes>) -> Option<u64>
    ensures { result ≡ option_map length (option_copied content.entry) }
{
    match content {
        Some(content) => Some(content.len() as u64),
        None => None,
    }
}

// How long the value at a key is, if there is one.
fn length_at(tables: &Tables, key: Key) -> Option<u64>
    requires { IsTrue (is_short (row_at tables.now key)) }
    ensures { result ≡ option_map value_length (row_at tables.now key) }
{
    match key {
        Key::Gssb(name) => content_length(tables.content(&Area::Gssb(name))),
        Key::Tls(block, lterm) => content_length(tables.content(&Area::Tls(block, lterm))),
        Key::Uls(block, user) => content_length(tables.content(&Area::Uls(block, user))),
        Key::Service(id) => match tables.service(id) {
            Some(service) => Some(service_length(service)),
            None => None,
        },
        Key::Job(number) => match tables.job(number) {
            Some(value) => Some(job_length(value)),
            None => None,
        },
        Key::Shown(lterm) => match tables.shown_at(lterm) {
            Some(value) => Some(job_length(value)),
            None => None,
        },
    }
}

// The pages of the row that is at the key of the change.
fn replaced(generation: &Generation, tables: &Tables, change: &Change) -> u64
    requires { key_is_durable generation.now (change_key change.now) ≡ true → IsTrue (is_short (row_at tables.now (change_key change.now))) }
    ensures { result ≡ row_weight (row_charge generation.now) (row_at tables.now (change_key change.now)) }
{
    if !is_key_durable(generation, change.key()) {
        return 0;
    }
    match length_at(tables, change.key()) {
        Some(length) => charge(length, generation.max().blksize),
        None => 0,
    }
}

// The pages of the rows that the changes make.
fn made_by(generation: &Generation, changes: &[Change]) -> u128
    requires { IsTrue (list_all (leaves_short generation.now) changes.now) }
    ensures sum { result ≡ made_weight (row_charge generation.now) changes.now }
    ensures few { result + 2 ^ 64 < 2 ^ 128 }
{
    let mut pages = 0;
    for change in changes {
        pages += u128::from(made(generation, change));
    }
    pages
}

// The pages of the rows that are at their keys. It costs a look-up for each change.
fn replaced_by(generation: &Generation, tables: &Tables, changes: &[Change]) -> u128
    requires { FitPool generation.now tables.now }
    ensures { result ≡ replaced_weight (row_charge generation.now) tables.now changes.now }
{
    let _limits = generation.max(); // for the proof
    let mut pages = 0;
    for change in changes {
        pages += u128::from(replaced(generation, tables, change));
    }
    pages
}

/// How many pages the durable rows take together after these changes, where they take `charge` before them, and no more
/// than the pool has. The rows that the changes make may take more than that. It costs a look-up for each change.
pub fn charge_after(
    generation: &Generation,
    tables: &Tables,
    changes: &Changes,
    charge: u64,
) -> u128
    requires changes { AreChanges changes.now.items }
    requires charge { charge ≡ total_charge generation.now.limits.blksize (durable generation.now tables.now) }
    requires fit { FitPool generation.now tables.now }
    requires short { IsTrue (list_all (leaves_short generation.now) changes.now.items) }
    ensures { result ≡ total_charge generation.now.limits.blksize (durable generation.now (changed tables.now changes.now)) }
{
    let _clock = tables.clock(); // for the proof
    let items = changes.items.as_slice();
    u128::from(charge) + made_by(generation, items) - replaced_by(generation, tables, items)
}

/// Whether the durable rows take more than so many pages after these changes, where they take `charge` before them. Nothing
/// is looked up where there is room for all that the changes make.
pub fn takes_more(
    generation: &Generation,
    tables: &Tables,
    changes: &Changes,
    charge: u64,
    pages: u32,
) -> bool
    requires changes { AreChanges changes.now.items }
    requires charge { charge ≡ total_charge generation.now.limits.blksize (durable generation.now tables.now) }
    requires fit { FitPool generation.now tables.now }
    requires short { IsTrue (list_all (leaves_short generation.now) changes.now.items) }
    ensures { result ≡ nat_lt pages (total_charge generation.now.limits.blksize (durable generation.now (changed tables.now changes.now))) }
{
    let _clock = tables.clock(); // for the proof
    let most = u128::from(charge) + made_by(generation, changes.items.as_slice());
    most > u128::from(pages)
        && charge_after(generation, tables, changes, charge) > u128::from(pages)
}
