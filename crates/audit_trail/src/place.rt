//! Which line may stand in which place of a trail.
ghost use Rattle.std.specs.Prelude.{◌≡◌, ◌++◌, ◌∷◌, [], Some};
ghost use Rattle.kdcs_types.specs.{Keyed.{ascends}, Tables.{empty_tables, changed, change_key, AreChanges}};
ghost use Rattle.record_codec.specs.{Reads.{ReadsWhole}, TableReadings.{changes_of}};
ghost use Rattle.audit_trail.specs.{Facts.{IsOrdered}, Places.{with_next, with_fingerprint, with_start, with_commit, with_change, so_far, step, at_end}};

use crate::entry::{By, Trail, TrailEntries, TrailEntry};
use crate::fault::TrailFault;
use crate::line::Line;
use kdcs_types::{Change, Changes, RowChanges, Tables};
use record_codec::Unread;
use std::alloc::Global;

/// Where a line stands, with what the lines before it say.
#[derive(Drop)]
pub(crate) enum Place {
    /// The TRAIL line.
    First,
    /// The START line, after the fingerprint.
    Second([u8; 32]),
    /// An S line of the tables at the start, or what follows them.
    Rows([u8; 32], Changes),
    /// The C line of what made a commit.
    Made(Trail, By),
    /// An S or D line of an entry, or what follows it.
    Changing(Trail, TrailEntry),
    /// After the END line.
    Ended(Trail),
}

fn no_changes(alloc: Global, clock: u64, next_job: u64) -> Changes
    ensures { result ≡ changes_of clock next_job [] }
{
    Changes {
        clock,
        next_job,
        items: RowChanges::new(alloc),
    }
}

// Whether the key of a change is greater than the keys of those before it.
fn follows(changes: &Changes, next: &Change) -> bool
    requires { AreChanges changes.now.items }
    ensures { result ≡ ascends change_key (changes.now.items ++ next.now ∷ []) }
{
    let items = changes.items.as_slice();
    if items.is_empty() {
        return true;
    }
    items[items.len() - 1].key().cmp(&next.key()).is_lt()
}

// One change more.
fn with_next(mut changes: Changes, next: Change) -> Result<Changes, Unread>
    requires { AreChanges changes.items }
    ensures { ReadsWhole result (with_next changes next) }
{
    if !follows(&changes, &next) {
        return Err(Unread::NotThere);
    }
    changes.items.push(next)?;
    Ok(changes)
}

fn with_fingerprint(place: Place, fingerprint: [u8; 32]) -> Result<Place, Unread>
    ensures { ReadsWhole result (with_fingerprint place fingerprint) }
{
    match place {
        Place::First => Ok(Place::Second(fingerprint)),
        Place::Second(_) | Place::Rows(_, _) => Err(Unread::NotThere),
        Place::Made(_, _) | Place::Changing(_, _) | Place::Ended(_) => Err(Unread::NotThere),
    }
}

fn with_start(alloc: Global, place: Place, clock: u64, next_job: u64) -> Result<Place, Unread>
    ensures { ReadsWhole result (with_start place clock next_job) }
{
    match place {
        Place::Second(fingerprint) => {
            Ok(Place::Rows(fingerprint, no_changes(alloc, clock, next_job)))
        }
        Place::First | Place::Rows(_, _) => Err(Unread::NotThere),
        Place::Made(_, _) | Place::Changing(_, _) | Place::Ended(_) => Err(Unread::NotThere),
    }
}

fn with_commit(alloc: Global, place: Place, clock: u64, next_job: u64) -> Result<Place, Unread>
    ensures { ReadsWhole result (with_commit place clock next_job) }
{
    match place {
        Place::Made(trail, by) => {
            let changes = no_changes(alloc, clock, next_job);
            Ok(Place::Changing(trail, TrailEntry { by, changes }))
        }
        Place::First | Place::Second(_) | Place::Rows(_, _) => Err(Unread::NotThere),
        Place::Changing(_, _) | Place::Ended(_) => Err(Unread::NotThere),
    }
}

fn with_change(place: Place, change: Change) -> Result<Place, Unread>
    requires { IsOrdered place }
    ensures { ReadsWhole result (with_change place change) }
{
    match place {
        Place::Rows(fingerprint, start) => match change {
            Change::Set(row) => Ok(Place::Rows(fingerprint, with_next(start, Change::Set(row))?)),
            Change::Remove(_) => Err(Unread::NotThere),
        },
        Place::Changing(trail, entry) => {
            let changes = with_next(entry.changes, change)?;
            let by = entry.by;
            Ok(Place::Changing(trail, TrailEntry { by, changes }))
        }
        Place::First | Place::Second(_) => Err(Unread::NotThere),
        Place::Made(_, _) | Place::Ended(_) => Err(Unread::NotThere),
    }
}

fn tables_with(alloc: Global, start: &Changes) -> Result<Tables, Unread>
    requires { AreChanges start.now.items }
    ensures { ReadsWhole result (Some (changed empty_tables start.now)) }
{
    let mut tables = Tables::empty(alloc);
    tables.change(start)?;
    Ok(tables)
}

// The trail up to here, where an entry or the end may follow.
fn so_far(alloc: Global, place: Place) -> Result<Trail, Unread>
    requires { IsOrdered place }
    ensures { ReadsWhole result (so_far place) }
{
    match place {
        Place::Rows(fingerprint, start) => Ok(Trail {
            fingerprint,
            start: tables_with(alloc, &start)?,
            entries: TrailEntries::new(alloc),
        }),
        Place::Changing(mut trail, entry) => {
            trail.entries.push(entry)?;
            Ok(trail)
        }
        Place::First | Place::Second(_) => Err(Unread::NotThere),
        Place::Made(_, _) | Place::Ended(_) => Err(Unread::NotThere),
    }
}

/// The place after a line that may stand in this one.
pub(crate) fn step(alloc: Global, place: Place, line: Line) -> Result<Place, Unread>
    requires { IsOrdered place }
    ensures { ReadsWhole result (step place line) }
{
    match line {
        Line::Trail(fingerprint) => with_fingerprint(place, fingerprint),
        Line::Start(clock, next) => with_start(alloc, place, clock, next),
        Line::Made(by) => Ok(Place::Made(so_far(alloc, place)?, by)),
        Line::Commit(clock, next) => with_commit(alloc, place, clock, next),
        Line::Change(change) => with_change(place, change),
        Line::End => Ok(Place::Ended(so_far(alloc, place)?)),
    }
}

/// The trail, which is whole after its END line; the line after the last has this number.
pub(crate) fn at_end(place: Place, number: u64) -> Result<Trail, TrailFault>
    ensures { result ≡ at_end number place }
{
    match place {
        Place::Ended(trail) => Ok(trail),
        Place::First | Place::Second(_) | Place::Rows(_, _) => Err(TrailFault::BadLine(number)),
        Place::Made(_, _) | Place::Changing(_, _) => Err(TrailFault::BadLine(number)),
    }
}
