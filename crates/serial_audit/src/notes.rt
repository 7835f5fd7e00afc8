//! The notes of a record, area by area.
ghost use Rattle.std.specs.Prelude.{◌≡◌, ◌∷◌, [], ◌↔◌, IfNone, IfSome, IsTrue, length, option_copied};
ghost use Rattle.kdcs_types.specs.declared.key.Area.{Area as OfArea};
ghost use Rattle.abstract_monitor.specs.Statements.{kept_of};
ghost use Rattle.laws_of_states.specs.Replay.{first_unused, noted_area, notes_on};
ghost use Rattle.open_transaction.specs.Transactions.{transaction_of};
ghost use Rattle.serial_audit.specs.Notes.{SameOnEach};

use kd_base::Bytes;
use kdcs_types::{Area, Code, Note, Settled};
use open_transaction::OpenTransaction;

/// A note, and those behind it.
#[derive(Clone, Copy)]
struct Found<'a> {
    note: &'a Note,
    behind: &'a [Note],
}

fn noted_area(note: &Note) -> Area
    ensures { result ≡ noted_area note.now }
{
    match note {
        Note::Released(area, _) | Note::Refused(area, _) => *area,
    }
}

// The first of these notes that is on the area.
fn next_on<'a>(notes: &'a [Note], area: &Area) -> Option<Found<'a>>
    ensures found { IfSome result (λ found. notes_on area.now notes.now ≡ found.note.now ∷ notes_on area.now found.behind.now) }
    ensures none { IfNone result (notes_on area.now notes.now ≡ []) }
{
    let mut rest = notes;
    while let Some((note, behind)) = rest.split_first() {
        if noted_area(note) == *area {
            return Some(Found { note, behind });
        }
        rest = behind;
    }
    None
}

// How many of these notes are on the area.
fn count_on(notes: &[Note], area: &Area) -> usize
    ensures { result ≡ length (notes_on area.now notes.now) }
{
    let mut count = 0;
    for note in notes {
        if noted_area(note) == *area {
            count += 1;
        }
    }
    count
}

/// The first note of a record on this area that its replay has not used.
pub(crate) fn first_unused<'a>(
    record: &'a Settled,
    transaction: &OpenTransaction,
    area: &Area,
) -> Option<&'a Note>
    ensures { option_copied result ≡ first_unused (kept_of record.now) (transaction_of transaction.now) area.now }
{
    let mut rest = record.notes.as_slice();
    for _ in 0..count_on(transaction.notes.as_slice(), area) {
        rest = next_on(rest, area)?.behind;
    }
    match next_on(rest, area) {
        Some(found) => Some(found.note),
        None => None,
    }
}

fn same_area(a: &Area, b: &Area) -> bool
    ensures { IsTrue result ↔ (a.now ≡ b.now) }
{
    a == b
}

fn same_content(a: &Option<Bytes>, b: &Option<Bytes>) -> bool
    ensures { IsTrue result ↔ (a.now ≡ b.now) }
{
    a == b
}

fn same_code(a: Code, b: Code) -> bool
    ensures { IsTrue result ↔ (a ≡ b) }
{
    a == b
}

fn same_note(a: &Note, b: &Note) -> bool
    ensures { IsTrue result ↔ (a.now ≡ b.now) }
{
    match (a, b) {
        (Note::Released(area, content), Note::Released(other, seen)) => {
            same_area(area, other) && same_content(content, seen)
        }
        (Note::Refused(area, code), Note::Refused(other, given)) => {
            same_area(area, other) && same_code(*code, *given)
        }
        _ => false,
    }
}

// On this area both have the same notes.
fn same_on(a: &[Note], b: &[Note], area: &Area) -> bool
    ensures { IsTrue result ↔ (notes_on area.now a.now ≡ notes_on area.now b.now) }
{
    let mut rest = b;
    for note in a {
        if noted_area(note) == *area {
            let Some(found) = next_on(rest, area) else {
                return false;
            };
            if !same_note(note, found.note) {
                return false;
            }
            rest = found.behind;
        }
    }
    next_on(rest, area).is_none()
}

// On the area of each of these notes both have the same notes.
fn same_on_each(notes: &[Note], a: &[Note], b: &[Note]) -> bool
    ensures { IsTrue result ↔ SameOnEach notes.now a.now b.now }
{
    for note in notes {
        if !same_on(a, b, &noted_area(note)) {
            return false;
        }
    }
    true
}

/// On every area both have the same notes.
pub(crate) fn same_notes(a: &[Note], b: &[Note]) -> bool
    ensures { IsTrue result ↔ ((area : OfArea) → notes_on area a.now ≡ notes_on area b.now) }
{
    same_on_each(a, a, b) && same_on_each(b, a, b)
}
