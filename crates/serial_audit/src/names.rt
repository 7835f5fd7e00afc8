//! What a record must say before it is replayed.
ghost use Rattle.std.specs.{Prelude.{◌≡◌, ◌↔◌, IfNone, IfSome, IsTrue, false}, List.{list_all}};
ghost use Rattle.abstract_monitor.specs.{Endings.{is_asynchronous}, Statements.{kept_of}};
ghost use Rattle.laws_of_states.specs.{Replay.{lterm_in, tac_in}, Suits.{fits_message, has_kind, is_lterm}};
ghost use Rattle.serial_audit.specs.Audit.{BeginsRightly, HasShortItems, has_user, note_fits};

use crate::replay::accepted;
use application_types::generation::Generation;
use kd_base::{Bytes, LONGEST_CONTENT, Name};
use kdcs_types::{Note, Service, ServiceId, Settled};

/// The names with which the inputs of a record begin.
#[derive(Clone, Copy)]
pub(crate) struct Names {
    pub(crate) tac: Name,
    pub(crate) lterm: Name,
}

fn is_asynchronous(id: ServiceId) -> bool
    ensures { result ≡ is_asynchronous id }
{
    matches!(id, ServiceId::Asynchronous(_))
}

/// The user of a dialogue service is the generation's.
pub(crate) fn has_user(generation: &Generation, id: ServiceId) -> bool
    ensures { result ≡ has_user generation.now id }
{
    match id {
        ServiceId::Dialogue(user) => generation.user(user).is_some(),
        ServiceId::Asynchronous(_) => true,
    }
}

// A TAC of this kind of service.
fn tac_in(generation: &Generation, bytes: &Bytes, asynchronous: bool) -> Option<Name>
    ensures some { IfSome result (λ tac. (tac ≡ bytes.now) × IsTrue (has_kind generation.now bytes.now asynchronous)) }
    ensures none { IfNone result (has_kind generation.now bytes.now asynchronous ≡ false) }
{
    let _limits = generation.max(); // for the proof
    let tac = Name::from_bytes(bytes.as_slice())?;
    match generation.tac(tac) {
        Some(entry) if entry.asynchronous == asynchronous => Some(tac),
        _ => None,
    }
}

// An LTERM of the generation.
fn lterm_in(generation: &Generation, bytes: &Bytes) -> Option<Name>
    ensures some { IfSome result (λ lterm. (lterm ≡ bytes.now) × IsTrue (is_lterm generation.now bytes.now)) }
    ensures none { IfNone result (is_lterm generation.now bytes.now ≡ false) }
{
    let _limits = generation.max(); // for the proof
    let lterm = Name::from_bytes(bytes.as_slice())?;
    generation.lterm(lterm)?;
    Some(lterm)
}

// The first TAC of the row with which the service began, if there is one.
fn is_first_of(began: &Option<Service>, tac: Name) -> bool
    ensures { IsTrue result ↔ IfSome began.now (λ row. row.first ≡ tac) }
{
    match began {
        Some(row) => row.first == tac,
        None => true,
    }
}

/// The names with which the inputs of a record begin, if they begin rightly.
pub(crate) fn names_in(generation: &Generation, record: &Settled) -> Option<Names>
    ensures some { IfSome result (λ names. BeginsRightly generation.now (kept_of record.now) × ((names.tac ≡ tac_in (kept_of record.now)) × (names.lterm ≡ lterm_in (kept_of record.now)))) }
    ensures none { IfNone result (BeginsRightly generation.now (kept_of record.now) → ⊥) }
{
    let inputs = record.inputs.as_slice();
    if inputs.len() < 2 {
        return None;
    }
    let tac = tac_in(generation, &inputs[0], is_asynchronous(record.service))?;
    let lterm = lterm_in(generation, &inputs[1])?;
    if is_first_of(&record.began, tac) {
        Some(Names { tac, lterm })
    } else {
        None
    }
}

fn note_fits(note: &Note) -> bool
    ensures { result ≡ note_fits note.now }
{
    match note {
        Note::Released(_, Some(content)) => content.len() <= LONGEST_CONTENT,
        Note::Released(_, None) | Note::Refused(..) => true,
    }
}

fn notes_fit(notes: &[Note]) -> bool
    ensures { result ≡ list_all note_fits notes.now }
{
    notes.iter().all(|note| note_fits(note))
}

fn fits_message(generation: &Generation, input: &Bytes) -> bool
    ensures { result ≡ fits_message generation.now input.now }
{
    input.len() as u64 <= u64::from(generation.max().nb)
}

fn inputs_fit(generation: &Generation, inputs: &[Bytes]) -> bool
    ensures { result ≡ list_all (fits_message generation.now) inputs.now }
{
    inputs.iter().all(|input| fits_message(generation, input))
}

/// No accepted input is longer than NB, and no content in a note than an area's may be.
pub(crate) fn has_short_items(generation: &Generation, record: &Settled) -> bool
    requires { BeginsRightly generation.now (kept_of record.now) }
    ensures { IsTrue result ↔ HasShortItems generation.now (kept_of record.now) }
{
    inputs_fit(generation, accepted(record)) && notes_fit(record.notes.as_slice())
}
