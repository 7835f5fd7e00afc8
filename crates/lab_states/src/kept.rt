//! What an open transaction has kept so far.
ghost use Rattle.std.specs.Prelude.{◌≡◌, IfOk, map, true};
ghost use Rattle.open_transaction.specs.Transactions.{transaction_of};
ghost use Rattle.service_ends.specs.Standing.{active_of};
ghost use Rattle.lab_states.specs.Outlines.{kept_now};

use crate::same::{Same, all_same};
use kd_base::sorted_pairs::OrderedMap;
use kd_base::{Name, OutOfMemory, Sequence};
use kdcs_types::{Note, Notes, Parts, Service, ServiceId};
use open_transaction::OpenTransaction;
use std::alloc::Global;
use std::marker::Model;

/// What an open transaction has kept so far. Contracts see it as if the transaction ended here.
pub(crate) struct KeptSoFar {
    service: ServiceId,
    began: Option<Service>,
    first: Name,
    lterm: Name,
    inputs: Parts,
    notes: Notes,
    statements: u64,
}

impl Drop for KeptSoFar {
    fn drop(self) {
        let KeptSoFar {
            service,
            began,
            first,
            lterm,
            inputs,
            notes,
            statements,
        } = self;
        let _ = service;
        let _ = began;
        let _ = first;
        let _ = lterm;
        let _ = inputs;
        let _ = notes;
        let _ = statements;
    }
}

impl Model for KeptSoFar {
    ghost use Rattle.std.specs.Prelude.{◌∷◌};
    ghost use Rattle.kdcs_types.specs.declared.service.Settled.{Settled};
    ghost use Rattle.kdcs_types.specs.declared.service.Ending.TheVariants.{Synced};

    ghost Value = { Settled };

    ghost view = { λ k. record { service = k.service; began = k.began; inputs = k.first ∷ k.lterm ∷ k.inputs; notes = k.notes; statements = k.statements; ending = Synced } };
}

fn copy_of(note: &Note) -> Result<Note, OutOfMemory>
    ensures { IfOk result (λ copy. copy ≡ note.now) }
{
    match note {
        Note::Released(area, content) => Ok(Note::Released(*area, content.clone()?)),
        Note::Refused(area, code) => Ok(Note::Refused(*area, *code)),
    }
}

fn copies_of(alloc: Global, notes: &[Note]) -> Result<Notes, OutOfMemory>
    ensures { IfOk result (λ copies. copies ≡ notes.now) }
{
    let mut copies = Notes::new(alloc);
    for note in notes {
        copies.push(copy_of(note)?)?;
    }
    Ok(copies)
}

impl KeptSoFar {
    /// Of the open transaction of this service.
    pub(crate) fn of(
        alloc: Global,
        id: ServiceId,
        transaction: &OpenTransaction,
    ) -> Result<KeptSoFar, OutOfMemory>
        ensures { IfOk result (λ kept. kept ≡ kept_now (id, transaction_of transaction.now)) }
    {
        Ok(KeptSoFar {
            service: id,
            began: transaction.began.clone()?,
            first: transaction.first,
            lterm: transaction.lterm,
            inputs: transaction.inputs.clone()?,
            notes: copies_of(alloc, transaction.notes.as_slice())?,
            statements: transaction.statements,
        })
    }

    fn statements(&self) -> u64
        ensures { result ≡ self.now.statements }
    {
        self.statements
    }
}

/// Of each open transaction, in the order of their services.
pub(crate) fn kept_in(
    alloc: Global,
    active: &OrderedMap<ServiceId, Box<OpenTransaction>>,
) -> Result<Sequence<KeptSoFar>, OutOfMemory>
    ensures { IfOk result (λ kept. kept ≡ map kept_now (active_of active.now)) }
{
    let mut kept = Sequence::new(alloc);
    for (id, transaction) in active.iter() {
        kept.push(KeptSoFar::of(alloc, *id, transaction)?)?;
    }
    Ok(kept)
}

/// Whether the transactions have done the same numbers of statements, one after another.
pub(crate) fn have_same_counts(a: &[KeptSoFar], b: &[KeptSoFar]) -> bool
    ensures { result ≡ true → map (λ k. k.statements) a.now ≡ map (λ k. k.statements) b.now }
{
    if a.len() != b.len() {
        return false;
    }
    for at in 0..a.len() {
        if a[at].statements() != b[at].statements() {
            return false;
        }
    }
    true
}

impl Same for KeptSoFar {
    fn is_same(&self, other: &KeptSoFar) -> bool {
        self.statements == other.statements
            && self.service.is_same(&other.service)
            && self.first.is_same(&other.first)
            && self.lterm.is_same(&other.lterm)
            && all_same(self.notes.as_slice(), other.notes.as_slice())
            && all_same(self.inputs.as_slice(), other.inputs.as_slice())
            && self.began.is_same(&other.began)
    }
}
