//! Which of two copies counts, and which tables it keeps.
ghost use Rattle.std.specs.Prelude.{◌≡◌, ◌↔◌, ℕ, List, IsTrue, IfOk, IfSome, IsErrOf, None};
ghost use Rattle.kd_records.specs.Identity.{Identity};
ghost use Rattle.laws_of_states.specs.Suits.{Suits};
ghost use Rattle.kdcfile_double.specs.{Twice.{IsTwice, IsOpen, with_copies, sequence_of}, Opening.{KeepsTablesTwice, identity_twice}};
ghost use Rattle.kdcfile_double.specs.Choice.{IsChoice, IsCounted, IsLoadedIf, IsOfTwo, SuitsTwice, KeepsNoneTwice, KeepsOthersTwice};

use crate::alike::are_alike;
use crate::store::TwinStore;
use application_types::generation::Generation;
use device_acts::warm_start::{OpenError, limits_of};
use kdcfile_copies::{LoadedCopy, bare_content};
use kdcfile_store::StoreLimits;
use kdcs_types::Tables;
use record_codec::tables_of;
use std::alloc::Global;
use table_fit::suits;

/// These copies are in use, which are alike.
pub(crate) fn in_use(first: Option<LoadedCopy>, second: Option<LoadedCopy>) -> TwinStore
    requires { IsTwice (with_copies first second) }
    ensures { result ≡ with_copies first second }
{
    TwinStore {
        first,
        second,
        mended: None,
        lost: None,
    }
}

fn of_two(first: LoadedCopy, second: LoadedCopy) -> TwinStore
    requires first { IsLoadedIf (Some first) }
    requires second { IsLoadedIf (Some second) }
    ensures { IsOfTwo first second result }
{
    if first.sequence < second.sequence {
        return in_use(None, Some(second));
    }
    if are_alike(&first, &second) {
        in_use(Some(first), Some(second))
    } else {
        in_use(Some(first), None)
    }
}

/// The store of what was found in two files, where one is a copy.
pub(crate) fn chosen(first: Option<LoadedCopy>, second: Option<LoadedCopy>) -> Option<TwinStore>
    requires first { IsLoadedIf first }
    requires second { IsLoadedIf second }
    ensures some { IfSome result (λ s. IsChoice first second s) }
    ensures none { result ≡ None → (first ≡ None) × (second ≡ None) }
{
    match first {
        Some(copy) => match second {
            Some(other) => Some(of_two(copy, other)),
            None => Some(in_use(Some(copy), None)),
        },
        None => match second {
            Some(other) => Some(in_use(None, Some(other))),
            None => None,
        },
    }
}

// Whether tables from files with these limits suit the generation.
fn suits_twice(generation: &Generation, tables: &Tables, limits: StoreLimits) -> bool
    ensures { IsTrue result ↔ SuitsTwice generation.now limits tables.now }
{
    let own = limits_of(generation);
    limits.pgpool == own.pgpool + 1 && suits(generation, tables, limits.blksize, own.pgpool)
}

impl TwinStore {
    /// The copy that counts.
    fn counted(&self) -> &LoadedCopy
        requires { IsOpen self.now }
        ensures { IsCounted result.now self.now }
    {
        match &self.first {
            Some(copy) => copy,
            None => match &self.second {
                Some(copy) => copy,
                None => unreachable!(),
            },
        }
    }

    /// The sequence of the last commit.
    pub(crate) fn sequence(&self) -> u64
        requires { IsOpen self.now }
        ensures { result ≡ sequence_of self.now }
    {
        self.counted().sequence
    }

    /// The tables that are kept, where they are of the texts with this fingerprint and suit the generation.
    pub(crate) fn tables_for(
        &self,
        alloc: Global,
        generation: &Generation,
        fingerprint: &[u8; 32],
    ) -> Result<Tables, OpenError>
        requires { IsOpen self.now }
        ensures tables { IfOk result (λ t. KeepsTablesTwice (identity_twice generation.now fingerprint.now) self.now t) }
        ensures suits { IfOk result (λ t. Suits generation.now t) }
        ensures refused { IsErrOf result OpenError.NotKdcfile → KeepsNoneTwice generation.now fingerprint.now self.now }
        ensures other { (stored : List ℕ) → IsErrOf result (OpenError.OtherGeneration stored) → KeepsOthersTwice stored fingerprint.now self.now }
        ensures failed { IsErrOf result OpenError.Failed → ⊥ }
    {
        let copy = self.counted();
        let content = bare_content(alloc, &copy.store)?;
        let Some(tables) = tables_of(alloc, &content)? else {
            return Err(OpenError::NotKdcfile);
        };
        let stored = *copy.store.fingerprint();
        if stored != *fingerprint {
            return Err(OpenError::OtherGeneration(stored));
        }
        if !suits_twice(generation, &tables, copy.store.limits()) {
            return Err(OpenError::NotKdcfile);
        }
        Ok(tables)
    }
}
