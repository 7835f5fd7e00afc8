//! What the next run would do with the files of a BASE.
ghost use Rattle.std.specs.Prelude.{◌≡◌, [], List, ℕ, IfOk};
ghost use Rattle.kdcfile_store.specs.Paged.{HasFile};
ghost use Rattle.call_parts.specs.Asking.{gen_errand};
ghost use Rattle.carry_cli.specs.{Kinds.{NextOfOne, NextOfTwo}, Seeing.{IsSeen, IsSound, NextIs}};

use crate::kinds::{Next, Why};
use crate::seeing::Seen;
use crate::text_kinds::Texts;
use call_parts::Work;
use device_acts::warm_start::{OpenError, tables_in};
use kd_base::OutOfMemory;
use kdcfile_double::{TwinOpenError, opened};
use kdcfile_store::PagedStore;
use std::alloc::Global;

// What a run would do with one file that was loaded.
fn next_of_store(alloc: Global, work: &Work, store: &PagedStore) -> Result<Next, OutOfMemory>
    ensures { IfOk result (λ next. (bytes : List ℕ) → (bytes ≡ [] → ⊥) → HasFile store.now bytes → NextOfOne (gen_errand work.now) bytes next) }
{
    let generation = &work.application.generation;
    match tables_in(alloc, store, generation, &work.fingerprint) {
        Ok(_tables) => Ok(Next::GoesOn),
        Err(OpenError::NotKdcfile) => Ok(Next::Refuses(Why::NotKdcfile)),
        Err(OpenError::OtherGeneration(_)) => Ok(Next::Refuses(Why::OtherGeneration)),
        Err(OpenError::Failed) => unreachable!(),
        Err(OpenError::Memory) => Err(OutOfMemory),
    }
}

// What a run over one file would do with it.
fn next_of_one(alloc: Global, work: &Work, seen: &Seen) -> Result<Next, OutOfMemory>
    requires { IsSound seen.now }
    ensures { IfOk result (λ next. (bytes : List ℕ) → IsSeen seen.now bytes → NextOfOne (gen_errand work.now) bytes next) }
{
    match seen {
        Seen::Empty => Ok(Next::Makes),
        Seen::Single(store) => next_of_store(alloc, work, store),
        Seen::Copy(copy) => next_of_store(alloc, work, &copy.store),
        Seen::Shut => Ok(Next::Refuses(Why::NotKdcfile)),
        Seen::Foreign => Ok(Next::Refuses(Why::NotKdcfile)),
    }
}

// What a run over two files would do with them that are not both empty.
fn next_of_filled(
    alloc: Global,
    work: &Work,
    first: Seen,
    second: Seen,
) -> Result<Next, OutOfMemory>
    requires first { IsSound first }
    requires second { IsSound second }
    requires filled { (first ≡ Seen.Empty) × (second ≡ Seen.Empty) → ⊥ }
    ensures { IfOk result (λ next. (a b : List ℕ) → IsSeen first a → IsSeen second b → NextOfTwo (gen_errand work.now) a b next) }
{
    let generation = &work.application.generation;
    match opened(
        alloc,
        first.into_found(),
        second.into_found(),
        generation,
        &work.fingerprint,
    ) {
        Ok((_store, _tables)) => Ok(Next::GoesOn),
        Err(TwinOpenError::NotKdcfile) => Ok(Next::Refuses(Why::NotKdcfile)),
        Err(TwinOpenError::OtherGeneration(_)) => Ok(Next::Refuses(Why::OtherGeneration)),
        Err(TwinOpenError::Spent(_)) => Ok(Next::Refuses(Why::SequenceSpent)),
        Err(TwinOpenError::Failed) => unreachable!(),
        Err(TwinOpenError::Memory) => Err(OutOfMemory),
    }
}

// What a run over two files would do with them.
fn next_of_two(alloc: Global, work: &Work, first: Seen, second: Seen) -> Result<Next, OutOfMemory>
    requires first { IsSound first }
    requires second { IsSound second }
    ensures { IfOk result (λ next. (a b : List ℕ) → IsSeen first a → IsSeen second b → NextOfTwo (gen_errand work.now) a b next) }
{
    if first.is_empty() && second.is_empty() {
        return Ok(Next::Makes);
    }
    next_of_filled(alloc, work, first, second)
}

/// What the next run would do with files of which this was seen.
pub(crate) fn next_of(
    alloc: Global,
    texts: &Texts,
    first: Seen,
    second: Seen,
) -> Result<Next, OutOfMemory>
    requires first { IsSound first }
    requires second { IsSound second }
    ensures { IfOk result (λ next. (a b : List ℕ) → IsSeen first a → IsSeen second b → NextIs texts.now a b next) }
{
    match texts {
        Texts::Single(work) => next_of_one(alloc, work, &first),
        Texts::Double(work) => next_of_two(alloc, work, first, second),
        Texts::Refused => Ok(Next::Texts),
        Texts::Unread => Ok(Next::Texts),
    }
}
