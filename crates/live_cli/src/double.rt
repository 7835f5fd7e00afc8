//! Typed lines over the two copies of a KDCFILE.
ghost use Rattle.std.specs.Prelude.{◌≡◌, List, ℕ, IsSome, IsTrue, IsErrOf};
ghost use Rattle.kd_device.specs.Device.{Rose};
ghost use Rattle.kdcfile_store.specs.Paged.{identity_with};
ghost use Rattle.application_types.specs.Fitted.{IsFit};
ghost use Rattle.laws_of_states.specs.Suits.{Suits};
ghost use Rattle.kdcfile_double.specs.{Opening.{KeepsTablesTwice}, Twice.{FineTwice, IsKeptTwice, IsOpen, IsTwice, identity_of}};
ghost use Rattle.twin_run.specs.{Keeping.{one_more}, Running.{FailsTwice, FrameTwice, IsRunningTwice}};
ghost use Rattle.call_parts.specs.Asking.{gen_errand};
ghost use Rattle.call_parts.specs.Opening.{identity_of_two};
ghost use Rattle.live_run.specs.Typing.{SameTyping};
ghost use Rattle.live_cli.specs.{EndsTwo.{DoesLiveTwo, EndsLiveTwo}, Living.{begun}, LivingTwo.{LivedPart, LivedTwice}};

use crate::error::SessionError;
use application_read::Application;
use call_parts::{Cause, Work, open_unless_missing, refuse_beside};
use device_acts::warm_start::limits_of;
use kd_device::{Half, Twin};
use kdcfile_double::TwinStore;
use kdcfile_store::StoreLimits;
use kdcs_types::Tables;
use live_run::{LiveError, Typing, live_with};
use monitor_core::Core;
use refusals::Status;
use std::alloc::Global;
use std::marker::Brand;
use twin_run::{Start, TwinKeeper, say_lost, say_mended};

// What is typed, and which half is lost then.
fn live_on<T: Twin, S: Start, I: Typing>(
    alloc: Global,
    twin: T,
    store: TwinStore,
    typing: &mut I,
    core: Core,
    limits: StoreLimits,
    fingerprint: &[u8; 32],
) -> (T, Result<Option<Half>, LiveError>)
    requires place { T.place twin ≡ S.place }
    requires begins { S.both ≡ T.both twin }
    requires copies { S.store ≡ store }
    requires twice { IsTwice store }
    requires is_open { IsOpen store }
    requires running { IsRunningTwice fingerprint.now core store }
    requires identity { identity_of store ≡ one_more (identity_with limits fingerprint.now) }
    requires kept { IsTrue (T.both twin).told → IsKeptTwice store (T.both twin) (T.leaves twin) }
    ensures place { T.place result.0 ≡ S.place }
    ensures frame { FrameTwice (T.both twin) (T.both result.0) }
    ensures lived { IsTrue (T.both twin).told → LivedPart (identity_of store) store core (I.typing typing.old) (T.both twin) (T.both result.0) (T.leaves twin) (T.leaves result.0) result.1 }
    ensures typing { SameTyping (I.typing typing.old) (I.typing typing.new) }
    ensures input { IsErrOf result.1 LiveError.Input → Rose (I.typing typing.old).faults (I.typing typing.new).faults }
    ensures heard { (IsErrOf result.1 LiveError.Input → ⊥) → (I.typing typing.new).faults ≡ (I.typing typing.old).faults }
    ensures failed { IsErrOf result.1 LiveError.Failed → FailsTwice store (T.both twin) (T.both result.0) }
    ensures fine { (IsErrOf result.1 LiveError.Failed → ⊥) → FineTwice store (T.both twin) (T.both result.0) }
    ensures refused { IsErrOf result.1 LiveError.NotKdcfile → IsTrue (T.both twin).told → ⊥ }
    ensures other { (stored : List ℕ) → IsErrOf result.1 (LiveError.OtherGeneration stored) → IsTrue (T.both twin).told → ⊥ }
{
    let mut keeper: TwinKeeper<T, S> = TwinKeeper::new(twin, store, limits, fingerprint);
    let ended = live_with(alloc, &mut keeper, typing, core, fingerprint);
    let lost = keeper.lost();
    (keeper.into_twin(), ended.and(Ok(lost)))
}

// What is typed, between the lines of the copies, and which half is lost then.
fn live_between<T: Twin, I: Typing>(
    alloc: Global,
    twin: &mut T,
    store: TwinStore,
    typing: &mut I,
    core: Core,
    limits: StoreLimits,
    fingerprint: &[u8; 32],
) -> Result<Option<Half>, LiveError>
    requires twice { IsTwice store }
    requires is_open { IsOpen store }
    requires running { IsRunningTwice fingerprint.now core store }
    requires identity { identity_of store ≡ one_more (identity_with limits fingerprint.now) }
    requires kept { IsTrue (T.both twin.old).told → IsKeptTwice store (T.both twin.old) (T.leaves twin.old) }
    ensures frame { FrameTwice (T.both twin.old) (T.both twin.new) }
    ensures lived { IsTrue (T.both twin.old).told → LivedPart (identity_of store) store core (I.typing typing.old) (T.both twin.old) (T.both twin.new) (T.leaves twin.old) (T.leaves twin.new) result }
    ensures typing { SameTyping (I.typing typing.old) (I.typing typing.new) }
    ensures input { IsErrOf result LiveError.Input → Rose (I.typing typing.old).faults (I.typing typing.new).faults }
    ensures heard { (IsErrOf result LiveError.Input → ⊥) → (I.typing typing.new).faults ≡ (I.typing typing.old).faults }
    ensures failed { IsErrOf result LiveError.Failed → FailsTwice store (T.both twin.old) (T.both twin.new) }
    ensures fine { (IsErrOf result LiveError.Failed → ⊥) → FineTwice store (T.both twin.old) (T.both twin.new) }
    ensures refused { IsErrOf result LiveError.NotKdcfile → IsTrue (T.both twin.old).told → ⊥ }
    ensures other { (stored : List ℕ) → IsErrOf result (LiveError.OtherGeneration stored) → IsTrue (T.both twin.old).told → ⊥ }
{
    let (twin, lost) = live_on::<&mut T, Brand, I>(
        alloc,
        twin,
        store,
        typing,
        core,
        limits,
        fingerprint,
    );
    let _ = twin;
    lost
}

/// Performs what is typed, from a core whose durable tables the copies keep; they were made with its limits, with one page
/// more, and with this fingerprint. First comes which half was mended, and last which is lost.
fn live_twice<T: Twin, I: Typing>(
    alloc: Global,
    twin: &mut T,
    store: TwinStore,
    typing: &mut I,
    core: Core,
    limits: StoreLimits,
    fingerprint: &[u8; 32],
) -> Result<(), LiveError>
    requires is_open { IsOpen store }
    requires running { IsRunningTwice fingerprint.now core store }
    requires identity { identity_of store ≡ one_more (identity_with limits fingerprint.now) }
    requires kept { IsTrue (T.both twin.old).told → IsKeptTwice store (T.both twin.old) (T.leaves twin.old) }
    ensures frame { FrameTwice (T.both twin.old) (T.both twin.new) }
    ensures lived { IsTrue (T.both twin.old).told → LivedTwice (identity_of store) store core (I.typing typing.old) (T.both twin.old) (T.both twin.new) (T.leaves twin.old) (T.leaves twin.new) result }
    ensures typing { SameTyping (I.typing typing.old) (I.typing typing.new) }
    ensures input { IsErrOf result LiveError.Input → Rose (I.typing typing.old).faults (I.typing typing.new).faults }
    ensures heard { (IsErrOf result LiveError.Input → ⊥) → (I.typing typing.new).faults ≡ (I.typing typing.old).faults }
    ensures failed { IsErrOf result LiveError.Failed → FailsTwice store (T.both twin.old) (T.both twin.new) }
    ensures fine { (IsErrOf result LiveError.Failed → ⊥) → FineTwice store (T.both twin.old) (T.both twin.new) }
    ensures refused { IsErrOf result LiveError.NotKdcfile → IsTrue (T.both twin.old).told → ⊥ }
    ensures other { (stored : List ℕ) → IsErrOf result (LiveError.OtherGeneration stored) → IsTrue (T.both twin.old).told → ⊥ }
{
    store.copies_are_alike();
    say_mended(twin, store.mended())?;
    let lost = live_between(alloc, twin, store, typing, core, limits, fingerprint)?;
    say_lost(twin, lost)?;
    Ok(())
}

/// Performs what is typed, from the tables of copies that were opened.
fn live_copies<T: Twin, I: Typing>(
    alloc: Global,
    twin: &mut T,
    store: TwinStore,
    tables: Tables,
    work: Work,
    typing: &mut I,
) -> Result<(), LiveError>
    requires fit { IsFit work.application.generation work.application.units }
    requires is_open { IsOpen store }
    requires tables { KeepsTablesTwice (identity_of_two (gen_errand work)) store tables }
    requires suits { Suits work.application.generation tables }
    requires kept { IsTrue (T.both twin.old).told → IsKeptTwice store (T.both twin.old) (T.leaves twin.old) }
    ensures frame { FrameTwice (T.both twin.old) (T.both twin.new) }
    ensures lived { IsTrue (T.both twin.old).told → LivedTwice (identity_of_two (gen_errand work)) store (begun (gen_errand work) tables) (I.typing typing.old) (T.both twin.old) (T.both twin.new) (T.leaves twin.old) (T.leaves twin.new) result }
    ensures typing { SameTyping (I.typing typing.old) (I.typing typing.new) }
    ensures input { IsErrOf result LiveError.Input → Rose (I.typing typing.old).faults (I.typing typing.new).faults }
    ensures heard { (IsErrOf result LiveError.Input → ⊥) → (I.typing typing.new).faults ≡ (I.typing typing.old).faults }
    ensures failed { IsErrOf result LiveError.Failed → FailsTwice store (T.both twin.old) (T.both twin.new) }
    ensures fine { (IsErrOf result LiveError.Failed → ⊥) → FineTwice store (T.both twin.old) (T.both twin.new) }
    ensures refused { IsErrOf result LiveError.NotKdcfile → IsTrue (T.both twin.old).told → ⊥ }
    ensures other { (stored : List ℕ) → IsErrOf result (LiveError.OtherGeneration stored) → IsTrue (T.both twin.old).told → ⊥ }
{
    let Work {
        application,
        fingerprint,
    } = work;
    let Application { generation, units } = application;
    let limits = limits_of(&generation);
    let core = Core::start(alloc, generation, units, tables)?;
    live_twice(alloc, twin, store, typing, core, limits, &fingerprint)
}

/// Performs what is typed, over the two files of this BASE, which are made where both are empty; unless one is missing, and
/// a copy is not taken alone.
fn over_copies<T: Twin, I: Typing>(
    alloc: Global,
    twin: &mut T,
    base: &[u8],
    alone: bool,
    work: Work,
    typing: &mut I,
) -> Result<(), SessionError>
    requires fit { IsFit work.application.generation work.application.units }
    requires double { IsSome work.application.generation.double }
    ensures { DoesLiveTwo (gen_errand work) base.now alone result (I.typing typing.old) (I.typing typing.new) (T.both twin.old) (T.both twin.new) (T.leaves twin.old) (T.leaves twin.new) }
{
    let generation = &work.application.generation;
    let (store, tables) = open_unless_missing(
        alloc,
        twin,
        base,
        generation,
        &work.fingerprint,
        alone,
    )?;
    Ok(live_copies(alloc, twin, store, tables, work, typing)?)
}

/// Performs what is typed over the two files of this BASE, each on its disk. One that is behind is mended first, which is
/// said, and the session goes on while one disk fails, which is said last. Where one is missing and a copy is not taken
/// alone, that is said, and nothing else is done.
pub(crate) fn double<T: Twin, I: Typing>(
    alloc: Global,
    twin: &mut T,
    base: &[u8],
    alone: bool,
    work: Work,
    typing: &mut I,
) -> Status
    requires fit { IsFit work.application.generation work.application.units }
    requires double { IsSome work.application.generation.double }
    ensures { EndsLiveTwo (gen_errand work) base.now alone (I.typing typing.old) (I.typing typing.new) (T.both twin.old) (T.both twin.new) (T.leaves twin.old) (T.leaves twin.new) result.code }
{
    match over_copies(alloc, twin, base, alone, work, typing) {
        Ok(()) => Status::DONE,
        Err(SessionError::Failed) => Status::DEVICE,
        Err(SessionError::Input) => Status::DEVICE,
        Err(SessionError::Memory) => Status::MEMORY,
        Err(SessionError::Missing(half)) => refuse_beside(alloc, twin, Cause::Missing(half)),
        Err(SessionError::Refused(why)) => refuse_beside(alloc, twin, Cause::Files(why)),
    }
}
