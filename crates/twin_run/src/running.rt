//! A run over two copies: the line of the one that was mended, its acts, and the line of the one that is lost.
ghost use Rattle.std.specs.Prelude.{◌≡◌, ◌≤◌, ◌+◌, ◌^◌, List, ℕ, true, IsTrue, IfOk, OnOk, IsErrOf, sum_by};
ghost use Rattle.laws_of_states.specs.Keeping.{IsScriptOf};
ghost use Rattle.abstract_monitor.specs.{Commands.{acts_of}, Trace.{history}};
ghost use Rattle.kdcs_types.specs.Tables.{TableRows};
ghost use Rattle.kdcfile_store.specs.Paged.{identity_with};
ghost use Rattle.monitor_core.specs.CoreSteps.{durable_of, turns_of};
ghost use Rattle.device_acts.specs.Acting.{commits_nothing};
ghost use Rattle.kdcfile_double.specs.{Opening.{KeepsTablesTwice}, Twice.{FineTwice, IsKeptTwice, IsOpen, IsTwice, identity_of}};
ghost use Rattle.twin_run.specs.{Keeping.{one_more}, Parts.{DidTwice, PartTwice}, Running.{FailsTwice, FrameTwice, IsRunningTwice, RanTwice, WithinTwice}};

use crate::keeper::{Start, TwinKeeper};
use crate::lines::{say_lost, say_mended};
use abstract_monitor::Command;
use device_acts::keep_acts;
use device_acts::warm_start::OpenError;
use device_run::run_with;
use kd_device::{DeviceError, Half, Twin};
use kdcfile_double::TwinStore;
use kdcfile_store::StoreLimits;
use kdcs_types::Act;
use monitor_core::Core;
use std::alloc::Global;
use std::marker::Brand;

// The lines, and which half is lost then.
fn send_on<T: Twin, S: Start>(
    alloc: Global,
    twin: T,
    store: TwinStore,
    limits: StoreLimits,
    fingerprint: &[u8; 32],
    acts: &[Act],
) -> (T, Result<Option<Half>, DeviceError>)
    requires place { T.place twin ≡ S.place }
    requires begins { S.both ≡ T.both twin }
    requires copies { S.store ≡ store }
    requires twice { IsTwice store }
    requires is_open { IsOpen store }
    requires identity { identity_of store ≡ one_more (identity_with limits fingerprint.now) }
    requires kept { IsTrue (T.both twin).told → IsKeptTwice store (T.both twin) (T.leaves twin) }
    requires lines { commits_nothing acts.now ≡ true }
    ensures place { T.place result.0 ≡ S.place }
    ensures frame { FrameTwice (T.both twin) (T.both result.0) }
    ensures any { (t : TableRows) → KeepsTablesTwice (identity_of store) store t → PartTwice (identity_of store) store t acts.now (T.both twin) (T.both result.0) (T.leaves twin) (T.leaves result.0) }
    ensures done { IfOk result.1 (λ half. IsTrue (T.both twin).told → (t : TableRows) → KeepsTablesTwice (identity_of store) store t → DidTwice (identity_of store) store t acts.now half (T.both twin) (T.both result.0) (T.leaves result.0)) }
    ensures failed { IsErrOf result.1 DeviceError.Failed → FailsTwice store (T.both twin) (T.both result.0) }
    ensures fine { (IsErrOf result.1 DeviceError.Failed → ⊥) → FineTwice store (T.both twin) (T.both result.0) }
{
    let mut keeper: TwinKeeper<T, S> = TwinKeeper::new(twin, store, limits, fingerprint);
    let sent = keep_acts(alloc, &mut keeper, acts);
    let lost = keeper.lost();
    (keeper.into_twin(), sent.and(Ok(lost)))
}

// The lines between those of the copies, and which half is lost then.
fn send_between<T: Twin>(
    alloc: Global,
    twin: &mut T,
    store: TwinStore,
    limits: StoreLimits,
    fingerprint: &[u8; 32],
    acts: &[Act],
) -> Result<Option<Half>, DeviceError>
    requires twice { IsTwice store }
    requires is_open { IsOpen store }
    requires identity { identity_of store ≡ one_more (identity_with limits fingerprint.now) }
    requires kept { IsTrue (T.both twin.old).told → IsKeptTwice store (T.both twin.old) (T.leaves twin.old) }
    requires lines { commits_nothing acts.now ≡ true }
    ensures frame { FrameTwice (T.both twin.old) (T.both twin.new) }
    ensures any { (t : TableRows) → KeepsTablesTwice (identity_of store) store t → PartTwice (identity_of store) store t acts.now (T.both twin.old) (T.both twin.new) (T.leaves twin.old) (T.leaves twin.new) }
    ensures done { IfOk result (λ half. IsTrue (T.both twin.old).told → (t : TableRows) → KeepsTablesTwice (identity_of store) store t → DidTwice (identity_of store) store t acts.now half (T.both twin.old) (T.both twin.new) (T.leaves twin.new)) }
    ensures failed { IsErrOf result DeviceError.Failed → FailsTwice store (T.both twin.old) (T.both twin.new) }
    ensures fine { (IsErrOf result DeviceError.Failed → ⊥) → FineTwice store (T.both twin.old) (T.both twin.new) }
{
    let (twin, lost) = send_on::<&mut T, Brand>(alloc, twin, store, limits, fingerprint, acts);
    let _ = twin;
    lost
}

/// Lines, over copies that are in use and were made with these limits, with one page more, and this fingerprint: first
/// which half was mended, and last which is lost. Nothing is written.
pub fn send_twice<T: Twin>(
    alloc: Global,
    twin: &mut T,
    store: TwinStore,
    limits: StoreLimits,
    fingerprint: &[u8; 32],
    acts: &[Act],
) -> Result<(), DeviceError>
    requires is_open { IsOpen store }
    requires identity { identity_of store ≡ one_more (identity_with limits fingerprint.now) }
    requires kept { IsTrue (T.both twin.old).told → IsKeptTwice store (T.both twin.old) (T.leaves twin.old) }
    requires lines { commits_nothing acts.now ≡ true }
    ensures any { (t : TableRows) → KeepsTablesTwice (identity_of store) store t → WithinTwice (identity_of store) store t acts.now (T.both twin.old) (T.both twin.new) (T.leaves twin.old) (T.leaves twin.new) }
    ensures done { OnOk result (IsTrue (T.both twin.old).told → (t : TableRows) → KeepsTablesTwice (identity_of store) store t → RanTwice (identity_of store) store t acts.now (T.both twin.old) (T.both twin.new) (T.leaves twin.new)) }
    ensures failed { IsErrOf result DeviceError.Failed → FailsTwice store (T.both twin.old) (T.both twin.new) }
    ensures fine { (IsErrOf result DeviceError.Failed → ⊥) → FineTwice store (T.both twin.old) (T.both twin.new) }
{
    store.copies_are_alike();
    say_mended(twin, store.mended())?;
    let lost = send_between(alloc, twin, store, limits, fingerprint, acts)?;
    say_lost(twin, lost)?;
    Ok(())
}

// The commands, and which half is lost then.
fn run_on<T: Twin, S: Start>(
    alloc: Global,
    twin: T,
    store: TwinStore,
    core: Core,
    limits: StoreLimits,
    fingerprint: &[u8; 32],
    commands: &[Command],
) -> (T, Result<Option<Half>, OpenError>)
    requires place { T.place twin ≡ S.place }
    requires begins { S.both ≡ T.both twin }
    requires copies { S.store ≡ store }
    requires twice { IsTwice store }
    requires is_open { IsOpen store }
    requires running { IsRunningTwice fingerprint.now core store }
    requires identity { identity_of store ≡ one_more (identity_with limits fingerprint.now) }
    requires names { IsScriptOf core.application commands.now }
    requires steps { core.steps + sum_by turns_of commands.now ≤ 10 ^ 18 }
    requires kept { IsTrue (T.both twin).told → IsKeptTwice store (T.both twin) (T.leaves twin) }
    ensures place { T.place result.0 ≡ S.place }
    ensures any { PartTwice (identity_of store) store (durable_of core) (acts_of (history core.application core.state commands.now)) (T.both twin) (T.both result.0) (T.leaves twin) (T.leaves result.0) }
    ensures done { IfOk result.1 (λ half. IsTrue (T.both twin).told → DidTwice (identity_of store) store (durable_of core) (acts_of (history core.application core.state commands.now)) half (T.both twin) (T.both result.0) (T.leaves result.0)) }
    ensures failed { IsErrOf result.1 OpenError.Failed → FailsTwice store (T.both twin) (T.both result.0) }
    ensures fine { (IsErrOf result.1 OpenError.Failed → ⊥) → FineTwice store (T.both twin) (T.both result.0) }
    ensures refused { IsErrOf result.1 OpenError.NotKdcfile → IsTrue (T.both twin).told → ⊥ }
    ensures other { (stored : List ℕ) → IsErrOf result.1 (OpenError.OtherGeneration stored) → IsTrue (T.both twin).told → ⊥ }
{
    let mut keeper: TwinKeeper<T, S> = TwinKeeper::new(twin, store, limits, fingerprint);
    let mut done = 0;
    let ran = run_with(alloc, &mut keeper, core, fingerprint, commands, &mut done);
    let lost = keeper.lost();
    (keeper.into_twin(), ran.and(Ok(lost)))
}

// The commands between the lines of the copies, and which half is lost then.
fn run_between<T: Twin>(
    alloc: Global,
    twin: &mut T,
    store: TwinStore,
    core: Core,
    limits: StoreLimits,
    fingerprint: &[u8; 32],
    commands: &[Command],
) -> Result<Option<Half>, OpenError>
    requires twice { IsTwice store }
    requires is_open { IsOpen store }
    requires running { IsRunningTwice fingerprint.now core store }
    requires identity { identity_of store ≡ one_more (identity_with limits fingerprint.now) }
    requires names { IsScriptOf core.application commands.now }
    requires steps { core.steps + sum_by turns_of commands.now ≤ 10 ^ 18 }
    requires kept { IsTrue (T.both twin.old).told → IsKeptTwice store (T.both twin.old) (T.leaves twin.old) }
    ensures any { PartTwice (identity_of store) store (durable_of core) (acts_of (history core.application core.state commands.now)) (T.both twin.old) (T.both twin.new) (T.leaves twin.old) (T.leaves twin.new) }
    ensures done { IfOk result (λ half. IsTrue (T.both twin.old).told → DidTwice (identity_of store) store (durable_of core) (acts_of (history core.application core.state commands.now)) half (T.both twin.old) (T.both twin.new) (T.leaves twin.new)) }
    ensures failed { IsErrOf result OpenError.Failed → FailsTwice store (T.both twin.old) (T.both twin.new) }
    ensures fine { (IsErrOf result OpenError.Failed → ⊥) → FineTwice store (T.both twin.old) (T.both twin.new) }
    ensures refused { IsErrOf result OpenError.NotKdcfile → IsTrue (T.both twin.old).told → ⊥ }
    ensures other { (stored : List ℕ) → IsErrOf result (OpenError.OtherGeneration stored) → IsTrue (T.both twin.old).told → ⊥ }
{
    let (twin, lost) = run_on::<&mut T, Brand>(
        alloc,
        twin,
        store,
        core,
        limits,
        fingerprint,
        commands,
    );
    let _ = twin;
    lost
}

/// The commands of a script in their order, from a core whose durable tables the copies keep; they were made with its
/// limits, with one page more, and with this fingerprint. Each act is done before the next turn or command. First comes
/// which half was mended, and last which is lost.
pub fn run_twice<T: Twin>(
    alloc: Global,
    twin: &mut T,
    store: TwinStore,
    core: Core,
    limits: StoreLimits,
    fingerprint: &[u8; 32],
    commands: &[Command],
) -> Result<(), OpenError>
    requires is_open { IsOpen store }
    requires running { IsRunningTwice fingerprint.now core store }
    requires identity { identity_of store ≡ one_more (identity_with limits fingerprint.now) }
    requires names { IsScriptOf core.application commands.now }
    requires steps { core.steps + sum_by turns_of commands.now ≤ 10 ^ 18 }
    requires kept { IsTrue (T.both twin.old).told → IsKeptTwice store (T.both twin.old) (T.leaves twin.old) }
    ensures any { WithinTwice (identity_of store) store (durable_of core) (acts_of (history core.application core.state commands.now)) (T.both twin.old) (T.both twin.new) (T.leaves twin.old) (T.leaves twin.new) }
    ensures done { OnOk result (IsTrue (T.both twin.old).told → RanTwice (identity_of store) store (durable_of core) (acts_of (history core.application core.state commands.now)) (T.both twin.old) (T.both twin.new) (T.leaves twin.new)) }
    ensures failed { IsErrOf result OpenError.Failed → FailsTwice store (T.both twin.old) (T.both twin.new) }
    ensures fine { (IsErrOf result OpenError.Failed → ⊥) → FineTwice store (T.both twin.old) (T.both twin.new) }
    ensures refused { IsErrOf result OpenError.NotKdcfile → IsTrue (T.both twin.old).told → ⊥ }
    ensures other { (stored : List ℕ) → IsErrOf result (OpenError.OtherGeneration stored) → IsTrue (T.both twin.old).told → ⊥ }
{
    store.copies_are_alike();
    say_mended(twin, store.mended())?;
    let lost = run_between(alloc, twin, store, core, limits, fingerprint, commands)?;
    say_lost(twin, lost)?;
    Ok(())
}
