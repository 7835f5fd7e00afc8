//! The first file of two is opened, whatever its texts are, or keeps another content.
ghost use Rattle.std.specs.Prelude.{◌≡◌, ◌≤◌, ◌+◌, ℕ, List, IsTrue, IfOk, OnOk, OnErr, IsErrOf};
ghost use Rattle.kd_device.specs.{Device.{Rose, Frame, SameFaults, SameNames}, Rest.{Rests}};
ghost use Rattle.kd_device.specs.{Twin.{half_state, half_leaves, disk_of}, Apart.{IsSince}};
ghost use Rattle.kd_device.specs.declared.half.Half.TheVariants.{First, Second};
ghost use Rattle.kd_records.specs.{Charge.{total_charge}, Contents.{IsContent}, Identity.{IsIdentity}};
ghost use Rattle.kdcfile_layout.specs.Commit.{Either};
ghost use Rattle.kdcfile_store.specs.{Carried.{LeavesCarried, carry_most}, Kept.{IsKept}, Paged.{HasFile, identity_with}};
ghost use Rattle.kdcfile_copies.specs.Beside.{SameDisk, LeavesBeside, NoMore, OtherStays};
ghost use Rattle.device_acts.specs.Stands.{KeepsTables, StandsForNoTables, StandsForTables};
ghost use Rattle.kdcfile_double.specs.{Twice.{FrameBoth, NoneRose, RoseAt}, MakingLaws.{RestsBoth}, Mended.{BothRest}};

use device_acts::warm_start::{OpenError, open_any};
use kd_device::{DeviceError, Half, HalfDevice, HalfOrigin, Twin};
use kd_records::Content;
use kdcfile_store::{PagedStore, StoreLimits};
use kdcs_types::Tables;
use std::alloc::Global;
use std::marker::Brand;

fn open_on<T: Twin, O: HalfOrigin>(
    alloc: Global,
    twin: T,
    half: Half,
) -> (T, Result<(PagedStore, Tables), OpenError>)
    requires half { half ≡ O.half }
    requires since { IsSince O.half O.place (T.place twin) O.both (T.both twin) O.leaves (T.leaves twin) }
    ensures since { IsSince O.half O.place (T.place result.0) O.both (T.both result.0) O.leaves (T.leaves result.0) }
    ensures tables { IfOk result.1 (λ o. KeepsTables o.0.identity o.0 o.1) }
    ensures identity { IfOk result.1 (λ o. IsIdentity o.0.identity) }
    ensures content { IfOk result.1 (λ o. IsContent o.0.content) }
    ensures stands { IfOk result.1 (λ o. IsTrue (T.both twin).told → StandsForTables o.0.identity o.1 (half_state O.half (T.both twin)).holds) }
    ensures kept { IfOk result.1 (λ o. IsTrue (T.both twin).told → IsKept (HasFile o.0) (half_state O.half (T.both result.0)) (half_leaves O.half (T.leaves result.0))) }
    ensures none { IsErrOf result.1 OpenError.NotKdcfile → IsTrue (T.both twin).told → StandsForNoTables (half_state O.half (T.both twin)).holds }
    ensures rests { IsTrue (T.both twin).told → Rests (half_state O.half (T.both twin)) (half_state O.half (T.both result.0)) (half_leaves O.half (T.leaves twin)) (half_leaves O.half (T.leaves result.0)) }
    ensures failed { IsErrOf result.1 OpenError.Failed → Rose (half_state O.half (T.both twin)).disk_faults (half_state O.half (T.both result.0)).disk_faults }
    ensures fine { (IsErrOf result.1 OpenError.Failed → ⊥) → SameFaults (half_state O.half (T.both twin)) (half_state O.half (T.both result.0)) }
    ensures frame { Frame (half_state O.half (T.both twin)) (half_state O.half (T.both result.0)) }
    ensures names { SameNames (half_state O.half (T.both twin)) (half_state O.half (T.both result.0)) }
{
    let mut device: HalfDevice<T, O> = HalfDevice::new(twin, half);
    let opened = open_any(alloc, &mut device);
    (device.into_twin(), opened)
}

/// Opens the first file as a KDCFILE by itself, whatever its texts are. Both files stay as they are.
pub(crate) fn open_first<T: Twin>(
    alloc: Global,
    twin: &mut T,
) -> Result<(PagedStore, Tables), OpenError>
    ensures tables { IfOk result (λ o. KeepsTables o.0.identity o.0 o.1) }
    ensures identity { IfOk result (λ o. IsIdentity o.0.identity) }
    ensures content { IfOk result (λ o. IsContent o.0.content) }
    ensures stands { IfOk result (λ o. IsTrue (T.both twin.old).told → StandsForTables o.0.identity o.1 (T.both twin.old).first.holds) }
    ensures has { IfOk result (λ o. IsTrue (T.both twin.old).told → HasFile o.0 (T.both twin.old).first.holds) }
    ensures none { IsErrOf result OpenError.NotKdcfile → IsTrue (T.both twin.old).told → StandsForNoTables (T.both twin.old).first.holds }
    ensures rests { IsTrue (T.both twin.old).told → RestsBoth (T.both twin.old) (T.both twin.new) (T.leaves twin.old) (T.leaves twin.new) }
    ensures failed { IsErrOf result OpenError.Failed → RoseAt First (T.both twin.old) (T.both twin.new) }
    ensures fine { (IsErrOf result OpenError.Failed → ⊥) → NoneRose (T.both twin.old) (T.both twin.new) }
    ensures frame { FrameBoth (T.both twin.old) (T.both twin.new) }
{
    let (twin, opened) = open_on::<&mut T, Brand>(alloc, twin, Half::First);
    let _ = twin;
    opened
}

fn replace_on<T: Twin, O: HalfOrigin>(
    alloc: Global,
    twin: T,
    half: Half,
    store: &mut PagedStore,
    limits: &StoreLimits,
    fingerprint: &[u8; 32],
    content: Content,
) -> (T, Result<(), DeviceError>)
    requires half { half ≡ O.half }
    requires since { IsSince O.half O.place (T.place twin) O.both (T.both twin) O.leaves (T.leaves twin) }
    requires kept { IsTrue (T.both twin).told → IsKept (HasFile store.old) (half_state O.half (T.both twin)) (half_leaves O.half (T.leaves twin)) }
    requires identity { IsIdentity (identity_with limits.now fingerprint.now) }
    requires blksize { limits.now.blksize ≡ store.old.identity.blksize }
    requires pgpool { store.old.identity.pages ≤ limits.now.pgpool }
    requires content { IsContent content }
    requires charge_before { total_charge store.old.identity.blksize store.old.content.items ≤ store.old.identity.pages }
    requires charge_after { total_charge limits.now.blksize content.items ≤ limits.now.pgpool }
    ensures since { IsSince O.half O.place (T.place result.0) O.both (T.both result.0) O.leaves (T.leaves result.0) }
    ensures content { OnOk result.1 (store.new.content ≡ content) }
    ensures identity { OnOk result.1 (store.new.identity ≡ identity_with limits.now fingerprint.now) }
    ensures kept { OnOk result.1 (IsTrue (T.both twin).told → IsKept (HasFile store.new) (half_state O.half (T.both result.0)) (half_leaves O.half (T.leaves result.0))) }
    ensures sent { IsTrue (T.both twin).told → (T.both result.0).sent ≡ (T.both twin).sent }
    ensures any_moment { IsTrue (T.both twin).told → LeavesCarried store.old.identity store.old.content (identity_with limits.now fingerprint.now) content (half_state O.half (T.both twin)) (half_state O.half (T.both result.0)) (half_leaves O.half (T.leaves twin)) (half_leaves O.half (T.leaves result.0)) }
    ensures put_most { IsTrue (T.both twin).told → (half_state O.half (T.both result.0)).put ≤ (half_state O.half (T.both twin)).put + carry_most (identity_with limits.now fingerprint.now) content }
    ensures failed { IsErrOf result.1 DeviceError.Failed → Rose (half_state O.half (T.both twin)).disk_faults (half_state O.half (T.both result.0)).disk_faults }
    ensures fine { (IsErrOf result.1 DeviceError.Failed → ⊥) → SameFaults (half_state O.half (T.both twin)) (half_state O.half (T.both result.0)) }
    ensures frame { Frame (half_state O.half (T.both twin)) (half_state O.half (T.both result.0)) }
    ensures names { SameNames (half_state O.half (T.both twin)) (half_state O.half (T.both result.0)) }
{
    let mut device: HalfDevice<T, O> = HalfDevice::new(twin, half);
    let done = store.carry(alloc, &mut device, limits, fingerprint, content);
    (device.into_twin(), done)
}

/// Keeps another content in the first file, whole or not at all, as the file is made with these sizes and this fingerprint.
/// The second file stays as it is.
pub(crate) fn replace_first<T: Twin>(
    alloc: Global,
    twin: &mut T,
    store: &mut PagedStore,
    limits: &StoreLimits,
    fingerprint: &[u8; 32],
    content: Content,
) -> Result<(), DeviceError>
    requires kept { IsTrue (T.both twin.old).told → HasFile store.old (T.both twin.old).first.holds }
    requires at_rest { IsTrue (T.both twin.old).told → BothRest (T.both twin.old) (T.leaves twin.old) }
    requires identity { IsIdentity (identity_with limits.now fingerprint.now) }
    requires blksize { limits.now.blksize ≡ store.old.identity.blksize }
    requires pgpool { store.old.identity.pages ≤ limits.now.pgpool }
    requires content { IsContent content }
    requires charge_before { total_charge store.old.identity.blksize store.old.content.items ≤ store.old.identity.pages }
    requires charge_after { total_charge limits.now.blksize content.items ≤ limits.now.pgpool }
    ensures content { OnOk result (store.new.content ≡ content) }
    ensures identity { OnOk result (store.new.identity ≡ identity_with limits.now fingerprint.now) }
    ensures kept { OnOk result (IsTrue (T.both twin.old).told → IsKept (HasFile store.new) (half_state First (T.both twin.new)) (half_leaves First (T.leaves twin.new))) }
    ensures sent { IsTrue (T.both twin.old).told → (T.both twin.new).sent ≡ (T.both twin.old).sent }
    ensures any_moment { IsTrue (T.both twin.old).told → LeavesBeside First (T.both twin.old) (T.both twin.new) (T.leaves twin.old) (T.leaves twin.new) (Either store.old.identity store.old.content (identity_with limits.now fingerprint.now) content (T.both twin.old).sent) }
    ensures put_most { IsTrue (T.both twin.old).told → (T.both twin.new).first.put ≤ (T.both twin.old).first.put + carry_most (identity_with limits.now fingerprint.now) content }
    ensures other_half { SameDisk Second (T.both twin.old) (T.both twin.new) }
    ensures other_stays { IsTrue (T.both twin.old).told → OtherStays First (T.both twin.old) (T.both twin.new) (T.leaves twin.old) (T.leaves twin.new) }
    ensures failed { IsErrOf result DeviceError.Failed → RoseAt First (T.both twin.old) (T.both twin.new) }
    ensures fine { (IsErrOf result DeviceError.Failed → ⊥) → NoneRose (T.both twin.old) (T.both twin.new) }
    ensures frame { FrameBoth (T.both twin.old) (T.both twin.new) }
{
    let (_, done) = replace_on::<&mut T, Brand>(
        alloc,
        twin,
        Half::First,
        store,
        limits,
        fingerprint,
        content,
    );
    done
}
