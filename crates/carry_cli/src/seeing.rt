//! What a file is, read from a device, from a half of a twin, and from both.
ghost use Rattle.std.specs.Prelude.{◌≡◌, ◌⊎◌, ◌↔◌, ℕ, List, IsTrue, IfOk, IsErrOf, [], get_or, MatchOption, Some, None};
ghost use Rattle.kd_device.specs.{Device.{Rose, Frame, SameFaults, SameNames}, Rest.{Rests}};
ghost use Rattle.kd_device.specs.{declared.half.Half.TheVariants.{First, Second}, Twin.{half_leaves, half_state, other}, Apart.{IsSince}};
ghost use Rattle.kdcfile_copies.specs.{Beside.{SameDisk, LeavesBeside, NoMore, OtherStays}, Copies.{IsNoCopy}};
ghost use Rattle.kdcfile_double.specs.{MakingLaws.{RestsBoth}, Twice.{FrameBoth, NoneRose, RoseAt}};
ghost use Rattle.call_parts.specs.LeavingTwo.{FrameTwin, MayAttachTwo};
ghost use Rattle.carry_cli.specs.Seeing.{IsSeen, IsSound, copy_of, found_of};

use call_parts::attach_both;
use kd_device::{Device, DeviceError, Half, HalfDevice, HalfOrigin, Twin};
use kdcfile_copies::{Found, LoadedCopy, load_copy};
use kdcfile_store::{LoadError, PagedStore};
use std::alloc::Global;
use std::marker::Brand;

/// The gate of a file whose making or mending did not end.
const SHUT: u8 = 0;

/// A file as it was read.
#[derive(Drop)]
pub(crate) enum Seen {
    /// It has no bytes.
    Empty,
    /// Its making or its mending did not end.
    Shut,
    /// It has other bytes, which stand for nothing.
    Foreign,
    /// It has no sequence.
    Single(PagedStore),
    Copy(LoadedCopy),
}

impl Seen {
    /// The copy that it is.
    pub(crate) fn copy(&self) -> Option<&LoadedCopy>
        ensures { MatchOption result (copy_of self.now ≡ None) (λ c. copy_of self.now ≡ Some c.now) }
    {
        match self {
            Seen::Copy(copy) => Some(copy),
            Seen::Empty => None,
            Seen::Shut => None,
            Seen::Foreign => None,
            Seen::Single(_) => None,
        }
    }

    /// It has no bytes.
    pub(crate) fn is_empty(&self) -> bool
        ensures { IsTrue result ↔ (self.now ≡ Seen.Empty) }
    {
        match self {
            Seen::Empty => true,
            Seen::Shut => false,
            Seen::Foreign => false,
            Seen::Single(_) => false,
            Seen::Copy(_) => false,
        }
    }

    /// The same for who opens two copies.
    pub(crate) fn into_found(self) -> Found
        ensures { result ≡ found_of self }
    {
        match self {
            Seen::Empty => Found::Empty,
            Seen::Shut => Found::NoCopy,
            Seen::Foreign => Found::NoCopy,
            Seen::Single(_store) => Found::NoCopy,
            Seen::Copy(copy) => Found::Copy(copy),
        }
    }
}

// Whether a file that has bytes begins with the gate of one that is not finished.
fn has_shut_gate<D: Device>(device: &mut D) -> Result<bool, DeviceError>
    requires filled { IsTrue (D.state device.old).told → ((D.state device.old).holds ≡ [] → ⊥) }
    ensures gate { IfOk result (λ shut. IsTrue (D.state device.old).told → IsTrue shut ↔ (get_or (D.state device.old).holds 0 0 ≡ 0)) }
    ensures rests { IsTrue (D.state device.old).told → Rests (D.state device.old) (D.state device.new) (D.leaves device.old) (D.leaves device.new) }
    ensures failed { IsErrOf result DeviceError.Failed → Rose (D.state device.old).disk_faults (D.state device.new).disk_faults }
    ensures fine { (IsErrOf result DeviceError.Failed → ⊥) → SameFaults (D.state device.old) (D.state device.new) }
    ensures frame { Frame (D.state device.old) (D.state device.new) }
    ensures names { SameNames (D.state device.old) (D.state device.new) }
{
    let mut gate = [0];
    let _read = device.read_at(0, &mut gate)?;
    Ok(gate[0] == SHUT)
}

// What a file is that has bytes and is no copy.
fn see_other<D: Device>(alloc: Global, device: &mut D) -> Result<Seen, DeviceError>
    requires filled { IsTrue (D.state device.old).told → ((D.state device.old).holds ≡ [] → ⊥) }
    requires none { IsTrue (D.state device.old).told → IsNoCopy (D.state device.old).holds }
    ensures sound { IfOk result IsSound }
    ensures seen { IfOk result (λ s. IsTrue (D.state device.old).told → IsSeen s (D.state device.old).holds) }
    ensures rests { IsTrue (D.state device.old).told → Rests (D.state device.old) (D.state device.new) (D.leaves device.old) (D.leaves device.new) }
    ensures failed { IsErrOf result DeviceError.Failed → Rose (D.state device.old).disk_faults (D.state device.new).disk_faults }
    ensures fine { (IsErrOf result DeviceError.Failed → ⊥) → SameFaults (D.state device.old) (D.state device.new) }
    ensures frame { Frame (D.state device.old) (D.state device.new) }
    ensures names { SameNames (D.state device.old) (D.state device.new) }
{
    match PagedStore::load(alloc, device) {
        Ok(store) => Ok(Seen::Single(store)),
        Err(LoadError::NotKdcfile) => {
            let is_shut = has_shut_gate(device)?;
            if is_shut {
                Ok(Seen::Shut)
            } else {
                Ok(Seen::Foreign)
            }
        }
        Err(LoadError::Failed) => Err(DeviceError::Failed),
        Err(LoadError::Memory) => Err(DeviceError::Memory),
    }
}

// What the file is that the device has. It stays as it is, and what was pending is synced.
fn see<D: Device>(alloc: Global, device: &mut D) -> Result<Seen, DeviceError>
    ensures sound { IfOk result IsSound }
    ensures seen { IfOk result (λ s. IsTrue (D.state device.old).told → IsSeen s (D.state device.old).holds) }
    ensures rests { IsTrue (D.state device.old).told → Rests (D.state device.old) (D.state device.new) (D.leaves device.old) (D.leaves device.new) }
    ensures failed { IsErrOf result DeviceError.Failed → Rose (D.state device.old).disk_faults (D.state device.new).disk_faults }
    ensures fine { (IsErrOf result DeviceError.Failed → ⊥) → SameFaults (D.state device.old) (D.state device.new) }
    ensures frame { Frame (D.state device.old) (D.state device.new) }
    ensures names { SameNames (D.state device.old) (D.state device.new) }
{
    match load_copy(alloc, device)? {
        Found::Empty => Ok(Seen::Empty),
        Found::Copy(copy) => Ok(Seen::Copy(copy)),
        Found::NoCopy => see_other(alloc, device),
    }
}

fn see_on<T: Twin, O: HalfOrigin>(
    alloc: Global,
    twin: T,
    half: Half,
) -> (T, Result<Seen, DeviceError>)
    requires half { half ≡ O.half }
    requires since { IsSince O.half O.place (T.place twin) O.both (T.both twin) O.leaves (T.leaves twin) }
    ensures since { IsSince O.half O.place (T.place result.0) O.both (T.both result.0) O.leaves (T.leaves result.0) }
    ensures sound { IfOk result.1 IsSound }
    ensures seen { IfOk result.1 (λ s. IsTrue (T.both twin).told → IsSeen s (half_state O.half (T.both twin)).holds) }
    ensures rests { IsTrue (T.both twin).told → Rests (half_state O.half (T.both twin)) (half_state O.half (T.both result.0)) (half_leaves O.half (T.leaves twin)) (half_leaves O.half (T.leaves result.0)) }
    ensures failed { IsErrOf result.1 DeviceError.Failed → Rose (half_state O.half (T.both twin)).disk_faults (half_state O.half (T.both result.0)).disk_faults }
    ensures fine { (IsErrOf result.1 DeviceError.Failed → ⊥) → SameFaults (half_state O.half (T.both twin)) (half_state O.half (T.both result.0)) }
    ensures frame { Frame (half_state O.half (T.both twin)) (half_state O.half (T.both result.0)) }
    ensures names { SameNames (half_state O.half (T.both twin)) (half_state O.half (T.both result.0)) }
{
    let mut device: HalfDevice<T, O> = HalfDevice::new(twin, half);
    let seen = see(alloc, &mut device);
    (device.into_twin(), seen)
}

// What the file of this half is.
fn see_half<T: Twin>(alloc: Global, twin: &mut T, half: Half) -> Result<Seen, DeviceError>
    ensures sound { IfOk result IsSound }
    ensures seen { IfOk result (λ s. IsTrue (T.both twin.old).told → IsSeen s (half_state half (T.both twin.old)).holds) }
    ensures rests { IsTrue (T.both twin.old).told → Rests (half_state half (T.both twin.old)) (half_state half (T.both twin.new)) (half_leaves half (T.leaves twin.old)) (half_leaves half (T.leaves twin.new)) }
    ensures any_moment { IsTrue (T.both twin.old).told → LeavesBeside half (T.both twin.old) (T.both twin.new) (T.leaves twin.old) (T.leaves twin.new) NoMore }
    ensures other_half { SameDisk (other half) (T.both twin.old) (T.both twin.new) }
    ensures other_stays { IsTrue (T.both twin.old).told → OtherStays half (T.both twin.old) (T.both twin.new) (T.leaves twin.old) (T.leaves twin.new) }
    ensures failed { IsErrOf result DeviceError.Failed → Rose (half_state half (T.both twin.old)).disk_faults (half_state half (T.both twin.new)).disk_faults }
    ensures fine { (IsErrOf result DeviceError.Failed → ⊥) → SameFaults (half_state half (T.both twin.old)) (half_state half (T.both twin.new)) }
    ensures frame { Frame (half_state half (T.both twin.old)) (half_state half (T.both twin.new)) }
    ensures names { SameNames (half_state half (T.both twin.old)) (half_state half (T.both twin.new)) }
{
    let (twin, seen) = see_on::<&mut T, Brand>(alloc, twin, half);
    let _ = twin;
    seen
}

// What both files are.
fn see_both<T: Twin>(alloc: Global, twin: &mut T) -> Result<(Seen, Seen), DeviceError>
    ensures first { IfOk result (λ o. IsSound o.0) }
    ensures second { IfOk result (λ o. IsSound o.1) }
    ensures first_seen { IfOk result (λ o. IsTrue (T.both twin.old).told → IsSeen o.0 (T.both twin.old).first.holds) }
    ensures second_seen { IfOk result (λ o. IsTrue (T.both twin.old).told → IsSeen o.1 (T.both twin.old).second.holds) }
    ensures rests { IsTrue (T.both twin.old).told → RestsBoth (T.both twin.old) (T.both twin.new) (T.leaves twin.old) (T.leaves twin.new) }
    ensures failed { IsErrOf result DeviceError.Failed → RoseAt First (T.both twin.old) (T.both twin.new) ⊎ RoseAt Second (T.both twin.old) (T.both twin.new) }
    ensures fine { (IsErrOf result DeviceError.Failed → ⊥) → NoneRose (T.both twin.old) (T.both twin.new) }
    ensures frame { FrameBoth (T.both twin.old) (T.both twin.new) }
{
    let first = see_half(alloc, twin, Half::First)?;
    let second = see_half(alloc, twin, Half::Second)?;
    Ok((first, second))
}

/// Attaches both files of this BASE, and tells what they are. They stay as they are.
pub(crate) fn look<T: Twin>(
    alloc: Global,
    twin: &mut T,
    base: &[u8],
) -> Result<(Seen, Seen), DeviceError>
    ensures first { IfOk result (λ o. IsSound o.0) }
    ensures second { IfOk result (λ o. IsSound o.1) }
    ensures first_seen { IfOk result (λ o. IsTrue (T.both twin.old).told → IsSeen o.0 (T.both twin.old).first.holds) }
    ensures second_seen { IfOk result (λ o. IsTrue (T.both twin.old).told → IsSeen o.1 (T.both twin.old).second.holds) }
    ensures rests { IsTrue (T.both twin.old).told → RestsBoth (T.both twin.old) (T.both twin.new) (T.leaves twin.old) (T.leaves twin.new) }
    ensures names { IsTrue (T.both twin.old).told → MayAttachTwo base.now (T.both twin.old) (T.both twin.new) }
    ensures failed { IsErrOf result DeviceError.Failed → RoseAt First (T.both twin.old) (T.both twin.new) ⊎ RoseAt Second (T.both twin.old) (T.both twin.new) }
    ensures fine { (IsErrOf result DeviceError.Failed → ⊥) → NoneRose (T.both twin.old) (T.both twin.new) }
    ensures frame { FrameTwin (T.both twin.old) (T.both twin.new) }
{
    attach_both(alloc, twin, base)?;
    let (first, second) = see_both(alloc, twin)?;
    Ok((first, second))
}
