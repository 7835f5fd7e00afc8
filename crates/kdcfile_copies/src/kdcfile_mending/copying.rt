//! A half is copied over the other one.
ghost use Rattle.std.specs.Prelude.{◌≡◌, ◌≤◌, ◌<◌, ◌+◌, ◌^◌, ℕ, List, IsTrue, length, take, drop, get_or, min, OnOk, IsErrOf};
ghost use Rattle.kd_device.specs.Device.{Rose, Torn, Frame, SameDiskFaults, SameLineFaults, SameNames, written};
ghost use Rattle.kd_device.specs.Twin.{Both, other, disk_of, half_state};
ghost use Rattle.kdcfile_layout.specs.Gates.{IsShut};
ghost use Rattle.kdcfile_copies.specs.Mending.{HalfRests, BothRest, BeginsWith, IsMending, LeavesHalf, SameButFaults, Goes, Mends, HasShutGate, mending_most, opened};

use crate::kdcfile_mending::error::CopyError;
use crate::kdcfile_mending::gate::{OPEN, shut_gate};
use crate::kdcfile_mending::reading::{other_half, source_len, source_piece};
use crate::kdcfile_mending::synced::put_synced;
use kd_device::{Half, Twin};
use std::alloc::Global;

/// How many bytes are copied at once.
const PIECE: u64 = 1_048_576;

// Copies so many bytes to the same place of the target.
fn copy_piece<T: Twin>(
    alloc: Global,
    twin: &mut T,
    target: Half,
    at: u64,
    len: u64,
) -> Result<(), CopyError>
    requires inside { at + len < 2 ^ 64 }
    requires at_rest { IsTrue (T.both twin.old).told → BothRest (T.both twin.old) (T.leaves twin.old) }
    requires has { IsTrue (T.both twin.old).told → at + len ≤ length (disk_of (other target) (T.both twin.old)).holds }
    ensures failed_source { IsErrOf result CopyError.Source → Rose (disk_of (other target) (T.both twin.old)).disk_faults (disk_of (other target) (T.both twin.new)).disk_faults }
    ensures failed_target { IsErrOf result CopyError.Target → Rose (disk_of target (T.both twin.old)).disk_faults (disk_of target (T.both twin.new)).disk_faults }
    ensures fine_source { (IsErrOf result CopyError.Source → ⊥) → (disk_of (other target) (T.both twin.new)).disk_faults ≡ (disk_of (other target) (T.both twin.old)).disk_faults }
    ensures fine_target { (IsErrOf result CopyError.Target → ⊥) → (disk_of target (T.both twin.new)).disk_faults ≡ (disk_of target (T.both twin.old)).disk_faults }
    ensures goes { Goes target (T.both twin.old) (T.both twin.new) }
    ensures place { T.place twin.new ≡ T.place twin.old }
    ensures any_moment { IsTrue (T.both twin.old).told → Mends target (λ c. Torn (min at (length (disk_of target (T.both twin.old)).holds)) (at + len) (disk_of target (T.both twin.old)).holds c) (T.both twin.old) (T.both twin.new) (T.leaves twin.old) (T.leaves twin.new) }
    ensures put_most { IsTrue (T.both twin.old).told → (disk_of target (T.both twin.new)).put ≤ (disk_of target (T.both twin.old)).put + len }
    ensures holds { OnOk result (IsTrue (T.both twin.old).told → (disk_of target (T.both twin.new)).holds ≡ written (disk_of target (T.both twin.old)).holds at (take len (drop at (disk_of (other target) (T.both twin.old)).holds))) }
    ensures rest { OnOk result (IsTrue (T.both twin.old).told → BothRest (T.both twin.new) (T.leaves twin.new)) }
{
    let piece = source_piece(alloc, twin, target, at, len as usize)?;
    put_synced(twin, target, at, piece.as_slice())
}

// Copies all that is after the gate of the source.
fn copy_rest<T: Twin>(alloc: Global, twin: &mut T, target: Half) -> Result<(), CopyError>
    requires at_rest { IsTrue (T.both twin.old).told → BothRest (T.both twin.old) (T.leaves twin.old) }
    requires source { IsTrue (T.both twin.old).told → get_or (disk_of (other target) (T.both twin.old)).holds 0 0 ≡ 75 }
    requires shut { IsTrue (T.both twin.old).told → HasShutGate (disk_of target (T.both twin.old)).holds }
    ensures failed_source { IsErrOf result CopyError.Source → Rose (disk_of (other target) (T.both twin.old)).disk_faults (disk_of (other target) (T.both twin.new)).disk_faults }
    ensures failed_target { IsErrOf result CopyError.Target → Rose (disk_of target (T.both twin.old)).disk_faults (disk_of target (T.both twin.new)).disk_faults }
    ensures fine_source { (IsErrOf result CopyError.Source → ⊥) → (disk_of (other target) (T.both twin.new)).disk_faults ≡ (disk_of (other target) (T.both twin.old)).disk_faults }
    ensures fine_target { (IsErrOf result CopyError.Target → ⊥) → (disk_of target (T.both twin.new)).disk_faults ≡ (disk_of target (T.both twin.old)).disk_faults }
    ensures goes { Goes target (T.both twin.old) (T.both twin.new) }
    ensures place { T.place twin.new ≡ T.place twin.old }
    ensures any_moment { IsTrue (T.both twin.old).told → Mends target IsShut (T.both twin.old) (T.both twin.new) (T.leaves twin.old) (T.leaves twin.new) }
    ensures put_most { IsTrue (T.both twin.old).told → (disk_of target (T.both twin.new)).put + 1 ≤ (disk_of target (T.both twin.old)).put + length (disk_of (other target) (T.both twin.old)).holds }
    ensures copied { OnOk result (IsTrue (T.both twin.old).told → BeginsWith (disk_of (other target) (T.both twin.old)).holds (opened (disk_of target (T.both twin.new)).holds)) }
    ensures rest { OnOk result (IsTrue (T.both twin.old).told → BothRest (T.both twin.new) (T.leaves twin.new)) }
{
    let end = source_len(twin, target)?;
    let mut at = 1;
    while at < end {
        let len = PIECE.min(end - at);
        copy_piece(alloc, twin, target, at, len)?;
        at += len;
    }
    Ok(())
}

// The three steps: the gate is closed, all else is copied, the gate is opened.
fn mend<T: Twin>(alloc: Global, twin: &mut T, target: Half) -> Result<(), CopyError>
    requires at_rest { IsTrue (T.both twin.old).told → BothRest (T.both twin.old) (T.leaves twin.old) }
    requires source { IsTrue (T.both twin.old).told → get_or (disk_of (other target) (T.both twin.old)).holds 0 0 ≡ 75 }
    ensures failed_source { IsErrOf result CopyError.Source → Rose (disk_of (other target) (T.both twin.old)).disk_faults (disk_of (other target) (T.both twin.new)).disk_faults }
    ensures failed_target { IsErrOf result CopyError.Target → Rose (disk_of target (T.both twin.old)).disk_faults (disk_of target (T.both twin.new)).disk_faults }
    ensures fine_source { (IsErrOf result CopyError.Source → ⊥) → (disk_of (other target) (T.both twin.new)).disk_faults ≡ (disk_of (other target) (T.both twin.old)).disk_faults }
    ensures fine_target { (IsErrOf result CopyError.Target → ⊥) → (disk_of target (T.both twin.new)).disk_faults ≡ (disk_of target (T.both twin.old)).disk_faults }
    ensures goes { Goes target (T.both twin.old) (T.both twin.new) }
    ensures place { T.place twin.new ≡ T.place twin.old }
    ensures any_moment { IsTrue (T.both twin.old).told → Mends target (IsMending (disk_of (other target) (T.both twin.old)).holds (disk_of target (T.both twin.old)).holds) (T.both twin.old) (T.both twin.new) (T.leaves twin.old) (T.leaves twin.new) }
    ensures put_most { IsTrue (T.both twin.old).told → (disk_of target (T.both twin.new)).put ≤ (disk_of target (T.both twin.old)).put + mending_most (disk_of (other target) (T.both twin.old)).holds }
    ensures copied { OnOk result (IsTrue (T.both twin.old).told → BeginsWith (disk_of (other target) (T.both twin.old)).holds (disk_of target (T.both twin.new)).holds) }
    ensures rest { OnOk result (IsTrue (T.both twin.old).told → BothRest (T.both twin.new) (T.leaves twin.new)) }
{
    shut_gate(twin, target, true)?;
    copy_rest(alloc, twin, target)?;
    put_synced(twin, target, 0, &[OPEN])
}

/// Mends a half: its gate is closed, all that is after the gate of the source is copied, and then the gate is opened. The
/// target may be longer than the source: what is past the copy stays.
pub fn copy_over<T: Twin>(alloc: Global, twin: &mut T, source: Half) -> Result<(), CopyError>
    requires at_rest { IsTrue (T.both twin.old).told → BothRest (T.both twin.old) (T.leaves twin.old) }
    requires open { IsTrue (T.both twin.old).told → get_or (disk_of source (T.both twin.old)).holds 0 0 ≡ 75 }
    ensures failed_source { IsErrOf result CopyError.Source → Rose (disk_of source (T.both twin.old)).disk_faults (disk_of source (T.both twin.new)).disk_faults }
    ensures failed_target { IsErrOf result CopyError.Target → Rose (disk_of (other source) (T.both twin.old)).disk_faults (disk_of (other source) (T.both twin.new)).disk_faults }
    ensures fine_source { (IsErrOf result CopyError.Source → ⊥) → SameDiskFaults (half_state source (T.both twin.old)) (half_state source (T.both twin.new)) }
    ensures fine_target { (IsErrOf result CopyError.Target → ⊥) → SameDiskFaults (half_state (other source) (T.both twin.old)) (half_state (other source) (T.both twin.new)) }
    ensures line { (T.both twin.new).line_faults ≡ (T.both twin.old).line_faults }
    ensures frame { (half : Half) → Frame (half_state half (T.both twin.old)) (half_state half (T.both twin.new)) }
    ensures names { (half : Half) → SameNames (half_state half (T.both twin.old)) (half_state half (T.both twin.new)) }
    ensures place { T.place twin.new ≡ T.place twin.old }
    ensures sent { IsTrue (T.both twin.old).told → (T.both twin.new).sent ≡ (T.both twin.old).sent }
    ensures source { IsTrue (T.both twin.old).told → SameButFaults (disk_of source (T.both twin.old)) (disk_of source (T.both twin.new)) }
    ensures source_rests { IsTrue (T.both twin.old).told → HalfRests source (T.both twin.new) (T.leaves twin.new) }
    ensures any_moment { IsTrue (T.both twin.old).told → LeavesHalf (other source) (disk_of source (T.both twin.old)).holds (IsMending (disk_of source (T.both twin.old)).holds (disk_of (other source) (T.both twin.old)).holds) (T.both twin.old) (T.both twin.new) (T.leaves twin.old) (T.leaves twin.new) }
    ensures put_most { IsTrue (T.both twin.old).told → (disk_of (other source) (T.both twin.new)).put ≤ (disk_of (other source) (T.both twin.old)).put + mending_most (disk_of source (T.both twin.old)).holds }
    ensures copied { OnOk result (IsTrue (T.both twin.old).told → BeginsWith (disk_of source (T.both twin.old)).holds (disk_of (other source) (T.both twin.new)).holds) }
    ensures rest { OnOk result (IsTrue (T.both twin.old).told → BothRest (T.both twin.new) (T.leaves twin.new)) }
{
    mend(alloc, twin, other_half(source))
}
