//! A commit, on the first half and then on the second.
ghost use Rattle.std.specs.Prelude.{◌≡◌, ◌⊎◌, ◌≤◌, ◌<◌, ◌+◌, ◌^◌, IsTrue, IfOk, OnOk, OnErr, IsErrOf, Some, None};
ghost use Rattle.kd_records.specs.{Contents.{IsPatch, patched}, Charge.{total_charge}};
ghost use Rattle.kd_device.specs.{declared.half.Half.{Half as Side}, declared.half.Half.TheVariants.{First, Second}};
ghost use Rattle.kdcfile_copies.specs.Copies.{HasNoSequence, next_patch};
ghost use Rattle.kdcfile_double.specs.Twice.{AreAlike, IsOpen, IsInUse, IsKeptTwice, FrameBoth, RoseAt, SameFaultsAt, LosesBy, LeavesBoth, LeavesCommitted, content_of, copy_at, identity_of};
ghost use Rattle.kdcfile_double.specs.Twice.{FineTwice, SparesLine, SparesOne, sequence_of, with_copies};
ghost use Rattle.kdcfile_double.specs.Committing.{AreLostSo, AreWithin, CanTakeIf, IsKeptAt, IsNextIf, IsWithin};

use crate::one_half::commit_one;
use crate::store::TwinStore;
use kd_base::OutOfMemory;
use kd_device::{DeviceError, Half, Twin};
use kd_records::Patch;
use kdcfile_copies::{LoadedCopy, sequenced};
use std::alloc::Global;

// A commit on the first half and then on the second.
fn commit_two<T: Twin>(
    alloc: Global,
    twin: &mut T,
    first: Option<LoadedCopy>,
    second: Option<LoadedCopy>,
    patch: &Patch,
    next: &Patch,
    lost: &mut Option<Half>,
) -> Result<(Option<LoadedCopy>, Option<LoadedCopy>), OutOfMemory>
    requires alike { AreAlike (with_copies first second) }
    requires kept { IsTrue (T.both twin.old).told → IsKeptTwice (with_copies first second) (T.both twin.old) (T.leaves twin.old) }
    requires patch { IsPatch patch.now }
    requires plain { HasNoSequence patch.now }
    requires first_can { CanTakeIf first patch.now next.now }
    requires second_can { CanTakeIf second patch.now next.now }
    ensures first_next { IfOk result (λ r. IsNextIf first patch.now r.0) }
    ensures second_next { IfOk result (λ r. IsNextIf second patch.now r.1) }
    ensures first_kept { IfOk result (λ r. IsTrue (T.both twin.old).told → IsKeptAt First r.0 (T.both twin.new) (T.leaves twin.new)) }
    ensures second_kept { IfOk result (λ r. IsTrue (T.both twin.old).told → IsKeptAt Second r.1 (T.both twin.new) (T.leaves twin.new)) }
    ensures within { IsTrue (T.both twin.old).told → AreWithin (with_copies first second) (patched (content_of (with_copies first second)) patch.now) (T.both twin.new) (T.leaves twin.new) }
    ensures any_moment { IsTrue (T.both twin.old).told → LeavesBoth (T.both twin.old) (T.both twin.new) (T.leaves twin.old) (T.leaves twin.new) (IsWithin (with_copies first second) (patched (content_of (with_copies first second)) patch.now) (T.both twin.old).sent) }
    ensures lost { IfOk result (λ r. AreLostSo first second r.0 r.1 lost.old lost.new (T.both twin.old) (T.both twin.new)) }
    ensures memory { OnErr result ((half : Side) → lost.new ≡ Some half → (lost.old ≡ Some half) ⊎ RoseAt half (T.both twin.old) (T.both twin.new)) }
    ensures memory_stays { OnErr result ((half : Side) → lost.old ≡ Some half → lost.new ≡ Some half) }
    ensures unused { (half : Side) → copy_at half (with_copies first second) ≡ None → SameFaultsAt half (T.both twin.old) (T.both twin.new) }
    ensures spared { OnErr result (SparesOne (with_copies first second) (T.both twin.old) (T.both twin.new)) }
    ensures line { SparesLine (with_copies first second) (T.both twin.old) (T.both twin.new) }
    ensures frame { FrameBoth (T.both twin.old) (T.both twin.new) }
{
    let first = commit_one(alloc, twin, Half::First, first, patch, next, lost)?;
    let second = commit_one(alloc, twin, Half::Second, second, patch, next, lost)?;
    Ok((first, second))
}

impl TwinStore {
    // The patch of the next commit.
    fn next_of(&self, alloc: Global, patch: &Patch) -> Result<Patch, OutOfMemory>
        requires is_open { IsOpen self.now }
        requires patch { IsPatch patch.now }
        ensures is_next { IfOk result (λ r. r ≡ next_patch (sequence_of self.now + 1) patch.now) }
        ensures small { IfOk result (λ r. sequence_of self.now + 1 < 2 ^ 64) }
    {
        // Files are opened at 10^18 at most, but whoever keeps a store counts no commits.
        let Some(sequence) = self.sequence().checked_add(1) else {
            return Err(OutOfMemory);
        };
        sequenced(alloc, patch, sequence)
    }

    /// Makes these changes on the first half and then on the second, each whole or not at all, with a sequence that is
    /// one more. A half on which a call fails is lost. Memory may run out before any write, and between the halves; after
    /// an error the store is to be given up. At the end of its type a sequence cannot rise: that is answered as want of
    /// memory.
    pub fn commit<T: Twin>(
        &mut self,
        alloc: Global,
        twin: &mut T,
        patch: &Patch,
    ) -> Result<(), DeviceError>
        requires is_open { IsOpen self.old }
        requires kept { IsTrue (T.both twin.old).told → IsKeptTwice self.old (T.both twin.old) (T.leaves twin.old) }
        requires patch { IsPatch patch.now }
        requires plain { HasNoSequence patch.now }
        requires charge_before { total_charge (identity_of self.old).blksize (content_of self.old).items + 1 ≤ (identity_of self.old).pages }
        requires charge_after { total_charge (identity_of self.old).blksize (patched (content_of self.old) patch.now).items + 1 ≤ (identity_of self.old).pages }
        ensures content { OnOk result (content_of self.new ≡ patched (content_of self.old) patch.now) }
        ensures sequence { OnOk result (sequence_of self.new ≡ sequence_of self.old + 1) }
        ensures identity { OnOk result (identity_of self.new ≡ identity_of self.old) }
        ensures is_open { OnOk result (IsOpen self.new) }
        ensures kept { OnOk result (IsTrue (T.both twin.old).told → IsKeptTwice self.new (T.both twin.new) (T.leaves twin.new)) }
        ensures mended { self.new.mended ≡ self.old.mended }

        // A half is in use no more only where a call on it failed, and then it is lost.
        ensures lost { LosesBy self.old self.new (T.both twin.old) (T.both twin.new) }
        ensures stays { OnOk result ((half : Side) → IsInUse half self.old → IsInUse half self.new ⊎ (self.new.lost ≡ Some half)) }
        ensures no_other { (half : Side) → IsInUse half self.new → IsInUse half self.old }
        ensures fine { OnOk result ((half : Side) → IsInUse half self.new → SameFaultsAt half (T.both twin.old) (T.both twin.new)) }
        ensures unused { (half : Side) → (IsInUse half self.old → ⊥) → SameFaultsAt half (T.both twin.old) (T.both twin.new) }

        // A stop at any moment of the call leaves the content with the patch or without it: in the copy that counts, and in
        // each half in use on which no call failed.
        ensures any_moment { IsTrue (T.both twin.old).told → LeavesCommitted self.old patch.now (T.both twin.old) (T.both twin.new) (T.leaves twin.old) (T.leaves twin.new) }

        // It fails only where a call failed on each half that was in use.
        ensures failed { IsErrOf result DeviceError.Failed → (half : Side) → IsInUse half self.old → RoseAt half (T.both twin.old) (T.both twin.new) }
        ensures went { (IsErrOf result DeviceError.Failed → ⊥) → FineTwice self.old (T.both twin.old) (T.both twin.new) }
        ensures frame { FrameBoth (T.both twin.old) (T.both twin.new) }
    {
        let Ok(next) = self.next_of(alloc, patch) else {
            return Err(DeviceError::Memory);
        };
        let first = self.first.take();
        let second = self.second.take();
        let Ok((first, second)) = commit_two(
            alloc,
            twin,
            first,
            second,
            patch,
            &next,
            &mut self.lost,
        ) else {
            return Err(DeviceError::Memory);
        };
        if first.is_none() && second.is_none() {
            return Err(DeviceError::Failed);
        }
        self.first = first;
        self.second = second;
        Ok(())
    }
}
