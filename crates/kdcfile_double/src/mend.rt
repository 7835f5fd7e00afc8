//! A half that is behind is written anew from the other one.
ghost use Rattle.std.specs.Prelude.{◌≡◌, ◌⊎◌, IsTrue, IfSome, OnOk, IsErrOf, Some, None};
ghost use Rattle.kd_device.specs.{Twin.{disk_of, other}, declared.half.Half.{Half as Side}};
ghost use Rattle.kdcfile_store.specs.Paged.{HasFile};
ghost use Rattle.kdcfile_copies.specs.{Copies.{IsCopyOf}, Finding.{IsLoaded}};
ghost use Rattle.kdcfile_double.specs.Twice.{IsOpen, IsInUse, IsKeptTwice, FrameBoth, RoseAt, SameFaultsAt, LosesBy, LeavesBoth, copy_at, content_of, identity_of, sequence_of};
ghost use Rattle.kdcfile_double.specs.Mended.{BothRest, FineMending, IsBehind, IsMendingOne, IsTaken, TakesAfter, lost_at};

use crate::alike::are_alike;
use crate::reading::copy_in;
use crate::store::TwinStore;
use kd_device::{DeviceError, Half, Twin};
use kdcfile_copies::LoadedCopy;
use kdcfile_copies::kdcfile_halves::load_half;
use kdcfile_copies::kdcfile_mending::{CopyError, copy_over};
use std::alloc::Global;

// The other half.
fn other(half: Half) -> Half
    ensures { result ≡ other half }
{
    match half {
        Half::First => Half::Second,
        Half::Second => Half::First,
    }
}

impl TwinStore {
    // The half in use, where the other one is behind.
    fn only_half(&self) -> Option<Half>
        ensures some { IfSome result (λ half. IsInUse half self.now × IsBehind (other half) self.now) }
        ensures none { result ≡ None → IsOpen self.now → (half : Side) → IsBehind half self.now → ⊥ }
    {
        if self.lost.is_some() {
            return None;
        }
        match &self.first {
            Some(_) => match &self.second {
                Some(_) => None,
                None => Some(Half::First),
            },
            None => match &self.second {
                Some(_) => Some(Half::Second),
                None => None,
            },
        }
    }

    // The copy of a half, where it is in use.
    fn copy_of(&self, half: Half) -> Option<&LoadedCopy>
        ensures some { IfSome result (λ p. copy_at half self.now ≡ Some p.now) }
        ensures none { result ≡ None → copy_at half self.now ≡ None }
    {
        match half {
            Half::First => self.first.as_ref(),
            Half::Second => self.second.as_ref(),
        }
    }

    // A call failed on a half that is not in use: it is lost.
    fn lose(&mut self, half: Half)
        requires unused { copy_at half self.old ≡ None }
        ensures lost { self.new ≡ lost_at half self.old }
    {
        self.lost = Some(half);
    }

    // The copy that was read from a half that was written anew is in use, where it is the same as the other one.
    fn take(&mut self, half: Half, copy: LoadedCopy)
        requires is_open { IsOpen self.old }
        requires behind { IsBehind half self.old }
        requires loaded { IsLoaded copy }
        ensures taken { IsTaken half self.old self.new copy }
    {
        let Some(own) = self.copy_of(other(half)) else {
            return;
        };
        if !are_alike(own, &copy) {
            return;
        }
        match half {
            Half::First => self.first = Some(copy),
            Half::Second => self.second = Some(copy),
        }
        self.mended = Some(half);
    }

    // Reads a half that was written anew and takes its copy. Where a call fails there, it is lost.
    fn take_mended<T: Twin>(
        &mut self,
        alloc: Global,
        twin: &mut T,
        half: Half,
    ) -> Result<(), DeviceError>
        requires is_open { IsOpen self.old }
        requires behind { IsBehind half self.old }
        requires rest { IsTrue (T.both twin.old).told → BothRest (T.both twin.old) (T.leaves twin.old) }
        ensures takes { TakesAfter half self.old self.new (T.both twin.old) (T.both twin.new) result }
        ensures found { OnOk result (IsTrue (T.both twin.old).told → IsCopyOf (identity_of self.old) (sequence_of self.old) (content_of self.old) (disk_of half (T.both twin.old)).holds → (self.new.mended ≡ Some half) × IsInUse half self.new ⊎ (self.new.lost ≡ Some half)) }
        ensures same_bytes { IsTrue (T.both twin.old).told → (disk_of half (T.both twin.new)).holds ≡ (disk_of half (T.both twin.old)).holds }
        ensures kept { IsTrue (T.both twin.old).told → ((p : LoadedCopy) → copy_at half self.new ≡ Some p → HasFile p.store (disk_of half (T.both twin.old)).holds) × BothRest (T.both twin.new) (T.leaves twin.new) }
        ensures any_moment { IsTrue (T.both twin.old).told → LeavesBoth (T.both twin.old) (T.both twin.new) (T.leaves twin.old) (T.leaves twin.new) (λ c d out. (out ≡ (T.both twin.old).sent) × (c ≡ (T.both twin.old).first.holds) × (d ≡ (T.both twin.old).second.holds)) }
        ensures other_half { disk_of (other half) (T.both twin.new) ≡ disk_of (other half) (T.both twin.old) }
        ensures failed { IsErrOf result DeviceError.Failed → ⊥ }
        ensures line { ((T.both twin.new).line_faults ≡ (T.both twin.old).line_faults) ⊎ RoseAt half (T.both twin.old) (T.both twin.new) }
        ensures frame { FrameBoth (T.both twin.old) (T.both twin.new) }
    {
        match load_half(alloc, twin, half) {
            Ok(found) => {
                if let Some(copy) = copy_in(found) {
                    self.take(half, copy);
                }
                Ok(())
            }
            Err(DeviceError::Failed) => {
                self.lose(half);
                Ok(())
            }
            Err(DeviceError::Memory) => Err(DeviceError::Memory),
        }
    }

    /// Writes the half that is behind anew from the one in use, so that both are; with none behind nothing is done. Where
    /// a call on the half that is behind fails, it is lost.
    pub fn mend<T: Twin>(&mut self, alloc: Global, twin: &mut T) -> Result<(), DeviceError>
        requires is_open { IsOpen self.old }
        requires kept { IsTrue (T.both twin.old).told → IsKeptTwice self.old (T.both twin.old) (T.leaves twin.old) }
        requires at_rest { IsTrue (T.both twin.old).told → BothRest (T.both twin.old) (T.leaves twin.old) }
        ensures content { OnOk result (content_of self.new ≡ content_of self.old) }
        ensures sequence { OnOk result (sequence_of self.new ≡ sequence_of self.old) }
        ensures identity { OnOk result (identity_of self.new ≡ identity_of self.old) }
        ensures is_open { OnOk result (IsOpen self.new) }
        ensures kept { OnOk result (IsTrue (T.both twin.old).told → IsKeptTwice self.new (T.both twin.new) (T.leaves twin.new)) }

        // The half that was behind is in use now and mended, or lost; where none was, nothing is mended.
        ensures mended { OnOk result (IsTrue (T.both twin.old).told → (half : Side) → IsBehind half self.old → (self.new.mended ≡ Some half) × IsInUse half self.new ⊎ (self.new.lost ≡ Some half)) }
        ensures only_behind { (half : Side) → self.new.mended ≡ Some half → IsBehind half self.old ⊎ (self.old.mended ≡ Some half) }
        ensures stays { OnOk result ((half : Side) → IsInUse half self.old → IsInUse half self.new) }
        ensures lost { LosesBy self.old self.new (T.both twin.old) (T.both twin.new) }

        // A stop at any moment of the call leaves the same copy as the one that counts.
        ensures any_moment { IsTrue (T.both twin.old).told → LeavesBoth (T.both twin.old) (T.both twin.new) (T.leaves twin.old) (T.leaves twin.new) (IsMendingOne self.old (T.both twin.old).sent) }

        // It fails just where a call on the half in use failed.
        ensures failed { IsErrOf result DeviceError.Failed → (half : Side) → IsInUse half self.old → RoseAt half (T.both twin.old) (T.both twin.new) }
        ensures fine { OnOk result ((half : Side) → IsInUse half self.new → SameFaultsAt half (T.both twin.old) (T.both twin.new)) }
        ensures went { (IsErrOf result DeviceError.Failed → ⊥) → FineMending self.old (T.both twin.old) (T.both twin.new) }
        ensures frame { FrameBoth (T.both twin.old) (T.both twin.new) }
    {
        self.copies_are_alike();
        let Some(source) = self.only_half() else {
            return Ok(());
        };
        match copy_over(alloc, twin, source) {
            Ok(()) => self.take_mended(alloc, twin, other(source)),
            Err(CopyError::Target) => {
                self.lose(other(source));
                Ok(())
            }
            Err(CopyError::Source) => Err(DeviceError::Failed),
            Err(CopyError::Memory) => Err(DeviceError::Memory),
        }
    }
}
