//! The trait of everything that keeps a content in files and has a line.
ghost use Rattle.std.specs.Prelude.{◌≡◌, ◌≤◌, ◌+◌, List, ℕ, IsTrue, OnOk, IsErrOf};
ghost use Rattle.kd_device.specs.Device.{State, Rose, Frame, SameNames};
ghost use Rattle.kd_records.specs.{Identity.{Identity}, Contents.{IsPatch, patched}, declared.content.Content.{Content}, declared.content.Patch.{Patch}, Charge.{total_charge}};
ghost use Rattle.kdcfile_store.specs.Kept.{LeavesPatched};
ghost use Rattle.device_acts.specs.{Acting.{JoinsParts, IsKeptBy, IsOfChanges}, Said.{LeavesFront, Said, SaidPart}};

use kd_device::DeviceError;
use kd_records::Patch;
use std::alloc::Global;

/// A content that is kept in one file or several, with a line beside them under one clock. What is seen of it, and which
/// image stands for what the files have at a stop, is for the keeper to say; no clause reads it but through `stands`.
pub trait Keeper {
    /// What is seen of it. The counts of faults are those of what it needs: it may go on without a file.
    ghost state: { Self → State };

    /// A stop at some moment since that one may leave this image, with these bytes sent in all.
    ghost leaves: { Self → ℕ → List ℕ → List ℕ → Type 0 };

    /// What its files were made with.
    ghost identity: { Self → Identity };

    /// What it keeps.
    ghost kept: { Self → Content };

    /// The images of its files as they are.
    ghost file: { Self → List ℕ → Type 0 };

    /// The images that stand for a content, in files that were made with this.
    ghost stands: { Identity → Content → List ℕ → Type 0 };

    /// How many bytes a commit writes at most, in files that were made with this, where it keeps this content.
    ghost most_written: { Identity → Content → Patch → ℕ };

    /// What is known from one state to a later one where no call answered `Failed`.
    ghost fine: { State → State → Type 0 };

    /// Which values it borrows, where it does. No call changes that.
    ghost place: { Self → List ℕ };

    /// It can be worked with: it was not given up, as it may be after a commit that answered an error.
    ghost ready: { Self → Type 0 };

    /// Makes these changes, whole or not at all.
    fn commit(&mut self, alloc: Global, patch: &Patch) -> Result<(), DeviceError>
        requires ready { ready self.old }
        requires kept { IsTrue (state self.old).told → IsKeptBy (file self.old) (state self.old) (leaves self.old) }
        requires patch { IsPatch patch.now }
        requires changes { IsOfChanges patch.now }
        requires charge_before { total_charge (identity self.old).blksize (kept self.old).items ≤ (identity self.old).pages }
        requires charge_after { total_charge (identity self.old).blksize (patched (kept self.old) patch.now).items ≤ (identity self.old).pages }

        ensures ready { OnOk result (ready self.new) }
        ensures content { OnOk result (kept self.new ≡ patched (kept self.old) patch.now) }
        ensures identity { identity self.new ≡ identity self.old }
        ensures kept { OnOk result (IsTrue (state self.old).told → IsKeptBy (file self.new) (state self.new) (leaves self.new)) }
        ensures sent { IsTrue (state self.old).told → (state self.new).sent ≡ (state self.old).sent }

        // A stop at any moment of the call leaves the content with the patch or without it.
        ensures any_moment { IsTrue (state self.old).told → LeavesPatched (stands (identity self.old)) (kept self.old) patch.now (state self.old) (state self.new) (leaves self.old) (leaves self.new) }

        ensures put_most { IsTrue (state self.old).told → (state self.new).put ≤ (state self.old).put + most_written (identity self.old) (kept self.old) patch.now }
        ensures failed { IsErrOf result DeviceError.Failed → Rose (state self.old).disk_faults (state self.new).disk_faults }
        ensures fine { (IsErrOf result DeviceError.Failed → ⊥) → fine (state self.old) (state self.new) }
        ensures frame { Frame (state self.old) (state self.new) }
        ensures names { SameNames (state self.old) (state self.new) }
        ensures place { place self.new ≡ place self.old };

    /// Sends a piece. A stop within it, and an error, sends a front of it.
    fn say(&mut self, piece: &[u8]) -> Result<(), DeviceError>
        ensures ready { ready self.old → ready self.new }
        ensures identity { identity self.new ≡ identity self.old }
        ensures content { kept self.new ≡ kept self.old }
        ensures kept { IsTrue (state self.old).told → IsKeptBy (file self.old) (state self.old) (leaves self.old) → IsKeptBy (file self.new) (state self.new) (leaves self.new) }
        ensures sent { OnOk result (IsTrue (state self.old).told → Said piece.now (state self.old) (state self.new)) }
        ensures part { IsTrue (state self.old).told → SaidPart piece.now (state self.old) (state self.new) }
        ensures unsaid { IsErrOf result DeviceError.Memory → IsTrue (state self.old).told → (state self.new).sent ≡ (state self.old).sent }
        ensures any_moment { IsTrue (state self.old).told → LeavesFront piece.now (state self.old) (state self.new) (leaves self.old) (leaves self.new) }
        ensures failed { IsErrOf result DeviceError.Failed → Rose (state self.old).line_faults (state self.new).line_faults }
        ensures fine { (IsErrOf result DeviceError.Failed → ⊥) → fine (state self.old) (state self.new) }
        ensures frame { Frame (state self.old) (state self.new) }
        ensures names { SameNames (state self.old) (state self.new) }
        ensures place { place self.new ≡ place self.old };

    /// The images of its files stand for its content.
    ghost file_stands: { (keeper : Self) (c : List ℕ) → file keeper c → stands (identity keeper) (kept keeper) c };

    /// Several calls are fine where each is.
    ghost fine_goes: { JoinsParts fine };

    /// A stop now may leave some image.
    ghost left_now: { (keeper : Self) → IsTrue (state keeper).told → (c : List ℕ) × leaves keeper (state keeper).moment c (state keeper).sent };

    /// At a stop now just these bytes are sent.
    ghost sent_now: { (keeper : Self) (c out : List ℕ) → IsTrue (state keeper).told → leaves keeper (state keeper).moment c out → out ≡ (state keeper).sent };

    /// What a stop since a later moment may leave, a stop since an earlier one may leave too.
    ghost earlier: { (keeper : Self) (t u : ℕ) (c out : List ℕ) → IsTrue (state keeper).told → t ≤ u → leaves keeper u c out → leaves keeper t c out };
}
