//! The trait of everything that keeps a content in a file.
ghost use Rattle.std.specs.Prelude.{◌≡◌, ◌≤◌, ◌+◌, List, ℕ, IsTrue, OnOk, IsErrOf};
ghost use Rattle.kd_device.specs.{Device.{State, Rose, Frame, SameFaults, SameNames}, Rest.{Rests}};
ghost use Rattle.kd_records.specs.{Identity.{Identity}, Contents.{IsPatch, patched}, declared.content.Content.{Content}, declared.content.Patch.{Patch}, Charge.{total_charge}};
ghost use Rattle.kdcfile_store.specs.Kept.{IsKept, LeavesPatched};

use kd_device::{Device, DeviceError};
use kd_records::{Content, Patch};
use std::alloc::Global;

/// A content that is kept in a file of the device `D`.
pub trait Store<D: Device> {
    /// What the file was made with.
    ghost identity: { Self → Identity };

    /// What it keeps.
    ghost kept: { Self → Content };

    /// The bytes of its file: those that stand for its content, with its own selection.
    ghost file: { Self → List ℕ → Type 0 };

    /// The bytes that stand for a content, in a file that was made with this.
    ghost stands: { Identity → Content → List ℕ → Type 0 };

    /// How many bytes a commit writes at most, in a file that was made with this, where it keeps this content.
    ghost most_written: { Identity → Content → Patch → ℕ };

    /// What is kept. It takes no memory.
    fn content(&self) -> &Content
        ensures { result.now ≡ kept self.now };

    /// Makes these changes, whole or not at all. All memory is taken before the first write.
    fn commit(&mut self, alloc: Global, device: &mut D, patch: &Patch) -> Result<(), DeviceError>
        requires kept { IsTrue (D.state device.old).told → IsKept (file self.old) (D.state device.old) (D.leaves device.old) }
        requires patch { IsPatch patch.now }
        requires charge_before { total_charge (identity self.old).blksize (kept self.old).items ≤ (identity self.old).pages }
        requires charge_after { total_charge (identity self.old).blksize (patched (kept self.old) patch.now).items ≤ (identity self.old).pages }

        ensures content { OnOk result (kept self.new ≡ patched (kept self.old) patch.now) }
        ensures identity { identity self.new ≡ identity self.old }
        ensures kept { OnOk result (IsTrue (D.state device.old).told → IsKept (file self.new) (D.state device.new) (D.leaves device.new)) }
        ensures sent { IsTrue (D.state device.old).told → (D.state device.new).sent ≡ (D.state device.old).sent }

        // A stop at any moment of the call leaves the content with the patch or without it.
        ensures any_moment { IsTrue (D.state device.old).told → LeavesPatched (stands (identity self.old)) (kept self.old) patch.now (D.state device.old) (D.state device.new) (D.leaves device.old) (D.leaves device.new) }

        ensures put_most { IsTrue (D.state device.old).told → (D.state device.new).put ≤ (D.state device.old).put + most_written (identity self.old) (kept self.old) patch.now }

        ensures failed { IsErrOf result DeviceError.Failed → Rose (D.state device.old).disk_faults (D.state device.new).disk_faults }
        ensures memory { IsErrOf result DeviceError.Memory → IsTrue (D.state device.old).told → Rests (D.state device.old) (D.state device.new) (D.leaves device.old) (D.leaves device.new) }
        ensures memory_store { IsErrOf result DeviceError.Memory → self.new ≡ self.old }
        ensures fine { (IsErrOf result DeviceError.Failed → ⊥) → SameFaults (D.state device.old) (D.state device.new) }
        ensures frame { Frame (D.state device.old) (D.state device.new) }
        ensures names { SameNames (D.state device.old) (D.state device.new) };

    /// Its file stands for its content.
    ghost file_stands: { (store : Self) (bytes : List ℕ) → file store bytes → stands (identity store) (kept store) bytes };
}

/// What a file is made with: BLKSIZE in bytes and PGPOOL in pages.
#[derive(Clone, Copy, PartialEq, Eq)]
pub struct StoreLimits {
    pub blksize: u32,
    pub pgpool: u32,
}
