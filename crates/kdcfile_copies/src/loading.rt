//! What is in a file.
ghost use Rattle.std.specs.{Prelude.{◌≡◌, ◌<◌, ◌^◌, ℕ, [], IsTrue, length, IfOk, IfSome, IfNone, OnOk, IsErrOf}, FinMap.{is_sorted}};
ghost use Rattle.kd_device.specs.{Device.{Rose, Frame, SameFaults, SameNames, Only}, Rest.{Rests}};
ghost use Rattle.kd_records.specs.Keys.{key_cmp};
ghost use Rattle.kdcfile_store.specs.Kept.{IsKept};
ghost use Rattle.kdcfile_copies.specs.{Copies.{HasSequence, sequence_value}, Finding.{IsAnswer, IsFound, IsFoundIn}};

use crate::answer::{Found, LoadedCopy};
use crate::patching::sequence_key;
use kd_base::sorted_pairs::place_of;
use kd_device::{Device, DeviceError};
use kd_records::Content;
use kdcfile_layout::u64_in;
use kdcfile_store::{LoadError, PagedStore};
use std::alloc::Global;

// The number that eight bytes spell, or none.
fn number_of(bytes: &[u8]) -> Option<u64>
    ensures some { IfSome result (λ n. bytes.now ≡ sequence_value n) }
    ensures small { IfSome result (λ n. n < 2 ^ 64) }
    ensures none { IfNone result (length bytes.now ≡ 8 → ⊥) }
{
    if bytes.len() != 8 {
        return None;
    }
    Some(u64_in(bytes, 0))
}

// The sequence that a content has, if it has one.
fn sequence_of(content: &Content) -> Option<u64>
    requires { IsTrue (is_sorted key_cmp content.now.items) }
    ensures some { IfSome result (λ n. HasSequence n content.now) }
    ensures none { IfNone result ((n : ℕ) → HasSequence n content.now → ⊥) }
{
    let records = content.items.as_slice();
    match place_of(records, &sequence_key()) {
        Ok(at) => number_of(records[at].1.as_slice()),
        Err(_) => None,
    }
}

// What a file is whose store was loaded.
fn found_in(store: PagedStore) -> Found
    ensures { IsFoundIn store result }
{
    store.is_in_order();
    match sequence_of(store.kept()) {
        Some(sequence) => Found::Copy(LoadedCopy { store, sequence }),
        None => Found::NoCopy,
    }
}

// The length of the file. Nothing is pending then.
fn size_at_rest<D: Device>(device: &mut D) -> Result<u64, DeviceError>
    ensures size { IfOk result (λ n. IsTrue (D.state device.old).told → n ≡ length (D.state device.old).holds) }
    ensures at_rest { OnOk result (IsTrue (D.state device.old).told → Only (D.state device.new).holds (D.state device.new) (D.leaves device.new)) }
    ensures rests { IsTrue (D.state device.old).told → Rests (D.state device.old) (D.state device.new) (D.leaves device.old) (D.leaves device.new) }
    ensures failed { IsErrOf result DeviceError.Failed → Rose (D.state device.old).disk_faults (D.state device.new).disk_faults }
    ensures fine { (IsErrOf result DeviceError.Failed → ⊥) → SameFaults (D.state device.old) (D.state device.new) }
    ensures frame { Frame (D.state device.old) (D.state device.new) }
    ensures names { SameNames (D.state device.old) (D.state device.new) }
{
    device.reserve(1, 0, 0)?;
    device.sync()?;
    Ok(device.size()?)
}

// What a file is that is not empty.
fn load_filled<D: Device>(alloc: Global, device: &mut D) -> Result<Found, DeviceError>
    requires filled { IsTrue (D.state device.old).told → ((D.state device.old).holds ≡ [] → ⊥) }
    requires at_rest { IsTrue (D.state device.old).told → Only (D.state device.old).holds (D.state device.old) (D.leaves device.old) }
    ensures found { IfOk result (λ f. IsFound f) }
    ensures kept { IfOk result (λ f. IsTrue (D.state device.old).told → IsKept (IsAnswer f) (D.state device.new) (D.leaves device.new)) }
    ensures rests { IsTrue (D.state device.old).told → Rests (D.state device.old) (D.state device.new) (D.leaves device.old) (D.leaves device.new) }
    ensures failed { IsErrOf result DeviceError.Failed → Rose (D.state device.old).disk_faults (D.state device.new).disk_faults }
    ensures fine { (IsErrOf result DeviceError.Failed → ⊥) → SameFaults (D.state device.old) (D.state device.new) }
    ensures frame { Frame (D.state device.old) (D.state device.new) }
    ensures names { SameNames (D.state device.old) (D.state device.new) }
{
    match PagedStore::load(alloc, device) {
        Ok(store) => Ok(found_in(store)),
        Err(LoadError::NotKdcfile) => Ok(Found::NoCopy),
        Err(LoadError::Failed) => Err(DeviceError::Failed),
        Err(LoadError::Memory) => Err(DeviceError::Memory),
    }
}

/// Tells what the file is that the device has: empty, no copy, or a copy, which is loaded. It stays as it is, and what
/// was pending is synced.
pub fn load_copy<D: Device>(alloc: Global, device: &mut D) -> Result<Found, DeviceError>
    ensures found { IfOk result (λ f. IsFound f) }
    ensures answer { IfOk result (λ f. IsTrue (D.state device.old).told → IsAnswer f (D.state device.old).holds) }
    ensures kept { IfOk result (λ f. IsTrue (D.state device.old).told → IsKept (IsAnswer f) (D.state device.new) (D.leaves device.new)) }
    ensures rests { IsTrue (D.state device.old).told → Rests (D.state device.old) (D.state device.new) (D.leaves device.old) (D.leaves device.new) }
    ensures failed { IsErrOf result DeviceError.Failed → Rose (D.state device.old).disk_faults (D.state device.new).disk_faults }
    ensures fine { (IsErrOf result DeviceError.Failed → ⊥) → SameFaults (D.state device.old) (D.state device.new) }
    ensures frame { Frame (D.state device.old) (D.state device.new) }
    ensures names { SameNames (D.state device.old) (D.state device.new) }
{
    let size = size_at_rest(device)?;
    if size == 0 {
        Ok(Found::Empty)
    } else {
        load_filled(alloc, device)
    }
}
