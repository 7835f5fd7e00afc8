//! The records of a file, read slot by slot.
ghost use Rattle.std.specs.{Prelude.{◌≡◌, ◌≤◌, ◌<◌, ◌^◌, List, ℕ, [], true, false, Some, None, IsTrue, length, IfOk, IfSome, All, IsErrOf}, Option.{option_map}};
ghost use Rattle.kd_device.specs.{Device.{Rose, Frame, SameFaults, SameNames}, Rest.{Rests}};
ghost use Rattle.kd_records.specs.Charge.{IsBlockSize};
ghost use Rattle.kdcfile_load.specs.Reads.{record_at, after_slot, records_from, none_yet, IsCharged, IsFirst, Follows, IsGathering};

use crate::chain::{Found, read_chain};
use crate::part::page_in;
use kd_device::{Device, DeviceError};
use kd_records::{RecordKey, Records, charge};
use kdcfile_layout::kdcfile_read::{First, whole_of};
use kdcfile_layout::{Chain, Slots};
use std::alloc::Global;

/// What was read so far: how many pages are left for chains, the slots, and the records of the used ones in their order.
#[derive(Drop)]
pub struct Gathering {
    pub left: u32,
    pub slots: Slots,
    pub records: Records,
}

// The record whose chain begins at this page, if it has no more than so many pages.
fn record_at<D: Device>(
    alloc: Global,
    device: &mut D,
    size: u32,
    count: u32,
    left: u32,
    first: &First,
) -> Result<Option<Found>, DeviceError>
    requires block { IsBlockSize size }
    ensures value { IfOk result (λ o. IsTrue (D.state device.old).told → option_map (λ f. (f.pages, f.value)) o ≡ record_at size count left (D.state device.old).holds first.now.key first.now.page) }
    ensures charged { IfOk result (λ o. IfSome o (λ f. IsCharged size (f.pages, f.value))) }
    ensures within { IfOk result (λ o. IfSome o (λ f. length f.pages ≤ left)) }
    ensures rests { IsTrue (D.state device.old).told → Rests (D.state device.old) (D.state device.new) (D.leaves device.old) (D.leaves device.new) }
    ensures failed { IsErrOf result DeviceError.Failed → Rose (D.state device.old).disk_faults (D.state device.new).disk_faults }
    ensures fine { (IsErrOf result DeviceError.Failed → ⊥) → SameFaults (D.state device.old) (D.state device.new) }
    ensures frame { Frame (D.state device.old) (D.state device.new) }
    ensures names { SameNames (D.state device.old) (D.state device.new) }
{
    if first.page >= count {
        return Ok(None);
    }
    let page = page_in(alloc, device, size, count, first.page)?;
    let Some(whole) = whole_of(page.as_slice()) else {
        return Ok(None);
    };
    let pages = charge(u64::from(whole), size);
    if pages > u64::from(left) {
        return Ok(None);
    }
    read_chain(
        alloc,
        device,
        size,
        count,
        &first.key,
        whole,
        pages as u32,
        first.page,
        page,
    )
}

// Adds a slot; false where it is used and has no record.
fn add_slot<D: Device>(
    alloc: Global,
    device: &mut D,
    size: u32,
    count: u32,
    slot: &Option<First>,
    so_far: &mut Gathering,
) -> Result<bool, DeviceError>
    requires block { IsBlockSize size }
    ensures value { IfOk result (λ more. IsTrue more → IsTrue (D.state device.old).told → after_slot size count (D.state device.old).holds so_far.old slot.now ≡ Some so_far.new) }
    ensures none { IfOk result (λ more. more ≡ false → IsTrue (D.state device.old).told → after_slot size count (D.state device.old).holds so_far.old slot.now ≡ None) }
    ensures follows { IfOk result (λ more. IsTrue more → Follows size slot.now so_far.old so_far.new) }
    ensures rests { IsTrue (D.state device.old).told → Rests (D.state device.old) (D.state device.new) (D.leaves device.old) (D.leaves device.new) }
    ensures failed { IsErrOf result DeviceError.Failed → Rose (D.state device.old).disk_faults (D.state device.new).disk_faults }
    ensures fine { (IsErrOf result DeviceError.Failed → ⊥) → SameFaults (D.state device.old) (D.state device.new) }
    ensures frame { Frame (D.state device.old) (D.state device.new) }
    ensures names { SameNames (D.state device.old) (D.state device.new) }
{
    let Some(first) = slot else {
        so_far.slots.push(None)?;
        return Ok(true);
    };
    let Some(found) = record_at(alloc, device, size, count, so_far.left, first)? else {
        return Ok(false);
    };
    so_far.left -= found.pages.len() as u32;
    so_far.slots.push(Some(Chain {
        key: first.key,
        pages: found.pages,
    }))?;
    so_far.records.push((first.key, found.value))?;
    Ok(true)
}

/// The records of a file with these slots, which have at most `count` pages in all, if each used slot has one.
pub fn read_records<D: Device>(
    alloc: Global,
    device: &mut D,
    size: u32,
    count: u32,
    slots: &[Option<First>],
) -> Result<Option<Gathering>, DeviceError>
    requires block { IsBlockSize size }
    requires keys { All IsFirst slots.now }
    ensures value { IfOk result (λ o. IsTrue (D.state device.old).told → o ≡ records_from size count (D.state device.old).holds (none_yet count) slots.now) }
    ensures gathered { IfOk result (λ o. IfSome o (λ g. IsGathering size (length slots.now) g)) }
    ensures rests { IsTrue (D.state device.old).told → Rests (D.state device.old) (D.state device.new) (D.leaves device.old) (D.leaves device.new) }
    ensures failed { IsErrOf result DeviceError.Failed → Rose (D.state device.old).disk_faults (D.state device.new).disk_faults }
    ensures fine { (IsErrOf result DeviceError.Failed → ⊥) → SameFaults (D.state device.old) (D.state device.new) }
    ensures frame { Frame (D.state device.old) (D.state device.new) }
    ensures names { SameNames (D.state device.old) (D.state device.new) }
{
    let mut so_far = Gathering {
        left: count,
        slots: Slots::new(alloc),
        records: Records::new(alloc),
    };
    for slot in slots {
        if !add_slot(alloc, device, size, count, slot, &mut so_far)? {
            return Ok(None);
        }
    }
    Ok(Some(so_far))
}
