//! A chain of pages, of which the first one was read, and the others are read from the file.
ghost use Rattle.std.specs.{Prelude.{◌≡◌, ◌≤◌, ◌++◌, ◌∷◌, [], List, ℕ, false, None, Some, IsTrue, length, IfOk, IfSome, OnOk, IsErrOf}, Option.{option_map}};
ghost use Rattle.kd_device.specs.{Device.{Rose, Frame, SameFaults, SameNames}, Rest.{Rests}};
ghost use Rattle.kdcfile_layout.specs.{Chains.{chain_of}, ReadChains.{Holds}};
ghost use Rattle.kdcfile_load.specs.Reads.{page_in};

use crate::part::{page_in, part_on};
use kd_base::{Bytes, OutOfMemory};
use kd_device::{Device, DeviceError};
use kd_records::RecordKey;
use kdcfile_layout::NO_PAGE;
use kdcfile_layout::page_pool::Pages;
use std::alloc::Global;

/// What was found: the pages of a chain, and the value on them.
#[derive(Drop)]
pub struct Found {
    pub pages: Pages,
    pub value: Bytes,
}

impl Found {
    // One more page, with this piece of the value.
    fn add(&mut self, page: u32, piece: &[u8]) -> Result<(), OutOfMemory>
        ensures pages { OnOk result (self.new.pages ≡ self.old.pages ++ page ∷ []) }
        ensures value { OnOk result (self.new.value ≡ self.old.value ++ piece.now) }
    {
        self.pages.push(page)?;
        self.value.append(piece)
    }
}

// Adds the parts of the chain from this page on, which has these bytes, of so many pages; false if it is none of this
// record with a value of `whole` bytes.
fn read_parts<D: Device>(
    alloc: Global,
    device: &mut D,
    size: u32,
    count: u32,
    key: &RecordKey,
    whole: u32,
    pages: u32,
    first: u32,
    front: Vec<u8>,
    found: &mut Found,
) -> Result<bool, DeviceError>
    requires block { size ≤ 8192 }
    requires holds { Holds size pages whole }
    requires front { IsTrue (D.state device.old).told → front.items ≡ page_in size count (D.state device.old).holds first }
    requires no_pages { found.old.pages ≡ [] }
    requires no_value { found.old.value ≡ [] }
    ensures value { IfOk result (λ there. IsTrue there → IsTrue (D.state device.old).told → Some (found.new.pages, found.new.value) ≡ chain_of size count (D.state device.old).holds key.now whole 0 pages whole first) }
    ensures none { IfOk result (λ there. there ≡ false → IsTrue (D.state device.old).told → None ≡ chain_of size count (D.state device.old).holds key.now whole 0 pages whole first) }
    ensures pages { IfOk result (λ there. IsTrue there → length found.new.pages ≡ pages) }
    ensures length { IfOk result (λ there. IsTrue there → length found.new.value ≡ whole) }
    ensures rests { IsTrue (D.state device.old).told → Rests (D.state device.old) (D.state device.new) (D.leaves device.old) (D.leaves device.new) }
    ensures failed { IsErrOf result DeviceError.Failed → Rose (D.state device.old).disk_faults (D.state device.new).disk_faults }
    ensures fine { (IsErrOf result DeviceError.Failed → ⊥) → SameFaults (D.state device.old) (D.state device.new) }
    ensures frame { Frame (D.state device.old) (D.state device.new) }
    ensures names { SameNames (D.state device.old) (D.state device.new) }
{
    let payload = size as usize - 48;
    let mut page = first;
    let mut bytes = front;
    let mut room = whole as usize;
    for part in 0..pages - 1 {
        let Some(here) = part_on(alloc, size, key, whole, part, &bytes)? else {
            return Ok(false);
        };
        let (piece, _) = here.bytes.as_slice().split_at(payload);
        found.add(page, piece)?;
        room -= payload;
        page = here.next;
        bytes = page_in(alloc, device, size, count, page)?;
    }
    let Some(here) = part_on(alloc, size, key, whole, pages - 1, &bytes)? else {
        return Ok(false);
    };
    if here.next != NO_PAGE {
        return Ok(false);
    }
    let (piece, _) = here.bytes.as_slice().split_at(room);
    found.add(page, piece)?;
    Ok(true)
}

/// The chain from this page on, which has these bytes, of so many pages, if it is one of this record with a value of
/// `whole` bytes. Each further page is read once.
pub fn read_chain<D: Device>(
    alloc: Global,
    device: &mut D,
    size: u32,
    count: u32,
    key: &RecordKey,
    whole: u32,
    pages: u32,
    first: u32,
    front: Vec<u8>,
) -> Result<Option<Found>, DeviceError>
    requires block { size ≤ 8192 }
    requires holds { Holds size pages whole }
    requires front { IsTrue (D.state device.old).told → front.items ≡ page_in size count (D.state device.old).holds first }
    ensures value { IfOk result (λ o. IsTrue (D.state device.old).told → option_map (λ f. (f.pages, f.value)) o ≡ chain_of size count (D.state device.old).holds key.now whole 0 pages whole first) }
    ensures pages { IfOk result (λ o. IfSome o (λ f. length f.pages ≡ pages)) }
    ensures length { IfOk result (λ o. IfSome o (λ f. length f.value ≡ whole)) }
    ensures rests { IsTrue (D.state device.old).told → Rests (D.state device.old) (D.state device.new) (D.leaves device.old) (D.leaves device.new) }
    ensures failed { IsErrOf result DeviceError.Failed → Rose (D.state device.old).disk_faults (D.state device.new).disk_faults }
    ensures fine { (IsErrOf result DeviceError.Failed → ⊥) → SameFaults (D.state device.old) (D.state device.new) }
    ensures frame { Frame (D.state device.old) (D.state device.new) }
    ensures names { SameNames (D.state device.old) (D.state device.new) }
{
    let mut found = Found {
        pages: Pages::new(alloc),
        value: Bytes::new(alloc),
    };
    let there = read_parts(
        alloc, device, size, count, key, whole, pages, first, front, &mut found,
    )?;
    if there { Ok(Some(found)) } else { Ok(None) }
}
