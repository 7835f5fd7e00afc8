//! Values of records, read from their bytes.
ghost use Rattle.std.specs.{Prelude.{◌≡◌, List, ℕ, Option}, Int.{w8, w32, w64}};
ghost use Rattle.record_codec.specs.{Reads.{Reads}, Fields.{name_field, number_field, list_field, items, counted_items}, Readings.{flag_reading, last_reading, target_reading, lterm_reading}};
ghost use Rattle.record_codec.specs.WholeValues.{job_reading, lssb_reading, service_reading};

use kd_base::{Bytes, Name, OutOfMemory, Reader, Sequence};
use kdcs_types::{JobValue, Service, ServiceId, Target};
use std::alloc::Global;

/// Why a row, or another value, was not read.
#[derive(Drop)]
pub enum Unread {
    /// The bytes are not those of one.
    NotThere,
    Memory,
}

impl From<OutOfMemory> for Unread {
    ghost use Rattle.record_codec.specs.Reads.{of_memory};

    ghost from_gives = { λ e r. r ≡ of_memory };

    fn from(_: OutOfMemory) -> Self {
        Unread::Memory
    }
}

pub(crate) fn name_in(reader: &mut Reader) -> Result<Name, Unread>
    ensures { Reads result reader.new (name_field reader.old) }
{
    reader.name_at().ok_or(Unread::NotThere)
}

/// One byte.
pub fn u8_in(reader: &mut Reader) -> Result<u8, Unread>
    ensures { Reads result reader.new (number_field w8 reader.old) }
{
    reader.u8_at().ok_or(Unread::NotThere)
}

fn u32_in(reader: &mut Reader) -> Result<u32, Unread>
    ensures { Reads result reader.new (number_field w32 reader.old) }
{
    reader.u32_at().ok_or(Unread::NotThere)
}

/// Eight bytes as a number.
pub fn u64_in(reader: &mut Reader) -> Result<u64, Unread>
    ensures { Reads result reader.new (number_field w64 reader.old) }
{
    reader.u64_at().ok_or(Unread::NotThere)
}

/// A length of four bytes and so many bytes.
pub fn list_in(alloc: Global, reader: &mut Reader) -> Result<Bytes, Unread>
    ensures { Reads result reader.new (list_field reader.old) }
{
    reader.list_at(alloc)?.ok_or(Unread::NotThere)
}

fn flag_in(reader: &mut Reader) -> Result<bool, Unread>
    ensures { Reads result reader.new (flag_reading reader.old) }
{
    match u8_in(reader)? {
        0 => Ok(false),
        1 => Ok(true),
        _ => Err(Unread::NotThere),
    }
}

/// 0, or 1 and a list.
pub fn last_in(alloc: Global, reader: &mut Reader) -> Result<Option<Bytes>, Unread>
    ensures { Reads result reader.new (last_reading reader.old) }
{
    match u8_in(reader)? {
        0 => Ok(None),
        1 => Ok(Some(list_in(alloc, reader)?)),
        _ => Err(Unread::NotThere),
    }
}

fn target_in(reader: &mut Reader) -> Result<Target, Unread>
    ensures { Reads result reader.new (target_reading reader.old) }
{
    let kind = u8_in(reader)?;
    let name = name_in(reader)?;
    match kind {
        b'T' => Ok(Target::Tac(name)),
        b'L' => Ok(Target::Lterm(name)),
        _ => Err(Unread::NotThere),
    }
}

// Eight spaces as a number: the LTERM of a dialogue service.
const EIGHT_SPACES: u64 = 0x2020_2020_2020_2020;

fn lterm_in(id: &ServiceId, reader: &mut Reader) -> Result<Option<Name>, Unread>
    ensures { Reads result reader.new (lterm_reading id.now reader.old) }
{
    match id {
        ServiceId::Dialogue(_) => {
            if u64_in(reader)? == EIGHT_SPACES {
                Ok(None)
            } else {
                Err(Unread::NotThere)
            }
        }
        ServiceId::Asynchronous(_) => Ok(Some(name_in(reader)?)),
    }
}

/// A due is below this: it has seven bytes.
const DUE_END: u64 = 0x0100_0000_0000_0000;

pub(crate) fn job_in(alloc: Global, reader: &mut Reader) -> Result<JobValue, Unread>
    ensures { Reads result reader.new (job_reading reader.old) }
{
    let to = target_in(reader)?;
    let times = u64_in(reader)?;
    let user = name_in(reader)?;
    let lterm = name_in(reader)?;
    let message = list_in(alloc, reader)?;
    Ok(JobValue {
        to,
        due: times % DUE_END,
        redelivered: (times / DUE_END) as u8,
        user,
        lterm,
        message,
    })
}

/// What is in a value as often as a count before it says.
trait Item: Drop {
    ghost reading: { List ℕ → Option (Self × List ℕ) };

    fn read(alloc: Global, reader: &mut Reader) -> Result<Self, Unread>
        ensures { Reads result reader.new (reading reader.old) };
}

// A handed part.
impl Item for Bytes {
    ghost reading = { list_field };

    fn read(alloc: Global, reader: &mut Reader) -> Result<Bytes, Unread> {
        list_in(alloc, reader)
    }
}

// An LSSB.
impl Item for (Name, Bytes) {
    ghost reading = { lssb_reading };

    fn read(alloc: Global, reader: &mut Reader) -> Result<(Name, Bytes), Unread> {
        let name = name_in(reader)?;
        let content = list_in(alloc, reader)?;
        Ok((name, content))
    }
}

fn items_in<T: Item>(alloc: Global, count: u32, reader: &mut Reader) -> Result<Sequence<T>, Unread>
    ensures { Reads result reader.new (items T.reading count reader.old) }
{
    let mut items = Sequence::new(alloc);
    for _ in 0..count {
        items.push(T::read(alloc, reader)?)?;
    }
    Ok(items)
}

fn counted_in<T: Item>(alloc: Global, reader: &mut Reader) -> Result<Sequence<T>, Unread>
    ensures { Reads result reader.new (counted_items T.reading reader.old) }
{
    let count = u32_in(reader)?;
    items_in(alloc, count, reader)
}

pub(crate) fn service_in(
    alloc: Global,
    id: &ServiceId,
    reader: &mut Reader,
) -> Result<Service, Unread>
    ensures { Reads result reader.new (service_reading id.now reader.old) }
{
    let first = name_in(reader)?;
    let next = name_in(reader)?;
    let awaits = flag_in(reader)?;
    let user = name_in(reader)?;
    let lterm = lterm_in(id, reader)?;
    let kb = list_in(alloc, reader)?;
    let handed = counted_in(alloc, reader)?;
    let last = last_in(alloc, reader)?;
    let lssbs = counted_in(alloc, reader)?;
    Ok(Service {
        id: *id,
        first,
        next,
        awaits,
        user,
        lterm,
        kb,
        handed,
        last,
        lssbs,
    })
}
