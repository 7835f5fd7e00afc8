//! Records, read as rows.
ghost use Rattle.std.specs.Prelude.{◌≡◌, ◌≢◌, IsTrue, None, IfOk, IfSome};
ghost use Rattle.kdcs_types.specs.{declared.act.Row.{Row as RowIs}, Tables.{lterm_fits, service_fits, row_fits}};
ghost use Rattle.record_codec.specs.{Values.{record_of}, Reads.{Reads, ReadsWhole}, Fields.{AreBytes}, WholeValues.{job_reading, service_reading, ended, whole}};
ghost use Rattle.record_codec.specs.RowReadings.{id_reading, two_names, key_reading, key_read, value_read, row_read, IsProperRow, RowThere};

use crate::ascending::ascend;
use crate::keys::record_key;
use crate::reading::{Unread, job_in, name_in, service_in, u8_in, u64_in};
use kd_base::{Bytes, Name, OutOfMemory, Reader};
use kd_records::RecordKey;
use kdcs_types::{JobValue, Key, Row, Service, ServiceId};
use std::alloc::Global;

fn id_in(reader: &mut Reader) -> Result<ServiceId, Unread>
    ensures { Reads result reader.new (id_reading reader.old) }
{
    match u8_in(reader)? {
        b'D' => Ok(ServiceId::Dialogue(name_in(reader)?)),
        b'A' => Ok(ServiceId::Asynchronous(u64_in(reader)?)),
        _ => Err(Unread::NotThere),
    }
}

fn names_in(reader: &mut Reader) -> Result<(Name, Name), Unread>
    ensures { Reads result reader.new (two_names reader.old) }
{
    let first = name_in(reader)?;
    let second = name_in(reader)?;
    Ok((first, second))
}

fn key_of_kind(kind: u8, reader: &mut Reader) -> Result<Key, Unread>
    ensures { Reads result reader.new (key_reading kind reader.old) }
{
    match kind {
        1 => Ok(Key::Gssb(name_in(reader)?)),
        2 => {
            let names = names_in(reader)?;
            Ok(Key::Tls(names.0, names.1))
        }
        3 => {
            let names = names_in(reader)?;
            Ok(Key::Uls(names.0, names.1))
        }
        4 => Ok(Key::Service(id_in(reader)?)),
        5 => Ok(Key::Job(u64_in(reader)?)),
        6 => Ok(Key::Shown(name_in(reader)?)),
        _ => Err(Unread::NotThere),
    }
}

// Some bytes to be read, each below 256.
fn reader_of(bytes: &[u8]) -> Reader<'_>
    ensures same { result ≡ bytes.now }
    ensures bytes { AreBytes bytes.now }
{
    Reader::new(bytes)
}

/// The key of a row whose record has this key. It takes no memory.
pub fn key_in(key: &RecordKey) -> Result<Key, Unread>
    ensures read { ReadsWhole result (key_read key.now) }
    ensures bytes { AreBytes key.now.bytes }
{
    let mut reader = reader_of(&key.bytes);
    let read = key_of_kind(key.kind, &mut reader)?;
    if record_key(&read).compared(key).is_eq() {
        Ok(read)
    } else {
        Err(Unread::NotThere)
    }
}

// What was read, where nothing is left after it.
fn ended<T: Drop>(reader: &Reader, read: T) -> Result<T, Unread>
    ensures { ReadsWhole result (ended read reader.now) }
{
    if reader.rest() == 0 {
        Ok(read)
    } else {
        Err(Unread::NotThere)
    }
}

fn whole_service(alloc: Global, id: &ServiceId, bytes: &[u8]) -> Result<Service, Unread>
    ensures { ReadsWhole result (whole (service_reading id.now) bytes.now) }
{
    let mut reader = Reader::new(bytes);
    let service = service_in(alloc, id, &mut reader)?;
    ended(&reader, service)
}

fn whole_job(alloc: Global, bytes: &[u8]) -> Result<JobValue, Unread>
    ensures { ReadsWhole result (whole job_reading bytes.now) }
{
    let mut reader = Reader::new(bytes);
    let value = job_in(alloc, &mut reader)?;
    ended(&reader, value)
}

fn value_in(alloc: Global, key: &Key, bytes: &[u8]) -> Result<Row, Unread>
    ensures { ReadsWhole result (value_read key.now bytes.now) }
{
    match key {
        Key::Gssb(name) => Ok(Row::Gssb(*name, Bytes::from_slice(alloc, bytes)?)),
        Key::Tls(block, lterm) => Ok(Row::Tls(*block, *lterm, Bytes::from_slice(alloc, bytes)?)),
        Key::Uls(block, user) => Ok(Row::Uls(*block, *user, Bytes::from_slice(alloc, bytes)?)),
        Key::Service(id) => Ok(Row::Service(*id, whole_service(alloc, id, bytes)?)),
        Key::Job(number) => Ok(Row::Job(*number, whole_job(alloc, bytes)?)),
        Key::Shown(lterm) => Ok(Row::Shown(*lterm, whole_job(alloc, bytes)?)),
    }
}

fn lterm_fits(id: &ServiceId, lterm: &Option<Name>) -> bool
    ensures { result ≡ lterm_fits id.now lterm.now }
{
    match id {
        ServiceId::Dialogue(_) => lterm.is_none(),
        ServiceId::Asynchronous(_) => lterm.is_some(),
    }
}

fn service_fits(s: &Service) -> bool
    ensures { result ≡ service_fits s.now }
{
    lterm_fits(&s.id, &s.lterm) && ascend(s.lssbs.as_slice())
}

fn row_fits(row: &Row) -> bool
    ensures { result ≡ row_fits row.now }
{
    match row {
        Row::Gssb(_, _) | Row::Job(_, _) | Row::Shown(_, _) => true,
        Row::Tls(_, _, content) | Row::Uls(_, _, content) => !content.is_empty(),
        Row::Service(id, service) => service.id == *id && service_fits(service),
    }
}

/// The row that has this record, as `row_of` answers it.
pub fn row_in(alloc: Global, key: &RecordKey, value: &[u8]) -> Result<Row, Unread>
    ensures row { ReadsWhole result (row_read (key.now, value.now)) }
    ensures key { AreBytes key.now.bytes }
    ensures value { AreBytes value.now }
{
    let key = key_in(key)?;
    let row = value_in(alloc, &key, value)?;
    if row_fits(&row) {
        Ok(row)
    } else {
        Err(Unread::NotThere)
    }
}

/// The row that has this record: under this key this value. `None` exactly where no row that may be in tables has it.
pub fn row_of(alloc: Global, key: &RecordKey, value: &[u8]) -> Result<Option<Row>, OutOfMemory>
    ensures found { IfOk result (λ row. IfSome row (λ r. RowThere (key.now, value.now) r)) }
    ensures none { IfOk result (λ row. row ≡ None → (r : RowIs) → IsProperRow r → IsTrue (row_fits r) → (key.now, value.now) ≢ record_of r) }
{
    match row_in(alloc, key, value) {
        Ok(row) => Ok(Some(row)),
        Err(Unread::NotThere) => Ok(None),
        Err(Unread::Memory) => Err(OutOfMemory),
    }
}
