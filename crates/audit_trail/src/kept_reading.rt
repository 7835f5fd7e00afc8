//! What a transaction kept, read from its bytes.
ghost use Rattle.std.specs.Prelude.{◌≡◌, find, ◌==◌};
ghost use Rattle.record_codec.specs.{Fields.{items, list_field}, Reads.{Reads, ReadsWhole}};
ghost use Rattle.audit_trail.specs.Kept.{ending_byte};
ghost use Rattle.audit_trail.specs.KeptReadings.{key_field, key_of_kind, service_at, service_field, area_at, area_field, service_with, began_reading, code_reading, note_reading, many_items};
ghost use Rattle.audit_trail.specs.KeptReadings.{statements_reading, ending_reading, kept_reading, kept_read};

use crate::kept::{ENDINGS, ending_byte};
use kd_base::{OutOfMemory, Reader};
use kd_records::RecordKey;
use kdcs_types::{Area, Code, Ending, Key, Note, Notes, Parts, Row, Service, ServiceId, Settled};
use record_codec::{Unread, key_in, last_in, list_in, record_key, row_in, u8_in, u64_in};
use std::alloc::Global;

/// No run passes so many statements.
const LAST_STATEMENT: u64 = 1_000_000_000_000;

fn key_bytes_in(reader: &mut Reader) -> Result<[u8; 24], Unread>
    ensures { Reads result reader.new (key_field reader.old) }
{
    let mut bytes = [0; 24];
    for i in 0..24 {
        bytes[i] = u8_in(reader)?;
    }
    Ok(bytes)
}

fn key_of_kind(kind: u8, reader: &mut Reader) -> Result<Key, Unread>
    ensures { Reads result reader.new (key_of_kind kind reader.old) }
{
    let bytes = key_bytes_in(reader)?;
    key_in(&RecordKey { kind, bytes })
}

fn service_at(key: &Key) -> Option<ServiceId>
    ensures { result ≡ service_at key.now }
{
    match key {
        Key::Service(id) => Some(*id),
        Key::Gssb(_) | Key::Tls(_, _) | Key::Uls(_, _) | Key::Job(_) | Key::Shown(_) => None,
    }
}

fn service_id_in(reader: &mut Reader) -> Result<ServiceId, Unread>
    ensures { Reads result reader.new (service_field reader.old) }
{
    let key = key_of_kind(4, reader)?;
    service_at(&key).ok_or(Unread::NotThere)
}

// The area with this row, if it is one.
fn area_at(key: Key) -> Option<Area>
    ensures { result ≡ area_at key }
{
    match key {
        Key::Gssb(name) => Some(Area::Gssb(name)),
        Key::Tls(block, lterm) => Some(Area::Tls(block, lterm)),
        Key::Uls(block, user) => Some(Area::Uls(block, user)),
        Key::Service(_) | Key::Job(_) | Key::Shown(_) => None,
    }
}

fn area_in(reader: &mut Reader) -> Result<Area, Unread>
    ensures { Reads result reader.new (area_field reader.old) }
{
    let kind = u8_in(reader)?;
    match key_of_kind(kind, reader) {
        Ok(key) => area_at(key).ok_or(Unread::NotThere),
        Err(unread) => Err(unread),
    }
}

fn service_with(alloc: Global, id: &ServiceId, value: &[u8]) -> Result<Service, Unread>
    ensures { ReadsWhole result (service_with id.now value.now) }
{
    match row_in(alloc, &record_key(&Key::Service(*id)), value)? {
        Row::Service(_, service) => Ok(service),
        Row::Gssb(_, _) | Row::Tls(_, _, _) | Row::Uls(_, _, _) => Err(Unread::NotThere),
        Row::Job(_, _) | Row::Shown(_, _) => Err(Unread::NotThere),
    }
}

fn began_in(alloc: Global, id: &ServiceId, reader: &mut Reader) -> Result<Option<Service>, Unread>
    ensures { Reads result reader.new (began_reading id.now reader.old) }
{
    match u8_in(reader)? {
        0 => Ok(None),
        1 => {
            let value = list_in(alloc, reader)?;
            Ok(Some(service_with(alloc, id, value.as_slice())?))
        }
        _ => Err(Unread::NotThere),
    }
}

fn so_many_inputs(alloc: Global, count: u64, reader: &mut Reader) -> Result<Parts, Unread>
    ensures { Reads result reader.new (items list_field count reader.old) }
{
    let mut inputs = Parts::new(alloc);
    for _ in 0..count {
        inputs.push(list_in(alloc, reader)?)?;
    }
    Ok(inputs)
}

fn inputs_in(alloc: Global, reader: &mut Reader) -> Result<Parts, Unread>
    ensures { Reads result reader.new (many_items list_field reader.old) }
{
    let count = u64_in(reader)?;
    so_many_inputs(alloc, count, reader)
}

fn code_in(reader: &mut Reader) -> Result<Code, Unread>
    ensures { Reads result reader.new (code_reading reader.old) }
{
    match u8_in(reader)? {
        4 => Ok(Code::K04),
        5 => Ok(Code::K05),
        _ => Err(Unread::NotThere),
    }
}

fn note_in(alloc: Global, reader: &mut Reader) -> Result<Note, Unread>
    ensures { Reads result reader.new (note_reading reader.old) }
{
    match u8_in(reader)? {
        1 => {
            let area = area_in(reader)?;
            Ok(Note::Released(area, last_in(alloc, reader)?))
        }
        2 => {
            let area = area_in(reader)?;
            Ok(Note::Refused(area, code_in(reader)?))
        }
        _ => Err(Unread::NotThere),
    }
}

fn so_many_notes(alloc: Global, count: u64, reader: &mut Reader) -> Result<Notes, Unread>
    ensures { Reads result reader.new (items note_reading count reader.old) }
{
    let mut notes = Notes::new(alloc);
    for _ in 0..count {
        notes.push(note_in(alloc, reader)?)?;
    }
    Ok(notes)
}

fn notes_in(alloc: Global, reader: &mut Reader) -> Result<Notes, Unread>
    ensures { Reads result reader.new (many_items note_reading reader.old) }
{
    let count = u64_in(reader)?;
    so_many_notes(alloc, count, reader)
}

fn statements_in(reader: &mut Reader) -> Result<u64, Unread>
    ensures { Reads result reader.new (statements_reading reader.old) }
{
    let statements = u64_in(reader)?;
    if statements > LAST_STATEMENT {
        return Err(Unread::NotThere);
    }
    Ok(statements)
}

// The first of these endings that has this number.
fn find_ending(number: u8, endings: &[Ending]) -> Option<Ending>
    ensures { result ≡ find (λ ending. ending_byte ending == number) endings.now }
{
    for ending in endings {
        if ending_byte(*ending) == number {
            return Some(*ending);
        }
    }
    None
}

fn ending_in(reader: &mut Reader) -> Result<Ending, Unread>
    ensures { Reads result reader.new (ending_reading reader.old) }
{
    let number = u8_in(reader)?;
    find_ending(number, &ENDINGS).ok_or(Unread::NotThere)
}

fn kept_in(alloc: Global, reader: &mut Reader) -> Result<Settled, Unread>
    ensures { Reads result reader.new (kept_reading reader.old) }
{
    let service = service_id_in(reader)?;
    let began = began_in(alloc, &service, reader)?;
    let inputs = inputs_in(alloc, reader)?;
    let notes = notes_in(alloc, reader)?;
    let statements = statements_in(reader)?;
    let ending = ending_in(reader)?;
    Ok(Settled {
        service,
        began,
        inputs,
        notes,
        statements,
        ending,
    })
}

/// What a transaction kept, where the bytes say it and nothing more.
pub(crate) fn kept_of(alloc: Global, bytes: &[u8]) -> Result<Settled, Unread>
    ensures { ReadsWhole result (kept_read bytes.now) }
{
    let mut reader = Reader::new(bytes);
    let kept = kept_in(alloc, &mut reader)?;
    if reader.rest() > 0 {
        return Err(Unread::NotThere);
    }
    Ok(kept)
}
