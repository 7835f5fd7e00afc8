//! What a transaction kept, as bytes.
ghost use Rattle.std.specs.Prelude.{◌≡◌, ◌++◌, flat_map, All, OnOk, IfOk};
ghost use Rattle.kd_base.specs.Field.{list};
ghost use Rattle.record_codec.specs.Fields.{IsShort};
ghost use Rattle.audit_trail.specs.{Kept.{began_bytes, area_bytes, code_byte, note_bytes, cause_byte, ending_byte, kept_bytes}, Written.{HasShortRow, HasShortNote, HasShortParts}};

use kd_base::{Bytes, OutOfMemory};
use kdcs_types::{Area, Cause, Code, Ending, Key, Note, Service, Settled};
use record_codec::{put_last, record_key, service_value};
use std::alloc::Global;

/// The endings, in the order of their numbers.
pub(crate) const ENDINGS: [Ending; 15] = [
    Ending::Synced,
    Ending::Broken(Cause::E01),
    Ending::Broken(Cause::E02),
    Ending::Broken(Cause::E03),
    Ending::Broken(Cause::E04),
    Ending::Broken(Cause::E05),
    Ending::Broken(Cause::E06),
    Ending::Broken(Cause::E07),
    Ending::Broken(Cause::E08),
    Ending::Broken(Cause::E09),
    Ending::Broken(Cause::E10),
    Ending::Broken(Cause::E11),
    Ending::Broken(Cause::E12),
    Ending::Broken(Cause::Er),
    Ending::BrokenFr,
];

fn cause_byte(cause: Cause) -> u8
    ensures { result ≡ cause_byte cause }
{
    match cause {
        Cause::E01 => 1,
        Cause::E02 => 2,
        Cause::E03 => 3,
        Cause::E04 => 4,
        Cause::E05 => 5,
        Cause::E06 => 6,
        Cause::E07 => 7,
        Cause::E08 => 8,
        Cause::E09 => 9,
        Cause::E10 => 10,
        Cause::E11 => 11,
        Cause::E12 => 12,
        Cause::Er => 13,
    }
}

/// The number of an ending.
pub(crate) fn ending_byte(ending: Ending) -> u8
    ensures { result ≡ ending_byte ending }
{
    match ending {
        Ending::Synced => 0,
        Ending::Broken(cause) => cause_byte(cause),
        Ending::BrokenFr => 14,
    }
}

fn code_byte(code: Code) -> u8
    ensures { result ≡ code_byte code }
{
    match code {
        Code::K04 => 4,
        Code::K05 => 5,
        _ => 0,
    }
}

fn put_began(alloc: Global, began: &Option<Service>, out: &mut Bytes) -> Result<(), OutOfMemory>
    requires { HasShortRow began.now }
    ensures { OnOk result (out.new ≡ out.old ++ began_bytes began.now) }
{
    match began {
        None => out.push(0),
        Some(row) => {
            out.push(1)?;
            out.put_list(service_value(alloc, row)?.as_slice())
        }
    }
}

fn put_inputs(inputs: &[Bytes], out: &mut Bytes) -> Result<(), OutOfMemory>
    requires { All IsShort inputs.now }
    ensures { OnOk result (out.new ≡ out.old ++ flat_map list inputs.now) }
{
    for input in inputs {
        out.put_list(input.as_slice())?;
    }
    Ok(())
}

fn put_area(area: &Area, out: &mut Bytes) -> Result<(), OutOfMemory>
    ensures { OnOk result (out.new ≡ out.old ++ area_bytes area.now) }
{
    let key = record_key(&area.key());
    out.push(key.kind)?;
    out.append(&key.bytes)
}

fn put_note(note: &Note, out: &mut Bytes) -> Result<(), OutOfMemory>
    requires { HasShortNote note.now }
    ensures { OnOk result (out.new ≡ out.old ++ note_bytes note.now) }
{
    match note {
        Note::Released(area, content) => {
            out.push(1)?;
            put_area(area, out)?;
            put_last(content, out)
        }
        Note::Refused(area, code) => {
            out.push(2)?;
            put_area(area, out)?;
            out.push(code_byte(*code))
        }
    }
}

fn put_notes(notes: &[Note], out: &mut Bytes) -> Result<(), OutOfMemory>
    requires { All HasShortNote notes.now }
    ensures { OnOk result (out.new ≡ out.old ++ flat_map note_bytes notes.now) }
{
    for note in notes {
        put_note(note, out)?;
    }
    Ok(())
}

/// What a transaction kept, as bytes.
pub(crate) fn kept_bytes(alloc: Global, kept: &Settled) -> Result<Bytes, OutOfMemory>
    requires { HasShortParts kept.now }
    ensures { IfOk result (λ bytes. bytes ≡ kept_bytes kept.now) }
{
    let mut out = Bytes::from_slice(alloc, &record_key(&Key::Service(kept.service)).bytes)?;
    put_began(alloc, &kept.began, &mut out)?;
    out.put_u64(kept.inputs.len() as u64)?;
    put_inputs(kept.inputs.as_slice(), &mut out)?;
    out.put_u64(kept.notes.len() as u64)?;
    put_notes(kept.notes.as_slice(), &mut out)?;
    out.put_u64(kept.statements)?;
    out.push(ending_byte(kept.ending))?;
    Ok(out)
}
