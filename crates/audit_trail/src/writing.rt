//! Writing a trail, piece by piece.
ghost use Rattle.std.specs.Prelude.{◌≡◌, ◌++◌, ◌∷◌, [], decimal, flat_map, Some, None, All, OnOk, IfOk};
ghost use Rattle.hex.specs.Hex.{encode_lower};
ghost use Rattle.record_codec.specs.{Fields.{AreBytes}, Records.{content_of_tables, patch_of, HasShortValues}, TableReadings.{AreRecordBytes}, Values.{HasShortChange}};
ghost use Rattle.audit_trail.specs.Printed.{line, change_line, set_line, changes_lines, by_line, entry_lines, head_lines, end_line};
ghost use Rattle.audit_trail.specs.Written.{HasShortEntry, HasShortMaker, AreChangeBytes, AreEntryBytes, AreMakerBytes};

use crate::entry::{By, TrailEntry};
use crate::hexadecimal::{put_hex, put_value};
use crate::kept::kept_bytes;
use kd_base::{Bytes, OutOfMemory};
use kd_records::RecordKey;
use kdcs_types::{Changes, Tables};
use record_codec::{difference, records};
use std::alloc::Global;

fn put_word(out: &mut Bytes, word: &[u8]) -> Result<(), OutOfMemory>
    ensures { OnOk result (out.new ≡ out.old ++ 32 ∷ word.now) }
{
    out.push(b' ')?;
    out.append(word)
}

fn put_number(out: &mut Bytes, alloc: Global, number: u64) -> Result<(), OutOfMemory>
    ensures { OnOk result (out.new ≡ out.old ++ 32 ∷ decimal number) }
{
    let digits = format!(in alloc; "{number}")?;
    put_word(out, digits.as_bytes())
}

// A keyword, and the two numbers of tables.
fn put_numbers(
    out: &mut Bytes,
    alloc: Global,
    keyword: &[u8],
    clock: u64,
    next_job: u64,
) -> Result<(), OutOfMemory>
    ensures { OnOk result (out.new ≡ out.old ++ line keyword.now (decimal clock ∷ decimal next_job ∷ [])) }
{
    out.append(keyword)?;
    put_number(out, alloc, clock)?;
    put_number(out, alloc, next_job)?;
    out.push(b'\n')
}

// The kind and the key of a record.
fn put_key(out: &mut Bytes, alloc: Global, key: &RecordKey) -> Result<(), OutOfMemory>
    ensures put { OnOk result (out.new ≡ out.old ++ 32 ∷ decimal key.now.kind ++ 32 ∷ encode_lower key.now.bytes) }
    ensures bytes { OnOk result (AreBytes key.now.bytes) }
{
    put_number(out, alloc, u64::from(key.kind))?;
    out.push(b' ')?;
    put_hex(out, alloc, &key.bytes)
}

// A record that is set.
fn put_set(out: &mut Bytes, alloc: Global, key: &RecordKey, value: &[u8]) -> Result<(), OutOfMemory>
    ensures put { OnOk result (out.new ≡ out.old ++ change_line (key.now, Some value.now)) }
    ensures bytes { OnOk result (AreRecordBytes (key.now, value.now)) }
{
    out.push(b'S')?;
    put_key(out, alloc, key)?;
    out.push(b' ')?;
    put_value(out, alloc, value)?;
    out.push(b'\n')
}

// A record that is removed.
fn put_removed(out: &mut Bytes, alloc: Global, key: &RecordKey) -> Result<(), OutOfMemory>
    ensures put { OnOk result (out.new ≡ out.old ++ change_line (key.now, None)) }
    ensures bytes { OnOk result (AreBytes key.now.bytes) }
{
    out.push(b'D')?;
    put_key(out, alloc, key)?;
    out.push(b'\n')
}

fn put_records(
    out: &mut Bytes,
    alloc: Global,
    records: &[(RecordKey, Bytes)],
) -> Result<(), OutOfMemory>
    ensures put { OnOk result (out.new ≡ out.old ++ flat_map set_line records.now) }
    ensures bytes { OnOk result (All AreRecordBytes records.now) }
{
    for record in records {
        put_set(out, alloc, &record.0, record.1.as_slice())?;
    }
    Ok(())
}

fn put_change(
    out: &mut Bytes,
    alloc: Global,
    change: &(RecordKey, Option<Bytes>),
) -> Result<(), OutOfMemory>
    ensures put { OnOk result (out.new ≡ out.old ++ change_line change.now) }
    ensures bytes { OnOk result (AreChangeBytes change.now) }
{
    match &change.1 {
        Some(value) => put_set(out, alloc, &change.0, value.as_slice()),
        None => put_removed(out, alloc, &change.0),
    }
}

fn put_items(
    out: &mut Bytes,
    alloc: Global,
    items: &[(RecordKey, Option<Bytes>)],
) -> Result<(), OutOfMemory>
    ensures put { OnOk result (out.new ≡ out.old ++ flat_map change_line items.now) }
    ensures bytes { OnOk result (All AreChangeBytes items.now) }
{
    for item in items {
        put_change(out, alloc, item)?;
    }
    Ok(())
}

fn put_changes(out: &mut Bytes, alloc: Global, changes: &Changes) -> Result<(), OutOfMemory>
    requires { All HasShortChange changes.now.items }
    ensures put { OnOk result (out.new ≡ out.old ++ changes_lines changes.now) }
    ensures bytes { OnOk result (All AreChangeBytes (patch_of changes.now).items) }
{
    let patch = difference(alloc, changes)?;
    put_numbers(out, alloc, b"C", patch.clock, patch.next_job)?;
    put_items(out, alloc, patch.items.as_slice())
}

// A keyword and one word.
fn line_of(alloc: Global, keyword: &[u8], word: &[u8]) -> Result<Bytes, OutOfMemory>
    ensures { IfOk result (λ out. out ≡ line keyword.now (word.now ∷ [])) }
{
    let mut out = Bytes::from_slice(alloc, keyword)?;
    put_word(&mut out, word)?;
    out.push(b'\n')?;
    Ok(out)
}

// A keyword and bytes.
fn hex_line(alloc: Global, keyword: &[u8], bytes: &[u8]) -> Result<Bytes, OutOfMemory>
    ensures line { IfOk result (λ out. out ≡ line keyword.now (encode_lower bytes.now ∷ [])) }
    ensures bytes { AreBytes bytes.now }
{
    let mut digits = Bytes::new(alloc);
    put_hex(&mut digits, alloc, bytes)?;
    line_of(alloc, keyword, digits.as_slice())
}

// What made a commit.
fn by_line(alloc: Global, by: &By) -> Result<Bytes, OutOfMemory>
    requires { HasShortMaker by.now }
    ensures line { IfOk result (λ out. out ≡ by_line by.now) }
    ensures bytes { IfOk result (λ _. AreMakerBytes by.now) }
{
    match by {
        By::Tick(ticks) => line_of(alloc, b"N", format!(in alloc; "{ticks}")?.as_bytes()),
        By::Shown(lterm) => line_of(alloc, b"O", lterm.as_slice()),
        By::Transaction(kept) => hex_line(alloc, b"T", kept_bytes(alloc, kept)?.as_slice()),
    }
}

/// The TRAIL line, and the START line with the S lines of the tables.
pub fn head_lines(
    alloc: Global,
    fingerprint: &[u8; 32],
    start: &Tables,
) -> Result<Bytes, OutOfMemory>
    requires { HasShortValues start.now }
    ensures lines { IfOk result (λ out. out ≡ head_lines fingerprint.now start.now) }
    // What was written are bytes.
    ensures fingerprint { AreBytes fingerprint.now }
    ensures bytes { IfOk result (λ _. All AreRecordBytes (content_of_tables start.now).items) }
{
    let mut out = hex_line(alloc, b"TRAIL", fingerprint)?;
    let content = records(alloc, start)?;
    put_numbers(&mut out, alloc, b"START", content.clock, content.next_job)?;
    put_records(&mut out, alloc, content.items.as_slice())?;
    Ok(out)
}

/// The lines of an entry: the N, O or T line, the C line, and the S and D lines.
pub fn entry_lines(alloc: Global, entry: &TrailEntry) -> Result<Bytes, OutOfMemory>
    requires { HasShortEntry entry.now }
    ensures lines { IfOk result (λ out. out ≡ entry_lines entry.now) }
    // What was written are bytes.
    ensures bytes { IfOk result (λ _. AreEntryBytes entry.now) }
{
    let mut out = by_line(alloc, &entry.by)?;
    put_changes(&mut out, alloc, &entry.changes)?;
    Ok(out)
}

/// The END line, after the head and the entries.
pub fn end_line() -> &'static [u8]
    ensures { result.now ≡ end_line }
{
    b"END\n"
}
