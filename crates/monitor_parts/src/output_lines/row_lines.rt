//! The lines of a row of each kind, and of rows.
ghost use Rattle.std.specs.Prelude.{◌≡◌, ◌∷◌, ◌++◌, [], codes, decimal, flat_map, OnOk};
ghost use Rattle.kd_base.specs.Text.{escaped};
ghost use Rattle.kdcs_types.specs.declared.service.Job.{Job as JobIs};
ghost use Rattle.abstract_monitor.specs.Listing.{spaced, gssb_line, block_line, state_text, last_text, lssb_line, service_lines, target_words, job_line, shown_line};
ghost use Rattle.monitor_parts.specs.Parts.{number_line, row_text, rows_text, service_line, kb_line};

use crate::output_lines::words::{put_escaped, put_number, put_owner, put_word};
use kd_base::{Bytes, Name, OutOfMemory};
use kdcs_types::{JobValue, Row, Service, Target};
use std::alloc::Global;

/// Puts a number of the tables: the clock, or the next job number.
pub(crate) fn put_number_line(
    alloc: Global,
    kind: &[u8],
    number: u64,
    text: &mut Bytes,
) -> Result<(), OutOfMemory>
    ensures { OnOk result (text.new ≡ text.old ++ number_line kind.now number) }
{
    text.append(kind)?;
    put_number(alloc, text, number)?;
    text.push(b'\n')
}

/// Puts a GSSB: its name and its content.
pub(crate) fn put_gssb_line(
    alloc: Global,
    name: Name,
    content: &[u8],
    text: &mut Bytes,
) -> Result<(), OutOfMemory>
    ensures { OnOk result (text.new ≡ text.old ++ gssb_line (name, content.now)) }
{
    text.append(b"GSSB")?;
    put_word(text, name.as_slice())?;
    put_escaped(alloc, text, content)?;
    text.push(b'\n')
}

/// Puts a block of TLS or ULS, as the first word says: its name, its LTERM or user, and its content.
pub(crate) fn put_block_line(
    alloc: Global,
    kind: &[u8],
    block: Name,
    owner: Name,
    content: &[u8],
    text: &mut Bytes,
) -> Result<(), OutOfMemory>
    ensures { OnOk result (text.new ≡ text.old ++ block_line kind.now (block, owner, content.now)) }
{
    text.append(kind)?;
    put_word(text, block.as_slice())?;
    put_word(text, owner.as_slice())?;
    put_escaped(alloc, text, content)?;
    text.push(b'\n')
}

fn state_text(awaits: bool) -> &'static [u8]
    ensures { result.now ≡ state_text awaits }
{
    if awaits { b"WAITS" } else { b"GOES" }
}

// Puts the last dialogue message, or `-`.
fn put_last(alloc: Global, out: &mut Bytes, last: &Option<Bytes>) -> Result<(), OutOfMemory>
    ensures { OnOk result (out.new ≡ out.old ++ 32 ∷ last_text last.now) }
{
    match last {
        Some(message) => put_escaped(alloc, out, message.as_slice()),
        None => put_word(out, b"-"),
    }
}

// Puts a service: its owner, its first and next TAC, whether it awaits an input, and its last dialogue message.
fn put_service_line(alloc: Global, service: &Service, text: &mut Bytes) -> Result<(), OutOfMemory>
    ensures { OnOk result (text.new ≡ text.old ++ service_line service.now) }
{
    text.append(b"SERVICE")?;
    put_owner(alloc, text, service.id)?;
    put_word(text, service.first.as_slice())?;
    put_word(text, service.next.as_slice())?;
    put_word(text, state_text(service.awaits))?;
    put_last(alloc, text, &service.last)?;
    text.push(b'\n')
}

// Puts the KB of a service.
fn put_kb_line(alloc: Global, service: &Service, text: &mut Bytes) -> Result<(), OutOfMemory>
    ensures { OnOk result (text.new ≡ text.old ++ kb_line service.now) }
{
    text.append(b"KB")?;
    put_owner(alloc, text, service.id)?;
    put_escaped(alloc, text, service.kb.as_slice())?;
    text.push(b'\n')
}

// Puts an LSSB of a service.
fn put_lssb_line(
    alloc: Global,
    service: &Service,
    lssb: &(Name, Bytes),
    text: &mut Bytes,
) -> Result<(), OutOfMemory>
    ensures { OnOk result (text.new ≡ text.old ++ lssb_line service.now lssb.now) }
{
    text.append(b"LSSB")?;
    put_owner(alloc, text, service.id)?;
    put_word(text, lssb.0.as_slice())?;
    put_escaped(alloc, text, lssb.1.as_slice())?;
    text.push(b'\n')
}

fn put_lssbs(alloc: Global, service: &Service, text: &mut Bytes) -> Result<(), OutOfMemory>
    ensures { OnOk result (text.new ≡ text.old ++ flat_map (lssb_line service.now) service.now.lssbs) }
{
    for lssb in service.lssbs.as_slice() {
        put_lssb_line(alloc, service, lssb, text)?;
    }
    Ok(())
}

/// Puts a service, its KB and its LSSBs.
pub(crate) fn put_service(
    alloc: Global,
    service: &Service,
    text: &mut Bytes,
) -> Result<(), OutOfMemory>
    ensures { OnOk result (text.new ≡ text.old ++ service_lines service.now) }
{
    put_service_line(alloc, service, text)?;
    put_kb_line(alloc, service, text)?;
    put_lssbs(alloc, service, text)
}

// Puts `T` and a TAC, or `L` and an LTERM.
fn put_target(out: &mut Bytes, to: Target) -> Result<(), OutOfMemory>
    ensures { OnOk result (out.new ≡ out.old ++ spaced (target_words to)) }
{
    match to {
        Target::Tac(tac) => {
            put_word(out, b"T")?;
            put_word(out, tac.as_slice())
        }
        Target::Lterm(lterm) => {
            put_word(out, b"L")?;
            put_word(out, lterm.as_slice())
        }
    }
}

// Puts when a job is due, who made it and where, and its message.
fn put_value(alloc: Global, out: &mut Bytes, value: &JobValue) -> Result<(), OutOfMemory>
    ensures { OnOk result (out.new ≡ out.old
        ++ spaced (codes "DUE" ∷ decimal value.now.due ∷ value.now.user ∷ value.now.lterm ∷ escaped value.now.message ∷ [])) }
{
    put_word(out, b"DUE")?;
    put_number(alloc, out, value.due)?;
    put_word(out, value.user.as_slice())?;
    put_word(out, value.lterm.as_slice())?;
    put_escaped(alloc, out, value.message.as_slice())
}

/// Puts a job: its number, its target, when it is due, who made it and where, and its message.
pub(crate) fn put_job_line(
    alloc: Global,
    number: u64,
    value: &JobValue,
    text: &mut Bytes,
) -> Result<(), OutOfMemory>
    ensures { OnOk result (text.new ≡ text.old ++ job_line (record { number = number; value = value.now })) }
{
    text.append(b"JOB")?;
    put_number(alloc, text, number)?;
    put_target(text, value.to)?;
    put_value(alloc, text, value)?;
    text.push(b'\n')
}

/// Puts the message that an LTERM shows.
pub(crate) fn put_shown_line(
    alloc: Global,
    lterm: Name,
    value: &JobValue,
    text: &mut Bytes,
) -> Result<(), OutOfMemory>
    ensures { OnOk result (text.new ≡ text.old ++ shown_line (lterm, value.now)) }
{
    text.append(b"SHOWN")?;
    put_word(text, lterm.as_slice())?;
    put_escaped(alloc, text, value.message.as_slice())?;
    text.push(b'\n')
}

// Puts the lines of a row: one, or those of a service.
fn put_row(alloc: Global, row: &Row, text: &mut Bytes) -> Result<(), OutOfMemory>
    ensures { OnOk result (text.new ≡ text.old ++ row_text row.now) }
{
    match row {
        Row::Gssb(name, content) => put_gssb_line(alloc, *name, content.as_slice(), text),
        Row::Tls(block, lterm, content) => {
            put_block_line(alloc, b"TLS", *block, *lterm, content.as_slice(), text)
        }
        Row::Uls(block, user, content) => {
            put_block_line(alloc, b"ULS", *block, *user, content.as_slice(), text)
        }
        Row::Service(_id, service) => put_service(alloc, service, text),
        Row::Job(number, value) => put_job_line(alloc, *number, value, text),
        Row::Shown(lterm, value) => put_shown_line(alloc, *lterm, value, text),
    }
}

/// Puts the lines of rows, as they stand in the listing of tables, one row after the other.
pub fn put_rows(alloc: Global, rows: &[Row], text: &mut Bytes) -> Result<(), OutOfMemory>
    ensures { OnOk result (text.new ≡ text.old ++ rows_text rows.now) }
{
    for row in rows {
        put_row(alloc, row, text)?;
    }
    Ok(())
}
