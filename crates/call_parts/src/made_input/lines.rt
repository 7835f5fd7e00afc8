//! The lines of a report.
ghost use Rattle.std.specs.Prelude.{◌≡◌, ◌++◌, IfOk, OnOk};
ghost use Rattle.abstract_monitor.specs.{Lines.{line}, Made.{number_line, total_line}};
ghost use Rattle.call_parts.specs.MadeReport.{lines_in, digest_line, report_with};

use crate::made_input::digest::digest_of;
use kd_base::{Bytes, Name, OutOfMemory};
use kdcs_types::{Area, Tables};
use std::alloc::Global;

/// The GSSB whose content is reported.
const TOTAL: &[u8] = b"TOTAL";

// How many lines were sent.
fn lines_in(sent: &[u8]) -> usize
    ensures { result ≡ lines_in sent.now }
{
    sent.iter().filter(|byte| **byte == b'\n').count()
}

// Puts a word and a number.
fn put_number(alloc: Global, out: &mut Bytes, word: &[u8], number: u64) -> Result<(), OutOfMemory>
    ensures { OnOk result (out.new ≡ out.old ++ number_line word.now number) }
{
    let digits = format!(in alloc; " {number}\n")?;
    out.append(word)?;
    out.append(digits.as_bytes())
}

// Puts the content of the GSSB TOTAL.
fn put_total(out: &mut Bytes, tables: &Tables) -> Result<(), OutOfMemory>
    ensures { OnOk result (out.new ≡ out.old ++ total_line tables.now) }
{
    out.append(b"TOTAL ")?;
    let Some(name) = Name::from_bytes(TOTAL) else {
        unreachable!();
    };
    if let Some(content) = tables.content(&Area::Gssb(name)) {
        out.append(content.as_slice())?;
    }
    out.push(b'\n')
}

// Puts the digest.
fn put_digest(
    alloc: Global,
    out: &mut Bytes,
    sent: &[u8],
    tables: &Tables,
) -> Result<(), OutOfMemory>
    ensures { OnOk result (out.new ≡ out.old ++ digest_line sent.now tables.now) }
{
    let digest = digest_of(alloc, sent, tables)?;
    let digits = hex::encode(alloc, digest.as_slice())?;
    out.append(b"DIGEST ")?;
    out.append(digits.as_bytes())?;
    out.push(b'\n')
}

/// The lines on n inputs, by the number of commits, the bytes that were sent, and the last durable tables.
pub fn made_report_lines(
    alloc: Global,
    n: u32,
    commits: u64,
    sent: &[u8],
    tables: &Tables,
) -> Result<Bytes, OutOfMemory>
    ensures { IfOk result (λ lines. lines ≡ report_with n commits sent.now tables.now) }
{
    let mut out = Bytes::new(alloc);
    put_number(alloc, &mut out, b"INPUTS", u64::from(n))?;
    put_number(alloc, &mut out, b"COMMITS", commits)?;
    put_number(alloc, &mut out, b"LINES", lines_in(sent) as u64)?;
    put_number(alloc, &mut out, b"CLOCK", tables.clock())?;
    put_total(&mut out, tables)?;
    put_digest(alloc, &mut out, sent, tables)?;
    Ok(out)
}
