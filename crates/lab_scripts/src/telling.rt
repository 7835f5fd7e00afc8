//! What a test prints.
ghost use Rattle.std.specs.Prelude.{◌≡◌, ◌++◌, [], IfOk, OnOk, codes};
ghost use Rattle.lab_scripts.specs.Met.{difference_lines, met_line, told};

use crate::difference::Difference;
use kd_base::{Bytes, OutOfMemory};
use lab_turns::lab_printing::{Console, put_number};
use std::alloc::Global;

/// How many lines are done between two reports of how far a test has come.
const LINES_BETWEEN: u32 = 10_000;

/// Tells now and then how many lines of the script are done, beside what is printed.
pub(crate) fn tell_progress<C: Console>(
    alloc: Global,
    console: &mut C,
    number: u32,
) -> Result<(), OutOfMemory>
    ensures { OnOk result (C.passes console.old [] console.new) }
{
    if number.is_multiple_of(LINES_BETWEEN) {
        console.tell(format!(in alloc; "line {number}")?.as_str());
    }
    Ok(())
}

// The line of a text that is expected, or of one that is sent.
fn put_told(
    alloc: Global,
    out: &mut Bytes,
    line: u32,
    word: &[u8],
    text: &Option<Bytes>,
) -> Result<(), OutOfMemory>
    ensures { OnOk result (out.new ≡ out.old ++ told line word.now text.now) }
{
    let Some(text) = text else {
        return Ok(());
    };
    out.append(b"SCRIPT ")?;
    put_number(alloc, out, u64::from(line))?;
    out.append(word)?;
    out.append(text.as_slice())?;
    out.push(b'\n')
}

/// The line of a test whose lines are all met.
pub(crate) fn met_line(alloc: Global, met: u64) -> Result<Bytes, OutOfMemory>
    ensures { IfOk result (λ line. line ≡ met_line met) }
{
    let mut out = Bytes::from_slice(alloc, b"OK ")?;
    put_number(alloc, &mut out, met)?;
    out.push(b'\n')?;
    Ok(out)
}

/// The lines of a difference.
pub(crate) fn difference_lines(alloc: Global, found: &Difference) -> Result<Bytes, OutOfMemory>
    ensures { IfOk result (λ lines. lines ≡ difference_lines found.now) }
{
    let mut out = Bytes::new(alloc);
    put_told(alloc, &mut out, found.line, b" EXPECTED ", &found.expected)?;
    put_told(alloc, &mut out, found.line, b" SENT ", &found.sent)?;
    Ok(out)
}
