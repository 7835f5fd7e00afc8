//! The lines that are sent, by the names that they begin with.
ghost use Rattle.std.specs.{Prelude.{◌≡◌, ◌≤◌, IfOk, length}, List.{insert}, Str.Lines.{lines}};
ghost use Rattle.lab_walks.specs.Outcomes.{before_blank, behind_blank, by_name, name_in, placed};

use kd_base::{Bytes, OutOfMemory, Sequence};
use std::alloc::Global;
use std::cmp::Ordering;
use texts::next_line;

fn behind_blank(text: &[u8]) -> &[u8]
    ensures { result.now ≡ behind_blank text.now }
{
    let mut rest = text;
    while let Some((byte, behind)) = rest.split_first() {
        rest = behind;
        if *byte == b' ' {
            return rest;
        }
    }
    rest
}

fn before_blank(text: &[u8]) -> &[u8]
    ensures { result.now ≡ before_blank text.now }
{
    for (at, byte) in text.iter().enumerate() {
        if *byte == b' ' {
            return &text[..at];
        }
    }
    text
}

// The second word of a line.
fn name_in(line: &[u8]) -> &[u8]
    ensures { result.now ≡ name_in line.now }
{
    before_blank(behind_blank(line))
}

// The place of a line behind those whose names are not greater.
fn place_for(line: &[u8], others: &[Bytes]) -> usize
    ensures within { result ≤ length others.now }
    ensures place { insert others.now result line.now ≡ placed line.now others.now }
{
    let name = name_in(line);
    for (at, other) in others.iter().enumerate() {
        if name.cmp(name_in(other.as_slice())) == Ordering::Less {
            return at;
        }
    }
    others.len()
}

/// The lines of a text by their names, those of one name in their order.
pub(crate) fn by_name(alloc: Global, text: &[u8]) -> Result<Sequence<Bytes>, OutOfMemory>
    ensures { IfOk result (λ sorted. sorted ≡ by_name text.now) }
{
    let mut sorted = Vec::new(alloc);
    let mut rest = text;
    while !rest.is_empty() {
        let (line, behind) = next_line(rest);
        let at = place_for(line, sorted.as_slice());
        sorted.insert(at, Bytes::from_slice(alloc, line)?)?;
        rest = behind;
    }
    Ok(Sequence::from_vec(sorted))
}
