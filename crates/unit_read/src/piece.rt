//! The pieces of units, one to a line.
ghost use Rattle.std.specs.{Prelude.{◌≡◌, ◌<◌, ◌≤◌, IfOk, length, option_copied}, Option.{option_map}};
ghost use Rattle.unit_read.specs.Pieces.{plain, number_from, area_of, new_field, field_parts, field_of, unit_of, before_colon, label_in, inner_of, piece_of};

use crate::line::same;
use crate::operand::{header_of, is_name};
use crate::said::Said;
use crate::statement::action_of;
use crate::word::Word;
use kd_base::{Bytes, LONGEST_CONTENT, OutOfMemory, ProgName, decimal_of};
use std::alloc::Global;

/// A line of a units text that is neither empty nor a comment.
#[derive(Drop)]
pub(crate) enum Piece {
    Unit(ProgName),
    /// Name, whether it is in SPAB, offset and length.
    Field(Bytes, bool, u32, u32),
    Label(Bytes),
    Statement(Said),
    End,
}

fn plain(word: &Word) -> Option<&[u8]>
    ensures { option_copied result ≡ plain word.now }
{
    match word {
        Word::Plain(bytes) => Some(bytes.as_slice()),
        Word::Literal(_) => None,
    }
}

// The number that the word says, from the least one to 32,767.
fn number_from(least: u64, word: &Word) -> Option<u32>
    ensures { result ≡ number_from least word.now }
{
    let number = decimal_of(plain(word)?)?;
    if number < least || number > LONGEST_CONTENT as u64 {
        return None;
    }
    Some(number as u32)
}

// Whether the area is SPAB; else it is KB.
fn area_of(word: &Word) -> Option<bool>
    ensures { result ≡ area_of word.now }
{
    let area = plain(word)?;
    if same(area, "SPAB") {
        Some(true)
    } else if same(area, "KB") {
        Some(false)
    } else {
        None
    }
}

// The name of a new field, which is no header name.
fn new_field(word: &Word) -> Option<&[u8]>
    ensures { option_copied result ≡ new_field word.now }
{
    let name = plain(word)?;
    if !is_name(name) || header_of(name).is_some() {
        return None;
    }
    Some(name)
}

// Name, whether it is in SPAB, offset and length.
fn field_parts<'a>(
    name: &'a Word,
    area: &Word,
    offset: &Word,
    length: &Word,
) -> Option<(&'a [u8], bool, u32, u32)>
    ensures { option_map (λ p. (p.0.now, (p.1, (p.2, p.3)))) result ≡ field_parts name.now area.now offset.now length.now }
{
    Some((
        new_field(name)?,
        area_of(area)?,
        number_from(0, offset)?,
        number_from(1, length)?,
    ))
}

// After FIELD.
fn field_of(alloc: Global, words: &[Word]) -> Result<Option<Piece>, OutOfMemory>
    ensures { IfOk result (λ found. found ≡ field_of words.now) }
{
    let [name, area, offset, length] = words else {
        return Ok(None);
    };
    match field_parts(name, area, offset, length) {
        Some((name, spab, offset, length)) => {
            let name = Bytes::from_slice(alloc, name)?;
            Ok(Some(Piece::Field(name, spab, offset, length)))
        }
        None => Ok(None),
    }
}

// After UNIT.
fn unit_of(words: &[Word]) -> Option<Piece>
    ensures { result ≡ unit_of words.now }
{
    let [name] = words else {
        return None;
    };
    let name = ProgName::from_bytes(plain(name)?)?;
    Some(Piece::Unit(name))
}

// The name before a colon.
fn before_colon(word: &[u8]) -> Option<&[u8]>
    ensures { option_copied result ≡ before_colon word.now }
{
    if word.is_empty() || word[word.len() - 1] != b':' {
        return None;
    }
    let name = &word[..word.len() - 1];
    if !is_name(name) {
        return None;
    }
    Some(name)
}

// The name of the label that is the only word.
fn label_in(words: &[Word]) -> Option<&[u8]>
    ensures { option_copied result ≡ label_in words.now }
{
    match words {
        [Word::Plain(word)] => before_colon(word.as_slice()),
        _ => None,
    }
}

// A label or a statement.
fn inner_of(alloc: Global, words: &[Word]) -> Result<Option<Piece>, OutOfMemory>
    ensures { IfOk result (λ found. found ≡ inner_of (label_in words.now) words.now) }
{
    if let Some(name) = label_in(words) {
        return Ok(Some(Piece::Label(Bytes::from_slice(alloc, name)?)));
    }
    match action_of(alloc, words)? {
        None => Ok(None),
        Some(said) => Ok(Some(Piece::Statement(said))),
    }
}

/// The piece that the words are.
pub(crate) fn piece_of(alloc: Global, words: &[Word]) -> Result<Option<Piece>, OutOfMemory>
    ensures { IfOk result (λ found. found ≡ piece_of words.now) }
{
    let [Word::Plain(first), rest @ ..] = words else {
        return Ok(None);
    };
    if same(first.as_slice(), "UNIT") {
        return Ok(unit_of(rest));
    }
    if same(first.as_slice(), "FIELD") {
        return field_of(alloc, rest);
    }
    if same(first.as_slice(), "END") && rest.is_empty() {
        return Ok(Some(Piece::End));
    }
    inner_of(alloc, words)
}
