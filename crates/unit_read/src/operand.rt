//! Names, numbers and operands, one word each.
ghost use Rattle.std.specs.{Prelude.{◌≡◌, IfOk, Option, length, option_copied}, List.{list_all}};
ghost use Rattle.kd_base.specs.Text.{is_digit};
ghost use Rattle.unit_read.specs.Operands.{is_letter, is_name_byte, is_name, are_digits, name_of, header_of, in_trim, plain_operand, operand_of, relation_of, mode_of};

use crate::line::same;
use crate::word::Word;
use application_types::unit_types::{HeaderName, Operand, Relation};
use kd_base::{Bytes, LONGEST_CONTENT, Mode, OutOfMemory};
use std::alloc::Global;
use texts::first_true;

fn is_letter(b: u8) -> bool
    ensures { result ≡ is_letter b }
{
    matches!(b, b'A'..=b'Z' | b'a'..=b'z')
}

fn is_name_byte(b: u8) -> bool
    ensures { result ≡ is_name_byte b }
{
    is_letter(b) || is_digit(b) || b == b'_'
}

fn are_name_bytes(bytes: &[u8]) -> bool
    ensures { result ≡ list_all is_name_byte bytes.now }
{
    bytes.iter().all(|b| is_name_byte(*b))
}

// Whether the bytes have the form of a field's or a label's name.
pub(crate) fn is_name(bytes: &[u8]) -> bool
    ensures { result ≡ is_name bytes.now }
{
    !bytes.is_empty() && bytes.len() <= 16 && is_letter(bytes[0]) && are_name_bytes(bytes)
}

fn is_digit(b: u8) -> bool
    ensures { result ≡ is_digit b }
{
    matches!(b, b'0'..=b'9')
}

fn all_digits(bytes: &[u8]) -> bool
    ensures { result ≡ list_all is_digit bytes.now }
{
    bytes.iter().all(|b| is_digit(*b))
}

fn are_digits(bytes: &[u8]) -> bool
    ensures { result ≡ are_digits bytes.now }
{
    !bytes.is_empty() && bytes.len() <= 18 && all_digits(bytes)
}

// The name of a field or a label.
pub(crate) fn name_of(word: &Word) -> Result<Option<Bytes>, OutOfMemory>
    ensures { IfOk result (λ found. found ≡ name_of word.now) }
{
    match word {
        Word::Plain(bytes) if is_name(bytes.as_slice()) => Ok(Some(bytes.clone()?)),
        _ => Ok(None),
    }
}

pub(crate) fn header_of(name: &[u8]) -> Option<HeaderName>
    ensures { result ≡ header_of name.now }
{
    first_true(&[
        (same(name, "KCBENID"), HeaderName::Benid),
        (same(name, "KCLOGTER"), HeaderName::Logter),
        (same(name, "KCTACVG"), HeaderName::Tacvg),
        (same(name, "KCTACAL"), HeaderName::Tacal),
        (same(name, "KCRCCC"), HeaderName::Crccc),
        (same(name, "KCRLM"), HeaderName::Rlm),
    ])
}

// What is between `TRIM(` and `)`.
fn in_trim(word: &[u8]) -> Option<&[u8]>
    ensures { option_copied result ≡ in_trim word.now }
{
    if word.len() < 6 {
        return None;
    }
    let (front, rest) = word.split_at(5);
    let (inside, end) = rest.split_at(rest.len() - 1);
    if !same(front, "TRIM(") || !same(end, ")") {
        return None;
    }
    Some(inside)
}

fn plain_operand(alloc: Global, word: &Bytes) -> Result<Option<Operand>, OutOfMemory>
    ensures { IfOk result (λ found. found ≡ plain_operand word.now) }
{
    if is_name(word.as_slice()) {
        return match header_of(word.as_slice()) {
            Some(header) => Ok(Some(Operand::Header(header))),
            None => Ok(Some(Operand::Field(word.clone()?))),
        };
    }
    if are_digits(word.as_slice()) {
        return Ok(Some(Operand::Digits(word.clone()?)));
    }
    match in_trim(word.as_slice()) {
        Some(name) if is_name(name) => { Ok(Some(Operand::Trim(Bytes::from_slice(alloc, name)?))) }
        _ => Ok(None),
    }
}

pub(crate) fn operand_of(alloc: Global, word: &Word) -> Result<Option<Operand>, OutOfMemory>
    ensures { IfOk result (λ found. found ≡ operand_of word.now) }
{
    match word {
        Word::Plain(bytes) => plain_operand(alloc, bytes),
        Word::Literal(bytes) if bytes.len() <= LONGEST_CONTENT => {
            Ok(Some(Operand::Literal(bytes.clone()?)))
        }
        Word::Literal(_) => Ok(None),
    }
}

pub(crate) fn relation_of(word: &Word) -> Option<Relation>
    ensures { result ≡ relation_of word.now }
{
    let Word::Plain(bytes) = word else {
        return None;
    };
    let bytes = bytes.as_slice();
    first_true(&[
        (same(bytes, "EQ"), Relation::Eq),
        (same(bytes, "NE"), Relation::Ne),
        (same(bytes, "LT"), Relation::Lt),
        (same(bytes, "GT"), Relation::Gt),
    ])
}

pub(crate) fn mode_of(word: &Word) -> Option<Mode>
    ensures { result ≡ mode_of word.now }
{
    let Word::Plain(bytes) = word else {
        return None;
    };
    if same(bytes.as_slice(), "R") {
        Some(Mode::Relative)
    } else if same(bytes.as_slice(), "A") {
        Some(Mode::Absolute)
    } else {
        None
    }
}
