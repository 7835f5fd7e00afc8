//! Bytes as cases write them.

use kd_base::{Bytes, OutOfMemory};
use std::alloc::Global;

fn hex_value(digit: u8) -> Option<u8> {
    match digit {
        b'0'..=b'9' => Some(digit - b'0'),
        b'a'..=b'f' => Some(digit - b'a' + 10),
        _ => None,
    }
}

fn hex_byte(high: u8, low: u8) -> Option<u8> {
    Some(
        hex_value(high)?
            .wrapping_mul(16)
            .wrapping_add(hex_value(low)?),
    )
}

/// Whether the text has a place for a number.
pub fn has_number(text: &str) -> bool {
    text.contains("\\#")
}

/// What a part of a text writes.
#[derive(Clone, Copy)]
enum Written {
    Byte(u8),
    Number,
}

// What is behind a backslash, and the text after it.
fn behind_backslash(text: &[u8]) -> Option<(Written, &[u8])> {
    match text {
        [b'\\', rest @ ..] => Some((Written::Byte(b'\\'), rest)),
        [b'#', rest @ ..] => Some((Written::Number, rest)),
        [b'x', high, low, rest @ ..] => Some((Written::Byte(hex_byte(*high, *low)?), rest)),
        _ => None,
    }
}

// What the text writes first, and the text after it.
fn first_written(text: &[u8]) -> Option<(Written, &[u8])> {
    match text {
        [b'\\', rest @ ..] => behind_backslash(rest),
        [byte, rest @ ..] => Some((Written::Byte(*byte), rest)),
        [] => None,
    }
}

fn append_number(alloc: Global, number: u64, out: &mut Bytes) -> Result<(), OutOfMemory> {
    let digits = format!(in alloc; "{number}")?;
    out.append(digits.as_bytes())
}

/// Appends the bytes that this text writes: `\\` is a backslash, `\x` with two hexadecimal digits a byte, `\#` the number.
/// False where a backslash has anything else after it.
pub fn unescape(
    alloc: Global,
    text: &str,
    number: u64,
    out: &mut Bytes,
) -> Result<bool, OutOfMemory> {
    let mut rest = text.as_bytes();
    for _ in 0..rest.len() {
        let Some((written, behind)) = first_written(rest) else {
            break;
        };
        match written {
            Written::Byte(byte) => out.push(byte)?,
            Written::Number => append_number(alloc, number, out)?,
        }
        rest = behind;
    }
    Ok(rest.is_empty())
}
