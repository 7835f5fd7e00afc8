//! The words of a line, and what a line says that a call did.

use crate::failing::Failing;
use crate::files::Which;

/// What a line says that the last call did.
#[derive(Clone, Copy)]
pub enum Said<'a> {
    /// It answered this status.
    Status(u8),
    /// The next line that it sent.
    Sent(&'a str),
    /// The length of the file that it left.
    Length(Which, u64),
    /// The file that it left has these bytes there.
    Holds(Which, u64, &'a str),
    /// It left the file as it was.
    Same(Which),
}

/// The first word of a text, and what comes behind the blank after it.
pub fn split(text: &str) -> (&str, &str) {
    text.split_once(' ').unwrap_or((text, ""))
}

pub fn number(word: &str) -> Option<u64> {
    word.parse::<u64>().ok()
}

pub fn number_and_text(rest: &str) -> Option<(u64, &str)> {
    let (first, text) = rest.split_once(' ')?;
    Some((number(first)?, text))
}

pub fn numbers(rest: &str) -> Option<(u64, u64)> {
    let (first, second) = number_and_text(rest)?;
    Some((first, number(second)?))
}

/// What fails, by its name, and the text behind it.
pub fn failing_and_text(which: Which, rest: &str) -> Option<(Failing, &str)> {
    let (kind, text) = rest.split_once(' ')?;
    Some((Failing::of(which, kind)?, text))
}
