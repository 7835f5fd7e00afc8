//! What a line of a units text is.

use texts::{from_first, is_blank};

/// What a line of a units text is, by its first word.
#[derive(Clone, Copy)]
pub enum LineKind<'a> {
    /// Blanks alone, or a comment.
    Passed,
    /// UNIT, with what follows it.
    Unit(&'a [u8]),
    /// FIELD, with what follows it.
    Field(&'a [u8]),
    /// A word and a colon alone, with the name before the colon.
    Label(&'a [u8]),
    End,
    Statement,
}

/// The line without the blanks at its end.
pub fn up_to_last(line: &[u8]) -> &[u8] {
    let mut n = line.len();
    while n > 0 && is_blank(line[n - 1]) {
        n -= 1;
    }
    &line[..n]
}

/// The line without the blanks in front and at its end.
pub fn without_blanks(line: &[u8]) -> &[u8] {
    up_to_last(from_first(line))
}

/// The bytes before the first blank, and those behind the blanks there.
pub fn first_word(text: &[u8]) -> (&[u8], &[u8]) {
    let mut n = 0;
    while n < text.len() && !is_blank(text[n]) {
        n += 1;
    }
    let (word, rest) = text.split_at(n);
    (word, from_first(rest))
}

// The label that a word alone is, if it is one.
fn label_of(word: &[u8]) -> Option<&[u8]> {
    match word {
        [name @ .., b':'] => Some(name),
        _ => None,
    }
}

// What a line is whose first word is this, with this behind it.
fn kind_by<'a>(word: &'a [u8], rest: &'a [u8]) -> LineKind<'a> {
    if word == b"UNIT".as_slice() {
        return LineKind::Unit(rest);
    }
    if word == b"FIELD".as_slice() {
        return LineKind::Field(rest);
    }
    if !rest.is_empty() {
        return LineKind::Statement;
    }
    if word == b"END".as_slice() {
        return LineKind::End;
    }
    match label_of(word) {
        Some(name) => LineKind::Label(name),
        None => LineKind::Statement,
    }
}

/// What a line is.
pub fn kind_of(line: &[u8]) -> LineKind<'_> {
    let text = without_blanks(line);
    if text.is_empty() {
        return LineKind::Passed;
    }
    if let [b'*', ..] = line {
        return LineKind::Passed;
    }
    let (word, rest) = first_word(text);
    kind_by(word, rest)
}
