//! Lines: words, comments, and the mark of a line that is continued.
ghost use Rattle.std.specs.{Prelude.{◌≡◌, ◌<◌, ◌≤◌, ◌-◌, length, drop, option_copied}, List.{prefix_len, suffix_len, take_while}};
ghost use Rattle.texts.specs.Blanks.{is_blank, from_first};
ghost use Rattle.texts.specs.Lines.{is_word_byte, is_mark, up_to_last, is_remark, is_comment, is_passed, continued};

use crate::{from_first, is_blank};

pub(crate) fn is_word_byte(b: u8) -> bool
    ensures { result ≡ is_word_byte b }
{
    !(is_blank(b) || matches!(b, b',' | b'=' | b'(' | b')' | b'\''))
}

// The marks of a line that is continued.
fn is_mark(b: u8) -> bool
    ensures { result ≡ is_mark b }
{
    b == b'-' || b == b'\\'
}

// The word at the front, and what follows it.
pub(crate) fn split_word(line: &[u8]) -> (&[u8], &[u8])
    ensures word { result.0.now ≡ take_while is_word_byte line.now }
    ensures rest { result.1.now ≡ drop (prefix_len is_word_byte line.now) line.now }
{
    let mut n = 0;
    while n < line.len() && is_word_byte(line[n]) {
        n += 1;
    }
    line.split_at(n)
}

// The keyword of a comment, in either case.
fn is_remark(word: &[u8]) -> bool
    ensures { result ≡ is_remark word.now }
{
    word.eq_ignore_ascii_case(b"REMARK")
}

// The line up to its last byte that is no blank.
fn up_to_last(line: &[u8]) -> &[u8]
    ensures { result.now ≡ up_to_last line.now }
{
    let mut n = line.len();
    while n > 0 && is_blank(line[n - 1]) {
        n -= 1;
    }
    &line[..n]
}

// Whether the line is empty or a comment.
pub(crate) fn is_passed(line: &[u8]) -> bool
    ensures { result ≡ is_passed line.now }
{
    let rest = from_first(line);
    if rest.is_empty() {
        return true;
    }
    let (word, _) = split_word(rest);
    rest[0] == b'*' || is_remark(word)
}

// What the line gives to its statement, where it is continued: its bytes before the `-` or `\` at its end.
pub(crate) fn continued(line: &[u8]) -> Option<&[u8]>
    ensures { option_copied result ≡ continued line.now }
{
    let text = up_to_last(line);
    if text.is_empty() || !is_mark(text[text.len() - 1]) {
        return None;
    }
    Some(&text[..text.len() - 1])
}
