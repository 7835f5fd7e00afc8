//! The lines that are passed over, and words that stand for something.
ghost use Rattle.std.specs.Prelude.{◌≡◌, bytes_eq};
ghost use Rattle.unit_read.specs.Lines.{is_passed};

use texts::from_first;

// Whether the line is of blanks alone, or a comment.
pub(crate) fn is_passed(line: &[u8]) -> bool
    ensures { result ≡ is_passed line.now }
{
    from_first(line).is_empty() || line[0] == b'*'
}

pub(crate) fn same(word: &[u8], text: &str) -> bool
    ensures { result ≡ bytes_eq word.now text.now }
{
    word == text.as_bytes()
}
