//! The words of a line, without the blanks that part them.
ghost use Rattle.std.specs.{Prelude.{◌≡◌, ◌<◌, List, ℕ, length, drop, IfOk, Option}, Option.{option_map}, List.{prefix_len, take_while}};
ghost use Rattle.texts.specs.Quotes.{quoted_at};
ghost use Rattle.unit_read.specs.{Lines.{is_word_byte}, Words.{literal_at, word_at}};

use kd_base::{Bytes, OutOfMemory};
use std::alloc::Global;
use texts::{Part, is_blank, quoted_at};

/// A word of a line: bytes without a blank, or what a literal says.
#[derive(Drop)]
pub(crate) enum Word {
    Plain(Bytes),
    Literal(Bytes),
}

// The bytes up to the first blank, and what follows.
fn split_plain(bytes: &[u8]) -> (&[u8], &[u8])
    ensures word { result.0.now ≡ take_while is_word_byte bytes.now }
    ensures rest { result.1.now ≡ drop (prefix_len is_word_byte bytes.now) bytes.now }
{
    let mut n = 0;
    while n < bytes.len() && !is_blank(bytes[n]) {
        n += 1;
    }
    bytes.split_at(n)
}

// After a quote: the literal, which ends at a blank or with the line, and what follows.
fn literal(alloc: Global, bytes: &[u8]) -> Result<Option<(Word, &[u8])>, OutOfMemory>
    ensures { IfOk result (λ found. option_map (λ w. (w.0, w.1.now)) found ≡ literal_at (quoted_at bytes.now)) }
{
    let Some((content, rest)) = quoted_at(alloc, bytes)? else {
        return Ok(None);
    };
    if !rest.is_empty() && !is_blank(rest[0]) {
        return Ok(None);
    }
    Ok(Some((Word::Literal(content), rest)))
}

impl Part for Word {
    ghost part_at = { word_at };

    fn at_front(alloc: Global, bytes: &[u8]) -> Result<Option<(Word, &[u8])>, OutOfMemory> {
        if bytes[0] == b'\'' {
            return literal(alloc, &bytes[1..]);
        }
        let (plain, rest) = split_plain(bytes);
        Ok(Some((Word::Plain(Bytes::from_slice(alloc, plain)?), rest)))
    }
}
