//! Bytes between two quotes.
ghost use Rattle.std.specs.{Prelude.{◌≡◌, ◌<◌, length, IfOk}, Option.{option_map, option_copied}};
ghost use Rattle.texts.specs.{Quotes.{quoted_at, behind_quoted, IsFront}, Firsts.{first_of}};

use kd_base::{Bytes, OutOfMemory};
use std::alloc::Global;
use std::marker::Model;

/// The bytes between two quotes, where they stand in a text. Contracts see them as they are meant: two quotes for one.
#[derive(Drop)]
pub struct Quoted<'a> {
    // What is after the first of the quotes.
    after: &'a [u8],
}

impl<'a> Model for Quoted<'a> {
    ghost use Rattle.std.specs.Prelude.{List, ℕ, IsTrue, is_some};
    ghost use Rattle.texts.specs.Quotes.{quoted_at, content_at};

    ghost Value = { List ℕ };

    ghost view = { λ q. content_at q.after.now };

    ghost invariant = { λ q. IsTrue (is_some (quoted_at q.after.now)) };
}

// After a quote: the byte that the front stands for, or none at the end, and what follows; `None` where nothing is left.
fn front_of(bytes: &[u8]) -> Option<(Option<u8>, &[u8])>
    ensures { IsFront bytes.now (option_map (λ front. (front.0, front.1.now)) result) }
{
    let (first, after) = bytes.split_first()?;
    if *first != b'\'' {
        return Some((Some(*first), after));
    }
    match after.split_first() {
        Some((b'\'', after)) => Some((Some(b'\''), after)),
        _ => Some((None, after)),
    }
}

/// After a quote: the bytes up to its end, where two quotes stand for one, and what follows.
pub fn quoted_at(alloc: Global, bytes: &[u8]) -> Result<Option<(Bytes, &[u8])>, OutOfMemory>
    ensures { IfOk result (λ found. option_map (λ q. (q.0, q.1.now)) found ≡ quoted_at bytes.now) }
{
    let mut content = Bytes::new(alloc);
    let mut rest = bytes;
    loop {
        match front_of(rest) {
            None => return Ok(None),
            Some((None, after)) => return Ok(Some((content, after))),
            Some((Some(byte), after)) => {
                content.push(byte)?;
                rest = after;
            }
        }
    }
}

// After a quote: what follows the quote that ends it, if there is one.
fn behind_quoted(bytes: &[u8]) -> Option<&[u8]>
    ensures { option_copied result ≡ behind_quoted bytes.now }
{
    let mut rest = bytes;
    loop {
        match front_of(rest)? {
            (None, after) => return Some(after),
            (Some(_), after) => rest = after,
        }
    }
}

impl<'a> Quoted<'a> {
    /// After a quote: the bytes up to its end, and what follows. It takes no memory.
    pub fn at(bytes: &'a [u8]) -> Option<(Quoted<'a>, &'a [u8])>
        ensures { option_map (λ q. (q.0, q.1.now)) result ≡ quoted_at bytes.now }
    {
        let rest = behind_quoted(bytes)?;
        Some((Quoted { after: bytes }, rest))
    }

    /// The same bytes once more. It takes no memory.
    pub fn again(&self) -> Quoted<'a>
        ensures { result ≡ self.now }
    {
        Quoted { after: self.after }
    }

    /// The first byte and those behind it. It takes no memory.
    pub fn next(&self) -> Option<(u8, Quoted<'a>)>
        ensures { result ≡ first_of self.now }
    {
        match front_of(self.after) {
            Some((Some(byte), after)) => Some((byte, Quoted { after })),
            _ => None,
        }
    }
}
