//! Quoted values: `'..'`, `C'..'` and `X'..'`.
ghost use Rattle.std.specs.Prelude.{◌≡◌, IsTrue, is_some};
ghost use Rattle.texts.specs.Firsts.{first_of};
ghost use Rattle.texts.specs.QuotedValues.{hex_digit, hex_pair, hex_bytes, quoted_value};

use crate::Quoted;
use crate::kdcdef_lex::word::Word;
use std::marker::Model;

/// The bytes of a quoted value, where they stand in the text. Contracts see them as they are meant.
#[derive(Drop)]
pub struct QuotedBytes<'a> {
    // Two hexadecimal digits stand for a byte.
    is_hex: bool,
    content: Quoted<'a>,
}

impl<'a> Model for QuotedBytes<'a> {
    ghost use Rattle.std.specs.Prelude.{List, ℕ, IsTrue, is_some, unwrap_or, []};
    ghost use Rattle.texts.specs.QuotedValues.{bytes_of};

    ghost Value = { List ℕ };

    ghost view = { λ q. unwrap_or (bytes_of q.is_hex q.content) [] };

    ghost invariant = { λ q. IsTrue (is_some (bytes_of q.is_hex q.content)) };
}

// The value of a hexadecimal digit.
fn hex_digit(b: u8) -> Option<u8>
    ensures { result ≡ hex_digit b }
{
    match b {
        b'0'..=b'9' => Some(b - b'0'),
        b'a'..=b'f' => Some(b - b'a' + 10),
        b'A'..=b'F' => Some(b - b'A' + 10),
        _ => None,
    }
}

// The byte of the two hexadecimal digits at the front, and what follows.
fn hex_pair<'a>(digits: &Quoted<'a>) -> Option<(u8, Quoted<'a>)>
    ensures { result ≡ hex_pair digits.now }
{
    let (high, rest) = digits.next()?;
    let (low, rest) = rest.next()?;
    let high = hex_digit(high)?;
    let low = hex_digit(low)?;
    Some((16 * high + low, rest))
}

// Whether these are pairs of hexadecimal digits.
fn is_hex(digits: &Quoted) -> bool
    ensures { result ≡ is_some (hex_bytes digits.now) }
{
    let mut rest = digits.again();
    while let Some((_, after)) = hex_pair(&rest) {
        rest = after;
    }
    rest.next().is_none()
}

/// The bytes of a quoted value, what is before its quote being this.
pub(crate) fn quoted_value<'a>(form: &Word, content: Quoted<'a>) -> Option<QuotedBytes<'a>>
    ensures { result ≡ quoted_value form.now content.entry }
{
    let is_hex = match form.as_slice() {
        [] | [b'C'] => false,
        [b'X'] if is_hex(&content) => true,
        _ => return None,
    };
    Some(QuotedBytes { is_hex, content })
}

impl<'a> QuotedBytes<'a> {
    /// The same bytes once more. It takes no memory.
    pub fn again(&self) -> QuotedBytes<'a>
        ensures { result ≡ self.now }
    {
        QuotedBytes {
            is_hex: self.is_hex,
            content: self.content.again(),
        }
    }

    /// The first byte and those behind it. It takes no memory.
    pub fn next(&self) -> Option<(u8, QuotedBytes<'a>)>
        ensures { result ≡ first_of self.now }
    {
        if self.is_hex {
            let (byte, content) = hex_pair(&self.content)?;
            return Some((
                byte,
                QuotedBytes {
                    is_hex: true,
                    content,
                },
            ));
        }
        let (byte, content) = self.content.next()?;
        Some((
            byte,
            QuotedBytes {
                is_hex: false,
                content,
            },
        ))
    }
}
