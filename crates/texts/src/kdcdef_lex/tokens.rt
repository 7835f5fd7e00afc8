//! The tokens of a statement, one after another.
ghost use Rattle.std.specs.Prelude.{◌≡◌, IsTrue, is_some, Some, false};
ghost use Rattle.texts.specs.Firsts.{first_of};
ghost use Rattle.texts.specs.{Tokens.{tokens_of}, Faults.{odd_quotes}, Reading.{leaves_open}};

use crate::from_first;
use crate::kdcdef_lex::token::{Token, token_of};
use std::marker::Model;

/// The tokens that are left of a statement. Contracts see the list of them.
#[derive(Drop)]
pub(crate) struct Tokens<'a> {
    bytes: &'a [u8],
}

impl<'a> Model for Tokens<'a> {
    ghost use Rattle.std.specs.Prelude.{List, IsTrue, is_some};
    ghost use Rattle.texts.specs.declared.kdcdef_lex.token.Token.{Token};

    ghost Value = { List Token };

    ghost use Rattle.texts.specs.Tokens.{tokens_of, tokens_in};

    ghost view = { λ t. tokens_in t.bytes.now };

    ghost invariant = { λ t. IsTrue (is_some (tokens_of t.bytes.now)) };
}

// Whether the number of quotes is odd.
fn has_odd_quotes(bytes: &[u8]) -> bool
    ensures { result ≡ odd_quotes bytes.now }
{
    let mut is_open = false;
    for b in bytes {
        if *b == b'\'' {
            is_open = !is_open;
        }
    }
    is_open
}

impl<'a> Tokens<'a> {
    /// The tokens of these bytes; `None` where a quote has no end.
    pub(crate) fn of(bytes: &'a [u8]) -> Option<Tokens<'a>>
        ensures { result ≡ tokens_of bytes.now }
    {
        if has_odd_quotes(bytes) {
            None
        } else {
            Some(Tokens { bytes })
        }
    }

    /// The tokens of bytes that have some.
    pub(crate) fn known(bytes: &'a [u8]) -> Tokens<'a>
        requires { IsTrue (is_some (tokens_of bytes.now)) }
        ensures { tokens_of bytes.now ≡ Some result }
    {
        Tokens { bytes }
    }

    /// The same tokens once more.
    pub(crate) fn again(&self) -> Tokens<'a>
        ensures { result ≡ self.now }
    {
        Tokens { bytes: self.bytes }
    }

    /// The first token and those behind it.
    pub(crate) fn next(&self) -> Option<(Token<'a>, Tokens<'a>)>
        ensures { result ≡ first_of self.now }
    {
        let bytes = from_first(self.bytes);
        if bytes.is_empty() {
            return None;
        }
        let (token, rest) = token_of(bytes)?;
        Some((token, Tokens { bytes: rest }))
    }
}

/// Whether the last parenthesis is one that opens, so that no `)` follows it.
pub(crate) fn leaves_open(tokens: &Tokens) -> bool
    ensures { result ≡ leaves_open false tokens.now }
{
    let mut is_open = false;
    let mut rest = tokens.again();
    while let Some((token, after)) = rest.next() {
        match token {
            Token::Open => is_open = true,
            Token::Close => is_open = false,
            _ => {}
        }
        rest = after;
    }
    is_open
}
