//! Tokens: the words, quoted values and marks of a statement, without the blanks between them.
ghost use Rattle.std.specs.{Prelude.{◌≡◌, ◌<◌, length}, Option.{option_map}};
ghost use Rattle.texts.specs.Tokens.{word_at, token_at};

use crate::Quoted;
use crate::kdcdef_lex::line::split_word;
use crate::kdcdef_lex::word::Word;

/// A piece of a statement, where it stands in the text.
#[derive(Drop)]
pub(crate) enum Token<'a> {
    Word(Word<'a>),
    /// What is before the quote, and the bytes between the quotes.
    Quoted(Word<'a>, Quoted<'a>),
    Comma,
    Equals,
    Open,
    Close,
}

// The word or the quoted value at the front, and what follows.
fn word_of(bytes: &[u8]) -> Option<(Token<'_>, &[u8])>
    ensures { option_map (λ t. (t.0, t.1.now)) result ≡ word_at bytes.now }
{
    let (word, rest) = split_word(bytes);
    let word = Word::new(word);
    match rest {
        [b'\'', inside @ ..] => {
            let (content, after) = Quoted::at(inside)?;
            Some((Token::Quoted(word, content), after))
        }
        _ => Some((Token::Word(word), rest)),
    }
}

/// The token at the front of bytes that begin with no blank, and what follows; `None` where a quote has no end.
pub(crate) fn token_of(bytes: &[u8]) -> Option<(Token<'_>, &[u8])>
    requires { 0 < length bytes.now }
    ensures { option_map (λ t. (t.0, t.1.now)) result ≡ token_at bytes.now }
{
    let token = match bytes[0] {
        b',' => Token::Comma,
        b'=' => Token::Equals,
        b'(' => Token::Open,
        b')' => Token::Close,
        _ => return word_of(bytes),
    };
    Some((token, &bytes[1..]))
}
