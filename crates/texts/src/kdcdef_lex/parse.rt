//! A statement from its tokens: keyword, operands, values and lists.
ghost use Rattle.std.specs.Prelude.{◌≡◌, is_some};
ghost use Rattle.texts.specs.Parsing.{item_at, item_step, behind_list, word_first, value_at, with_key, operand_at, operand_step, operands_of, statement_at};

use crate::kdcdef_lex::quoted::quoted_value;
use crate::kdcdef_lex::statement::{Items, Operands, RawItem, RawOperand, RawStatement, RawValue};
use crate::kdcdef_lex::token::Token;
use crate::kdcdef_lex::tokens::Tokens;
use crate::kdcdef_lex::word::Word;

// The item at the front, which may be empty, and what follows.
fn item_of<'a>(tokens: &Tokens<'a>) -> Option<(Option<RawItem<'a>>, Tokens<'a>)>
    ensures { result ≡ item_at tokens.now }
{
    let (token, rest) = tokens.next()?;
    match token {
        Token::Word(word) => Some((Some(RawItem::Word(word)), rest)),
        Token::Quoted(form, content) => {
            let value = quoted_value(&form, content)?;
            Some((Some(RawItem::Quoted(value)), rest))
        }
        Token::Comma | Token::Close => Some((None, tokens.again())),
        Token::Equals | Token::Open => None,
    }
}

/// An item, whether another comes after it and a comma, and what follows the comma or `)`.
pub(crate) fn item_step<'a>(tokens: &Tokens<'a>) -> Option<(Option<RawItem<'a>>, bool, Tokens<'a>)>
    ensures { result ≡ item_step tokens.now }
{
    let (item, after) = item_of(tokens)?;
    let (mark, rest) = after.next()?;
    match mark {
        Token::Comma => Some((item, true, rest)),
        Token::Close => Some((item, false, rest)),
        _ => None,
    }
}

/// After `(`: what follows the `)` of a list.
pub(crate) fn behind_list<'a>(inside: &Tokens<'a>) -> Option<Tokens<'a>>
    ensures { result ≡ behind_list inside.now }
{
    let mut rest = inside.again();
    loop {
        let (_, more, after) = item_step(&rest)?;
        if !more {
            return Some(after);
        }
        rest = after;
    }
}

// The value at the front, and what follows.
fn value_of<'a>(tokens: &Tokens<'a>) -> Option<(RawValue<'a>, Tokens<'a>)>
    ensures { result ≡ value_at tokens.now }
{
    let (token, rest) = tokens.next()?;
    match token {
        Token::Word(word) => Some((RawValue::Word(word), rest)),
        Token::Quoted(form, content) => {
            let value = quoted_value(&form, content)?;
            Some((RawValue::Quoted(value), rest))
        }
        Token::Open => {
            let (items, rest) = Items::at(&rest)?;
            Some((RawValue::Listed(items), rest))
        }
        _ => None,
    }
}

/// The word at the front, and what follows.
pub(crate) fn word_at<'a>(tokens: &Tokens<'a>) -> Option<(Word<'a>, Tokens<'a>)>
    ensures { result ≡ word_first tokens.now }
{
    let (token, rest) = tokens.next()?;
    match token {
        Token::Word(word) => Some((word, rest)),
        _ => None,
    }
}

// The key at the front, where there is one, and what follows its `=`.
fn key_of<'a>(tokens: &Tokens<'a>) -> (Option<Word<'a>>, Tokens<'a>)
    ensures { operand_at tokens.now ≡ with_key result.0 (value_at result.1) }
{
    let Some((word, rest)) = word_at(tokens) else {
        return (None, tokens.again());
    };
    match rest.next() {
        Some((Token::Equals, rest)) => (Some(word), rest),
        _ => (None, tokens.again()),
    }
}

// The operand at the front, and what follows.
fn operand_of<'a>(tokens: &Tokens<'a>) -> Option<(RawOperand<'a>, Tokens<'a>)>
    ensures { result ≡ operand_at tokens.now }
{
    let (key, rest) = key_of(tokens);
    let (value, rest) = value_of(&rest)?;
    Some((RawOperand { key, value }, rest))
}

/// An operand, whether another comes after it and a comma, and what follows.
pub(crate) fn operand_step<'a>(tokens: &Tokens<'a>) -> Option<(RawOperand<'a>, bool, Tokens<'a>)>
    ensures { result ≡ operand_step tokens.now }
{
    let (operand, after) = operand_of(tokens)?;
    match after.next() {
        None => Some((operand, false, after)),
        Some((Token::Comma, rest)) => Some((operand, true, rest)),
        Some(_) => None,
    }
}

/// Whether the tokens are operands, of which there may be none.
pub(crate) fn are_operands(tokens: &Tokens) -> bool
    ensures { result ≡ is_some (operands_of tokens.now) }
{
    if tokens.next().is_none() {
        return true;
    }
    let mut rest = tokens.again();
    while let Some((_, more, after)) = operand_step(&rest) {
        if !more {
            return true;
        }
        rest = after;
    }
    false
}

/// The statement that the tokens stand for.
pub(crate) fn statement_of<'a>(line: u32, tokens: &Tokens<'a>) -> Option<RawStatement<'a>>
    ensures { result ≡ statement_at line tokens.now }
{
    let (keyword, rest) = word_at(tokens)?;
    let operands = Operands::of(rest)?;
    Some(RawStatement {
        line,
        keyword,
        operands,
    })
}
