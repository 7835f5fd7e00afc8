//! Statements as they are written. Words keep their case; what they mean is said by the next reader. All is read where
//! it stands in the text, and no call takes memory.
ghost use Rattle.std.specs.Prelude.{◌≡◌, ◌<◌, ◌^◌, length, IsTrue, is_some, Some};
ghost use Rattle.texts.specs.Firsts.{first_of};
ghost use Rattle.texts.specs.Parsing.{list_at, operands_of};

use crate::kdcdef_lex::parse::{are_operands, behind_list, item_step, operand_step};
use crate::kdcdef_lex::quoted::QuotedBytes;
use crate::kdcdef_lex::tokens::Tokens;
use crate::kdcdef_lex::word::Word;
use std::marker::Model;

/// An item of a list: a word, or the bytes of a quoted value.
#[derive(Drop)]
pub enum RawItem<'a> {
    Word(Word<'a>),
    Quoted(QuotedBytes<'a>),
}

/// The items of a list, in their order, of which some may be empty. Contracts see the list.
#[derive(Drop)]
pub struct Items<'a> {
    // What is after the `(`, or after the comma behind an item; none behind the last one.
    left: Option<Tokens<'a>>,
}

impl<'a> Model for Items<'a> {
    ghost use Rattle.std.specs.Prelude.{List, Option};
    ghost use Rattle.texts.specs.declared.kdcdef_lex.statement.RawItem.{RawItem};

    ghost Value = { List (Option RawItem) };

    ghost use Rattle.texts.specs.Parsing.{items_left, AreItemsLeft};

    ghost view = { λ i. items_left i.left };

    ghost invariant = { λ i. AreItemsLeft i.left };
}

/// The value of an operand: a word, the bytes of a quoted value, or a list in parentheses.
#[derive(Drop)]
pub enum RawValue<'a> {
    Word(Word<'a>),
    Quoted(QuotedBytes<'a>),
    Listed(Items<'a>),
}

/// An operand: a value, with a key and `=` before it or alone.
#[derive(Drop)]
pub struct RawOperand<'a> {
    pub key: Option<Word<'a>>,
    pub value: RawValue<'a>,
}

/// The operands of a statement, in their order. Contracts see the list.
#[derive(Drop)]
pub struct Operands<'a> {
    left: Tokens<'a>,
}

impl<'a> Model for Operands<'a> {
    ghost use Rattle.std.specs.Prelude.{List, IsTrue, is_some, unwrap_or, []};
    ghost use Rattle.texts.specs.declared.kdcdef_lex.statement.RawOperand.{RawOperand};

    ghost Value = { List RawOperand };

    ghost use Rattle.texts.specs.Parsing.{operands_of};

    ghost view = { λ o. unwrap_or (operands_of o.left) [] };

    ghost invariant = { λ o. IsTrue (is_some (operands_of o.left)) };
}

/// A statement: its keyword, its operands, and the number of its first line, counted from 1.
#[derive(Drop)]
pub struct RawStatement<'a> {
    pub line: u32,
    pub keyword: Word<'a>,
    pub operands: Operands<'a>,
}

impl<'a> Items<'a> {
    /// After `(`: the items of a list, and what follows its `)`.
    pub(crate) fn at<'b>(inside: &'b Tokens<'a>) -> Option<(Items<'a>, Tokens<'a>)>
        ensures { result ≡ list_at inside.now }
    {
        let rest = behind_list(inside)?;
        let left = Some(inside.again());
        Some((Items { left }, rest))
    }

    /// The same items once more.
    pub fn again(&self) -> Items<'a>
        ensures { result ≡ self.now }
    {
        let left = match &self.left {
            Some(tokens) => Some(tokens.again()),
            None => None,
        };
        Items { left }
    }

    /// The first item and those behind it.
    pub fn next(&self) -> Option<(Option<RawItem<'a>>, Items<'a>)>
        ensures { result ≡ first_of self.now }
    {
        let Some(tokens) = &self.left else {
            return None;
        };
        let (item, more, rest) = item_step(tokens)?;
        if more {
            return Some((item, Items { left: Some(rest) }));
        }
        Some((item, Items { left: None }))
    }
}

impl<'a> Operands<'a> {
    /// The operands that these tokens are, of which there may be none.
    pub(crate) fn of(tokens: Tokens<'a>) -> Option<Operands<'a>>
        ensures { result ≡ operands_of tokens.entry }
    {
        if are_operands(&tokens) {
            Some(Operands { left: tokens })
        } else {
            None
        }
    }

    /// The same of tokens that are some.
    pub(crate) fn known(tokens: Tokens<'a>) -> Operands<'a>
        requires { IsTrue (is_some (operands_of tokens)) }
        ensures { operands_of tokens.entry ≡ Some result }
    {
        Operands { left: tokens }
    }

    /// The first operand and those behind it.
    pub fn next(&self) -> Option<(RawOperand<'a>, Operands<'a>)>
        ensures { result ≡ first_of self.now }
    {
        let (operand, _more, rest) = operand_step(&self.left)?;
        Some((operand, Operands { left: rest }))
    }

    /// The same operands once more.
    pub fn again(&self) -> Operands<'a>
        ensures { result ≡ self.now }
    {
        let left = self.left.again();
        Operands { left }
    }

    /// How many operands there are.
    pub fn count(&self) -> u32
        requires { length self.now < 2 ^ 32 }
        ensures { result ≡ length self.now }
    {
        let mut count = 0;
        let mut left = self.again();
        while let Some((_, rest)) = left.next() {
            count += 1;
            left = rest;
        }
        count
    }
}
