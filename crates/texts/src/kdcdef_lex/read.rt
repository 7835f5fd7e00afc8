//! The statements of a text: its lines grouped, each group read, and the first fault.
ghost use Rattle.std.specs.{Prelude.{List, Ok, Err, IfErr, ◌≢◌, ◌≡◌, false, IfOk}, List.{list_all}};
ghost use Rattle.texts.specs.{Reading.{is_text_byte, tokens_fault, statement_of, read_text, Gives}, Faults.{HasTextFault}, Spelling.{SpellsStatements}, Bounds.{AreWithinBounds}};
ghost use Rattle.texts.specs.{declared.kdcdef_lex.fault.LexFault.{LexFault}, declared.kdcdef_lex.fault.LexFault.TheVariants.{Memory}, declared.kdcdef_lex.statement.RawStatement.{RawStatement}};

use crate::kdcdef_lex::fault::LexFault;
use crate::kdcdef_lex::group::{Group, next_group};
use crate::kdcdef_lex::parse;
use crate::kdcdef_lex::statement::RawStatement;
use crate::kdcdef_lex::statements::Statements;
use crate::kdcdef_lex::tokens::{Tokens, leaves_open};
use kd_base::LONGEST_TEXT;
use std::alloc::Global;

// A byte that may be in a statement: 0x20 to 0x7E, and a tab.
fn is_text_byte(b: u8) -> bool
    ensures { result ≡ is_text_byte b }
{
    (b' ' <= b && b <= b'~') || b == b'\t'
}

fn is_text(bytes: &[u8]) -> bool
    ensures { result ≡ list_all is_text_byte bytes.now }
{
    bytes.iter().all(|b| is_text_byte(*b))
}

// The statement that the tokens of the group stand for.
fn statement_of_tokens<'a>(group: &Group, tokens: &Tokens<'a>) -> Result<RawStatement<'a>, LexFault>
    ensures { result ≡ tokens_fault group.now (Some tokens.now) }
{
    if leaves_open(tokens) {
        return Err(LexFault::OpenParen(group.first));
    }
    if group.dangling && group.first == group.last {
        return Err(LexFault::DanglingContinuation(group.last));
    }
    let Some(statement) = parse::statement_of(group.first, tokens) else {
        return Err(LexFault::BadOperand(group.first));
    };
    if group.dangling {
        return Err(LexFault::DanglingContinuation(group.last));
    }
    Ok(statement)
}

// The statement that the lines of the group stand for.
fn statement_of(group: &Group) -> Result<RawStatement<'_>, LexFault>
    ensures { result ≡ statement_of group.now }
{
    let text = group.text.as_slice();
    if !is_text(text) {
        return Err(LexFault::NotAscii(group.first));
    }
    let Some(tokens) = Tokens::of(text) else {
        return Err(LexFault::OpenQuote(group.first));
    };
    statement_of_tokens(group, &tokens)
}

// The statements, one group of lines after another.
fn read_text(alloc: Global, text: &[u8]) -> Result<Statements, LexFault>
    ensures { Gives result (read_text text.now) }
{
    if text.len() > LONGEST_TEXT {
        return Err(LexFault::TextTooLong);
    }
    let mut statements = Statements::new(alloc);
    let mut number: u32 = 1;
    let mut rest = text;
    while let Some((group, after)) = next_group(alloc, number, rest)? {
        let _statement = statement_of(&group)?;
        statements.push(group.first, group.text.as_slice())?;
        number = group.last + 1;
        rest = after;
    }
    Ok(statements)
}

/// The statements of a KDCDEF text, in their order, or its first fault.
pub fn lines(alloc: Global, text: &[u8]) -> Result<Statements, LexFault>
    // The text spells what is read.
    ensures found { IfOk result (λ ss. SpellsStatements text.now ss) }
    // What the text spells is read, unless memory runs out.
    ensures only { (ss : List RawStatement) → SpellsStatements text.now ss → Gives result (Ok ss) }
    // The fault that is answered is there.
    ensures fault { IfErr result (λ e. e ≢ Memory → HasTextFault text.now e) }
    // A text with the fault is refused for it, unless memory runs out.
    ensures refused { (e : LexFault) → HasTextFault text.now e → Gives result (Err e) }
    // What the next reader may rely on.
    ensures bounds { IfOk result (λ ss. AreWithinBounds ss) }
{
    read_text(alloc, text)
}
