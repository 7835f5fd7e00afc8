//! The operands of a statement, by how many there are and of what kind.
ghost use Rattle.std.specs.{Prelude.{◌≡◌, IfOk, IsOkAnd}, Option.{option_map}};
ghost use Rattle.unit_read.specs.{Operands.{mode_of, operand_of}, Shapes.{both, one_name, one_operand, name_and_operand, operand_and_name, two_operands, name_and_two, compared, moment_of, delayed}};

use crate::operand::{mode_of, name_of, operand_of, relation_of};
use crate::word::Word;
use application_types::unit_types::{Operand, Relation};
use kd_base::{Bytes, Mode, OutOfMemory};
use std::alloc::Global;

/// What words say; `None` where they are not of the form.
pub(crate) type Found<T> = Result<Option<T>, OutOfMemory>;

// Two things, where both were found.
fn both<A: Drop, B: Drop>(first: Found<A>, second: Found<B>) -> Found<(A, B)>
    ensures { IfOk result (λ found. IsOkAnd first (λ a. IsOkAnd second (λ b. found ≡ both a b))) }
{
    match (first?, second?) {
        (Some(first), Some(second)) => Ok(Some((first, second))),
        _ => Ok(None),
    }
}

// The same things side by side.
fn three<A: Drop, B: Drop, C: Drop>(found: Found<(A, (B, C))>) -> Found<(A, B, C)>
    ensures { IfOk result (λ three. IsOkAnd found (λ f. three ≡ option_map (λ p. (p.0, p.1.0, p.1.1)) f)) }
{
    match found? {
        Some((a, (b, c))) => Ok(Some((a, b, c))),
        None => Ok(None),
    }
}

fn four<A: Drop, B: Drop, C: Drop, D: Drop>(found: Found<(A, (B, (C, D)))>) -> Found<(A, B, C, D)>
    ensures { IfOk result (λ four. IsOkAnd found (λ f. four ≡ option_map (λ p. (p.0, p.1.0, p.1.1.0, p.1.1.1)) f)) }
{
    match found? {
        Some((a, (b, (c, d)))) => Ok(Some((a, b, c, d))),
        None => Ok(None),
    }
}

pub(crate) fn one_name(words: &[Word]) -> Found<Bytes>
    ensures { IfOk result (λ found. found ≡ one_name words.now) }
{
    match words {
        [name] => name_of(name),
        _ => Ok(None),
    }
}

pub(crate) fn one_operand(alloc: Global, words: &[Word]) -> Found<Operand>
    ensures { IfOk result (λ found. found ≡ one_operand words.now) }
{
    match words {
        [operand] => operand_of(alloc, operand),
        _ => Ok(None),
    }
}

pub(crate) fn two_operands(alloc: Global, words: &[Word]) -> Found<(Operand, Operand)>
    ensures { IfOk result (λ found. found ≡ two_operands words.now) }
{
    match words {
        [first, second] => both(operand_of(alloc, first), operand_of(alloc, second)),
        _ => Ok(None),
    }
}

pub(crate) fn name_and_operand(alloc: Global, words: &[Word]) -> Found<(Bytes, Operand)>
    ensures { IfOk result (λ found. found ≡ name_and_operand words.now) }
{
    match words {
        [name, operand] => both(name_of(name), operand_of(alloc, operand)),
        _ => Ok(None),
    }
}

pub(crate) fn operand_and_name(alloc: Global, words: &[Word]) -> Found<(Operand, Bytes)>
    ensures { IfOk result (λ found. found ≡ operand_and_name words.now) }
{
    match words {
        [operand, name] => both(operand_of(alloc, operand), name_of(name)),
        _ => Ok(None),
    }
}

pub(crate) fn name_and_two(alloc: Global, words: &[Word]) -> Found<(Bytes, Operand, Operand)>
    ensures { IfOk result (λ found. found ≡ name_and_two words.now) }
{
    let [name, rest @ ..] = words else {
        return Ok(None);
    };
    three(both(name_of(name), two_operands(alloc, rest)))
}

// Operand, relation, operand and label.
pub(crate) fn compared(alloc: Global, words: &[Word]) -> Found<(Operand, Relation, Operand, Bytes)>
    ensures { IfOk result (λ found. found ≡ compared words.now) }
{
    let [first, relation, rest @ ..] = words else {
        return Ok(None);
    };
    let later = both(Ok(relation_of(relation)), operand_and_name(alloc, rest));
    four(both(operand_of(alloc, first), later))
}

// Hours and minutes, and seconds and message, of a DPUT.
fn moment_of(alloc: Global, words: &[Word]) -> Found<(Operand, Operand, Operand, Operand)>
    ensures { IfOk result (λ found. found ≡ moment_of words.now) }
{
    let [hours, minutes, rest @ ..] = words else {
        return Ok(None);
    };
    let later = both(operand_of(alloc, minutes), two_operands(alloc, rest));
    four(both(operand_of(alloc, hours), later))
}

/// What a DPUT says: to, relative or absolute, days, and then hours, minutes, seconds and the message.
#[derive(Drop)]
pub(crate) struct DelayedMessage {
    pub to: Operand,
    pub mode: Mode,
    pub days: Operand,
    pub rest: (Operand, Operand, Operand, Operand),
}

// The mode and what is after it.
fn behind_to(
    alloc: Global,
    mode: &Word,
    days: &Word,
    rest: &[Word],
) -> Found<(Mode, (Operand, (Operand, Operand, Operand, Operand)))>
    ensures { IfOk result (λ found. found ≡ both (mode_of mode.now) (both (operand_of days.now) (moment_of rest.now))) }
{
    let later = both(operand_of(alloc, days), moment_of(alloc, rest));
    both(Ok(mode_of(mode)), later)
}

fn message_of(
    found: Found<
        (
            Operand,
            (Mode, (Operand, (Operand, Operand, Operand, Operand))),
        ),
    >,
) -> Found<DelayedMessage>
    ensures { IfOk result (λ message. IsOkAnd found (λ f. message ≡ option_map (λ p. record { to = p.0; mode = p.1.0; days = p.1.1.0; rest = p.1.1.1 }) f)) }
{
    match found? {
        Some((to, (mode, (days, rest)))) => Ok(Some(DelayedMessage {
            to,
            mode,
            days,
            rest,
        })),
        None => Ok(None),
    }
}

pub(crate) fn delayed(alloc: Global, words: &[Word]) -> Found<DelayedMessage>
    ensures { IfOk result (λ found. found ≡ delayed words.now) }
{
    let [to, mode, days, rest @ ..] = words else {
        return Ok(None);
    };
    let later = behind_to(alloc, mode, days, rest);
    message_of(both(operand_of(alloc, to), later))
}
