//! A statement from its words: the table of keywords and operands.
ghost use Rattle.std.specs.{Prelude.{◌≡◌, ℕ, List, IfOk}, Option.{option_map}};
ghost use Rattle.application_types.specs.declared.unit_types.action.Operand.{Operand};
ghost use Rattle.unit_read.specs.Shapes.{one_name, one_operand, two_operands, name_and_operand, operand_and_name};
ghost use Rattle.unit_read.specs.Statements.{takes_follow_up, pend_action, delayed_action, stored, join_action, if_action, named, given, written, read, action_at, action_of};

use crate::key::{Key, behind_keywords, key_of};
use crate::said::Said;
use crate::shape::{
    DelayedMessage, Found, compared, delayed, name_and_operand, name_and_two, one_name,
    one_operand, operand_and_name, two_operands,
};
use crate::word::Word;
use application_types::unit_types::Action;
use kd_base::{OutOfMemory, Variant};
use std::alloc::Global;

fn takes_follow_up(variant: Variant) -> bool
    ensures { result ≡ takes_follow_up variant }
{
    matches!(
        variant,
        Variant::Kp | Variant::Pr | Variant::Pa | Variant::Re | Variant::Sp | Variant::Fc
    )
}

fn pend_action(alloc: Global, variant: Variant, words: &[Word]) -> Found<Action>
    ensures { IfOk result (λ found. found ≡ pend_action variant words.now) }
{
    if takes_follow_up(variant) {
        return Ok(match one_operand(alloc, words)? {
            Some(next) => Some(Action::Pend(variant, Some(next))),
            None => None,
        });
    }
    Ok(match words {
        [] => Some(Action::Pend(variant, None)),
        _ => None,
    })
}

fn delayed_action(alloc: Global, words: &[Word]) -> Found<Action>
    ensures { IfOk result (λ found. found ≡ delayed_action words.now) }
{
    let Some(
        DelayedMessage {
            to,
            mode,
            days,
            rest: (hours, minutes, seconds, message),
        },
    ) = delayed(alloc, words)?
    else {
        return Ok(None);
    };
    Ok(Some(Action::Dput(to, mode, days, hours, minutes, seconds, message)))
}

// MOVE, or an arithmetic statement: what is stored in a field.
fn stored(alloc: Global, key: Key, words: &[Word]) -> Found<Action>
    ensures { IfOk result (λ found. found ≡ option_map (λ (p : List ℕ × Operand). stored key p.0 p.1) (name_and_operand words.now)) }
{
    let Some((field, operand)) = name_and_operand(alloc, words)? else {
        return Ok(None);
    };
    Ok(Some(match key {
        Key::Add => Action::Add(field, operand),
        Key::Sub => Action::Sub(field, operand),
        Key::Mul => Action::Mul(field, operand),
        Key::Div => Action::Div(field, operand),
        _ => Action::Move(field, operand),
    }))
}

fn join_action(alloc: Global, words: &[Word]) -> Found<Action>
    ensures { IfOk result (λ found. found ≡ join_action words.now) }
{
    let Some((field, first, second)) = name_and_two(alloc, words)? else {
        return Ok(None);
    };
    Ok(Some(Action::Join(field, first, second)))
}

fn if_action(alloc: Global, words: &[Word]) -> Found<Action>
    ensures { IfOk result (λ found. found ≡ if_action words.now) }
{
    let Some((first, relation, second, label)) = compared(alloc, words)? else {
        return Ok(None);
    };
    Ok(Some(Action::If(first, relation, second, label)))
}

// JUMP, MGET or FGET: a label, or the field that a message is read into.
fn named(key: Key, words: &[Word]) -> Found<Action>
    ensures { IfOk result (λ found. found ≡ option_map (named key) (one_name words.now)) }
{
    let Some(name) = one_name(words)? else {
        return Ok(None);
    };
    Ok(Some(match key {
        Key::Mget => Action::Mget(name),
        Key::Fget => Action::Fget(name),
        _ => Action::Jump(name),
    }))
}

// MPUT, or a call that gives an area or its lock back.
fn given(alloc: Global, key: Key, words: &[Word]) -> Found<Action>
    ensures { IfOk result (λ found. found ≡ option_map (given key) (one_operand words.now)) }
{
    let Some(operand) = one_operand(alloc, words)? else {
        return Ok(None);
    };
    Ok(Some(match key {
        Key::SrelGb => Action::SrelGb(operand),
        Key::SrelLb => Action::SrelLb(operand),
        Key::UnlkGb => Action::UnlkGb(operand),
        Key::UnlkUs => Action::UnlkUs(operand),
        Key::UnlkDa => Action::UnlkDa(operand),
        _ => Action::Mput(operand),
    }))
}

// FPUT, or a call that writes an area.
fn written(alloc: Global, key: Key, words: &[Word]) -> Found<Action>
    ensures { IfOk result (λ found. found ≡ option_map (λ (p : Operand × Operand). written key p.0 p.1) (two_operands words.now)) }
{
    let Some((name, content)) = two_operands(alloc, words)? else {
        return Ok(None);
    };
    Ok(Some(match key {
        Key::SputGb => Action::SputGb(name, content),
        Key::SputMs => Action::SputMs(name, content),
        Key::SputUs => Action::SputUs(name, content),
        Key::Ptda => Action::Ptda(name, content),
        _ => Action::Fput(name, content),
    }))
}

// A call that reads an area into a field.
fn read(alloc: Global, key: Key, words: &[Word]) -> Found<Action>
    ensures { IfOk result (λ found. found ≡ option_map (λ (p : Operand × List ℕ). read key p.0 p.1) (operand_and_name words.now)) }
{
    let Some((name, field)) = operand_and_name(alloc, words)? else {
        return Ok(None);
    };
    Ok(Some(match key {
        Key::SgetKp => Action::SgetKp(name, field),
        Key::SgetRl => Action::SgetRl(name, field),
        Key::SgetUs => Action::SgetUs(name, field),
        Key::Gtda => Action::Gtda(name, field),
        _ => Action::SgetGb(name, field),
    }))
}

// The statement with these keywords, from its operands.
fn action_at(alloc: Global, key: Key, words: &[Word]) -> Found<Action>
    ensures { IfOk result (λ found. found ≡ action_at key words.now) }
{
    match key {
        Key::Move | Key::Add | Key::Sub | Key::Mul | Key::Div => stored(alloc, key, words),
        Key::Join => join_action(alloc, words),
        Key::If => if_action(alloc, words),
        Key::Jump | Key::Mget | Key::Fget => named(key, words),
        Key::Init => match words {
            [] => Ok(Some(Action::Init)),
            _ => Ok(None),
        },
        Key::Mput | Key::SrelGb | Key::SrelLb | Key::UnlkGb | Key::UnlkUs | Key::UnlkDa => {
            given(alloc, key, words)
        }
        Key::Fput | Key::SputGb | Key::SputMs | Key::SputUs | Key::Ptda => {
            written(alloc, key, words)
        }
        Key::Dput => delayed_action(alloc, words),
        Key::SgetGb | Key::SgetKp | Key::SgetRl | Key::SgetUs | Key::Gtda => {
            read(alloc, key, words)
        }
        Key::Pend(variant) => pend_action(alloc, variant, words),
    }
}

/// The statement that the words are.
pub(crate) fn action_of(alloc: Global, words: &[Word]) -> Result<Option<Said>, OutOfMemory>
    ensures { IfOk result (λ found. found ≡ action_of words.now) }
{
    let Some(key) = key_of(words) else {
        return Ok(None);
    };
    match action_at(alloc, key, behind_keywords(words, key))? {
        None => Ok(None),
        Some(action) => Ok(Some(Said::new(alloc, action)?)),
    }
}
