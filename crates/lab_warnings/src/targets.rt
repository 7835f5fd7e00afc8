//! What statements name: fields, labels, targets, blocks and messages.

use crate::areas::stored;
use application_types::generation::Generation;
use application_types::kdcdef_types::{CallUse, Said, Statement};
use application_types::unit_types::{Action, Operand};
use kd_base::{Bytes, Name, OutOfMemory, trim_end};
use lab_check::lab_findings::is_near;
use std::collections::BTreeSet;

/// Names of fields or labels.
pub(crate) type Names = BTreeSet<Bytes>;

// Adds the field that an operand names, if there is an operand.
fn add_operand(names: &mut Names, operand: Option<&Operand>) -> Result<(), OutOfMemory> {
    if let Some(Operand::Field(name) | Operand::Trim(name)) = operand {
        names.insert(name.clone()?)?;
    }
    Ok(())
}

// The operands that a statement reads, but for the moment of a DPUT.
fn read(action: &Action) -> (Option<&Operand>, Option<&Operand>) {
    match action {
        Action::Move(_, o)
        | Action::Add(_, o)
        | Action::Sub(_, o)
        | Action::Mul(_, o)
        | Action::Div(_, o)
        | Action::Mput(o)
        | Action::SgetGb(o, _)
        | Action::SgetKp(o, _)
        | Action::SgetRl(o, _)
        | Action::SgetUs(o, _)
        | Action::Gtda(o, _)
        | Action::SrelGb(o)
        | Action::SrelLb(o)
        | Action::UnlkGb(o)
        | Action::UnlkUs(o)
        | Action::UnlkDa(o)
        | Action::Pend(_, Some(o)) => (Some(o), None),
        Action::Join(_, o, p)
        | Action::If(o, _, p, _)
        | Action::Fput(o, p)
        | Action::Dput(o, _, _, _, _, _, p)
        | Action::SputGb(o, p)
        | Action::SputMs(o, p)
        | Action::SputUs(o, p)
        | Action::Ptda(o, p) => (Some(o), Some(p)),
        Action::Jump(_)
        | Action::Init
        | Action::Mget(_)
        | Action::Fget(_)
        | Action::Pend(_, None) => (None, None),
    }
}

// Adds the fields that the moment of a DPUT names.
fn add_moment(names: &mut Names, action: &Action) -> Result<(), OutOfMemory> {
    if let Action::Dput(_, _, d, h, m, s, _) = action {
        for operand in [d, h, m, s] {
            add_operand(names, Some(operand))?;
        }
    }
    Ok(())
}

/// Adds the fields that a statement names.
pub(crate) fn add_fields(names: &mut Names, action: &Action) -> Result<(), OutOfMemory> {
    if let Some(field) = stored(action) {
        names.insert(field.clone()?)?;
    }
    let (first, second) = read(action);
    add_operand(names, first)?;
    add_operand(names, second)?;
    add_moment(names, action)
}

/// Adds the label that a statement may jump to.
pub(crate) fn add_label(names: &mut Names, action: &Action) -> Result<(), OutOfMemory> {
    match action {
        Action::If(_, _, _, label) | Action::Jump(label) => {
            names.insert(label.clone()?)?;
        }
        _ => {}
    }
    Ok(())
}

fn literal_of(operand: &Operand) -> Option<&[u8]> {
    match operand {
        Operand::Literal(bytes) => Some(bytes.as_slice()),
        _ => None,
    }
}

/// The literal that names whom an FPUT or a DPUT is for.
pub(crate) fn target_of(action: &Action) -> Option<&[u8]> {
    match action {
        Action::Fput(to, _) | Action::Dput(to, _, _, _, _, _, _) => literal_of(to),
        _ => None,
    }
}

/// Whether the bytes, without the spaces at their end, are an LTERM, or a TAC that takes jobs.
pub(crate) fn takes_jobs(generation: &Generation, bytes: &[u8]) -> bool {
    let Some(name) = Name::from_bytes(trim_end(bytes)) else {
        return false;
    };
    if generation.lterm(name).is_some() {
        return true;
    }
    match generation.tac(name) {
        Some(entry) => entry.asynchronous && entry.on && entry.call != CallUse::Next,
        None => false,
    }
}

/// The literal that names a block of ULS, or of TLS, that is not declared.
pub(crate) fn undeclared<'a>(generation: &Generation, action: &'a Action) -> Option<&'a [u8]> {
    let (operand, is_uls) = match action {
        Action::SgetUs(name, _) | Action::SputUs(name, _) | Action::UnlkUs(name) => (name, true),
        Action::Gtda(name, _) | Action::Ptda(name, _) | Action::UnlkDa(name) => (name, false),
        _ => return None,
    };
    let literal = literal_of(operand)?;
    let is_declared = match Name::from_bytes(trim_end(literal)) {
        Some(name) if is_uls => generation.has_uls(name),
        Some(name) => generation.has_tls(name),
        None => false,
    };
    if is_declared { None } else { Some(literal) }
}

/// Whose name a literal is to be.
#[derive(Clone, Copy)]
pub(crate) enum Wanted {
    Target,
    Uls,
    Tls,
}

/// Whose name the literal of a call on a block is to be.
pub(crate) fn wanted_block(action: &Action) -> Wanted {
    match action {
        Action::SgetUs(_, _) | Action::SputUs(_, _) | Action::UnlkUs(_) => Wanted::Uls,
        _ => Wanted::Tls,
    }
}

// The name that a statement gives to what is wanted.
fn given(said: &Said, wanted: Wanted) -> Option<&Name> {
    match (said, wanted) {
        (Said::Lterm(name, _), Wanted::Target) => Some(name),
        (Said::Tac(name, entry), Wanted::Target) if entry.asynchronous => Some(name),
        (Said::Uls(name), Wanted::Uls) => Some(name),
        (Said::Tls(name), Wanted::Tls) => Some(name),
        _ => None,
    }
}

/// The first name of what is wanted that is nearly the literal; empty where there is none.
pub(crate) fn near_name<'a>(said: &'a [Statement], wanted: Wanted, literal: &[u8]) -> &'a [u8] {
    for statement in said {
        if let Some(name) = given(&statement.said, wanted) {
            if is_near(trim_end(literal), name.as_slice()) {
                return name.as_slice();
            }
        }
    }
    b""
}

/// The literal that a statement puts as a message or a part of one.
pub(crate) fn message_of(action: &Action) -> Option<&[u8]> {
    match action {
        Action::Mput(o) | Action::Fput(_, o) | Action::Dput(_, _, _, _, _, _, o) => literal_of(o),
        _ => None,
    }
}
