//! The fields that a statement names.
ghost use Rattle.std.specs.Prelude.{◌≡◌, ◌&&◌};
ghost use Rattle.unit_read.specs.{Names.{holds}, Used.{dput_uses, operand_uses, uses}};

use crate::names::{Names, holds};
use application_types::unit_types::{Action, Operand};
use kd_base::Bytes;

fn operand_is_defined(operand: &Operand, names: &Names) -> bool
    ensures { result ≡ operand_uses (holds names.now) operand.now }
{
    match operand {
        Operand::Field(name) | Operand::Trim(name) => holds(names, name),
        Operand::Literal(_) | Operand::Digits(_) | Operand::Header(_) => true,
    }
}

fn are_defined(first: &Operand, second: &Operand, names: &Names) -> bool
    ensures { result ≡ (operand_uses (holds names.now) first.now && operand_uses (holds names.now) second.now) }
{
    operand_is_defined(first, names) && operand_is_defined(second, names)
}

// The field that is written, and the operand beside it.
fn target_is_defined(field: &Bytes, operand: &Operand, names: &Names) -> bool
    ensures { result ≡ (holds names.now field.now && operand_uses (holds names.now) operand.now) }
{
    holds(names, field) && operand_is_defined(operand, names)
}

fn join_is_defined(field: &Bytes, first: &Operand, second: &Operand, names: &Names) -> bool
    ensures { result ≡ (holds names.now field.now && operand_uses (holds names.now) first.now && operand_uses (holds names.now) second.now) }
{
    holds(names, field) && are_defined(first, second, names)
}

// The operands of a DPUT.
fn delayed_is_defined(
    to: &Operand,
    days: &Operand,
    hours: &Operand,
    minutes: &Operand,
    seconds: &Operand,
    message: &Operand,
    names: &Names,
) -> bool
    ensures { result ≡ dput_uses (holds names.now) to.now days.now hours.now minutes.now seconds.now message.now }
{
    are_defined(to, days, names)
        && are_defined(hours, minutes, names)
        && are_defined(seconds, message, names)
}

/// Whether the names are those of all fields that the statement names.
pub(crate) fn is_defined(action: &Action, names: &Names) -> bool
    ensures { result ≡ uses (holds names.now) action.now }
{
    match action {
        Action::Move(f, o)
        | Action::Add(f, o)
        | Action::Sub(f, o)
        | Action::Mul(f, o)
        | Action::Div(f, o)
        | Action::SgetGb(o, f)
        | Action::SgetKp(o, f)
        | Action::SgetRl(o, f)
        | Action::SgetUs(o, f)
        | Action::Gtda(o, f) => target_is_defined(f, o, names),
        Action::Join(f, o, p) => join_is_defined(f, o, p, names),
        Action::Mget(f) | Action::Fget(f) => holds(names, f),
        Action::Mput(o)
        | Action::SrelGb(o)
        | Action::SrelLb(o)
        | Action::UnlkGb(o)
        | Action::UnlkUs(o)
        | Action::UnlkDa(o)
        | Action::Pend(_, Some(o)) => operand_is_defined(o, names),
        Action::If(o, _, p, _)
        | Action::Fput(o, p)
        | Action::SputGb(o, p)
        | Action::SputMs(o, p)
        | Action::SputUs(o, p)
        | Action::Ptda(o, p) => are_defined(o, p, names),
        Action::Dput(to, _, d, h, m, s, o) => delayed_is_defined(to, d, h, m, s, o, names),
        Action::Jump(_) | Action::Init | Action::Pend(_, None) => true,
    }
}
