//! The KDCS call that a statement asks for.
ghost use Rattle.std.specs.Prelude.{◌≡◌, All, IfOk, IsTrue, OnErr};
ghost use Rattle.abstract_monitor.specs.{Fields.{value_of}, Ready.{IsInside}, Statement.{done_by, takes_memory}};
ghost use Rattle.service_parts.specs.Answers.{IsAsked, IsCall, IsDput};

use crate::unit_step::operand::{bytes_of, capacity};
use application_types::unit_types::{Action, Operand, Unit};
use kd_base::{Bytes, OutOfMemory};
use kdcs_types::{Call, RunState};
use std::alloc::Global;

// The bytes of two operands.
fn two(
    alloc: Global,
    unit: &Unit,
    run: &RunState,
    first: &Operand,
    second: &Operand,
) -> Result<(Bytes, Bytes), OutOfMemory>
    requires { All (IsInside run.now) unit.now.fields }
    ensures { IfOk result (λ p. (p.0 ≡ value_of unit.now run.now first.now) × (p.1 ≡ value_of unit.now run.now second.now)) }
{
    let first = bytes_of(alloc, unit, run, first)?;
    Ok((first, bytes_of(alloc, unit, run, second)?))
}

// A DPUT, with its operands as bytes.
#[tactic(auto, unfolding(abstract_monitor::specs::Statement::done_by))]
fn dput(alloc: Global, unit: &Unit, run: &RunState, action: &Action) -> Result<Call, OutOfMemory>
    requires inside { All (IsInside run.now) unit.now.fields }
    requires call { IsDput action.now }
    ensures { IfOk result (λ call. IsAsked (done_by unit.now run.now action.now) call) }
{
    let Action::Dput(to, mode, days, hours, minutes, seconds, message) = action else {
        unreachable!();
    };
    let (to, days) = two(alloc, unit, run, to, days)?;
    let (hours, minutes) = two(alloc, unit, run, hours, minutes)?;
    let (seconds, message) = two(alloc, unit, run, seconds, message)?;
    Ok(Call::Dput(to, *mode, days, hours, minutes, seconds, message))
}

/// The call with its operands as bytes, and a target field as its length.
#[tactic(auto, unfolding(abstract_monitor::specs::Statement::done_by))]
pub fn call_of(
    alloc: Global,
    unit: &Unit,
    run: &RunState,
    action: &Action,
) -> Result<Call, OutOfMemory>
    requires inside { All (IsInside run.now) unit.now.fields }
    requires call { IsCall action.now }
    ensures exact { IfOk result (λ call. IsAsked (done_by unit.now run.now action.now) call) }
    ensures memory { OnErr result (IsTrue (takes_memory action.now)) }
{
    match action {
        Action::Init => Ok(Call::Init),
        Action::Mget(field) => Ok(Call::Mget(capacity(unit, field))),
        Action::Fget(field) => Ok(Call::Fget(capacity(unit, field))),
        Action::Mput(operand)
        | Action::SrelGb(operand)
        | Action::SrelLb(operand)
        | Action::UnlkGb(operand)
        | Action::UnlkUs(operand)
        | Action::UnlkDa(operand) => {
            let bytes = bytes_of(alloc, unit, run, operand)?;
            Ok(match action {
                Action::Mput(_) => Call::Mput(bytes),
                Action::SrelGb(_) => Call::SrelGb(bytes),
                Action::SrelLb(_) => Call::SrelLb(bytes),
                Action::UnlkGb(_) => Call::UnlkGb(bytes),
                Action::UnlkUs(_) => Call::UnlkUs(bytes),
                Action::UnlkDa(_) => Call::UnlkDa(bytes),
                _ => unreachable!(),
            })
        }
        Action::Fput(first, second)
        | Action::SputGb(first, second)
        | Action::SputMs(first, second)
        | Action::SputUs(first, second)
        | Action::Ptda(first, second) => {
            let (first, second) = two(alloc, unit, run, first, second)?;
            Ok(match action {
                Action::Fput(..) => Call::Fput(first, second),
                Action::SputGb(..) => Call::SputGb(first, second),
                Action::SputMs(..) => Call::SputMs(first, second),
                Action::SputUs(..) => Call::SputUs(first, second),
                Action::Ptda(..) => Call::Ptda(first, second),
                _ => unreachable!(),
            })
        }
        Action::Dput(..) => dput(alloc, unit, run, action),
        Action::SgetGb(name, field)
        | Action::SgetKp(name, field)
        | Action::SgetRl(name, field)
        | Action::SgetUs(name, field)
        | Action::Gtda(name, field) => {
            let name = bytes_of(alloc, unit, run, name)?;
            let capacity = capacity(unit, field);
            Ok(match action {
                Action::SgetGb(..) => Call::SgetGb(name, capacity),
                Action::SgetKp(..) => Call::SgetKp(name, capacity),
                Action::SgetRl(..) => Call::SgetRl(name, capacity),
                Action::SgetUs(..) => Call::SgetUs(name, capacity),
                Action::Gtda(..) => Call::Gtda(name, capacity),
                _ => unreachable!(),
            })
        },
        Action::Pend(variant, Some(follow_up)) => Ok(Call::Pend(
            *variant,
            Some(bytes_of(alloc, unit, run, follow_up)?),
        )),
        Action::Pend(variant, None) => Ok(Call::Pend(*variant, None)),
        Action::Move(..)
        | Action::Join(..)
        | Action::Add(..)
        | Action::Sub(..)
        | Action::Mul(..)
        | Action::Div(..)
        | Action::If(..)
        | Action::Jump(_) => unreachable!(),
    }
}
