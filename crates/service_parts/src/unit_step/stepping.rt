//! One statement.
ghost use Rattle.std.specs.Prelude.{◌≡◌, ◌+◌, ◌<◌, ◌^◌, All, IfOk, IsTrue, OnErr};
ghost use Rattle.abstract_monitor.specs.{Ready.{IsInside, IsReady}, Statement.{action_at, done_by, step, takes_memory}};
ghost use Rattle.service_parts.specs.Answers.{OnlyPlainMoves, meaning_of, next_takes_memory};

use crate::unit_step::call::call_of;
use crate::unit_step::number::Calculation;
use crate::unit_step::plain::{arithmetic, branch, join_bytes, jump, move_bytes};
use crate::unit_step::stepped::Stepped;
use application_types::unit_types::{Action, Unit};
use kd_base::OutOfMemory;
use kdcs_types::{Cause, RunState};
use std::alloc::Global;

#[tactic(auto, unfolding(abstract_monitor::specs::Statement::done_by))]
fn do_action(
    alloc: Global,
    unit: &Unit,
    run: &mut RunState,
    action: &Action,
) -> Result<Stepped, OutOfMemory>
    requires inside { All (IsInside run.old) unit.now.fields }
    requires place { run.old.place + 1 < 2 ^ 32 }
    requires count { run.old.count + 1 < 2 ^ 32 }
    ensures exact { IfOk result (λ stepped. meaning_of stepped run.new ≡ done_by unit.now run.old action.now) }
    ensures same { IfOk result (λ stepped. OnlyPlainMoves stepped run.old run.new) }
    ensures err { OnErr result (run.new ≡ run.old) }
    ensures memory { OnErr result (IsTrue (takes_memory action.now)) }
{
    match action {
        Action::Move(field, operand) => {
            move_bytes(alloc, unit, run, field, operand)?;
            Ok(Stepped::Plain)
        }
        Action::Join(field, first, second) => {
            join_bytes(alloc, unit, run, field, first, second)?;
            Ok(Stepped::Plain)
        }
        Action::Add(field, operand) => Ok(arithmetic(unit, run, field, operand, Calculation::Sum)),
        Action::Sub(field, operand) => Ok(arithmetic(
            unit,
            run,
            field,
            operand,
            Calculation::Difference,
        )),
        Action::Mul(field, operand) => Ok(arithmetic(
            unit,
            run,
            field,
            operand,
            Calculation::Product,
        )),
        Action::Div(field, operand) => Ok(arithmetic(
            unit,
            run,
            field,
            operand,
            Calculation::Quotient,
        )),
        Action::If(first, relation, second, label) => {
            branch(unit, run, first, *relation, second, label);
            Ok(Stepped::Plain)
        }
        Action::Jump(label) => {
            jump(unit, run, label);
            Ok(Stepped::Plain)
        }
        _ => Ok(Stepped::Asks(call_of(alloc, unit, run, action)?)),
    }
}

/// Does one plain statement of a unit run, or says which KDCS call comes next, or which cause ends the run: E08 after
/// the last statement, else E07 where TIME is spent, else E06 where a calculation has no result that fits. Only moves,
/// joins and calls with operands take memory; where it runs out, nothing has changed.
#[tactic(auto, unfolding(abstract_monitor::specs::Statement::step))]
pub fn step(alloc: Global, unit: &Unit, run: &mut RunState) -> Result<Stepped, OutOfMemory>
    requires { IsReady unit.now run.old }
    ensures exact { IfOk result (λ stepped. meaning_of stepped run.new ≡ step unit.now run.old) }
    ensures same { IfOk result (λ stepped. OnlyPlainMoves stepped run.old run.new) }
    ensures err { OnErr result (run.new ≡ run.old) }
    ensures memory { OnErr result (IsTrue (next_takes_memory (action_at unit.now run.old.place))) }
    ensures in_time { OnErr result (run.old.count < run.old.budget) }
{
    let budget = run.budget;
    let Some(statement) = unit.statement(run.place) else {
        return Ok(Stepped::Ends(Cause::E08));
    };
    if run.count == budget {
        return Ok(Stepped::Ends(Cause::E07));
    }
    do_action(alloc, unit, run, &statement.action)
}
