//! The faults of one statement.
ghost use Rattle.std.specs.{Prelude.{◌≡◌, is_some}, Option.{option_copied}};
ghost use Rattle.application_types.specs.{Fitted.{tac_in, literal_follow_up}, UnitText.{jump_of}};
ghost use Rattle.application_check.specs.Finding.{label_fault, follow_up_fault};

use crate::unit_check::fault::FitFault;
use application_types::generation::Generation;
use application_types::unit_types::{Action, Operand, Unit, UnitStatement};
use kd_base::{Bytes, Name, trim_end};

// Whether the bytes, without the spaces at their end, are a TAC.
fn names_tac(generation: &Generation, bytes: &[u8]) -> bool
    ensures { result ≡ is_some (tac_in generation.now.tacs bytes.now) }
{
    match Name::from_bytes(trim_end(bytes)) {
        Some(name) => generation.tac(name).is_some(),
        None => false,
    }
}

// The label that the statement may jump to.
fn jump_of(action: &Action) -> Option<&Bytes>
    ensures { option_copied result ≡ jump_of action.now }
{
    match action {
        Action::If(_, _, _, label) | Action::Jump(label) => Some(label),
        _ => None,
    }
}

// The follow-up of a PEND that is a literal.
fn literal_follow_up(action: &Action) -> Option<&Bytes>
    ensures { option_copied result ≡ literal_follow_up action.now }
{
    match action {
        Action::Pend(_, Some(Operand::Literal(bytes))) => Some(bytes),
        _ => None,
    }
}

/// The statement, if it jumps to a label that the unit has not.
pub(crate) fn label_fault(unit: &Unit, statement: &UnitStatement) -> Option<FitFault>
    ensures { result ≡ label_fault unit.now statement.now }
{
    let label = jump_of(&statement.action)?;
    if unit.label(label.as_slice()).is_some() {
        return None;
    }
    Some(FitFault::NoLabel(statement.line))
}

/// The statement, if it is a PEND that names by a literal what is no TAC.
pub(crate) fn follow_up_fault(
    generation: &Generation,
    statement: &UnitStatement,
) -> Option<FitFault>
    ensures { result ≡ follow_up_fault generation.now.tacs statement.now }
{
    let bytes = literal_follow_up(&statement.action)?;
    if names_tac(generation, bytes.as_slice()) {
        return None;
    }
    Some(FitFault::LiteralFollowUp(statement.line))
}
