//! The first fault of one unit.
ghost use Rattle.std.specs.Prelude.{◌≡◌, None, fold};
ghost use Rattle.application_check.specs.Finding.{field_fault, fields_fault, statement_fault, statements_fault, unit_fault};

use crate::unit_check::earlier::earlier;
use crate::unit_check::fault::FitFault;
use crate::unit_check::statement::{follow_up_fault, label_fault};
use application_types::generation::Generation;
use application_types::kdcdef_types::Limits;
use application_types::unit_types::{Field, Unit, UnitStatement};

// The field, if it ends after its area.
fn field_fault(limits: &Limits, field: &Field) -> Option<FitFault>
    ensures { result ≡ field_fault limits.now field.now }
{
    let area = if field.spab { limits.spab } else { limits.kb };
    if u64::from(field.offset) + u64::from(field.length) <= u64::from(area) {
        return None;
    }
    Some(FitFault::FieldPastArea(field.line))
}

fn fields_fault(limits: &Limits, fields: &[Field]) -> Option<FitFault>
    ensures { result ≡ fields_fault limits.now fields.now }
{
    fields.iter().fold(
        None,
        |first, field| earlier(first, field_fault(limits, field)),
    )
}

fn statement_fault(
    generation: &Generation,
    unit: &Unit,
    statement: &UnitStatement,
) -> Option<FitFault>
    ensures { result ≡ statement_fault generation.now.tacs unit.now statement.now }
{
    earlier(
        label_fault(unit, statement),
        follow_up_fault(generation, statement),
    )
}

fn statements_fault(generation: &Generation, unit: &Unit) -> Option<FitFault>
    ensures { result ≡ statements_fault generation.now.tacs unit.now }
{
    unit.statements().iter().fold(None, |first, statement| {
        earlier(first, statement_fault(generation, unit, statement))
    })
}

/// The first fault of a unit, if it has one.
pub(crate) fn unit_fault(generation: &Generation, unit: &Unit) -> Option<FitFault>
    ensures { result ≡ unit_fault generation.now unit.now }
{
    earlier(
        fields_fault(generation.max(), unit.fields()),
        statements_fault(generation, unit),
    )
}
