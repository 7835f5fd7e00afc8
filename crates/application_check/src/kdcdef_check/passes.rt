//! The pass over the statements for what needs all of them.
ghost use Rattle.std.specs.Prelude.{◌≡◌, List, ℕ, length, slice_get, Some, true};
ghost use Rattle.application_types.specs.declared.kdcdef_types.statement.Statement.{Statement};
ghost use Rattle.application_check.specs.{Generating.{generated}, Faults.{is_end}, Steps.{IsFirstOf, AmongFirst, OuterFault, HaveNamed, SaysTogether}};

use crate::kdcdef_check::fault::{CheckFault, earlier};
use crate::kdcdef_check::tables::Tables;
use crate::kdcdef_check::whole::Whole;
use application_types::kdcdef_types::Statement;

/// The first of the faults of these statements that show against all.
pub(crate) fn first_outer_fault(
    tables: &Tables,
    whole: &Whole,
    statements: &[Statement],
) -> Option<CheckFault>
    ensures { (all : List Statement) → HaveNamed tables.now (generated all) → ((i : ℕ) (s : Statement) → slice_get statements.now i ≡ Some s → is_end s.said ≡ true → SaysTogether whole.now all) → IsFirstOf (AmongFirst statements.now (OuterFault all) (length statements.now)) result }
{
    let mut first = None;
    for statement in statements {
        first = earlier(first, whole.fault_of(tables, statement));
    }
    first
}
