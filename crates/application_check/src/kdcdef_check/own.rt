//! The faults that show at a statement and those before it.
ghost use Rattle.std.specs.Prelude.{◌≡◌};
ghost use Rattle.application_types.specs.{Generation.{Generated}, Soundness.{fits_kind}};
ghost use Rattle.application_check.specs.{Faults.{has_other_class}, Steps.{HaveNames, own_fault}};

use crate::kdcdef_check::fault::CheckFault;
use crate::kdcdef_check::tables::Tables;
use application_types::kdcdef_types::{Said, Statement, TacEntry};

/// How many statements of a kind there may be.
const MAX_OF_A_KIND: usize = 20_000;

// A dialogue TAC has a class from 1 to 8 or none, an asynchronous TAC one from 9 to 16 or none.
fn fits_kind(entry: &TacEntry) -> bool
    ensures { result ≡ fits_kind entry.now }
{
    if entry.asynchronous {
        entry.class == 0 || entry.class >= 9
    } else {
        entry.class <= 8
    }
}

fn has_other_class(said: &Said) -> bool
    ensures { result ≡ has_other_class said.now }
{
    match said {
        Said::Tac(_, entry) => !fits_kind(entry),
        _ => false,
    }
}

/// The first of a statement's own faults. The tables hold the statements before it, of which `count` are of its kind.
pub(crate) fn own_fault(tables: &Tables, count: usize, statement: &Statement) -> Option<CheckFault>
    ensures { (g : Generated) → HaveNames tables.now g → result ≡ own_fault g count statement.now }
{
    let said = &statement.said;
    if tables.is_taken(said) {
        Some(CheckFault::NameTwice(statement.line))
    } else if tables.shares_lterm(said) {
        Some(CheckFault::LtermTwice(statement.line))
    } else if has_other_class(said) {
        Some(CheckFault::ClassOfWrongKind(statement.line))
    } else if count == MAX_OF_A_KIND {
        Some(CheckFault::TooMany(statement.line))
    } else {
        None
    }
}
