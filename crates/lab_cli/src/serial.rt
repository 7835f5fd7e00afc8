//! Outcomes that no order of whole transactions gives.
ghost use Rattle.std.specs.{Prelude.{◌≡◌}, List.{list_any}};
ghost use Rattle.lab_orders.specs.Exploring.{is_serial_with, tables_are_serial};
ghost use Rattle.lab_cli.specs.Exploring.{is_not_serial, is_serial, is_unhindered};

use lab_orders::Outcome;

// An order of the other outcome has each transaction in one go, and leaves the tables of this one.
fn is_serial_with(outcome: &Outcome, other: &Outcome) -> bool
    ensures { result ≡ is_serial_with outcome.now.tables other.now }
{
    other.tables.as_slice() == outcome.tables.as_slice() && other.serial > 0
}

fn tables_are_serial(outcomes: &[Outcome], outcome: &Outcome) -> bool
    ensures { result ≡ tables_are_serial outcomes.now outcome.now }
{
    outcomes.iter().any(|other| is_serial_with(outcome, other))
}

// No request was refused, and nothing kept a transaction from its end.
fn is_unhindered(outcome: &Outcome) -> bool
    ensures { result ≡ is_unhindered outcome.now }
{
    let signs = outcome.signs;
    !(signs.k04 || signs.k05 || signs.standstill || signs.spent)
}

// Some orders that come to it have each transaction in one go.
fn is_serial(outcome: &Outcome) -> bool
    ensures { result ≡ is_serial outcome.now }
{
    outcome.serial > 0
}

fn one_is_serial(outcomes: &[Outcome]) -> bool
    ensures { result ≡ list_any is_serial outcomes.now }
{
    outcomes.iter().any(|outcome| is_serial(outcome))
}

/// All orders are known, some have each transaction in one go, and none of these leaves the tables of the outcome, in which
/// no transaction was hindered.
pub(crate) fn is_not_serial(outcomes: &[Outcome], outcome: &Outcome, all: bool) -> bool
    ensures { result ≡ is_not_serial outcomes.now outcome.now all }
{
    all && is_unhindered(outcome)
        && one_is_serial(outcomes)
        && !tables_are_serial(outcomes, outcome)
}
