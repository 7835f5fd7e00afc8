//! A generation with units that were fitted to it is an application.
//!
//! It stands on what every generation and all fitted units keep, and on the definitions of the monitor with their laws,
//! and joins them: what the laws ask of an application, every checked generation with its fitted units has. The
//! function does nothing; its contract is the law. So a monitor over them may cite all laws on applications.

ghost use Rattle.application_types.specs.Fitted.{IsFit};
ghost use Rattle.laws_of_states.specs.Applications.{IsApplication};
ghost use Rattle.laws_of_runs.specs.Applied.{applied};

use application_types::generation::Generation;
use application_types::units::Units;

/// A generation and units that were fitted to it are an application as the laws of the monitor want it: its numbers and
/// names lie in their ranges, each terminal has its LTERM, and each TAC has a unit that was fitted.
pub fn fitted_units_make_an_application(generation: &Generation, units: &Units)
    requires fit { IsFit generation.now units.now }
    ensures { IsApplication (applied generation.now units.now) }
{
    let _limits = generation.max(); // for the proof
    let _units = units.all(); // for the proof
}
