//! Fitting units to a generation.
ghost use Rattle.std.specs.Prelude.{◌≡◌, ◌≢◌, All, None, Ok, Err, IfOk, IfErr};
ghost use Rattle.application_types.specs.{Fitted.{FittedUnits, AreUnitPlaces, AreFittedTo}, UnitText.{IsSpellable}};
ghost use Rattle.application_check.specs.{declared.unit_check.fault.FitFault.TheVariants.{Memory}, FitFaults.{IsFirstFault, Gives}, Finding.{lacking, units_fault}};

use crate::unit_check::earlier::earlier;
use crate::unit_check::fault::FitFault;
use crate::unit_check::unit::unit_fault;
use application_types::generation::{Generation, NameHashing};
use application_types::kdcdef_types::TacEntry;
use application_types::unit_types::Unit;
use application_types::units::{Units, places_of};
use indexmap::IndexMap;
use kd_base::{Name, OutOfMemory, ProgName};
use std::alloc::Global;
use std::collections::BTreeMap;

fn tacs_of(generation: &Generation) -> Result<IndexMap<Name, TacEntry, NameHashing>, OutOfMemory>
    ensures { IfOk result (λ tacs. tacs.entries ≡ generation.now.tacs) }
{
    Ok(generation.tacs().clone()?)
}

// The first PROGRAM statement without a unit.
fn lacking(
    units: &[Unit],
    places: &BTreeMap<ProgName, usize>,
    generation: &Generation,
) -> Option<FitFault>
    requires { AreUnitPlaces places.now units.now }
    ensures { result ≡ lacking units.now generation.now.programs }
{
    let programs = generation.programs();
    for i in 0..programs.len() {
        let (name, line) = programs.get_index(i)?;
        if !places.contains_key(name) {
            return Some(FitFault::NoUnit(*line));
        }
    }
    None
}

fn units_fault(units: &[Unit], generation: &Generation) -> Option<FitFault>
    ensures { result ≡ units_fault generation.now units.now }
{
    units.iter().fold(
        None,
        |first, unit| earlier(first, unit_fault(generation, unit)),
    )
}

/// The units, where they fit the generation, or their first fault.
///
/// A PROGRAM statement without a unit is answered before all others, in the order of these statements. A unit that no
/// PROGRAM statement names is tested as the others are, and kept. The units are such as a text spells.
pub fn fit(alloc: Global, units: Vec<Unit>, generation: &Generation) -> Result<Units, FitFault>
    requires whole { All IsSpellable units.items }
    // Units that are taken have no fault, and are all kept.
    ensures found { IfOk result (λ fitted. AreFittedTo generation.now units.items fitted) }
    // Units that fit are taken, unless memory runs out.
    ensures only { (fitted : FittedUnits) → AreFittedTo generation.now units.items fitted → Gives result (Ok fitted) }
    // The fault that is answered is there, and comes first.
    ensures fault { IfErr result (λ fault. fault ≢ Memory → IsFirstFault generation.now units.items fault) }
    // Units with the fault are refused for it, unless memory runs out.
    ensures refused { (fault : FitFault) → IsFirstFault generation.now units.items fault → Gives result (Err fault) }
{
    let listed = units.as_slice();
    let places = places_of(alloc, listed)?;
    if let Some(fault) = lacking(listed, &places, generation).or(units_fault(listed, generation)) {
        return Err(fault);
    }
    let limits = *generation.max();
    let units = Units::of(alloc, units, places, limits, tacs_of(generation)?)?;
    Ok(units)
}
