//! Units that fit a generation.
//!
//! Its contract says that each PROGRAM statement's unit is found by its TAC, and that each unit fits: its fields lie in
//! their areas, the labels that its statements may jump to are there, and each literal that a PEND names is a TAC. So the
//! step of a statement asks none of it again.
ghost use Rattle.std.specs.{Prelude.{◌≡◌, ◌↔◌, IfOk, IfSome, IsSome, OnOk}, Option.{option_copied}};
ghost use Rattle.application_types.specs.{Generation.{entry_of}, Fitted.{unit_named, unit_of, IsFitted, AreFit, PutsPlace, AreUnitPlaces}};

use crate::generation::NameHashing;
use crate::kdcdef_types::{Limits, TacEntry};
use crate::unit_types::Unit;
use indexmap::IndexMap;
use kd_base::{Name, OutOfMemory, ProgName};
use std::alloc::Global;
use std::collections::BTreeMap;
use std::marker::Model;

// Puts the place of a name, unless it has one already.
fn put_first(
    places: &mut BTreeMap<ProgName, usize>,
    name: ProgName,
    place: usize,
) -> Result<(), OutOfMemory>
    ensures { OnOk result (PutsPlace places.old places.new name place) }
{
    if !places.contains_key(&name) {
        places.insert(name, place)?;
    }
    Ok(())
}

/// The place, from 0, of the first unit of each name.
pub fn places_of(alloc: Global, units: &[Unit]) -> Result<BTreeMap<ProgName, usize>, OutOfMemory>
    ensures { IfOk result (λ places. AreUnitPlaces places units.now) }
{
    let mut places: BTreeMap<ProgName, usize> = BTreeMap::new(alloc);
    for (i, unit) in units.iter().enumerate() {
        put_first(&mut places, *unit.name(), i)?;
    }
    Ok(places)
}

/// What is known of units that fit a generation.
struct Fitted {
    units: Vec<Unit>,
    limits: Limits,
    tacs: IndexMap<Name, TacEntry, NameHashing>,
    // Where the first unit of a name is.
    places: BTreeMap<ProgName, usize>,
}

impl Drop for Fitted {
    fn drop(self) {
        let Fitted {
            units,
            limits,
            tacs,
            places,
        } = self;
        let _ = units;
        let _ = limits;
        let _ = tacs;
        let _ = places;
    }
}

impl Model for Fitted {
    ghost use Rattle.application_types.specs.Fitted.{FittedUnits, AreUnitPlaces, AreFit};

    ghost Value = { FittedUnits };

    ghost view = { λ u. record { units = u.units.items; limits = u.limits; tacs = u.tacs.entries } };

    ghost invariant = { λ u. AreUnitPlaces u.places u.units.items × AreFit u.limits u.tacs.entries u.units.items };
}

impl Fitted {
    fn all(&self) -> &[Unit]
        ensures all { result.now ≡ self.now.units }
        ensures fit { AreFit self.now.limits self.now.tacs self.now.units }
    {
        self.units.as_slice()
    }

    fn unit_of(&self, tac: Name) -> Option<&Unit>
        ensures unit { option_copied result ≡ unit_of self.now tac }
        ensures found { IsSome result ↔ IsSome (entry_of self.now.tacs tac) }
        ensures fitted { IfSome result (λ unit. IsFitted self.now.limits self.now.tacs unit.now) }
    {
        match self.tacs.get(&tac) {
            Some(entry) => self.unit_named(&entry.program),
            None => None,
        }
    }

    // The first unit of this name.
    fn unit_named(&self, name: &ProgName) -> Option<&Unit>
        ensures { option_copied result ≡ unit_named self.now.units name.now }
    {
        match self.places.get(name) {
            Some(place) => self.units.get(*place),
            None => None,
        }
    }
}

/// Units that fit a generation. Contracts see the units in their order, and the limits and TACs of the generation. They
/// are handed from owner to owner, so what is known of them is in a box.
pub struct Units {
    fitted: Box<Fitted, Global>,
}

impl Drop for Units {
    fn drop(self) {
        let Units { fitted } = self;
        let _ = fitted;
    }
}

impl Model for Units {
    ghost use Rattle.application_types.specs.Fitted.{FittedUnits};

    ghost Value = { FittedUnits };

    ghost view = { λ u. u.fitted.value };
}

impl Units {
    /// These units, with the place of the first one of each name, and the limits and the TACs that they fit.
    pub fn of(
        alloc: Global,
        units: Vec<Unit>,
        places: BTreeMap<ProgName, usize>,
        limits: Limits,
        tacs: IndexMap<Name, TacEntry, NameHashing>,
    ) -> Result<Units, OutOfMemory>
        requires places { AreUnitPlaces places units.items }
        requires fit { AreFit limits tacs.entries units.items }
        ensures { IfOk result (λ fitted. fitted ≡ record { units = units.items; limits = limits; tacs = tacs.entries }) }
    {
        let fitted = Fitted {
            units,
            limits,
            tacs,
            places,
        };
        Ok(Units {
            fitted: Box::new(alloc, fitted)?,
        })
    }

    /// The units, in their order.
    pub fn all(&self) -> &[Unit]
        ensures all { result.now ≡ self.now.units }
        ensures fit { AreFit self.now.limits self.now.tacs self.now.units }
    {
        self.fitted.all()
    }

    /// The unit that a TAC runs, in a time that grows only with the logarithm of the number of units; none where the
    /// generation has no such TAC.
    pub fn unit_of(&self, tac: Name) -> Option<&Unit>
        ensures unit { option_copied result ≡ unit_of self.now tac }
        ensures found { IsSome result ↔ IsSome (entry_of self.now.tacs tac) }
        ensures fitted { IfSome result (λ unit. IsFitted self.now.limits self.now.tacs unit.now) }
    {
        self.fitted.unit_of(tac)
    }
}
