//! The units of an application, with those at hand that the tasks run.
//!
//! It stands on the units that fit a generation. To the layers above, its contract says that it finds the unit of a TAC as
//! they do; a task that says which TAC it runs finds the unit without a look-up, as long as that stays the same.
ghost use Rattle.std.specs.{Prelude.{◌≡◌, IfOk, slice_get, slice_set}, Option.{option_copied}};
ghost use Rattle.application_types.specs.Fitted.{unit_of};
ghost use Rattle.monitor_parts.specs.UnitPlaces.{IsFound};

use application_types::unit_types::Unit;
use application_types::units::{Units, places_of};
use kd_base::{Name, OutOfMemory, ProgName};
use std::alloc::Global;
use std::collections::BTreeMap;
use std::marker::Model;

/// A TAC, and where its unit is among the units, from 0.
type UnitPlace = (Name, usize);

/// Units that fit a generation, in use by tasks. Contracts see what they see of the units.
pub struct TaskUnits {
    units: Units,
    // Where the first unit of each name is.
    places: BTreeMap<ProgName, usize>,
    // What each task found last.
    found: Vec<Option<UnitPlace>>,
    // Which task found something last of all.
    task: usize,
}

impl Drop for TaskUnits {
    fn drop(self) {
        let TaskUnits {
            units,
            places,
            found,
            task,
        } = self;
        let _ = units;
        let _ = places;
        let _ = found;
        let _ = task;
    }
}

impl Model for TaskUnits {
    ghost use Rattle.std.specs.Prelude.{All};
    ghost use Rattle.application_types.specs.Fitted.{FittedUnits, AreUnitPlaces};
    ghost use Rattle.monitor_parts.specs.UnitPlaces.{IsFound};

    ghost Value = { FittedUnits };

    ghost view = { λ u. u.units };

    ghost invariant = { λ u. AreUnitPlaces u.places u.units.units × All (IsFound u.units) u.found.items };
}

// The task found this last.
fn note(found: &mut Vec<Option<UnitPlace>>, task: usize, place: Option<UnitPlace>)
    ensures { found.new.items ≡ slice_set found.old.items task place }
{
    if task < found.len() {
        found[task] = place;
    }
}

impl TaskUnits {
    /// These units, in use by so many tasks.
    pub fn of(alloc: Global, units: Units, tasks: u16) -> Result<TaskUnits, OutOfMemory>
        ensures { IfOk result (λ u. u ≡ units) }
    {
        let places = places_of(alloc, units.all())?;
        Ok(TaskUnits {
            units,
            places,
            found: vec![in alloc; None; tasks as usize + 1]?,
            task: 0,
        })
    }

    /// The units, in no use any more. It takes no memory.
    pub fn into_units(self) -> Units
        ensures { result ≡ self }
    {
        let TaskUnits {
            units,
            places,
            found,
            task,
        } = self;
        let _ = places;
        let _ = found;
        let _ = task;
        units
    }

    /// It takes no memory.
    pub fn units(&self) -> &Units
        ensures { result.now ≡ self.now }
    {
        &self.units
    }

    /// The unit that a TAC runs: at once where it is the one that `run` has seen last.
    pub fn unit_of(&self, tac: Name) -> Option<&Unit>
        ensures { option_copied result ≡ unit_of self.now tac }
    {
        match self.found.get(self.task) {
            Some(Some(last)) if last.0 == tac => self.at(last.1),
            _ => self.units.unit_of(tac),
        }
    }

    /// This task, from 1 on, runs this TAC: its unit is looked up if the task ran another one last. It takes no memory.
    pub fn run(&mut self, task: u16, tac: Name)
        ensures { self.new ≡ self.old }
    {
        let place = self.place_in(task as usize, tac);
        note(&mut self.found, task as usize, place);
        self.task = task as usize;
    }

    // The unit at this place.
    fn at(&self, place: usize) -> Option<&Unit>
        ensures { option_copied result ≡ slice_get self.now.units place }
    {
        self.units.all().get(place)
    }

    // Where the unit of this TAC is, which this task may have found last.
    fn place_in(&self, task: usize, tac: Name) -> Option<UnitPlace>
        ensures { IsFound self.now result }
    {
        match self.found.get(task) {
            Some(Some(last)) if last.0 == tac => Some(*last),
            _ => self.place_of(tac),
        }
    }

    // Where the unit of this TAC is.
    fn place_of(&self, tac: Name) -> Option<UnitPlace>
        ensures { IsFound self.now result }
    {
        let unit = self.units.unit_of(tac)?;
        let place = self.places.get(unit.name())?;
        Some((tac, *place))
    }
}
