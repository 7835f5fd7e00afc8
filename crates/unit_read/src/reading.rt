//! What was read so far: whole units, and perhaps an open one.
ghost use Rattle.std.specs.Prelude.{◌≡◌, None, OnOk};
ghost use Rattle.kd_base.specs.FirstFaults.{items_of};
ghost use Rattle.unit_read.specs.{Units.{nothing_read, opened, closed, stepped, finished}, Open.{unit_so_far, HasItsNames, state_of, AreKept}, Answers.{Gives, after}};

use crate::fault::UnitFault;
use crate::names::{UnitNames, add_unit_name, holds_unit, no_unit_names};
use crate::open_unit::OpenUnit;
use crate::piece::Piece;
use crate::push::push;
use application_types::unit_types::Unit;
use std::alloc::Global;

/// The greatest number of units in a text.
const MAX_UNITS: usize = 1_000;

/// Whole units with a set of their names, and the one that is open.
#[derive(Drop)]
pub(crate) struct Reading {
    units: Vec<Unit>,
    names: UnitNames,
    unit: Option<OpenUnit>,
}

impl Reading {
    pub(crate) fn new(alloc: Global) -> Reading
        ensures state { state_of result ≡ nothing_read }
        ensures kept { AreKept result }
    {
        Reading {
            units: Vec::new(alloc),
            names: no_unit_names(alloc),
            unit: None,
        }
    }

    // No unit is open.
    fn opened(&mut self, alloc: Global, line: u32, piece: Piece) -> Result<(), UnitFault>
        requires kept { AreKept self.old }
        requires none { self.old.unit ≡ None }
        ensures state { Gives (after result (state_of self.new)) (opened line piece self.old.units.items) }
        ensures kept { OnOk result (AreKept self.new) }
    {
        let Piece::Unit(name) = piece else {
            return Err(UnitFault::BadStatement(line));
        };
        if holds_unit(&self.names, &name) {
            return Err(UnitFault::UnitTwice(line));
        }
        if self.units.len() >= MAX_UNITS {
            return Err(UnitFault::TooLong(line));
        }
        self.unit = Some(OpenUnit::new(alloc, name, line));
        Ok(())
    }

    // The unit, which was open, ends.
    fn closed(&mut self, alloc: Global, unit: OpenUnit) -> Result<(), UnitFault>
        requires kept { AreKept self.old }
        requires none { self.old.unit ≡ None }
        requires unit { HasItsNames unit }
        ensures state { Gives (after result (state_of self.new)) (closed self.old.units.items (unit_so_far unit)) }
        ensures kept { OnOk result (AreKept self.new) }
    {
        add_unit_name(&mut self.names, unit.name())?;
        push(&mut self.units, unit.ended(alloc)?)?;
        Ok(())
    }

    /// One more piece, on this line.
    pub(crate) fn stepped(
        &mut self,
        alloc: Global,
        line: u32,
        piece: Piece,
    ) -> Result<(), UnitFault>
        requires { AreKept self.old }
        ensures state { Gives (after result (state_of self.new)) (stepped line piece (state_of self.old)) }
        ensures kept { OnOk result (AreKept self.new) }
    {
        let Some(mut unit) = self.unit.take() else {
            return self.opened(alloc, line, piece);
        };
        if let Piece::End = piece {
            return self.closed(alloc, unit);
        }
        unit.with_piece(line, piece)?;
        self.unit = Some(unit);
        Ok(())
    }

    /// The units, where the text ends before this line.
    pub(crate) fn finished(self, line: u32) -> Result<Vec<Unit>, UnitFault>
        ensures { items_of result ≡ finished line (state_of self) }
    {
        match self.unit {
            None => Ok(self.units),
            Some(_) => Err(UnitFault::NoEnd(line)),
        }
    }
}
