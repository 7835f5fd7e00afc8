//! A law on the definitions. The function does nothing.
ghost use Rattle.unit_read.specs.Found.{ReadUnitsAreSpelled};

/// What reading gives for a text, which computes, is what the text spells.
pub fn read_units_are_spelled()
    ensures { ReadUnitsAreSpelled }
{}
