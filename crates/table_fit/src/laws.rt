//! Laws on the definitions, which all crates above may cite. The functions do nothing.
ghost use Rattle.table_fit.specs.{Short.{SuitingTablesAreShort}, Lengths.{ChargesAreThoseOfTheBytes, LengthsAreThoseOfTheBytes}};

/// The lengths by which the monitor charges rows are those of their values' bytes, and so tables are charged what their
/// records are.
pub fn charges_are_those_of_the_bytes()
    ensures lengths { LengthsAreThoseOfTheBytes }
    ensures charges { ChargesAreThoseOfTheBytes }
{}

/// The values of proper tables that suit a generation are short enough for records.
pub fn suiting_tables_are_short()
    ensures { SuitingTablesAreShort }
{}
