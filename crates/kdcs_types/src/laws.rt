//! Laws on the definitions, which all crates above may cite. The functions do nothing.
ghost use Rattle.kdcs_types.specs.TableLaws.{RowsAreChanged, NumbersAreChanged, ChangedAreSorted, TablesAreTheirRows, DifferenceIsExact, DifferencesAreChanges, DifferenceMakesNew};
ghost use Rattle.kdcs_types.specs.TableLaws.{DifferenceIsTheChanges};

/// Changed tables have, at each key, the row that the changes give it, and else the row that they had.
pub fn changes_set_and_remove()
    ensures rows { RowsAreChanged }
    ensures numbers { NumbersAreChanged }
    ensures sorted { ChangedAreSorted }
    ensures known { TablesAreTheirRows }
{}

/// The difference of two tables has exactly the keys whose rows differ, and makes the new tables of the old ones; that
/// of tables and the same with real changes is those changes.
pub fn tables_change_by_their_difference()
    ensures exact { DifferenceIsExact }
    ensures changes { DifferencesAreChanges }
    ensures new { DifferenceMakesNew }
    ensures back { DifferenceIsTheChanges }
{}
