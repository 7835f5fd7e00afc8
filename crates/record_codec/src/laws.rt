//! Laws on the definitions, which all crates above may cite. The functions do nothing.
ghost use Rattle.record_codec.specs.{RowReadings.{RecordsAreOneToOne}, OneToOne.{TablesAreOneToOne}, Order.{KeysKeepTheirOrder}, Patches.{PatchesMatchChanges}};

/// The keys of records ascend as the keys of rows do.
pub fn keys_keep_their_order()
    ensures { KeysKeepTheirOrder }
{}

/// The patch of some changes makes the records of the changed tables.
pub fn patches_match_changes()
    ensures { PatchesMatchChanges }
{}

/// Rows with one record are one row, and tables with one content are one.
pub fn records_are_one_to_one()
    ensures rows { RecordsAreOneToOne }
    ensures tables { TablesAreOneToOne }
{}
