//! Laws on the definitions, which all crates above may cite. The functions do nothing.
ghost use Rattle.kd_records.specs.{PatchStatements.{PatchSaysWhatIsFound, ChangeSaysWhatIsFound, NoChangesChangeNothing, PatchKeepsContent, PatchKeepsOrder}, Charged.{ChargedRecordsFit}};

/// A patch sets what it sets, removes what it removes, and leaves the rest.
pub fn patches_say_what_is_found()
    ensures one { ChangeSaysWhatIsFound }
    ensures all { PatchSaysWhatIsFound }
    ensures none { NoChangesChangeNothing }
{}

/// A patch of a content that a file can keep makes one that a file can keep, if its charge is no more than the pages
/// that there are.
pub fn patches_keep_contents()
    ensures content { PatchKeepsContent }
    ensures order { PatchKeepsOrder }
{}

/// Records that are charged no more than the pages that there are fit into the bytes of these pages.
pub fn charged_records_fit()
    ensures { ChargedRecordsFit }
{}
