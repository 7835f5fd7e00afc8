//! Laws on the definitions, which all crates above may cite. The functions do nothing.
ghost use Rattle.device_acts.specs.{Fingerprints.{TextsAreToldApart}, Stands.{OneMeaningOfTables}, Opening.{AnswersExcludeEachOther}};

/// A fingerprint is a digest of bytes that no other two texts have.
pub fn texts_are_told_apart()
    ensures { TextsAreToldApart }
{}

/// The bytes of a file stand for one list of tables at most, made with one identity.
pub fn files_have_one_meaning()
    ensures { OneMeaningOfTables }
{}

/// An application starts from a file with certain tables, or refuses it for one reason, never both.
pub fn answers_exclude_each_other()
    ensures { AnswersExcludeEachOther }
{}
