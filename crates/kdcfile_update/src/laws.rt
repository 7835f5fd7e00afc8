//! Laws on the definitions, which all crates above may cite. The functions do nothing.
ghost use Rattle.kdcfile_update.specs.{Laws.{TakenTablesSuit}, Updating.{UpdateAnswersExcludeEachOther}};

/// The tables that a file keeps after its update suit the generation.
pub fn taken_tables_suit()
    ensures { TakenTablesSuit }
{}

/// A file is taken, or refused for one reason, never both.
pub fn update_answers_exclude_each_other()
    ensures { UpdateAnswersExcludeEachOther }
{}
