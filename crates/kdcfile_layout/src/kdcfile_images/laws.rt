//! Worked rows of the definitions. The function does nothing.
ghost use Rattle.kdcfile_layout.specs.ImageExamples.{WorkedRows};

/// What was worked out by hand is what the definitions say.
pub fn worked_rows()
    ensures { WorkedRows }
{}
