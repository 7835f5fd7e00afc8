//! What holds of every trail, as contracts of functions that do nothing.
ghost use Rattle.audit_trail.specs.{Laws.{FaultsAreFirst, LongTextsAreTooLong, NoOtherFaults, SaysWhatItsLinesSay, ReadTrailsAreTrails}, RoundTrip.{TrailsComeBack}};
ghost use Rattle.audit_trail.specs.Examples.{TrailRows, LineRows, KeptRows};

/// A text that is refused for a line is so for the first one that may not stand in its place; one that is too long is so for
/// its bytes alone; and none is refused for anything else.
pub fn faults_are_first()
    ensures lines { FaultsAreFirst }
    ensures long { LongTextsAreTooLong }
    ensures others { NoOtherFaults }
{}

/// A text that says a trail says that of its lines, one after another; its tables are in order, and take the changes of
/// its entries.
pub fn says_what_its_lines_say()
    ensures lines { SaysWhatItsLinesSay }
    ensures trails { ReadTrailsAreTrails }
{}

/// A trail that was written is read again.
pub fn trails_come_back()
    ensures { TrailsComeBack }
{}

/// Worked rows: a trail of one TICK, lines, and what a transaction kept.
pub fn worked_rows()
    ensures trails { TrailRows }
    ensures lines { LineRows }
    ensures kept { KeptRows }
{}
