//! What holds of audits, as contracts of functions that do nothing.
ghost use Rattle.trail_run.specs.{Auditing.{TrailsAreJudgedOnce}, OwnAudits.{OwnTrailsHold}};

use crate::laws_of_trails::{own_entries_hold, own_trails_are_written};
use audit_trail::trails_come_back;

/// A trail is judged in one way.
pub fn verdicts_exclude_each_other()
    ensures { TrailsAreJudgedOnce }
{}

/// The text of a run's trail says that trail, and all its entries hold.
pub fn own_trails_hold()
    ensures { OwnTrailsHold }
{
    own_entries_hold();
    own_trails_are_written();
    trails_come_back();
}
