//! What the words `trail` and `audit` do: the text of the trail of a script's run, and the audit of a trail.
//!
//! It stands on `trail_of`, which runs a script over the core alone, on audit_trail, which writes entries as lines, on
//! serial_audit, which replays one entry without the core, and on laws_of_trails. To the top call, its contract says
//! that `trail_text` is the text of the abstract monitor's commits, that `audit_trail` answers whether all entries hold
//! or which is the first that does not, and that of the trail of a run all do. It knows no file and no device.

mod auditing;
mod laws;
mod trailing;
mod verdict;

pub use auditing::audit_trail;
pub use laws::{own_trails_hold, verdicts_exclude_each_other};
pub use trailing::trail_text;
pub use verdict::{Verdict, verdict_line};
