//! What is accepted in the texts of an application and likely wrong.
//!
//! It stands on the readers of a definition and of units, and on lab_check, whose verdict it takes. Of a unit it looks at
//! every way that a run can go, by one walk (`flow`) that each question about runs is asked of. Its contracts say that it
//! ends and reads nothing that is not there; the warnings are data, tested with the built program and not proved.
#![tactic(auto)]

mod areas;
mod comparisons;
mod flow;
mod follow_ups;
mod generation_warnings;
mod held;
mod labels;
mod messages;
mod operands;
mod pool;
mod roles;
mod said;
mod targets;
mod units;
mod unlocked;
mod unmatched;
mod warned;
mod warning;
mod whole;

pub use warned::Warned;
pub use whole::warnings;
