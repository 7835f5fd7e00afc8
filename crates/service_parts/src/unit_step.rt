//! One statement of a program unit.
//!
//! It stands on abstract_monitor, whose definitions say what each statement means. `step` does a plain statement, says
//! which KDCS call comes next, or which cause ends the unit run; `answered` stores a call's answer. Its contract gives
//! the monitor above it that the state afterwards is just the one that the definitions say, and the same as before
//! where a call comes next, the run ends or memory ran out.

mod answer;
mod area;
mod call;
mod compare;
mod laws;
mod number;
mod operand;
mod plain;
mod stepped;
mod stepping;

pub use answer::answered;
pub use laws::runs_stay_ready;
pub use number::number_of;
pub use stepped::Stepped;
pub use stepping::step;
