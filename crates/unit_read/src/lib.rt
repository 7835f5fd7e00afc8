//! The reader of program units, which are written in the step language.
//!
//! It stands on kd_base, texts and application_types. To the fit of units to a generation its contract says that the
//! units it gets are those that the text spells, that every other text is refused for the fault of its least line, and
//! that each field that a statement names is a field of its unit.
#![tactic(auto)]

mod fault;
mod key;
mod laws;
mod line;
mod names;
mod open_unit;
mod operand;
mod piece;
mod push;
mod read;
mod reading;
mod said;
mod shape;
mod statement;
mod used;
mod word;

pub use fault::UnitFault;
pub use laws::read_units_are_spelled;
pub use read::read_units;
