//! Program units in the step language: fields, statements and labels.
//!
//! It stands on kd_base. The reader of units, their fit to a generation, the step of a statement and all definitions of
//! the monitor speak of these types. A unit is seen as its name, fields, labels and statements; how it finds a field or
//! a label is its own affair.

mod action;
mod index;
mod unit;

pub use action::{Action, HeaderName, Operand, Relation, UnitStatement};
pub use unit::{Field, Unit};
