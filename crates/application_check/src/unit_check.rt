//! The fit of program units to a generation.
//!
//! It stands on the types of an application. To the layers above its contract says that `fit` takes units exactly where
//! each PROGRAM statement has one, each field lies in its area, each label that a statement may jump to is there and each
//! literal that a PEND names is a TAC; otherwise that it answers the first fault.

mod earlier;
mod fault;
mod fitting;
mod statement;
mod unit;

pub use fault::FitFault;
pub use fitting::fit;
