//! All that is refused in the texts of an application, and what is at fault there.
//!
//! It stands on the readers of the three texts, whose faults it tells by their own names. To a program for who writes units
//! its contract says what the definition and the units are taken for, as `read_application` does; that where they have a
//! fault, that is the first refusal, with its text, line and name; and that where they have none, none is told but of the
//! script. The other refusals, which come from reading texts again that were mended line by line, and what is told to be at
//! fault are tested and not proved.
#![tactic(auto)]

mod definition;
mod definition_details;
mod draft;
pub mod lab_findings;
mod parts;
mod script;
mod unit_details;
mod units;
mod whole;

pub use whole::{Checked, Verdict, findings};
