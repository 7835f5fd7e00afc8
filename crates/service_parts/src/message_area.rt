//! The message parts of a service: those that are still to be read, and those put.
//!
//! It stands on the data types and on the definitions of the abstract monitor. Its contract gives the calls above it the
//! next part, and a part more exactly where 16 parts and NB bytes allow it; a call that fails changes nothing.

mod area;
mod error;

pub use area::MessageArea;
pub use error::PutError;
