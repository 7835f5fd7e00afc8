//! What the texts of an application generate: the definition by itself, and with its program units.
//!
//! It stands on texts, kdcdef_read and application_check, by which `generate` takes a definition apart, reads its
//! statements and checks them together, and on unit_read, whose units `read_application` fits to the generation. To the
//! program its contract says which generation and which fitted units two texts make, and that every other two texts are
//! refused for their first fault: of the definition (its spelling, else a statement by itself, else the statements
//! together), else of the units by themselves, else of their fit.
#![tactic(auto)]

mod application;
mod definition_fault;
mod definition_text;
mod fault;
mod laws;

pub use application::{Application, read_application};
pub use definition_fault::DefinitionFault;
pub use definition_text::generate;
pub use fault::ApplicationFault;
pub use laws::generations_are_sound;
