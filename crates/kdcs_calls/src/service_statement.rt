//! One statement of a service, as the running system does it.
//!
//! It puts the step of a unit run, the KDCS calls and what a PEND does within a transaction together. To the layers
//! above, which take turns and end transactions, its contract says that a statement does to its transaction, and
//! answers, exactly what the abstract monitor defines for what the locks and the tables say at that moment, and what
//! becomes of the locks and of the requests that wait. The two parts of it, a step of the unit run and a KDCS call, are calls
//! of their own, for a replay.

mod call;
mod outside;
mod pend;
mod statement;
mod waits;

pub use call::perform_call;
pub use outside::Outside;
pub use statement::{do_statement, step_unit};
