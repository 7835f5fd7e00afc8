//! What a commit of the monitor makes of the records of a KDCFILE: where the tables that are stored suit the generation,
//! the patch of a commit's changes is one that fits the pages of the file, and makes the records of the tables after it.
//!
//! It stands on the laws of the abstract monitor, on record_codec and table_fit, and on warm_start beside it, for which
//! tables a KDCFILE stands for. To the run of a script, its contract says that each turn and each command makes acts
//! whose commits the store can take.

mod laws;
mod named;

pub use laws::steps_can_be_stored;
pub use named::acts_are_named;
