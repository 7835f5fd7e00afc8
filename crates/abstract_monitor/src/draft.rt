//! Jobs before the synchronisation point that numbers them.

use kd_base::Bytes;
use kdcs_types::Target;

/// When a job is due, in ticks.
#[derive(Clone, Copy, PartialEq, Eq)]
pub enum Due {
    /// So many ticks after its synchronisation point.
    After(u64),
    /// At this clock, and not before its synchronisation point.
    At(u64),
}

/// A job that FPUT or DPUT made, and that has no number yet.
#[derive(Drop)]
pub struct Draft {
    pub to: Target,
    pub due: Due,
    pub message: Bytes,
}
