//! What a free task takes.

use kdcs_types::ServiceId;

/// The work that a free task takes.
#[derive(Clone, Copy, PartialEq, Eq)]
pub enum Work {
    /// A service of the ready list.
    Service(ServiceId),
    /// The job with this number, whose service begins.
    Job(u64),
}
