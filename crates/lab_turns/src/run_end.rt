//! How the turns of a RUN end.

/// How the turns of a RUN ended.
#[derive(Clone, Copy, PartialEq, Eq)]
pub enum RunEnd {
    /// TASKS turns in a row moved nothing, and no service is in a task.
    Idle,
    /// TASKS turns in a row moved nothing, and so many services wait for areas.
    Waiting(usize),
    /// All its turns were done.
    Spent,
}
