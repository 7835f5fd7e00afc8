//! The answer of a call.

/// How a call ended: its exit status.
#[derive(Clone, Copy, PartialEq, Eq)]
pub struct Status {
    /// From 0 to 8.
    pub code: u8,
}

impl Status {
    /// The whole input was read and done.
    pub const DONE: Status = Status { code: 0 };
    /// The words are none of the forms.
    pub const USAGE: Status = Status { code: 1 };
    /// The definition or the units were refused, or they ask for two copies of the KDCFILE; nothing was made or run.
    pub const APPLICATION: Status = Status { code: 2 };
    /// The script or the trail was refused; nothing was run.
    pub const SCRIPT: Status = Status { code: 3 };
    /// The KDCFILE is not empty, and stands for no tables that this application starts from.
    pub const FILE: Status = Status { code: 4 };
    /// The disk or the line failed.
    pub const DEVICE: Status = Status { code: 5 };
    /// A text could not be read.
    pub const ROOM: Status = Status { code: 6 };
    /// Want of memory.
    pub const MEMORY: Status = Status { code: 7 };
    /// An entry of the trail does not hold.
    pub const AUDIT: Status = Status { code: 8 };
}
