//! What became of files that were carried, and what would become of them.

use kd_device::Half;
use kd_update::Dropped;
use kdcs_types::Row;

/// How two copies were made alike.
#[derive(Clone, Copy, PartialEq, Eq)]
pub enum Alike {
    /// They were so, or there is a file by itself: nothing was written.
    Already,
    /// This half was behind, and was written anew from the other one.
    Mended(Half),
    /// This half was behind, and is lost: a call on it failed while it was written anew.
    Lost(Half),
}

/// What became of files that were carried. A half is lost where a call on it failed.
#[derive(Drop)]
pub enum Carried {
    /// They were as the texts ask, and copies were made alike.
    UpToDate(Alike),
    /// They stand for the carried tables; so many rows of each kind went, and this half is lost.
    Stand(Dropped, Option<Half>),
    /// These rows would go: nothing was written.
    WouldLose(Vec<Row>),
}

/// What a call would do with the files.
#[derive(Drop)]
pub enum Would {
    /// Nothing, but to make copies alike: they are as the texts ask.
    UpToDate,
    /// It would carry them: so many rows of each kind would go, and these are they, in the order of their keys.
    Carries(Dropped, Vec<Row>),
}
