//! Lists of message parts, of LSSBs and of notes.
use crate::service::Note;
use kd_base::{Bytes, Name, Sequence};

/// The parts of a message, in order.
pub type Parts = Sequence<Bytes>;

/// Named contents, as the LSSBs of a service.
pub type Areas = Sequence<(Name, Bytes)>;

/// What a transaction noted of its locks, in order.
pub type Notes = Sequence<Note>;
