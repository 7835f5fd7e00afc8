//! The program that cases call.

use kd_device::{MemDevice, MemRoom, MemTwin};
use std::alloc::Global;

/// A program that is called with words, and answers a status.
pub trait Program {
    /// The status of a call with these words over this room, this twin, and the device that a backup is written to.
    fn call(
        alloc: Global,
        words: &Vec<String>,
        room: &mut MemRoom,
        twin: &mut MemTwin,
        backup: &mut MemDevice,
    ) -> u8;
}
