//! What lies outside the program: disk files and an output line, and the texts that are read.
//!
//! It stands on kd_base. To all layers above, the trait `Device` states the disk rules, with one clock over disk and
//! line, so that what a power cut leaves of both can be proved; the trait `Room` states what a read of a text gives. To
//! what keeps a file twice, the trait `Twin` states the rules of two disks and one line, with what a power cut leaves of
//! them together. A twin that is borrowed is lent, from an `Origin` on, to what owns its twin, and is the same one when it
//! comes back: so a `SameTwin` is a twin still, and a `HalfDevice` is one of the two disks with the line, as a `Device`,
//! and hands the twin back with all that is known of the other file.
//!
//! One memory, the `Tape`, keeps disk files and a line with the calls that were made, and can be stopped after each call:
//! a `SureDevice` is one of one disk, a `MemDevice` one of one disk that fails where it is told to fail, and a `MemTwin`
//! one of two disks that does. A `MemRoom` is a room of texts in memory.
#![tactic(auto)]

mod buffer;
mod call;
mod device;
mod error;
mod file;
mod half;
mod half_device;
mod kind;
mod lent;
mod mem_device;
mod mem_twin;
mod memory_room;
mod room;
mod stop;
mod sure;
mod tally;
mod tape;
mod twin;

pub use device::{Device, Failed};
pub use error::DeviceError;
pub use half::Half;
pub use half_device::HalfDevice;
pub use kind::CallKind;
pub use lent::{HalfOrigin, Origin, SameTwin};
pub use mem_device::MemDevice;
pub use mem_twin::MemTwin;
pub use memory_room::MemRoom;
pub use room::Room;
pub use sure::SureDevice;
pub use twin::Twin;
