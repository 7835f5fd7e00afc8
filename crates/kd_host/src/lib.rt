//! The outside itself: a real file and the standard output as a device, two real files and the standard output as a
//! twin, the files of the current folder as a room, and a file that is copied to a new one.
//!
//! It stands on kd_base and kd_device. It is the trusted edge: no contract can say what a file, a power cut or
//! a line really does, so its device, its twin and its room tell nothing of their content. What is proved of them is that each call
//! that fails raises its count of faults, and that no other call does. That a write reaches the file, that a sync
//! makes it last, that an emit is sent, that the file is locked, that a fault is said on standard error, and that a
//! descriptor which was closed is not given to a file of the user, rests on this crate's few lines, the library and
//! the system below it.
#![tactic(auto)]

mod copying;
mod count;
mod device;
mod disk;
mod line;
mod room;
mod spare;
mod standard;
mod twin;

pub use copying::copy_to_new;
pub use device::FileDevice;
pub use room::FolderRoom;
pub use standard::StandardDescriptors;
pub use twin::FileTwin;
