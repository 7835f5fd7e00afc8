//! A file of the user is copied to a new one.

use crate::count::counted;
use kd_device::Failed;
use std::fs::File;
use std::io;
use std::rt::Files;

// Copies the rest of the one file to the other, durably.
fn copy_rest(from: &mut File, to: &mut File) -> io::Result<()> {
    io::copy(from, to)?;
    to.sync_all()
}

/// Copies the file of this name to a new one of that name, for a program of this name, with which a line about a fault
/// begins. A file that is there already is never written: the call fails.
pub fn copy_to_new<R: Files<File = File> + Eprint>(
    rt: &R,
    program: &str,
    from: &str,
    to: &str,
) -> Result<(), Failed> {
    let mut faults = 0;
    let opened = File::open(rt, from);
    let mut source = counted(rt, program, from, "open", opened, &mut faults)?;
    let made = File::create_new(rt, to);
    let mut copy = counted(rt, program, to, "make", made, &mut faults)?;
    let copied = copy_rest(&mut source, &mut copy);
    counted(rt, program, to, "copy", copied, &mut faults)
}
