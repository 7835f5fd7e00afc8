//! Descriptors 0 to 2, of which a caller may have closed some.

use std::rt::Files;
use std::{fs, io};

/// Keeps descriptors 0 to 2 from every file that is opened later.
///
/// The system gives a file that is opened the least descriptor that is free. Where the standard output was closed, as by
/// the shell's `>&-`, the KDCFILE would get descriptor 1, and the lines would be written over it. So three handles are
/// opened before all others and held to the end: those of 0 to 2 that were closed are taken by them, and no file of the
/// user gets one. They can only be read, so a line to one of them fails.
#[derive(Drop)]
pub struct StandardDescriptors<F: Drop> {
    first: F,
    second: F,
    third: F,
}

/// A handle that can only be read, of what is always there: the empty device, or else the root folder.
fn read_only<R: Files>(rt: &R) -> io::Result<R::File> {
    match fs::open(rt, "/dev/null") {
        Ok(file) => Ok(file),
        Err(_) => fs::open(rt, "/"),
    }
}

impl<F: Drop> StandardDescriptors<F> {
    /// Opens the three handles. An error says that the system gave no further descriptor.
    pub fn take<R: Files<File = F>>(rt: &R) -> io::Result<StandardDescriptors<F>> {
        Ok(StandardDescriptors {
            first: read_only(rt)?,
            second: read_only(rt)?,
            third: read_only(rt)?,
        })
    }
}
