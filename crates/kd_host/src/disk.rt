//! One real file, as the disk of a device or of a half of a twin.
ghost use Rattle.std.specs.Prelude.{◌≡◌, ◌≤◌, length, IfOk, OnErr, OnOk};
ghost use Rattle.kd_device.specs.Device.{Rose};

use crate::count::counted;
use kd_device::Failed;
use std::alloc::Global;
use std::fs::{File, OpenOptions, TryLockError};
use std::io::ErrorKind;
use std::marker::Model;
use std::os::unix::fs::FileExt;
use std::rt::Files;
use std::{fs, io};

/// How a file is attached.
#[derive(Clone, Copy)]
pub(crate) enum Mode {
    /// For reading and writing; one that is not there is made, and one that may not be written is attached for reading.
    Whole,
    /// The same, but one that is not there is as an empty one, and is made by the first write.
    Late,
    /// For reading; one that is not there is not made, and is as an empty one.
    Reading,
}

/// A file under a name, or none. Until an attach has succeeded, and after one that failed, no file is attached, and each
/// call fails. Contracts see the count of its faults. Who has attached a file keeps it locked, until this is dropped or
/// attaches once more.
pub(crate) struct DiskFile {
    /// The program's name, which stands before what is said of a fault.
    program: &'static str,
    mode: Mode,
    name: String,
    file: Option<Attached>,
    faults: u64,
}

impl Drop for DiskFile {
    fn drop(self) {
        let DiskFile {
            program,
            mode,
            name,
            file,
            faults,
        } = self;
        let _ = program;
        let _ = mode;
        let _ = name;
        let _ = file;
        let _ = faults;
    }
}

impl Model for DiskFile {
    ghost use Rattle.std.specs.Prelude.{ℕ};

    ghost Value = { ℕ };

    ghost view = { λ d. d.faults };
}

// A file that is open and locked, and why it can only be read, if so; or none of that name, which no write has made.
#[derive(Drop)]
enum Attached {
    Open(File, Option<ErrorKind>),
    Absent,
}

// The file of this name.
fn open<R: Files<File = File>>(rt: &R, name: &[u8], mode: Mode) -> io::Result<Attached> {
    let Ok(path) = str::from_utf8(name) else {
        return Err(io::Error::from(ErrorKind::InvalidInput));
    };
    match mode {
        Mode::Whole => open_whole(rt, path, true),
        Mode::Late => open_late(rt, path),
        Mode::Reading => open_there(rt, path),
    }
}

// The file of this name for reading and writing, or that there is none.
fn open_late<R: Files<File = File>>(rt: &R, path: &str) -> io::Result<Attached> {
    match open_whole(rt, path, false) {
        Err(error) if error.kind() == ErrorKind::NotFound => Ok(Attached::Absent),
        opened => opened,
    }
}

// The file of this name for reading, or that there is none.
fn open_there<R: Files<File = File>>(rt: &R, path: &str) -> io::Result<Attached> {
    match fs::open(rt, path) {
        Ok(file) => lock_shared(file, ErrorKind::PermissionDenied),
        Err(error) if error.kind() == ErrorKind::NotFound => Ok(Attached::Absent),
        Err(error) => Err(error),
    }
}

// The file of this name, for reading and writing; it is made where it is not there, if it is to be. One that is refused
// for writing is opened for reading.
fn open_whole<R: Files<File = File>>(rt: &R, path: &str, makes: bool) -> io::Result<Attached> {
    let opened = OpenOptions::new()
        .read(true)
        .write(true)
        .create(makes)
        .open(rt, path);
    match opened {
        Ok(file) => lock(file),
        Err(error) => match (error.kind(), fs::open(rt, path)) {
            (kind @ (ErrorKind::PermissionDenied | ErrorKind::ReadOnlyFilesystem), Ok(file)) => {
                lock_shared(file, kind)
            }
            _ => Err(error),
        },
    }
}

fn in_use() -> io::Error {
    io::Error::new(ErrorKind::WouldBlock, "in use by another program")
}

fn lock(file: File) -> io::Result<Attached> {
    match file.try_lock() {
        Ok(()) => Ok(Attached::Open(file, None)),
        Err(TryLockError::WouldBlock) => Err(in_use()),
        Err(TryLockError::Error(error)) => Err(error),
    }
}

// Who only reads goes without a lock where the file system has none.
fn lock_shared(file: File, why: ErrorKind) -> io::Result<Attached> {
    match file.try_lock_shared() {
        Err(TryLockError::WouldBlock) => Err(in_use()),
        Ok(()) | Err(TryLockError::Error(_)) => Ok(Attached::Open(file, Some(why))),
    }
}

fn not_attached() -> io::Error {
    io::Error::from(ErrorKind::NotFound)
}

// Fills the buffer from this place, as far as the file goes, and answers how many bytes that are.
fn read_from<F: FileExt>(file: &F, at: u64, into: &mut [u8]) -> io::Result<usize>
    ensures { IfOk result (λ n. n ≤ length into.old) }
{
    let mut count = 0;
    while count < into.len() {
        let read = file.read_at(&mut into[count..], at.wrapping_add(count as u64))?;
        if read == 0 {
            break;
        }
        count += read;
    }
    Ok(count)
}

fn write_to(attached: &Attached, at: u64, bytes: &[u8]) -> io::Result<()> {
    match attached {
        Attached::Open(file, None) => file.write_all_at(bytes, at),
        Attached::Open(_, Some(why)) => Err(io::Error::from(*why)),
        Attached::Absent => Err(not_attached()),
    }
}

impl DiskFile {
    /// No file, for a program of this name.
    pub(crate) fn new(alloc: Global, program: &'static str, mode: Mode) -> DiskFile
        ensures { result ≡ 0 }
    {
        DiskFile {
            program,
            mode,
            name: String::new(alloc),
            file: None,
            faults: 0,
        }
    }

    /// The file of this name is attached from now on, in the mode that there is.
    pub(crate) fn attach<R: Files<File = File> + Eprint>(
        &mut self,
        rt: &R,
        name: &[u8],
    ) -> Result<(), Failed>
        ensures failed { OnErr result (Rose self.old self.new) }
        ensures fine { OnOk result (self.new ≡ self.old) }
        ensures later { self.old ≤ self.new }
    {
        self.file = None;
        self.name.clear();
        // Where memory is short, faults are said without the name.
        let _ = self.name.push_str(str::from_utf8(name).unwrap_or_default());
        let file = open(rt, name, self.mode);
        self.file = Some(counted(rt, self.program, &self.name, "open", file, &mut self.faults)?);
        Ok(())
    }

    /// The length of the file in bytes.
    pub(crate) fn size<R: Eprint>(&mut self, rt: &R) -> Result<u64, Failed>
        ensures failed { OnErr result (Rose self.old self.new) }
        ensures fine { OnOk result (self.new ≡ self.old) }
        ensures later { self.old ≤ self.new }
    {
        let size = match &self.file {
            Some(Attached::Open(file, _)) => file.metadata().map(|metadata| metadata.len()),
            Some(Attached::Absent) => Ok(0),
            None => Err(not_attached()),
        };
        counted(rt, self.program, &self.name, "size", size, &mut self.faults)
    }

    /// Fills the buffer from this place, as far as the file goes, and answers how many bytes that are.
    pub(crate) fn read_at<R: Eprint>(
        &mut self,
        rt: &R,
        at: u64,
        into: &mut [u8],
    ) -> Result<usize, Failed>
        ensures bound { IfOk result (λ n. n ≤ length into.old) }
        ensures failed { OnErr result (Rose self.old self.new) }
        ensures fine { OnOk result (self.new ≡ self.old) }
        ensures later { self.old ≤ self.new }
    {
        let count = match &self.file {
            Some(Attached::Open(file, _)) => read_from(file, at, into),
            Some(Attached::Absent) => Ok(0),
            None => Err(not_attached()),
        };
        counted(
            rt,
            self.program,
            &self.name,
            "read",
            count,
            &mut self.faults,
        )
    }

    // Makes the file, where the first write is to make it.
    fn make_late<R: Files<File = File>>(&mut self, rt: &R) -> io::Result<()>
        ensures { self.new ≡ self.old }
    {
        if let (Mode::Late, Some(Attached::Absent)) = (self.mode, &self.file) {
            self.file = Some(open_whole(rt, &self.name, true)?);
        }
        Ok(())
    }

    /// Writes over what is there and past the end.
    pub(crate) fn write_at<R: Files<File = File> + Eprint>(
        &mut self,
        rt: &R,
        at: u64,
        bytes: &[u8],
    ) -> Result<(), Failed>
        ensures failed { OnErr result (Rose self.old self.new) }
        ensures fine { OnOk result (self.new ≡ self.old) }
        ensures later { self.old ≤ self.new }
    {
        let made = self.make_late(rt);
        let written = match &self.file {
            Some(attached) => made.and_then(|()| write_to(attached, at, bytes)),
            None => Err(not_attached()),
        };
        counted(
            rt,
            self.program,
            &self.name,
            "write",
            written,
            &mut self.faults,
        )
    }

    /// Content and length are durable after it; of what else is kept of a file, as its times, nothing is said.
    pub(crate) fn sync<R: Eprint>(&mut self, rt: &R) -> Result<(), Failed>
        ensures failed { OnErr result (Rose self.old self.new) }
        ensures fine { OnOk result (self.new ≡ self.old) }
        ensures later { self.old ≤ self.new }
    {
        let synced = match &self.file {
            Some(Attached::Open(file, _)) => file.sync_data(),
            Some(Attached::Absent) => Ok(()),
            None => Err(not_attached()),
        };
        counted(
            rt,
            self.program,
            &self.name,
            "sync",
            synced,
            &mut self.faults,
        )
    }
}
