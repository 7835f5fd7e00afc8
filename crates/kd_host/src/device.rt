//! A device over a file and the standard output.
ghost use Rattle.std.specs.Prelude.{◌≡◌, ◌≤◌, false};
ghost use Rattle.std.proofs.lemmas.Bool.{false≢true};
ghost use Rattle.kd_host.specs.Silent.{device_of};

use crate::disk::{DiskFile, Mode};
use crate::line::send;
use crate::spare::Spare;
use kd_base::OutOfMemory;
use kd_device::{Device, Failed};
use std::fs::File;
use std::marker::Model;
use std::rt::Files;

/// A file as the disk, and the standard output as the line. It tells nothing of their content. Until an attach has
/// succeeded, and after one that failed, no file is attached, and each call of the disk fails.
///
/// Who has attached a file keeps it locked, until the device is dropped or attaches once more: a second device on the
/// same file, of this program or another copy of it, fails to attach it. A file that may only be read is attached for
/// reading, beside others who do so, and each write of it fails.
#[derive(Drop)]
pub struct FileDevice<'a, R: Files<File = File> + Print + Eprint + AllocGlobal> {
    rt: &'a R,
    /// The name of the program, which stands before what is said of a fault.
    program: &'static str,
    disk: DiskFile,
    line_faults: u64,
    spare: Spare,
}

impl<'a, R: Files<File = File> + Print + Eprint + AllocGlobal> Model for FileDevice<'a, R> {
    ghost use Rattle.kd_host.specs.Silent.{Counts};

    ghost Value = { Counts };

    ghost view = { λ d. record { disk_faults = d.disk; line_faults = d.line_faults; spare_calls = d.spare.calls; spare_bytes = d.spare.bytes; spare_end = d.spare.end } };
}

impl<'a, R: Files<File = File> + Print + Eprint + AllocGlobal> FileDevice<'a, R> {
    /// A device with no file, for a program of this name, with which a line about a fault begins. An attach makes a file
    /// that is not there.
    pub fn new(rt: &'a R, program: &'static str) -> FileDevice<'a, R>
        ensures disk { (device_of result).disk_faults ≡ 0 }
        ensures line { (device_of result).line_faults ≡ 0 }
        ensures told { (device_of result).told ≡ false }
    {
        FileDevice::attaching(rt, program, Mode::Whole)
    }

    /// The same, but an attach makes no file: one that is not there is as an empty one, and the first write makes it.
    pub fn making_late(rt: &'a R, program: &'static str) -> FileDevice<'a, R>
        ensures disk { (device_of result).disk_faults ≡ 0 }
        ensures line { (device_of result).line_faults ≡ 0 }
        ensures told { (device_of result).told ≡ false }
    {
        FileDevice::attaching(rt, program, Mode::Late)
    }

    fn attaching(rt: &'a R, program: &'static str, mode: Mode) -> FileDevice<'a, R>
        ensures disk { (device_of result).disk_faults ≡ 0 }
        ensures line { (device_of result).line_faults ≡ 0 }
        ensures told { (device_of result).told ≡ false }
    {
        FileDevice {
            rt,
            program,
            disk: DiskFile::new(rt.alloc(), program, mode),
            line_faults: 0,
            spare: Spare::none(),
        }
    }
}

impl<'a, R: Files<File = File> + Print + Eprint + AllocGlobal> Device for FileDevice<'a, R> {
    ghost state = { device_of };

    ghost leaves = { λ d t c out. ⊥ };

    fn attach(&mut self, name: &[u8]) -> Result<(), Failed> {
        self.spare.spend(name.len() as u64);
        self.disk.attach(self.rt, name)
    }

    // No call of this device fails for want of memory.
    fn reserve(&mut self, calls: u64, bytes: u64, end: u64) -> Result<(), OutOfMemory> {
        self.spare.reserve(calls, bytes, end);
        Ok(())
    }

    fn size(&mut self) -> Result<u64, Failed> {
        self.disk.size(self.rt)
    }

    fn read_at(&mut self, at: u64, into: &mut [u8]) -> Result<usize, Failed> {
        self.disk.read_at(self.rt, at, into)
    }

    fn write_at(&mut self, at: u64, bytes: &[u8]) -> Result<(), Failed> {
        self.spare.spend(bytes.len() as u64);
        self.disk.write_at(self.rt, at, bytes)
    }

    fn sync(&mut self) -> Result<(), Failed> {
        self.spare.spend(0);
        self.disk.sync(self.rt)
    }

    fn emit(&mut self, piece: &[u8]) -> Result<(), Failed> {
        self.spare.spend(piece.len() as u64);
        send(self.rt, self.program, piece, &mut self.line_faults)
    }

    ghost holds_now = { λ d told. absurd (false≢true told) };

    ghost sent_now = { λ d c out told left. absurd left };

    ghost earlier = { λ d t u c out told le left. absurd left };
}
