//! A twin over two files and the standard output.
ghost use Rattle.std.specs.Prelude.{◌≡◌, ◌≤◌, false};
ghost use Rattle.std.proofs.lemmas.Bool.{false≢true};
ghost use Rattle.kd_host.specs.Silent.{both_of};

use crate::disk::{DiskFile, Mode};
use crate::line::send;
use crate::spare::Spare;
use kd_base::OutOfMemory;
use kd_device::{Failed, Half, Twin};
use std::fs::File;
use std::marker::Model;
use std::rt::Files;

/// Two files as the disks, and the standard output as the line. It tells nothing of their content. Each half is to its
/// file what a `FileDevice` is to its own: it has no file until an attach of it has succeeded, keeps it locked, and says
/// its faults under its name. So one half fails to attach the file that the other one has.
#[derive(Drop)]
pub struct FileTwin<'a, R: Files<File = File> + Print + Eprint + AllocGlobal> {
    rt: &'a R,
    /// The name of the program, which stands before what is said of a fault.
    program: &'static str,
    first: DiskFile,
    second: DiskFile,
    line_faults: u64,
    spare: Spare,
}

impl<'a, R: Files<File = File> + Print + Eprint + AllocGlobal> Model for FileTwin<'a, R> {
    ghost use Rattle.kd_host.specs.Silent.{TwinCounts};

    ghost Value = { TwinCounts };

    ghost view = { λ t. record { first_faults = t.first; second_faults = t.second; line_faults = t.line_faults; spare_calls = t.spare.calls; spare_bytes = t.spare.bytes; spare_end = t.spare.end } };
}

impl<'a, R: Files<File = File> + Print + Eprint + AllocGlobal> FileTwin<'a, R> {
    /// A twin with no file, for a program of this name, with which a line about a fault begins. An attach makes a file that
    /// is not there.
    pub fn new(rt: &'a R, program: &'static str) -> FileTwin<'a, R>
        ensures first { (both_of result).first.disk_faults ≡ 0 }
        ensures second { (both_of result).second.disk_faults ≡ 0 }
        ensures line { (both_of result).line_faults ≡ 0 }
        ensures told { (both_of result).told ≡ false }
    {
        FileTwin::attaching(rt, program, Mode::Whole)
    }

    /// The same, but an attach makes no file: one that is not there is as an empty one, and the first write makes it.
    pub fn making_late(rt: &'a R, program: &'static str) -> FileTwin<'a, R>
        ensures first { (both_of result).first.disk_faults ≡ 0 }
        ensures second { (both_of result).second.disk_faults ≡ 0 }
        ensures line { (both_of result).line_faults ≡ 0 }
        ensures told { (both_of result).told ≡ false }
    {
        FileTwin::attaching(rt, program, Mode::Late)
    }

    /// The same for a program that only reads: an attach makes no file, one that is not there is as an empty one, and each
    /// write fails. Others who only read may have the same files.
    pub fn reading(rt: &'a R, program: &'static str) -> FileTwin<'a, R>
        ensures first { (both_of result).first.disk_faults ≡ 0 }
        ensures second { (both_of result).second.disk_faults ≡ 0 }
        ensures line { (both_of result).line_faults ≡ 0 }
        ensures told { (both_of result).told ≡ false }
    {
        FileTwin::attaching(rt, program, Mode::Reading)
    }

    fn attaching(rt: &'a R, program: &'static str, mode: Mode) -> FileTwin<'a, R>
        ensures first { (both_of result).first.disk_faults ≡ 0 }
        ensures second { (both_of result).second.disk_faults ≡ 0 }
        ensures line { (both_of result).line_faults ≡ 0 }
        ensures told { (both_of result).told ≡ false }
    {
        FileTwin {
            rt,
            program,
            first: DiskFile::new(rt.alloc(), program, mode),
            second: DiskFile::new(rt.alloc(), program, mode),
            line_faults: 0,
            spare: Spare::none(),
        }
    }
}

impl<'a, R: Files<File = File> + Print + Eprint + AllocGlobal> Twin for FileTwin<'a, R> {
    ghost both = { both_of };

    ghost leaves = { λ w t c d out. ⊥ };

    ghost place = { λ w. 0 };

    fn attach(&mut self, half: Half, name: &[u8]) -> Result<(), Failed> {
        self.spare.spend(name.len() as u64);
        match half {
            Half::First => self.first.attach(self.rt, name),
            Half::Second => self.second.attach(self.rt, name),
        }
    }

    // No call of this twin fails for want of memory.
    fn reserve(&mut self, calls: u64, bytes: u64, end: u64) -> Result<(), OutOfMemory> {
        self.spare.reserve(calls, bytes, end);
        Ok(())
    }

    fn size(&mut self, half: Half) -> Result<u64, Failed> {
        match half {
            Half::First => self.first.size(self.rt),
            Half::Second => self.second.size(self.rt),
        }
    }

    fn read_at(&mut self, half: Half, at: u64, into: &mut [u8]) -> Result<usize, Failed> {
        match half {
            Half::First => self.first.read_at(self.rt, at, into),
            Half::Second => self.second.read_at(self.rt, at, into),
        }
    }

    fn write_at(&mut self, half: Half, at: u64, bytes: &[u8]) -> Result<(), Failed> {
        self.spare.spend(bytes.len() as u64);
        match half {
            Half::First => self.first.write_at(self.rt, at, bytes),
            Half::Second => self.second.write_at(self.rt, at, bytes),
        }
    }

    fn sync(&mut self, half: Half) -> Result<(), Failed> {
        self.spare.spend(0);
        match half {
            Half::First => self.first.sync(self.rt),
            Half::Second => self.second.sync(self.rt),
        }
    }

    fn emit(&mut self, piece: &[u8]) -> Result<(), Failed> {
        self.spare.spend(piece.len() as u64);
        send(self.rt, self.program, piece, &mut self.line_faults)
    }

    ghost holds_now = { λ w told. absurd (false≢true told) };

    ghost sent_now = { λ w c d out told left. absurd left };

    ghost earlier = { λ w t u c d out told le left. absurd left };
}
