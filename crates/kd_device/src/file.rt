//! Files in memory.
ghost use Rattle.std.specs.Prelude.{◌≡◌, ◌≤◌, ◌+◌, length, max, IfOk, OnErr, OnOk, if◌then◌else◌};
ghost use Rattle.kd_device.specs.{Device.{written}, Recording.{FileNow, HaveRoom, SameFiles}};

use crate::buffer::overwrite_if;
use kd_base::{Bytes, OutOfMemory};
use std::alloc::Global;
use std::marker::Model;

/// A file at first and now, with capacity up to a place.
#[derive(Drop)]
pub struct File {
    start: Bytes,
    bytes: Vec<u8>,
    end: u64,
}

impl Model for File {
    ghost use Rattle.std.specs.{Prelude.{◌≤◌}, Vec.{vec_capacity}};
    ghost use Rattle.kd_device.specs.Recording.{FileNow};

    ghost Value = { FileNow };

    ghost view = { λ f. record { start = f.start; bytes = f.bytes.items; end = f.end } };

    ghost invariant = { λ f. f.end ≤ vec_capacity f.bytes };
}

impl File {
    pub fn new(alloc: Global, start: Bytes) -> Result<File, OutOfMemory>
        ensures start { IfOk result (λ f. f.start ≡ start) }
        ensures bytes { IfOk result (λ f. f.bytes ≡ start) }
    {
        let bytes = start.as_slice().to_vec(alloc)?;
        Ok(File {
            start,
            bytes,
            end: 0,
        })
    }

    pub fn start(&self) -> &[u8]
        ensures { result.now ≡ self.now.start }
    {
        self.start.as_slice()
    }

    pub fn bytes(&self) -> &[u8]
        ensures { result.now ≡ self.now.bytes }
    {
        &self.bytes
    }

    /// Afterwards no write before this end takes memory.
    fn reserve(&mut self, end: u64) -> Result<(), OutOfMemory>
        ensures ok { OnOk result (self.new ≡ record self.old { end = max self.old.end end }) }
        ensures err { OnErr result (self.new ≡ self.old) }
    {
        let missing = (end as usize).saturating_sub(self.bytes.len());
        self.bytes.reserve(missing)?;
        self.end = self.end.max(end);
        Ok(())
    }

    /// Writes, where it is to be done.
    pub fn write(&mut self, at: usize, bytes: &[u8], done: bool)
        requires { at + length bytes.now ≤ self.old.end }
        ensures { self.new ≡ record self.old { bytes = if done then written self.old.bytes at bytes.now else self.old.bytes } }
    {
        overwrite_if(&mut self.bytes, at, bytes, done);
    }
}

/// Afterwards no write to any of them before this end takes memory.
pub fn reserve_all(files: &mut Vec<File>, end: u64) -> Result<(), OutOfMemory>
    ensures same { SameFiles files.old.items files.new.items }
    ensures room { OnOk result (HaveRoom end files.new.items) }
{
    for i in 0..files.len() {
        let file = &mut files[i];
        file.reserve(end)?;
    }
    Ok(())
}
