//! The files that a call is made over.

use kd_base::{Bytes, OutOfMemory};
use kd_device::{CallKind, Half, MemDevice, MemTwin};
use std::alloc::Global;

/// One of the files.
#[derive(Clone, Copy, PartialEq, Eq)]
pub enum Which {
    First,
    Second,
    Backup,
}

/// The KDCFILE, the second copy that a definition may ask for, and the file that they are backed up to.
#[derive(Drop)]
pub struct Files {
    first: Vec<u8>,
    second: Vec<u8>,
    backup: Vec<u8>,
}

impl Files {
    pub fn empty(alloc: Global) -> Files {
        Files {
            first: Vec::new(alloc),
            second: Vec::new(alloc),
            backup: Vec::new(alloc),
        }
    }

    /// They are those that a twin and a device have.
    pub fn take_from(&mut self, twin: &MemTwin, backup: &MemDevice) -> Result<(), OutOfMemory> {
        self.take(
            twin.holds(Half::First),
            twin.holds(Half::Second),
            backup.holds(),
        )
    }

    /// They are as these.
    pub fn copy(&mut self, files: &Files) -> Result<(), OutOfMemory> {
        self.take(&files.first, &files.second, &files.backup)
    }

    fn take(&mut self, first: &[u8], second: &[u8], backup: &[u8]) -> Result<(), OutOfMemory> {
        self.clear();
        self.first.extend_from_slice(first)?;
        self.second.extend_from_slice(second)?;
        self.backup.extend_from_slice(backup)?;
        Ok(())
    }

    /// The backup is put back: it is the KDCFILE, and the second copy is empty.
    pub fn restore(&mut self) -> Result<(), OutOfMemory> {
        self.first.clear();
        self.second.clear();
        self.first.extend_from_slice(&self.backup)?;
        Ok(())
    }

    /// A twin with these files, of which these calls fail.
    pub fn twin(
        &self,
        alloc: Global,
        failing: &Vec<(Half, CallKind, u64)>,
    ) -> Result<MemTwin, OutOfMemory> {
        let first = Bytes::from_slice(alloc, &self.first)?;
        let second = Bytes::from_slice(alloc, &self.second)?;
        MemTwin::new(alloc, first, second, failing.clone()?)
    }

    /// A device with the file of a backup, of which these calls fail.
    pub fn device(
        &self,
        alloc: Global,
        failing: &Vec<(Half, CallKind, u64)>,
    ) -> Result<MemDevice, OutOfMemory> {
        let backup = Bytes::from_slice(alloc, &self.backup)?;
        MemDevice::new(alloc, backup, failing.clone()?)
    }

    pub fn file(&self, which: Which) -> &Vec<u8> {
        match which {
            Which::First => &self.first,
            Which::Second => &self.second,
            Which::Backup => &self.backup,
        }
    }

    pub fn file_mut(&mut self, which: Which) -> &mut Vec<u8> {
        match which {
            Which::First => &mut self.first,
            Which::Second => &mut self.second,
            Which::Backup => &mut self.backup,
        }
    }

    pub fn clear(&mut self) {
        self.first.clear();
        self.second.clear();
        self.backup.clear();
    }
}
