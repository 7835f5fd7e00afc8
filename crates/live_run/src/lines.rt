//! An input of lines in memory.
ghost use Rattle.std.specs.Prelude.{◌≡◌, ◌+◌, IfOk, take};
ghost use Rattle.live_run.specs.MemLines.{typing_of};

use crate::typing::Typing;
use device_acts::Keeper;
use kd_base::{Bytes, OutOfMemory};
use kd_device::DeviceError;
use std::alloc::Global;
use std::marker::Model;

/// Lines in memory, whatever is seen of the keeper, and the number of one before which each read fails, where there is
/// one, counted from 0. Contracts see the lines, that number, how many were read, and how many reads failed.
pub struct MemLines {
    lines: Vec<Bytes>,
    fails: Option<usize>,
    next: usize,
    faults: u64,
}

impl Drop for MemLines {
    fn drop(self) {
        let MemLines {
            lines,
            fails,
            next,
            faults,
        } = self;
        let _ = lines;
        let _ = fails;
        let _ = next;
        let _ = faults;
    }
}

impl Model for MemLines {
    ghost use Rattle.live_run.specs.MemLines.{LinesNow};

    ghost Value = { LinesNow };

    ghost view = { λ m. record { lines = m.lines.items; fails = m.fails; next = m.next; faults = m.faults } };
}

impl MemLines {
    /// These lines, none of which is read yet; the read of the line with this number fails, and each read after it.
    pub fn new(lines: Vec<Bytes>, fails: Option<usize>) -> MemLines
        ensures { result ≡ record { lines = lines.items; fails = fails; next = 0; faults = 0 } }
    {
        MemLines {
            lines,
            fails,
            next: 0,
            faults: 0,
        }
    }
}

/// The first `limit + 1` bytes at most.
fn first_part(alloc: Global, text: &[u8], limit: u64) -> Result<Vec<u8>, OutOfMemory>
    ensures { IfOk result (λ part. part.items ≡ take (limit + 1) text.now) }
{
    let count = (limit.saturating_add(1) as usize).min(text.len());
    Ok(text[..count].to_vec(alloc)?)
}

impl Typing for MemLines {
    ghost typing = { typing_of };

    fn line<K: Keeper>(
        &mut self,
        alloc: Global,
        _keeper: &K,
        limit: u64,
    ) -> Result<Option<Vec<u8>>, DeviceError> {
        if self.fails == Some(self.next) {
            self.faults = self.faults.saturating_add(1);
            return Err(DeviceError::Failed);
        }
        let Some(line) = self.lines.get(self.next) else {
            return Ok(None);
        };
        let line = first_part(alloc, line.as_slice(), limit)?;
        self.next += 1;
        Ok(Some(line))
    }
}
