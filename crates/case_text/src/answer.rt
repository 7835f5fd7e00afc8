//! What a call answered, sent and left.

use crate::escapes::unescape;
use crate::failing::Try;
use crate::files::{Files, Which};
use crate::line::Said;
use crate::wrong::Wrong;
use kd_base::{Bytes, OutOfMemory};
use kd_device::{Half, MemDevice, MemTwin};
use std::alloc::Global;

/// What a call answered and sent, and the files that were left.
pub struct Answer {
    at: Try,
    status: u8,
    /// The lines that were sent.
    sent: Vec<u8>,
    /// So many bytes of them are lines that the case has named.
    named: usize,
    files: Files,
    first_same: bool,
    second_same: bool,
    backup_same: bool,
}

impl Drop for Answer {
    fn drop(self) {
        let Answer {
            at,
            status,
            sent,
            named,
            files,
            first_same,
            second_same,
            backup_same,
        } = self;
        let _ = at;
        let _ = status;
        let _ = sent;
        let _ = named;
        let _ = files;
        let _ = first_same;
        let _ = second_same;
        let _ = backup_same;
    }
}

// The lines of these bytes. One that has no end says so.
fn append_lines(lines: &mut Vec<u8>, sent: &[u8]) -> Result<(), OutOfMemory> {
    lines.extend_from_slice(sent)?;
    if !sent.is_empty() && !sent.ends_with(b"\n") {
        lines.extend_from_slice(b" (without an end)\n")?;
    }
    Ok(())
}

// The first of these lines, without its end.
fn first_line(lines: &[u8]) -> &[u8] {
    for len in 0..lines.len() {
        if lines[len] == b'\n' {
            return &lines[..len];
        }
    }
    lines
}

fn printed(line: &[u8]) -> &str {
    str::from_utf8(line).unwrap_or("bytes that are no text")
}

impl Answer {
    /// A try of a call with this status, for which what it sent and left is still to be taken.
    pub fn new(alloc: Global, at: Try, status: u8) -> Answer {
        Answer {
            at,
            status,
            sent: Vec::new(alloc),
            named: 0,
            files: Files::empty(alloc),
            first_same: false,
            second_same: false,
            backup_same: false,
        }
    }

    /// Takes what the call over the files `before` sent and left.
    pub fn take(
        &mut self,
        before: &Files,
        twin: &MemTwin,
        backup: &MemDevice,
    ) -> Result<(), OutOfMemory> {
        append_lines(&mut self.sent, twin.sent())?;
        self.files.take_from(twin, backup)?;
        self.first_same = before.file(Which::First).as_slice() == twin.holds(Half::First);
        self.second_same = before.file(Which::Second).as_slice() == twin.holds(Half::Second);
        self.backup_same = before.file(Which::Backup).as_slice() == backup.holds();
        Ok(())
    }

    /// The files that were left.
    pub fn files(&self) -> &Files {
        &self.files
    }

    pub fn at(&self) -> Try {
        self.at
    }

    fn next_sent(&self) -> Option<&[u8]> {
        let left = self.sent.get(self.named..)?;
        if left.is_empty() {
            return None;
        }
        Some(first_line(left))
    }

    /// The next line that no line of the case has named.
    pub fn next_line(&self) -> Option<&str> {
        Some(printed(self.next_sent()?))
    }

    fn judge_sent(&mut self, wanted: &str, wrong: &mut Wrong) -> Result<(), OutOfMemory> {
        let Some(line) = self.next_sent() else {
            return wrong.say_at("no such line was sent", self.at);
        };
        if line != wanted.as_bytes() {
            wrong.say_at(printed(line), self.at)?;
        }
        self.named = self.named.saturating_add(line.len()).saturating_add(1);
        Ok(())
    }

    fn judge_bytes(
        &self,
        alloc: Global,
        which: Which,
        at: u64,
        wanted: &str,
        wrong: &mut Wrong,
    ) -> Result<(), OutOfMemory> {
        let there = self.files.file(which).get(at as usize..).unwrap_or(&[]);
        let mut bytes = Bytes::new(alloc);
        match unescape(alloc, wanted, 0, &mut bytes) {
            Ok(true) if there.starts_with(bytes.as_slice()) => Ok(()),
            Ok(true) => wrong.say_at("other bytes", self.at),
            Ok(false) => wrong.say_at("no such bytes", self.at),
            Err(memory) => Err(memory),
        }
    }

    fn is_same(&self, which: Which) -> bool {
        match which {
            Which::First => self.first_same,
            Which::Second => self.second_same,
            Which::Backup => self.backup_same,
        }
    }

    // Says the number that was found, but where it is the one that was wanted.
    fn judge_number(&self, found: u64, wanted: u64, wrong: &mut Wrong) -> Result<(), OutOfMemory> {
        if found == wanted {
            return Ok(());
        }
        wrong.say_number(found, self.at)
    }

    /// Says what the call did otherwise than this. A line that was sent is then done with.
    pub fn judge(
        &mut self,
        alloc: Global,
        said: Said<'_>,
        wrong: &mut Wrong,
    ) -> Result<(), OutOfMemory> {
        match said {
            Said::Status(wanted) => self.judge_number(self.status as u64, wanted as u64, wrong),
            Said::Sent(wanted) => self.judge_sent(wanted, wrong),
            Said::Length(which, wanted) => {
                self.judge_number(self.files.file(which).len() as u64, wanted, wrong)
            }
            Said::Holds(which, at, wanted) => self.judge_bytes(alloc, which, at, wanted, wrong),
            Said::Same(which) if self.is_same(which) => Ok(()),
            Said::Same(_) => wrong.say_at("the KDCFILE has changed", self.at),
        }
    }
}
