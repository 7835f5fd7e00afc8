//! What fails in a call, and the tries of it.

use crate::files::Which;
use kd_base::OutOfMemory;
use kd_device::{CallKind, Half};
use std::alloc::Global;

/// What can be told to fail: a read of a text, or a call of the twin or of the device that a backup is written to. The half
/// beside an emit is the first.
#[derive(Clone, Copy)]
pub enum Failing {
    Text,
    Twin(Half, CallKind),
    Backup(CallKind),
}

fn kind_name(kind: CallKind) -> &'static str {
    match kind {
        CallKind::Attach => "attach",
        CallKind::Size => "size",
        CallKind::Read => "read",
        CallKind::Write => "write",
        CallKind::Sync => "sync",
        CallKind::Emit => "emit",
    }
}

impl Failing {
    /// That of this name, in lines about this file.
    pub fn of(which: Which, word: &str) -> Option<Failing> {
        let kind = match word {
            "text" if which == Which::First => return Some(Failing::Text),
            "emit" if which == Which::First => CallKind::Emit,
            "attach" => CallKind::Attach,
            "size" => CallKind::Size,
            "read" => CallKind::Read,
            "write" => CallKind::Write,
            "sync" => CallKind::Sync,
            _ => return None,
        };
        match which {
            Which::First => Some(Failing::Twin(Half::First, kind)),
            Which::Second => Some(Failing::Twin(Half::Second, kind)),
            Which::Backup => Some(Failing::Backup(kind)),
        }
    }

    fn name(self) -> &'static str {
        match self {
            Failing::Text => "text",
            Failing::Twin(_, kind) => kind_name(kind),
            Failing::Backup(kind) => kind_name(kind),
        }
    }

    // What stands before the name.
    fn file_name(self) -> &'static str {
        match self {
            Failing::Twin(Half::Second, _) => "second ",
            Failing::Backup(_) => "backup ",
            _ => "",
        }
    }
}

/// The calls and reads that fail.
#[derive(Drop)]
pub struct Failures {
    pub twin: Vec<(Half, CallKind, u64)>,
    pub backup: Vec<(Half, CallKind, u64)>,
    /// The numbers of the reads.
    pub texts: Vec<u64>,
}

impl Failures {
    pub fn none(alloc: Global) -> Failures {
        Failures {
            twin: Vec::new(alloc),
            backup: Vec::new(alloc),
            texts: Vec::new(alloc),
        }
    }

    /// The call or the read of this kind and number fails too.
    pub fn push(&mut self, failing: Failing, number: u64) -> Result<(), OutOfMemory> {
        match failing {
            Failing::Text => self.texts.push(number)?,
            Failing::Twin(half, kind) => self.twin.push((half, kind, number))?,
            Failing::Backup(kind) => self.backup.push((Half::First, kind, number))?,
        }
        Ok(())
    }

    /// What was told last to fail of a call or of a read does not.
    pub fn pop(&mut self, failing: Failing) {
        match failing {
            Failing::Text => self.texts.pop().is_some(),
            Failing::Twin(_, _) => self.twin.pop().is_some(),
            Failing::Backup(_) => self.backup.pop().is_some(),
        };
    }

    pub fn clear(&mut self) {
        self.twin.clear();
        self.backup.clear();
        self.texts.clear();
    }
}

/// How the next call is tried.
#[derive(Clone, Copy)]
pub enum Tries {
    /// Once, over the files as they are.
    Plain,
    /// Over the files as they are, with each of these numbers failing.
    Fails(Failing, u64, u64),
    /// Over what a stop after so many calls, with this choice, leaves of the last plain call.
    Stop(u64, u64),
    /// The same after each of these counts of calls, with each of the choices.
    Stops(u64, u64),
    /// Over what a stop after so many calls on the file of a backup, with this choice, leaves of it.
    BackupStop(u64, u64),
    /// Over what each try of the last call left.
    Again,
}

/// One try of a call, as it is named where its answer is wrong.
#[derive(Clone, Copy)]
pub enum Try {
    Plain,
    /// With this number failing.
    Fails(Failing, u64),
    /// After a stop.
    Stop(u64, u64),
}

impl Try {
    /// Appends which try it was, where it was one of several.
    pub fn append_to(self, text: &mut String) -> Result<(), OutOfMemory> {
        match self {
            Try::Plain => {}
            Try::Fails(failing, number) => {
                write!(
                    text,
                    ", at {}{} {number}",
                    failing.file_name(),
                    failing.name()
                )?
            }
            Try::Stop(stop, choice) => write!(text, ", at stop {stop} {choice}")?,
        }
        Ok(())
    }
}
