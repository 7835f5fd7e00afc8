//! Where there is something to warn of.

use crate::flow::Ways;
use crate::warning::Warning;
use kd_base::{Bytes, OutOfMemory, escape};
use lab_check::lab_findings::TextName;
use std::alloc::Global;

/// Something in a line that is accepted and likely wrong.
pub struct Warned {
    pub text: TextName,
    /// The number of the line, from 1.
    pub line: u32,
    pub warning: Warning,
    /// What is printed behind the name.
    pub details: Bytes,
}

impl Drop for Warned {
    fn drop(self) {
        let Warned {
            text,
            line,
            warning,
            details,
        } = self;
        let _ = text;
        let _ = line;
        let _ = warning;
        let _ = details;
    }
}

/// These pieces one behind another.
pub(crate) fn joined(alloc: Global, pieces: &[&[u8]]) -> Result<Bytes, OutOfMemory> {
    let mut all = Bytes::new(alloc);
    for piece in pieces {
        all.append(piece)?;
    }
    Ok(all)
}

/// The warnings so far.
#[derive(Drop)]
pub(crate) struct Warnings {
    pub items: Vec<Warned>,
}

impl Warned {
    /// The line that is printed, without its end: WARN, text, line and name, and the details, in which a byte that is none
    /// from a space to `~` is written as `\x` and two digits.
    pub fn printed(&self, alloc: Global) -> Result<Vec<u8>, OutOfMemory> {
        let text = self.text.word();
        let name = self.warning.name();
        let space = if self.details.is_empty() { "" } else { " " };
        let mut printed = format!(in alloc;
            "WARN {text} {} {name}{space}",
            self.line
        )?.into_bytes();
        let details = escape(alloc, self.details.as_slice())?;
        printed.extend_from_slice(details.as_slice())?;
        Ok(printed)
    }
}

impl Warnings {
    pub fn new(alloc: Global) -> Warnings {
        Warnings {
            items: Vec::new(alloc),
        }
    }

    /// Adds a warning with one or two words as its details, or none; a word that is empty is left out.
    pub fn warn(
        &mut self,
        alloc: Global,
        text: TextName,
        line: u32,
        warning: Warning,
        first: &[u8],
        second: &[u8],
    ) -> Result<(), OutOfMemory> {
        let space: &[u8] = if first.is_empty() || second.is_empty() {
            b""
        } else {
            b" "
        };
        let warned = Warned {
            text,
            line,
            warning,
            details: joined(alloc, &[first, space, second])?,
        };
        Ok(self.items.push(warned)?)
    }

    /// Adds a warning of a statement of a unit that is so on these ways: none where it is so on no way, and behind its
    /// details `on some way` where it is not so on all.
    pub fn warn_on(
        &mut self,
        alloc: Global,
        ways: Ways,
        line: u32,
        warning: Warning,
        details: &[u8],
    ) -> Result<(), OutOfMemory> {
        let which: &[u8] = match ways {
            Ways::None => return Ok(()),
            Ways::Some => b"on some way",
            Ways::All => b"",
        };
        self.warn(alloc, TextName::Units, line, warning, details, which)
    }

    /// Puts the warnings in the order of text and line, those of access first.
    pub fn sort(&mut self) -> Result<(), OutOfMemory> {
        self.items.sort_by_key(|warned| {
            (
                !warned.warning.is_of_access(),
                warned.text.rank(),
                warned.line,
            )
        })?;
        Ok(())
    }
}
