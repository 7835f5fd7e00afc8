//! The lines of a text, by their numbers.
ghost use Rattle.std.specs.Prelude.{◌≡◌, IfOk};
ghost use Rattle.lab_turns.specs.Sources.{line_at, source_of, trimmed};

use kd_base::{Bytes, OutOfMemory};
use std::alloc::Global;
use std::marker::Model;
use texts::next_line;

/// The lines of a text, each without blanks at its ends. Contracts see them in their order.
#[derive(Drop)]
pub struct Source {
    lines: Vec<Bytes>,
}

impl Model for Source {
    ghost use Rattle.std.specs.Prelude.{List, ℕ};

    ghost Value = { List (List ℕ) };

    ghost view = { λ s. s.lines.items };
}

// A line without blanks at its ends.
fn trimmed(line: &[u8]) -> &[u8]
    ensures { result.now ≡ trimmed line.now }
{
    line.trim_ascii()
}

impl Source {
    /// The lines of this text.
    pub fn of(alloc: Global, text: &[u8]) -> Result<Source, OutOfMemory>
        ensures { IfOk result (λ source. source ≡ source_of text.now) }
    {
        let mut lines = Vec::new(alloc);
        let mut rest = text;
        while !rest.is_empty() {
            let (line, after) = next_line(rest);
            lines.push(Bytes::from_slice(alloc, trimmed(line))?)?;
            rest = after;
        }
        Ok(Source { lines })
    }

    /// The line with this number, from 1, without blanks at its ends; no bytes where there is no such line.
    pub(crate) fn line(&self, number: u32) -> &[u8]
        ensures { result.now ≡ line_at self.now number }
    {
        if number == 0 {
            return &[];
        }
        match self.lines.get(number as usize - 1) {
            Some(line) => line.as_slice(),
            None => &[],
        }
    }
}
