//! The first line that is not met.
ghost use Rattle.std.specs.{Prelude.{◌≡◌, ◌∷◌, ◌++◌, [], None, Some, IfOk, MatchOption, OnOk, codes, decimal}, Str.Lines.{lines}};
ghost use Rattle.lab_scripts.specs.Met.{Differ, first};

use kd_base::{Bytes, OutOfMemory};
use std::alloc::Global;
use texts::next_line;

/// A line that is expected and was not sent, or that was sent and is not expected.
pub struct Difference {
    /// The line of the script: that of the expected line, or of the command.
    pub line: u32,
    pub expected: Option<Bytes>,
    pub sent: Option<Bytes>,
}

impl Drop for Difference {
    fn drop(self) {
        let Difference {
            line,
            expected,
            sent,
        } = self;
        let _ = line;
        let _ = expected;
        let _ = sent;
    }
}

/// The last command that was done.
#[derive(Drop)]
pub(crate) struct Last {
    /// Its line in the script.
    pub(crate) line: u32,
    /// The lines that it sent and that no line of the script has named yet.
    pub(crate) sent: Bytes,
}

impl Last {
    /// A line is expected, and compared with the next one that was sent.
    pub(crate) fn expect(
        &mut self,
        alloc: Global,
        line: u32,
        text: &[u8],
    ) -> Result<Option<Difference>, OutOfMemory>
        ensures same { self.new.line ≡ self.old.line }
        ensures found { IfOk result (λ found. MatchOption found (lines self.old.sent ≡ text.now ∷ lines self.new.sent) (λ d. Differ line (Some text.now) (first (lines self.old.sent)) d)) }
    {
        if self.sent.is_empty() {
            return Ok(Some(Difference {
                line,
                expected: Some(Bytes::from_slice(alloc, text)?),
                sent: None,
            }));
        }
        let (next, rest) = next_line(self.sent.as_slice());
        if next != text {
            return Ok(Some(Difference {
                line,
                expected: Some(Bytes::from_slice(alloc, text)?),
                sent: Some(Bytes::from_slice(alloc, next)?),
            }));
        }
        let rest = Bytes::from_slice(alloc, rest)?;
        self.sent = rest;
        Ok(None)
    }

    /// No line is expected, and none may be left.
    pub(crate) fn left_over(&self, alloc: Global) -> Result<Option<Difference>, OutOfMemory>
        ensures { IfOk result (λ found. MatchOption found (lines self.now.sent ≡ []) (λ d. Differ self.now.line None (first (lines self.now.sent)) d)) }
    {
        if self.sent.is_empty() {
            return Ok(None);
        }
        let (next, _rest) = next_line(self.sent.as_slice());
        Ok(Some(Difference {
            line: self.line,
            expected: None,
            sent: Some(Bytes::from_slice(alloc, next)?),
        }))
    }
}
