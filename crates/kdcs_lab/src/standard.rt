//! The standard input and output as a console.

use crate::colour::style_of;
use lab_cli::{Console, LabError};
use std::alloc::Global;
use std::io;
use std::io::BufRead;

/// What ends a style.
const PLAIN: &[u8] = b"\x1b[0m";

/// What the standard input and output are.
#[derive(Clone, Copy)]
pub(crate) struct Terminal {
    /// Somebody types and reads: a prompt is given.
    pub(crate) is_prompted: bool,
    /// Lines are told apart by styles.
    pub(crate) is_coloured: bool,
}

/// Lines of an input, and text on the standard output.
#[derive(Drop)]
pub(crate) struct StandardConsole<'a, R: Print + Eprint, I: BufRead + Drop> {
    rt: &'a R,
    input: I,
    terminal: Terminal,
}

impl<'a, R: Print + Eprint, I: BufRead + Drop> StandardConsole<'a, R, I> {
    pub(crate) fn new(rt: &'a R, input: I, terminal: Terminal) -> StandardConsole<'a, R, I> {
        StandardConsole {
            rt,
            input,
            terminal,
        }
    }

    // Writes text whose lines are told apart by styles, or as it is.
    fn write(&self, text: &[u8]) -> io::Result<()> {
        if !self.terminal.is_coloured {
            return self.rt.write_all(text);
        }
        for line in text.split_inclusive(|byte| *byte == b'\n') {
            write_styled(self.rt, line)?;
        }
        Ok(())
    }
}

// Writes a line in its style. Its end is written plain.
fn write_styled<R: Print>(rt: &R, line: &[u8]) -> io::Result<()> {
    let style = style_of(line);
    if style.is_empty() {
        return rt.write_all(line);
    }
    rt.write_all(style)?;
    rt.write_all(line.strip_suffix(b"\n").unwrap_or(line))?;
    rt.write_all(PLAIN)?;
    if line.ends_with(b"\n") {
        rt.write_all(b"\n")?;
    }
    Ok(())
}

// A line without its end, which is LF, or CR and LF.
fn without_end(line: &mut Vec<u8>) {
    if line.last() == Some(&b'\n') {
        line.pop();
        if line.last() == Some(&b'\r') {
            line.pop();
        }
    }
}

impl<'a, R: Print + Eprint, I: BufRead + Drop> Console for StandardConsole<'a, R, I> {
    ghost use Rattle.std.specs.Prelude.{◌≡◌, refl};
    ghost use Rattle.std.proofs.Common.{◌∙◌};

    ghost prompted = { λ c. c.terminal.is_prompted };

    // What passes at a terminal, no clause can say.
    ghost passes = { λ a _ b. b.terminal.is_prompted ≡ a.terminal.is_prompted };

    fn line(&mut self, alloc: Global) -> Result<Option<Vec<u8>>, LabError> {
        let mut line = Vec::new(alloc);
        match self.input.read_until(b'\n', &mut line) {
            Ok(0) => Ok(None),
            Ok(_) => {
                without_end(&mut line);
                Ok(Some(line))
            }
            Err(error) => {
                let _ = eprintln!(self.rt; "lab: standard input: read: {error}");
                Err(LabError::Output)
            }
        }
    }

    fn put(&mut self, text: &[u8]) -> Result<(), LabError> {
        match self.write(text) {
            Ok(()) => Ok(()),
            Err(error) => {
                let _ = eprintln!(self.rt; "lab: standard output: write: {error}");
                Err(LabError::Output)
            }
        }
    }

    fn is_prompted(&self) -> bool {
        self.terminal.is_prompted
    }

    fn tell(&mut self, text: &str) {
        let _ = eprintln!(self.rt; "lab: {text}");
    }

    ghost passes_none = { λ c. refl };

    ghost passes_both = { λ a b c xs ys first later. later ∙ first };

    ghost same_prompt = { λ a b xs same. same };
}
