//! A text that is mended line by line, so that it can be read on behind a fault.

use crate::lab_findings::up_to_last;
use crate::parts::joined;
use kd_base::{Bytes, OutOfMemory};
use std::alloc::Global;
use texts::len_before;

/// A line of a mended text.
struct DraftLine {
    /// The number that the line, or the one that it was put before, has in the text as it was.
    number: u32,
    /// It was put in.
    is_made: bool,
    /// With its end.
    bytes: Bytes,
}

impl Drop for DraftLine {
    fn drop(self) {
        let DraftLine {
            number,
            is_made,
            bytes,
        } = self;
        let _ = number;
        let _ = is_made;
        let _ = bytes;
    }
}

/// A text that is mended line by line. Lines are named by their numbers in the mended text, from 1.
#[derive(Drop)]
pub(crate) struct Draft {
    lines: Vec<DraftLine>,
}

// The first line with its end, and the text behind it.
fn split_line(text: &[u8]) -> (&[u8], &[u8]) {
    let n = len_before(b'\n', text);
    if n >= text.len() {
        return (text, &[]);
    }
    text.split_at(n + 1)
}

// The line without its end.
fn content(bytes: &[u8]) -> &[u8] {
    match bytes {
        [line @ .., b'\r', b'\n'] => line,
        [line @ .., b'\n'] => line,
        _ => bytes,
    }
}

// What a line of a definition gives to its statement, where it is continued.
fn continued(bytes: &[u8]) -> Option<&[u8]> {
    match up_to_last(content(bytes)) {
        [body @ .., b'-'] => Some(body),
        [body @ .., b'\\'] => Some(body),
        _ => None,
    }
}

// A line of these pieces, with its end.
fn line_of(alloc: Global, pieces: &[&[u8]]) -> Result<Bytes, OutOfMemory> {
    let mut line = joined(alloc, pieces)?;
    line.push(b'\n')?;
    Ok(line)
}

// A line that is put in.
fn made_line(alloc: Global, number: u32, pieces: &[&[u8]]) -> Result<DraftLine, OutOfMemory> {
    Ok(DraftLine {
        number,
        is_made: true,
        bytes: line_of(alloc, pieces)?,
    })
}

impl Draft {
    pub fn of(alloc: Global, text: &[u8]) -> Result<Draft, OutOfMemory> {
        let mut lines = Vec::new(alloc);
        let mut number: u32 = 1;
        let mut rest = text;
        // Each turn takes a byte at least.
        for _ in 0..text.len() {
            if rest.is_empty() {
                break;
            }
            let (line, after) = split_line(rest);
            let bytes = Bytes::from_slice(alloc, line)?;
            lines.push(DraftLine {
                number,
                is_made: false,
                bytes,
            })?;
            number = number.saturating_add(1);
            rest = after;
        }
        Ok(Draft { lines })
    }

    /// How many lines there are.
    pub fn len(&self) -> usize {
        self.lines.len()
    }

    // The line of this number.
    fn line(&self, line: u32) -> Option<&DraftLine> {
        self.lines.get(line.checked_sub(1)? as usize)
    }

    /// The number that a line has in the text as it was; 0 for 0, and one more than the last where there is no such line.
    pub fn number_of(&self, line: u32) -> u32 {
        if line == 0 {
            return 0;
        }
        match self.line(line) {
            Some(found) => found.number,
            None => match self.lines.last() {
                Some(last) => last.number.saturating_add(1),
                None => 1,
            },
        }
    }

    /// Whether the line was put in.
    pub fn is_made(&self, line: u32) -> bool {
        match self.line(line) {
            Some(found) => found.is_made,
            None => false,
        }
    }

    /// The bytes of the line without its end.
    pub fn content(&self, line: u32) -> &[u8] {
        match self.line(line) {
            Some(found) => content(found.bytes.as_slice()),
            None => &[],
        }
    }

    /// The last line of the statement that begins at this line.
    pub fn last_of(&self, line: u32) -> u32 {
        let mut last = line;
        for _ in 0..self.lines.len() {
            let Some(found) = self.line(last) else {
                break;
            };
            if continued(found.bytes.as_slice()).is_none()
                || self.line(last.saturating_add(1)).is_none()
            {
                break;
            }
            last = last.saturating_add(1);
        }
        last
    }

    /// The statement that begins at this line, its lines joined.
    pub fn statement(&self, alloc: Global, line: u32) -> Result<Bytes, OutOfMemory> {
        let mut text = Bytes::new(alloc);
        for i in line..=self.last_of(line) {
            let Some(found) = self.line(i) else {
                break;
            };
            let bytes = found.bytes.as_slice();
            text.append(continued(bytes).unwrap_or(content(bytes)))?;
        }
        Ok(text)
    }

    /// The statements of a definition, each with its lines joined; empty ones may follow them.
    pub fn statements(&self, alloc: Global) -> Result<Vec<Bytes>, OutOfMemory> {
        let mut statements = Vec::new(alloc);
        let mut line: u32 = 1;
        for _ in 0..self.lines.len() {
            statements.push(self.statement(alloc, line)?)?;
            line = self.last_of(line).saturating_add(1);
        }
        Ok(statements)
    }

    /// The whole text.
    pub fn text(&self, alloc: Global) -> Result<Bytes, OutOfMemory> {
        let mut text = Bytes::new(alloc);
        for line in &self.lines {
            text.append(line.bytes.as_slice())?;
        }
        Ok(text)
    }

    /// The whole text, with another statement for the one from this line to that.
    pub fn text_with(
        &self,
        alloc: Global,
        from: u32,
        to: u32,
        statement: &[u8],
    ) -> Result<Bytes, OutOfMemory> {
        let mut text = Bytes::new(alloc);
        let mut number: u32 = 1;
        for line in &self.lines {
            if number == from {
                text.append(statement)?;
            }
            if from <= number && number <= to {
                text.push(b'\n')?;
            } else {
                text.append(line.bytes.as_slice())?;
            }
            number = number.saturating_add(1);
        }
        Ok(text)
    }

    /// Puts these pieces in place of a line, and an end behind them.
    pub fn replace(
        &mut self,
        alloc: Global,
        line: u32,
        pieces: &[&[u8]],
    ) -> Result<(), OutOfMemory> {
        let Some(index) = line.checked_sub(1) else {
            return Ok(());
        };
        if let Some(found) = self.lines.get_mut(index as usize) {
            found.bytes = line_of(alloc, pieces)?;
        }
        Ok(())
    }

    /// Puts a statement of these pieces in place of the one that begins at this line.
    pub fn put_statement(
        &mut self,
        alloc: Global,
        line: u32,
        pieces: &[&[u8]],
    ) -> Result<(), OutOfMemory> {
        let last = self.last_of(line);
        self.replace(alloc, line, pieces)?;
        for continued in line.saturating_add(1)..=last {
            self.replace(alloc, continued, &[])?;
        }
        Ok(())
    }

    /// Empties the lines of the statement that begins at this line.
    pub fn clear(&mut self, alloc: Global, line: u32) -> Result<(), OutOfMemory> {
        self.put_statement(alloc, line, &[])
    }

    /// Takes the mark of a line that is continued away.
    pub fn end_statement(&mut self, alloc: Global, line: u32) -> Result<(), OutOfMemory> {
        let Some(found) = self.line(line) else {
            return Ok(());
        };
        let body = Bytes::from_slice(alloc, continued(found.bytes.as_slice()).unwrap_or(b""))?;
        self.replace(alloc, line, &[body.as_slice()])
    }

    /// Puts a line of these pieces before this one, or at the end where there is no such line.
    pub fn put_before(
        &mut self,
        alloc: Global,
        line: u32,
        pieces: &[&[u8]],
    ) -> Result<(), OutOfMemory> {
        let number = self.number_of(line);
        let index = line.saturating_sub(1) as usize;
        if index >= self.lines.len() {
            self.end_last()?;
        }
        self.put(index, made_line(alloc, number, pieces)?)
    }

    // Puts a line at this place, from 0, or at the end.
    fn put(&mut self, place: usize, line: DraftLine) -> Result<(), OutOfMemory> {
        let index = place.min(self.lines.len());
        Ok(self.lines.insert(index, line)?)
    }

    // Gives the last line an end, where it has none.
    fn end_last(&mut self) -> Result<(), OutOfMemory> {
        if let Some(last) = self.lines.last_mut() {
            if !last.bytes.as_slice().ends_with(b"\n") {
                last.bytes.push(b'\n')?;
            }
        }
        Ok(())
    }
}
