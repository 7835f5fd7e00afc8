//! The lines of texts of cases, one after another.

use crate::line::split;
use crate::program::Program;
use crate::stage::Stage;
use kd_base::OutOfMemory;
use std::alloc::Global;

/// The reading of texts of cases: what their lines have said so far, and how many of them were wrong.
pub struct Cases {
    stage: Stage,
    /// The title of the case.
    title: String,
    /// The number of the last line in its text.
    number: u64,
    /// How many lines of the text were wrong.
    wrong: u64,
}

impl Drop for Cases {
    fn drop(self) {
        let Cases {
            stage,
            title,
            number,
            wrong,
        } = self;
        let _ = stage;
        let _ = title;
        let _ = number;
        let _ = wrong;
    }
}

impl Cases {
    pub fn new(alloc: Global) -> Cases {
        Cases {
            stage: Stage::new(alloc),
            title: String::new(alloc),
            number: 0,
            wrong: 0,
        }
    }

    /// How many cases there were in all texts.
    pub fn cases(&self) -> u64 {
        self.stage.cases()
    }

    /// How many calls there were in all texts, each try of a call counted.
    pub fn calls(&self) -> u64 {
        self.stage.calls()
    }

    /// Does what the next line says. Where it is wrong, what is to be printed: its number in the text, the title of the
    /// case, the line, and what is there in its place.
    pub fn line<P: Program>(
        &mut self,
        alloc: Global,
        text: &str,
    ) -> Result<Option<String>, OutOfMemory> {
        self.number = self.number.saturating_add(1);
        self.stage.obey::<P>(alloc, text)?;
        let said = self.said(alloc, text)?;
        self.begin_case(text)?;
        Ok(said)
    }

    // Takes the title, where the line is one that begins a case.
    fn begin_case(&mut self, text: &str) -> Result<(), OutOfMemory> {
        if let ("case", title) = split(text) {
            self.title.clear();
            self.title.push_str(title)?;
        }
        Ok(())
    }

    /// Ends a text. Where its last call did more than was said, what is to be printed.
    pub fn end(&mut self, alloc: Global) -> Result<Option<String>, OutOfMemory> {
        self.stage.end()?;
        self.said(alloc, "the end")
    }

    /// How many lines of the text that has ended were wrong. The next text begins with line 1.
    pub fn take_wrong(&mut self) -> u64 {
        let wrong = self.wrong;
        self.wrong = 0;
        self.number = 0;
        wrong
    }

    // What is to be printed where something is wrong.
    fn said(&mut self, alloc: Global, text: &str) -> Result<Option<String>, OutOfMemory> {
        let Some(found) = self.stage.wrong() else {
            return Ok(None);
        };
        self.wrong = self.wrong.saturating_add(1);
        let said = format!(in alloc; "{}, {}: {text}: {found}", self.number, self.title)?;
        Ok(Some(said))
    }
}
