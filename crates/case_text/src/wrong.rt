//! What is wrong with a line.

use crate::failing::Try;
use kd_base::OutOfMemory;
use std::alloc::Global;

/// What is wrong with a line, if something is: what was said of it first. Who finds something wrong is lent it.
#[derive(Drop)]
pub struct Wrong {
    is: bool,
    text: String,
}

impl Wrong {
    pub fn nothing(alloc: Global) -> Wrong {
        Wrong {
            is: false,
            text: String::new(alloc),
        }
    }

    /// Nothing is wrong with the next line yet.
    pub fn clear(&mut self) {
        self.is = false;
        self.text.clear();
    }

    /// What was said, if anything was.
    pub fn text(&self) -> Option<&str> {
        if self.is {
            Some(self.text.as_str())
        } else {
            None
        }
    }

    /// Says it of this try of the call.
    pub fn say_at(&mut self, text: &str, at: Try) -> Result<(), OutOfMemory> {
        if self.is {
            return Ok(());
        }
        self.is = true;
        self.text.push_str(text)?;
        at.append_to(&mut self.text)
    }

    pub fn say(&mut self, text: &str) -> Result<(), OutOfMemory> {
        self.say_at(text, Try::Plain)
    }

    /// Says it, but where this holds.
    pub fn unless(&mut self, holds: bool, text: &str) -> Result<(), OutOfMemory> {
        if holds {
            return Ok(());
        }
        self.say(text)
    }

    /// Says the line that was sent and that no line of the case has named.
    pub fn say_sent_too(&mut self, line: &str) -> Result<(), OutOfMemory> {
        if self.is {
            return Ok(());
        }
        self.is = true;
        write!(self.text, "the call before sent too: {line}")?;
        Ok(())
    }

    /// Says the number that was found at this try of the call.
    pub fn say_number(&mut self, found: u64, at: Try) -> Result<(), OutOfMemory> {
        if self.is {
            return Ok(());
        }
        self.is = true;
        write!(self.text, "{found}")?;
        at.append_to(&mut self.text)
    }
}
