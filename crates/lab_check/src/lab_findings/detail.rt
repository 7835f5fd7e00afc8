//! What of a line is at fault.

use crate::lab_findings::refusal::Refusal;
use crate::lab_findings::text_name::TextName;
use crate::parts::joined;
use kd_base::{Bytes, OutOfMemory, escape};
use std::alloc::Global;

/// What of a line is at fault, and what would be right.
struct Detail {
    text: TextName,
    line: u32,
    /// The name of the fault.
    name: &'static str,
    words: Bytes,
}

impl Drop for Detail {
    fn drop(self) {
        let Detail {
            text,
            line,
            name,
            words,
        } = self;
        let _ = text;
        let _ = line;
        let _ = name;
        let _ = words;
    }
}

impl Detail {
    // Whether it is what is at fault in the line of this refusal.
    fn is_of(&self, refusal: &Refusal) -> bool {
        self.text == refusal.text
            && self.line == refusal.line
            && self.name.as_bytes() == refusal.name.as_bytes()
    }
}

/// What is at fault in the lines that were refused so far.
#[derive(Drop)]
pub struct Details {
    items: Vec<Detail>,
}

impl Details {
    pub(crate) fn new(alloc: Global) -> Details {
        Details {
            items: Vec::new(alloc),
        }
    }

    /// Adds what is at fault in a line, which is refused for the fault of this name; nothing where it is empty.
    pub(crate) fn add(
        &mut self,
        text: TextName,
        line: u32,
        name: &'static str,
        words: Bytes,
    ) -> Result<(), OutOfMemory> {
        if !words.is_empty() {
            self.items.push(Detail {
                text,
                line,
                name,
                words,
            })?;
        }
        Ok(())
    }

    // What is at fault in the line of this refusal; empty where that is not known.
    fn of(&self, refusal: &Refusal) -> &[u8] {
        for detail in &self.items {
            if detail.is_of(refusal) {
                return detail.words.as_slice();
            }
        }
        b""
    }

    /// What is printed behind the line of a refusal: a space, what is at fault and what would be right, in which a byte that
    /// is none from a space to `~` is written as `\x` and two digits; nothing where that is not known.
    pub fn printed(&self, alloc: Global, refusal: &Refusal) -> Result<Bytes, OutOfMemory> {
        let words = self.of(refusal);
        if words.is_empty() {
            return Ok(Bytes::new(alloc));
        }
        let escaped = escape(alloc, words)?;
        joined(alloc, &[b" ", escaped.as_slice()])
    }
}
