//! Why texts are refused.
ghost use Rattle.std.specs.Prelude.{◌≡◌, [], IfOk, OnOk};
ghost use Rattle.lab_check.specs.{Lines.{refusal_line}, Refusals.{Refuses}};

use crate::lab_findings::text_name::TextName;
use kd_base::OutOfMemory;
use std::alloc::Global;

/// Why a text is refused.
#[derive(Clone, Copy)]
pub struct Refusal {
    pub text: TextName,
    /// The number of the line, from 1; 0 for a text that is too long.
    pub line: u32,
    /// The name of the fault.
    pub name: &'static str,
}

/// The refusals that were found so far.
#[derive(Drop)]
pub struct Refusals {
    pub items: Vec<Refusal>,
}

impl Refusal {
    /// The line that is printed, without its end: text, line and name.
    pub fn printed(&self, alloc: Global) -> Result<Vec<u8>, OutOfMemory>
        ensures { IfOk result (λ line. line.items ≡ refusal_line self.now) }
    {
        let line = format!(in alloc; "{} {} {}", self.text.word(), self.line, self.name)?;
        Ok(line.into_bytes())
    }
}

impl Refusals {
    pub fn new(alloc: Global) -> Refusals
        ensures { result.items.items ≡ [] }
    {
        Refusals {
            items: Vec::new(alloc),
        }
    }

    // Whether the last one is this.
    fn ends_with(&self, text: TextName, line: u32, name: &'static str) -> bool {
        match self.items.last() {
            Some(last) => {
                last.text == text && last.line == line && last.name.as_bytes() == name.as_bytes()
            }
            None => false,
        }
    }

    /// Adds a refusal, unless it was the last one too.
    pub fn refuse(
        &mut self,
        text: TextName,
        line: u32,
        name: &'static str,
    ) -> Result<(), OutOfMemory>
        ensures { OnOk result (Refuses self.old.items.items self.new.items.items text line name.now) }
    {
        if !self.ends_with(text, line, name) {
            self.items.push(Refusal { text, line, name })?;
        }
        Ok(())
    }
}
