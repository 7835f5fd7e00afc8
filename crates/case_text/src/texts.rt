//! The texts of a case, and the words of a call.

use crate::escapes::{has_number, unescape};
use kd_base::{Bytes, OutOfMemory};
use std::alloc::Global;

/// Appends the words of a call, of which `''` is the empty one.
pub fn append_words(alloc: Global, words: &mut Vec<String>, text: &str) -> Result<(), OutOfMemory> {
    for word in text.split_ascii_whitespace() {
        let word = if word == "''" { "" } else { word };
        words.push(String::from_str(alloc, word)?)?;
    }
    Ok(())
}

/// Texts by name, as a room has them.
pub type NamedTexts = Vec<(Bytes, Bytes)>;

// The text of this name, if it is there.
fn text_named<'a>(texts: &'a [(Bytes, Bytes)], name: &str) -> Option<&'a Bytes> {
    for (key, text) in texts {
        if key.as_slice() == name.as_bytes() {
            return Some(text);
        }
    }
    None
}

// Appends a text. One that had its name goes.
fn put_text(
    alloc: Global,
    texts: &mut NamedTexts,
    name: &[u8],
    text: &[u8],
) -> Result<(), OutOfMemory> {
    texts.retain(|(key, _)| key.as_slice() != name);
    append_text(alloc, texts, name, text)
}

fn append_text(
    alloc: Global,
    texts: &mut NamedTexts,
    name: &[u8],
    text: &[u8],
) -> Result<(), OutOfMemory> {
    let name = Bytes::from_slice(alloc, name)?;
    let text = Bytes::from_slice(alloc, text)?;
    texts.push((name, text))?;
    Ok(())
}

/// The texts of the case, and those that all later cases may use.
pub struct Texts {
    shared: NamedTexts,
    own: NamedTexts,
    /// Whether the last text that was begun is a shared one.
    sharing: bool,
}

impl Drop for Texts {
    fn drop(self) {
        let Texts {
            shared,
            own,
            sharing,
        } = self;
        let _ = shared;
        let _ = own;
        let _ = sharing;
    }
}

impl Texts {
    pub fn new(alloc: Global) -> Texts {
        Texts {
            shared: Vec::new(alloc),
            own: Vec::new(alloc),
            sharing: false,
        }
    }

    /// A new case has no texts of its own.
    pub fn begin_case(&mut self) {
        self.own.clear();
        self.sharing = false;
    }

    /// Begins the text of this name, in place of an earlier one of the case or of the shared ones.
    pub fn begin(&mut self, alloc: Global, name: &str, sharing: bool) -> Result<(), OutOfMemory> {
        self.sharing = sharing;
        let texts = if sharing {
            &mut self.shared
        } else {
            &mut self.own
        };
        put_text(alloc, texts, name.as_bytes(), &[])
    }

    /// Takes the shared text for the one of this name; whether there is a shared one.
    pub fn take_shared(
        &mut self,
        alloc: Global,
        name: &str,
        shared: &str,
    ) -> Result<bool, OutOfMemory> {
        let Some(text) = text_named(&self.shared, shared) else {
            return Ok(false);
        };
        self.sharing = false;
        put_text(alloc, &mut self.own, name.as_bytes(), text.as_slice())?;
        Ok(true)
    }

    // The text that was begun last.
    fn begun(&mut self) -> Option<&mut Bytes> {
        let texts = if self.sharing {
            &mut self.shared
        } else {
            &mut self.own
        };
        Some(&mut texts.last_mut()?.1)
    }

    /// Adds a piece to the text that was begun last, so many times, and an end after it; whether there is such a text
    /// and such a piece.
    pub fn append(
        &mut self,
        alloc: Global,
        piece: &str,
        times: u64,
        end: &str,
    ) -> Result<bool, OutOfMemory> {
        let mut bytes = Bytes::new(alloc);
        self.append_unescaped(alloc, piece, times, end, &mut bytes)
    }

    // The same, with room for the bytes of the piece.
    fn append_unescaped(
        &mut self,
        alloc: Global,
        piece: &str,
        times: u64,
        end: &str,
        bytes: &mut Bytes,
    ) -> Result<bool, OutOfMemory> {
        if !unescape(alloc, piece, 1, bytes)? {
            return Ok(false);
        }
        let Some(text) = self.begun() else {
            return Ok(false);
        };
        append_times(alloc, text, piece, bytes.as_slice(), times)?;
        text.append(end.as_bytes())?;
        Ok(true)
    }

    /// Puts a line in place of the one of this number, from 1 on, of the text that was begun last; whether there is such a
    /// line.
    pub fn set_line(
        &mut self,
        alloc: Global,
        number: u64,
        line: &str,
    ) -> Result<bool, OutOfMemory> {
        let mut out = Bytes::new(alloc);
        let Some(text) = self.begun() else {
            return Ok(false);
        };
        let found = append_with_line(alloc, &mut out, text.as_slice(), number, line)?;
        if found {
            *text = out;
        }
        Ok(found)
    }

    /// Appends the texts of the case to these.
    pub fn append_own(&self, alloc: Global, texts: &mut NamedTexts) -> Result<(), OutOfMemory> {
        for (name, text) in &self.own {
            append_text(alloc, texts, name.as_slice(), text.as_slice())?;
        }
        Ok(())
    }
}

// Appends a piece so many times, of which these are the bytes with the number 1.
fn append_times(
    alloc: Global,
    text: &mut Bytes,
    piece: &str,
    bytes: &[u8],
    times: u64,
) -> Result<(), OutOfMemory> {
    if has_number(piece) {
        return append_numbered(alloc, text, piece, times);
    }
    for _ in 0..times {
        text.append(bytes)?;
    }
    Ok(())
}

// Appends the piece with the number 1 in it, then 2, up to the last one.
fn append_numbered(
    alloc: Global,
    text: &mut Bytes,
    piece: &str,
    last: u64,
) -> Result<(), OutOfMemory> {
    for number in 1..=last {
        unescape(alloc, piece, number, text)?;
    }
    Ok(())
}

// Appends the text with another line of this number; whether it has such a line, and this is one.
fn append_with_line(
    alloc: Global,
    out: &mut Bytes,
    text: &[u8],
    number: u64,
    line: &str,
) -> Result<bool, OutOfMemory> {
    let mut at: u64 = 1;
    let mut found = false;
    for byte in text {
        if at == number && !found {
            found = unescape(alloc, line, 1, out)?;
            if !found {
                break;
            }
        }
        if at != number || *byte == b'\n' {
            out.push(*byte)?;
        }
        if *byte == b'\n' {
            at = at.saturating_add(1);
        }
    }
    Ok(found)
}
