//! Words of a line, each after a space.
ghost use Rattle.std.specs.Prelude.{◌≡◌, ◌∷◌, ◌++◌, decimal, OnOk};
ghost use Rattle.kd_base.specs.Text.{escaped};
ghost use Rattle.abstract_monitor.specs.Lines.{owner_text};

use crate::output_lines::event_lines::owner_text;
use kd_base::{Bytes, OutOfMemory, escape};
use kdcs_types::ServiceId;
use std::alloc::Global;

/// Puts a space and a word, as it is.
pub(crate) fn put_word(out: &mut Bytes, word: &[u8]) -> Result<(), OutOfMemory>
    ensures { OnOk result (out.new ≡ out.old ++ 32 ∷ word.now) }
{
    out.push(b' ')?;
    out.append(word)
}

/// Puts a space and a number in decimal digits.
pub(crate) fn put_number(alloc: Global, out: &mut Bytes, number: u64) -> Result<(), OutOfMemory>
    ensures { OnOk result (out.new ≡ out.old ++ 32 ∷ decimal number) }
{
    let digits = format!(in alloc; "{number}")?;
    put_word(out, digits.as_bytes())
}

/// Puts a space and a message or content, escaped.
pub(crate) fn put_escaped(alloc: Global, out: &mut Bytes, text: &[u8]) -> Result<(), OutOfMemory>
    ensures { OnOk result (out.new ≡ out.old ++ 32 ∷ escaped text.now) }
{
    let text = escape(alloc, text)?;
    put_word(out, text.as_slice())
}

/// Puts a space, and whose service it is.
pub(crate) fn put_owner(alloc: Global, out: &mut Bytes, id: ServiceId) -> Result<(), OutOfMemory>
    ensures { OnOk result (out.new ≡ out.old ++ 32 ∷ owner_text id) }
{
    let owner = owner_text(alloc, id)?;
    put_word(out, owner.as_slice())
}
