//! The PTERMs of a generation, by the USAGE of their LTERMs.
ghost use Rattle.std.specs.Prelude.{◌≡◌, Some};
ghost use Rattle.script_read.specs.{Commands.{lterm_at, pterm_in}, Reading.{line_result, found_of}};

use crate::fault::ScriptFault;
use application_types::generation::Generation;
use application_types::kdcdef_types::LtermEntry;
use kd_base::Name;

// The LTERM of the PTERM with this name, if there is one.
fn lterm_at(generation: &Generation, name: Name) -> Option<LtermEntry>
    ensures { result ≡ lterm_at generation.now (Some name) }
{
    let pterm = generation.pterm(name)?;
    generation.lterm(pterm.lterm).copied()
}

// The PTERM that a word on this line names, whose LTERM has USAGE=O (a printer), or else USAGE=D.
pub(crate) fn pterm_of(
    generation: &Generation,
    line: u32,
    printer: bool,
    word: &[u8],
) -> Result<Name, ScriptFault>
    ensures { found_of result ≡ line_result line (pterm_in generation.now printer word.now) }
{
    let Some(name) = Name::from_bytes(word) else {
        return Err(ScriptFault::BadLine(line));
    };
    let Some(lterm) = lterm_at(generation, name) else {
        return Err(ScriptFault::BadLine(line));
    };
    if lterm.printer != printer {
        return Err(ScriptFault::BadLine(line));
    }
    Ok(name)
}
