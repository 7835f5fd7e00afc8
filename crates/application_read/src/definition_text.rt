//! From the text to the generation.
ghost use Rattle.std.specs.Prelude.{◌≡◌, ◌≢◌, List, Ok, Err, IfOk, IfErr};
ghost use Rattle.application_types.specs.{Generation.{Generated}, declared.kdcdef_types.statement.Statement.{Statement}};
ghost use Rattle.kdcdef_read.specs.declared.fault.ReadFault.TheVariants.{Memory as ReadMemory};
ghost use Rattle.application_check.specs.Gathering.{WereGathered};
ghost use Rattle.application_read.specs.{Definition.{Generates, HasFault, Gives}, declared.definition_fault.DefinitionFault.{DefinitionFault}};
ghost use Rattle.application_read.specs.declared.definition_fault.DefinitionFault.TheVariants.{Memory};

use crate::definition_fault::DefinitionFault;
use application_check::kdcdef_check::{Gathered, check};
use application_types::generation::Generation;
use kdcdef_read::{ReadFault, Reader, read};
use std::alloc::Global;
use texts::kdcdef_lex::lines;

// The statements that are left to read, gathered.
fn gather(alloc: Global, mut reader: Reader<'_>, key: &[u8]) -> Result<Gathered, ReadFault>
    ensures found { IfOk result (λ gathered. (ss : List Statement) × (reader.entry.read ≡ Ok ss) × WereGathered gathered ss) }
    ensures fault { IfErr result (λ e. e ≢ ReadMemory → reader.entry.read ≡ Err e) }
{
    let mut gathered = Gathered::new(alloc, key)?;
    while let Some(statement) = reader.next(alloc)? {
        gathered.add(alloc, statement)?;
    }
    Ok(gathered)
}

/// The generation that a KDCDEF text makes, or its first fault. A text has at most 16,777,216 bytes.
pub fn generate(alloc: Global, definition: &[u8]) -> Result<Generation, DefinitionFault>
    // The text generates what is answered.
    ensures found { IfOk result (λ g. Generates definition.now g) }
    // What the text generates is answered, unless memory runs out.
    ensures only { (g : Generated) → Generates definition.now g → Gives result (Ok g) }
    // The fault that is answered is there.
    ensures fault { IfErr result (λ e. e ≢ Memory → HasFault definition.now e) }
    // A text with the fault is refused for it, unless memory runs out.
    ensures refused { (e : DefinitionFault) → HasFault definition.now e → Gives result (Err e) }
{
    let raw = lines(alloc, definition)?;
    let gathered = gather(alloc, read(&raw), raw.bytes())?;
    Ok(check(alloc, gathered)?)
}
