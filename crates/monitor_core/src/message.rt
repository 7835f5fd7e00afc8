//! Lines of the monitor, alone or after a commit.
ghost use Rattle.std.specs.Prelude.{◌≡◌, ◌∷◌, [], IfOk};
ghost use Rattle.kdcs_types.specs.declared.act.Act.TheVariants.{Commit, Emit};
ghost use Rattle.abstract_monitor.specs.Lines.{sys_line};

use kd_base::{Bytes, Name, OutOfMemory};
use kdcs_types::{Act, Acts, Changes};
use monitor_parts::output_lines::sys_line;
use std::alloc::Global;

// A line alone.
pub(crate) fn line_alone(alloc: Global, line: Bytes) -> Result<Acts, OutOfMemory>
    ensures { IfOk result (λ acts. acts ≡ Emit line ∷ []) }
{
    let mut acts = Acts::new(alloc);
    acts.push(Act::Emit(line))?;
    Ok(acts)
}

// A commit, and a line.
pub(crate) fn line_behind(alloc: Global, changes: Changes, line: Bytes) -> Result<Acts, OutOfMemory>
    ensures { IfOk result (λ acts. acts ≡ Commit changes ∷ Emit line ∷ []) }
{
    let mut acts = Acts::new(alloc);
    acts.push(Act::Commit(changes))?;
    acts.push(Act::Emit(line))?;
    Ok(acts)
}

// What the monitor says at a terminal.
pub(crate) fn say(alloc: Global, pterm: &Name, text: &[u8]) -> Result<Acts, OutOfMemory>
    ensures { IfOk result (λ acts. acts ≡ Emit (sys_line pterm.now text.now) ∷ []) }
{
    line_alone(alloc, sys_line(alloc, *pterm, text)?)
}
