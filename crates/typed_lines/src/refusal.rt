//! The line of a refusal.
ghost use Rattle.std.specs.Prelude.{◌≡◌, IfOk};
ghost use Rattle.typed_lines.specs.Commands.{refused_line};

use kd_base::{Bytes, OutOfMemory};
use script_read::ScriptFault;
use std::alloc::Global;

/// `SCRIPT`, the number of a typed line, and the name of its fault; a typed line is numbered among all that were typed,
/// from 1. Want of memory is no fault of a line, and has no bytes.
pub fn refused_line(alloc: Global, number: u64, fault: ScriptFault) -> Result<Bytes, OutOfMemory>
    ensures { IfOk result (λ line. line ≡ refused_line number fault) }
{
    let line = match fault {
        ScriptFault::BadLine(_) => format!(in alloc; "SCRIPT {number} BadLine\n")?,
        ScriptFault::OutOfRange(_) => format!(in alloc; "SCRIPT {number} OutOfRange\n")?,
        ScriptFault::TooLong => format!(in alloc; "SCRIPT {number} TooLong\n")?,
        ScriptFault::Memory => String::new(alloc),
    };
    Ok(Bytes::from_vec(line.into_bytes()))
}
