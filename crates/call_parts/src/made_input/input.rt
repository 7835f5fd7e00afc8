//! The texts of the made input.
ghost use Rattle.std.specs.Prelude.{◌≡◌, ◌++◌, ◌%◌, ◌==◌, ◌||◌, [], cond, flat_map, IfOk, OnOk};
ghost use Rattle.application_types.specs.Statements.{IsWithin};
ghost use Rattle.abstract_monitor.specs.Made.{made_round};
ghost use Rattle.call_parts.specs.MadeTexts.{command_line, input_line, definition_text, units_text, script_text};

use kd_base::{Bytes, OutOfMemory};
use std::alloc::Global;

/// Two TACs, and four terminals with a user each.
const DEFINITION: &[u8] = b"MAX APPLINAME=MAKE,TASKS=2,KB=16,SPAB=64,NB=80,PGPOOL=64,BLKSIZE=2K\n\
    PROGRAM ADD\n\
    PROGRAM TALLY\n\
    TAC ADD,PROGRAM=ADD\n\
    TAC TALLY,PROGRAM=TALLY,TYPE=A\n\
    USER U1\nLTERM L1\nPTERM P1,LTERM=L1\n\
    USER U2\nLTERM L2\nPTERM P2,LTERM=L2\n\
    USER U3\nLTERM L3\nPTERM P3,LTERM=L3\n\
    USER U4\nLTERM L4\nPTERM P4,LTERM=L4\n\
    END\n";

/// ADD counts its inputs and hands each on to TALLY, which adds them up.
const UNITS: &[u8] = b"UNIT ADD\n\
    FIELD v SPAB 0 8\n\
    FIELD n SPAB 8 8\n\
    INIT\n\
    MGET v\n\
    SGET GB 'CNT' n\n\
    ADD n 1\n\
    SPUT GB 'CNT' n\n\
    FPUT 'TALLY' v\n\
    MPUT n\n\
    PEND FI\n\
    END\n\
    UNIT TALLY\n\
    FIELD v SPAB 0 8\n\
    FIELD n SPAB 8 8\n\
    INIT\n\
    FGET v\n\
    SGET GB 'TOTAL' n\n\
    ADD n v\n\
    SPUT GB 'TOTAL' n\n\
    PEND FI\n\
    END\n";

/// Each user signs on at a terminal.
const SIGN_ONS: &[u8] = b"IN P1 KDCSIGN U1\nIN P2 KDCSIGN U2\nIN P3 KDCSIGN U3\nIN P4 KDCSIGN U4\n";

/// The texts of the made application and its script.
#[derive(Drop)]
pub struct MadeInput {
    /// The definition of a generation.
    pub definition: Bytes,
    /// Its program units.
    pub units: Bytes,
    /// The commands.
    pub script: Bytes,
}

// Input i, at the terminals in rotation.
fn put_input(alloc: Global, out: &mut Bytes, i: u32) -> Result<(), OutOfMemory>
    requires { IsWithin 1 20000 i }
    ensures { OnOk result (out.new ≡ out.old ++ input_line i) }
{
    let terminal = (i + 3) % 4 + 1;
    let digit = i % 10;
    let line = format!(in alloc; "IN P{terminal} ADD {digit}\n")?;
    out.append(line.as_bytes())
}

// A line where it is due.
fn put_where(out: &mut Bytes, due: bool, line: &[u8]) -> Result<(), OutOfMemory>
    ensures { OnOk result (out.new ≡ out.old ++ cond due line.now []) }
{
    if due { out.append(line) } else { Ok(()) }
}

// Whether a run follows input i of all.
fn is_run_due(all: u32, i: u32) -> bool
    ensures { result ≡ (i % 2 == 0 || i == all) }
{
    i % 2 == 0 || i == all
}

// Input i of all, a run after each second one and after the last, and a tick after each hundredth.
fn put_round(alloc: Global, out: &mut Bytes, all: u32, i: u32) -> Result<(), OutOfMemory>
    requires { IsWithin 1 20000 i }
    ensures { OnOk result (out.new ≡ out.old ++ flat_map command_line (made_round all i)) }
{
    put_input(alloc, out, i)?;
    put_where(out, is_run_due(all, i), b"RUN 100\n")?;
    put_where(out, i % 100 == 0, b"TICK 1\n")
}

// The sign-ons, and all inputs.
fn script(alloc: Global, n: u32) -> Result<Bytes, OutOfMemory>
    requires { IsWithin 1 20000 n }
    ensures { IfOk result (λ text. text ≡ script_text n) }
{
    let mut out = Bytes::from_slice(alloc, SIGN_ONS)?;
    for done in 0..n {
        put_round(alloc, &mut out, n, done + 1)?;
    }
    Ok(out)
}

/// The texts of the made input with n inputs: the definition and the units, which are the same for each n, and the script.
pub fn made(alloc: Global, n: u32) -> Result<MadeInput, OutOfMemory>
    requires { IsWithin 1 20000 n }
    ensures definition { IfOk result (λ m. m.definition ≡ definition_text) }
    ensures units { IfOk result (λ m. m.units ≡ units_text) }
    ensures script { IfOk result (λ m. m.script ≡ script_text n) }
{
    Ok(MadeInput {
        definition: Bytes::from_slice(alloc, DEFINITION)?,
        units: Bytes::from_slice(alloc, UNITS)?,
        script: script(alloc, n)?,
    })
}
