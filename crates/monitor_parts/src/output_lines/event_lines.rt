//! One output line for each event, ended by LF. Each call takes memory for its line.
ghost use Rattle.std.specs.Prelude.{◌≡◌, ◌∷◌, ◌++◌, codes, decimal, IfOk, OnOk};
ghost use Rattle.abstract_monitor.specs.Commands.{refusal_text};
ghost use Rattle.abstract_monitor.specs.Lines.{line, out_line, asy_line, prt_line, sys_line, no_message_line, ended_line, owner_text, cause_text, dump_line, tick_line, tick_refused_line};

use crate::output_lines::texts::cause_text;
use crate::output_lines::words::{put_number, put_owner, put_word};
use abstract_monitor::{Denial, TacFault};
use kd_base::{Bytes, Name, OutOfMemory, escape};
use kdcs_types::{Cause, ServiceId};
use std::alloc::Global;

// Puts a number in decimal digits.
fn put_digits(out: &mut Bytes, alloc: Global, number: u64) -> Result<(), OutOfMemory>
    ensures { OnOk result (out.new ≡ out.old ++ decimal number) }
{
    let digits = format!(in alloc; "{number}")?;
    out.append(digits.as_bytes())
}

/// So many bytes are around the text of a line: what happened, a name, a space and LF.
const AROUND: usize = 14;

// What happened, with a space after it, at a terminal or printer.
fn line_at(alloc: Global, event: &[u8], pterm: Name, text: &[u8]) -> Result<Bytes, OutOfMemory>
    ensures { IfOk result (λ out. out ≡ line (event.now ++ pterm ++ 32 ∷ text.now)) }
{
    let length = text.len().saturating_add(AROUND);
    let mut out = Bytes::from_vec(Vec::with_capacity(alloc, length)?);
    out.append(event)?;
    out.append(pterm.as_slice())?;
    put_word(&mut out, text)?;
    out.push(b'\n')?;
    Ok(out)
}

/// `OUT`: a dialogue message, as it is sent or shown again.
pub fn out_line(alloc: Global, pterm: Name, message: &[u8]) -> Result<Bytes, OutOfMemory>
    ensures { IfOk result (λ out. out ≡ out_line pterm message.now) }
{
    line_at(alloc, b"OUT ", pterm, escape(alloc, message)?.as_slice())
}

/// `ASY`: the message of a job at a terminal, by KDCOUT or KDCLAST.
pub fn asy_line(alloc: Global, pterm: Name, message: &[u8]) -> Result<Bytes, OutOfMemory>
    ensures { IfOk result (λ out. out ≡ asy_line pterm message.now) }
{
    line_at(alloc, b"ASY ", pterm, escape(alloc, message)?.as_slice())
}

/// `PRT`: the message of a job at a printer, by PRINT.
pub fn prt_line(alloc: Global, pterm: Name, message: &[u8]) -> Result<Bytes, OutOfMemory>
    ensures { IfOk result (λ out. out ≡ prt_line pterm message.now) }
{
    line_at(alloc, b"PRT ", pterm, escape(alloc, message)?.as_slice())
}

/// `SYS`: what the monitor itself says at a terminal. The text is printed as it is.
pub fn sys_line(alloc: Global, pterm: Name, text: &[u8]) -> Result<Bytes, OutOfMemory>
    ensures { IfOk result (λ out. out ≡ sys_line pterm text.now) }
{
    line_at(alloc, b"SYS ", pterm, text)
}

// What the monitor says at a terminal of a user, whose name is last.
fn user_line(alloc: Global, pterm: Name, said: &[u8], user: Name) -> Result<Bytes, OutOfMemory>
    ensures { IfOk result (λ out. out ≡ sys_line pterm (said.now ++ user)) }
{
    let mut text = Bytes::from_slice(alloc, said)?;
    text.append(user.as_slice())?;
    sys_line(alloc, pterm, text.as_slice())
}

/// A user signs on.
pub fn signed_on_line(alloc: Global, pterm: Name, user: Name) -> Result<Bytes, OutOfMemory>
    ensures { IfOk result (λ out. out ≡ sys_line pterm (codes "SIGNED ON " ++ user)) }
{
    user_line(alloc, pterm, b"SIGNED ON ", user)
}

/// A user signs off.
pub fn signed_off_line(alloc: Global, pterm: Name, user: Name) -> Result<Bytes, OutOfMemory>
    ensures { IfOk result (λ out. out ≡ sys_line pterm (codes "SIGNED OFF " ++ user)) }
{
    user_line(alloc, pterm, b"SIGNED OFF ", user)
}

// A text that ends with a code of keys.
fn text_of_code(alloc: Global, said: &[u8], code: u16) -> Result<Bytes, OutOfMemory>
    ensures { IfOk result (λ out. out ≡ said.now ++ decimal code) }
{
    let mut text = Bytes::from_slice(alloc, said)?;
    put_digits(&mut text, alloc, u64::from(code))?;
    Ok(text)
}

// Why a TAC is refused.
fn refusal_text(alloc: Global, fault: TacFault) -> Result<Bytes, OutOfMemory>
    ensures { IfOk result (λ out. out ≡ refusal_text fault) }
{
    match fault {
        TacFault::UnknownTac => Bytes::from_slice(alloc, b"UNKNOWN TAC"),
        TacFault::NotAllowed => Bytes::from_slice(alloc, b"TAC NOT ALLOWED"),
        TacFault::IsOff => Bytes::from_slice(alloc, b"TAC IS OFF"),
        TacFault::Denied(Denial::User(code)) => text_of_code(alloc, b"TAC DENIED USER ", code),
        TacFault::Denied(Denial::Lterm(code)) => text_of_code(alloc, b"TAC DENIED LTERM ", code),
    }
}

/// A TAC is refused: no service starts with it.
pub fn refused_line(alloc: Global, pterm: Name, fault: TacFault) -> Result<Bytes, OutOfMemory>
    ensures { IfOk result (λ out. out ≡ sys_line pterm (refusal_text fault)) }
{
    sys_line(alloc, pterm, refusal_text(alloc, fault)?.as_slice())
}

/// There is no message to show, by KDCDISP, KDCOUT, KDCLAST or PRINT.
pub fn no_message_line(alloc: Global, pterm: Name) -> Result<Bytes, OutOfMemory>
    ensures { IfOk result (λ out. out ≡ no_message_line pterm) }
{
    sys_line(alloc, pterm, b"NO MESSAGE")
}

/// A dialogue service is over without a message.
pub fn ended_line(alloc: Global, pterm: Name) -> Result<Bytes, OutOfMemory>
    ensures { IfOk result (λ out. out ≡ ended_line pterm) }
{
    sys_line(alloc, pterm, b"SERVICE ENDED")
}

/// Whose service it is: its user, or `#` and the number of its job in decimal digits.
pub fn owner_text(alloc: Global, id: ServiceId) -> Result<Bytes, OutOfMemory>
    ensures { IfOk result (λ out. out ≡ owner_text id) }
{
    match id {
        ServiceId::Dialogue(user) => Bytes::from_slice(alloc, user.as_slice()),
        ServiceId::Asynchronous(number) => {
            let mut out = Bytes::from_slice(alloc, b"#")?;
            put_digits(&mut out, alloc, number)?;
            Ok(out)
        }
    }
}

// Puts the words of a dump, and ends the line.
fn put_dump(
    alloc: Global,
    out: &mut Bytes,
    id: ServiceId,
    tac: Name,
    cause: Cause,
    place: u32,
) -> Result<(), OutOfMemory>
    ensures { OnOk result (out.new ≡ line (out.old ++ 32 ∷ owner_text id ++ 32 ∷ tac ++ 32 ∷ cause_text cause ++ 32 ∷ decimal place)) }
{
    put_owner(alloc, out, id)?;
    put_word(out, tac.as_slice())?;
    put_word(out, cause_text(cause))?;
    put_number(alloc, out, u64::from(place))?;
    out.push(b'\n')
}

/// `DUMP`: an abnormal end of a service, with its current TAC, the cause, and the number of the statement in its unit,
/// counted from 1.
pub fn dump_line(
    alloc: Global,
    id: ServiceId,
    tac: Name,
    cause: Cause,
    place: u32,
) -> Result<Bytes, OutOfMemory>
    ensures { IfOk result (λ out. out ≡ dump_line id tac cause place) }
{
    let mut out = Bytes::from_slice(alloc, b"DUMP")?;
    put_dump(alloc, &mut out, id, tac, cause, place)?;
    Ok(out)
}

/// `TICK`: the new clock, in ticks.
pub fn tick_line(alloc: Global, clock: u64) -> Result<Bytes, OutOfMemory>
    ensures { IfOk result (λ out. out ≡ tick_line clock) }
{
    let mut out = Bytes::from_slice(alloc, b"TICK ")?;
    put_digits(&mut out, alloc, clock)?;
    out.push(b'\n')?;
    Ok(out)
}

/// A TICK past the greatest clock.
pub fn tick_refused_line(alloc: Global) -> Result<Bytes, OutOfMemory>
    ensures { IfOk result (λ out. out ≡ tick_refused_line) }
{
    Bytes::from_slice(alloc, b"TICK REFUSED\n")
}
