//! Commands that are typed.
ghost use Rattle.std.specs.Prelude.{◌≡◌, ◌∷◌, ◌++◌, [], IfOk, MatchOption, OnOk};
ghost use Rattle.typed_lines.specs.Commands.{commands_in};
ghost use Rattle.lab_turns.specs.Consoles.{Ended, Typed};
ghost use Rattle.lab_scripts.specs.Talking.{HearsLine, Performs, Said, Talked, Took, prompt};

use crate::asking::{Ask, ask_of, lines_of};
use lab_turns::lab_printing::{Console, Printer};
use lab_turns::{Bench, LabError, Listener};
use script_read::ScriptFault;
use std::alloc::Global;
use typed_lines::{commands_typed, refused_line};

/// A typed line that is one of a script: what it says is performed, or it is refused, and then nothing is.
pub fn do_line<L: Listener>(
    alloc: Global,
    bench: Bench,
    listener: &mut L,
    auto: bool,
    line: &[u8],
) -> Result<(Bench, Option<ScriptFault>), LabError>
    ensures performs { IfOk result (λ r. Performs bench (commands_in bench.application.generation auto line.now) r.0 r.1) }
    ensures heard { OnOk result (HearsLine L.hears bench (commands_in bench.application.generation auto line.now) listener.old listener.new) }
{
    match commands_typed(alloc, &bench.core().parts().generation, auto, line) {
        Ok(commands) => {
            let next = bench.perform_all(alloc, listener, &commands)?;
            Ok((next, None))
        }
        Err(ScriptFault::Memory) => Err(LabError::Memory),
        Err(fault) => Ok((bench, Some(fault))),
    }
}

// A line of a script, and the line of its refusal.
fn do_script_line<C: Console>(
    alloc: Global,
    bench: Bench,
    printer: &mut Printer<C>,
    auto: bool,
    number: u64,
    line: &[u8],
) -> Result<Bench, LabError>
    ensures { IfOk result (λ next. Said C.passes bench (record { state = bench.state; auto = auto; traces = printer.old.traces; number = number }) printer.old.units (commands_in bench.application.generation auto line.now) printer.old.console next printer.new.traces printer.new.units printer.new.console) }
{
    let (next, refused) = do_line(alloc, bench, printer, auto, line)?;
    let Some(fault) = refused else {
        return Ok(next);
    };
    let text = refused_line(alloc, number, fault)?;
    printer.console.put(text.as_slice())?;
    Ok(next)
}

// The line with this number, from 1.
fn do_typed<C: Console>(
    alloc: Global,
    bench: Bench,
    printer: &mut Printer<C>,
    auto: &mut bool,
    number: u64,
    line: &[u8],
) -> Result<Bench, LabError>
    ensures { IfOk result (λ next. Took C.passes bench (record { state = bench.state; auto = auto.old; traces = printer.old.traces; number = number }) printer.old.units line.now printer.old.console next auto.new printer.new.traces printer.new.units printer.new.console) }
{
    match ask_of(line) {
        Ask::Lists(which) => {
            let lines = lines_of(alloc, bench.core(), which)?;
            printer.console.put(lines.as_slice())?;
            Ok(bench)
        }
        Ask::Auto(on) => {
            *auto = on;
            Ok(bench)
        }
        Ask::Trace(on) => {
            printer.traces = on;
            Ok(bench)
        }
        Ask::Script => do_script_line(alloc, bench, printer, *auto, number, line),
    }
}

// The next line, after a prompt where somebody types.
fn typed<C: Console>(alloc: Global, console: &mut C) -> Result<Option<Vec<u8>>, LabError>
    ensures { IfOk result (λ next. MatchOption next (C.passes console.old (prompt (C.prompted console.old) ++ Ended ∷ []) console.new) (λ line. C.passes console.old (prompt (C.prompted console.old) ++ Typed line.items ∷ []) console.new)) }
{
    if console.is_prompted() {
        console.put(b"> ")?;
    }
    console.line(alloc)
}

/// Performs what is typed, line by line, to the end of the input.
pub fn talk<C: Console>(
    alloc: Global,
    mut bench: Bench,
    printer: &mut Printer<C>,
) -> Result<Bench, LabError>
    ensures { IfOk result (λ next. Talked C.passes (C.prompted printer.old.console) bench.application bench.state printer.old.traces printer.old.units printer.old.console next printer.new.console) }
{
    let mut auto = true;
    for number in 0..u64::MAX {
        let Some(line) = typed(alloc, &mut printer.console)? else {
            return Ok(bench);
        };
        bench = do_typed(alloc, bench, printer, &mut auto, number + 1, &line)?;
    }
    Err(LabError::Spent)
}
