//! Words for services, areas, codes, and what a commit changes.
ghost use Rattle.std.specs.Prelude.{◌≡◌, ◌++◌, codes, decimal, flat_map, OnOk};
ghost use Rattle.abstract_monitor.specs.Lines.{owner_text};
ghost use Rattle.lab_turns.specs.Phrases.{area_text, changes_text, code_text, command_text, ending_text, key_text, next_key_text};

use abstract_monitor::Command;
use kd_base::{Bytes, OutOfMemory};
use kdcs_types::{Area, Change, Changes, Code, Ending, Key, ServiceId};
use monitor_parts::output_lines::{cause_text, owner_text};
use std::alloc::Global;

/// Puts a number in decimal digits.
pub fn put_number(alloc: Global, out: &mut Bytes, number: u64) -> Result<(), OutOfMemory>
    ensures { OnOk result (out.new ≡ out.old ++ decimal number) }
{
    let digits = format!(in alloc; "{number}")?;
    out.append(digits.as_bytes())
}

/// Puts whose service it is: its user, or `#` and the number of its job.
pub(crate) fn put_service(alloc: Global, out: &mut Bytes, id: &ServiceId) -> Result<(), OutOfMemory>
    ensures { OnOk result (out.new ≡ out.old ++ owner_text id.now) }
{
    out.append(owner_text(alloc, *id)?.as_slice())
}

/// Puts an area: its kind, its name, and its LTERM or user.
pub(crate) fn put_area(alloc: Global, out: &mut Bytes, area: &Area) -> Result<(), OutOfMemory>
    ensures { OnOk result (out.new ≡ out.old ++ area_text area.now) }
{
    put_key(alloc, out, &area.key())
}

/// Puts the key of a row, as `show` begins the line of its row.
fn put_key(alloc: Global, out: &mut Bytes, key: &Key) -> Result<(), OutOfMemory>
    ensures { OnOk result (out.new ≡ out.old ++ key_text key.now) }
{
    match key {
        Key::Gssb(name) => put_two(out, b"GSSB ", name.as_slice()),
        Key::Tls(block, lterm) => put_block(out, b"TLS ", block.as_slice(), lterm.as_slice()),
        Key::Uls(block, user) => put_block(out, b"ULS ", block.as_slice(), user.as_slice()),
        Key::Service(id) => {
            out.append(b"SERVICE ")?;
            put_service(alloc, out, id)
        }
        Key::Job(number) => {
            out.append(b"JOB ")?;
            put_number(alloc, out, *number)
        }
        Key::Shown(lterm) => put_two(out, b"SHOWN ", lterm.as_slice()),
    }
}

fn put_two(out: &mut Bytes, kind: &[u8], name: &[u8]) -> Result<(), OutOfMemory>
    ensures { OnOk result (out.new ≡ out.old ++ kind.now ++ name.now) }
{
    out.append(kind)?;
    out.append(name)
}

fn put_block(out: &mut Bytes, kind: &[u8], block: &[u8], whose: &[u8]) -> Result<(), OutOfMemory>
    ensures { OnOk result (out.new ≡ out.old ++ kind.now ++ block.now ++ codes " " ++ whose.now) }
{
    put_two(out, kind, block)?;
    put_two(out, b" ", whose)
}

// Puts the keys of the changes behind the first.
fn put_more_keys(alloc: Global, out: &mut Bytes, changes: &[Change]) -> Result<(), OutOfMemory>
    ensures { OnOk result (out.new ≡ out.old ++ flat_map next_key_text changes.now) }
{
    for change in changes {
        out.append(b", ")?;
        put_key(alloc, out, &change.key())?;
    }
    Ok(())
}

// Puts the keys of changes, or the clock where there are none.
fn put_keys(
    alloc: Global,
    out: &mut Bytes,
    clock: u64,
    changes: &[Change],
) -> Result<(), OutOfMemory>
    ensures { OnOk result (out.new ≡ out.old ++ changes_text clock changes.now) }
{
    match changes {
        [] => put_count(alloc, out, b"no row, CLOCK ", clock),
        [first, more @ ..] => {
            put_key(alloc, out, &first.key())?;
            put_more_keys(alloc, out, more)
        }
    }
}

/// Puts what a commit changes: the keys of its rows. Where there are none, it has the clock alone.
pub(crate) fn put_changes(
    alloc: Global,
    out: &mut Bytes,
    changes: &Changes,
) -> Result<(), OutOfMemory>
    ensures { OnOk result (out.new ≡ out.old ++ changes_text changes.now.clock changes.now.items) }
{
    put_keys(alloc, out, changes.clock, changes.items.as_slice())
}

/// The code of a call: KCRCCC.
pub(crate) fn code_text(code: Code) -> &'static [u8]
    ensures { result.now ≡ code_text code }
{
    match code {
        Code::Done => b"000",
        Code::K01 => b"K01",
        Code::K02 => b"K02",
        Code::K03 => b"K03",
        Code::K04 => b"K04",
        Code::K05 => b"K05",
        Code::K06 => b"K06",
        Code::K07 => b"K07",
        Code::K08 => b"K08",
        Code::K09 => b"K09",
        Code::K10 => b"K10",
        Code::K11 => b"K11",
    }
}

/// How a transaction ended.
pub(crate) fn ending_text(ending: Ending) -> &'static [u8]
    ensures { result.now ≡ ending_text ending }
{
    match ending {
        Ending::Synced => b"SYNCHRONISED",
        Ending::Broken(cause) => cause_text(cause),
        Ending::BrokenFr => b"FR",
    }
}

/// Puts a command as a script has it.
pub fn put_command(alloc: Global, out: &mut Bytes, command: &Command) -> Result<(), OutOfMemory>
    ensures { OnOk result (out.new ≡ out.old ++ command_text command.now) }
{
    match command {
        Command::Input(pterm, text) => {
            put_two(out, b"IN ", pterm.as_slice())?;
            put_two(out, b" ", text.as_slice())
        }
        Command::Tick(ticks) => put_count(alloc, out, b"TICK ", *ticks),
        Command::Run(turns) => put_count(alloc, out, b"RUN ", *turns),
        Command::Turn(task) => put_count(alloc, out, b"TURN ", u64::from(*task)),
        Command::Drop(pterm) => put_two(out, b"DROP ", pterm.as_slice()),
        Command::Print(pterm) => put_two(out, b"PRINT ", pterm.as_slice()),
        Command::PrintLast(pterm) => {
            put_two(out, b"PRINT ", pterm.as_slice())?;
            out.append(b" LAST")
        }
        Command::Restart => out.append(b"RESTART"),
    }
}

fn put_count(alloc: Global, out: &mut Bytes, word: &[u8], number: u64) -> Result<(), OutOfMemory>
    ensures { OnOk result (out.new ≡ out.old ++ word.now ++ decimal number) }
{
    out.append(word)?;
    put_number(alloc, out, number)
}
