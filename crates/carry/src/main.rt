//! The program `carry`: the top calls over the files of the current folder and the standard output.
//!
//! It stands on carry_cli, whose calls `carry` and `backup` carry all promises, and on kd_host, the trusted edge. The files
//! are opened for reading alone by `state`, by `backup` and with `--try`; else one that is not there is made by the first
//! write. Before a backup its texts are copied, and what was made for one that did not become ready is removed, which no
//! contract covers.
#![tactic(auto)]

use carry_cli::{There, backup, backup_of, carry};
use kd_host::{FileDevice, FileTwin, FolderRoom, StandardDescriptors, copy_to_new};
use std::fs::File;
use std::io::ErrorKind;
use std::process::ExitCode;
use std::rt::Files;
use std::{env, fs, io};

/// The exit status where descriptors 0 to 2 could not be kept from the files, or the words of the call could not be had.
const NO_ANSWER: u8 = 9;

/// The exit status where a text could not be copied.
const NO_TEXT: u8 = 6;

/// The words after the program's name.
fn words(rt: &(impl env::Env + AllocGlobal)) -> Option<Vec<String>> {
    let mut words = Vec::new(rt.alloc());
    for word in env::args(rt).ok()?.skip(1) {
        words.push(word).ok()?;
    }
    Some(words)
}

/// Whether there is a file of this name, be it one that can't be read.
fn is_there(rt: &(impl Files + AllocGlobal), base: &str, ending: &str) -> io::Result<bool> {
    let name = format!(in rt.alloc(); "{base}{ending}")?;
    match fs::open(rt, &name) {
        Ok(_) => Ok(true),
        Err(error) => Ok(error.kind() != ErrorKind::NotFound),
    }
}

/// Whether the files of the BASE behind the first word are there.
fn there(rt: &(impl Files + AllocGlobal), words: &[String]) -> io::Result<There> {
    let base = match words {
        [_, base, ..] => base.as_str(),
        _ => "",
    };
    Ok(There {
        first: is_there(rt, base, ".KDCA")?,
        second: is_there(rt, base, ".KDCB")?,
    })
}

/// Whether the words ask for no write.
fn only_reads(words: &[String]) -> bool {
    for word in words {
        if word.as_bytes() == b"--try".as_slice() {
            return true;
        }
    }
    match words {
        [word, ..] => word.as_bytes() == b"state".as_slice(),
        [] => true,
    }
}

/// Carries the files of a BASE, or tells what they are.
fn carried(rt: &HostRuntime, words: &Vec<String>) -> u8 {
    let Ok(there) = there(rt, words) else {
        return NO_ANSWER;
    };
    let mut room = FolderRoom::new(rt, "carry");
    let mut twin = if only_reads(words) {
        FileTwin::reading(rt, "carry")
    } else {
        FileTwin::making_late(rt, "carry")
    };
    carry(rt.alloc(), words, &mut room, &mut twin, there).code
}

/// Whether the text of the BASE with this ending was copied to that of TO, which was not there.
fn copies_text(
    rt: &(impl Files<File = File> + Eprint + AllocGlobal),
    base: &str,
    to: &str,
    ending: &str,
) -> io::Result<bool> {
    let from = format!(in rt.alloc(); "{base}{ending}")?;
    let new = format!(in rt.alloc(); "{to}{ending}")?;
    Ok(copy_to_new(rt, "carry", &from, &new).is_ok())
}

/// Removes the file of TO with this ending, which the call has made. What cannot be removed stays.
fn remove(rt: &(impl Files + AllocGlobal), to: &str, ending: &str) {
    if let Ok(name) = format!(in rt.alloc(); "{to}{ending}") {
        let _ = fs::remove_file(rt, &name);
    }
}

/// Backs up the files of this BASE, whose texts are copied. A file that was not there before stays only where it is a
/// backup.
fn files_backed_up(rt: &HostRuntime, words: &Vec<String>, to: &str) -> u8 {
    let Ok(was_there) = is_there(rt, to, ".KDCA") else {
        return NO_ANSWER;
    };
    let mut room = FolderRoom::new(rt, "carry");
    let mut twin = FileTwin::reading(rt, "carry");
    let mut device = FileDevice::making_late(rt, "carry");
    let code = backup(rt.alloc(), words, &mut room, &mut twin, &mut device).code;
    if code != 0 && !was_there {
        remove(rt, to, ".KDCA");
    }
    code
}

/// The same after the units are copied, which stay only beside a backup.
fn backed_up_with_units(rt: &HostRuntime, words: &Vec<String>, base: &str, to: &str) -> u8 {
    match copies_text(rt, base, to, ".units") {
        Ok(true) => {}
        Ok(false) => return NO_TEXT,
        Err(_) => return NO_ANSWER,
    }
    let code = files_backed_up(rt, words, to);
    if code != 0 {
        remove(rt, to, ".units");
    }
    code
}

/// Backs up the files of this BASE, with its texts.
fn backed_up(rt: &HostRuntime, words: &Vec<String>, base: &str, to: &str) -> u8 {
    match copies_text(rt, base, to, ".def") {
        Ok(true) => {}
        Ok(false) => return NO_TEXT,
        Err(_) => return NO_ANSWER,
    }
    let code = backed_up_with_units(rt, words, base, to);
    if code != 0 {
        remove(rt, to, ".def");
    }
    code
}

fn main(rt: HostRuntime) -> ExitCode {
    let Ok(standard) = StandardDescriptors::take(&rt) else {
        return ExitCode::from(NO_ANSWER);
    };
    let Some(words) = words(&rt) else {
        return ExitCode::from(NO_ANSWER);
    };
    let code = match backup_of(&words) {
        Some((base, to)) => backed_up(&rt, &words, base, to),
        None => carried(&rt, &words),
    };
    drop(standard);
    ExitCode::from(code)
}
