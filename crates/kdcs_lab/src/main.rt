//! The program `lab`: the words of the laboratory over the files of the current folder, the standard input and the
//! standard output.
//!
//! It stands on lab_cli, whose call `lab` does all of the work, and on kd_host, the trusted edge. It makes and writes no
//! file.
#![tactic(auto)]

mod colour;
mod folder;
mod standard;

use folder::LabRoom;
use kd_host::StandardDescriptors;
use lab_cli::lab;
use standard::{StandardConsole, Terminal};
use std::env;
use std::io::{BufReader, IsTerminal};
use std::process::ExitCode;

/// The exit status where descriptors 0 to 2 could not be kept from the files, or the words of the call could not be had.
const NO_ANSWER: u8 = 9;

/// The words after the program's name.
fn words(rt: &(impl env::Env + AllocGlobal)) -> Option<Vec<String>> {
    let mut words = Vec::new(rt.alloc());
    for word in env::args(rt).ok()?.skip(1) {
        words.push(word).ok()?;
    }
    Some(words)
}

/// What the standard input and output are. There are no styles where the environment has NO_COLOR.
fn terminal(rt: &HostRuntime) -> Terminal {
    let is_read = rt.stdout().is_terminal();
    Terminal {
        is_prompted: rt.stdin().is_terminal() && is_read,
        is_coloured: is_read && env::var(rt, "NO_COLOR").is_err(),
    }
}

fn main(rt: HostRuntime) -> ExitCode {
    let Ok(standard) = StandardDescriptors::take(&rt) else {
        return ExitCode::from(NO_ANSWER);
    };
    let Some(words) = words(&rt) else {
        return ExitCode::from(NO_ANSWER);
    };
    let mut room = LabRoom::new(&rt);
    let Ok(input) = BufReader::new(rt.alloc(), rt.reader()) else {
        return ExitCode::from(NO_ANSWER);
    };
    let console = StandardConsole::new(&rt, input, terminal(&rt));
    let (status, _) = lab(rt.alloc(), &words, &mut room, console);
    drop(standard);
    ExitCode::from(status.code)
}
