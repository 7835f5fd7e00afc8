//! The program `utm`: the top call over the files of the current folder and the standard output.
//!
//! It stands on utm_cli, whose call `utm_twin` carries all promises, and on kd_host, the trusted edge.
#![tactic(auto)]

use kd_host::{FileTwin, FolderRoom, StandardDescriptors};
use std::env;
use std::process::ExitCode;
use utm_cli::utm_twin;

/// The exit status where descriptors 0 to 2 could not be kept from the files, or the words of the call could not be had.
const NO_ANSWER: u8 = 9;

/// The words after the program's name.
fn words(rt: &(impl env::Env + AllocGlobal)) -> Option<Vec<String>> {
    let mut words = Vec::new(rt.alloc());
    for word in env::args(rt).ok()?.skip(1) {
        words.push(word).ok()?;
    }
    Some(words)
}

fn main(rt: HostRuntime) -> ExitCode {
    let Ok(standard) = StandardDescriptors::take(&rt) else {
        return ExitCode::from(NO_ANSWER);
    };
    let Some(words) = words(&rt) else {
        return ExitCode::from(NO_ANSWER);
    };
    let mut room = FolderRoom::new(&rt, "utm");
    let mut twin = FileTwin::new(&rt, "utm");
    let status = utm_twin(rt.alloc(), &words, &mut room, &mut twin);
    drop(standard);
    ExitCode::from(status.code)
}
