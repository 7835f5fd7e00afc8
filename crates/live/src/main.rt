//! The program `live`: the top call over the files of the current folder, the standard input and the standard output.
//!
//! It stands on live_cli, whose call `live` carries all promises, and on kd_host, the trusted edge.
#![tactic(auto)]

mod standard;

use kd_host::{FileTwin, FolderRoom, StandardDescriptors};
use live_cli::live;
use standard::StandardTyping;
use std::env;
use std::io::IsTerminal;
use std::process::ExitCode;

/// The exit status where descriptors 0 to 2 could not be kept from the files, or the words of the call could not be had.
const NO_ANSWER: u8 = 9;

/// The words after the program's name.
fn words(rt: &(impl env::Env + AllocGlobal)) -> Option<Vec<String>> {
    let mut words = Vec::new(rt.alloc());
    for word in env::args(rt).ok()?.skip(1) {
        words.push(word).ok()?;
    }
    Some(words)
}

fn main(rt: HostRuntime) -> ExitCode {
    let Ok(standard) = StandardDescriptors::take(&rt) else {
        return ExitCode::from(NO_ANSWER);
    };
    let Some(words) = words(&rt) else {
        return ExitCode::from(NO_ANSWER);
    };
    let mut room = FolderRoom::new(&rt, "live");
    let mut twin = FileTwin::new(&rt, "live");
    let is_prompted = rt.stdin().is_terminal() && rt.stdout().is_terminal();
    let mut typing = StandardTyping::new(&rt, rt.reader(), is_prompted);
    let status = live(rt.alloc(), &words, &mut room, &mut twin, &mut typing);
    drop(standard);
    ExitCode::from(status.code)
}
