//! Tries `utm` on cases: the words are the names of texts of cases, of which `docs/cases.md` says the form.
//!
//! It stands on case_text, which reads the texts, and on utm_cli, whose call `utm_twin` it makes. Each line that is not met
//! is printed, and at the end of each text how many lines of it were wrong. What must be printed is in `stdout`, so
//! that the gate fails where a line is not met. The last text is wrong on purpose: a wrong line is seen.
#![tactic(auto)]

use carry_cli::{There, backup, backup_of, carry};
use case_text::{Cases, Program};
use kd_device::{MemDevice, MemRoom, MemTwin};
use std::alloc::{AllocError, Global};
use std::{env, fs};
use utm_cli::utm_twin;

/// The status for want of memory.
const OUT_OF_MEMORY: u8 = 7;

/// The program `utm`; or `carry`, where that is the first word, with the words behind it.
struct Utm;

// The words behind the first one.
fn behind(alloc: Global, words: &[String]) -> Result<Vec<String>, AllocError> {
    let mut rest = Vec::new(alloc);
    for word in words.iter().skip(1) {
        rest.push(word.clone()?)?;
    }
    Ok(rest)
}

// A call of `carry`, or one that backs up to the device.
fn carry_or_back_up(
    alloc: Global,
    words: &Vec<String>,
    room: &mut MemRoom,
    twin: &mut MemTwin,
    to: &mut MemDevice,
) -> u8 {
    let there = There {
        first: true,
        second: true,
    };
    match backup_of(words) {
        Some(_) => backup(alloc, words, room, twin, to).code,
        None => carry(alloc, words, room, twin, there).code,
    }
}

fn call_carry(
    alloc: Global,
    words: &[String],
    room: &mut MemRoom,
    twin: &mut MemTwin,
    to: &mut MemDevice,
) -> u8 {
    match behind(alloc, words) {
        Ok(words) => carry_or_back_up(alloc, &words, room, twin, to),
        Err(_) => OUT_OF_MEMORY,
    }
}

impl Program for Utm {
    fn call(
        alloc: Global,
        words: &Vec<String>,
        room: &mut MemRoom,
        twin: &mut MemTwin,
        backup: &mut MemDevice,
    ) -> u8 {
        match words.first() {
            Some(word) if word.as_bytes() == b"carry".as_slice() => {
                call_carry(alloc, words, room, twin, backup)
            }
            _ => utm_twin(alloc, words, room, twin).code,
        }
    }
}

// Tries the lines of a text, and prints what is wrong in it.
fn try_text(rt: &HostRuntime, cases: &mut Cases, name: &str) -> anyhow::Result<()> {
    let alloc = rt.alloc();
    let text = fs::read_to_string(rt, name)?;
    for line in text.as_str().lines() {
        if let Some(said) = cases.line::<Utm>(alloc, line)? {
            println!(rt; "{name}, {said}")?;
        }
    }
    if let Some(said) = cases.end(alloc)? {
        println!(rt; "{name}, {said}")?;
    }
    println!(rt; "{name}: {} wrong", cases.take_wrong())?;
    Ok(())
}

// Tries all texts that the words name.
fn try_texts(rt: &HostRuntime, cases: &mut Cases) -> anyhow::Result<()> {
    for name in env::args(rt)?.skip(1) {
        try_text(rt, cases, name.as_str())?;
    }
    eprintln!(rt; "{} cases, {} calls", cases.cases(), cases.calls())?;
    Ok(())
}

// The cases are lent, so that one function alone drops them.
fn main(rt: HostRuntime) -> anyhow::Result<()> {
    let mut cases = Cases::new(rt.alloc());
    try_texts(&rt, &mut cases)
}
