//! The files of the current folder as texts.
ghost use Rattle.std.specs.Prelude.{◌≡◌, ◌≤◌, false, IfOk, vec_len};
ghost use Rattle.kd_host.specs.Silent.{room_of};

use crate::count::counted;
use kd_base::OutOfMemory;
use kd_device::{DeviceError, Failed, Room};
use std::alloc::Global;
use std::io::{ErrorKind, Read};
use std::marker::Model;
use std::rt::Files;
use std::{fs, io};

/// The files of the current folder. It tells nothing of them, and is never sure that a read succeeds.
#[derive(Drop)]
pub struct FolderRoom<'a, R: Files + Eprint> {
    rt: &'a R,
    /// The name of the program, which stands before what is said of a fault.
    program: &'static str,
    faults: u64,
}

impl<'a, R: Files + Eprint> Model for FolderRoom<'a, R> {
    ghost use Rattle.std.specs.Prelude.{ℕ};

    ghost Value = { ℕ };

    ghost view = { λ r. r.faults };
}

impl<'a, R: Files + Eprint> FolderRoom<'a, R> {
    /// The files of the current folder, for a program of this name, with which a line about a fault begins.
    pub fn new(rt: &'a R, program: &'static str) -> FolderRoom<'a, R>
        ensures faults { (room_of result).faults ≡ 0 }
        ensures told { (room_of result).told ≡ false }
        ensures sure { (room_of result).sure ≡ false }
    {
        FolderRoom {
            rt,
            program,
            faults: 0,
        }
    }
}

/// So many bytes are read at once.
const PIECE_LEN: usize = 8192;

// The bytes that are left, or so many of them.
fn read_up_to<F: Read>(
    alloc: Global,
    file: &mut F,
    most: u64,
) -> Result<io::Result<Vec<u8>>, OutOfMemory>
    ensures { IfOk result (λ found. IfOk found (λ text. vec_len text ≤ most)) }
{
    let mut text = Vec::new(alloc);
    let mut piece = [0; PIECE_LEN];
    while (text.len() as u64) < most {
        let wanted = (most - text.len() as u64).min(PIECE_LEN as u64) as usize;
        match file.read(&mut piece[..wanted]) {
            Ok(0) => break,
            Ok(n) => text.extend_from_slice(&piece[..n])?,
            Err(error) => return Ok(Err(error)),
        }
    }
    Ok(Ok(text))
}

fn read_file<R: Files>(
    rt: &R,
    alloc: Global,
    name: &[u8],
    most: u64,
) -> Result<io::Result<Vec<u8>>, OutOfMemory>
    ensures { IfOk result (λ found. IfOk found (λ text. vec_len text ≤ most)) }
{
    let Ok(path) = str::from_utf8(name) else {
        return Ok(Err(io::Error::from(ErrorKind::InvalidInput)));
    };
    match fs::open(rt, path) {
        Ok(mut file) => read_up_to(alloc, &mut file, most),
        Err(error) => Ok(Err(error)),
    }
}

impl<'a, R: Files + Eprint> Room for FolderRoom<'a, R> {
    ghost room = { room_of };

    fn read(&mut self, alloc: Global, name: &Vec<u8>, limit: u64) -> Result<Vec<u8>, DeviceError> {
        let text = read_file(self.rt, alloc, name, limit.saturating_add(1))?;
        let file = str::from_utf8(name).unwrap_or_default();
        match counted(self.rt, self.program, file, "read", text, &mut self.faults) {
            Ok(text) => Ok(text),
            Err(Failed) => Err(DeviceError::Failed),
        }
    }

    ghost sure_tells = { λ r sure. sure };
}
