//! The files of the current folder, of which a KDCFILE need not be there.
ghost use Rattle.kd_host.specs.Silent.{room_of};

use kd_device::{DeviceError, Room};
use kd_host::FolderRoom;
use std::alloc::Global;
use std::fs;
use std::io::ErrorKind;
use std::marker::Model;
use std::rt::Files;

/// The files of the current folder. A KDCFILE that is not there is read as an empty one. It tells nothing of the texts.
#[derive(Drop)]
pub(crate) struct LabRoom<'a, R: Files + Eprint> {
    rt: &'a R,
    files: FolderRoom<'a, R>,
}

impl<'a, R: Files + Eprint> Model for LabRoom<'a, R> {
    ghost use Rattle.std.specs.Prelude.{ℕ};

    ghost Value = { ℕ };

    ghost view = { λ r. r.files };
}

impl<'a, R: Files + Eprint> LabRoom<'a, R> {
    pub(crate) fn new(rt: &'a R) -> LabRoom<'a, R> {
        LabRoom {
            rt,
            files: FolderRoom::new(rt, "lab"),
        }
    }

    // Whether this is the name of a KDCFILE, and no such file is there.
    fn is_missing(&self, name: &[u8]) -> bool {
        if !name.ends_with(b".KDCA") && !name.ends_with(b".KDCB") {
            return false;
        }
        let Ok(path) = str::from_utf8(name) else {
            return false;
        };
        match fs::open(self.rt, path) {
            Ok(_) => false,
            Err(error) => error.kind() == ErrorKind::NotFound,
        }
    }
}

impl<'a, R: Files + Eprint> Room for LabRoom<'a, R> {
    ghost room = { room_of };

    fn read(&mut self, alloc: Global, name: &Vec<u8>, limit: u64) -> Result<Vec<u8>, DeviceError> {
        if self.is_missing(name) {
            return Ok(Vec::new(alloc));
        }
        self.files.read(alloc, name, limit)
    }

    ghost sure_tells = { λ r sure. sure };
}
