//! A room of texts in memory, which fails the reads that it is told to fail.
ghost use Rattle.std.specs.Prelude.{◌≡◌, ◌↔◌, ◌+◌, IsTrue, IfOk, OnOk, IsOk, IsSome, IsErrOf, IsSomeAnd, take, option_copied, [], refl};
ghost use Rattle.kd_device.specs.{Count.{raised}, Device.{Rose}, Room.{text_of, SameRoom}, Texts.{Texts, unread, room_of, with_fault, ReadFails}};

use crate::error::DeviceError;
use crate::kind::raise;
use crate::room::Room;
use kd_base::{Bytes, OutOfMemory};
use std::alloc::Global;
use std::marker::Model;

/// Texts by name. Contracts see them, the reads that fail, and how many reads and faults there were.
pub struct MemRoom {
    texts: Vec<(Bytes, Bytes)>,
    failing: Vec<u64>,
    made: u64,
    faults: u64,
}

impl Drop for MemRoom {
    fn drop(self) {
        let MemRoom {
            texts,
            failing,
            made,
            faults,
        } = self;
        let _ = texts;
        let _ = failing;
        let _ = made;
        let _ = faults;
    }
}

impl Model for MemRoom {
    ghost use Rattle.kd_device.specs.Texts.{Texts};

    ghost Value = { Texts };

    ghost view = { λ m. record { texts = m.texts.items; failing = m.failing.items; made = m.made; faults = m.faults } };
}

fn text_named<'a>(texts: &'a [(Bytes, Bytes)], name: &[u8]) -> Option<&'a Bytes>
    ensures { option_copied result ≡ text_of name.now texts.now }
{
    for (key, text) in texts {
        if name == key.as_slice() {
            return Some(text);
        }
    }
    None
}

/// The first `limit + 1` bytes at most.
fn first_part(alloc: Global, text: &[u8], limit: u64) -> Result<Vec<u8>, OutOfMemory>
    ensures { IfOk result (λ part. part.items ≡ take (limit + 1) text.now) }
{
    let count = (limit.saturating_add(1) as usize).min(text.len());
    Ok(text[..count].to_vec(alloc)?)
}

impl MemRoom {
    /// A room of these texts by name, of which the first counts for a name that is there twice. The reads with these
    /// numbers, counted from 1, fail. It takes no memory.
    pub fn new(
        _: Global,
        texts: Vec<(Bytes, Bytes)>,
        failing: Vec<u64>,
    ) -> Result<MemRoom, OutOfMemory>
        ensures made { IsOk result }
        ensures value { IfOk result (λ m. m ≡ unread texts.items failing.items) }
        ensures texts { IfOk result (λ m. (room_of m).texts ≡ texts.items) }
        ensures told { IfOk result (λ m. IsTrue (room_of m).told) }
        ensures sure { IfOk result (λ m. IsTrue (room_of m).sure ↔ (failing.items ≡ [])) }
        ensures faults { IfOk result (λ m. (room_of m).faults ≡ 0) }
    {
        Ok(MemRoom {
            texts,
            failing,
            made: 0,
            faults: 0,
        })
    }

    /// Counts a fault.
    fn fault(&mut self) -> DeviceError
        ensures error { result ≡ DeviceError.Failed }
        ensures counted { self.new ≡ with_fault self.old }
    {
        self.faults = raise(self.faults);
        DeviceError::Failed
    }
}

impl Room for MemRoom {
    ghost room = { room_of };

    fn read(&mut self, alloc: Global, name: &Vec<u8>, limit: u64) -> Result<Vec<u8>, DeviceError>
        ensures value { IfOk result (λ text. IsTrue (room_of self.old).told → IsSomeAnd (text_of name.now.items (room_of self.old).texts) (λ whole. text.items ≡ take (limit + 1) whole)) }
        ensures failed { IsErrOf result DeviceError.Failed → Rose (room_of self.old).faults (room_of self.new).faults }
        ensures fine { OnOk result ((room_of self.new).faults ≡ (room_of self.old).faults) }
        ensures memory { IsErrOf result DeviceError.Memory → (room_of self.new).faults ≡ (room_of self.old).faults }
        ensures sure { IsTrue (room_of self.old).sure → IsSome (text_of name.now.items (room_of self.old).texts) → IsErrOf result DeviceError.Failed → ⊥ }
        ensures same { SameRoom (room_of self.old) (room_of self.new) }
        ensures fails { IsErrOf result DeviceError.Failed ↔ ReadFails name.now.items self.old }
        ensures counted { self.new.made ≡ raised self.old.made }
        ensures failing { self.new.failing ≡ self.old.failing }
    {
        self.made = raise(self.made);
        if self.failing.contains(&self.made) {
            return Err(self.fault());
        }
        match text_named(&self.texts, name.as_slice()) {
            Some(text) => Ok(first_part(alloc, text.as_slice(), limit)?),
            None => Err(self.fault()),
        }
    }

    ghost sure_tells = { λ r sure. refl };
}
