//! The parts of a service in an open transaction.
ghost use Rattle.std.specs.Prelude.{◌≡◌, ◌≤◌, ◌↔◌, [], ◌∷◌, ◌++◌, drop, false, length, slice_get, sum_by, IfErr, IsTrue, OnErr, OnOk};
ghost use Rattle.abstract_monitor.specs.Calls.{fits_one_more, has_message};
ghost use Rattle.service_parts.specs.{declared.message_area.error.PutError.TheVariants.{TooLong}, MessageParts.{MessageParts}};

use crate::message_area::error::PutError;
use kd_base::Bytes;
use kdcs_types::Parts;
use std::alloc::Global;
use std::marker::Model;
use std::mem;

// How many parts a message may have.
const MOST_PARTS: usize = 16;

/// The message parts that a service may still read, the parts that it has put, and how many bytes these may have together:
/// NB. Contracts see the two lists and the number.
pub struct MessageArea {
    unread: Vec<Bytes>,
    put: Parts,
    // How many bytes the parts put have together.
    used: usize,
    nb: u32,
    alloc: Global,
}

impl Drop for MessageArea {
    fn drop(self) {
        let MessageArea {
            unread,
            put,
            used,
            nb,
            alloc,
        } = self;
        let _ = unread;
        let _ = put;
        let _ = used;
        let _ = nb;
        let _ = alloc;
    }
}

impl Model for MessageArea {
    ghost use Rattle.std.specs.Prelude.{◌≡◌, ◌≤◌, ◌<◌, ◌^◌, length, sum_by};
    ghost use Rattle.service_parts.specs.MessageParts.{MessageParts};

    ghost Value = { MessageParts };

    ghost view = { λ a. record { unread = a.unread.items; parts = a.put; nb = a.nb } };

    ghost invariant = { λ a. (a.used ≡ sum_by length a.put) × (a.used ≤ a.nb) × (length a.put ≤ 16) };
}

impl MessageArea {
    /// An area with these parts to read and none put, which may have `nb` bytes together.
    pub fn new(alloc: Global, handed: Parts, nb: u32) -> MessageArea
        ensures { result ≡ record { unread = handed; parts = []; nb = nb } }
    {
        MessageArea {
            unread: handed.into_vec(),
            put: Parts::new(alloc),
            used: 0,
            nb,
            alloc,
        }
    }

    /// The next part to read, `None` where none is left (K01). It takes no memory.
    pub fn get(&mut self) -> Option<Bytes>
        ensures next { result ≡ slice_get self.old.unread 0 }
        ensures rest { self.new ≡ record self.old { unread = drop 1 self.old.unread } }
    {
        if self.unread.is_empty() {
            return None;
        }
        Some(self.unread.remove(0))
    }

    /// Puts a part, or changes nothing. `TooLong` (E12) exactly where there are 16 parts already, or the parts have more
    /// than NB bytes with this one.
    pub fn put(&mut self, part: Bytes) -> Result<(), PutError>
        ensures ok { OnOk result (self.new ≡ record self.old { parts = self.old.parts ++ part ∷ [] }) }
        ensures fits { OnOk result (IsTrue (fits_one_more self.old.nb self.old.parts part)) }
        ensures too_long { (result ≡ Err TooLong) ↔ (fits_one_more self.old.nb self.old.parts part ≡ false) }
        ensures err { OnErr result (self.new ≡ self.old) }
    {
        let length = part.len();
        if length > self.nb as usize - self.used || self.put.as_slice().len() >= MOST_PARTS {
            return Err(PutError::TooLong);
        }
        self.put.push(part)?;
        self.used += length;
        Ok(())
    }

    /// The parts put, in order. It takes no memory.
    pub fn parts(&self) -> &[Bytes]
        ensures parts { result.now ≡ self.now.parts }
        ensures few { length result.now ≤ 16 }
        ensures short { sum_by length result.now ≤ self.now.nb }
    {
        self.put.as_slice()
    }

    /// At least one part was put; a part may be empty. It takes no memory.
    pub fn has_message(&self) -> bool
        ensures { result ≡ has_message self.now.parts }
    {
        !self.put.as_slice().is_empty()
    }

    /// Takes the parts put out of the area. What is still to be read stays. It takes no memory.
    pub fn take(&mut self) -> Parts
        ensures parts { result ≡ self.old.parts }
        ensures taken { self.new ≡ record self.old { parts = [] } }
    {
        self.used = 0;
        mem::replace(&mut self.put, Parts::new(self.alloc))
    }

    /// Drops the parts put. What is still to be read stays. It takes no memory.
    pub fn clear(&mut self)
        ensures { self.new ≡ record self.old { parts = [] } }
    {
        let _dropped = self.take();
    }
}
