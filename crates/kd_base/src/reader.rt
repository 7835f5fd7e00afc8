//! Big-endian fields, read from the front of some bytes.
ghost use Rattle.std.specs.{Prelude.{◌≡◌, ◌++◌, List, ℕ, length, IfOk, IfSome, OnErr, Some}, Int.{w8, w32, w64}};
ghost use Rattle.kd_base.specs.{Field.{number_at, after_number, list_at, after_list, name_at, after_name}, Text.{IsName, padded}};

use crate::bytes::Bytes;
use crate::memory::OutOfMemory;
use crate::name::Name;
use std::alloc::Global;
use std::marker::Model;

/// Some bytes, of which fields are read from the front. Contracts see the bytes that are left.
#[derive(Drop)]
pub struct Reader<'a> {
    left: &'a [u8],
}

impl<'a> Model for Reader<'a> {
    ghost use Rattle.std.specs.Prelude.{List, ℕ};

    ghost Value = { List ℕ };

    ghost view = { λ r. r.left.now };
}

impl<'a> Reader<'a> {
    pub fn new(bytes: &'a [u8]) -> Self
        ensures { result ≡ bytes.now }
    {
        Reader { left: bytes }
    }

    /// How many bytes are left.
    pub fn rest(&self) -> usize
        ensures { result ≡ length self.now }
    {
        self.left.len()
    }

    /// The next byte.
    pub fn u8_at(&mut self) -> Option<u8>
        ensures value { result ≡ number_at w8 self.old }
        ensures left { self.new ≡ after_number w8 self.old }
    {
        if self.left.len() < 1 {
            return None;
        }
        let (front, rest) = self.left.split_at(1);
        self.left = rest;
        Some(front[0])
    }

    /// Four bytes as a number.
    pub fn u32_at(&mut self) -> Option<u32>
        ensures value { result ≡ number_at w32 self.old }
        ensures left { self.new ≡ after_number w32 self.old }
    {
        if self.left.len() < 4 {
            return None;
        }
        let (front, rest) = self.left.split_at(4);
        self.left = rest;
        Some(u32::from_be_bytes([front[0], front[1], front[2], front[3]]))
    }

    /// Eight bytes as a number.
    pub fn u64_at(&mut self) -> Option<u64>
        ensures value { result ≡ number_at w64 self.old }
        ensures left { self.new ≡ after_number w64 self.old }
    {
        if self.left.len() < 8 {
            return None;
        }
        let (front, rest) = self.left.split_at(8);
        self.left = rest;
        Some(u64::from_be_bytes([
            front[0], front[1], front[2], front[3], front[4], front[5], front[6], front[7],
        ]))
    }

    /// Eight bytes as a name that is filled with spaces on the right.
    pub fn name_at(&mut self) -> Option<Name>
        ensures value { result ≡ name_at self.old }
        ensures left { self.new ≡ after_name self.old }
        ensures found { IfSome result (λ name. IsName name × (self.old ≡ padded name ++ self.new)) }
        ensures only { (name rest : List ℕ) → IsName name → self.old ≡ padded name ++ rest → result ≡ Some name }
    {
        if self.left.len() < 8 {
            return None;
        }
        let (field, rest) = self.left.split_at(8);
        let name = Name::from_padded(field)?;
        self.left = rest;
        Some(name)
    }

    /// A length of four bytes and so many bytes. `None`, and an error, leave the reader where it was.
    pub fn list_at(&mut self, alloc: Global) -> Result<Option<Bytes>, OutOfMemory>
        ensures value { IfOk result (λ list. list ≡ list_at self.old) }
        ensures left { IfOk result (λ _. self.new ≡ after_list self.old) }
        ensures err { OnErr result (self.new ≡ self.old) }
    {
        let bytes = self.left;
        if bytes.len() < 4 {
            return Ok(None);
        }
        let (front, rest) = bytes.split_at(4);
        let len = u32::from_be_bytes([front[0], front[1], front[2], front[3]]) as usize;
        if rest.len() < len {
            return Ok(None);
        }
        let (list, rest) = rest.split_at(len);
        let list = Bytes::from_slice(alloc, list)?;
        self.left = rest;
        Ok(Some(list))
    }
}
