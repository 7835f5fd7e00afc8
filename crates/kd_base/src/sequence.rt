//! Lists of items.
ghost use Rattle.std.specs.Prelude.{◌≡◌, ◌↔◌, [], ◌∷◌, ◌++◌, IsTrue, length, OnOk, OnErr};

use crate::bytes::Bytes;
use crate::memory::OutOfMemory;
use crate::name::Name;
use std::alloc::{AllocError, Global};
use std::marker::Model;

/// Items in their order, on the heap. Contracts see the list.
#[derive(Drop)]
pub struct Sequence<T> {
    pub(crate) items: Vec<T>,
}

impl<T> Model for Sequence<T> {
    ghost use Rattle.std.specs.Prelude.{List};

    ghost Value = { List T };

    ghost view = { λ s. s.items.items };
}

impl<T: Drop> Sequence<T> {
    /// No items. It takes no memory.
    pub fn new(alloc: Global) -> Sequence<T>
        ensures { result ≡ [] }
    {
        Sequence {
            items: Vec::new(alloc),
        }
    }

    /// The items of a `Vec`, which takes no memory.
    pub fn from_vec(items: Vec<T>) -> Sequence<T>
        ensures { result ≡ items.items }
    {
        Sequence { items }
    }

    /// The `Vec` of these items, which takes no memory.
    pub fn into_vec(self) -> Vec<T>
        ensures { result.items ≡ self }
    {
        self.items
    }

    /// The items, without a copy.
    pub fn as_slice(&self) -> &[T]
        ensures { result.now ≡ self.now }
    {
        self.items.as_slice()
    }

    /// How many items there are.
    pub fn len(&self) -> usize
        ensures { result ≡ length self.now }
    {
        self.items.len()
    }

    pub fn is_empty(&self) -> bool
        ensures { IsTrue result ↔ (self.now ≡ []) }
    {
        self.items.is_empty()
    }

    /// Adds an item at the end, or changes nothing.
    pub fn push(&mut self, item: T) -> Result<(), OutOfMemory>
        ensures ok { OnOk result (self.new ≡ self.old ++ item ∷ []) }
        ensures err { OnErr result (self.new ≡ self.old) }
    {
        Ok(self.items.push(item)?)
    }
}

impl Clone for Sequence<Bytes> {
    ghost is_clone = { λ items copy. copy ≡ items };

    fn clone(&self) -> Result<Sequence<Bytes>, AllocError> {
        Ok(Sequence {
            items: self.items.clone()?,
        })
    }
}

impl Clone for Sequence<(Name, Bytes)> {
    ghost is_clone = { λ items copy. copy ≡ items };

    fn clone(&self) -> Result<Sequence<(Name, Bytes)>, AllocError> {
        Ok(Sequence {
            items: self.items.clone()?,
        })
    }
}
