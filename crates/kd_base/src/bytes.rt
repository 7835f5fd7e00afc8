//! Lists of bytes.
ghost use Rattle.std.specs.Prelude.{◌≡◌, ◌+◌, ◌≤◌, ◌++◌, length, take, drop, replicate, IfOk, OnOk, OnErr, Some, refl};
ghost use Rattle.std.specs.Hash as fed;
ghost use Rattle.std.specs.{Ordering.{nat_cmp}, Cmp.Lexicographic.{slice_cmp, nat_list_cmp_total, texts_ties, texts_po}};

use crate::memory::OutOfMemory;
use crate::sequence::Sequence;
use std::alloc::{AllocError, Global};
use std::cmp::Ordering;
use std::hash::{Hash, Hasher};

/// Bytes in their order, on the heap. Contracts see the list.
pub type Bytes = Sequence<u8>;

impl Sequence<u8> {
    /// A copy of these bytes.
    pub fn from_slice(alloc: Global, bytes: &[u8]) -> Result<Bytes, OutOfMemory>
        ensures { IfOk result (λ b. b ≡ bytes.now) }
    {
        Ok(Bytes::from_vec(Vec::from_slice(alloc, bytes)?))
    }

    /// Adds bytes at the end, or changes nothing.
    pub fn append(&mut self, bytes: &[u8]) -> Result<(), OutOfMemory>
        ensures ok { OnOk result (self.new ≡ self.old ++ bytes.now) }
        ensures err { OnErr result (self.new ≡ self.old) }
    {
        Ok(self.items.extend_from_slice(bytes)?)
    }

    /// Puts bytes over those from a place on. It takes no memory.
    pub fn overwrite(&mut self, at: usize, bytes: &[u8])
        requires { at + length bytes.now ≤ length self.old }
        ensures { self.new ≡ take at self.old ++ bytes.now ++ drop (at + length bytes.now) self.old }
    {
        self.items[at..at + bytes.len()].copy_from_slice(bytes);
    }

    /// Puts so many times this byte over those from a place on. It takes no memory.
    pub fn fill(&mut self, at: usize, count: usize, byte: u8)
        requires { at + count ≤ length self.old }
        ensures { self.new ≡ take at self.old ++ replicate count byte ++ drop (at + count) self.old }
    {
        self.items[at..at + count].fill(byte);
    }
}

impl Clone for Sequence<u8> {
    ghost is_clone = { λ bytes copy. copy ≡ bytes };

    fn clone(&self) -> Result<Bytes, AllocError> {
        Ok(Bytes::from_vec(self.items.clone()?))
    }
}

impl PartialEq for Sequence<u8> {
    ghost use Rattle.std.specs.{Prelude.{◌==◌}, Cmp.Lexicographic.{pointwise}, Cmp.Rules.{comparing}};
    ghost use Rattle.std.proofs.Common.{rules};

    ghost eq = { pointwise ◌==◌ };

    ghost laws = { Prim.search (comparing, rules) };

    fn eq(&self, other: &Bytes) -> bool {
        self.as_slice() == other.as_slice()
    }
}

impl Eq for Sequence<u8> {
    ghost use Rattle.std.proofs.Common.{rules};
    ghost use Rattle.std.specs.Cmp.Rules.{comparing};

    ghost laws = { Prim.search (comparing, rules) };
}

impl PartialOrd for Sequence<u8> {
    ghost partial_cmp = { λ a b. Some (slice_cmp nat_cmp a b) };

    ghost laws = { texts_po };

    fn partial_cmp(&self, other: &Bytes) -> Option<Ordering> {
        Some(self.cmp(other))
    }
}

impl Ord for Sequence<u8> {
    ghost cmp = { slice_cmp nat_cmp };

    ghost total = { nat_list_cmp_total };

    ghost matches_partial_cmp = { λ a b. refl };

    ghost matches_eq = { texts_ties };

    fn cmp(&self, other: &Bytes) -> Ordering {
        self.as_slice().cmp(&other.as_slice())
    }
}

impl Hash for Sequence<u8> {
    ghost use Rattle.std.proofs.Common.{rules};
    ghost use Rattle.std.specs.Cmp.Rules.{hashing};
    ghost use Rattle.std.specs.Hash as fed;

    ghost hash_input = { fed.slice fed.u8 };

    ghost respects_eq = { Prim.search (hashing, rules) };

    fn hash<H: Hasher>(&self, state: &mut H) {
        self.as_slice().hash(state);
    }
}
