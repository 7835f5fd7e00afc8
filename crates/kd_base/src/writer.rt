//! Big-endian fields, put after the bytes that are there. Each call changes nothing where it fails.
ghost use Rattle.std.specs.{Prelude.{◌≡◌, ◌<◌, ◌^◌, ◌++◌, ◌∷◌, [], List, ℕ, length, is_ok, if◌then◌else◌, OnErr}, Int.{w32, w64, to_be_bytes}};
ghost use Rattle.kd_base.specs.{Field.{list}, Text.{padded}};

use crate::memory::OutOfMemory;
use crate::name::Name;
use crate::sequence::Sequence;

impl Sequence<u8> {
    /// Four bytes.
    pub fn put_u32(&mut self, v: u32) -> Result<(), OutOfMemory>
        ensures { self.new ≡ (if is_ok result then self.old ++ to_be_bytes w32 v else self.old) }
    {
        self.items.extend_from_slice(&v.to_be_bytes())?;
        Ok(())
    }

    /// Eight bytes.
    pub fn put_u64(&mut self, v: u64) -> Result<(), OutOfMemory>
        ensures { self.new ≡ (if is_ok result then self.old ++ to_be_bytes w64 v else self.old) }
    {
        self.items.extend_from_slice(&v.to_be_bytes())?;
        Ok(())
    }

    /// The name in eight bytes, filled with spaces on the right.
    pub fn put_name(&mut self, v: Name) -> Result<(), OutOfMemory>
        ensures { self.new ≡ (if is_ok result then self.old ++ padded v else self.old) }
    {
        self.items.extend_from_slice(&v.padded())?;
        Ok(())
    }

    /// The length in four bytes, and the bytes.
    pub fn put_list(&mut self, v: &[u8]) -> Result<(), OutOfMemory>
        requires { length v.now < 2 ^ 32 }
        ensures { self.new ≡ (if is_ok result then self.old ++ list v.now else self.old) }
    {
        let before = self.items.len();
        self.items
            .extend_from_slice(&(v.len() as u32).to_be_bytes())?;
        match self.items.extend_from_slice(v) {
            Ok(()) => Ok(()),
            Err(_) => {
                self.items.truncate(before);
                Err(OutOfMemory)
            }
        }
    }
}
