//! How many pages a record is charged.
ghost use Rattle.std.specs.Prelude.{◌≡◌};
ghost use Rattle.kd_records.specs.Charge.{IsBlockSize, charge_of};

/// The pages that a value of this many bytes is charged, in blocks of `blksize` bytes. It takes no memory.
pub fn charge(length: u64, blksize: u32) -> u64
    requires { IsBlockSize blksize }
    ensures { result ≡ charge_of blksize length }
{
    let payload = u64::from(blksize) - 48;
    length.div_ceil(payload).max(1)
}
