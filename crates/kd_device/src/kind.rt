//! The calls that a device in memory can be told to fail, and counts.
ghost use Rattle.std.specs.Prelude.{◌≡◌};
ghost use Rattle.kd_device.specs.Count.{raised};

/// A kind of call of a device.
#[derive(Clone, Copy, PartialEq, Eq)]
pub enum CallKind {
    Attach,
    Size,
    Read,
    Write,
    Sync,
    Emit,
}

/// One more, but at the type's end.
pub fn raise(count: u64) -> u64
    ensures { result ≡ raised count }
{
    count.saturating_add(1)
}
