//! The calls that were reserved.
ghost use Rattle.std.specs.Prelude.{◌≡◌, ◌≤◌, ◌+◌};

/// So many calls of so many bytes together, with no write past `end`, take no memory. No call of this crate takes any, so
/// the numbers are only kept.
pub(crate) struct Spare {
    pub(crate) calls: u64,
    pub(crate) bytes: u64,
    pub(crate) end: u64,
}

impl Drop for Spare {
    fn drop(self) {
        let Spare { calls, bytes, end } = self;
        let _ = calls;
        let _ = bytes;
        let _ = end;
    }
}

impl Spare {
    ghost use Rattle.std.specs.Prelude.{max};

    pub(crate) fn none() -> Spare
        ensures calls { result.calls ≡ 0 }
        ensures bytes { result.bytes ≡ 0 }
        ensures end { result.end ≡ 0 }
    {
        Spare {
            calls: 0,
            bytes: 0,
            end: 0,
        }
    }

    /// At least these from now on.
    pub(crate) fn reserve(&mut self, calls: u64, bytes: u64, end: u64)
        ensures calls { self.new.calls ≡ max self.old.calls calls }
        ensures bytes { self.new.bytes ≡ max self.old.bytes bytes }
        ensures end { self.new.end ≡ max self.old.end end }
    {
        self.calls = self.calls.max(calls);
        self.bytes = self.bytes.max(bytes);
        self.end = self.end.max(end);
    }

    /// One call of so many bytes.
    pub(crate) fn spend(&mut self, bytes: u64)
        requires calls { 1 ≤ self.old.calls }
        requires bytes { bytes ≤ self.old.bytes }
        ensures calls { self.new.calls + 1 ≡ self.old.calls }
        ensures bytes { self.new.bytes + bytes ≡ self.old.bytes }
        ensures end { self.new.end ≡ self.old.end }
    {
        self.calls -= 1;
        self.bytes -= bytes;
    }
}
