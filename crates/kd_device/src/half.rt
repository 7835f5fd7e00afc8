//! Which of the two.
ghost use Rattle.std.specs.Prelude.{◌≡◌, ◌<◌};
ghost use Rattle.kd_device.specs.Twin.{disk_number};

/// One of the two disks of a twin.
#[derive(Clone, Copy, PartialEq, Eq)]
pub enum Half {
    First,
    Second,
}

impl Half {
    /// Which disk of a memory it is.
    pub(crate) fn number(self) -> usize
        ensures number { result ≡ disk_number self }
        ensures below { result < 2 }
    {
        match self {
            Half::First => 0,
            Half::Second => 1,
        }
    }
}
