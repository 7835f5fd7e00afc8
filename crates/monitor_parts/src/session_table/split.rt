//! Bytes parted at the first byte of a kind.
ghost use Rattle.std.specs.{Prelude.{◌≡◌}, Option.{option_copied}};
ghost use Rattle.abstract_monitor.specs.Sessions.{after_word, split_at};

use std::marker::Model;

/// The bytes before the first byte of a kind, and those after it, if it is there.
#[derive(Drop)]
pub struct Split<'a> {
    word: &'a [u8],
    rest: Option<&'a [u8]>,
}

impl<'a> Model for Split<'a> {
    ghost use Rattle.std.specs.Option.{option_copied};
    ghost use Rattle.abstract_monitor.specs.Sessions.{Split as Parted};

    ghost Value = { Parted };

    ghost view = { λ s. record { word = s.word.now; rest = option_copied s.rest } };
}

impl<'a> Split<'a> {
    /// The bytes parted at the first such byte.
    pub fn at(mark: u8, bytes: &'a [u8]) -> Split<'a>
        ensures { result ≡ split_at mark bytes.now }
    {
        for (at, byte) in bytes.iter().enumerate() {
            if *byte == mark {
                return Split {
                    word: &bytes[..at],
                    rest: Some(&bytes[at + 1..]),
                };
            }
        }
        Split {
            word: bytes,
            rest: None,
        }
    }

    pub fn word(&self) -> &'a [u8]
        ensures { result.now ≡ self.now.word }
    {
        self.word
    }

    pub fn rest(&self) -> Option<&'a [u8]>
        ensures { option_copied result ≡ self.now.rest }
    {
        self.rest
    }

    /// What is after the byte, nothing where it is not there.
    pub fn after_word(&self) -> &'a [u8]
        ensures { result.now ≡ after_word self.now }
    {
        match self.rest {
            Some(rest) => rest,
            None => &[],
        }
    }
}
