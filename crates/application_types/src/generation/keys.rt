//! The codes that a user or an LTERM has.
ghost use Rattle.std.specs.{Prelude.{◌≡◌}, Option.{option_copied}};
ghost use Rattle.application_types.specs.Generation.{keys_have};

use crate::kdcdef_types::KeySet;
use std::marker::Model;

/// The codes that a user or an LTERM has, as its key set gives them. Contracts see the key set, if there is one.
#[derive(Drop)]
pub struct Keys<'a> {
    set: Option<&'a KeySet>,
}

impl<'a> Model for Keys<'a> {
    ghost use Rattle.std.specs.{Prelude.{Option}, Option.{option_copied}};
    ghost use Rattle.application_types.specs.declared.kdcdef_types.entry.KeySet.{KeySet};

    ghost Value = { Option KeySet };

    ghost view = { λ k. option_copied k.set };
}

impl<'a> Keys<'a> {
    pub(crate) fn of(set: Option<&'a KeySet>) -> Keys<'a>
        ensures { result ≡ option_copied set.entry }
    {
        Keys { set }
    }

    /// Whether this code is among them. It takes no memory.
    pub fn has(&self, code: u16) -> bool
        ensures { result ≡ keys_have self.now code }
    {
        match self.set {
            Some(KeySet::Master) => true,
            Some(KeySet::Codes(codes)) => codes.as_slice().contains(&code),
            None => false,
        }
    }
}
