//! Which names and lengths a generation allows.
ghost use Rattle.std.specs.Prelude.{◌≡◌, length, nat_le};
ghost use Rattle.laws_of_states.specs.Suits.{fits_content, fits_message, has_kind, is_lterm, is_user};

use application_types::generation::Generation;
use kd_base::{Bytes, LONGEST_CONTENT, Name};

/// The user is declared.
pub(crate) fn is_user(generation: &Generation, name: Name) -> bool
    ensures { result ≡ is_user generation.now name }
{
    generation.user(name).is_some()
}

/// The LTERM is declared.
pub(crate) fn is_lterm(generation: &Generation, name: Name) -> bool
    ensures { result ≡ is_lterm generation.now name }
{
    generation.lterm(name).is_some()
}

/// The TAC is declared, and one of this kind of service.
pub(crate) fn has_kind(generation: &Generation, tac: Name, asynchronous: bool) -> bool
    ensures { result ≡ has_kind generation.now tac asynchronous }
{
    match generation.tac(tac) {
        Some(entry) => entry.asynchronous == asynchronous,
        None => false,
    }
}

/// No content of an area is longer.
pub(crate) fn fits_content(content: &Bytes) -> bool
    ensures { result ≡ fits_content content.now }
{
    content.len() <= LONGEST_CONTENT
}

/// At most NB bytes.
pub(crate) fn fits_message(generation: &Generation, message: &Bytes) -> bool
    ensures { result ≡ fits_message generation.now message.now }
{
    message.len() as u64 <= u64::from(generation.max().nb)
}
