//! Which areas suit.
ghost use Rattle.std.specs.{Prelude.{◌≡◌}, List.{list_all}};
ghost use Rattle.laws_of_states.specs.Suits.{gssb_suits, tls_suits, uls_suits};

use crate::names::{fits_content, is_lterm, is_user};
use application_types::generation::Generation;
use kd_base::{Bytes, Name};

/// The content of the GSSB is not too long.
pub fn gssb_suits(row: &(Name, Bytes)) -> bool
    ensures { result ≡ gssb_suits row.now }
{
    fits_content(&row.1)
}

/// No content of a GSSB is too long.
pub(crate) fn gssbs_suit(rows: &[(Name, Bytes)]) -> bool
    ensures { result ≡ list_all gssb_suits rows.now }
{
    rows.iter().all(gssb_suits)
}

/// Block and LTERM are declared, and the content is not too long.
pub fn tls_suits(generation: &Generation, row: &(Name, Name, Bytes)) -> bool
    ensures { result ≡ tls_suits generation.now row.now }
{
    generation.has_tls(row.0) && is_lterm(generation, row.1) && fits_content(&row.2)
}

/// Blocks and LTERMs are declared, and no content is too long.
pub(crate) fn tlss_suit(generation: &Generation, rows: &[(Name, Name, Bytes)]) -> bool
    ensures { result ≡ list_all (tls_suits generation.now) rows.now }
{
    rows.iter().all(|row| tls_suits(generation, row))
}

/// Block and user are declared, and the content is not too long.
pub fn uls_suits(generation: &Generation, row: &(Name, Name, Bytes)) -> bool
    ensures { result ≡ uls_suits generation.now row.now }
{
    generation.has_uls(row.0) && is_user(generation, row.1) && fits_content(&row.2)
}

/// Blocks and users are declared, and no content is too long.
pub(crate) fn ulss_suit(generation: &Generation, rows: &[(Name, Name, Bytes)]) -> bool
    ensures { result ≡ list_all (uls_suits generation.now) rows.now }
{
    rows.iter().all(|row| uls_suits(generation, row))
}
