//! Names and numbers in operands.
ghost use Rattle.std.specs.Prelude.{◌≡◌};
ghost use Rattle.abstract_monitor.specs.Calls.{name_in_operand, name_by};
ghost use Rattle.kdcs_calls.specs.{Calling.{is_declared}, Parts.{area_by, named_by}};

use application_types::generation::Generation;
use kd_base::{Bytes, Name, trim_end};
use kdcs_types::{Area, Code};

/// The name in an operand: the bytes without the spaces at the end, where they are one.
pub(crate) fn name_in(operand: &Bytes) -> Option<Name>
    ensures { result ≡ name_in_operand operand.now }
{
    Name::from_bytes(trim_end(operand.as_slice()))
}

/// The name in an operand, if there is an operand.
pub(crate) fn name_if_given(operand: &Option<Bytes>) -> Option<Name>
    ensures { result ≡ name_by operand.now }
{
    match operand {
        Some(operand) => name_in(operand),
        None => None,
    }
}

/// Whose areas a call names.
#[derive(Clone, Copy)]
pub(crate) enum Owner {
    /// The GSSBs.
    All,
    /// The blocks of a user.
    User(Name),
    /// The blocks of an LTERM.
    Lterm(Name),
}

fn named(owner: Owner, name: Name) -> Area
    ensures { result ≡ named_by owner name }
{
    match owner {
        Owner::All => Area::Gssb(name),
        Owner::User(user) => Area::Uls(name, user),
        Owner::Lterm(lterm) => Area::Tls(name, lterm),
    }
}

fn is_declared(generation: &Generation, area: &Area) -> bool
    ensures { result ≡ is_declared generation.now area.now }
{
    match area {
        Area::Gssb(_) => true,
        Area::Tls(block, _) => generation.has_tls(*block),
        Area::Uls(block, _) => generation.has_uls(*block),
    }
}

/// The area of this name; K11 where the operand is no name, K08 where it names a block that is not declared.
pub(crate) fn area_in(generation: &Generation, owner: Owner, operand: &Bytes) -> Result<Area, Code>
    ensures { result ≡ area_by generation.now (named_by owner) (name_in_operand operand.now) }
{
    let Some(name) = name_in(operand) else {
        return Err(Code::K11);
    };
    let area = named(owner, name);
    if is_declared(generation, &area) {
        Ok(area)
    } else {
        Err(Code::K08)
    }
}
