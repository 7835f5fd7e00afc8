//! What a write changes in the tables.
ghost use Rattle.std.specs.Prelude.{◌≡◌, IfOk, Some};
ghost use Rattle.abstract_monitor.specs.Endings.{area_change};

use kd_base::{Bytes, OutOfMemory};
use kdcs_types::{Area, Change, Row};

/// The change by a write of this content, or by a deletion. A block with no bytes has no row.
pub(crate) fn area_change(area: &Area, content: &Option<Bytes>) -> Result<Change, OutOfMemory>
    ensures { IfOk result (λ change. change ≡ area_change area.now content.now) }
{
    match content {
        Some(content) => content_change(area, content),
        None => Ok(Change::Remove(area.key())),
    }
}

fn content_change(area: &Area, content: &Bytes) -> Result<Change, OutOfMemory>
    ensures { IfOk result (λ change. change ≡ area_change area.now (Some content.now)) }
{
    match area {
        Area::Gssb(name) => Ok(Change::Set(Row::Gssb(*name, content.clone()?))),
        Area::Tls(_, _) | Area::Uls(_, _) if content.is_empty() => Ok(Change::Remove(area.key())),
        Area::Tls(block, lterm) => Ok(Change::Set(Row::Tls(*block, *lterm, content.clone()?))),
        Area::Uls(block, user) => Ok(Change::Set(Row::Uls(*block, *user, content.clone()?))),
    }
}
