//! What was read of a file is an image, or it is not one.
ghost use Rattle.std.specs.Prelude.{◌≡◌, ◌*◌, [], List, ℕ, length, IfOk, IfSome, IfNone};
ghost use Rattle.kdcfile_layout.specs.{Layout.{slots_in_page}, Stored.{IsStored}};
ghost use Rattle.kdcfile_layout.specs.Opened.{identity_of, layout_in};
ghost use Rattle.kdcfile_load.specs.{Openings.{IsOpening, directory_length}, Reads.{IsGathering}, Loads.{IsSound, image_with, loaded_with}};

use crate::loading::Loaded;
use crate::marks::pool_of;
use crate::opening::Opening;
use crate::records::Gathering;
use crate::sorting::gather;
use kd_base::OutOfMemory;
use kd_records::Content;
use kdcfile_layout::kdcfile_images::{Image, Root};
use kdcfile_layout::page_count;
use std::alloc::Global;

// The image with this beginning.
fn image_of(opening: Opening) -> Image
    requires { IsOpening opening }
    ensures { result ≡ image_with opening }
{
    let fingerprint = opening.root.fingerprint;
    let root = Root {
        fingerprint,
        clock: opening.root.clock,
        next_job: opening.root.next_job,
        pgpool: opening.root.pgpool,
        directory: opening.directory,
        records: opening.root.records,
    };
    Image::new(opening.head.blksize, root, opening.head.second)
}

/// The image with this beginning and these slots, unless the root says another number of records, a key is in two
/// slots, or a page is not there or is named twice.
pub fn check_image(
    alloc: Global,
    opening: Opening,
    found: Gathering,
) -> Result<Option<Loaded>, OutOfMemory>
    requires opening { IsOpening opening }
    requires gathered { IsGathering opening.head.blksize (directory_length opening * slots_in_page opening.head.blksize) found }
    ensures loaded { IfOk result (λ o. IfSome o (λ l. l ≡ loaded_with opening found)) }
    ensures sound { IfOk result (λ o. IfSome o (λ _. IsSound opening found)) }
    ensures none { IfOk result (λ o. IfNone o (IsSound opening found → ⊥)) }
{
    if found.records.len() != opening.root.records as usize {
        return Ok(None);
    }
    let count = page_count(opening.head.blksize, opening.root.pgpool);
    let directory = opening.directory.as_slice();
    let Some(pool) = pool_of(alloc, count, directory, found.slots.as_slice())? else {
        return Ok(None);
    };
    let Some(items) = gather(found.records) else {
        return Ok(None);
    };
    let content = Content {
        clock: opening.root.clock,
        next_job: opening.root.next_job,
        items,
    };
    Ok(Some(Loaded {
        image: image_of(opening),
        slots: found.slots,
        content,
        pool,
    }))
}
