//! How many pages a file has.
ghost use Rattle.std.specs.Prelude.{◌≡◌, ◌≤◌, ◌<◌, ◌^◌};
ghost use Rattle.kd_records.specs.Charge.{IsBlockSize};
ghost use Rattle.kdcfile_layout.specs.Layout.{directory_pages as directory_pages_of, page_count as page_count_of};

/// How many pages a directory has, in a file with blocks of BLKSIZE bytes and PGPOOL pages for records.
pub fn directory_pages(blksize: u32, pgpool: u32) -> u32
    requires size { IsBlockSize blksize }
    requires pool { pgpool ≤ 30000 }
    ensures value { result ≡ directory_pages_of blksize pgpool }
    ensures bound { result ≤ 469 }
{
    let slots = blksize / 32;
    (pgpool + (slots - 1)) / slots
}

/// How many pages there are, of records and of both directories.
pub fn page_count(blksize: u32, pgpool: u32) -> u32
    requires size { IsBlockSize blksize }
    requires pool { pgpool ≤ 30000 }
    ensures value { result ≡ page_count_of blksize pgpool }
    ensures bound { result < 2 ^ 16 }
{
    2 * (pgpool + directory_pages(blksize, pgpool))
}
