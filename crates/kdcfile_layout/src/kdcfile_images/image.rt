//! What is known of a file that was made or loaded: its selected image.
ghost use Rattle.std.specs.Prelude.{◌≡◌, not};
ghost use Rattle.kdcfile_layout.specs.Opened.{IsOpened};

use crate::page_pool::Pages;
use std::marker::Model;

/// What is at the beginning of an image: the fingerprint of the texts, the clock in ticks, the next job number, PGPOOL
/// in pages, the numbers of the directory's pages in order, and the number of records.
pub struct Root {
    pub fingerprint: [u8; 32],
    pub clock: u64,
    pub next_job: u64,
    pub pgpool: u32,
    pub directory: Pages,
    pub records: u32,
}

impl Drop for Root {
    fn drop(self) {
        let Root {
            fingerprint,
            clock,
            next_job,
            pgpool,
            directory,
            records,
        } = self;
        let _ = fingerprint;
        let _ = clock;
        let _ = next_job;
        let _ = pgpool;
        let _ = directory;
        let _ = records;
    }
}

/// The selected image of a file, whose sizes are those that a file may have.
pub struct Image {
    blksize: u32,
    root: Root,
    second: bool,
}

impl Drop for Image {
    fn drop(self) {
        let Image {
            blksize,
            root,
            second,
        } = self;
        let _ = blksize;
        let _ = root;
        let _ = second;
    }
}

impl Model for Image {
    ghost use Rattle.kdcfile_layout.specs.Opened.{Opened, IsOpened};

    ghost Value = { Opened };

    ghost view = { λ i. record { blksize = i.blksize; root = i.root; second = i.second } };

    ghost invariant = { λ i. IsOpened (record { blksize = i.blksize; root = i.root; second = i.second }) };
}

impl Image {
    /// The image with this root, in a file with blocks of `blksize` bytes; image B where `second` is true.
    pub fn new(blksize: u32, root: Root, second: bool) -> Image
        requires { IsOpened (record { blksize = blksize; root = root; second = second }) }
        ensures { result ≡ record { blksize = blksize; root = root; second = second } }
    {
        Image {
            blksize,
            root,
            second,
        }
    }

    /// BLKSIZE in bytes.
    pub fn blksize(&self) -> u32
        ensures value { result ≡ self.now.blksize }
        ensures opened { IsOpened self.now }
    {
        self.blksize
    }

    /// What is at its beginning.
    pub fn root(&self) -> &Root
        ensures value { result.now ≡ self.now.root }
        ensures opened { IsOpened self.now }
    {
        &self.root
    }

    /// Whether image B is selected.
    pub fn second(&self) -> bool
        ensures { result ≡ self.now.second }
    {
        self.second
    }

    /// From now on the other image is the selected one.
    pub(crate) fn turn(&mut self, root: Root)
        requires { IsOpened (record self.old { root = root; second = not self.old.second }) }
        ensures { self.new ≡ record self.old { root = root; second = not self.old.second } }
    {
        self.root = root;
        self.second = !self.second;
    }
}
