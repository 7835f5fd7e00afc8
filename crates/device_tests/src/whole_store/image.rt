//! What is known of a file that was made or loaded: its selected image.
ghost use Rattle.std.specs.Prelude.{◌≡◌, not};
ghost use Rattle.kd_records.specs.Identity.{IsIdentity};
ghost use Rattle.device_tests.specs.Opened.{identity_of};

use kd_records::Records;
use std::marker::Model;

/// What is at the beginning of an image: the fingerprint of the texts, the clock in ticks, the next job number,
/// PGPOOL in pages, and the number of records.
#[derive(Clone, Copy)]
pub struct Root {
    pub fingerprint: [u8; 32],
    pub clock: u64,
    pub next_job: u64,
    pub pgpool: u32,
    pub records: u32,
}

/// The selected image of a file, whose sizes are those that a file may have.
pub struct Image {
    blksize: u32,
    root: Root,
    second: bool,
}

impl Drop for Image {
    fn drop(self) {
        let Image {
            blksize,
            root,
            second,
        } = self;
        let _ = blksize;
        let _ = root;
        let _ = second;
    }
}

impl Model for Image {
    ghost use Rattle.kd_records.specs.Identity.{IsIdentity};
    ghost use Rattle.device_tests.specs.Opened.{Opened, identity_of};

    ghost Value = { Opened };

    ghost view = { λ i. record { blksize = i.blksize; root = i.root; second = i.second } };

    ghost invariant = { λ i. IsIdentity (identity_of (record { blksize = i.blksize; root = i.root; second = i.second })) };
}

impl Image {
    pub fn new(blksize: u32, root: Root, second: bool) -> Image
        requires { IsIdentity (identity_of (record { blksize = blksize; root = root; second = second })) }
        ensures { result ≡ record { blksize = blksize; root = root; second = second } }
    {
        Image {
            blksize,
            root,
            second,
        }
    }

    /// BLKSIZE in bytes.
    pub fn blksize(&self) -> u32
        ensures value { result ≡ self.now.blksize }
        ensures identity { IsIdentity (identity_of self.now) }
    {
        self.blksize
    }

    pub fn root(&self) -> &Root
        ensures value { result.now ≡ self.now.root }
        ensures identity { IsIdentity (identity_of self.now) }
    {
        &self.root
    }

    /// Whether image B is selected.
    pub fn second(&self) -> bool
        ensures { result ≡ self.now.second }
    {
        self.second
    }

    /// From now on the other image is the selected one.
    pub(crate) fn turn(&mut self, root: Root)
        requires { root.pgpool ≡ self.old.root.pgpool }
        ensures { self.new ≡ record self.old { root = root; second = not self.old.second } }
    {
        self.root = root;
        self.second = !self.second;
    }
}

/// What a load gives: the selected image, and its records.
#[derive(Drop)]
pub struct Loaded {
    pub image: Image,
    pub records: Records,
}
