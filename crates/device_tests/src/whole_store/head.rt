//! What the first bytes of a file say, up to the byte that selects an image.
ghost use Rattle.std.specs.Prelude.{◌≡◌, ◌+◌, ◌*◌, ◌≤◌, length, IfSome};
ghost use Rattle.std.specs.Int.{w32, w64};
ghost use Rattle.kdcfile_layout.specs.Fields.{AreBytes, number};
ghost use Rattle.device_tests.specs.Reading.{HasSizes, has_sizes, head_of, size_of, place_of};

use kdcfile_layout::u32_in;

/// The length of the first bytes, with the selector after them.
pub const FRONT_LEN: usize = 4097;

/// The sizes of a file, and whether image B is selected.
#[derive(Clone, Copy)]
pub struct Head {
    pub blksize: u32,
    pub pages: u32,
    pub second: bool,
}

impl Head {
    /// How many bytes an image may have.
    pub fn image_size(self) -> usize
        requires { HasSizes self.blksize self.pages }
        ensures { result ≡ size_of self }
    {
        8192 + self.pages as usize * self.blksize as usize
    }

    /// Where the selected image is.
    pub fn place(self) -> u64
        requires { HasSizes self.blksize self.pages }
        ensures { result ≡ place_of self }
    {
        if self.second {
            8192 + self.image_size() as u64
        } else {
            8192
        }
    }
}

fn has_sizes(blksize: u32, pages: u32) -> bool
    ensures { result ≡ has_sizes blksize pages }
{
    (blksize == 2048 || blksize == 4096 || blksize == 8192) && 16 <= pages && pages <= 30_000
}

/// The head of a file that begins so, where it is one.
pub fn head_of(front: &[u8]) -> Option<Head>
    ensures value { result ≡ head_of front.now }
    ensures sizes { IfSome result (λ h. HasSizes h.blksize h.pages) }
    ensures bytes { AreBytes front.now }
{
    if front.len() < FRONT_LEN || &front[..9] != b"KUTMKDCF\x01".as_slice() {
        return None;
    }
    let blksize = u32_in(front, 9);
    let pages = u32_in(front, 13);
    if !has_sizes(blksize, pages) {
        return None;
    }
    Some(Head {
        blksize,
        pages,
        second: front[4096] % 2 == 1,
    })
}
