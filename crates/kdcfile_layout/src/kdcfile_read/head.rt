//! What the first bytes of a file say, up to the byte that selects an image.
ghost use Rattle.std.specs.Prelude.{◌≡◌, ◌≤◌, length, IfSome};
ghost use Rattle.kd_records.specs.Charge.{IsBlockSize};
ghost use Rattle.kdcfile_layout.specs.{Fields.{AreBytes}, Layout.{root_place}};
ghost use Rattle.kdcfile_layout.specs.Reading.{is_block_size, head_of};

use crate::u32_in;

/// The length of the first bytes, with the selector after them.
pub const FRONT_LEN: usize = 4097;

/// The block size of a file in bytes, and whether image B is selected.
#[derive(Clone, Copy)]
pub struct Head {
    pub blksize: u32,
    pub second: bool,
}

impl Head {
    /// Where the root of the selected image is, in bytes from the beginning of the file.
    pub fn root_place(self) -> u64
        ensures { result ≡ root_place self.second }
    {
        if self.second { 16_384 } else { 8_192 }
    }
}

fn is_block_size(blksize: u32) -> bool
    ensures { result ≡ is_block_size blksize }
{
    blksize == 2048 || blksize == 4096 || blksize == 8192
}

/// The head of a file that begins so, where it is one.
pub fn head_of(front: &[u8]) -> Option<Head>
    ensures value { result ≡ head_of front.now }
    ensures block { IfSome result (λ h. IsBlockSize h.blksize) }
    ensures bytes { AreBytes front.now }
{
    if front.len() < FRONT_LEN || &front[..9] != b"KUTMKDCF\x02".as_slice() {
        return None;
    }
    let blksize = u32_in(front, 9);
    if !is_block_size(blksize) {
        return None;
    }
    Some(Head {
        blksize,
        second: front[4096] % 2 == 1,
    })
}
