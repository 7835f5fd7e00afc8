//! How names are hashed.
ghost use Rattle.std.specs.Prelude.{◌≡◌, length};
ghost use Rattle.std.specs.Int.{w64, from_le_bytes};
ghost use Rattle.application_types.specs.Hashing.{mixed};

use std::hash::{BuildHasher, DefaultHasher, Hasher};

/// Makes the hashers of a generation's tables.
///
/// Whoever writes a KDCDEF text picks its names. So the hash is keyed by all statements of the text together: which names
/// fall together is not known before the last one is chosen, and another one changes it.
///
/// SipHash draws the key from the text, two numbers of 128 bits, and a name costs a product, a sum and a shift by it
/// (multiply-shift). Under keys drawn at random the hashes of two names of at most 8 bytes are independent of one
/// another, and each number is as likely: so no choice of names makes more of them fall together than chance does. That
/// the key is as good as one drawn at random is believed of SipHash, not proved. Who tries out many texts may find one
/// in which some do.
#[derive(Clone, Copy)]
pub struct NameHashing {
    initial: NameHasher,
}

/// Hashes 8 bytes, as a name is fed, as one number, and of others each byte.
#[derive(Clone, Copy)]
pub struct NameHasher {
    multiplier: u128,
    addend: u128,
    state: u64,
}

// A number that the text determines, and another one for another place.
fn drawn(text: DefaultHasher, place: u64) -> u64 {
    let mut hasher = text;
    hasher.write_u64(place);
    hasher.finish()
}

fn drawn_wide(text: DefaultHasher, place: u64) -> u128 {
    (drawn(text, place) as u128) << 64 | drawn(text, !place) as u128
}

impl NameHashing {
    /// The hashing that is keyed by these bytes.
    pub fn of(key: &[u8]) -> NameHashing {
        let mut text = DefaultHasher::new();
        text.write(key);
        NameHashing {
            initial: NameHasher {
                multiplier: drawn_wide(text, 0),
                addend: drawn_wide(text, 1),
                state: 0,
            },
        }
    }
}

impl BuildHasher for NameHashing {
    type Hasher = NameHasher;

    ghost build_hasher = { λ s. s.initial };

    fn build_hasher(&self) -> NameHasher {
        self.initial
    }
}

// The 8 bytes as one number, the lowest first.
fn word_of(bytes: &[u8]) -> u64
    requires { length bytes.now ≡ 8 }
    ensures { result ≡ from_le_bytes w64 bytes.now }
{
    u64::from_le_bytes([
        bytes[0], bytes[1], bytes[2], bytes[3], bytes[4], bytes[5], bytes[6], bytes[7],
    ])
}

impl NameHasher {
    fn mix(&mut self, word: u64)
        ensures { self.new ≡ mixed self.old word }
    {
        let product = self.multiplier.wrapping_mul((self.state ^ word) as u128);
        self.state = (product.wrapping_add(self.addend) >> 64) as u64;
    }
}

impl Hasher for NameHasher {
    ghost use Rattle.application_types.specs.Hashing.{written};

    ghost write = { written };

    ghost finish = { λ hasher. hasher.state };

    fn finish(&self) -> u64 {
        self.state
    }

    fn write(&mut self, bytes: &[u8]) {
        if bytes.len() == 8 {
            self.mix(word_of(bytes));
            return;
        }
        for byte in bytes {
            self.mix(*byte as u64);
        }
    }
}
