//! The keys of rows as keys of records.
ghost use Rattle.std.specs.Prelude.{◌≡◌, ◌≤◌, ◌++◌, ◌∷◌, [], length};
ghost use Rattle.record_codec.specs.Values.{filled, key_bytes, record_key};

use kd_records::RecordKey;
use kdcs_types::{Key, ServiceId};

// Filled with zero bytes to 24.
fn filled(bytes: &[u8]) -> [u8; 24]
    requires { length bytes.now ≤ 24 }
    ensures { result ≡ filled bytes.now }
{
    let mut cells = [0; 24];
    cells[..bytes.len()].copy_from_slice(bytes);
    cells
}

fn joined(front: [u8; 8], behind: [u8; 8]) -> [u8; 16]
    ensures { result ≡ front ++ behind }
{
    let [a, b, c, d, e, f, g, h] = front;
    let [i, j, k, l, m, n, o, p] = behind;
    [a, b, c, d, e, f, g, h, i, j, k, l, m, n, o, p]
}

fn lettered(letter: u8, behind: [u8; 8]) -> [u8; 9]
    ensures { result ≡ letter ∷ behind }
{
    let mut cells = [letter; 9];
    cells[1..].copy_from_slice(&behind);
    cells
}

fn filled_key(key: &Key) -> [u8; 24]
    ensures { result ≡ filled (key_bytes key.now) }
{
    match key {
        Key::Gssb(name) => filled(&name.padded()),
        Key::Tls(block, lterm) => filled(&joined(block.padded(), lterm.padded())),
        Key::Uls(block, user) => filled(&joined(block.padded(), user.padded())),
        Key::Service(ServiceId::Dialogue(user)) => filled(&lettered(b'D', user.padded())),
        Key::Service(ServiceId::Asynchronous(number)) => {
            filled(&lettered(b'A', number.to_be_bytes()))
        }
        Key::Job(number) => filled(&number.to_be_bytes()),
        Key::Shown(lterm) => filled(&lterm.padded()),
    }
}

/// The key of the record of a row with this key. It takes no memory.
pub fn record_key(key: &Key) -> RecordKey
    ensures { result ≡ record_key key.now }
{
    RecordKey {
        kind: key.kind(),
        bytes: filled_key(key),
    }
}
