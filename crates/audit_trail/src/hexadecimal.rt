//! Bytes in hexadecimal, two digits in lower case for each.
ghost use Rattle.std.specs.{Prelude.{◌≡◌, ◌++◌, OnOk}, List.{list_all}};
ghost use Rattle.hex.specs.Hex.{encode_lower};
ghost use Rattle.record_codec.specs.{Fields.{AreBytes}, Reads.{ReadsWhole}};
ghost use Rattle.audit_trail.specs.{Lines.{is_hex_digit, bytes_of, so_many_bytes, value_of}, Printed.{value_word}};

use hex::{FromHex, FromHexError};
use kd_base::{Bytes, OutOfMemory};
use record_codec::Unread;
use std::alloc::Global;

/// Puts two digits for each byte.
pub(crate) fn put_hex(out: &mut Bytes, alloc: Global, bytes: &[u8]) -> Result<(), OutOfMemory>
    ensures put { OnOk result (out.new ≡ out.old ++ encode_lower bytes.now) }
    ensures bytes { AreBytes bytes.now }
{
    let digits = hex::encode(alloc, bytes)?;
    out.append(digits.as_bytes())
}

/// Puts two digits for each byte, or `-` for none.
pub(crate) fn put_value(out: &mut Bytes, alloc: Global, bytes: &[u8]) -> Result<(), OutOfMemory>
    ensures put { OnOk result (out.new ≡ out.old ++ value_word bytes.now) }
    ensures bytes { AreBytes bytes.now }
{
    if bytes.is_empty() {
        return out.push(b'-');
    }
    put_hex(out, alloc, bytes)
}

fn are_hex_digits(word: &[u8]) -> bool
    ensures { result ≡ list_all is_hex_digit word.now }
{
    word.iter().all(|b| matches!(b, b'0'..=b'9' | b'a'..=b'f'))
}

/// The bytes of pairs of digits.
pub(crate) fn bytes_of(alloc: Global, word: &[u8]) -> Result<Bytes, Unread>
    ensures { ReadsWhole result (bytes_of word.now) }
{
    if !are_hex_digits(word) {
        return Err(Unread::NotThere);
    }
    match hex::decode(alloc, word) {
        Ok(bytes) => Ok(Bytes::from_vec(bytes)),
        Err(FromHexError::OutOfMemory) => Err(Unread::Memory),
        Err(_) => Err(Unread::NotThere),
    }
}

/// The bytes, of which there are so many. It takes no memory.
pub(crate) fn so_many_bytes<const N: usize>(word: &[u8]) -> Result<[u8; N], Unread>
    ensures { ReadsWhole result (so_many_bytes N word.now) }
{
    if !are_hex_digits(word) {
        return Err(Unread::NotThere);
    }
    <[u8; N]>::from_hex(word).map_err(|_| Unread::NotThere)
}

/// The bytes, or none for `-`.
pub(crate) fn value_of(alloc: Global, word: &[u8]) -> Result<Bytes, Unread>
    ensures { ReadsWhole result (value_of word.now) }
{
    if word == b"-".as_slice() {
        return Ok(Bytes::new(alloc));
    }
    if word.is_empty() {
        return Err(Unread::NotThere);
    }
    bytes_of(alloc, word)
}
