//! Decimal numbers, bytes as they are printed, and bytes without the spaces after them.
ghost use Rattle.std.specs.Prelude.{◌≡◌, ◌<◌, ◌++◌, IfOk, OnOk, SomeIff};
ghost use Rattle.kd_base.specs.Text.{trim_end, is_digit, IsDecimal, decimal_of, decimal_value, hex_digit, escaped, escaped_byte};

use crate::bytes::Bytes;
use crate::memory::OutOfMemory;
use std::alloc::Global;

/// The bytes without the spaces at the end.
#[tactic(auto, unfolding(crate::specs::Text::trim_end))]
pub fn trim_end(bytes: &[u8]) -> &[u8]
    ensures { result.now ≡ trim_end bytes.now }
{
    let mut n = bytes.len();
    while n > 0 && bytes[n - 1] == b' ' {
        n -= 1;
    }
    &bytes[..n]
}

fn is_digit(b: u8) -> bool
    ensures { result ≡ is_digit b }
{
    matches!(b, b'0'..=b'9')
}

/// The value of 1 to 18 digits; `None` for every other list. It takes no memory.
pub fn decimal_of(bytes: &[u8]) -> Option<u64>
    ensures exact { SomeIff result (IsDecimal bytes.now) (decimal_value bytes.now) }
    ensures value { result ≡ decimal_of bytes.now }
{
    if bytes.is_empty() || bytes.len() > 18 {
        return None;
    }
    let mut value: u64 = 0;
    for b in bytes {
        if !is_digit(*b) {
            return None;
        }
        value = value * 10 + u64::from(*b - b'0');
    }
    Some(value)
}

fn hex_digit(n: u8) -> u8
    requires { n < 16 }
    ensures { result ≡ hex_digit n }
{
    if n < 10 { b'0' + n } else { b'a' - 10 + n }
}

fn put_escaped(out: &mut Bytes, b: u8) -> Result<(), OutOfMemory>
    ensures { OnOk result (out.new ≡ out.old ++ escaped_byte b) }
{
    if b == b'\\' {
        out.append(b"\\\\")
    } else if b' ' <= b && b <= b'~' {
        out.push(b)
    } else {
        out.append(&[b'\\', b'x', hex_digit(b / 16), hex_digit(b % 16)])
    }
}

/// The bytes as output lines print them: 0x20 to 0x7E other than `\` as they are, `\` as `\\`, and every other byte
/// as `\x` and two lower-case hexadecimal digits.
pub fn escape(alloc: Global, bytes: &[u8]) -> Result<Bytes, OutOfMemory>
    ensures { IfOk result (λ out. out ≡ escaped bytes.now) }
{
    let mut out = Bytes::new(alloc);
    for b in bytes {
        put_escaped(&mut out, *b)?;
    }
    Ok(out)
}
