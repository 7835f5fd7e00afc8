//! Numbers, and bytes without the spaces in front.
ghost use Rattle.std.specs.Prelude.{◌≡◌, ◌/◌, ◌^◌, length};
ghost use Rattle.abstract_monitor.specs.Contents.{trim_start, number_of, in_digits};
ghost use Rattle.service_parts.specs.Calculation.{calculation_of, limited};

use kd_base::{decimal_of, trim_end};

/// What ADD, SUB, MUL and DIV make of two numbers.
#[derive(Clone, Copy)]
pub enum Calculation {
    Sum,
    Difference,
    Product,
    Quotient,
}

#[tactic(auto, unfolding(abstract_monitor::specs::Contents::trim_start))]
fn trim_start(bytes: &[u8]) -> &[u8]
    ensures { result.now ≡ trim_start bytes.now }
{
    let mut n = 0;
    while n < bytes.len() && bytes[n] == b' ' {
        n += 1;
    }
    &bytes[n..]
}

/// The number of an operand: none is 0, 1 to 18 digits are their value.
#[tactic(auto, unfolding(abstract_monitor::specs::Contents::number_of))]
pub fn number_of(bytes: &[u8]) -> Option<u64>
    ensures { result ≡ number_of bytes.now }
{
    let digits = trim_start(trim_end(bytes));
    if digits.is_empty() {
        return Some(0);
    }
    decimal_of(digits)
}

/// The last digits of a number, as many as fit; answers the number without them.
pub fn last_digits(number: u64, into: &mut [u8]) -> u64
    ensures digits { into.new ≡ in_digits (length into.old) number }
    ensures left { result ≡ number / 10 ^ length into.old }
{
    let mut left = number;
    let mut place = into.len();
    while place > 0 {
        place -= 1;
        into[place] = b'0' + (left % 10) as u8;
        left /= 10;
    }
    left
}

/// A result of at most 64 bits; none for a difference below 0 and by a divisor of 0.
pub fn result_of(calculation: Calculation, a: u64, b: u64) -> Option<u64>
    ensures { result ≡ limited (calculation_of calculation a b) }
{
    match calculation {
        Calculation::Sum => a.checked_add(b),
        Calculation::Difference => a.checked_sub(b),
        Calculation::Product => a.checked_mul(b),
        Calculation::Quotient => { if b == 0 { None } else { Some(a / b) } }
    }
}
