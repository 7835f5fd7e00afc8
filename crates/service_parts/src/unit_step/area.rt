//! Bytes put over those of KB or SPAB, in place. None of these calls takes memory.
ghost use Rattle.std.specs.Prelude.{◌≡◌, ◌+◌, ◌-◌, ◌≤◌, ◌++◌, Some, length, replicate};
ghost use Rattle.abstract_monitor.specs.{Contents.{fitted, overlaid}, Fields.{stored_in, written}, Ready.{IsInside}};

use application_types::unit_types::Field;
use kd_base::Bytes;
use kdcs_types::RunState;

// The bytes fill so many from a place on, with spaces after them, or are cut.
fn fill_or_cut(area: &mut Bytes, at: u32, count: u32, bytes: &[u8])
    requires { at + count ≤ length area.old }
    ensures { area.new ≡ overlaid at (fitted count bytes.now) area.old }
{
    let front = &bytes[..bytes.len().min(count as usize)];
    let behind = at as usize + front.len();
    area.overwrite(at as usize, front);
    area.fill(behind, count as usize - front.len(), b' ');
}

// The digits fill so many bytes from a place on, with zeros before them.
fn fill_with_zeros(area: &mut Bytes, at: u32, count: u32, digits: &[u8])
    requires inside { at + count ≤ length area.old }
    requires bounded { length digits.now ≤ count }
    ensures { area.new ≡ overlaid at (replicate (count - length digits.now) 48 ++ digits.now) area.old }
{
    let zeros = count as usize - digits.len();
    area.fill(at as usize, zeros, b'0');
    area.overwrite(at as usize + zeros, digits);
}

/// The field gets the bytes, filled with spaces or cut.
pub fn store(run: &mut RunState, field: &Field, bytes: &[u8])
    requires { IsInside run.old field.now }
    ensures stored { run.new ≡ stored_in run.old (Some field.now) bytes.now }
    ensures place { run.new.place ≡ run.old.place }
    ensures count { run.new.count ≡ run.old.count }
{
    if field.spab {
        fill_or_cut(&mut run.spab, field.offset, field.length, bytes);
    } else {
        fill_or_cut(&mut run.kb, field.offset, field.length, bytes);
    }
}

/// The field gets the digits, with leading zeros.
pub fn store_digits(run: &mut RunState, field: &Field, digits: &[u8])
    requires inside { IsInside run.old field.now }
    requires bounded { length digits.now ≤ field.now.length }
    ensures place { run.new.place ≡ run.old.place }
    ensures count { run.new.count ≡ run.old.count }
    ensures written { run.new ≡ written run.old field.now.spab field.now.offset (replicate (field.now.length - length digits.now) 48 ++ digits.now) }
{
    if field.spab {
        fill_with_zeros(&mut run.spab, field.offset, field.length, digits);
    } else {
        fill_with_zeros(&mut run.kb, field.offset, field.length, digits);
    }
}
