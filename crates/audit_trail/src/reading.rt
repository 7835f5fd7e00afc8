//! Reading a trail.
ghost use Rattle.std.specs.Prelude.{◌≡◌, ◌≢◌, ◌<◌, ◌^◌, length, Ok, Err, IfOk, IfErr};
ghost use Rattle.std.specs.Str.Lines.{lines};
ghost use Rattle.audit_trail.specs.{declared.fault.TrailFault.TheVariants.{Memory}, declared.place.Place.TheVariants.{First}, Facts.{IsOrdered, IsTrail}, Places.{after_line, trail_from, trail_in}};
ghost use Rattle.audit_trail.specs.Reading.{Gives, at_line};
ghost use Rattle.record_codec.specs.Reads.{ReadsWhole};

use crate::entry::Trail;
use crate::fault::TrailFault;
use crate::line::line_in;
use crate::place::{Place, at_end, step};
use kd_base::LONGEST_TEXT;
use record_codec::Unread;
use std::alloc::Global;
use texts::next_line;

fn line_after(alloc: Global, place: Place, line: &[u8]) -> Result<Place, Unread>
    requires { IsOrdered place }
    ensures { ReadsWhole result (after_line place line.now) }
{
    let said = line_in(alloc, line)?;
    step(alloc, place, said)
}

// The place after the line with this number.
fn place_after(alloc: Global, place: Place, number: u64, line: &[u8]) -> Result<Place, TrailFault>
    requires { IsOrdered place }
    ensures { Gives result (at_line number (after_line place line.now)) }
{
    match line_after(alloc, place, line) {
        Ok(next) => Ok(next),
        Err(Unread::NotThere) => Err(TrailFault::BadLine(number)),
        Err(Unread::Memory) => Err(TrailFault::Memory),
    }
}

// The trail of a text whose lines can be numbered, or its first fault.
fn trail_of(alloc: Global, text: &[u8]) -> Result<Trail, TrailFault>
    requires { length text.now < 2 ^ 32 }
    ensures { Gives result (trail_from First 1 (lines text.now)) }
{
    let mut place = Place::First;
    let mut number: u64 = 1;
    let mut rest = text;
    while !rest.is_empty() {
        let (line, after) = next_line(rest);
        place = place_after(alloc, place, number, line)?;
        number += 1;
        rest = after;
    }
    at_end(place, number)
}

/// The trail that a text says, or its first fault. Lines end in LF, or in CR and LF; the last may lack its end.
pub fn read_trail(alloc: Global, text: &[u8]) -> Result<Trail, TrailFault>
    // What was read is what the text says.
    ensures found { IfOk result (λ trail. trail_in text.now ≡ Ok trail) }
    // A fault that is answered is the one that the text has.
    ensures refused { IfErr result (λ fault. fault ≢ Memory → trail_in text.now ≡ Err fault) }
    // Its tables and its entries are those of a trail.
    ensures proper { IfOk result IsTrail }
{
    if text.len() > LONGEST_TEXT {
        return Err(TrailFault::TooLong);
    }
    trail_of(alloc, text)
}
