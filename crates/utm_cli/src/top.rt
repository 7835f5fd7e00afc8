//! The top call over one disk: what the words ask for is done, and answered as a status.
ghost use Rattle.std.specs.{Prelude.{map}, String.{string_bytes}};
ghost use Rattle.utm_cli.specs.Answers.{AnswersOne};
ghost use Rattle.utm_cli.specs.Promise.{call};

use crate::lawful::scripts_run_lawfully;
use crate::run::run;
use call_parts::{Asked, Cause, read_texts, refuse_for, request_of};
use kd_device::{Device, Room};
use refusals::{Refusal, Status, TextError};
use std::alloc::Global;
use trail_run::trail_words::{own_trails_hold, verdicts_exclude_each_other};

/// Does what the words after the program's name ask for. `gen BASE` reads BASE.def and BASE.units from the room and
/// reports the generation; `run BASE` reads BASE.script too and does its commands, each of which is stored before its
/// line is sent. Both make BASE.KDCA where it is empty, with BLKSIZE and PGPOOL of the generation, or open it. `show
/// BASE` lists the tables of BASE.KDCA, which stays as it is; an empty one is listed as the empty tables. `update BASE`
/// carries BASE.KDCA to the generation, and reports how many rows went. `trail BASE` sends the trail of the run of
/// BASE.script from the tables of BASE.KDCA, which stays as it is. `audit BASE` reads the trail BASE.trail in place of a
/// script and replays its entries, one after another, from the tables at its start; it looks into no KDCFILE. `make N`
/// runs the made application with N inputs, from 1 to 20,000, on a device of its own, and reports of that run.
///
/// The status is 0 where all was done, and under `audit` all entries hold; 1 for words that are none of the forms; 2 for a
/// definition or units that are refused; 3 for a script or a trail that is refused; 4 for a KDCFILE that is not one of this
/// application, or that `update` does not carry; 5 where the disk or the line failed; 6 where a text could not be read; 7
/// for want of memory; 8 for a trail with an entry that does not hold.
pub fn utm<R: Room, D: Device>(
    alloc: Global,
    words: &Vec<String>,
    room: &mut R,
    device: &mut D,
) -> Status
    ensures answers { AnswersOne (call (map string_bytes words.now.items) (R.room room.old) (D.state device.old)) (R.room room.new) (D.state device.new) (D.leaves device.old) (D.leaves device.new) result.code }
{
    scripts_run_lawfully();
    own_trails_hold();
    verdicts_exclude_each_other();
    let Some((word, base)) = request_of(words) else {
        return refuse_for(alloc, device, Cause::Words);
    };
    match read_texts(alloc, room, word, base) {
        Ok(Asked::One(asked)) => run(alloc, device, base, asked),
        Ok(Asked::Two(line, _asked)) => {
            refuse_for(alloc, device, Cause::Texts(Refusal::Double(line)))
        }
        Err(TextError::Refused(why)) => refuse_for(alloc, device, Cause::Texts(why)),
        Err(TextError::Room) => Status::ROOM,
        Err(TextError::Memory) => Status::MEMORY,
    }
}
