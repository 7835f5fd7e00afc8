//! The top call over two disks: what the words ask for is done over one file or two, and answered as a status.
ghost use Rattle.std.specs.{Prelude.{map}, String.{string_bytes}};
ghost use Rattle.utm_cli.specs.Answers.{AnswersTwo};
ghost use Rattle.utm_cli.specs.PromiseTwo.{twin_call};

use crate::lawful::scripts_run_lawfully;
use crate::twin::beside::run_first;
use crate::twin::double::double;
use call_ends::scripts_of_suited_tables_run_lawfully;
use call_parts::{
    Asked, Cause, TwoFiles, read_texts, refuse_beside, request_of, texts_of_two_can_run,
};
use kd_device::{Room, Twin};
use refusals::{Status, TextError};
use std::alloc::Global;
use trail_run::trail_words::{own_trails_hold, verdicts_exclude_each_other};

/// Does what the words after the program's name ask for. A definition that asks for one KDCFILE is as under `utm`, over
/// BASE.KDCA on the first disk. Where it asks for two copies, with `MAX KDCFILE=(base,DOUBLE)`, `gen` and `run` keep
/// BASE.KDCA and BASE.KDCB alike: empty ones are made, one that is behind is written anew from the other, which the line
/// `COPY A MENDED` or `COPY B MENDED` says first, and a run goes on while one disk fails, which `COPY A LOST` or `COPY B
/// LOST` says last. `show` and `trail` read the copy that counts, and both files stay as they are; `update` carries no two
/// copies.
///
/// The status is as under `utm`. It is 5 where the line failed, or both disks, or one of them before a byte was sent.
pub fn utm_twin<R: Room, T: Twin>(
    alloc: Global,
    words: &Vec<String>,
    room: &mut R,
    twin: &mut T,
) -> Status
    ensures answers { AnswersTwo (twin_call (map string_bytes words.now.items) (R.room room.old) (T.both twin.old)) (R.room room.new) (T.both twin.new) (T.leaves twin.old) (T.leaves twin.new) result.code }
{
    scripts_run_lawfully();
    texts_of_two_can_run();
    scripts_of_suited_tables_run_lawfully();
    own_trails_hold();
    verdicts_exclude_each_other();
    let Some((word, base)) = request_of(words) else {
        return refuse_beside(alloc, twin, Cause::Words);
    };
    match read_texts(alloc, room, word, base) {
        Ok(Asked::One(asked)) => run_first(alloc, twin, base, asked),
        Ok(Asked::Two(_line, TwoFiles::Over(work, task))) => {
            double(alloc, twin, base, work, task)
        }
        Ok(Asked::Two(_line, TwoFiles::Refused(why))) => {
            refuse_beside(alloc, twin, Cause::Texts(why))
        }
        Err(TextError::Refused(why)) => refuse_beside(alloc, twin, Cause::Texts(why)),
        Err(TextError::Room) => Status::ROOM,
        Err(TextError::Memory) => Status::MEMORY,
    }
}
