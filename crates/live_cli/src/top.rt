//! The top call: what is typed is performed over the KDCFILE of a BASE, and the end is answered as a status.
ghost use Rattle.std.specs.{Prelude.{map}, String.{string_bytes}};
ghost use Rattle.live_cli.specs.{AnswersTwo.{AnswersLiveTwo}, LivesLawfully.{SessionsLiveLawfully}, PromiseTwo.{live_twin_call}};

use crate::double::double;
use crate::half::live_first;
use crate::lawful::sessions_live_lawfully;
use call_parts::{Asked, Cause, TwoFiles, Word, live_of, read_texts, refuse_beside};
use kd_device::{Room, Twin};
use live_run::Typing;
use refusals::{Status, TextError};
use std::alloc::Global;

/// Opens the KDCFILE of the BASE that is the first word, as `run` does, and performs the commands that are typed, each before
/// the next line is read, to the end of the input. BASE.def and BASE.units are read from the room first. BASE.KDCA is made
/// where it is empty, and is kept to the end. Where the definition asks for two copies, so is BASE.KDCB; one that is behind
/// is written anew from the other, which the line `COPY A MENDED` or `COPY B MENDED` says first, and the session goes on
/// while one disk fails, which `COPY A LOST` or `COPY B LOST` says last. Where one of them is empty or not there beside a copy
/// with commits, nothing is done without the second word `--alone`.
///
/// The status is 0 at the end of the input; 1 for words that are not one BASE of 1 to 200 bytes, or it and `--alone`; 2 for
/// a definition or units that are refused; 4 for a KDCFILE that is not one of this application, or of which a file is
/// missing; 5 where the disk, the line or the input failed; 6 where a text could not be read; 7 for want of memory, or of
/// numbers after 10^18 turns and commands. Over two copies it is 5 where the line failed, or both disks, or one of them
/// before a byte was sent.
pub fn live<R: Room, T: Twin, I: Typing>(
    alloc: Global,
    words: &Vec<String>,
    room: &mut R,
    twin: &mut T,
    typing: &mut I,
) -> Status
    ensures answers { AnswersLiveTwo (live_twin_call (map string_bytes words.now.items) (R.room room.old) (T.both twin.old) (I.typing typing.old)) (R.room room.new) (I.typing typing.new) (T.both twin.new) (T.leaves twin.old) (T.leaves twin.new) result.code }

    // The commands of whatever lines are typed run lawfully, as those of a script do.
    ensures laws { SessionsLiveLawfully }
{
    sessions_live_lawfully();
    let Some((base, alone)) = live_of(words) else {
        return refuse_beside(alloc, twin, Cause::OneBase);
    };
    match read_texts(alloc, room, Word::Gen, base) {
        Ok(Asked::One(asked)) => live_first(alloc, twin, base, asked.into_work(), typing),
        Ok(Asked::Two(_line, TwoFiles::Over(work, _task))) => {
            double(alloc, twin, base, alone, work, typing)
        }
        Ok(Asked::Two(_line, TwoFiles::Refused(why))) => {
            refuse_beside(alloc, twin, Cause::Texts(why))
        }
        Err(TextError::Refused(why)) => refuse_beside(alloc, twin, Cause::Texts(why)),
        Err(TextError::Room) => Status::ROOM,
        Err(TextError::Memory) => Status::MEMORY,
    }
}
