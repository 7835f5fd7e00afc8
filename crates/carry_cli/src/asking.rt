//! What the texts of a BASE ask for that is carried.
ghost use Rattle.std.specs.Prelude.{◌≡◌, ℕ, List, IsTrue, IfOk, IsErrOf};
ghost use Rattle.kd_device.specs.{Device.{Rose}, Room.{SameRoom}};
ghost use Rattle.refusals.specs.{Statuses.{status_of}, declared.error.Refusal.{Refusal}};
ghost use Rattle.call_parts.specs.Asking.{AreThere, Errand, update_errand};
ghost use Rattle.call_parts.specs.declared.words.Word.TheVariants.{Update};
ghost use Rattle.carry_cli.specs.Promise.{AsksToCarry, RefusesTexts};

use call_parts::{Asked, TwoFiles, Word, Work, read_texts};
use kd_device::Room;
use refusals::TextError;
use std::alloc::Global;

/// The application that the texts of this BASE make, be it kept in one file or in two.
pub(crate) fn work_of<R: Room>(alloc: Global, room: &mut R, base: &[u8]) -> Result<Work, TextError>
    ensures asks { IfOk result (λ w. IsTrue (R.room room.old).told → AsksToCarry base.now (R.room room.old) (update_errand w)) }
    ensures only { IfOk result (λ w. IsTrue (R.room room.old).told → (e : Errand) → AsksToCarry base.now (R.room room.old) e → e ≡ update_errand w) }
    ensures refused { (why : Refusal) → IsErrOf result (TextError.Refused why) → (status_of why ≡ 2) × (IsTrue (R.room room.old).told → RefusesTexts base.now (R.room room.old) why) }
    ensures refused_only { (why : Refusal) → IsErrOf result (TextError.Refused why) → IsTrue (R.room room.old).told → (e : Errand) → AsksToCarry base.now (R.room room.old) e → ⊥ }
    ensures room { IsErrOf result TextError.Room → Rose (R.room room.old).faults (R.room room.new).faults }
    ensures sure { IsErrOf result TextError.Room → IsTrue (R.room room.old).sure → (d u s : List ℕ) → AreThere Update base.now (R.room room.old) d u s → ⊥ }
    ensures same { SameRoom (R.room room.old) (R.room room.new) }
{
    match read_texts(alloc, room, Word::Update, base) {
        Ok(Asked::One(asked)) => Ok(asked.into_work()),
        Ok(Asked::Two(_line, TwoFiles::Over(work, _task))) => Ok(work),
        Ok(Asked::Two(_line, TwoFiles::Refused(_why))) => unreachable!(),
        Err(why) => Err(why),
    }
}
