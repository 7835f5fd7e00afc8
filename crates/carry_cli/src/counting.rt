//! Which of two files counts.
ghost use Rattle.std.specs.Prelude.{◌≡◌, List, ℕ};
ghost use Rattle.carry_cli.specs.{Kinds.{IsCounting}, Seeing.{IsSeen, IsSound}};

use crate::kinds::Counting;
use crate::seeing::Seen;
use kdcfile_double::are_alike;

/// Which of two files counts: of two copies the one of the greater sequence, and of two with the same the first one.
pub(crate) fn counting_of(first: &Seen, second: &Seen) -> Counting
    requires first { IsSound first.now }
    requires second { IsSound second.now }
    ensures { (a b : List ℕ) → IsSeen first.now a → IsSeen second.now b → IsCounting result a b }
{
    match first.copy() {
        None => match second.copy() {
            None => Counting::Neither,
            Some(_) => Counting::Second,
        },
        Some(copy) => match second.copy() {
            None => Counting::First,
            Some(other) if copy.sequence < other.sequence => Counting::Second,
            Some(other) if are_alike(copy, other) => Counting::Alike,
            Some(_) => Counting::First,
        },
    }
}
