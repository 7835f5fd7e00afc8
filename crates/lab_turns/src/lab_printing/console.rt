//! Where a call types from and prints to.
ghost use Rattle.std.specs.Prelude.{◌≡◌, ◌∷◌, ◌++◌, [], Bool, IfOk, List, MatchOption, OnOk};
ghost use Rattle.lab_turns.specs.Consoles.{Ended, Passed, Typed, printed};

use crate::LabError;
use std::alloc::Global;

/// Lines that are typed, and text that is printed.
pub trait Console: Drop {
    /// Somebody types at it, who is to be prompted.
    ghost prompted: { Self → Bool };

    /// From one moment to a later one, this was typed and printed.
    ghost passes: { Self → List Passed → Self → Type 0 };

    /// The next line that is typed, without its end; `None` at the end of the input.
    fn line(&mut self, alloc: Global) -> Result<Option<Vec<u8>>, LabError>
        ensures { IfOk result (λ next. MatchOption next (passes self.old (Ended ∷ []) self.new) (λ line. passes self.old (Typed line.items ∷ []) self.new)) };

    /// Prints a text.
    fn put(&mut self, text: &[u8]) -> Result<(), LabError>
        ensures { OnOk result (passes self.old (printed text.now) self.new) };

    /// Whether somebody types at it, who is to be prompted.
    fn is_prompted(&self) -> bool
        ensures { result ≡ prompted self.now };

    /// Tells how far a long work has come, beside what is printed.
    fn tell(&mut self, text: &str)
        ensures { passes self.old [] self.new };

    /// Between one moment and itself nothing passes.
    ghost passes_none: { (c : Self) → passes c [] c };

    /// What passed at first, and then what passed later.
    ghost passes_both: { (a b c : Self) (xs ys : List Passed) → passes a xs b → passes b ys c → passes a (xs ++ ys) c };

    /// Who is prompted is prompted to the end.
    ghost same_prompt: { (a b : Self) (xs : List Passed) → passes a xs b → prompted b ≡ prompted a };
}
