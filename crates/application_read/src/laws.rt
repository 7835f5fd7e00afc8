//! What holds of all that texts generate, as the contract of a function that does nothing.
ghost use Rattle.application_read.specs.Laws.{GenerationsAreSound, UnitsFit};

/// Every generation of a text is sound, and the units of every application were fitted to its generation and fit it.
pub fn generations_are_sound()
    ensures sound { GenerationsAreSound }
    ensures fit { UnitsFit }
{}
