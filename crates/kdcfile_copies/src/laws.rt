//! Laws on the definitions, which all crates above may cite. The functions do nothing.
ghost use Rattle.kdcfile_copies.specs.Statements.{OneMeaningOfCopies, OneIsChosen, NoRivalIsChosen, NoImageIsNoCopy, ImagesAreCopies, OthersAreNoCopies, NextPatchMakesNext, PatchKeepsBare};
ghost use Rattle.kdcfile_copies.specs.Statements.{SequenceIsOnePage};

/// Given bytes are one copy at most.
pub fn copies_have_one_meaning()
    ensures { OneMeaningOfCopies }
{}

/// Of two files one copy counts at most, and a copy counts beside a file that is no rival of it.
pub fn one_copy_counts()
    ensures one { OneIsChosen }
    ensures no_rival { NoRivalIsChosen }
{}

/// A file is a copy just where it is an image whose content has a sequence.
pub fn images_are_told_apart()
    ensures none { NoImageIsNoCopy }
    ensures copies { ImagesAreCopies }
    ensures others { OthersAreNoCopies }
{}

/// A patch that sets the sequence too makes the copy of that sequence, which takes one page more than its content.
pub fn next_copies_are_made()
    ensures next { NextPatchMakesNext }
    ensures bare { PatchKeepsBare }
    ensures page { SequenceIsOnePage }
{}
