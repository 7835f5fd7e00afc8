//! Laws on the definitions. The functions do nothing.
ghost use Rattle.kdcfile_layout.specs.Layout.{OneMeaning};
ghost use Rattle.kdcfile_layout.specs.Reads.{FilesAreRead, ReadFilesStand};
ghost use Rattle.kdcfile_layout.specs.ReadChains.{ChainsAreRead, ReadChainsStand};
ghost use Rattle.kdcfile_layout.specs.ReadSlots.{SlotsAreRead, ReadSlotsStand};
ghost use Rattle.kdcfile_layout.specs.ReadExamples.{WorkedRows};

/// The law of chains: those that are in a file are read, and those that are read are there.
pub fn chains()
    ensures written { ChainsAreRead }
    ensures read { ReadChainsStand }
{}

/// The law of slots: those that are written are read, and those that are read are written so.
pub fn slots()
    ensures written { SlotsAreRead }
    ensures read { ReadSlotsStand }
{}

/// The law of files that are read: what is in a file is read, and what is read of a layout is there.
pub fn files()
    ensures written { FilesAreRead }
    ensures read { ReadFilesStand }
{}

/// The law of files: their bytes stand for one content at most, made with one identity.
pub fn one_meaning()
    ensures { OneMeaning }
{}

/// What was worked out by hand is what the definitions say.
pub fn worked_rows()
    ensures { WorkedRows }
{}
