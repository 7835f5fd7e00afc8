//! Laws on the definitions, which all crates above may cite. The functions do nothing.
ghost use Rattle.kdcfile_carry.specs.{Files.{OneMeaningOfFiles, TwoMeaningsAreNone}, Ways.{StopsAreTaken}};

/// Two files are those of one application at most, in one way; a KDCFILE by itself beside a copy is none.
pub fn files_of_two_have_one_meaning()
    ensures one { OneMeaningOfFiles }
    ensures none { TwoMeaningsAreNone }
{}

/// Whatever a stop leaves of files that are taken is taken again, and the call comes to the same files.
pub fn stops_are_taken()
    ensures { StopsAreTaken }
{}
