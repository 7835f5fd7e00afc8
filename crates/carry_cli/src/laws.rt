//! Laws on the definitions, which who calls may cite. The functions do nothing.
ghost use Rattle.carry_cli.specs.Kinds.{FilesHaveOneState};

/// A file is of one kind: no bytes are told of as two.
pub fn files_have_one_state()
    ensures { FilesHaveOneState }
{}
