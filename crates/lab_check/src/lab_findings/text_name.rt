//! Which text a finding is in.
ghost use Rattle.std.specs.Prelude.{◌≡◌};
ghost use Rattle.lab_check.specs.Lines.{word_of};

/// A text of an application.
#[derive(Clone, Copy, PartialEq, Eq)]
pub enum TextName {
    Definition,
    Units,
    Script,
}

impl TextName {
    /// The word by which it is printed. It takes no memory.
    pub fn word(&self) -> &'static str
        ensures { result.now ≡ word_of self.now }
    {
        match self {
            TextName::Definition => "DEF",
            TextName::Units => "UNITS",
            TextName::Script => "SCRIPT",
        }
    }

    /// Its place among the texts.
    pub fn rank(&self) -> u64 {
        match self {
            TextName::Definition => 0,
            TextName::Units => 1,
            TextName::Script => 2,
        }
    }
}
