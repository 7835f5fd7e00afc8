//! Laws on the definitions. The functions do nothing.
ghost use Rattle.texts.specs.{Found.{ReadStatementsAreSpelled}, Writing.{PlainTextSpells}};

/// Statements that are written plainly, one to a line, are spelled by that text, so that `lines` reads them again.
pub fn plain_text_spells()
    ensures { PlainTextSpells }
{}

/// What reading gives for a text, which computes, is what the text spells.
pub fn read_statements_are_spelled()
    ensures { ReadStatementsAreSpelled }
{}
