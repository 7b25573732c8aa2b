//! Laws over the definitions, each the contract of a function that does nothing.
ghost use Rattle.wire.specs.Laws.{LineSpellsOneCommand, LinesSpellOneText, BytesHaveOneCut};

/// A line spells one command at most, so it has one meaning.
pub fn line_spells_one_command()
    ensures { LineSpellsOneCommand }
{}

/// Lines spell one certificate text at most, so what is found of the text that was read is found of
/// any text that the lines spell.
pub fn lines_spell_one_text()
    ensures { LinesSpellOneText }
{}

/// Bytes are cut into lines and a rest without a line feed, and in one way.
pub fn bytes_have_one_cut()
    ensures { BytesHaveOneCut }
{}
