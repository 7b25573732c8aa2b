//! Laws over the definitions, each the contract of a function that does nothing.
ghost use Rattle.command_line.specs.Words.{WordsAskOnce};

/// Words ask for one thing at most; and `replay`, `check`, `load` and `gen` with two numbers in range, behind the
/// program's name, are always taken.
pub fn words_ask_once()
    ensures { WordsAskOnce }
{}
