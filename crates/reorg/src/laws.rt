//! Laws over the definitions, each the contract of a function that does nothing.
ghost use Rattle.reorg.specs.Laws.{OtherCommandsKeepBlocks};

/// A step of the graph by a command that neither mines nor takes back is a step with the mined blocks as they are.
pub fn other_commands_keep_blocks()
    ensures { OtherCommandsKeepBlocks }
{}
