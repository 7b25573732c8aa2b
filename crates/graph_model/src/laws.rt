//! Laws over the definitions, each the contract of a function that does nothing.
ghost use Rattle.graph_model.specs.Laws.{AnswersAreInOrder, ReadingsLackNoMemory, RefusedChangesNothing, RowsAreFunctions, StepsKeepValid};
ghost use Rattle.graph_model.specs.ProofLaws.{ProofsAreCertificates};
ghost use Rattle.graph_model.specs.SameLaws.{StepsAreFunctions};
ghost use Rattle.graph_model.specs.TrimLaws.{TrimDropsOneSet};
ghost use Rattle.graph_model.specs.UnmineLaws.{MinedComesBack};
ghost use Rattle.graph_model.specs.DumpLaws.{DumpsLoad};
ghost use Rattle.graph_model.specs.LoadLaws.{LoadsProve};
ghost use Rattle.graph_model.specs.BlockLaws.{BlocksBeginBest};
ghost use Rattle.graph_model.specs.RunLaws.{RunsAreSound};
ghost use Rattle.graph_model.specs.StagingLaws.{AbortLeavesMain};
ghost use Rattle.graph_model.specs.GeneratorLaws.{SummariesAreFunctions};

/// A run goes on where an earlier run ended: the two together are one run, with the answers in their order.
pub fn answers_are_in_order()
    ensures { AnswersAreInOrder }
{}

/// A refused command leaves the whole state.
pub fn refused_changes_nothing()
    ensures { RefusedChangesNothing }
{}

/// A command that may not lack memory is never refused for it: no reading but `block` and `dump` is.
pub fn readings_lack_no_memory()
    ensures { ReadingsLackNoMemory }
{}

/// A command meets one refusal in a state, or none, and no other.
pub fn rows_are_functions()
    ensures { RowsAreFunctions }
{}

/// A staging that is aborted leaves main's names, pairs, fees, sizes and pick, unless a fee was set meanwhile.
pub fn abort_leaves_main()
    ensures { AbortLeavesMain }
{}

/// The state at the start is valid, and a step from a valid state leads to a valid one. How many names a cluster may be allowed stays as it was.
pub fn steps_keep_valid()
    ensures { StepsKeepValid }
{}

/// The text that proves the order of a level is a certificate, where a cluster may be allowed no more names than any graph can allow it.
pub fn proofs_are_certificates()
    ensures { ProofsAreCertificates }
{}

/// A command is refused for the same cause, or not, in states that differ in the order of names and pairs at most, and where it is accepted it
/// makes the same of them; and where it reads no pick, also of states that differ in picks.
pub fn steps_are_functions()
    ensures { StepsAreFunctions }
{}

/// Trimming drops one set of names, after which no component is over the limits.
pub fn trim_drops_one_set()
    ensures { TrimDropsOneSet }
{}

/// A block that is taken back directly after it was mined restores names, sums and ancestors.
pub fn mined_comes_back()
    ensures { MinedComesBack }
{}

/// The text of a graph can be loaded, and makes a graph that agrees with it; and an accepted text is the text of the graph that it makes.
pub fn dumps_load()
    ensures { DumpsLoad }
{}

/// An accepted text makes a valid state of the text's graph, and `load` writes a certificate of an optimal order of that graph.
pub fn loads_prove()
    ensures { LoadsProve }
{}

/// What a block takes before it leaves a part out is the front of the order; and where the last part of it pays at least 0, no closed set
/// that is no larger pays more.
pub fn blocks_begin_best()
    ensures { BlocksBeginBest }
{}

/// Each state of a run is valid, and each order that a run reports is optimal, each part with the sum of its names.
pub fn runs_are_sound()
    ensures { RunsAreSound }
{}

/// Each command of a generated run is counted once; and all runs over the commands of a seed in which no command is refused
/// for want of memory end with one summary, whatever orders are picked.
pub fn summaries_are_functions()
    ensures { SummariesAreFunctions }
{}
