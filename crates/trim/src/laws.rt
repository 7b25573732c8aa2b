//! Laws over the definitions, each the contract of a function that does nothing.
ghost use Rattle.trim.specs.Laws.{TrimGoesByComponents};

/// What trimming drops of a graph is what it drops of each of its components over the limits, each by itself.
pub fn trim_goes_by_components()
    ensures { TrimGoesByComponents }
{}
