ghost use Rattle.cluster.specs.Laws.{ClustersAreOptimal};

/// A cluster stands for plain graphs. Its parts are a pick of each of these graphs, and so an optimal order of it.
pub fn clusters_are_optimal()
    ensures { ClustersAreOptimal }
{}
