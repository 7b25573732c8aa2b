//! Laws over the definitions, each the contract of a function that does nothing.
ghost use Rattle.cluster_store.specs.Laws.{LevelsArePicked, OrdersAreKept, AllStandInOrder, PartsAreToldByClusters};

/// Where the clusters of a level have no name in common, the level's parts are a pick of its graph, and so an optimal order, and none of
/// them can be cut further.
pub fn levels_are_picked()
    ensures { LevelsArePicked }
{}

/// There is one order of the parts of a store's clusters, and the parts of clusters that stay keep theirs.
#[tactic(auto, using(crate::proofs::Orders::orders_are_kept))]
pub fn orders_are_kept()
    ensures { OrdersAreKept }
{}

/// The parts of a level's clusters are the level's, and their names stand there in the order of the cluster.
pub fn parts_stand_in_order()
    ensures { AllStandInOrder }
{}

/// Where the same clusters stand under the same numbers in two levels, of one store or of two, both have the same parts in the
/// same order, also among equal rates.
#[tactic(auto, using(crate::proofs::Told::parts_are_told_by_clusters))]
pub fn parts_are_told_by_clusters()
    ensures { PartsAreToldByClusters }
{}
