//! Laws over the definitions, each the contract of a function that does nothing.
ghost use Rattle.graphs.specs.Laws.{AncestorsWithPair, ComponentsWithPair, StaysWithoutCycle, CertifiedPartsAreOptimal, OptimalBoundsClosedSets, FlatPartsBoundClosedSets, CornersAreUnique, OptimalEndsAreCorners, EqualRatesJoinOnce, NamesCanGo, StaysGraph, AncestorsWithoutName, VerdictsAreUnique, PairIsClosed, NameIsClosed, JoinedIsClosed, FewerAreClosed, RenamedIsClosed, ClosureTellsOfGraph, ClosuresHaveGraphs, CertificatesAreRenamed};
ghost use Rattle.graphs.specs.Alikes.{AlikeGraphsAgree};
ghost use Rattle.graphs.specs.Drops.{DropsKeepAncestors};
ghost use Rattle.graphs.specs.Merges.{MergedPartsAreCertified, SortedListsMerge, UnionsKeepComponents};
ghost use Rattle.graphs.specs.OrderLaws.{CertifiedPartsAgree, FirstPartsAreBest, LastPartIsLowest, NamesHaveOneRate, OptimalPartsBoundClosedSets};
ghost use Rattle.graphs.specs.Picks.{PicksAreKept};

/// One more pair makes a name's ancestors those that it had and, where the pair's child is one of
/// them, the ancestors of the pair's parent.
pub fn ancestors_with_pair()
    ensures { AncestorsWithPair }
{}

/// One more pair makes one component of those of its ends, and leaves each other one.
pub fn components_with_pair()
    ensures { ComponentsWithPair }
{}

/// One more pair makes a cycle exactly where its child is an ancestor of its parent.
pub fn stays_without_cycle()
    ensures { StaysWithoutCycle }
{}

/// Parts whose flows certify them, over the pairs of a graph or over its covering pairs alone, are an
/// optimal order of the graph.
pub fn certified_parts_are_optimal()
    ensures { CertifiedPartsAreOptimal }
{}

/// The diagram of an optimal order is nowhere below any closed set of the graph.
pub fn optimal_bounds_closed_sets()
    ensures { OptimalBoundsClosedSets }
{}

/// Parts of falling rate, within which no closed set has a greater rate, bound every closed set of the
/// graph at the line of each part.
pub fn flat_parts_bound_closed_sets()
    ensures { FlatPartsBoundClosedSets }
{}

/// A graph has at most one list of corners.
pub fn corners_are_unique()
    ensures { CornersAreUnique }
{}

/// The ends of an optimal order's parts, equal rates joined, are the graph's corners.
pub fn optimal_ends_are_corners()
    ensures { OptimalEndsAreCorners }
{}

/// Parts of falling rate have exactly one list of segments that joins their equal rates: the first joins
/// the parts of the first one's rate.
pub fn equal_rates_join_once()
    ensures { EqualRatesJoinOnce }
{}

/// Every graph has one without a name.
pub fn names_can_go()
    ensures { NamesCanGo }
{}

/// What is left of a graph without a name is a graph.
pub fn stays_graph()
    ensures { StaysGraph }
{}

/// Without a name the others keep the ancestors that they had among them.
pub fn ancestors_without_name()
    ensures { AncestorsWithoutName }
{}

/// Two diagrams have at most one verdict.
pub fn verdicts_are_unique()
    ensures { VerdictsAreUnique }
{}

/// One more pair from a member of a closure to one that isn't its ancestor: what descends from the child gets the
/// ancestors of the parent.
pub fn pair_is_closed()
    ensures { PairIsClosed }
{}

/// One more name, in no relation to the others, is one more member of the closure.
pub fn name_is_closed()
    ensures { NameIsClosed }
{}

/// The closure of two graphs of different names is that of both.
pub fn joined_is_closed()
    ensures { JoinedIsClosed }
{}

/// Where names are dropped, one or several one after another, or a set that holds what lies between its names is left,
/// the closure keeps the relation among the others.
pub fn fewer_are_closed()
    ensures { FewerAreClosed }
{}

/// By other names, of which no two become one, a graph has its closure by these names.
pub fn renamed_is_closed()
    ensures { RenamedIsClosed }
{}

/// A closure tells of each of its graphs who is an ancestor of whom, what is connected, and which pairs are covering.
pub fn closure_tells_of_graph()
    ensures { ClosureTellsOfGraph }
{}

/// Each closure is that of a graph.
pub fn closures_have_graphs()
    ensures { ClosuresHaveGraphs }
{}

/// A certificate over covering pairs is one by other names, where no two names become one.
pub fn certificates_are_renamed()
    ensures { CertificatesAreRenamed }
{}

/// The diagram of an optimal order bounds every closed set of the graph at the line of each part, whatever the set's size.
pub fn optimal_parts_bound_closed_sets()
    ensures { OptimalPartsBoundClosedSets }
{}

/// A name's part has the same rate in all optimal orders of a graph.
pub fn names_have_one_rate()
    ensures { NamesHaveOneRate }
{}

/// The last part of an optimal order has the lowest rate of all sets with all descendants of their names, of which it is one.
pub fn last_part_is_lowest()
    ensures { LastPartIsLowest }
{}

/// No closed set that is no larger than some first parts of an optimal order has a greater fee than they, where the last of
/// them has a fee of at least 0.
pub fn first_parts_are_best()
    ensures { FirstPartsAreBest }
{}

/// Names that are dropped with all their ancestors, or with all their descendants, leave the others' ancestors among themselves.
pub fn drops_keep_ancestors()
    ensures { DropsKeepAncestors }
{}

/// Graphs with the same names, sums and ancestors, however they were built, have the same components and corners, and the same
/// orders are optimal for them with the same certificates.
pub fn alike_graphs_agree()
    ensures { AlikeGraphsAgree }
{}

/// Names of one component keep its ancestors and covering pairs in a graph that is made of several components.
pub fn unions_keep_components()
    ensures { UnionsKeepComponents }
{}

/// Certificates of components, merged by falling rate with each component's parts in their order, certify the graph of all components.
pub fn merged_parts_are_certified()
    ensures { MergedPartsAreCertified }
{}

/// A sorted list with the entries of sorted lists merges them, and its rates fall where the order is by falling rate.
pub fn sorted_lists_merge()
    ensures { SortedListsMerge }
{}

/// What all optimal orders have in common, what the last part is and what the first ones are worth, said of the parts of certificates.
pub fn certified_parts_agree()
    ensures { CertifiedPartsAgree }
{}

/// A pick is optimal, and stays one where components are merged, names are changed, or other pairs make the same ancestors.
pub fn picks_are_kept()
    ensures { PicksAreKept }
{}
