ghost use Rattle.dep_graph.specs.Laws.{PairIsAdded, PartIsBridged, PairsAreBridged, PairsAreMerged, PairsAreParted, PlaceKeepsPairs};

/// A law: where a graph is the closure of some names and pairs, it is that of one name more after a member is added.
pub fn add_keeps_the_pairs()
    ensures { PlaceKeepsPairs }
{}

/// A law: after a dependency is added the graph is the closure of the old pairs and the new one.
pub fn add_dep_adds_the_pair()
    ensures { PairIsAdded }
{}

/// A law: after a member is dropped the graph is the closure of the old pairs, with each of its parents joined to each of
/// its children, and without its own.
pub fn remove_bridging_bridges_the_pairs()
    ensures { PairsAreBridged }
{}

/// A law: after a merge the graph is the closure of the pairs of both graphs, numbered as the places are.
pub fn merge_joins_the_pairs()
    ensures { PairsAreMerged }
{}

/// A law: a part that holds what lies between its places is the closure of the pairs within it.
pub fn part_keeps_the_pairs_within()
    ensures { PairsAreParted }
{}

/// A law: any part is the closure of the pairs that are left when the other members are dropped, one after another.
pub fn part_bridges_what_it_leaves_out()
    ensures { PartIsBridged }
{}
