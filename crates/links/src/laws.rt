//! Laws over the definitions, each the contract of a function that does nothing.
ghost use Rattle.links.specs.Laws.{ChangesAreClosed, ComponentsAreClosed, LinksHaveClosures};

/// Links have the closure of their graph, with the fees and sizes of their transactions.
pub fn links_have_closures()
    ensures { LinksHaveClosures }
{}

/// What is made of links is that change of their closures: one pair more, two closures joined by one pair, members that go, and another fee
/// of one member.
pub fn changes_are_closed()
    ensures { ChangesAreClosed }
{}

/// The closure of links falls into those of their components.
pub fn components_are_closed()
    ensures { ComponentsAreClosed }
{}
