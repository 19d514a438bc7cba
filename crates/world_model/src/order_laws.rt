//! Laws on the order of positions: listings, nodes, cuts and conflicts.

ghost use Rattle.world_model.specs.Laws.{ListingsJoin, OneListing, NodesAreBounded, OneLeastConflict, TrialIsRight};

/// Two listings, the second from where the first ends, are one.
pub fn listings_join()
    ensures { ListingsJoin }
{}

/// There is one listing at most between two positions, one list of nodes and one cut.
pub fn one_listing()
    ensures { OneListing }
{}

/// There are at most (5^(P+1) - 1)/4 nodes, where P is the number of pairs.
pub fn nodes_are_bounded()
    ensures { NodesAreBounded }
{}

/// There is one least conflict at most, and without any one of its articulations it is consistent.
pub fn one_least_conflict()
    ensures { OneLeastConflict }
{}

/// What is computed by trial of all bit lists and prefixes is what the definitions say.
pub fn trial_is_right()
    ensures { TrialIsRight }
{}
