//! The laws that let a search ask for single points in place of families.

ghost use Rattle.world_model.specs.Laws.{PairsStandOnce, PositionsNarrow, WholeSetsAreDecided, AliveTablesAreWorlds, PrefixesOfTheAliveAreAlive, DeadAloneIsDeadBelow, NarrowingKeepsWorlds};

/// Each pair of concepts, the lower number first, stands in the list of pairs exactly once.
pub fn pairs_stand_once()
    ensures { PairsStandOnce }
{}

/// What a pair allows at a position.
pub fn positions_narrow()
    ensures { PositionsNarrow }
{}

/// Where every pair's allowed set is whole, some family meets the problem exactly where it is alive.
pub fn whole_sets_are_decided()
    ensures { WholeSetsAreDecided }
{}

/// A position with a relation for each pair is a possible world exactly where it is alive.
pub fn alive_tables_are_worlds()
    ensures { AliveTablesAreWorlds }
{}

/// A prefix of an alive prefix is alive, and each prefix of a possible world is a node.
pub fn prefixes_of_the_alive_are_alive()
    ensures { PrefixesOfTheAliveAreAlive }
{}

/// A relation with which a pair alone makes the problem dead makes it dead below any prefix.
pub fn dead_alone_is_dead_below()
    ensures { DeadAloneIsDeadBelow }
{}

/// Leaving out relations that are dead alone keeps the possible worlds.
pub fn narrowing_keeps_worlds()
    ensures { NarrowingKeepsWorlds }
{}
