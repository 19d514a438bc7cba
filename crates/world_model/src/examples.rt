//! Worked examples: what the definitions give at small problems, by computing.

ghost use Rattle.world_model.specs.Examples.{OneConceptEach, RemaindersAreEqual, SiblingsOfOneConcept, TwoPartings, OnlyChild, WholeOfTwoParts, ThreeTaxonomies, SixNodes, CutsByNodes, CutsByWorlds, SecondAndFourth, RootsAreNoSiblings, LeavesAreNotCovered, EmptySetsInOrder, EveryUniverseCounts, AllAreProblems};

/// Two concepts, one of each taxonomy.
pub fn one_concept_each()
    ensures { OneConceptEach }
{}

/// Two taxonomies of a parent with two children, of which two pairs are equal.
pub fn remainders_are_equal()
    ensures { RemaindersAreEqual }
{}

/// Two siblings that are said to equal one concept.
pub fn siblings_of_one_concept()
    ensures { SiblingsOfOneConcept }
{}

/// One whole that is parted twice.
pub fn two_partings()
    ensures { TwoPartings }
{}

/// A parent with one child.
pub fn only_child()
    ensures { OnlyChild }
{}

/// A concept that is the union of two others.
pub fn whole_of_two_parts()
    ensures { WholeOfTwoParts }
{}

/// Three taxonomies.
pub fn three_taxonomies()
    ensures { ThreeTaxonomies }
{}

/// The nodes of two concepts.
pub fn six_nodes()
    ensures { SixNodes }
{}

/// A budget of nodes.
pub fn cuts_by_nodes()
    ensures { CutsByNodes }
{}

/// A budget of worlds, alone and beside one of nodes.
pub fn cuts_by_worlds()
    ensures { CutsByWorlds }
{}

/// The least conflict of four articulations.
pub fn second_and_fourth()
    ensures { SecondAndFourth }
{}

/// Roots beside children.
pub fn roots_are_no_siblings()
    ensures { RootsAreNoSiblings }
{}

/// Concepts without children beside parents.
pub fn leaves_are_not_covered()
    ensures { LeavesAreNotCovered }
{}

/// Relations of empty sets.
pub fn empty_sets_in_order()
    ensures { EmptySetsInOrder }
{}

/// Tables that need three elements, one and none.
pub fn every_universe_counts()
    ensures { EveryUniverseCounts }
{}

/// The problems of these examples.
pub fn all_are_problems()
    ensures { AllAreProblems }
{}
