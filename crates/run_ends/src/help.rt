//! What people are told of a fault of a text, besides its name.

use cleantax_text::TextKind;

/// What a fault of a text means, and what to do about it.
pub fn text_help(kind: TextKind) -> &'static str {
    match kind {
        TextKind::NotUtf8 => "this line has bytes that are not UTF-8; save the file as UTF-8",
        TextKind::BadLine => {
            "this line has none of the forms; write `taxonomy NAME`, `(PARENT CHILD ..)`, `articulation`, `[1.A RELATION 2.B]`, `[1.A {RELATION RELATION} 2.B]` or `[1.A sums 2.B 2.C]`; a name has no spaces, and each bracket is closed"
        }
        TextKind::BadName => {
            "a name here can't be taken; give it 1 to 128 bytes with no control character, a taxonomy's no full stop, and write a concept of a statement as TAXONOMY.CONCEPT"
        }
        TextKind::UnknownRelation => {
            "a word here is no relation; write equals, includes, is_included_in, overlaps or disjoint, or several of them in braces"
        }
        TextKind::EmptyBraces => "these braces are empty; put at least one relation into them",
        TextKind::RowOutsideTaxonomy => {
            "this row belongs to no taxonomy; put it under a taxonomy line, with no articulation line between; a statement stands in square brackets"
        }
        TextKind::ArticulationOutside => {
            "this statement stands under no articulation line; put the line `articulation` above it"
        }
        TextKind::TaxonomyTwice => {
            "there is a taxonomy of this name already; give this one another name"
        }
        TextKind::TaxonomyCount => {
            "a problem has two to eight taxonomies; add one, or take some out"
        }
        TextKind::UnknownConcept => {
            "a concept here stands in no row above; check how its taxonomy and it are spelled, and that all statements stand below the taxonomies"
        }
        TextKind::SameTaxonomy => {
            "this statement relates concepts of one taxonomy; take those at its two sides from different taxonomies"
        }
        TextKind::TwoParents =>
            "a child here has another parent already; keep it under one of them (a space ends a name)",
        TextKind::ChildTwice =>
            "a child here is under this parent already; name it there once (a space ends a name)",
        TextKind::Cycle => {
            "this row would put a concept under itself; take out one of the rows that lead there (a space ends a name)"
        }
        TextKind::TooManyConcepts => "there are more than 1,024 concepts; take some out",
        TextKind::TooManyArticulations => "there are more than 4,096 statements; take some out",
        TextKind::TooLong => "the file has more than 1,048,576 bytes; shorten it",
        TextKind::NoMemory => "out of memory; free some and try again",
        TextKind::PartTwice => "a part stands in this sum twice; name it once",
    }
}
