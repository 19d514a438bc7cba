//! The canonical text of a problem, piece by piece at the end of what is there.
ghost use Rattle.std.specs.Prelude.{◌≡◌, ◌<◌, ◌++◌, length, map, filter, flat_map, All, IsTrue, Some, slice_get, OnOk, IfOk};
ghost use Rattle.rcc5_core.specs.Relation.{all_rels};
ghost use Rattle.rcc5_core.specs.RelationSet.{has};
ghost use Rattle.world_model.specs.Problem.{concept_count, owner_of, children_of, is_articulation};
ghost use Rattle.world_model.specs.declared.Articulation.{Articulation};
ghost use Rattle.world_model.specs.declared.Articulation.TheVariants.{Sum};
ghost use Rattle.constraint_set.specs.Facts.{IsAsRead};
ghost use Rattle.constraint_set.specs.Readers.{name_of};
ghost use Rattle.cleantax_text.specs.Canonical.{concept_text, word_of, words_text, set_text, spaced, articulation_text, row_text, taxonomy_text, canonical_text};
ghost use Rattle.cleantax_text.specs.ReadsBack.{ReadsBack};
ghost use Rattle.cleantax_text.specs.Pieces.{heading, headings, family, families, taxonomy_pieces, taxonomies_text, pair_text, line_of};

use constraint_set::Problem;
use rcc5_core::{Rel, RelSet};
use std::alloc::{AllocError, Global};
use world_model::Articulation;

fn put(out: &mut Vec<u8>, bytes: &[u8]) -> Result<(), AllocError>
    ensures { OnOk result (out.new.items ≡ out.old.items ++ bytes.now) }
{
    out.extend_from_slice(bytes)?;
    Ok(())
}

pub(crate) fn owner_within(problem: &Problem, concept: u32) -> u32
    requires { concept < concept_count problem.now }
    ensures owner { result ≡ owner_of problem.now concept }
    ensures within { result < length problem.now.taxonomies }
{
    problem.facts();
    problem.owner(concept)
}

fn children_within(problem: &Problem, concept: u32) -> &[u32]
    requires { concept < concept_count problem.now }
    ensures children { result.now ≡ children_of problem.now concept }
    ensures within { All (λ c. c < concept_count problem.now) result.now }
{
    problem.facts();
    problem.children(concept)
}

// ID.NAME
fn put_concept(out: &mut Vec<u8>, problem: &Problem, concept: u32) -> Result<(), AllocError>
    requires { concept < concept_count problem.now }
    ensures { OnOk result (out.new.items ≡ out.old.items ++ concept_text problem.now concept) }
{
    let owner = owner_within(problem, concept);
    put(out, problem.taxonomy_name(owner as usize))?;
    put(out, b".")?;
    put(out, problem.name(concept))
}

fn word_of(rel: Rel) -> &'static [u8]
    ensures { result.now ≡ word_of rel }
{
    match rel {
        Rel::Equals => b"equals",
        Rel::Includes => b"includes",
        Rel::IncludedIn => b"is_included_in",
        Rel::Overlaps => b"overlaps",
        Rel::Disjoint => b"disjoint",
    }
}

// The relations of a set, in order.
fn rels_of(alloc: Global, set: RelSet) -> Result<Vec<Rel>, AllocError>
    ensures { IfOk result (λ rels. rels.items ≡ filter (has set) all_rels) }
{
    members(
        alloc,
        set,
        &[
            Rel::Equals,
            Rel::Includes,
            Rel::IncludedIn,
            Rel::Overlaps,
            Rel::Disjoint,
        ],
    )
}

fn members(alloc: Global, set: RelSet, rels: &[Rel]) -> Result<Vec<Rel>, AllocError>
    ensures { IfOk result (λ list. list.items ≡ filter (has set) rels.now) }
{
    rels.iter()
        .filter(|rel| set.has(**rel))
        .copied()
        .collect(alloc)
}

// A space and a word for each relation.
fn put_words(out: &mut Vec<u8>, rels: &[Rel]) -> Result<(), AllocError>
    ensures { OnOk result (out.new.items ≡ out.old.items ++ spaced (map word_of rels.now)) }
{
    for rel in rels {
        put(out, b" ")?;
        put(out, word_of(*rel))?;
    }
    Ok(())
}

fn put_rels(out: &mut Vec<u8>, rels: &[Rel]) -> Result<(), AllocError>
    ensures { OnOk result (out.new.items ≡ out.old.items ++ words_text (map word_of rels.now)) }
{
    match rels {
        [] => put(out, b"{}"),
        [rel] => put(out, word_of(*rel)),
        [rel, others @ ..] => {
            put(out, b"{")?;
            put(out, word_of(*rel))?;
            put_words(out, others)?;
            put(out, b"}")
        }
    }
}

fn put_set(out: &mut Vec<u8>, alloc: Global, set: RelSet) -> Result<(), AllocError>
    ensures { OnOk result (out.new.items ≡ out.old.items ++ set_text set) }
{
    let rels = rels_of(alloc, set)?;
    put_rels(out, rels.as_slice())
}

// A space and a concept for each number.
fn put_concepts(out: &mut Vec<u8>, problem: &Problem, list: &[u32]) -> Result<(), AllocError>
    requires { All (λ c. c < concept_count problem.now) list.now }
    ensures { OnOk result (out.new.items ≡ out.old.items ++ spaced (map (concept_text problem.now) list.now)) }
{
    for concept in list {
        put(out, b" ")?;
        put_concept(out, problem, *concept)?;
    }
    Ok(())
}

// A space and a name for each number.
fn put_names(out: &mut Vec<u8>, problem: &Problem, list: &[u32]) -> Result<(), AllocError>
    requires { All (λ c. c < concept_count problem.now) list.now }
    ensures { OnOk result (out.new.items ≡ out.old.items ++ spaced (map (name_of problem.now) list.now)) }
{
    for concept in list {
        put(out, b" ")?;
        put(out, problem.name(*concept))?;
    }
    Ok(())
}

// `(NAME NAME ..)`
fn put_row(out: &mut Vec<u8>, problem: &Problem, concept: u32) -> Result<(), AllocError>
    requires { concept < concept_count problem.now }
    ensures { OnOk result (out.new.items ≡ out.old.items ++ row_text problem.now concept) }
{
    put(out, b"(")?;
    put(out, problem.name(concept))?;
    put_names(out, problem, children_within(problem, concept))?;
    put(out, b")\n")
}

// `(NAME)`, where the concept is of this taxonomy
fn put_heading(
    out: &mut Vec<u8>,
    problem: &Problem,
    which: u32,
    concept: u32,
) -> Result<(), AllocError>
    requires { concept < concept_count problem.now }
    ensures { OnOk result (out.new.items ≡ out.old.items ++ heading problem.now which concept) }
{
    if problem.owner(concept) != which {
        return Ok(());
    }
    put(out, b"(")?;
    put(out, problem.name(concept))?;
    put(out, b")\n")
}

// The row of a concept, where it is of this taxonomy and has children
fn put_family(
    out: &mut Vec<u8>,
    problem: &Problem,
    which: u32,
    concept: u32,
) -> Result<(), AllocError>
    requires { concept < concept_count problem.now }
    ensures { OnOk result (out.new.items ≡ out.old.items ++ family problem.now which concept) }
{
    if problem.owner(concept) != which {
        return Ok(());
    }
    if problem.children(concept).len() == 0 {
        return Ok(());
    }
    put_row(out, problem, concept)
}

fn put_headings(out: &mut Vec<u8>, problem: &Problem, which: u32) -> Result<(), AllocError>
    ensures { OnOk result (out.new.items ≡ out.old.items ++ headings problem.now which (concept_count problem.now)) }
{
    for concept in 0..problem.concept_count() {
        put_heading(out, problem, which, concept)?;
    }
    Ok(())
}

fn put_families(out: &mut Vec<u8>, problem: &Problem, which: u32) -> Result<(), AllocError>
    ensures { OnOk result (out.new.items ≡ out.old.items ++ families problem.now which (concept_count problem.now)) }
{
    for concept in 0..problem.concept_count() {
        put_family(out, problem, which, concept)?;
    }
    Ok(())
}

fn put_pieces(out: &mut Vec<u8>, problem: &Problem, which: u32) -> Result<(), AllocError>
    requires { which < length problem.now.taxonomies }
    ensures { OnOk result (out.new.items ≡ out.old.items ++ taxonomy_pieces problem.now which) }
{
    put(out, b"taxonomy ")?;
    put(out, problem.taxonomy_name(which as usize))?;
    put(out, b"\n")?;
    put_headings(out, problem, which)?;
    put_families(out, problem, which)
}

// A taxonomy: its line, a line for each concept, and a row for each concept with children
fn put_taxonomy(out: &mut Vec<u8>, problem: &Problem, which: u32) -> Result<(), AllocError>
    requires { which < length problem.now.taxonomies }
    ensures { OnOk result (out.new.items ≡ out.old.items ++ taxonomy_text problem.now which) }
{
    put_pieces(out, problem, which)
}

fn put_pair(
    out: &mut Vec<u8>,
    problem: &Problem,
    left: u32,
    set: &[u8],
    right: u32,
) -> Result<(), AllocError>
    requires left { left < concept_count problem.now }
    requires right { right < concept_count problem.now }
    ensures { OnOk result (out.new.items ≡ out.old.items ++ pair_text problem.now left set.now right) }
{
    put(out, b"[")?;
    put_concept(out, problem, left)?;
    put(out, b" ")?;
    put(out, set)?;
    put(out, b" ")?;
    put_concept(out, problem, right)?;
    put(out, b"]")
}

fn put_sum(
    out: &mut Vec<u8>,
    problem: &Problem,
    whole: u32,
    parts: &[u32],
) -> Result<(), AllocError>
    requires whole { whole < concept_count problem.now }
    requires parts { All (λ c. c < concept_count problem.now) parts.now }
    ensures { OnOk result (out.new.items ≡ out.old.items ++ articulation_text problem.now (Sum whole parts.now)) }
{
    put(out, b"[")?;
    put_concept(out, problem, whole)?;
    put(out, b" sums")?;
    put_concepts(out, problem, parts)?;
    put(out, b"]")
}

fn set_word(alloc: Global, set: RelSet) -> Result<Vec<u8>, AllocError>
    ensures { IfOk result (λ word. word.items ≡ set_text set) }
{
    let mut word = Vec::new(alloc);
    put_set(&mut word, alloc, set)?;
    Ok(word)
}

#[tactic(auto, using(crate::proofs::PieceLemmas::articulation_rules))]
fn put_articulation(
    out: &mut Vec<u8>,
    alloc: Global,
    problem: &Problem,
    articulation: &Articulation,
) -> Result<(), AllocError>
    requires { IsTrue (is_articulation problem.now articulation.now) }
    ensures { OnOk result (out.new.items ≡ out.old.items ++ articulation_text problem.now articulation.now) }
{
    match articulation {
        Articulation::Pair { left, right, set } => {
            let word = set_word(alloc, *set)?;
            put_pair(out, problem, *left, word.as_slice(), *right)
        }
        Articulation::Sum { whole, parts } => put_sum(out, problem, *whole, parts.list()),
    }
}

fn put_line(
    out: &mut Vec<u8>,
    alloc: Global,
    problem: &Problem,
    articulation: &Articulation,
) -> Result<(), AllocError>
    requires { IsTrue (is_articulation problem.now articulation.now) }
    ensures { OnOk result (out.new.items ≡ out.old.items ++ line_of problem.now articulation.now) }
{
    put_articulation(out, alloc, problem, articulation)?;
    put(out, b"\n")
}

fn put_lines(out: &mut Vec<u8>, alloc: Global, problem: &Problem) -> Result<(), AllocError>
    ensures { OnOk result (out.new.items ≡ out.old.items ++ flat_map (line_of problem.now) problem.now.articulations) }
{
    for index in 0..problem.articulation_count() {
        put_line(out, alloc, problem, problem.articulation(index))?;
    }
    Ok(())
}

fn put_taxonomies(out: &mut Vec<u8>, problem: &Problem) -> Result<(), AllocError>
    ensures { OnOk result (out.new.items ≡ out.old.items ++ taxonomies_text problem.now (length problem.now.taxonomies)) }
{
    for which in 0..problem.taxonomy_count() {
        put_taxonomy(out, problem, which)?;
    }
    Ok(())
}

fn put_problem(out: &mut Vec<u8>, alloc: Global, problem: &Problem) -> Result<(), AllocError>
    ensures { OnOk result (out.new.items ≡ out.old.items ++ canonical_text problem.now) }
{
    put_taxonomies(out, problem)?;
    put(out, b"articulation\n")?;
    put_lines(out, alloc, problem)
}

/// `ID.NAME` for a concept.
pub fn concept_text(alloc: Global, problem: &Problem, concept: u32) -> Result<Vec<u8>, AllocError>
    requires { concept < concept_count problem.now }
    ensures { IfOk result (λ text. text.items ≡ concept_text problem.now concept) }
{
    let mut text = Vec::new(alloc);
    put_concept(&mut text, problem, concept)?;
    Ok(text)
}

/// The line of an articulation in the canonical text, without its line end.
pub fn articulation_text(
    alloc: Global,
    problem: &Problem,
    index: u32,
) -> Result<Vec<u8>, AllocError>
    requires { index < length problem.now.articulations }
    ensures { IfOk result (λ text. (a : Articulation) → slice_get problem.now.articulations index ≡ Some a → text.items ≡ articulation_text problem.now a) }
{
    let mut text = Vec::new(alloc);
    put_articulation(&mut text, alloc, problem, problem.articulation(index))?;
    Ok(text)
}

/// The canonical text of a problem that keeps all articulations and narrows nothing.
///
/// Each line ends with a line feed. For each taxonomy there is its line, a line for each concept, and a
/// row for each concept with children; then the line `articulation`, and a line for each articulation.
pub fn print_problem(alloc: Global, problem: &Problem) -> Result<Vec<u8>, AllocError>
    requires { IsAsRead problem.now }
    ensures text { IfOk result (λ text. text.items ≡ canonical_text problem.now) }
    ensures reads_back { IfOk result (λ text. ReadsBack text.items problem.now) }
{
    let mut text = Vec::new(alloc);
    put_problem(&mut text, alloc, problem)?;
    Ok(text)
}
