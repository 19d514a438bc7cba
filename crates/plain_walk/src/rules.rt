//! The rules that a point meets, each tested as it is said.
ghost use Rattle.std.specs.Prelude.{◌≡◌, ◌<◌, ◌+◌, ◌==◌, ◌||◌, ◌&&◌, not, length, IsTrue};
ghost use Rattle.std.specs.List.{list_all, list_any};
ghost use Rattle.world_model.specs.Problem.{children_of, kept_sums};
ghost use Rattle.world_model.specs.Family.{implies};
ghost use Rattle.world_model.specs.Alive.{bit_of, point_within, point_apart, point_covered, point_sums, meets_structure};
ghost use Rattle.plain_walk.specs.Plain.{sum_at, sums_from};

use constraint_set::{Articulation, Problem};

// A concept's bit in a list of bits.
pub(crate) fn bit(bits: &[bool], concept: usize) -> bool
    ensures { result ≡ bit_of bits.now concept }
{
    match bits.get(concept) {
        Some(bit) => *bit,
        None => false,
    }
}

// Whether one of some concepts has the point.
fn any_bit(bits: &[bool], concepts: &[u32]) -> bool
    ensures { result ≡ list_any (bit_of bits.now) concepts.now }
{
    concepts.iter().any(|concept| bit(bits, *concept as usize))
}

// A concept's children, and none for what is no concept.
fn children_at(problem: &Problem, concept: usize) -> &[u32]
    ensures { result.now ≡ children_of problem.now concept }
{
    problem.facts();
    if concept < problem.concept_count() as usize {
        problem.children(concept as u32)
    } else {
        &[]
    }
}

// Whether each child of a concept that has the point leaves it to the concept too.
fn is_within_at(problem: &Problem, bits: &[bool], concept: usize) -> bool
    ensures { result ≡ list_all (λ child. implies (bit_of bits.now child) (bit_of bits.now concept)) (children_of problem.now concept) }
{
    let whole = bit(bits, concept);
    children_at(problem, concept)
        .iter()
        .all(|child| !bit(bits, *child as usize) || whole)
}

// Whether the bit of each child implies that of its parent.
fn is_within(problem: &Problem, bits: &[bool]) -> bool
    ensures { result ≡ point_within problem.now bits.now }
{
    (0..problem.concept_count() as usize).all(|concept| is_within_at(problem, bits, concept))
}

// Whether no two different ones of some concepts have the point, the first of which is given.
fn is_apart_from(bits: &[bool], child: u32, children: &[u32]) -> bool
    ensures { result ≡ list_all (λ other. (child == other) || not (bit_of bits.now child && bit_of bits.now other)) children.now }
{
    let has = bit(bits, child as usize);
    children.iter().all(|other| child == *other || !(has && bit(bits, *other as usize)))
}

// Whether no two different children of a concept have the point.
fn is_apart_at(problem: &Problem, bits: &[bool], concept: usize) -> bool
    ensures { result ≡ list_all (λ a. list_all (λ b. (a == b) || not (bit_of bits.now a && bit_of bits.now b)) (children_of problem.now concept)) (children_of problem.now concept) }
{
    let children = children_at(problem, concept);
    children
        .iter()
        .all(|child| is_apart_from(bits, *child, children))
}

// Whether no two different children of one parent have the point.
fn is_apart(problem: &Problem, bits: &[bool]) -> bool
    ensures { result ≡ point_apart problem.now bits.now }
{
    (0..problem.concept_count() as usize).all(|concept| is_apart_at(problem, bits, concept))
}

// Whether a concept that has the point has no children, or one with the point.
fn is_covered_at(problem: &Problem, bits: &[bool], concept: usize) -> bool
    ensures { result ≡ (length (children_of problem.now concept) == 0) || implies (bit_of bits.now concept) (list_any (bit_of bits.now) (children_of problem.now concept)) }
{
    let children = children_at(problem, concept);
    children.is_empty() || !bit(bits, concept) || any_bit(bits, children)
}

// Whether each concept that has the point and has children has a child with the point.
fn is_covered(problem: &Problem, bits: &[bool]) -> bool
    ensures { result ≡ point_covered problem.now bits.now }
{
    (0..problem.concept_count() as usize).all(|concept| is_covered_at(problem, bits, concept))
}

// Whether a sum holds at a point. What is no sum says nothing.
fn sum_holds(bits: &[bool], articulation: &Articulation) -> bool
    ensures { result ≡ sum_at bits.now articulation.now }
{
    match articulation {
        Articulation::Pair { .. } => true,
        Articulation::Sum { whole, parts } => {
            bit(bits, *whole as usize) == any_bit(bits, parts.list())
        }
    }
}

// Whether an articulation is not kept, or is no sum, or holds at a point.
fn holds_if_kept(problem: &Problem, index: u32, bits: &[bool]) -> bool
    requires { index < length problem.now.articulations }
    ensures { sums_from bits.now problem.now index ≡ (result && sums_from bits.now problem.now (index + 1)) }
{
    if !problem.is_kept(index) {
        return true;
    }
    sum_holds(bits, problem.articulation(index))
}

// Whether each kept sum holds at a point.
fn sums_hold(problem: &Problem, bits: &[bool]) -> bool
    ensures { result ≡ list_all (point_sums bits.now) (kept_sums problem.now) }
{
    for index in 0..problem.articulation_count() {
        if !holds_if_kept(problem, index, bits) {
            return false;
        }
    }
    true
}

// Whether bits meet the rules on a point that speak of the concepts alone.
pub(crate) fn meets_structure(problem: &Problem, bits: &[bool]) -> bool
    ensures { result ≡ meets_structure problem.now bits.now }
{
    let switches = problem.switches();
    bits.len() == problem.concept_count() as usize
        && is_within(problem, bits)
        && (!switches.sibling || is_apart(problem, bits))
        && (!switches.coverage || is_covered(problem, bits))
        && sums_hold(problem, bits)
}
