//! The numbers of variables, and what is read of a problem to number literals.
ghost use Rattle.std.specs.Prelude.{◌≡◌, ◌+◌, ◌*◌, ◌<◌, ◌≤◌, length, All, IfSome, Some, slice_get};
ghost use Rattle.lits_core.specs.Literals.{literal_of};
ghost use Rattle.world_model.specs.Problem.{concept_count, parent_of, children_of, pair_count};
ghost use Rattle.constraint_set.specs.Readers.{all_sums, sum_places};
ghost use Rattle.point_encode.specs.Model.Clauses.{first_sum_selector, is_not, is_so, variable_count};

use constraint_set::{MAX_ARTICULATIONS, MAX_CONCEPTS, MAX_PAIRS, Problem};
use lits_core::Lit;
use world_model::{Articulation, pairs_stand_once};

/// The selectors of sums begin no later than with this variable: before them come one a concept and three a pair.
pub const MAX_SUM_START: u32 = MAX_CONCEPTS + 3 * MAX_PAIRS;

/// The clauses of a problem have no more variables than these.
pub const MAX_VARIABLES: u32 = MAX_SUM_START + MAX_ARTICULATIONS as u32;

/// How many variables the clauses of a problem have: one a concept, three a pair, one a sum.
pub fn variable_count(problem: &Problem) -> u32
    ensures { result ≡ variable_count problem.now }
{
    first_selector(problem, problem.pair_count()) + sum_count(problem)
}

// The variable of the first selector of a pair, or of the first sum for the number of pairs.
pub(crate) fn first_selector(problem: &Problem, pair: u32) -> u32
    requires { pair ≤ pair_count problem.now }
    ensures value { result ≡ concept_count problem.now + 3 * pair }
    ensures small { result ≤ MAX_SUM_START }
{
    problem.facts();
    pairs_stand_once();
    problem.concept_count() + 3 * pair
}

// How many concepts there are, which are few.
pub(crate) fn concept_count(problem: &Problem) -> u32
    ensures value { result ≡ concept_count problem.now }
    ensures small { result ≤ MAX_CONCEPTS }
{
    problem.facts();
    problem.concept_count()
}

// How many sums there are, which are few.
pub(crate) fn sum_count(problem: &Problem) -> u32
    ensures rules { result ≡ length (all_sums problem.now) }
    ensures places { result ≡ length (sum_places problem.now) }
    ensures small { result ≤ MAX_ARTICULATIONS }
{
    problem.facts();
    problem.sum_count()
}

// The literal that a variable holds.
pub(crate) fn is_so(variable: u32) -> Lit
    requires { variable ≤ MAX_VARIABLES }
    ensures { result ≡ is_so variable }
{
    Lit::new(variable, false)
}

// The literal that a variable does not hold.
pub(crate) fn is_not(variable: u32) -> Lit
    requires { variable ≤ MAX_VARIABLES }
    ensures { result ≡ is_not variable }
{
    Lit::new(variable, true)
}

// The parent of a concept, if it has one.
pub(crate) fn parent_of(problem: &Problem, concept: u32) -> Option<u32>
    requires { concept < concept_count problem.now }
    ensures value { result ≡ parent_of problem.now concept }
    ensures small { IfSome result (λ parent. parent < MAX_CONCEPTS) }
{
    problem.facts();
    problem.parent(concept)
}

// The children of a concept, in order.
pub(crate) fn children_of(problem: &Problem, concept: u32) -> &[u32]
    requires { concept < concept_count problem.now }
    ensures value { result.now ≡ children_of problem.now concept }
    ensures small { All (λ child. child < MAX_CONCEPTS) result.now }
{
    problem.facts();
    problem.children(concept)
}

// The whole and the parts of a sum, by the number of the sum.
pub(crate) fn sum_of(problem: &Problem, sum: u32) -> (u32, &[u32])
    requires { sum < length (all_sums problem.now) }
    ensures value { slice_get (all_sums problem.now) sum ≡ Some (record { whole = result.0; parts = result.1.now }) }
    ensures whole { result.0 < MAX_CONCEPTS }
    ensures parts { All (λ part. part < MAX_CONCEPTS) result.1.now }
{
    problem.facts();
    let _count = problem.sum_count();
    match problem.articulation(problem.sum_at(sum)) {
        Articulation::Sum { whole, parts } => (*whole, parts.list()),
        Articulation::Pair { .. } => unreachable!(),
    }
}
