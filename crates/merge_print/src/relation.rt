//! The relation of two concepts by a table.

ghost use Rattle.std.specs.Prelude.{◌≡◌, ◌<◌, length};
ghost use Rattle.world_model.specs.Problem.{concept_count, pair_count};
ghost use Rattle.merge_print.specs.Merged.{pair_relation, relation_between, are_equal, is_within, do_overlap};

use constraint_set::Problem;
use rcc5_core::{Position, Rel};

fn at_pair(problem: &Problem, table: &Position, x: u32, y: u32) -> Rel
    requires order { x < y }
    requires within { y < concept_count problem.now }
    requires whole { length table.now ≡ pair_count problem.now }
    ensures { result ≡ pair_relation problem.now table.now x y }
{
    table.at(problem.pair_index(x, y) as usize)
}

fn relation(problem: &Problem, table: &Position, x: u32, y: u32) -> Rel
    requires x_within { x < concept_count problem.now }
    requires y_within { y < concept_count problem.now }
    requires whole { length table.now ≡ pair_count problem.now }
    ensures { result ≡ relation_between problem.now table.now x y }
{
    if x == y {
        Rel::Equals
    } else if x < y {
        at_pair(problem, table, x, y)
    } else {
        at_pair(problem, table, y, x).converse()
    }
}

pub(crate) fn are_equal(problem: &Problem, table: &Position, x: u32, y: u32) -> bool
    requires x_within { x < concept_count problem.now }
    requires y_within { y < concept_count problem.now }
    requires whole { length table.now ≡ pair_count problem.now }
    ensures { result ≡ are_equal problem.now table.now x y }
{
    matches!(relation(problem, table, x, y), Rel::Equals)
}

pub(crate) fn is_within(problem: &Problem, table: &Position, x: u32, y: u32) -> bool
    requires x_within { x < concept_count problem.now }
    requires y_within { y < concept_count problem.now }
    requires whole { length table.now ≡ pair_count problem.now }
    ensures { result ≡ is_within problem.now table.now x y }
{
    matches!(relation(problem, table, x, y), Rel::IncludedIn)
}

pub(crate) fn do_overlap(problem: &Problem, table: &Position, x: u32, y: u32) -> bool
    requires x_within { x < concept_count problem.now }
    requires y_within { y < concept_count problem.now }
    requires whole { length table.now ≡ pair_count problem.now }
    ensures { result ≡ do_overlap problem.now table.now (x, y) }
{
    matches!(relation(problem, table, x, y), Rel::Overlaps)
}
