//! The table of a family.

ghost use Rattle.std.specs.Prelude.{◌≡◌, ◌<◌, ◌↔◌, IsTrue, slice_get, Some};
ghost use Rattle.world_model.specs.Problem.{pair_count};
ghost use Rattle.world_model.specs.Family.{table_of};
ghost use Rattle.set_family.specs.Rules.{HasTable};

use crate::Family;
use constraint_set::Problem;
use rcc5_core::{Position, Rel};

impl Family {
    /// Whether there is one set for each concept, and the relation of each pair of concepts is that of
    /// the table. Takes no memory.
    pub fn has_table(&self, problem: &Problem, table: &Position) -> bool
        ensures { IsTrue result ↔ HasTable problem.now self.now table.now }
    {
        if self.sets.len() != problem.concept_count() as usize {
            return false;
        }
        if table.len() != problem.pair_count() as usize {
            return false;
        }
        for pair in 0..problem.pair_count() {
            if self.shown_at(problem, pair) != table.at(pair as usize) {
                return false;
            }
        }
        true
    }

    // The relation of a pair, by its number.
    fn shown_at(&self, problem: &Problem, pair: u32) -> Rel
        requires { pair < pair_count problem.now }
        ensures { slice_get (table_of problem.now self.now) pair ≡ Some result }
    {
        let (left, right) = problem.pair_at(pair);
        self.rel(left, right)
    }
}
