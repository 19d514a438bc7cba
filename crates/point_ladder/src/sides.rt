//! The two sets of a pair: the points that have its concepts.
ghost use Rattle.std.specs.Prelude.{◌<◌};
ghost use Rattle.world_model.specs.Problem.{pair_count};
ghost use Rattle.world_model.specs.Node.{pair_at};
ghost use Rattle.world_model.specs.Trial.{points_by_trial};
ghost use Rattle.bit_rows.specs.Rows.{has_bit};
ghost use Rattle.point_table.specs.Table.{AreRowsOf};
ghost use Rattle.point_ladder.specs.Ladders.{ShowsPair};

use bit_rows::{Rows, Sides};
use constraint_set::Problem;

/// The rows of a pair's two concepts.
pub(crate) fn sides_of<'a>(problem: &Problem, rows: &'a Rows, pair: u32) -> Sides<'a>
    requires rows { AreRowsOf problem.now rows.now }
    requires within { pair < pair_count problem.now }
    ensures { ShowsPair (pair_at problem.now pair) (points_by_trial problem.now) (has_bit result.left.now) (has_bit result.right.now) }
{
    let (left, right) = problem.pair_at(pair);
    Sides {
        left: rows.row(left as usize),
        right: rows.row(right as usize),
    }
}
