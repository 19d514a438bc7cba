//! The relation of two sets, by one pass over two ascending lists.

ghost use Rattle.std.specs.Prelude.{◌≡◌, ◌||◌, IsTrue};
ghost use Rattle.rcc5_core.specs.Relation.{relation_of, relation_by, is_ascending};

use crate::Rel;

/// The relation of two sets, each given by its elements in ascending order, none twice.
///
/// One merge of the two lists, which stops as soon as each of the three regions has an element.
pub fn rel_of(x: &[u32], y: &[u32]) -> Rel
    requires left { IsTrue (is_ascending x.now) }
    requires right { IsTrue (is_ascending y.now) }
    ensures { result ≡ relation_of x.now y.now }
{
    let mut i = 0;
    let mut j = 0;
    let mut left_only = false;
    let mut both = false;
    let mut right_only = false;
    'merge: while i < x.len() && j < y.len() {
        if left_only && both && right_only {
            return Rel::Overlaps;
        }
        let a = x[i];
        let b = y[j];
        if a < b {
            left_only = true;
            i += 1;
        } else if b < a {
            right_only = true;
            j += 1;
        } else {
            both = true;
            i += 1;
            j += 1;
        }
    }
    let left_rest = i < x.len();
    let right_rest = j < y.len();
    rel_of_regions(left_only, both, right_only, left_rest, right_rest)
}

// The relation of two sets, by which of X without Y, X and Y, and Y without X have an element, where a
// list that isn't at its end has elements that the other lacks.
fn rel_of_regions(
    left_only: bool,
    both: bool,
    right_only: bool,
    left_rest: bool,
    right_rest: bool,
) -> Rel
    ensures { result ≡ relation_by (left_only || left_rest) both (right_only || right_rest) }
{
    match (left_only || left_rest, both, right_only || right_rest) {
        (false, _, false) => Rel::Equals,
        (false, _, true) => Rel::IncludedIn,
        (true, _, false) => Rel::Includes,
        (true, false, true) => Rel::Disjoint,
        (true, true, true) => Rel::Overlaps,
    }
}
