//! The families found so far, each of which shows a relation of every pair.
ghost use Rattle.std.specs.Prelude.{◌≡◌, ◌<◌, ◌++◌, [], ◌∷◌, All, IfSome, OnOk};
ghost use Rattle.world_model.specs.Problem.{pair_count};
ghost use Rattle.set_family.specs.Meeting.{IsMetBy};
ghost use Rattle.mir_report.specs.Steps.{ShowsAt};

use constraint_set::Problem;
use rcc5_core::Rel;
use set_family::Family;
use std::alloc::AllocError;

/// The last of some families that has a relation at a pair.
pub(crate) fn shown_by<'a>(
    families: &'a [Family],
    problem: &Problem,
    pair: u32,
    rel: Rel,
) -> Option<&'a Family>
    requires families { All (IsMetBy problem.now) families.now }
    requires within { pair < pair_count problem.now }
    ensures { IfSome result (λ family. ShowsAt problem.now pair rel family.now) }
{
    let (left, right) = problem.pair_at(pair);
    for family in families.iter().rev() {
        if family.relation(left, right) == rel {
            return Some(family);
        }
    }
    None
}

/// Puts a value behind others.
pub(crate) fn put<T: Drop>(list: &mut Vec<T>, value: T) -> Result<(), AllocError>
    ensures { OnOk result (list.new.items ≡ list.old.items ++ value ∷ []) }
{
    list.push(value)?;
    Ok(())
}
