//! The pair that two words name, and its number.
ghost use Rattle.std.specs.Prelude.{◌≡◌, ◌<◌, IfOk};
ghost use Rattle.world_model.specs.Node.{pair_at};
ghost use Rattle.world_model.specs.Problem.{pair_count};
ghost use Rattle.claims_run.specs.Explain.Answering.{named_pair, turned};
ghost use Rattle.claims_run.specs.Explain.Steps.{ArePair};

use cleantax_text::concept_named;
use constraint_set::Problem;
use rcc5_core::RelSet;
use run_ends::PairKind;

/// The concepts that two words name.
pub(crate) fn named_pair(
    problem: &Problem,
    left: &[u8],
    right: &[u8],
) -> Result<(u32, u32), PairKind>
    ensures named { result ≡ named_pair problem.now left.now right.now }
    ensures pair { IfOk result (ArePair problem.now) }
{
    let Some(left) = concept_named(problem, left) else {
        return Err(PairKind::UnknownConcept);
    };
    let Some(right) = concept_named(problem, right) else {
        return Err(PairKind::UnknownConcept);
    };
    if left == right {
        return Err(PairKind::SameConcept);
    }
    Ok((left, right))
}

/// The number of a pair, and a set of its relations, turned round where the left concept is the greater.
pub(crate) fn turned(problem: &Problem, pair: (u32, u32), set: RelSet) -> (u32, RelSet)
    requires { ArePair problem.now pair }
    ensures turned { (pair_at problem.now result.0, result.1) ≡ turned pair set }
    ensures within { result.0 < pair_count problem.now }
{
    let (left, right) = pair;
    if right < left {
        (problem.pair_index(right, left), set.converse())
    } else {
        (problem.pair_index(left, right), set)
    }
}
