//! A pair across taxonomies, by its number: its names and its relation.

ghost use Rattle.std.specs.Prelude.{◌≡◌, ◌<◌, ◌++◌, length, slice_index_or, OnOk};
ghost use Rattle.rcc5_core.specs.declared.Rel.TheVariants.{Disjoint};
ghost use Rattle.world_model.specs.Problem.{concept_count, cross_pairs};
ghost use Rattle.cleantax_text.specs.Canonical.{concept_text};
ghost use Rattle.world_watch.specs.Kinds.{pair_names, cross_at};

use cleantax_text::concept_text;
use constraint_set::Problem;
use rcc5_core::Rel;
use std::alloc::{AllocError, Global};

fn put_concept(
    out: &mut Vec<u8>,
    alloc: Global,
    problem: &Problem,
    concept: u32,
) -> Result<(), AllocError>
    requires { concept < concept_count problem.now }
    ensures { OnOk result (out.new.items ≡ out.old.items ++ concept_text problem.now concept) }
{
    let name = concept_text(alloc, problem, concept)?;
    out.extend_from_slice(&name)
}

fn cross_at(problem: &Problem, pair: u32) -> (u32, u32)
    requires { pair < length (cross_pairs problem.now) }
    ensures pair { result ≡ cross_at problem.now pair }
    ensures left { result.0 < concept_count problem.now }
    ensures right { result.1 < concept_count problem.now }
{
    problem.pair_at(pair)
}

/// Puts the names of a pair across taxonomies, which is given by its number.
pub(crate) fn put_names(
    out: &mut Vec<u8>,
    alloc: Global,
    problem: &Problem,
    pair: u32,
) -> Result<(), AllocError>
    requires { pair < length (cross_pairs problem.now) }
    ensures { OnOk result (out.new.items ≡ out.old.items ++ pair_names problem.now (cross_at problem.now pair)) }
{
    let (left, right) = cross_at(problem, pair);
    put_concept(out, alloc, problem, left)?;
    out.extend_from_slice(b" ")?;
    put_concept(out, alloc, problem, right)
}

/// The relation of the pair with a number.
pub(crate) fn rel_at(rels: &[Rel], pair: usize) -> Rel
    requires { pair < length rels.now }
    ensures { result ≡ slice_index_or rels.now pair Disjoint }
{
    rels[pair]
}
