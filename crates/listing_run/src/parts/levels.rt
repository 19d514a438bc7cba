//! The nodes of one length, made of those that are shorter by a relation.
ghost use Rattle.std.specs.Prelude.{◌≡◌, ◌<◌, ◌+◌, ◌++◌, [], ◌∷◌, length, map, IfOk, OnOk};
ghost use Rattle.world_model.specs.Problem.{pair_count};
ghost use Rattle.world_model.specs.Alive.{allowed};
ghost use Rattle.world_model.specs.Node.{pair_at};
ghost use Rattle.world_model.specs.Trial.{next_rels};
ghost use Rattle.constraint_set.specs.Shape.{shape_of};
ghost use Rattle.point_query.specs.Asking.{AskerGoes};
ghost use Rattle.listing_run.specs.Parts.Levels.{followers, level_by_trial};

use constraint_set::Problem;
use point_query::Asker;
use rcc5_core::{Position, Rel, RelSet};
use std::alloc::{AllocError, Global};

// The relations, in their order.
const RELS: [Rel; 5] = [
    Rel::Equals,
    Rel::Includes,
    Rel::IncludedIn,
    Rel::Overlaps,
    Rel::Disjoint,
];

// A position followed by one more relation.
fn followed_by(alloc: Global, prefix: &Position, rel: Rel) -> Result<Position, AllocError>
    ensures { IfOk result (λ longer. longer ≡ prefix.now ++ rel ∷ []) }
{
    let mut longer = prefix.copy(alloc)?;
    longer.push(rel)?;
    Ok(longer)
}

// What the problem allows of the pair after a prefix.
fn next_set(problem: &Problem, prefix: &Position) -> RelSet
    requires { length prefix.now < pair_count problem.now }
    ensures { result ≡ allowed problem.now (pair_at problem.now (length prefix.now)) }
{
    problem.facts();
    problem.allowed(prefix.len() as u32)
}

// A prefix followed by each relation that its next pair allows.
fn longer(alloc: Global, problem: &Problem, prefix: &Position) -> Result<Vec<Position>, AllocError>
    requires { length prefix.now < pair_count problem.now }
    ensures { IfOk result (λ longer. longer.items ≡ map (λ rel. prefix.now ++ rel ∷ []) (next_rels problem.now prefix.now)) }
{
    let set = next_set(problem, prefix);
    let mut longer = Vec::new(alloc);
    for rel in RELS {
        if set.has(rel) {
            longer.push(followed_by(alloc, prefix, rel)?)?;
        }
    }
    Ok(longer)
}

// Adds the nodes that follow a node: none, unless it is alive.
fn add_followers(
    alloc: Global,
    problem: &Problem,
    asker: &mut Asker,
    node: &Position,
    nodes: &mut Vec<Position>,
) -> Result<(), AllocError>
    requires shape { asker.old.shape ≡ shape_of problem.now }
    requires short { length node.now < pair_count problem.now }
    ensures kept { AskerGoes asker.old asker.new }
    ensures nodes { OnOk result (nodes.new.items ≡ nodes.old.items ++ followers problem.now node.now) }
{
    if asker.is_alive(problem, node)? {
        let mut longer = longer(alloc, problem, node)?;
        nodes.append(&mut longer)?;
    }
    Ok(())
}

/// The nodes that follow those of a length.
#[tactic(auto, using(search_log::proofs::Logs::asker_stays, search_log::proofs::Logs::asker_joins))]
pub(crate) fn next_level(
    alloc: Global,
    problem: &Problem,
    asker: &mut Asker,
    depth: u32,
    level: &[Position],
) -> Result<Vec<Position>, AllocError>
    requires shape { asker.old.shape ≡ shape_of problem.now }
    requires level { level.now ≡ level_by_trial problem.now depth }
    requires short { depth < pair_count problem.now }
    ensures kept { AskerGoes asker.old asker.new }
    ensures next { IfOk result (λ next. next.items ≡ level_by_trial problem.now (depth + 1)) }
{
    let mut next = Vec::new(alloc);
    for node in level {
        add_followers(alloc, problem, asker, node, &mut next)?;
    }
    Ok(next)
}
