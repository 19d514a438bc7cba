//! Where the parts of a listing begin.

ghost use Rattle.std.specs.Prelude.{◌≡◌, ◌∷◌, ◌≤◌, [], drop, IfOk};
ghost use Rattle.constraint_set.specs.Shape.{shape_of};
ghost use Rattle.point_query.specs.Asking.{AskerGoes};
ghost use Rattle.listing_run.specs.Parts.Beginnings.{AreBeginnings, FactsOfBeginnings};

use crate::parts::levels::next_level;
use constraint_set::Problem;
use point_query::Asker;
use rcc5_core::Position;
use std::alloc::{AllocError, Global};

/// The most relations of a beginning.
const MOST_RELS: u32 = 16;

/// Where the parts of a listing begin, if they are to be so many: at the empty position, and at the nodes of the least length of
/// which there are as many, but for the first of them. Where no length up to the most has so many, at those of the most.
#[tactic(auto, using(search_log::proofs::Logs::asker_stays, search_log::proofs::Logs::asker_joins))]
pub fn beginnings(
    alloc: Global,
    problem: &Problem,
    asker: &mut Asker,
    count: u64,
) -> Result<Vec<Position>, AllocError>
    requires count { 1 ≤ count }
    requires shape { asker.old.shape ≡ shape_of problem.now }
    ensures positions { IfOk result (λ positions. AreBeginnings problem.now count positions.items) }
    ensures kept { AskerGoes asker.old asker.new }
{
    let deepest = problem.pair_count().min(MOST_RELS);
    let mut depth = 0;
    let mut nodes = Vec::new(alloc);
    nodes.push(Position::new(alloc))?;
    while depth < deepest && (nodes.len() as u64) < count {
        nodes = next_level(alloc, problem, asker, depth, &nodes)?;
        depth += 1;
    }
    from_empty(alloc, nodes)
}

// The empty position in the place of the first of some nodes, and then the others.
fn from_empty(alloc: Global, nodes: Vec<Position>) -> Result<Vec<Position>, AllocError>
    ensures { IfOk result (λ positions. positions.items ≡ [] ∷ drop 1 nodes.items) }
{
    let mut positions = nodes;
    if positions.is_empty() {
        positions.push(Position::new(alloc))?;
    } else {
        positions[0] = Position::new(alloc);
    }
    Ok(positions)
}

/// What holds of beginnings: there is one list of them, which ascends, and they are few and short.
pub fn facts_of_beginnings()
    ensures { FactsOfBeginnings }
{}
