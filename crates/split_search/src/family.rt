//! A family at a node where all split pairs are narrowed to a relation.
ghost use Rattle.std.specs.Prelude.{◌≡◌, length, IfOk, IfSome, IfNone};
ghost use Rattle.world_model.specs.Alive.{IsAlive};
ghost use Rattle.constraint_set.specs.Shape.{shape_of};
ghost use Rattle.point_query.specs.Asking.{AskerGoes};
ghost use Rattle.cert_rules.specs.ClaimLists.{split_pairs};
ghost use Rattle.cert_rules.specs.Trees.{node_problem};
ghost use Rattle.set_family.specs.Meeting.{IsMetBy};
ghost use Rattle.split_search.specs.Walking.{IsWalk, split_tree};

use crate::walk::NodePath;
use point_query::Asker;
use rcc5_core::Position;
use set_family::Family;
use std::alloc::{AllocError, Global};
use world_model::whole_sets_are_decided;

/// A family that meets the problem at the node, and so the whole problem: the points that show that the node is alive.
pub(crate) fn family_at(
    alloc: Global,
    walk: &NodePath,
    asker: &mut Asker,
) -> Result<Option<Family>, AllocError>
    requires shape { asker.old.shape ≡ shape_of walk.now.subject }
    requires walk { IsWalk walk.now }
    requires full { length walk.now.path ≡ length (split_pairs walk.now.subject) }
    ensures kept { AskerGoes asker.old asker.new }
    ensures some { IfOk result (λ found. IfSome found (IsMetBy walk.now.subject)) }
    ensures none { IfOk result (λ found. IfNone found (IsAlive (node_problem (split_tree walk.now.subject) walk.now.path) → ⊥)) }
{
    whole_sets_are_decided();
    let node = walk.node();
    node.facts();
    match asker.serving(node, &Position::new(alloc))? {
        None => Ok(None),
        Some(points) => {
            let family = Family::from_points(alloc, node.concept_count(), points.list())?;
            Ok(Some(family))
        }
    }
}
