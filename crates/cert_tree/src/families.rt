//! Families that show a world, or that a subject holds.

ghost use Rattle.std.specs.Prelude.{◌≡◌, ◌≤◌, length, map, ℕ, List};
ghost use Rattle.world_model.specs.Problem.{concept_count};
ghost use Rattle.set_family.specs.Sets.{family_from};
ghost use Rattle.cert_tree.specs.Families.{met_family};
ghost use Rattle.cert_rules.specs.Trees.{table_along, same_position, family_fault, table_fault, world_fault};

use crate::relations::is_same;
use crate::tree::Branching;
use cert_rules::RejectKind;
use cert_text::RawFamily;
use constraint_set::Problem;
use rcc5_core::Position;
use set_family::Family;

/// The family of some words, where it meets the problem.
fn met_family(problem: &Problem, words: RawFamily) -> Option<Family>
    ensures { result ≡ met_family problem.now words }
{
    let (universe, lists) = words.into_parts();
    let family = Family::from_lists(universe, lists)?;
    if family.meets(problem) {
        Some(family)
    } else {
        None
    }
}

/// What is wrong with the words of a family that is to meet a problem.
pub fn family_fault(problem: &Problem, words: RawFamily) -> Option<RejectKind>
    ensures { result ≡ family_fault problem.now (family_from words.universe words.sets) }
{
    match met_family(problem, words) {
        Some(_) => None,
        None => Some(RejectKind::FamilyDoesNotMeet),
    }
}

impl Branching {
    /// What is wrong with the words of a family that is to show a node as a world.
    pub(crate) fn world_fault(&self, path: &Position, words: RawFamily) -> Option<RejectKind>
        requires { length path.now ≤ length self.now.levels }
        ensures { result ≡ world_fault self.now path.now words }
    {
        let Some(family) = met_family(&self.subject, words) else {
            return Some(RejectKind::FamilyDoesNotMeet);
        };
        if self.is_table(path, &family) {
            None
        } else {
            Some(RejectKind::FamilyHasOtherTable)
        }
    }

    /// Whether the relations of a family at the pairs of the tree are those of a path.
    fn is_table(&self, path: &Position, family: &Family) -> bool
        requires path { length path.now ≤ length self.now.levels }
        requires sets { length family.now.sets ≡ concept_count self.now.subject }
        ensures { result ≡ same_position (table_along self.now.levels family.now) path.now }
    {
        if path.len() != self.depth_count() {
            return false;
        }
        for depth in 0..path.len() {
            let (left, right) = self.pair_of(depth);
            if !is_same(family.relation(left, right), path.at(depth)) {
                return false;
            }
        }
        true
    }
}
