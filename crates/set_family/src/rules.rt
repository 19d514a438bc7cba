//! The rules on concepts and their children.

ghost use Rattle.std.specs.Prelude.{◌≡◌, ◌<◌, ◌==◌, ◌||◌, length};
ghost use Rattle.std.specs.List.{list_all, list_any};
ghost use Rattle.rcc5_core.specs.Relation.{is_in, is_subset};
ghost use Rattle.world_model.specs.Problem.{concept_count, concepts};
ghost use Rattle.world_model.specs.Family.{set_of};
ghost use Rattle.set_family.specs.Rules.{are_within, is_apart, are_apart, is_covered, rules_at};

use crate::Family;
use crate::merge::{have_common, is_in, is_subset};
use constraint_set::Problem;

impl Family {
    // Whether a concept's set is within another's.
    fn is_within(&self, part: u32, whole: u32) -> bool
        ensures { result ≡ is_subset (set_of self.now part) (set_of self.now whole) }
    {
        is_subset(self.elements(part), self.elements(whole))
    }

    // Whether the sets of some concepts are within that of another.
    pub(crate) fn are_within(&self, parts: &[u32], whole: u32) -> bool
        ensures { result ≡ are_within self.now parts.now whole }
    {
        parts.iter().all(|part| self.is_within(*part, whole))
    }

    // Whether two concepts are one, or have no element in common.
    fn is_apart(&self, a: u32, b: u32) -> bool
        ensures { result ≡ is_apart self.now a b }
    {
        a == b || !have_common(self.elements(a), self.elements(b))
    }

    // Whether this holds of a concept and each of some others.
    fn is_apart_from(&self, child: u32, others: &[u32]) -> bool
        ensures { result ≡ list_all (is_apart self.now child) others.now }
    {
        others.iter().all(|other| self.is_apart(child, *other))
    }

    // Whether no two different ones of some concepts have an element in common. Each two are looked at
    // once, since it is the same for both orders.
    fn are_apart(&self, children: &[u32]) -> bool
        ensures { result ≡ are_apart self.now children.now }
    {
        for place in 0..children.len() {
            if !self.is_apart_from(children[place], &children[place + 1..]) {
                return false;
            }
        }
        true
    }

    // Whether an element is in one of some concepts.
    fn is_in_one(&self, element: u32, parts: &[u32]) -> bool
        ensures { result ≡ list_any (λ part. is_in element (set_of self.now part)) parts.now }
    {
        parts
            .iter()
            .any(|part| is_in(element, self.elements(*part)))
    }

    // Whether each element of a concept is in one of some others.
    pub(crate) fn is_covered(&self, whole: u32, parts: &[u32]) -> bool
        ensures { result ≡ is_covered self.now whole parts.now }
    {
        self.elements(whole)
            .iter()
            .all(|element| self.is_in_one(*element, parts))
    }

    // Whether a concept has no children, or they cover it.
    fn is_leaf_or_covered(&self, concept: u32, children: &[u32]) -> bool
        ensures { result ≡ ((length children.now == 0) || is_covered self.now concept children.now) }
    {
        children.is_empty() || self.is_covered(concept, children)
    }

    // Whether the rules hold on a concept and its children.
    fn concept_holds(&self, problem: &Problem, concept: u32) -> bool
        requires { concept < concept_count problem.now }
        ensures { result ≡ rules_at problem.now self.now concept }
    {
        let switches = problem.switches();
        let children = problem.children(concept);
        self.are_within(children, concept)
            && (!switches.sibling || self.are_apart(children))
            && (!switches.coverage || self.is_leaf_or_covered(concept, children))
            && (!switches.nonempty || !self.elements(concept).is_empty())
    }

    // Whether they hold on each concept.
    pub(crate) fn concepts_hold(&self, problem: &Problem) -> bool
        ensures { result ≡ list_all (rules_at problem.now self.now) (concepts problem.now) }
    {
        for concept in 0..problem.concept_count() {
            if !self.concept_holds(problem, concept) {
                return false;
            }
        }
        true
    }
}
