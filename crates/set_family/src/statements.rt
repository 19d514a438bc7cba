//! What is stated of concepts: articulations and narrowings; and when a family meets a problem.

ghost use Rattle.std.specs.Prelude.{◌≡◌, ◌&&◌};
ghost use Rattle.std.specs.List.{list_all};
ghost use Rattle.world_model.specs.Problem.{concepts, kept_articulations};
ghost use Rattle.world_model.specs.Family.{holds, sum_holds, fits_concepts, meets};
ghost use Rattle.set_family.specs.Rules.{rules_at, articulation_holds};

use crate::Family;
use constraint_set::{Articulation, Problem};
use rcc5_core::RelSet;

impl Family {
    /// Whether there is one set for each concept, and the family meets the problem, with what its pairs
    /// are narrowed to. Takes no memory.
    pub fn meets(&self, problem: &Problem) -> bool
        ensures { result ≡ meets problem.now self.now }
    {
        self.passes(problem)
    }

    // Whether it meets the problem, test by test.
    fn passes(&self, problem: &Problem) -> bool
        ensures { result ≡ (fits_concepts problem.now self.now && list_all (rules_at problem.now self.now) (concepts problem.now) && list_all (articulation_holds self.now) (kept_articulations problem.now) && list_all (holds self.now) problem.now.narrowings) }
    {
        self.fits_concepts(problem)
            && self.concepts_hold(problem)
            && self.articulations_hold(problem)
            && self.narrowings_hold(problem)
    }

    // Whether there is one set for each concept.
    pub(crate) fn fits_concepts(&self, problem: &Problem) -> bool
        ensures { result ≡ fits_concepts problem.now self.now }
    {
        self.sets.len() == problem.concept_count() as usize
    }

    // Whether the relation of two sets is in a set of relations.
    fn is_related(&self, left: u32, right: u32, set: RelSet) -> bool
        ensures { result ≡ holds self.now (record { left = left; right = right; set = set }) }
    {
        set.has(self.rel(left, right))
    }

    // Whether a whole is the union of its parts.
    fn is_union(&self, whole: u32, parts: &[u32]) -> bool
        ensures { result ≡ sum_holds self.now (record { whole = whole; parts = parts.now }) }
    {
        self.is_covered(whole, parts) && self.are_within(parts, whole)
    }

    /// Whether what an articulation says holds.
    pub fn articulation_holds(&self, articulation: &Articulation) -> bool
        ensures { result ≡ articulation_holds self.now articulation.now }
    {
        match articulation {
            Articulation::Pair { left, right, set } => self.is_related(*left, *right, *set),
            Articulation::Sum { whole, parts } => self.is_union(*whole, parts.list()),
        }
    }

    // Whether what the kept articulations say holds.
    fn articulations_hold(&self, problem: &Problem) -> bool
        ensures { result ≡ list_all (articulation_holds self.now) (kept_articulations problem.now) }
    {
        for index in 0..problem.articulation_count() {
            if problem.is_kept(index) {
                if !self.articulation_holds(problem.articulation(index)) {
                    return false;
                }
            }
        }
        true
    }

    // Whether the pairs are related as they are narrowed to.
    fn narrowings_hold(&self, problem: &Problem) -> bool
        ensures { result ≡ list_all (holds self.now) problem.now.narrowings }
    {
        for index in 0..problem.narrowing_count() {
            let (left, right, set) = problem.narrowing(index);
            if !self.is_related(left, right, set) {
                return false;
            }
        }
        true
    }
}
