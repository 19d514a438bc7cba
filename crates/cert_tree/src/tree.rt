//! The tree of a certificate, and what its nodes allow and force.

ghost use Rattle.std.specs.Prelude.{◌≡◌, ◌<◌, ◌≤◌, ◌&&◌, length, map, IfOk, Some, slice_get};
ghost use Rattle.rcc5_core.specs.Region.{forced_regions};
ghost use Rattle.world_model.specs.Problem.{concept_count, pair_count};
ghost use Rattle.world_model.specs.Alive.{allowed};
ghost use Rattle.world_model.specs.Node.{pair_at};
ghost use Rattle.cert_rules.specs.Trees.{sets_of, node_problem};
ghost use Rattle.cert_rules.specs.FromTheEnd.{set_at};
ghost use Rattle.cert_tree.specs.Levels.{tree_over, bare_tree, narrowed_set};

use crate::levels::Levels;
use constraint_set::Problem;
use rcc5_core::{Position, Regions, Rel, RelSet, forced};
use std::alloc::{AllocError, Global};
use std::marker::Model;
use world_model::pairs_stand_once;

/// A tree: a problem, the pair of each depth, and a start. Nothing in it changes with the path.
#[derive(Drop)]
pub struct Branching {
    pub(crate) subject: Problem,
    levels: Levels,
    pub(crate) from: Position,
}

impl Model for Branching {
    ghost use Rattle.std.specs.Prelude.{map};
    ghost use Rattle.world_model.specs.Node.{pair_at};
    ghost use Rattle.cert_rules.specs.Trees.{Branching};
    ghost use Rattle.cert_tree.specs.Levels.{AreLevels};

    ghost Value = { Branching };

    ghost view = { λ g. record { subject = g.subject; levels = map (pair_at g.subject) g.levels.list.items; from = g.from } };

    ghost invariant = { λ g. AreLevels g.subject g.levels.list.items g.levels.depths.items };
}

impl Branching {
    /// A tree over all pairs, or over those that are split.
    pub fn new(
        alloc: Global,
        subject: Problem,
        all: bool,
        from: Position,
    ) -> Result<Branching, AllocError>
        ensures { IfOk result (λ tree. tree ≡ tree_over subject all from) }
    {
        let levels = Levels::new(alloc, &subject, all)?;
        Ok(Branching {
            subject,
            levels,
            from,
        })
    }

    /// A tree that branches on no pair. It looks at none.
    pub fn root(alloc: Global, subject: Problem) -> Branching
        ensures { result ≡ bare_tree subject }
    {
        Branching {
            subject,
            levels: Levels::none(alloc),
            from: Position::new(alloc),
        }
    }

    /// The problem.
    pub fn into_subject(self) -> Problem
        ensures { result ≡ self.subject }
    {
        self.subject
    }

    /// The start.
    pub fn into_start(self) -> Position
        ensures { result ≡ self.from }
    {
        self.from
    }

    /// On how many pairs the tree branches.
    pub(crate) fn depth_count(&self) -> usize
        ensures { result ≡ length self.now.levels }
    {
        self.levels.list.len()
    }

    /// The pair of a depth.
    pub(crate) fn pair_of(&self, depth: usize) -> (u32, u32)
        requires { depth < length self.now.levels }
        ensures pair { slice_get self.now.levels depth ≡ Some result }
        ensures left { result.0 < concept_count self.now.subject }
        ensures right { result.1 < concept_count self.now.subject }
    {
        self.subject.pair_at(self.levels.list[depth])
    }

    /// The relations at a depth.
    pub(crate) fn set_at(&self, depth: usize) -> RelSet
        requires { depth < length self.now.levels }
        ensures { result ≡ set_at (sets_of self.now) depth }
    {
        self.subject.allowed(self.levels.list[depth])
    }

    /// What a node allows a pair.
    pub(crate) fn allowed_at(&self, path: &Position, pair: u32) -> RelSet
        requires path { length path.now ≤ length self.now.levels }
        requires pair { pair < pair_count self.now.subject }
        ensures { result ≡ allowed (node_problem self.now path.now) (pair_at self.now.subject pair) }
    {
        narrowed_to(self.subject.allowed(pair), self.relation_at(path, pair))
    }

    fn relation_at(&self, path: &Position, pair: u32) -> Option<Rel>
        requires path { length path.now ≤ length self.now.levels }
        requires pair { pair < pair_count self.now.subject }
        ensures { narrowed_set (allowed self.now.subject (pair_at self.now.subject pair)) result ≡ allowed (node_problem self.now path.now) (pair_at self.now.subject pair) }
    {
        pairs_stand_once();
        match self.levels.depth_of(pair) {
            Some(depth) => rel_at(path, depth),
            None => None,
        }
    }

    /// What a node forces of a pair's regions.
    pub(crate) fn forced_at(&self, path: &Position, pair: u32) -> Regions
        requires path { length path.now ≤ length self.now.levels }
        requires pair { pair < pair_count self.now.subject }
        ensures { result ≡ forced_regions (allowed (node_problem self.now path.now) (pair_at self.now.subject pair)) }
    {
        forced(self.allowed_at(path, pair))
    }
}

fn narrowed_to(set: RelSet, rel: Option<Rel>) -> RelSet
    ensures { result ≡ narrowed_set set rel }
{
    match rel {
        Some(rel) => set.meet(RelSet::one(rel)),
        None => set,
    }
}

fn rel_at(path: &Position, depth: usize) -> Option<Rel>
    ensures { result ≡ slice_get path.now depth }
{
    if depth < path.len() {
        Some(path.at(depth))
    } else {
        None
    }
}
