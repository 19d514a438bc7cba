//! The search for worlds, as its users see it.
ghost use Rattle.std.specs.Prelude.{◌≡◌, ◌≤◌, [], length, IfOk, OnOk, OnErr, IfSome, ⊤};
ghost use Rattle.world_model.specs.Problem.{pair_count};
ghost use Rattle.constraint_set.specs.Shape.{shape_of};
ghost use Rattle.world_search.specs.Guiding.{IsGuideOf};
ghost use Rattle.world_search.specs.Searching.{begun, Came};
ghost use Rattle.world_search.specs.Steps.{IsStepped, IsTableStep};
ghost use Rattle.world_search.specs.Logging.{KeepsOn};
ghost use Rattle.search_log.specs.Logging.{AddsLines, IfLogFailed};
ghost use Rattle.outer_store.specs.Faults.{Rose};

use crate::guide::Guide;
use crate::opens::Opens;
use crate::step::{Nodes, Step, TableStep};
use crate::steps::{family_step, table_step};
use crate::walk::{Span, Stage, Walk};
use cert_text::TreeLog;
use constraint_set::Problem;
use point_query::Asker;
use rcc5_core::Position;
use search_log::StepFault;
use std::alloc::{AllocError, Global};
use std::marker::Model;

/// A walk over the nodes of a problem, in order.
///
/// A node is a prefix of relations: the empty one, or one that follows an alive prefix by a relation that its next pair
/// allows. So nothing below a dead prefix is looked at.
pub struct Search {
    problem: Problem,
    span: Span,
    walk: Walk,
    guide: Guide,
    alloc: Global,
}

// Written out, so that letting one go is a call.
impl Drop for Search {
    fn drop(self) {
        let Search {
            problem: _,
            span: _,
            walk: _,
            guide: _,
            alloc: _,
        } = self;
    }
}

impl Model for Search {
    ghost use Rattle.world_search.specs.Searching.{SearchState};

    ghost Value = { SearchState };

    ghost use Rattle.world_search.specs.Walking.{state_of};
    ghost use Rattle.world_search.specs.Guiding.{IsSearch};

    ghost view = { λ s. state_of s.problem s.span.from s.span.to s.walk };

    ghost invariant = { λ s. IsSearch s.problem s.span.from s.span.to s.walk s.guide };
}

impl Search {
    /// A search that begins at one position and ends before another, if one is given. Neither is longer than the problem has pairs.
    pub fn from(
        alloc: Global,
        problem: &Problem,
        from: Position,
        to: Option<Position>,
    ) -> Result<Search, AllocError>
        requires from { length from ≤ pair_count problem.now }
        requires to { IfSome to (λ end. length end ≤ pair_count problem.now) }
        ensures { IfOk result (λ search. search ≡ begun problem.now from to) }
    {
        let guide = Guide::new(alloc, problem)?;
        begin_at(alloc, problem, from, to, guide)
    }

    /// A search that asks the asker about each node, also where the problem has a table of its points.
    pub fn without_table(
        alloc: Global,
        problem: &Problem,
        from: Position,
        to: Option<Position>,
    ) -> Result<Search, AllocError>
        requires from { length from ≤ pair_count problem.now }
        requires to { IfSome to (λ end. length end ≤ pair_count problem.now) }
        ensures { IfOk result (λ search. search ≡ begun problem.now from to) }
    {
        begin_at(alloc, problem, from, to, Guide::asking(alloc))
    }

    /// Visits the next nodes, up to the next world, or until none may be visited or none is left. Each visit lowers `left`.
    /// The log is told of each node that is passed, and before it of what the asker derived.
    ///
    /// It needs the problem that the search was made of and an asker of its shape. After want of memory it may be called again.
    pub fn next<L: TreeLog>(
        &mut self,
        problem: &Problem,
        asker: &mut Asker,
        nodes: &mut Nodes,
        log: &mut L,
    ) -> Result<Step, StepFault>
        requires problem { self.old.problem ≡ problem.now }
        requires shape { asker.old.shape ≡ shape_of problem.now }
        ensures step { IsStepped self.old self.new nodes.old.left nodes.new.left result }
        ensures problem { self.new.problem ≡ self.old.problem }
        ensures from { self.new.from ≡ self.old.from }
        ensures to { self.new.to ≡ self.old.to }
        ensures asker { asker.new.shape ≡ asker.old.shape }
        ensures none_waits { OnOk result (asker.new.solver.waiting ≡ []) }
        ensures few_idle { OnOk result (length asker.new.solver.idle ≤ 1024) }
        ensures log { L.drops log.new ≡ L.drops log.old }
        ensures keeps { KeepsOn problem.now self.old.from (L.lines log.old) (L.lines log.new) asker.old asker.new self.old.expects self.new.expects }
        ensures told { OnOk result (AddsLines (L.lines log.old) (L.lines log.new)) }
        ensures fault { IfLogFailed result (Rose (L.faults log.old) (L.faults log.new)) (L.faults log.new ≡ L.faults log.old) }
        ensures later { L.faults log.old ≤ L.faults log.new }
        ensures steady { L.steady log.old log.new }
        ensures quiet { IfLogFailed result ⊤ (L.quiet log.old log.new) }
    {
        let (guide, walk) = (&mut self.guide, &mut self.walk);
        family_step(
            self.alloc, problem, asker, log, guide, &self.span, walk, nodes,
        )
    }

    /// The next step without a family for a world, which costs more than to find the world.
    pub fn next_table(
        &mut self,
        problem: &Problem,
        asker: &mut Asker,
        nodes: &mut Nodes,
    ) -> Result<TableStep, AllocError>
        requires problem { self.old.problem ≡ problem.now }
        requires shape { asker.old.shape ≡ shape_of problem.now }
        ensures step { IfOk result (IsTableStep self.old self.new nodes.old.left nodes.new.left) }
        ensures err { OnErr result (Came self.old self.new nodes.old.left nodes.new.left []) }
        ensures problem { self.new.problem ≡ self.old.problem }
        ensures from { self.new.from ≡ self.old.from }
        ensures to { self.new.to ≡ self.old.to }
        ensures asker { asker.new.shape ≡ asker.old.shape }
        ensures none_waits { OnOk result (asker.new.solver.waiting ≡ []) }
        ensures few_idle { OnOk result (length asker.new.solver.idle ≤ 1024) }
    {
        let (guide, walk) = (&mut self.guide, &mut self.walk);
        let step = table_step(self.alloc, problem, asker, guide, &self.span, walk, nodes)?;
        asker.clear_lines();
        Ok(step)
    }
}

// A search that begins at a position, by a guide at the empty prefix.
fn begin_at(
    alloc: Global,
    problem: &Problem,
    from: Position,
    to: Option<Position>,
    guide: Guide,
) -> Result<Search, AllocError>
    requires from { length from ≤ pair_count problem.now }
    requires to { IfSome to (λ end. length end ≤ pair_count problem.now) }
    requires guide { IsGuideOf problem.now [] guide }
    ensures { IfOk result (λ search. search ≡ begun problem.now from to) }
{
    let problem = problem.copy()?;
    let walk = Walk {
        stage: Stage::Start,
        path: Position::new(alloc),
        next: None,
        opens: Opens::new(alloc),
    };
    Ok(Search {
        problem,
        span: Span { from, to },
        walk,
        guide,
        alloc,
    })
}
