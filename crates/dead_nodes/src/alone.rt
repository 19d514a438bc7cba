//! Concepts that a node's last relation leaves without a point: it empties one of the two parts of a concept, and the other
//! had no point before.
//!
//! What both concepts of a pair have in common is often shown empty by one clause. Where they are now to be equal, or one in the
//! other, that clause and the relation's own show a concept empty. So dead nodes beside one another are shown by what was shown
//! of their pair, and one search for it at most.
ghost use Rattle.std.specs.Prelude.{◌≡◌, ◌<◌, ◌≤◌, length, IfOk, IfSome};
ghost use Rattle.world_model.specs.Problem.{concept_count, pair_count};
ghost use Rattle.constraint_set.specs.Shape.{shape_of};
ghost use Rattle.point_encode.specs.Needs.{IsInRange};
ghost use Rattle.point_query.specs.Asking.{AskerGoes};
ghost use Rattle.dead_nodes.specs.Why.{Closes};

use crate::hints::{Guess, Hints, Reason};
use crate::near::{Region, shown_near};
use constraint_set::Problem;
use lits_core::Lit;
use point_encode::{Need, forced_at, is_empty, is_forced, need_number};
use point_query::{Asker, Found};
use rcc5_core::Position;
use std::alloc::{AllocError, Global};

/// A concept of a pair with its two parts: which one the last relation empties, and which one is left.
#[derive(Clone, Copy)]
struct Side {
    pair: u32,
    concept: u32,
    other: u32,
    emptied: u8,
    left: u8,
}

// What shows that a region of a node's last pair has no point: a live clause that was kept of it, or one that is derived.
#[tactic(auto, using(search_log::proofs::Logs::asker_stays, search_log::proofs::Logs::asker_joins))]
fn bare_by(
    problem: &Problem,
    asker: &mut Asker,
    hints: &mut Hints,
    node: &Position,
    region: Region,
) -> Result<Option<u64>, AllocError>
    requires shape { asker.old.shape ≡ shape_of problem.now }
    requires within { length node.now ≤ pair_count problem.now }
    requires pair { region.pair < pair_count problem.now }
    requires part { region.part < 3 }
    ensures kept { AskerGoes asker.old asker.new }
{
    let asked = Need::Region {
        pair: region.pair,
        part: region.part as u8,
    };
    let need = u64::from(need_number(problem, asked));
    if let Some(clause) = hints.clause_of(problem, asker, node, asked, need) {
        return Ok(Some(clause));
    }
    hints.learn(problem)?;
    let mut shown = None;
    if let Some(draft) = shown_near(problem, node, &hints.given, region) {
        shown = asker.derive(&draft.lits, &draft.hints)?;
    }
    if shown.is_none() {
        shown = asked_above(problem, asker, node, asked, hints.alloc)?;
    }
    if let Some(clause) = shown {
        hints.keep(asker, node, Reason { need, clause })?;
    }
    Ok(shown)
}

// The clause that leaves a need no point above a node, where the asker's points stay.
#[tactic(auto, using(search_log::proofs::Logs::asker_stays))]
fn asked_above(
    problem: &Problem,
    asker: &mut Asker,
    node: &Position,
    need: Need,
    alloc: Global,
) -> Result<Option<u64>, AllocError>
    requires shape { asker.old.shape ≡ shape_of problem.now }
    requires within { length node.now ≤ pair_count problem.now }
    requires range { IsInRange problem.now need }
    ensures kept { AskerGoes asker.old asker.new }
{
    let mut prefix = node.copy(alloc)?;
    prefix.pop();
    match asker.ask(problem, &prefix, need)? {
        Found::Point(_) => Ok(None),
        Found::Closed(clause) => Ok(Some(clause)),
    }
}

// The literals of a clause without those of a concept, and one more.
fn lits_without(
    alloc: Global,
    asker: &Asker,
    clause: u64,
    concept: u32,
    more: Lit,
) -> Result<Vec<Lit>, AllocError> {
    let mut lits = Vec::new(alloc);
    if let Some(list) = asker.clause(clause) {
        for place in 0..list.count() {
            let lit = list.lit(place);
            if lit.variable() != concept {
                lits.push(lit)?;
            }
        }
    }
    lits.push(more)?;
    Ok(lits)
}

// The clause that a side's concept has no point, where one shows that nothing is in the part that is left.
#[tactic(auto, using(search_log::proofs::Logs::asker_stays))]
fn emptied_by(
    problem: &Problem,
    asker: &mut Asker,
    hints: &Hints,
    side: Side,
    bare: u64,
) -> Result<Option<u64>, AllocError>
    requires shape { asker.old.shape ≡ shape_of problem.now }
    requires pair { side.pair < pair_count problem.now }
    requires emptied { side.emptied < 3 }
    ensures kept { AskerGoes asker.old asker.new }
{
    problem.facts();
    let pair = side.pair;
    let part = u32::from(side.emptied);
    let selector = Lit::new(problem.concept_count() + 3 * pair + part, true);
    let lits = lits_without(hints.alloc, asker, bare, side.other, selector)?;
    let given = hints.given.of_region(Region { pair, part });
    asker.derive(&lits, &[given, bare])
}

// The concept of a side as a need without a point, where a node's last relation empties one part of it and nothing is in the other.
#[tactic(auto, using(search_log::proofs::Logs::asker_stays, search_log::proofs::Logs::asker_joins))]
fn emptied(
    problem: &Problem,
    asker: &mut Asker,
    hints: &mut Hints,
    node: &Position,
    side: Side,
) -> Result<Option<Reason>, AllocError>
    requires shape { asker.old.shape ≡ shape_of problem.now }
    requires within { length node.now ≤ pair_count problem.now }
    requires pair { side.pair < pair_count problem.now }
    requires concept { side.concept < concept_count problem.now }
    requires emptied { side.emptied < 3 }
    requires left { side.left < 3 }
    ensures kept { AskerGoes asker.old asker.new }
    ensures closed { IfOk result (λ found. IfSome found (Closes problem.now asker.new.solver.state node.now)) }
{
    let need = Need::Concept(side.concept);
    if !is_forced(problem, node, need)
        || !is_empty(forced_at(problem, node, side.pair), u32::from(side.emptied))
    {
        return Ok(None);
    }
    let region = Region {
        pair: side.pair,
        part: u32::from(side.left),
    };
    let Some(bare) = bare_by(problem, asker, hints, node, region)? else {
        return Ok(None);
    };
    let shown = emptied_by(problem, asker, hints, side, bare)?;
    hints.keep_held(problem, asker, node, need, shown)
}

// A concept of a node's last pair that is emptied, where nothing is in both: the left one, or else the right one.
#[tactic(auto, using(search_log::proofs::Logs::asker_stays, search_log::proofs::Logs::asker_joins))]
fn emptied_of_two(
    problem: &Problem,
    asker: &mut Asker,
    hints: &mut Hints,
    node: &Position,
    pair: u32,
) -> Result<Option<Reason>, AllocError>
    requires shape { asker.old.shape ≡ shape_of problem.now }
    requires within { length node.now ≤ pair_count problem.now }
    requires pair { pair < pair_count problem.now }
    ensures kept { AskerGoes asker.old asker.new }
    ensures closed { IfOk result (λ found. IfSome found (Closes problem.now asker.new.solver.state node.now)) }
{
    let (left, right) = problem.pair_at(pair);
    let side = Side {
        pair,
        concept: left,
        other: right,
        emptied: 0,
        left: 1,
    };
    let reason = emptied(problem, asker, hints, node, side)?;
    if reason.is_some() {
        return Ok(reason);
    }
    let side = Side {
        pair,
        concept: right,
        other: left,
        emptied: 2,
        left: 1,
    };
    emptied(problem, asker, hints, node, side)
}

/// A concept that a node's last relation leaves without a point, where a region of its pair is known to have none.
#[tactic(auto, using(search_log::proofs::Logs::asker_stays))]
pub(crate) fn alone(
    problem: &Problem,
    asker: &mut Asker,
    hints: &mut Hints,
    node: &Position,
) -> Result<Option<Reason>, AllocError>
    requires shape { asker.old.shape ≡ shape_of problem.now }
    requires within { length node.now ≤ pair_count problem.now }
    ensures kept { AskerGoes asker.old asker.new }
    ensures closed { IfOk result (λ found. IfSome found (Closes problem.now asker.new.solver.state node.now)) }
{
    problem.facts();
    let Some(last) = node.len().checked_sub(1) else {
        return Ok(None);
    };
    let Guess::Beside(bare) = hints.guess else {
        return Ok(None);
    };
    let pair = last as u32;
    let (left, right) = problem.pair_at(pair);
    if bare == 1 {
        return emptied_of_two(problem, asker, hints, node, pair);
    }
    if bare == 0 {
        let side = Side {
            pair,
            concept: left,
            other: right,
            emptied: 1,
            left: 0,
        };
        return emptied(problem, asker, hints, node, side);
    }
    let side = Side {
        pair,
        concept: right,
        other: left,
        emptied: 1,
        left: 2,
    };
    emptied(problem, asker, hints, node, side)
}
