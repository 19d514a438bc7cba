//! Why a node is dead, by each way in turn: what closed a need at other nodes, what is known of its last pair, and a question.
ghost use Rattle.std.specs.Prelude.{◌≡◌, ◌<◌, ◌≤◌, length, IfOk, IfSome};
ghost use Rattle.world_model.specs.Problem.{pair_count};
ghost use Rattle.world_model.specs.Alive.{problem_at, IsAlive};
ghost use Rattle.constraint_set.specs.Shape.{shape_of};
ghost use Rattle.point_encode.specs.Needs.{IsInRange};
ghost use Rattle.point_query.specs.Asking.{AskerGoes};
ghost use Rattle.dead_nodes.specs.Why.{Closes, IsWhy};

use crate::alone::alone;
use crate::hints::{Guess, Hints, Reason, held};
use crate::near::{Region, shown_near};
use constraint_set::Problem;
use point_encode::{Need, is_forced, need_number};
use point_query::{Asker, Found, Probe};
use rcc5_core::Position;
use std::alloc::{AllocError, Global};

/// The regions of a pair, what the two have in common first: where it is empty, four of the five relations are dead.
const PARTS: [u8; 3] = [1, 0, 2];

/// Why a node is dead.
#[derive(Clone, Copy)]
pub enum WhyDead {
    /// A need of it has no point.
    NoPoint(Reason),
    /// The pair with this number is left no relation.
    NoRelation(u32),
}

/// Why a dead node is dead: by a clause that closed a need of another node, or else by what the asker says.
#[tactic(auto, using(search_log::proofs::Logs::asker_stays, search_log::proofs::Logs::asker_joins))]
pub fn why_dead(
    problem: &Problem,
    asker: &mut Asker,
    hints: &mut Hints,
    node: &Position,
) -> Result<WhyDead, AllocError>
    requires shape { asker.old.shape ≡ shape_of problem.now }
    requires within { length node.now ≤ pair_count problem.now }
    requires dead { IsAlive (problem_at problem.now node.now) → ⊥ }
    ensures kept { AskerGoes asker.old asker.new }
    ensures why { IfOk result (IsWhy problem.now asker.new.solver.state node.now) }
{
    if let Some(reason) = known(problem, asker, hints, node)? {
        asker.facts();
        return Ok(WhyDead::NoPoint(reason));
    }
    let why = asked(problem, asker, node, hints.guess, hints.alloc)?;
    if let WhyDead::NoPoint(reason) = why {
        hints.keep(asker, node, reason)?;
    }
    asker.facts();
    Ok(why)
}

// A need without a point by what closed one before, or else by what is known of the node's last pair.
#[tactic(auto, using(search_log::proofs::Logs::asker_stays, search_log::proofs::Logs::asker_joins))]
fn known(
    problem: &Problem,
    asker: &mut Asker,
    hints: &mut Hints,
    node: &Position,
) -> Result<Option<Reason>, AllocError>
    requires shape { asker.old.shape ≡ shape_of problem.now }
    requires within { length node.now ≤ pair_count problem.now }
    ensures kept { AskerGoes asker.old asker.new }
    ensures closed { IfOk result (λ found. IfSome found (Closes problem.now asker.new.solver.state node.now)) }
{
    let reason = hints.once_more(problem, asker, node)?;
    if reason.is_some() {
        return Ok(reason);
    }
    shown(problem, asker, hints, node)
}

// A need of a node's last pair that what is known of the pair shows without a point: a region of it, or one of its concepts.
#[tactic(auto, using(search_log::proofs::Logs::asker_stays, search_log::proofs::Logs::asker_joins))]
fn shown(
    problem: &Problem,
    asker: &mut Asker,
    hints: &mut Hints,
    node: &Position,
) -> Result<Option<Reason>, AllocError>
    requires shape { asker.old.shape ≡ shape_of problem.now }
    requires within { length node.now ≤ pair_count problem.now }
    ensures kept { AskerGoes asker.old asker.new }
    ensures closed { IfOk result (λ found. IfSome found (Closes problem.now asker.new.solver.state node.now)) }
{
    let reason = near(problem, asker, hints, node)?;
    if reason.is_some() {
        return Ok(reason);
    }
    alone(problem, asker, hints, node)
}

// A region of a node's last pair that is forced occupied, and that a region beside it shows empty.
#[tactic(auto, using(search_log::proofs::Logs::asker_stays, search_log::proofs::Logs::asker_joins))]
fn near(
    problem: &Problem,
    asker: &mut Asker,
    hints: &mut Hints,
    node: &Position,
) -> Result<Option<Reason>, AllocError>
    requires shape { asker.old.shape ≡ shape_of problem.now }
    requires within { length node.now ≤ pair_count problem.now }
    ensures kept { AskerGoes asker.old asker.new }
    ensures closed { IfOk result (λ found. IfSome found (Closes problem.now asker.new.solver.state node.now)) }
{
    problem.facts();
    let Some(pair) = node.len().checked_sub(1) else {
        return Ok(None);
    };
    let guess = hints.guess;
    for part in PARTS {
        if guess.may_be(part) {
            let reason = shown_at(problem, asker, hints, node, pair as u32, part)?;
            if reason.is_some() {
                return Ok(reason);
            }
        }
    }
    Ok(None)
}

// A region of a pair, if a node forces it occupied and one beside it shows it empty.
#[tactic(auto, using(search_log::proofs::Logs::asker_stays))]
fn shown_at(
    problem: &Problem,
    asker: &mut Asker,
    hints: &mut Hints,
    node: &Position,
    pair: u32,
    part: u8,
) -> Result<Option<Reason>, AllocError>
    requires shape { asker.old.shape ≡ shape_of problem.now }
    requires within { length node.now ≤ pair_count problem.now }
    requires pair { pair < pair_count problem.now }
    requires part { part < 3 }
    ensures kept { AskerGoes asker.old asker.new }
    ensures closed { IfOk result (λ found. IfSome found (Closes problem.now asker.new.solver.state node.now)) }
{
    let need = Need::Region { pair, part };
    if !is_forced(problem, node, need) {
        return Ok(None);
    }
    hints.learn(problem)?;
    let part = u32::from(part);
    let Some(draft) = shown_near(problem, node, &hints.given, Region { pair, part }) else {
        return Ok(None);
    };
    let shown = asker.derive(&draft.lits, &draft.hints)?;
    hints.keep_held(problem, asker, node, need, shown)
}

// What the asker says of a dead node: first of the regions of its last pair, since a clause with few literals often shows one of
// them empty, and then of all needs in order.
#[tactic(auto, using(search_log::proofs::Logs::asker_stays, search_log::proofs::Logs::asker_joins))]
fn asked(
    problem: &Problem,
    asker: &mut Asker,
    node: &Position,
    guess: Guess,
    alloc: Global,
) -> Result<WhyDead, AllocError>
    requires shape { asker.old.shape ≡ shape_of problem.now }
    requires within { length node.now ≤ pair_count problem.now }
    requires dead { IsAlive (problem_at problem.now node.now) → ⊥ }
    ensures kept { AskerGoes asker.old asker.new }
    ensures why { IfOk result (IsWhy problem.now asker.new.solver.state node.now) }
{
    if let Some(reason) = asked_of_last(problem, asker, node, guess, alloc)? {
        asker.facts();
        return Ok(WhyDead::NoPoint(reason));
    }
    let probe = asker.probe(problem, node)?;
    asker.facts();
    match probe {
        Probe::EmptyPair(pair) => Ok(WhyDead::NoRelation(pair)),
        Probe::Closed(need, clause) => Ok(WhyDead::NoPoint(Reason {
            need: u64::from(need_number(problem, need)),
            clause,
        })),
        Probe::Alive => unreachable!(),
    }
}

// A region of a node's last pair that is forced occupied, with a clause that shows it empty. The asker is asked at the node
// without its last relation, where its points stay, and whether the clause closes the region at the node is read.
#[tactic(auto, using(search_log::proofs::Logs::asker_stays, search_log::proofs::Logs::asker_joins))]
fn asked_of_last(
    problem: &Problem,
    asker: &mut Asker,
    node: &Position,
    guess: Guess,
    alloc: Global,
) -> Result<Option<Reason>, AllocError>
    requires shape { asker.old.shape ≡ shape_of problem.now }
    requires within { length node.now ≤ pair_count problem.now }
    ensures kept { AskerGoes asker.old asker.new }
    ensures closed { IfOk result (λ found. IfSome found (Closes problem.now asker.new.solver.state node.now)) }
{
    problem.facts();
    let Some(pair) = node.len().checked_sub(1) else {
        return Ok(None);
    };
    match guess {
        Guess::Beside(_) | Guess::Elsewhere => return Ok(None),
        Guess::Unknown | Guess::Region(_) => {}
    }
    let mut prefix = node.copy(alloc)?;
    prefix.pop();
    for part in PARTS {
        if guess.may_be(part) {
            let need = Need::Region {
                pair: pair as u32,
                part,
            };
            let reason = asked_of(problem, asker, node, &prefix, need)?;
            if reason.is_some() {
                return Ok(reason);
            }
        }
    }
    Ok(None)
}

// The clause that leaves a need no point at a prefix of a node, where the node forces the need and the clause closes it there.
#[tactic(auto, using(search_log::proofs::Logs::asker_stays))]
fn asked_of(
    problem: &Problem,
    asker: &mut Asker,
    node: &Position,
    prefix: &Position,
    need: Need,
) -> Result<Option<Reason>, AllocError>
    requires shape { asker.old.shape ≡ shape_of problem.now }
    requires within { length node.now ≤ pair_count problem.now }
    requires prefix { length prefix.now ≤ pair_count problem.now }
    requires range { IsInRange problem.now need }
    ensures kept { AskerGoes asker.old asker.new }
    ensures closed { IfOk result (λ found. IfSome found (Closes problem.now asker.new.solver.state node.now)) }
{
    if !is_forced(problem, node, need) {
        return Ok(None);
    }
    match asker.ask(problem, prefix, need)? {
        Found::Point(_) => Ok(None),
        Found::Closed(clause) => {
            let need = u64::from(need_number(problem, need));
            Ok(held(problem, asker, node, Reason { need, clause }))
        }
    }
}
