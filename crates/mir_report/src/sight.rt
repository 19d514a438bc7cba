//! Questions about a pair, answered by a solver over all points of the problem where there is one, and else by picks.
ghost use Rattle.std.specs.Prelude.{◌≡◌, ◌<◌, length, slice_index_or, IfOk, IfSome, OnOk};
ghost use Rattle.rcc5_core.specs.RelationSet.{only};
ghost use Rattle.world_model.specs.Node.{pair_at};
ghost use Rattle.world_model.specs.Problem.{narrowed, pair_count};
ghost use Rattle.constraint_set.specs.Shape.{SameShape, shape_of};
ghost use Rattle.split_search.specs.Choosing.{IsChoice};
ghost use Rattle.family_solver.specs.Showing.{IsFound, IsGranted, IsGround};
ghost use Rattle.mir_report.specs.Steps.{IsGranter, IsHelp};

use crate::drafted::drafted;
use constraint_set::Problem;
use family_solver::{FamilySolver, Grant, Ground, ground_of};
use pick_search::{Known, choose_part};
use point_ladder::{MOST_POINTS, MOST_TRIES};
use point_query::Asker;
use rcc5_core::{Rel, RelSet};
use split_search::Choice;
use std::alloc::{AllocError, Global};
use wish_family::Table;

/// A solver over all points, and the pairs that it can be asked about: first those whose sets are not whole, then some others.
#[derive(Drop)]
pub(crate) struct Granter {
    ground: Ground,
    // How many pairs stand first.
    split: usize,
    solver: Option<FamilySolver>,
    pub(crate) table: Table,
}

/// What helps to answer questions about the parts of a problem: what clashes, and a solver over its points, where these are few.
#[derive(Drop)]
pub(crate) struct Help {
    pub(crate) clashes: Known,
    pub(crate) granter: Option<Granter>,
    // Some points, where there is no such solver.
    pub(crate) drafted: Option<Table>,
    // What is left of each pair: a hint, by which pairs are chosen that the solver can be asked about.
    pub(crate) left: Vec<RelSet>,
}

/// With more points than so many for each pair a question takes longer than by picks: for eight concepts without parents beside eight,
/// which any set of concepts may be a point of, `mir` took 34 seconds in place of 0.02.
const MOST_POINTS_A_PAIR: usize = 4;

/// A solver is given about so many literals on the pairs that it can be asked about, and as many on those whose sets are not whole.
const MOST_LITERALS: usize = 4_000_000;

// A solver is not made yet.
fn new_granter(alloc: Global, problem: &Problem) -> Result<Option<Granter>, AllocError>
    ensures { IfOk result (λ found. IfSome found (IsGranter problem.now)) }
{
    let few = MOST_POINTS_A_PAIR.saturating_mul(problem.pair_count() as usize);
    let Some(ground) = ground_of(alloc, problem, MOST_POINTS.min(few), MOST_TRIES)? else {
        return Ok(None);
    };
    let split = ground.pairs.len();
    if ground.points.len().saturating_mul(split) > MOST_LITERALS {
        return Ok(None);
    }
    let table = Table::new(alloc, problem, &ground.points, &ground.pairs)?;
    Ok(Some(Granter {
        ground,
        split,
        solver: None,
        table,
    }))
}

// Drafted points, where there is no solver.
fn drafted_for(
    alloc: Global,
    problem: &Problem,
    granter: &Option<Granter>,
) -> Result<Option<Table>, AllocError> {
    if granter.is_some() {
        return Ok(None);
    }
    Ok(Some(drafted(alloc, problem)?))
}

/// Nothing is known to clash yet. Of each pair just these relations may be left. Points are not searched for where they are known to be
/// too many for a table.
pub(crate) fn new_help(
    alloc: Global,
    problem: &Problem,
    left: &[RelSet],
    few_points: bool,
) -> Result<Help, AllocError>
    ensures { IfOk result (IsHelp problem.now) }
{
    let left = Vec::from_slice(alloc, left)?;
    let clashes = Known::new(alloc, problem)?;
    let granter = if few_points {
        new_granter(alloc, problem)?
    } else {
        None
    };
    let drafted = drafted_for(alloc, problem, &granter)?;
    Ok(Help {
        clashes,
        granter,
        drafted,
        left,
    })
}

// The place of a pair, if the solver can be asked about it.
fn place_of(ground: &Ground, pair: u32) -> Option<usize>
    ensures within { IfSome result (λ place. place < length ground.now.pairs.items) }
    ensures there { IfSome result (λ place. slice_index_or ground.now.pairs.items place 0 ≡ pair) }
{
    for place in 0..ground.pairs.len() {
        if ground.pairs[place] == pair {
            return Some(place);
        }
    }
    None
}

// Whether something is left of a pair that was not seen.
fn is_open(left: &[RelSet], seen: &[RelSet], pair: u32) -> bool {
    match (left.get(pair as usize), seen.get(pair as usize)) {
        (Some(left), Some(seen)) => {
            (left.equals && !seen.equals)
                || (left.includes && !seen.includes)
                || (left.included_in && !seen.included_in)
                || (left.overlaps && !seen.overlaps)
                || (left.disjoint && !seen.disjoint)
        }
        _ => false,
    }
}

// Adds a pair, if it is open, has a whole set, and there is room.
fn add_open(
    problem: &Problem,
    ground: &mut Ground,
    pair: u32,
    most: usize,
    open: bool,
) -> Result<(), AllocError>
    requires ground { IsGround problem.now ground.old }
    requires pair { pair < pair_count problem.now }
    ensures { IsGround problem.now ground.new }
{
    if open && ground.pairs.len() < most && problem.allowed(pair).is_whole() {
        ground.add_pair(problem, pair)?;
    }
    Ok(())
}

// Adds the open pairs from one on, as many as there is room for.
fn add_all_open(
    problem: &Problem,
    ground: &mut Ground,
    first: u32,
    most: usize,
    left: &[RelSet],
    seen: &[RelSet],
) -> Result<(), AllocError>
    requires { IsGround problem.now ground.old }
    ensures { OnOk result (IsGround problem.now ground.new) }
{
    'pairs: for pair in first..problem.cross_count() {
        add_open(problem, ground, pair, most, is_open(left, seen, pair))?;
    }
    Ok(())
}

// A solver that can be asked about a pair and the next open ones.
fn refill(
    alloc: Global,
    problem: &Problem,
    granter: &mut Granter,
    first: u32,
    left: &[RelSet],
    seen: &[RelSet],
) -> Result<(), AllocError>
    requires { IsGranter problem.now granter.old }
    ensures { OnOk result (IsGranter problem.now granter.new) }
{
    granter.solver = None;
    let room = MOST_LITERALS
        / granter
            .ground
            .points
            .len()
            .saturating_mul(4)
            .saturating_add(1);
    let most = granter.split.saturating_add(room).saturating_add(1);
    granter.ground.keep_pairs(problem, granter.split);
    add_all_open(problem, &mut granter.ground, first, most, left, seen)?;
    let solver = FamilySolver::new(alloc, problem, &granter.ground)?;
    granter.solver = Some(solver);
    Ok(())
}

// What an answer says of a problem with a pair narrowed.
fn choice_of(
    problem: &Problem,
    part: &Problem,
    ground: &Ground,
    place: usize,
    pair: u32,
    rel: Rel,
    said: Grant,
) -> Option<Choice>
    requires granted { IsGranted problem.now ground.now.pairs.items place rel said }
    requires pair { slice_index_or ground.now.pairs.items place 0 ≡ pair }
    requires part { part.now ≡ narrowed problem.now (pair_at problem.now pair) (only rel) }
    ensures { IfSome result (IsChoice part.now) }
{
    match said {
        Grant::Met(family) => Some(Choice::Met(family)),
        Grant::Refuted => Some(Choice::Refuted),
        Grant::Unclear => None,
    }
}

// What the solver says of a relation of a pair, if it can be asked about the pair.
fn ask_solver(
    alloc: Global,
    problem: &Problem,
    part: &Problem,
    pair: u32,
    rel: Rel,
    granter: &mut Granter,
) -> Result<Option<Choice>, AllocError>
    requires granter { IsGranter problem.now granter.old }
    requires part { part.now ≡ narrowed problem.now (pair_at problem.now pair) (only rel) }
    ensures granter { OnOk result (IsGranter problem.now granter.new) }
    ensures choice { IfOk result (λ found. IfSome found (IsChoice part.now)) }
{
    let Some(place) = place_of(&granter.ground, pair) else {
        return Ok(None);
    };
    let Some(solver) = &mut granter.solver else {
        return Ok(None);
    };
    let said = solver.ask(alloc, problem, &granter.ground, place, rel)?;
    Ok(choice_of(problem, part, &granter.ground, place, pair, rel, said))
}

// Whether a solver must be made before it can be asked about a pair.
fn is_stale(granter: &Granter, pair: u32) -> bool {
    granter.solver.is_none() || place_of(&granter.ground, pair).is_none()
}

// What the solver says of a relation of a pair, if there is one.
fn ask_points(
    alloc: Global,
    problem: &Problem,
    part: &Problem,
    pair: u32,
    rel: Rel,
    seen: &[RelSet],
    help: &mut Help,
) -> Result<Option<Choice>, AllocError>
    requires help { IsHelp problem.now help.old }
    requires part { part.now ≡ narrowed problem.now (pair_at problem.now pair) (only rel) }
    ensures help { OnOk result (IsHelp problem.now help.new) }
    ensures choice { IfOk result (λ found. IfSome found (IsChoice part.now)) }
{
    let Some(granter) = &mut help.granter else {
        return Ok(None);
    };
    if is_stale(granter, pair) {
        refill(alloc, problem, granter, pair, &help.left, seen)?;
    }
    ask_solver(alloc, problem, part, pair, rel, granter)
}

/// Whether a family meets a problem where a pair is narrowed to a relation: by the points, and where these don't tell by picks.
pub(crate) fn choose_with(
    alloc: Global,
    problem: &Problem,
    part: &Problem,
    pair: u32,
    rel: Rel,
    seen: &[RelSet],
    help: &mut Help,
    asker: &mut Asker,
) -> Result<Choice, AllocError>
    requires shape { asker.old.shape ≡ shape_of problem.now }
    requires help { IsHelp problem.now help.old }
    requires within { pair < pair_count problem.now }
    requires part { part.now ≡ narrowed problem.now (pair_at problem.now pair) (only rel) }
    requires alike { SameShape part.now problem.now }
    ensures shape { asker.new.shape ≡ asker.old.shape }
    ensures help { OnOk result (IsHelp problem.now help.new) }
    ensures choice { IfOk result (IsChoice part.now) }
{
    match ask_points(alloc, problem, part, pair, rel, seen, help)? {
        Some(choice) => Ok(choice),
        None => choose_part(alloc, problem, part, &mut help.clashes, asker),
    }
}

// What the points say of the problem, if they are few.
fn any_by_points(
    alloc: Global,
    problem: &Problem,
    help: &Help,
) -> Result<Option<Choice>, AllocError>
    requires { IsHelp problem.now help.now }
    ensures { IfOk result (λ found. IfSome found (IsChoice problem.now)) }
{
    let Some(granter) = &help.granter else {
        return Ok(None);
    };
    let mut solver = FamilySolver::new(alloc, problem, &granter.ground)?;
    match solver.any(alloc, problem, &granter.ground)? {
        Grant::Met(family) => Ok(Some(Choice::Met(family))),
        Grant::Refuted => Ok(Some(Choice::Refuted)),
        Grant::Unclear => Ok(None),
    }
}

/// Whether a family meets a problem: by its points, and where these don't tell by picks.
pub(crate) fn choose_any(
    alloc: Global,
    problem: &Problem,
    help: &mut Help,
    asker: &mut Asker,
) -> Result<Choice, AllocError>
    requires shape { asker.old.shape ≡ shape_of problem.now }
    requires help { IsHelp problem.now help.old }
    ensures shape { asker.new.shape ≡ asker.old.shape }
    ensures help { OnOk result (IsHelp problem.now help.new) }
    ensures choice { IfOk result (IsChoice problem.now) }
{
    match any_by_points(alloc, problem, help)? {
        Some(choice) => Ok(choice),
        None => choose_part(alloc, problem, problem, &mut help.clashes, asker),
    }
}
