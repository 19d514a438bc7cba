//! Nodes, possible worlds and the cut, by going through all prefixes.
ghost use Rattle.std.specs.Prelude.{◌≡◌, ◌<◌, ◌+◌, ◌++◌, [], ◌∷◌, length, map, filter, IfOk, OnOk};
ghost use Rattle.std.specs.Option.{option_copied};
ghost use Rattle.world_model.specs.Problem.{pair_count};
ghost use Rattle.world_model.specs.Listing.{is_between, is_before_end, IsListing};
ghost use Rattle.world_model.specs.Alive.{allowed};
ghost use Rattle.world_model.specs.Node.{pair_at, IsNodeList, IsCut};
ghost use Rattle.world_model.specs.Trial.{next_rels, nodes_below, nodes_by_trial, is_world_by_trial, nodes_between, worlds_between, is_reached, first_spent, cut_by_trial};

use crate::trial::is_alive;
use constraint_set::Problem;
use rcc5_core::{Position, Rel, RelSet};
use std::alloc::{AllocError, Global};
use std::cmp::Ordering;
use world_model::trial_is_right;

// The relations, in their order.
const RELS: [Rel; 5] = [
    Rel::Equals,
    Rel::Includes,
    Rel::IncludedIn,
    Rel::Overlaps,
    Rel::Disjoint,
];

// What the problem allows of the pair after a prefix.
fn next_set(problem: &Problem, prefix: &Position) -> RelSet
    requires { length prefix.now < pair_count problem.now }
    ensures { result ≡ allowed problem.now (pair_at problem.now (length prefix.now)) }
{
    problem.facts();
    problem.allowed(prefix.len() as u32)
}

// A position followed by one more relation.
fn followed_by(alloc: Global, prefix: &Position, rel: Rel) -> Result<Position, AllocError>
    ensures { IfOk result (λ longer. longer ≡ prefix.now ++ rel ∷ []) }
{
    let mut longer = prefix.copy(alloc)?;
    longer.push(rel)?;
    Ok(longer)
}

// A prefix followed by each relation that its next pair allows.
fn longer(alloc: Global, problem: &Problem, prefix: &Position) -> Result<Vec<Position>, AllocError>
    requires { length prefix.now < pair_count problem.now }
    ensures { IfOk result (λ longer. longer.items ≡ map (λ rel. prefix.now ++ rel ∷ []) (next_rels problem.now prefix.now)) }
{
    let set = next_set(problem, prefix);
    let mut longer = Vec::new(alloc);
    for rel in RELS {
        if set.has(rel) {
            longer.push(followed_by(alloc, prefix, rel)?)?;
        }
    }
    Ok(longer)
}

// Adds a node and all nodes below it, in order, with so many pairs left.
fn walk(
    alloc: Global,
    problem: &Problem,
    prefix: &Position,
    left: usize,
    nodes: &mut Vec<Position>,
) -> Result<(), AllocError>
    requires { length prefix.now + left ≡ pair_count problem.now }
    ensures { OnOk result (nodes.new.items ≡ nodes.old.items ++ nodes_below problem.now left prefix.now) }
{
    nodes.push(prefix.copy(alloc)?)?;
    if left == 0 || !is_alive(alloc, problem, prefix)? {
        return Ok(());
    }
    let longer = longer(alloc, problem, prefix)?;
    for node in &longer {
        walk(alloc, problem, node, left - 1, nodes)?;
    }
    Ok(())
}

// All nodes, in order.
fn all_nodes(alloc: Global, problem: &Problem) -> Result<Vec<Position>, AllocError>
    ensures { IfOk result (λ nodes. nodes.items ≡ nodes_by_trial problem.now) }
{
    let pairs = problem.pair_count() as usize;
    let mut nodes = Vec::new(alloc);
    walk(alloc, problem, &Position::new(alloc), pairs, &mut nodes)?;
    Ok(nodes)
}

// Whether a node is a possible world: a relation for each pair, and alive.
fn is_world(alloc: Global, problem: &Problem, node: &Position) -> Result<bool, AllocError>
    ensures { IfOk result (λ world. world ≡ is_world_by_trial problem.now node.now) }
{
    if node.len() != problem.pair_count() as usize {
        return Ok(false);
    }
    is_alive(alloc, problem, node)
}

// Whether a position is not below the start and, where an end is given, below it.
fn is_between(from: &Position, to: Option<&Position>, node: &Position) -> bool
    ensures { result ≡ is_between from.now (option_copied to.entry) node.now }
{
    node.compare(from) != Ordering::Less && is_before_end(node, to)
}

// Whether a position comes before the end, which may be none.
fn is_before_end(node: &Position, to: Option<&Position>) -> bool
    ensures { result ≡ is_before_end node.now (option_copied to.entry) }
{
    match to {
        None => true,
        Some(end) => node.compare(end) == Ordering::Less,
    }
}

/// The nodes of a problem from one position on and below another, or to the end of all.
pub fn nodes_between(
    alloc: Global,
    problem: &Problem,
    from: &Position,
    to: Option<&Position>,
) -> Result<Vec<Position>, AllocError>
    ensures by_trial { IfOk result (λ nodes. nodes.items ≡ nodes_between problem.now from.now (option_copied to.entry)) }
    ensures exactly { IfOk result (λ nodes. IsNodeList problem.now from.now (option_copied to.entry) nodes.items) }
{
    trial_is_right();
    let mut nodes = all_nodes(alloc, problem)?;
    nodes.retain(|node| is_between(from, to, node));
    Ok(nodes)
}

// Of some nodes those that are possible worlds.
fn worlds_of(
    alloc: Global,
    problem: &Problem,
    nodes: &[Position],
) -> Result<Vec<Position>, AllocError>
    ensures { IfOk result (λ worlds. worlds.items ≡ filter (is_world_by_trial problem.now) nodes.now) }
{
    let mut worlds = Vec::new(alloc);
    for node in nodes {
        if is_world(alloc, problem, node)? {
            worlds.push(node.copy(alloc)?)?;
        }
    }
    Ok(worlds)
}

/// The possible worlds of a problem from one position on and below another, or to the end of all: the
/// listing between them.
pub fn worlds_between(
    alloc: Global,
    problem: &Problem,
    from: &Position,
    to: Option<&Position>,
) -> Result<Vec<Position>, AllocError>
    ensures by_trial { IfOk result (λ worlds. worlds.items ≡ worlds_between problem.now from.now (option_copied to.entry)) }
    ensures exactly { IfOk result (λ worlds. IsListing problem.now from.now (option_copied to.entry) worlds.items) }
{
    trial_is_right();
    problem.facts();
    let nodes = nodes_between(alloc, problem, from, to)?;
    worlds_of(alloc, problem, &nodes)
}

// Whether a count has reached a limit, where one is given.
fn is_reached(limit: Option<u64>, count: u64) -> bool
    ensures { result ≡ is_reached limit count }
{
    match limit {
        None => false,
        Some(limit) => limit <= count,
    }
}

// The first of some nodes before which a limit is reached.
fn first_spent(
    alloc: Global,
    problem: &Problem,
    limits: (Option<u64>, Option<u64>),
    nodes: &[Position],
) -> Result<Option<Position>, AllocError>
    ensures { IfOk result (λ cut. cut ≡ first_spent problem.now limits.0 limits.1 0 0 nodes.now) }
{
    let mut worlds = 0;
    for (passed, node) in nodes.iter().enumerate() {
        if is_reached(limits.0, passed as u64) || is_reached(limits.1, worlds) {
            return Ok(Some(node.copy(alloc)?));
        }
        if is_world(alloc, problem, node)? {
            worlds += 1;
        }
    }
    Ok(None)
}

/// The cut: the first node, from a position on, before which so many nodes, or so many possible
/// worlds, stand from there on. A limit that is not given is never reached.
pub fn cut_after(
    alloc: Global,
    problem: &Problem,
    from: &Position,
    nodes: Option<u64>,
    worlds: Option<u64>,
) -> Result<Option<Position>, AllocError>
    ensures by_trial { IfOk result (λ cut. cut ≡ cut_by_trial problem.now from.now nodes worlds) }
    ensures exactly { IfOk result (λ cut. IsCut problem.now from.now nodes worlds cut) }
{
    trial_is_right();
    problem.facts();
    let list = nodes_between(alloc, problem, from, None)?;
    first_spent(alloc, problem, (nodes, worlds), &list)
}
