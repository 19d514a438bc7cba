//! The asker that keeps points and clauses, beside a new plain asker at each node of some small problems.

ghost use Rattle.std.specs.Prelude.{◌≡◌, ◌<◌, ◌≤◌, length, IfOk, IsTrue};
ghost use Rattle.world_model.specs.Problem.{pair_count};
ghost use Rattle.world_model.specs.Alive.{problem_at, IsAlive};
ghost use Rattle.constraint_set.specs.Shape.{shape_of};

use crate::asker::PlainAsker;
use crate::nodes::{go_in, go_on};
use crate::problems::problem_of;
use constraint_set::Problem;
use point_query::{Alive, Asker, Probe};
use rcc5_core::{Position, Rel, RelSet};
use std::alloc::{AllocError, Global};
use world_model::Switches;

/// A walk visits at most so many nodes.
const LIMIT: u32 = 100000;

/// The relations, in their order.
const RELS: [Rel; 5] = [
    Rel::Equals,
    Rel::Includes,
    Rel::IncludedIn,
    Rel::Overlaps,
    Rel::Disjoint,
];

/// How many nodes a walk met, how many full tables that are alive, and how often the two askers said different things.
#[derive(Clone, Copy)]
pub(crate) struct Met {
    nodes: u32,
    pub(crate) worlds: u32,
    pub(crate) unlike: u32,
}

/// What is said of a prefix, without the clause that shows it.
fn without_clause(probe: Probe) -> Probe {
    match probe {
        Probe::Alive => Probe::Alive,
        Probe::EmptyPair(pair) => Probe::EmptyPair(pair),
        Probe::Closed(need, _) => Probe::Closed(need, 0),
    }
}

/// An answer with points as one without them, and how many points there are.
fn without_points(alive: &Alive) -> (Probe, usize) {
    match alive {
        Alive::Points(points) => (Probe::Alive, points.list().len()),
        Alive::EmptyPair(pair) => (Probe::EmptyPair(*pair), 0),
        Alive::Closed(need, _) => (Probe::Closed(*need, 0), 0),
    }
}

/// What a new plain asker says of a prefix.
fn plain_probe(alloc: Global, problem: &Problem, prefix: &Position) -> Result<Probe, AllocError>
    requires { length prefix.now ≤ pair_count problem.now }
{
    let mut plain = PlainAsker::new(alloc, problem)?;
    plain.probe(problem, prefix)
}

/// What a new plain asker says of a prefix, with points.
fn plain_alive(alloc: Global, problem: &Problem, prefix: &Position) -> Result<Alive, AllocError>
    requires { length prefix.now ≤ pair_count problem.now }
{
    let mut plain = PlainAsker::new(alloc, problem)?;
    plain.alive(problem, prefix)
}

/// By which relations a prefix goes on to one of which a new plain asker says that it is alive.
fn plain_after(alloc: Global, problem: &Problem, prefix: &Position) -> Result<RelSet, AllocError>
    requires { length prefix.now < pair_count problem.now }
{
    let mut set = RelSet::none();
    for rel in RELS {
        let mut longer = prefix.copy(alloc)?;
        longer.push(rel)?;
        if plain_probe(alloc, problem, &longer)? == Probe::Alive {
            set = set.with(rel);
        }
    }
    Ok(set)
}

/// Asks both about a node, and whether it is alive.
fn visit(
    alloc: Global,
    asker: &mut Asker,
    problem: &Problem,
    node: &Position,
    met: &mut Met,
) -> Result<bool, AllocError>
    requires shape { asker.old.shape ≡ shape_of problem.now }
    requires within { length node.now ≤ pair_count problem.now }
    ensures shape { asker.new.shape ≡ asker.old.shape }
    ensures alive { IfOk result (λ yes. IsTrue yes → IsAlive (problem_at problem.now node.now)) }
{
    let said = asker.probe(problem, node)?;
    let plain = plain_probe(alloc, problem, node)?;
    met.nodes = met.nodes.saturating_add(1);
    if without_clause(said) != without_clause(plain) {
        met.unlike = met.unlike.saturating_add(1);
    }
    Ok(matches!(said, Probe::Alive))
}

/// Asks both by which relations an alive node goes on to an alive one.
fn visit_alive(
    alloc: Global,
    asker: &mut Asker,
    problem: &Problem,
    node: &Position,
    met: &mut Met,
) -> Result<(), AllocError>
    requires shape { asker.old.shape ≡ shape_of problem.now }
    requires short { length node.now < pair_count problem.now }
    requires alive { IsAlive (problem_at problem.now node.now) }
    ensures shape { asker.new.shape ≡ asker.old.shape }
{
    let said = asker.alive_after(problem, node)?;
    let plain = plain_after(alloc, problem, node)?;
    if said != plain {
        met.unlike = met.unlike.saturating_add(1);
    }
    Ok(())
}

/// Asks both for points of a full table.
fn visit_table(
    alloc: Global,
    asker: &mut Asker,
    problem: &Problem,
    table: &Position,
    met: &mut Met,
) -> Result<(), AllocError>
    requires shape { asker.old.shape ≡ shape_of problem.now }
    requires within { length table.now ≤ pair_count problem.now }
    ensures shape { asker.new.shape ≡ asker.old.shape }
{
    let (said, points) = without_points(&asker.alive(problem, table)?);
    let plain = without_points(&plain_alive(alloc, problem, table)?);
    if (said, points) != plain {
        met.unlike = met.unlike.saturating_add(1);
    }
    if asker.serving(problem, table)?.is_some() != (said == Probe::Alive) {
        met.unlike = met.unlike.saturating_add(1);
    }
    if said == Probe::Alive {
        met.worlds = met.worlds.saturating_add(1);
    }
    Ok(())
}

/// Asks both about a node, and goes to the next one, if there is one.
fn step(
    alloc: Global,
    asker: &mut Asker,
    problem: &Problem,
    node: &mut Position,
    met: &mut Met,
) -> Result<bool, AllocError>
    requires { asker.old.shape ≡ shape_of problem.now }
    ensures { asker.new.shape ≡ asker.old.shape }
{
    let pairs = problem.pair_count() as usize;
    if node.len() > pairs {
        return Err(AllocError);
    }
    let alive = visit(alloc, asker, problem, node, met)?;
    if node.len() == pairs {
        visit_table(alloc, asker, problem, node, met)?;
    }
    if alive {
        if node.len() < pairs {
            visit_alive(alloc, asker, problem, node, met)?;
        }
        if go_in(problem, node)? {
            return Ok(true);
        }
    }
    go_on(problem, node)
}

/// Asks both about all nodes of a problem, in order.
pub(crate) fn walk(alloc: Global, asker: &mut Asker, problem: &Problem) -> Result<Met, AllocError>
    requires { asker.old.shape ≡ shape_of problem.now }
    ensures { asker.new.shape ≡ asker.old.shape }
{
    let mut met = Met {
        nodes: 0,
        worlds: 0,
        unlike: 0,
    };
    let mut node = Position::new(alloc);
    for _ in 0..LIMIT {
        if !step(alloc, asker, problem, &mut node, &mut met)? {
            return Ok(met);
        }
    }
    Err(AllocError)
}

// Here and below no `?` comes after a problem or an asker is made: each would be one more place that lets it go, and proving
// those is dear.
fn walk_anew(alloc: Global, problem: &Problem) -> Result<Met, AllocError> {
    let mut asker = Asker::new(alloc, problem)?;
    walk(alloc, &mut asker, problem)
}

/// How many nodes and worlds a walk with a new asker meets, and how often the two say different things.
pub(crate) fn compared(
    alloc: Global,
    text: &str,
    switches: Switches,
) -> Result<String, AllocError> {
    let problem = problem_of(alloc, text, switches)?;
    let met = walk_anew(alloc, &problem)?;
    let (nodes, worlds, unlike) = (met.nodes, met.worlds, met.unlike);
    format!(in alloc; "{nodes} nodes, {worlds} worlds, {unlike} unlike")
}
