//! What a search meets, as a text: each world in letters, then `next` and a node where no more nodes may be visited, and then the worlds
//! behind it, up to `end` and the node there, or a minus for none. The empty position is a point.
ghost use Rattle.std.specs.Prelude.{◌≡◌, ◌≤◌, length, IfOk, IfSome};
ghost use Rattle.world_model.specs.Problem.{pair_count};
ghost use Rattle.constraint_set.specs.Shape.{shape_of};

use crate::problems::{position_of, problem_of, push_position, switches_of};
use cert_text::NoLog;
use constraint_set::Problem;
use point_query::Asker;
use rcc5_core::Position;
use std::alloc::{AllocError, Global};
use world_model::Switches;
use world_search::{Nodes, Search, Step, StepFault};

/// Adds a word, a position in letters and a blank.
pub(crate) fn tell(text: &mut String, word: &str, position: &Position) -> Result<(), AllocError> {
    text.push_str(word)?;
    push_position(text, position)
}

/// What one call of a search comes to.
#[derive(Clone, Copy, PartialEq, Eq)]
enum Came {
    World,
    Spent,
    Ended,
}

/// Adds what one call of a search meets with so many nodes left.
fn tell_step(
    text: &mut String,
    problem: &Problem,
    asker: &mut Asker,
    search: &mut Search,
    nodes: &mut Nodes,
) -> Result<Came, AllocError>
    requires problem { search.old.problem ≡ problem.now }
    requires shape { asker.old.shape ≡ shape_of problem.now }
    ensures problem { search.new.problem ≡ search.old.problem }
    ensures shape { asker.new.shape ≡ asker.old.shape }
{
    match search.next(problem, asker, nodes, &mut NoLog::new()) {
        Ok(Step::World(world, _family)) => {
            tell(text, "", &world)?;
            Ok(Came::World)
        }
        Ok(Step::Spent(node)) => {
            tell(text, "next ", &node)?;
            Ok(Came::Spent)
        }
        Ok(Step::End(Some(node))) => {
            tell(text, "end ", &node)?;
            Ok(Came::Ended)
        }
        Ok(Step::End(None)) => {
            text.push_str("end -")?;
            Ok(Came::Ended)
        }
        Err(StepFault::NoMemory | StepFault::LogFailed) => Err(AllocError),
    }
}

/// Adds what a search meets with so many nodes left. Whether it comes to its end.
fn tell_next(
    text: &mut String,
    problem: &Problem,
    asker: &mut Asker,
    search: &mut Search,
    left: Option<u64>,
) -> Result<bool, AllocError>
    requires problem { search.old.problem ≡ problem.now }
    requires shape { asker.old.shape ≡ shape_of problem.now }
    ensures problem { search.new.problem ≡ search.old.problem }
    ensures shape { asker.new.shape ≡ asker.old.shape }
{
    let mut nodes = Nodes { left };
    for _world in 0..1000 {
        match tell_step(text, problem, asker, search, &mut nodes)? {
            Came::World => {}
            Came::Spent => return Ok(false),
            Came::Ended => return Ok(true),
        }
    }
    Err(AllocError)
}

/// The end of a search by its letters, if it has one.
fn end_of(
    alloc: Global,
    problem: &Problem,
    letters: Option<&str>,
) -> Result<Option<Position>, AllocError>
    ensures { IfOk result (λ end. IfSome end (λ position. length position ≤ pair_count problem.now)) }
{
    match letters {
        Some(letters) => Ok(Some(position_of(alloc, problem, letters)?)),
        None => Ok(None),
    }
}

/// By what a search knows which nodes are alive.
#[derive(Clone, Copy)]
pub(crate) enum Way {
    Table,
    Asker,
}

/// A search of a problem between two positions.
fn search_by(
    alloc: Global,
    problem: &Problem,
    way: Way,
    from: Position,
    to: Option<Position>,
) -> Result<Search, AllocError>
    requires from { length from ≤ pair_count problem.now }
    requires to { IfSome to (λ end. length end ≤ pair_count problem.now) }
    ensures { IfOk result (λ search. search.problem ≡ problem.now) }
{
    match way {
        Way::Table => Search::from(alloc, problem, from, to),
        Way::Asker => Search::without_table(alloc, problem, from, to),
    }
}

fn tell_times(
    text: &mut String,
    problem: &Problem,
    asker: &mut Asker,
    search: &mut Search,
    left: Option<u64>,
    times: usize,
) -> Result<(), AllocError>
    requires problem { search.old.problem ≡ problem.now }
    requires shape { asker.old.shape ≡ shape_of problem.now }
{
    for _time in 0..times {
        if tell_next(text, problem, asker, search, left)? {
            return Ok(());
        }
    }
    Ok(())
}

/// How a search goes: in which way, with how many nodes left, and up to how many times.
#[derive(Clone, Copy)]
pub(crate) struct Going {
    pub(crate) way: Way,
    pub(crate) left: Option<u64>,
    pub(crate) times: usize,
}

// Here and below no `?` comes after an asker, a search or a problem is made: each would be one more place that lets it go, and
// proving those is dear.
fn tell_from(
    text: &mut String,
    alloc: Global,
    problem: &Problem,
    asker: &mut Asker,
    going: Going,
    from: Position,
    to: Option<Position>,
) -> Result<(), AllocError>
    requires shape { asker.old.shape ≡ shape_of problem.now }
    requires from { length from ≤ pair_count problem.now }
    requires to { IfSome to (λ end. length end ≤ pair_count problem.now) }
{
    let mut search = search_by(alloc, problem, going.way, from, to)?;
    tell_times(text, problem, asker, &mut search, going.left, going.times)
}

fn tell_span(
    text: &mut String,
    alloc: Global,
    problem: &Problem,
    asker: &mut Asker,
    going: Going,
    span: (&str, Option<&str>),
) -> Result<(), AllocError>
    requires { asker.old.shape ≡ shape_of problem.now }
{
    let start = position_of(alloc, problem, span.0)?;
    let end = end_of(alloc, problem, span.1)?;
    tell_from(text, alloc, problem, asker, going, start, end)
}

/// What a search of a problem meets with so many nodes left, and again with so many, up to a number of times.
fn tell_met(
    text: &mut String,
    alloc: Global,
    problem: &Problem,
    going: Going,
    span: (&str, Option<&str>),
) -> Result<(), AllocError> {
    let mut asker = Asker::new(alloc, problem)?;
    tell_span(text, alloc, problem, &mut asker, going, span)
}

pub(crate) fn met(
    alloc: Global,
    problem: &Problem,
    going: Going,
    span: (&str, Option<&str>),
) -> Result<String, AllocError> {
    let mut text = String::new(alloc);
    tell_met(&mut text, alloc, problem, going, span)?;
    Ok(text)
}

/// Adds what a search meets up to the next world, and then with no node left. Whether it came to its end before.
fn tell_behind(
    text: &mut String,
    problem: &Problem,
    asker: &mut Asker,
    search: &mut Search,
) -> Result<bool, AllocError>
    requires problem { search.old.problem ≡ problem.now }
    requires shape { asker.old.shape ≡ shape_of problem.now }
    ensures problem { search.new.problem ≡ search.old.problem }
    ensures shape { asker.new.shape ≡ asker.old.shape }
{
    let mut free = Nodes { left: None };
    if tell_step(text, problem, asker, search, &mut free)? == Came::Ended {
        return Ok(true);
    }
    let mut none = Nodes { left: Some(0) };
    tell_step(text, problem, asker, search, &mut none)?;
    Ok(false)
}

fn tell_all_behind(
    text: &mut String,
    problem: &Problem,
    asker: &mut Asker,
    search: &mut Search,
) -> Result<(), AllocError>
    requires problem { search.old.problem ≡ problem.now }
    requires shape { asker.old.shape ≡ shape_of problem.now }
{
    for _world in 0..1000 {
        if tell_behind(text, problem, asker, search)? {
            return Ok(());
        }
    }
    Err(AllocError)
}

fn tell_behind_by(
    text: &mut String,
    alloc: Global,
    problem: &Problem,
    asker: &mut Asker,
    way: Way,
) -> Result<(), AllocError>
    requires { asker.old.shape ≡ shape_of problem.now }
{
    let mut search = search_by(alloc, problem, way, Position::new(alloc), None)?;
    tell_all_behind(text, problem, asker, &mut search)
}

fn tell_met_behind(
    text: &mut String,
    alloc: Global,
    problem: &Problem,
    way: Way,
) -> Result<(), AllocError> {
    let mut asker = Asker::new(alloc, problem)?;
    tell_behind_by(text, alloc, problem, &mut asker, way)
}

/// What a search meets that has no node left right behind each world, and then goes on to the next world.
pub(crate) fn met_behind(alloc: Global, problem: &Problem, way: Way) -> Result<String, AllocError> {
    let mut text = String::new(alloc);
    tell_met_behind(&mut text, alloc, problem, way)?;
    Ok(text)
}

fn node_by_node(alloc: Global, problem: &Problem, way: Way) -> Result<String, AllocError> {
    let going = Going {
        way,
        left: Some(1),
        times: 10000,
    };
    met(alloc, problem, going, ("", None))
}

fn are_alike(alloc: Global, problem: &Problem) -> Result<bool, AllocError> {
    let by_table = node_by_node(alloc, problem, Way::Table)?;
    let by_asker = node_by_node(alloc, problem, Way::Asker)?;
    Ok(by_table == by_asker && by_table.as_str().ends_with("end -"))
}

/// Whether a search with a table and one without meet the same, node by node.
pub(crate) fn both_ways(
    alloc: Global,
    text: &str,
    switches: Switches,
) -> Result<String, AllocError> {
    let problem = problem_of(alloc, text, switches)?;
    let alike = are_alike(alloc, &problem)?;
    String::from_str(alloc, if alike { "alike" } else { "unlike" })
}

fn met_in(alloc: Global, text: &str, from: &str, to: Option<&str>) -> Result<String, AllocError> {
    let going = Going {
        way: Way::Table,
        left: None,
        times: 1,
    };
    let problem = problem_of(alloc, text, switches_of("all"))?;
    met(alloc, &problem, going, (from, to))
}

/// What a search meets from a position on and below another. The two stand beside a colon, a minus for no end.
pub(crate) fn met_between(alloc: Global, text: &str, span: &str) -> Result<String, AllocError> {
    let (from, to) = span.split_once(':').unwrap_or((span, "-"));
    met_in(alloc, text, from, if to == "-" { None } else { Some(to) })
}
