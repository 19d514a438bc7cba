//! Searches beside the plain walk: each world, where they stop at a number of nodes, and right behind each world.

use crate::problems::problem_of;
use crate::spans::{Going, Way, met, met_behind, tell};
use constraint_set::Problem;
use plain_walk::{nodes_between, worlds_between};
use rcc5_core::Position;
use std::alloc::{AllocError, Global};
use std::cmp::{Ordering, min};
use world_model::Switches;

fn is_among(worlds: &[Position], node: &Position) -> bool {
    worlds
        .iter()
        .any(|world| world.compare(node) == Ordering::Equal)
}

fn one_less(left: Option<u64>) -> Option<u64> {
    match left {
        Some(left) => Some(left.saturating_sub(1)),
        None => None,
    }
}

/// What `met` is to be by the lists of all nodes and worlds.
fn wanted(
    alloc: Global,
    nodes: &[Position],
    worlds: &[Position],
    count: Option<u64>,
    times: usize,
) -> Result<String, AllocError> {
    let mut text = String::new(alloc);
    let mut left = count;
    let mut more = times;
    for node in nodes {
        if left == Some(0) {
            tell(&mut text, "next ", node)?;
            more = more.saturating_sub(1);
            left = count;
        }
        if more == 0 {
            return Ok(text);
        }
        if is_among(worlds, node) {
            tell(&mut text, "", node)?;
        }
        left = one_less(left);
    }
    text.push_str("end -")?;
    Ok(text)
}

/// What `met_behind` is to be by these lists: behind each world the very next node.
fn wanted_behind(
    alloc: Global,
    nodes: &[Position],
    worlds: &[Position],
) -> Result<String, AllocError> {
    let mut text = String::new(alloc);
    let mut behind = false;
    for node in nodes {
        if behind {
            tell(&mut text, "next ", node)?;
        }
        behind = is_among(worlds, node);
        if behind {
            tell(&mut text, "", node)?;
        }
    }
    if behind {
        text.push_str("end -")?;
    }
    text.push_str("end -")?;
    Ok(text)
}

/// All nodes and worlds of a problem, by the plain program.
#[derive(Clone, Copy)]
struct Lists<'a> {
    nodes: &'a [Position],
    worlds: &'a [Position],
}

/// Whether a search meets what the lists say.
fn is_met(
    alloc: Global,
    problem: &Problem,
    going: Going,
    lists: Lists<'_>,
) -> Result<bool, AllocError> {
    let found = met(alloc, problem, going, ("", None))?;
    let listed = wanted(alloc, lists.nodes, lists.worlds, going.left, going.times)?;
    Ok(found == listed)
}

/// Whether what is met right behind each world is what the lists say.
fn is_met_behind(
    alloc: Global,
    problem: &Problem,
    way: Way,
    lists: Lists<'_>,
) -> Result<bool, AllocError> {
    let found = met_behind(alloc, problem, way)?;
    let listed = wanted_behind(alloc, lists.nodes, lists.worlds)?;
    Ok(found == listed)
}

fn sign(holds: bool) -> char {
    if holds { '+' } else { '-' }
}

fn put_met(
    out: &mut String,
    alloc: Global,
    problem: &Problem,
    way: Way,
    left: Option<u64>,
    lists: Lists<'_>,
) -> Result<(), AllocError> {
    let going = Going {
        way,
        left,
        times: 1000,
    };
    out.push(sign(is_met(alloc, problem, going, lists)?))
}

/// Puts whether a search in one of the ways meets what the lists say: at once, node by node, by twos and sevens, and right behind
/// each world.
fn put_way(
    out: &mut String,
    alloc: Global,
    problem: &Problem,
    way: Way,
    lists: Lists<'_>,
) -> Result<(), AllocError> {
    put_met(out, alloc, problem, way, None, lists)?;
    put_met(out, alloc, problem, way, Some(1), lists)?;
    put_met(out, alloc, problem, way, Some(2), lists)?;
    put_met(out, alloc, problem, way, Some(7), lists)?;
    out.push(sign(is_met_behind(alloc, problem, way, lists)?))
}

/// Puts the same of both ways.
fn put_both_ways(
    out: &mut String,
    alloc: Global,
    problem: &Problem,
    lists: Lists<'_>,
) -> Result<(), AllocError> {
    put_way(out, alloc, problem, Way::Table, lists)?;
    put_way(out, alloc, problem, Way::Asker, lists)?;
    out.push(';')
}

/// Puts whether a search stops where the lists say, at each count of nodes up to a hundred.
fn put_stops(
    out: &mut String,
    alloc: Global,
    problem: &Problem,
    lists: Lists<'_>,
) -> Result<(), AllocError> {
    for left in 0..=min(lists.nodes.len() as u64, 100) {
        let going = Going {
            way: Way::Table,
            left: Some(left),
            times: 1,
        };
        if !is_met(alloc, problem, going, lists)? {
            return out.push_str(" unlike");
        }
    }
    out.push_str(" alike")
}

fn put_with(
    out: &mut String,
    alloc: Global,
    problem: &Problem,
    nodes: &[Position],
) -> Result<(), AllocError> {
    let worlds = worlds_between(alloc, problem, &Position::new(alloc), None)?;
    let lists = Lists {
        nodes,
        worlds: &worlds,
    };
    put_both_ways(out, alloc, problem, lists)?;
    put_stops(out, alloc, problem, lists)
}

fn put_over(out: &mut String, alloc: Global, problem: &Problem) -> Result<(), AllocError> {
    let nodes = nodes_between(alloc, problem, &Position::new(alloc), None)?;
    put_with(out, alloc, problem, &nodes)
}

/// Signs for whether searches with a table and without meet what the plain walk lists, and whether they stop where it says.
pub(crate) fn compared(
    alloc: Global,
    text: &str,
    switches: Switches,
) -> Result<String, AllocError> {
    let mut out = String::new(alloc);
    let problem = problem_of(alloc, text, switches)?;
    put_over(&mut out, alloc, &problem)?;
    Ok(out)
}
