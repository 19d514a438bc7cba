//! The nodes of a problem, in order.

use constraint_set::Problem;
use rcc5_core::{Position, RelSet};
use std::alloc::AllocError;

/// What the pair after a prefix allows: nothing if there is none.
fn next_set(problem: &Problem, prefix: &Position) -> RelSet {
    if prefix.len() < problem.pair_count() as usize {
        problem.allowed(prefix.len() as u32)
    } else {
        RelSet::none()
    }
}

/// Adds the first relation that the next pair allows, if there is one.
pub(crate) fn go_in(problem: &Problem, node: &mut Position) -> Result<bool, AllocError> {
    match next_set(problem, node).first() {
        Some(rel) => {
            node.push(rel)?;
            Ok(true)
        }
        None => Ok(false),
    }
}

/// Goes to the next node that does not begin with this one, if there is one.
pub(crate) fn go_on(problem: &Problem, node: &mut Position) -> Result<bool, AllocError> {
    for _ in 0..node.len() {
        if let Some(rel) = node.pop() {
            if let Some(next) = next_set(problem, node).after(rel) {
                node.push(next)?;
                return Ok(true);
            }
        }
    }
    Ok(false)
}
