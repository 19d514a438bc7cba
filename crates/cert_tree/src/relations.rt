//! Whether relations and positions are the same.

ghost use Rattle.std.specs.Prelude.{◌≡◌, ◌&&◌, ◌==◌, length};
ghost use Rattle.rcc5_core.specs.Relation.{same_rel};
ghost use Rattle.cert_rules.specs.Trees.{same_last, last_of, same_position, is_node_at};

use rcc5_core::{Position, Rel};

pub(crate) fn is_same(a: Rel, b: Rel) -> bool
    ensures { result ≡ same_rel a b }
{
    match (a, b) {
        (Rel::Equals, Rel::Equals) => true,
        (Rel::Includes, Rel::Includes) => true,
        (Rel::IncludedIn, Rel::IncludedIn) => true,
        (Rel::Overlaps, Rel::Overlaps) => true,
        (Rel::Disjoint, Rel::Disjoint) => true,
        _ => false,
    }
}

/// Whether a node has this depth and this last relation.
pub(crate) fn is_node_at(path: &Position, depth: u32, last: Option<Rel>) -> bool
    ensures { result ≡ is_node_at path.now depth last }
{
    path.len() == depth as usize && is_same_last(last, last_of(path))
}

fn last_of(path: &Position) -> Option<Rel>
    ensures { result ≡ last_of path.now }
{
    let length = path.len();
    if length == 0 {
        None
    } else {
        Some(path.at(length - 1))
    }
}

fn is_same_last(a: Option<Rel>, b: Option<Rel>) -> bool
    ensures { result ≡ same_last a b }
{
    match (a, b) {
        (Some(a), Some(b)) => is_same(a, b),
        (None, None) => true,
        _ => false,
    }
}

pub(crate) fn is_same_position(a: &Position, b: &Position) -> bool
    ensures { result ≡ same_position a.now b.now }
{
    if a.len() != b.len() {
        return false;
    }
    for place in 0..a.len() {
        if !is_same(a.at(place), b.at(place)) {
            return false;
        }
    }
    true
}
