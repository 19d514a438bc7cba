//! Lists that are sets, and the places of the points that are in a concept.

ghost use Rattle.std.specs.Prelude.{◌≡◌, ◌<◌, ◌^◌, All, IfOk, length};
ghost use Rattle.std.specs.List.{list_all};
ghost use Rattle.world_model.specs.Alive.{places_with};
ghost use Rattle.set_family.specs.Sets.{is_set_below};

use lits_core::Bits;
use std::alloc::{AllocError, Global};

// Whether a list is strictly ascending, with each number below `u`.
fn is_set_below(u: u32, list: &[u32]) -> bool
    ensures { result ≡ is_set_below u list.now }
{
    let mut least = 0;
    for number in list {
        if *number < least || *number >= u {
            return false;
        }
        least = *number + 1;
    }
    true
}

// Whether each list is.
pub(crate) fn all_sets_below(u: u32, lists: &[Vec<u32>]) -> bool
    ensures { result ≡ list_all (λ v. is_set_below u v.items) lists.now }
{
    lists.iter().all(|list| is_set_below(u, list))
}

// The places of the points that are in a concept.
pub(crate) fn places_of(
    alloc: Global,
    points: &[Bits],
    concept: u32,
) -> Result<Vec<u32>, AllocError>
    requires few { length points.now < 2 ^ 32 }
    requires wide { All (λ bits. concept < length bits) points.now }
    ensures { IfOk result (λ places. places.items ≡ places_with concept 0 points.now) }
{
    let mut places = Vec::new(alloc);
    for place in 0..points.len() {
        if points[place].get(concept as usize) {
            places.push(place as u32)?;
        }
    }
    Ok(places)
}
