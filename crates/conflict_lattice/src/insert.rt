//! A list of flags among ascending ones.
ghost use Rattle.conflict_lattice.specs.Lattice.{ascend};
ghost use Rattle.std.specs.Ordering.{is_lt};
ghost use Rattle.std.specs.Prelude.{All, Bool, Contains, IsTrue, List, OnOk, length, not, slice_index_or, ◌<◌, ◌↔◌, ◌≡◌, ◌≤◌, ◌⊎◌, [], ℕ};
ghost use Rattle.world_model.specs.Questions.{flags_cmp};

use crate::subset::Subset;
use std::alloc::AllocError;

// Whether one list of flags comes before another of the same length: it is false where they first differ.
fn is_before(one: &[bool], other: &[bool]) -> bool
    requires { length one.now ≡ length other.now }
    ensures { result ≡ is_lt (flags_cmp one.now other.now) }
{
    for place in 0..one.len() {
        if one[place] != other[place] {
            return other[place];
        }
    }
    false
}

// The first place behind all lists that come before an item.
fn place_for(list: &[Subset], item: &[bool]) -> usize
    requires { All (λ flags. length flags ≡ length item.now) list.now }
    ensures within { result ≤ length list.now }
    ensures before { (k : ℕ) → k < result → IsTrue (is_lt (flags_cmp (slice_index_or list.now k []) item.now)) }
    ensures behind { result < length list.now → IsTrue (not (is_lt (flags_cmp (slice_index_or list.now result []) item.now))) }
{
    for place in 0..list.len() {
        if !is_before(list[place].flags(), item) {
            return place;
        }
    }
    list.len()
}

/// Puts an item that is not there yet in its place.
pub(crate) fn insert(list: &mut Vec<Subset>, item: Subset) -> Result<(), AllocError>
    requires ascend { IsTrue (ascend list.old.items) }
    requires counted { All (λ flags. length flags ≡ length item) list.old.items }
    requires fresh { Contains list.old.items item → ⊥ }
    ensures ascend { OnOk result (IsTrue (ascend list.new.items)) }
    ensures has { OnOk result ((flags : List Bool) → Contains list.new.items flags ↔ (Contains list.old.items flags ⊎ (flags ≡ item))) }
{
    let place = place_for(list, item.flags());
    list.insert(place, item)?;
    Ok(())
}
